ghost use Rattle.std.specs.Prelude.{◌≡◌, ℕ, List, true, [], ◌∷◌, ◌++◌, length, is_ok, if◌then◌else◌, MatchOption, MatchResult, nat_lt};
ghost use Rattle.rows.specs.Bags.{many, Same, Gains};
ghost use Rattle.rows.specs.Searches.{found, without};
ghost use Rattle.carriers.specs.declared.letter.Letter.{Letter as Mail};
ghost use Rattle.carriers.specs.Carriers.{Limited, is_for};

use crate::carrier::Carrier;
use crate::letter::Letter;
use rows::store::Store;
use rows::tray::Full;
use tuples::site::Site;

// That the limit is kept is data and no law, as in `Carrier`, so that a clause may name it and a carrier behind a
// `dyn` has it. So it speaks of members of this trait, and two laws tie these to the store's.
/// A store of letters that keeps a carrier's limit.
pub trait Mailbag: Store<Kept = Letter> {
    ghost letters: { Self → List Mail };

    ghost places: { Self → ℕ };

    ghost limited: { (s : Self) → Limited (letters s) (places s) };

    ghost all: { (s : Self) → letters s ≡ Self.listed s };

    ghost whole: { (s : Self) → places s ≡ Self.room s };
}

/// Each store of letters that keeps a carrier's limit is a carrier.
impl<S: Mailbag> Carrier for S {
    ghost mail = { λ c. S.letters c };

    ghost capacity = { λ c. S.places c };

    ghost limited = { λ c. S.limited c };

    fn limit(&self) -> usize {
        Store::limit(self)
    }

    fn clear(&mut self) {
        Store::clear(self);
    }

    fn waiting(&self) -> usize {
        Store::len(self)
    }

    /// Adds a letter as the youngest in the mail.
    fn post(&mut self, letter: Letter) -> Result<(), Full>
        ensures took { is_ok result ≡ nat_lt (length (S.letters self.old)) (S.places self.old) }
        ensures after { MatchResult result (λ _. Gains letter (S.letters self.old) (S.letters self.new)) (λ _. Same (S.letters self.old) (S.letters self.new)) }
        ensures fixed { S.places self.new ≡ S.places self.old }
        ensures youngest { S.listed self.new ≡ (if is_ok result then S.listed self.old ++ (letter ∷ []) else S.listed self.old) }
    {
        Store::add(self, letter)
    }

    /// Takes out the oldest letter for the site; the others keep their order.
    fn fetch(&mut self, site: usize) -> Option<Letter>
        ensures after { MatchOption result ((many (is_for site) (S.letters self.old) ≡ 0) × Same (S.letters self.old) (S.letters self.new)) (λ l. (is_for site l ≡ true) × Gains l (S.letters self.new) (S.letters self.old)) }
        ensures fixed { S.places self.new ≡ S.places self.old }
        ensures oldest { result ≡ found (is_for site) (S.listed self.old) }
        ensures order { S.listed self.new ≡ without (is_for site) (S.listed self.old) }
    {
        let to = Site::new(site)?;
        Store::take(self, &to)
    }
}
