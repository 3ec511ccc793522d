ghost use Rattle.std.specs.Prelude.{◌≡◌, ℕ, true, List, [], length, is_ok, MatchOption, MatchResult, nat_lt};
ghost use Rattle.rows.specs.Bags.{many, Same, Gains};
ghost use Rattle.carriers.specs.declared.letter.Letter.{Letter as Mail};
ghost use Rattle.carriers.specs.Carriers.{Limited, is_for};

use crate::letter::Letter;
use rows::tray::Full;

// `fixed` relates a carrier before to the carrier after, which no invariant can say.
/// A carrier: copies of letters in the mail, up to a limit.
pub trait Carrier {
    ghost mail: { Self → List Mail };

    ghost capacity: { Self → ℕ };

    ghost limited: { (c : Self) → Limited (mail c) (capacity c) };

    /// How many letters the carrier can hold at most.
    fn limit(&self) -> usize
        ensures { result ≡ capacity self.now };

    /// Takes all letters out.
    fn clear(&mut self)
        ensures empty { mail self.new ≡ [] }
        ensures fixed { capacity self.new ≡ capacity self.old };

    /// How many letters wait in the mail.
    fn waiting(&self) -> usize
        ensures { result ≡ length (mail self.now) };

    /// Adds a letter to the mail, or refuses it where as many wait as the limit allows.
    fn post(&mut self, letter: Letter) -> Result<(), Full>
        ensures took { is_ok result ≡ nat_lt (length (mail self.old)) (capacity self.old) }
        ensures after { MatchResult result (λ _. Gains letter (mail self.old) (mail self.new)) (λ _. Same (mail self.old) (mail self.new)) }
        ensures fixed { capacity self.new ≡ capacity self.old };

    /// Takes out some letter for the site, or finds nothing where there is none.
    fn fetch(&mut self, site: usize) -> Option<Letter>
        ensures after { MatchOption result ((many (is_for site) (mail self.old) ≡ 0) × Same (mail self.old) (mail self.new)) (λ l. (is_for site l ≡ true) × Gains l (mail self.new) (mail self.old)) }
        ensures fixed { capacity self.new ≡ capacity self.old };
}
