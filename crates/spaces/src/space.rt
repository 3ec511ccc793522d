ghost use Rattle.std.specs.Prelude.{◌≡◌, ℕ, ◌<◌, true, Some, List, [], length, MatchOption, MatchResult};
ghost use Rattle.tuples.specs.Matching.{matches};
ghost use Rattle.rows.specs.Bags.{many, Same, Gains};
ghost use Rattle.spaces.specs.Spaces.{Located, Bounded, at, hits, copies};
ghost use Rattle.spaces.specs.Answers.{put_answer, words};
ghost use Rattle.spaces.specs.declared.space.PutRefusal.TheVariants as refusal;

use rows::tray::Full;
use std::error::Error;
use std::fmt;
use tuples::template::Template;
use tuples::tuple::Tuple;

/// Why a space refuses a tuple.
#[derive(Clone, Copy, PartialEq, Eq, Debug)]
pub enum PutRefusal {
    NoSuchSite,
    Full,
}

impl fmt::Display for PutRefusal {
    ghost output = { λ r. Some (words r) };

    fn fmt<W: fmt::Write>(&self, f: &mut fmt::Formatter<W>) -> fmt::Result {
        match self {
            Self::NoSuchSite => write!(f, "there is no such site"),
            Self::Full => write!(f, "the space is full"),
        }
    }
}

impl Error for PutRefusal {}

impl From<Full> for PutRefusal {
    ghost from_gives = { λ _ e. e ≡ refusal.Full };

    fn from(_full: Full) -> PutRefusal {
        PutRefusal::Full
    }
}

// A site is an ordinary number in a call, and no `Site`, so that any number can be asked for; it stands beside
// the template, and not with it in a `Wanted`, whose site is one of the 32.
// `fixed` relates a space before to the space after, which no invariant can say.
/// A tuple space: copies of tuples at sites, up to a limit.
pub trait Space {
    ghost held: { Self → List Located };

    ghost room: { Self → ℕ };

    ghost bounded: { (s : Self) → Bounded (held s) (room s) };

    /// How many copies the space can hold at most.
    fn limit(&self) -> usize
        ensures { result ≡ room self.now };

    /// Takes all copies out.
    fn clear(&mut self)
        ensures empty { held self.new ≡ [] }
        ensures fixed { room self.new ≡ room self.old };

    /// How many copies the space holds.
    fn size(&self) -> usize
        ensures { result ≡ length (held self.now) };

    /// Adds a copy of a tuple at a site, or refuses it where there is no such site or the space is full.
    fn put(&mut self, site: usize, tuple: Tuple) -> Result<(), PutRefusal>
        ensures answer { result ≡ put_answer (length (held self.old)) (room self.old) site }
        ensures after { MatchResult result (λ _. Gains (at site tuple) (held self.old) (held self.new)) (λ _. Same (held self.old) (held self.new)) }
        ensures fixed { room self.new ≡ room self.old };

    /// Takes one copy out of some tuple that the template matches at the site, or finds nothing where there is none.
    fn take(&mut self, site: usize, template: &Template) -> Option<Tuple>
        ensures after { MatchOption result ((many (hits site template.now) (held self.old) ≡ 0) × Same (held self.old) (held self.new)) (λ t. (matches template.now t ≡ true) × Gains (at site t) (held self.new) (held self.old)) }
        ensures fixed { room self.new ≡ room self.old };

    /// Some tuple that the template matches at the site, or nothing where there is none.
    fn peek(&self, site: usize, template: &Template) -> Option<Tuple>
        ensures { MatchOption result (many (hits site template.now) (held self.now) ≡ 0) (λ t. (matches template.now t ≡ true) × (0 < copies (held self.now) site t)) };

    /// How many copies at the site the template matches.
    fn count(&self, site: usize, template: &Template) -> usize
        ensures { result ≡ many (hits site template.now) (held self.now) };
}
