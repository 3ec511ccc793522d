// Why a text is no text of the grammar.
ghost use Rattle.std.specs.Prelude.{◌≡◌, Some};
ghost use Rattle.lex.specs.Refusals.{number_of, words};

use std::error::Error;
use std::fmt;

/// Why a text is refused.
#[derive(Clone, Copy, Debug, PartialEq, Eq)]
pub enum Refusal {
    TooLong = 1,
    NotAllowed = 2,
    TooDeep = 3,
    TooLarge = 4,
}

impl Refusal {
    // A method and no `From`: its name says that this number is what tells the refusal.
    /// The number that tells the refusal.
    pub fn number(self) -> u8
        ensures { result ≡ number_of self }
    {
        self as u8
    }
}

impl fmt::Display for Refusal {
    ghost output = { λ r. Some (words r) };

    fn fmt<W: fmt::Write>(&self, f: &mut fmt::Formatter<W>) -> fmt::Result {
        match self {
            Refusal::TooLong => write!(f, "the text is too long"),
            Refusal::NotAllowed => write!(f, "the grammar does not allow this token"),
            Refusal::TooDeep => write!(f, "too many brackets are open"),
            Refusal::TooLarge => write!(f, "the number has more than 32 bits"),
        }
    }
}

impl Error for Refusal {}
