ghost use Rattle.std.specs.Prelude.{◌≡◌};
ghost use Rattle.tuples.specs.Values.{type_of};

use crate::site::Site;
use crate::word::Word;
use std::fmt;

/// A field of a tuple: a signed number of 32 bits, a word or a site.
#[derive(Clone, Copy, Debug, PartialEq, Eq)]
pub enum Field {
    Num(i32),
    Word(Word),
    Site(Site),
}

/// The type of a field.
#[derive(Clone, Copy, PartialEq, Eq, Debug)]
pub enum FieldType {
    Num,
    Word,
    Site,
}

impl Field {
    /// The type of the field.
    pub fn field_type(self) -> FieldType
        ensures { result ≡ type_of self }
    {
        match self {
            Field::Num(_) => FieldType::Num,
            Field::Word(_) => FieldType::Word,
            Field::Site(_) => FieldType::Site,
        }
    }
}

impl fmt::Display for Field {
    fn fmt<W: fmt::Write>(&self, f: &mut fmt::Formatter<W>) -> fmt::Result {
        match *self {
            Field::Num(number) => write!(f, "{number}"),
            Field::Word(word) => write!(f, "{word}"),
            Field::Site(site) => write!(f, "{site}"),
        }
    }
}

impl fmt::Display for FieldType {
    fn fmt<W: fmt::Write>(&self, f: &mut fmt::Formatter<W>) -> fmt::Result {
        match *self {
            FieldType::Num => write!(f, "num"),
            FieldType::Word => write!(f, "word"),
            FieldType::Site => write!(f, "site"),
        }
    }
}
