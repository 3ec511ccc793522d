ghost use Rattle.std.specs.Prelude.{◌≡◌};
ghost use Rattle.tuples.specs.Matching.{accepts};

use crate::field::{Field, FieldType};
use std::fmt;

/// A place of a template: an actual field, or a formal of a type.
#[derive(Clone, Copy, PartialEq, Eq, Debug)]
pub enum Place {
    Actual(Field),
    Formal(FieldType),
}

impl Place {
    /// Whether the place accepts a field: an actual its equal alone, a formal each field of its type.
    pub fn accepts(self, field: Field) -> bool
        ensures { result ≡ accepts self field }
    {
        match self {
            Place::Actual(wanted) => wanted == field,
            Place::Formal(wanted) => wanted == field.field_type(),
        }
    }
}

impl fmt::Display for Place {
    fn fmt<W: fmt::Write>(&self, f: &mut fmt::Formatter<W>) -> fmt::Result {
        match *self {
            Place::Actual(field) => write!(f, "{field}"),
            Place::Formal(field_type) => write!(f, "!{field_type}"),
        }
    }
}
