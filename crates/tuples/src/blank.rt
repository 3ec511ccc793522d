ghost use Rattle.std.specs.Prelude.{◌≡◌, pos};
ghost use Rattle.tuples.specs.declared.field.Field.TheVariants.{Num};
ghost use Rattle.tuples.specs.declared.place.Place.TheVariants.{Actual};

use crate::field::Field;
use crate::place::Place;

// Not `Default`, whose ghost member is a relation: the facts of `Few` speak of the one value.
/// An item of which there is a blank one, for places that are not used.
pub trait Blank: Copy {
    ghost blank: { Self };

    /// The blank one.
    fn blank() -> Self
        ensures { result ≡ blank };
}

/// The blank field is the number 0.
impl Blank for Field {
    ghost blank = { Num (pos 0) };

    fn blank() -> Field {
        Field::Num(0)
    }
}

/// The blank place is the number 0.
impl Blank for Place {
    ghost blank = { Actual (Num (pos 0)) };

    fn blank() -> Place {
        Place::Actual(Field::Num(0))
    }
}
