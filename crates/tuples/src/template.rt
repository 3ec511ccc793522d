ghost use Rattle.std.specs.Prelude.{◌≡◌};
ghost use Rattle.tuples.specs.Matching.{matches};

use crate::few::Few;
use crate::place::Place;
use crate::tuple::Tuple;

/// A template of one to four places; those that it does not use hold the number 0.
pub type Template = Few<Place>;

impl Few<Place> {
    /// Whether the template matches a tuple: both have equally many places, and each place accepts its opposite.
    pub fn matches(&self, tuple: &Tuple) -> bool
        ensures { result ≡ matches self.now tuple.now }
    {
        let places = self.items();
        let fields = tuple.items();
        if places.len() != fields.len() {
            return false;
        }
        // By index, where a `zip` would do: the project asks for this form.
        for (i, place) in places.iter().enumerate() {
            if !place.accepts(fields[i]) {
                return false;
            }
        }
        true
    }
}
