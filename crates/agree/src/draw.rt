ghost use Rattle.std.specs.Prelude.{◌<◌};

use tuples::field::{Field, FieldType};
use tuples::place::Place;
use tuples::site::Site;
use tuples::template::Template;
use tuples::tuple::Tuple;
use tuples::word::Word;

/// A fixed sequence of numbers that look drawn at random.
#[derive(Drop)]
pub struct Draw {
    state: u64,
}

impl Draw {
    /// The sequence that begins with a seed.
    pub(crate) fn new(seed: u64) -> Draw {
        Draw { state: seed }
    }

    /// The next number, below `bound` where that is not 0.
    pub(crate) fn below(&mut self, bound: usize) -> usize
        ensures { 0 < bound → result < bound }
    {
        self.state = self
            .state
            .wrapping_mul(6_364_136_223_846_793_005)
            .wrapping_add(1_442_695_040_888_963_407);
        let high = (self.state >> 33) as usize;
        if bound == 0 { 0 } else { high % bound }
    }

    /// A field out of a small stock, so that equal ones come often.
    pub(crate) fn field(&mut self) -> Field {
        let number = self.below(3);
        match self.below(3) {
            0 => Field::Word(Word::new(number).unwrap()),
            1 => Field::Site(Site::new(number).unwrap()),
            _ => Field::Num(number as i32),
        }
    }

    /// A tuple of one or two fields.
    pub(crate) fn tuple(&mut self) -> Tuple {
        let fields = [self.field(), self.field()];
        let len = 1 + self.below(2);
        Tuple::new(&fields[..len]).unwrap()
    }

    fn place(&mut self) -> Place {
        match self.below(5) {
            0 => Place::Formal(FieldType::Num),
            1 => Place::Formal(FieldType::Word),
            2 => Place::Formal(FieldType::Site),
            _ => Place::Actual(self.field()),
        }
    }

    /// A template of one or two places.
    pub(crate) fn template(&mut self) -> Template {
        let places = [self.place(), self.place()];
        let len = 1 + self.below(2);
        Template::new(&places[..len]).unwrap()
    }
}
