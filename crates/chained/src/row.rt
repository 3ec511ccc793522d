ghost use Rattle.std.specs.Prelude.{◌≡◌, [], ◌∷◌, pos};
ghost use Rattle.tuples.specs.declared.field.Field.TheVariants.{Num};
ghost use Rattle.tuples.specs.Tuples.{fields_of};

use tuples::field::Field;
use tuples::tuple::Tuple;

// Links are numbers of rows, and no boxes: the rows are the caller's memory, with no heap.
/// A row of the caller's memory: a tuple, and the rows behind and before it in its chain.
#[derive(Clone, Copy)]
pub struct ChainRow {
    pub(crate) tuple: Tuple,
    pub(crate) next: u16,
    pub(crate) prev: u16,
}

impl ChainRow {
    /// A row to fill memory with before a space uses it; it holds the tuple of the number 0.
    pub fn blank() -> ChainRow
        ensures tuple { fields_of result.tuple ≡ Num (pos 0) ∷ [] }
        ensures next { result.next ≡ 0 }
        ensures prev { result.prev ≡ 0 }
    {
        ChainRow {
            tuple: Tuple::new(&[Field::Num(0)]).unwrap(),
            next: 0,
            prev: 0,
        }
    }
}
