ghost use Rattle.std.specs.Prelude.{◌≡◌};
ghost use Rattle.chained.specs.Links.{forward, numbered};
ghost use Rattle.chained.specs.Steps.{Inside};

use crate::ends::Ends;
use crate::row::ChainRow;
use std::marker::Model;
use tuples::tuple::Tuple;

/// The rows of a chain from some row on; the iterator tells each row's number and its tuple.
#[derive(Drop)]
pub(crate) struct Chain<'r> {
    rows: &'r [ChainRow],
    ends: Ends,
}

impl<'r> Model for Chain<'r> {
    ghost use Rattle.std.specs.Prelude.{ℕ, List};
    ghost use Rattle.tuples.specs.Tuples.{Tuple};
    ghost use Rattle.chained.specs.Links.{forward, numbered};
    ghost use Rattle.chained.specs.Steps.{Inside as StaysInside};

    ghost Value = { List (ℕ × Tuple) };

    ghost view = { λ s. numbered s.rows.now (forward s.rows.now s.ends) };

    ghost invariant = { λ s. StaysInside s.rows.now s.ends };
}

impl<'r> Chain<'r> {
    /// The chain that has these ends.
    pub(crate) fn between(rows: &'r [ChainRow], ends: Ends) -> Chain<'r>
        requires { Inside rows.now ends }
        ensures { result ≡ numbered rows.now (forward rows.now ends) }
    {
        Chain { rows, ends }
    }
}

impl<'r> Iterator for Chain<'r> {
    ghost use Rattle.std.specs.Prelude.{length};
    ghost use Rattle.std.specs.Iterator.{at_most};
    ghost use Rattle.std.specs.Map.Iter.{TakesFirst};
    ghost use Rattle.chained.specs.Links.{told};

    type Item = (u16, &'r Tuple);

    ghost next_gives = { TakesFirst told };

    ghost remaining = { λ s. at_most (length s) };

    fn next(&mut self) -> Option<(u16, &'r Tuple)> {
        self.ends.many = self.ends.many.checked_sub(1)?;
        let at = self.ends.first;
        let row = &self.rows[at as usize];
        self.ends.first = row.next;
        Some((at, &row.tuple))
    }
}
