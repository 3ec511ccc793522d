ghost use Rattle.std.specs.Prelude.{◌-◌, ◌≤◌, length, min};

// A slice with a place and a count beside it: the rows are the caller's memory, with no heap.
/// Rows in use in the caller's memory, oldest first from `first` on, round the end of the rows that a ring uses, at most `MOST`.
#[derive(Debug, Drop)]
pub struct Ring<'a, R, const MOST: usize> {
    rows: &'a mut [R],
    first: usize,
    used: usize,
    ghost begins: { first ≤ min (length rows.now) MOST - 1 },
    ghost fits: { used ≤ min (length rows.now) MOST },
}

pub mod methods;
