ghost use Rattle.std.specs.Prelude.{◌≤◌, Some, codes, length, min};

use std::error::Error;
use std::fmt;

// A slice with a count beside it, and no `Vec`: the rows are the caller's memory, with no heap.
/// Rows in use at the front of the caller's memory, of which a tray uses at most `MOST`.
#[derive(Debug, Drop)]
pub struct Tray<'a, R, const MOST: usize> {
    rows: &'a mut [R],
    used: usize,
    ghost fits: { used ≤ min (length rows.now) MOST },
}

/// The refusal of a row for which there is no room.
#[derive(Clone, Copy, PartialEq, Eq, Debug)]
pub struct Full;

impl fmt::Display for Full {
    ghost output = { λ _. Some (codes "no row is free") };

    fn fmt<W: fmt::Write>(&self, f: &mut fmt::Formatter<W>) -> fmt::Result {
        write!(f, "no row is free")
    }
}

impl Error for Full {}

pub mod methods;
