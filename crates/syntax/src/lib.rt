// The grammar's trees, its machine and the theorems about them, with the terms that code and
// definitions share.
#![tactic(auto)]

mod stands;

pub use stands::{decided_stands, exact_stands, refused_stands, unique_stands};

// Enums, also where code chooses a step by them: the machine's definitions speak of these sorts.

/// A terminal of the grammar: the token that has to stand at a place.
#[derive(Clone, Copy, Debug)]
pub enum Terminal {
    Sign(u8),
    Name,
    Variable,
    TypeWord,
    Target,
}

/// What a list in brackets lists.
#[derive(Clone, Copy, Debug)]
pub enum Entries {
    Fields,
    Places,
    Params,
}

/// The lines of one sort, which stand together.
#[derive(Clone, Copy, Debug)]
pub enum Lines {
    Sites,
    Defs,
    Puts,
    Runs,
}
