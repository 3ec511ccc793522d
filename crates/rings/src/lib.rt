//! Rows of the caller's memory kept as a ring, oldest first.
#![tactic(auto)]

pub mod ring;
