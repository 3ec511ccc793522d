//! What a text stands for: the faults of its names, types and tables, and the net that is read where there are none.
#![tactic(auto)]

pub mod laws;
