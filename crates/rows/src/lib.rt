//! Rows of the caller's memory: the question that finds one, the search for it, what keeps rows in use, and the tray.
#![tactic(auto)]

pub mod laws;
pub mod row;
pub mod search;
pub mod store;
pub mod tray;
