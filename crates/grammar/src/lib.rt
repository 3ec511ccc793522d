// The first round of the reader: whether a text is one of the grammar.
#![tactic(auto)]

mod entries;
mod net;
mod process;
mod terms;
mod unread;

pub use net::check;
