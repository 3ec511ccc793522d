//! The values that agents exchange: words, sites, fields, tuples and templates, and matching.
#![tactic(auto)]

pub mod blank;
pub mod few;
pub mod field;
pub mod laws;
pub mod numbered;
pub mod place;
pub mod site;
pub mod template;
pub mod tuple;
pub mod word;
