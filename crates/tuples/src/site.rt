use crate::numbered::Numbered;
use std::fmt;

/// A site of a net, told by its number: one of 32.
pub type Site = Numbered<32>;

// As for a word, but by a letter of its own.
impl fmt::Display for Numbered<32> {
    fn fmt<W: fmt::Write>(&self, f: &mut fmt::Formatter<W>) -> fmt::Result {
        write!(f, "s{}", self.number())
    }
}
