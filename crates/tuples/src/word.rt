use crate::numbered::Numbered;
use std::fmt;

/// A word, told by its number: one of 128.
pub type Word = Numbered<128>;

// As for a site, but by a letter of its own.
impl fmt::Display for Numbered<128> {
    fn fmt<W: fmt::Write>(&self, f: &mut fmt::Formatter<W>) -> fmt::Result {
        write!(f, "w{}", self.number())
    }
}
