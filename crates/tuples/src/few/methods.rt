ghost use Rattle.std.specs.Prelude.{◌≡◌, ℕ, ◌<◌, ◌≤◌, ◌⊎◌, length, take, slice_index_or, MatchOption};
ghost use Rattle.tuples.specs.Fews.{items_of};

use crate::blank::Blank;
use crate::few::Few;
use std::fmt;

impl<T: Blank> Few<T> {
    // An `Option` and no `TryFrom`: only the number of the items is refused, and an error would say no more.
    /// These items, or nothing where there are none or more than four.
    pub fn new(items: &[T]) -> Option<Few<T>>
        ensures { MatchOption result ((length items.now ≡ 0) ⊎ (4 < length items.now)) (λ f. items_of f ≡ items.now) }
    {
        if items.is_empty() || items.len() > 4 {
            return None;
        }
        Some(Few {
            len: items.len(),
            items: padded(items, T::blank()),
        })
    }

    /// The items, in order.
    pub fn items(&self) -> &[T]
        ensures { result.now ≡ items_of self.now }
    {
        &self.items[..self.len]
    }
}

/// Up to four items in order, and `blank` in each place after them.
fn padded<T: Copy>(items: &[T], blank: T) -> [T; 4]
    requires { length items.now ≤ 4 }
    ensures four { length result ≡ 4 }
    ensures front { take (length items.now) result ≡ items.now }
    ensures rest { (k : ℕ) → length items.now ≤ k → k < 4 → slice_index_or result k blank ≡ blank }
{
    let mut all = [blank; 4];
    all[..items.len()].copy_from_slice(items);
    all
}

impl<T: Blank + fmt::Display> fmt::Display for Few<T> {
    fn fmt<W: fmt::Write>(&self, f: &mut fmt::Formatter<W>) -> fmt::Result {
        let mut before = "(";
        for item in self.items() {
            write!(f, "{before}{item}")?;
            before = ", ";
        }
        write!(f, ")")
    }
}
