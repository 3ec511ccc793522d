ghost use Rattle.std.specs.Prelude.{◌≡◌, ℕ, ◌<◌, ◌≤◌, length, slice_index_or, ⊤};

use crate::blank::Blank;
use std::alloc::AllocError;

// An array with a length beside it: rows of the caller's memory hold it and are copied, with no heap, and
// neither a `Vec` nor an `ArrayVec` is `Copy`.
/// One to four items, in fixed memory; the places that they do not use are blank.
#[derive(PartialEq, Eq, Debug)]
pub struct Few<T: Blank> {
    len: usize,
    items: [T; 4],
    ghost some: { 1 ≤ len },
    ghost few: { len ≤ 4 },
    ghost four: { length items ≡ 4 },
    ghost rest: { (k : ℕ) → len ≤ k → k < 4 → slice_index_or items k T.blank ≡ T.blank },
}

// By hand: for a struct that is generic in a type and has facts about its fields, `Clone` is not derived.
impl<T: Blank> Clone for Few<T> {
    ghost is_clone = { λ f g. g ≡ f };

    ghost is_infallible = { λ _. ⊤ };

    fn clone(&self) -> Result<Few<T>, AllocError> {
        Ok(*self)
    }
}

impl<T: Blank> Copy for Few<T> {}

pub mod methods;
