ghost use Rattle.std.specs.Prelude.{refl};
ghost use Rattle.rings.specs.Rings.{room, listed};
ghost use Rattle.carriers.specs.Limits.{ring_limited};

use crate::letter::Letter;
use crate::mailbag::Mailbag;
use rings::ring::Ring;

/// A ring of letters, over at most 256 rows of the caller's memory.
pub type LetterRing<'a> = Ring<'a, Letter, 256>;

impl<'a> Mailbag for Ring<'a, Letter, 256> {
    ghost letters = { λ r. listed r };

    ghost places = { λ r. room r };

    ghost limited = { λ r. ring_limited r };

    ghost all = { λ _. refl };

    ghost whole = { λ _. refl };
}
