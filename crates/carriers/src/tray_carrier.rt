ghost use Rattle.std.specs.Prelude.{refl};
ghost use Rattle.rows.specs.Trays.{room, listed};
ghost use Rattle.carriers.specs.Limits.{tray_limited};

use crate::letter::Letter;
use crate::mailbag::Mailbag;
use rows::tray::Tray;

/// A tray of letters, over at most 256 rows of the caller's memory.
pub type LetterTray<'a> = Tray<'a, Letter, 256>;

impl<'a> Mailbag for Tray<'a, Letter, 256> {
    ghost letters = { λ t. listed t };

    ghost places = { λ t. room t };

    ghost limited = { λ t. tray_limited t };

    ghost all = { λ _. refl };

    ghost whole = { λ _. refl };
}
