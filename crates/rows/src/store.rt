ghost use Rattle.std.specs.Prelude.{◌≡◌, ℕ, List, [], ◌∷◌, ◌++◌, length, is_ok, if◌then◌else◌, nat_lt};
ghost use Rattle.rows.specs.Searches.{found, without};

use crate::row::Row;
use crate::tray::Full;

// `fixed` relates a store before to the store after, which no invariant can say.
/// Rows in use in the caller's memory, oldest first.
pub trait Store {
    /// The kind of row that is kept.
    type Kept: Row;

    ghost listed: { Self → List Self.Kept };

    ghost room: { Self → ℕ };

    /// How many rows the store can use.
    fn limit(&self) -> usize
        ensures { result ≡ room self.now };

    /// How many rows are in use.
    fn len(&self) -> usize
        ensures { result ≡ length (listed self.now) };

    /// Puts no row in use.
    fn clear(&mut self)
        ensures empty { listed self.new ≡ [] }
        ensures fixed { room self.new ≡ room self.old };

    /// Adds a row as the youngest, or refuses it where all rows that the store can use are in use.
    fn add(&mut self, row: Self::Kept) -> Result<(), Full>
        ensures took { is_ok result ≡ nat_lt (length (listed self.old)) (room self.old) }
        ensures after { listed self.new ≡ (if is_ok result then listed self.old ++ (row ∷ []) else listed self.old) }
        ensures fixed { room self.new ≡ room self.old };

    /// Takes out the oldest row that answers; the others keep their order.
    fn take(&mut self, question: &<Self::Kept as Row>::Question) -> Option<Self::Kept>
        ensures got { result ≡ found (λ x. Self.Kept.hit x question.now) (listed self.old) }
        ensures after { listed self.new ≡ without (λ x. Self.Kept.hit x question.now) (listed self.old) }
        ensures fixed { room self.new ≡ room self.old };
}
