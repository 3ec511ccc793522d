ghost use Rattle.std.specs.Prelude.{◌≡◌, [], ◌∷◌, ◌++◌, length, is_ok, if◌then◌else◌, nat_lt, slice_set};
ghost use Rattle.rows.specs.Bags.{many};
ghost use Rattle.rows.specs.Searches.{found, without, visited};
ghost use Rattle.rows.specs.Trays.{room, filled, listed, after_take};

use crate::row::Row;
use crate::search;
use crate::store::Store;
use crate::tray::{Full, Tray};

impl<'a, R: Row, const MOST: usize> Tray<'a, R, MOST> {
    /// A tray with no row in use, over the caller's memory.
    pub fn over(rows: &'a mut [R]) -> Tray<'a, R, MOST>
        ensures empty { listed result ≡ [] }
        ensures memory { result.rows.now ≡ rows.old }
        ensures lent { result.rows.ghost_name ≡ rows.entry.ghost_name }
    {
        Tray { rows, used: 0 }
    }

    /// The first row that answers, or nothing where none does.
    pub fn peek(&self, question: &R::Question) -> Option<R>
        ensures { result ≡ found (λ x. R.hit x question.now) (listed self.now) }
    {
        let rows = self.in_use();
        search::first(rows, question).map(|at| rows[at])
    }

    /// How many rows answer.
    pub fn count(&self, question: &R::Question) -> usize
        ensures { result ≡ many (λ x. R.hit x question.now) (listed self.now) }
    {
        search::count(self.in_use(), question)
    }

    /// How many rows a search for the question looks at.
    pub fn visits(&self, question: &R::Question) -> usize
        ensures { result ≡ visited (λ x. R.hit x question.now) (listed self.now) }
    {
        search::visits(self.in_use(), question)
    }

    fn in_use(&self) -> &[R]
        ensures { result.now ≡ listed self.now }
    {
        // Never more than `MOST`: the bound says so to the compiler, which then looks at several rows at a time.
        &self.rows[..self.used.min(MOST)]
    }
}

// `limit` and `len` read as the ring's: each is one line over fields, and a trait has none. `fixed` and `lent`
// relate the tray before to the tray after, which no invariant can say.
/// A row that is added comes behind those in use, and those behind a row that is taken out close up.
impl<'a, R: Row, const MOST: usize> Store for Tray<'a, R, MOST> {
    type Kept = R;

    ghost listed = { λ t. listed t };

    ghost room = { λ t. room t };

    /// How many rows the tray can use: those of the memory, at most `MOST`.
    fn limit(&self) -> usize
        ensures { result ≡ room self.now }
    {
        self.rows.len().min(MOST)
    }

    /// How many rows are in use.
    fn len(&self) -> usize
        ensures { result ≡ length (listed self.now) }
    {
        self.used // never more than the limit
    }

    /// Puts no row in use; the memory keeps what it holds.
    fn clear(&mut self)
        ensures empty { listed self.new ≡ [] }
        ensures memory { self.new.rows.now ≡ self.old.rows.now }
        ensures lent { self.new.rows.ghost_name ≡ self.old.rows.ghost_name }
        ensures fixed { room self.new ≡ room self.old }
    {
        self.used = 0;
    }

    /// Adds a row behind those in use, or refuses it where all that the tray can use are in use.
    fn add(&mut self, row: R) -> Result<(), Full>
        ensures took { is_ok result ≡ nat_lt (length (listed self.old)) (room self.old) }
        ensures after { listed self.new ≡ (if is_ok result then listed self.old ++ (row ∷ []) else listed self.old) }
        ensures memory { self.new.rows.now ≡ (if is_ok result then slice_set self.old.rows.now (length (listed self.old)) row else self.old.rows.now) }
        ensures lent { self.new.rows.ghost_name ≡ self.old.rows.ghost_name }
        ensures fixed { room self.new ≡ room self.old }
    {
        if self.used == self.limit() {
            return Err(Full);
        }
        self.rows[self.used] = row;
        self.used += 1;
        Ok(())
    }

    /// Takes out the first row that answers and closes up those behind it, in order.
    fn take(&mut self, question: &R::Question) -> Option<R>
        ensures got { result ≡ found (λ x. R.hit x question.now) (listed self.old) }
        ensures after { listed self.new ≡ without (λ x. R.hit x question.now) (listed self.old) }
        ensures memory { self.new.rows.now ≡ after_take (λ x. R.hit x question.now) (filled self.old) self.old.rows.now }
        ensures lent { self.new.rows.ghost_name ≡ self.old.rows.ghost_name }
        ensures fixed { room self.new ≡ room self.old }
    {
        let at = search::first(self.in_use(), question)?;
        let row = self.rows[at];
        // At constant places of a part: the compiler moves these faster than places of the whole.
        self.rows[at..self.used].copy_within(1.., 0);
        self.used -= 1;
        Some(row)
    }
}
