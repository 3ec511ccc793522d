ghost use Rattle.std.specs.Prelude.{◌≡◌, ◌<◌, [], ◌∷◌, ◌++◌, length, drop, is_ok, if◌then◌else◌, nat_lt, slice_index_or, slice_set};
ghost use Rattle.rows.specs.Searches.{place_from, found, without};
ghost use Rattle.rings.specs.Circles.{spot, next, raised_up};
ghost use Rattle.rings.specs.Rings.{room, filled, circle, listed, free_place, AfterTake};

use crate::ring::Ring;
use rows::row::Row;
use rows::search;
use rows::store::Store;
use rows::tray::Full;

impl<'a, R: Row, const MOST: usize> Ring<'a, R, MOST> {
    /// A ring with no row in use, over the caller's memory.
    pub fn over(rows: &'a mut [R]) -> Ring<'a, R, MOST>
        ensures empty { listed result ≡ [] }
        ensures memory { result.rows.now ≡ rows.old }
        ensures lent { result.rows.ghost_name ≡ rows.entry.ghost_name }
    {
        Ring {
            rows,
            first: 0,
            used: 0,
        }
    }

    /// How many rows in use are older than the oldest that answers: one search up to the end, one from the front.
    fn seek(&self, question: &R::Question) -> Option<usize>
        ensures { result ≡ place_from 0 (λ x. R.hit x question.now) (listed self.now) }
    {
        let (older, newer) = self.in_use();
        // No `or_else`: the check infers too little of its closure.
        if let Some(i) = search::first(older, question) {
            return Some(i);
        }
        let ahead = older.len();
        search::first(newer, question).map(|i| ahead + i)
    }

    /// The rows in use, oldest first: those up to the end of the memory, and those from its front.
    fn in_use(&self) -> (&[R], &[R])
        ensures { result.0.now ++ result.1.now ≡ listed self.now }
    {
        let older = self.used.min(self.limit() - self.first);
        let newer = self.used - older;
        (
            &self.rows[self.first..self.first + older],
            &self.rows[..newer],
        )
    }

    /// Moves the rows that are older than row `at` up by one, over it, and hands it out.
    fn raise(&mut self, at: usize) -> R
        requires { at < room self.old }
        ensures value { result ≡ slice_index_or (circle self.old self.old.rows.now) at result }
        ensures left { circle self.old self.new.rows.now ≡ raised_up at (circle self.old self.old.rows.now) }
        ensures behind { drop (room self.old) self.new.rows.now ≡ drop (room self.old) self.old.rows.now }
        ensures fixed { room self.new ≡ room self.old }
        ensures first { self.new.first ≡ self.old.first }
        ensures used { self.new.used ≡ self.old.used }
        ensures lent { self.new.rows.ghost_name ≡ self.old.rows.ghost_name }
    {
        let row = self.rows[self.place(at)];
        // By number: the rows to move lie on both sides of the memory's end.
        for i in (0..at).rev() {
            let to = self.place(i + 1);
            self.rows[to] = self.rows[self.place(i)];
        }
        row
    }

    /// The place of row `i`, counted from the oldest.
    fn place(&self, i: usize) -> usize
        requires { i < room self.now }
        ensures is { result ≡ spot (room self.now) self.now.first i }
        ensures within { result < room self.now }
    {
        let tail = self.limit() - self.first;
        if i < tail { self.first + i } else { i - tail }
    }

    /// The place after a place.
    fn after(&self, at: usize) -> usize
        requires { at < room self.now }
        ensures { result ≡ next (room self.now) at }
    {
        if at < self.limit() - 1 { at + 1 } else { 0 }
    }
}

// `limit` and `len` read as the tray's: each is one line over fields, and a trait has none. `fixed` and `lent`
// relate the ring before to the ring after, which no invariant can say.
/// A row that is taken out leaves its place to those that are older, which move up by one.
impl<'a, R: Row, const MOST: usize> Store for Ring<'a, R, MOST> {
    type Kept = R;

    ghost listed = { λ r. listed r };

    ghost room = { λ r. room r };

    /// How many rows the ring can use: those of the memory, at most `MOST`.
    fn limit(&self) -> usize
        ensures { result ≡ room self.now }
    {
        self.rows.len().min(MOST)
    }

    /// How many rows are in use.
    fn len(&self) -> usize
        ensures size { result ≡ length (listed self.now) }
        ensures count { result ≡ filled self.now }
    {
        self.used // never more than the limit
    }

    /// Puts no row in use; the memory keeps what it holds.
    fn clear(&mut self)
        ensures empty { listed self.new ≡ [] }
        ensures memory { self.new.rows.now ≡ self.old.rows.now }
        ensures lent { self.new.rows.ghost_name ≡ self.old.rows.ghost_name }
        ensures fixed { room self.new ≡ room self.old }
    {
        self.first = 0;
        self.used = 0;
    }

    /// Adds a row as the youngest, or refuses it where all rows that the ring can use are in use.
    fn add(&mut self, row: R) -> Result<(), Full>
        ensures took { is_ok result ≡ nat_lt (length (listed self.old)) (room self.old) }
        ensures after { listed self.new ≡ (if is_ok result then listed self.old ++ (row ∷ []) else listed self.old) }
        ensures memory { self.new.rows.now ≡ (if is_ok result then slice_set self.old.rows.now (free_place self.old) row else self.old.rows.now) }
        ensures lent { self.new.rows.ghost_name ≡ self.old.rows.ghost_name }
        ensures fixed { room self.new ≡ room self.old }
    {
        if self.used == self.limit() {
            return Err(Full);
        }
        let used = self.used;
        let at = self.place(used);
        self.rows[at] = row;
        self.used += 1;
        Ok(())
    }

    /// Takes out the oldest row that answers; the others keep their order.
    fn take(&mut self, question: &R::Question) -> Option<R>
        ensures got { result ≡ found (λ x. R.hit x question.now) (listed self.old) }
        ensures after { listed self.new ≡ without (λ x. R.hit x question.now) (listed self.old) }
        ensures memory { AfterTake (λ x. R.hit x question.now) self.old self.new.rows.now }
        ensures lent { self.new.rows.ghost_name ≡ self.old.rows.ghost_name }
        ensures fixed { room self.new ≡ room self.old }
    {
        let at = self.seek(question)?;
        let row = self.raise(at);
        let oldest = self.first;
        self.first = self.after(oldest);
        self.used -= 1;
        Some(row)
    }
}
