ghost use Rattle.std.specs.Prelude.{◌≡◌, ◌<◌, length, IfSome};
ghost use Rattle.rows.specs.Bags.{many};
ghost use Rattle.rows.specs.Searches.{place_from, visited};

use crate::row::Row;

/// The place of the first row that answers, or nothing where none does.
pub fn first<R: Row>(rows: &[R], question: &R::Question) -> Option<usize>
    ensures place { result ≡ place_from 0 (λ x. R.hit x question.now) rows.now }
    ensures within { IfSome result (λ i. i < length rows.now) }
{
    rows.iter().position(|row| row.answers(question))
}

// No `filter` with `count`: over short rows it takes twice the instructions.
/// How many rows answer.
#[tactic(auto, using(crate::proofs::Counting::many_counts))]
pub fn count<R: Row>(rows: &[R], question: &R::Question) -> usize
    ensures { result ≡ many (λ x. R.hit x question.now) rows.now }
{
    rows.iter()
        .fold(0, |n, row| if row.answers(question) { n + 1 } else { n })
}

/// How many rows the search looks at: those up to the first that answers, or all where none does.
pub fn visits<R: Row>(rows: &[R], question: &R::Question) -> usize
    ensures { result ≡ visited (λ x. R.hit x question.now) rows.now }
{
    first(rows, question).map_or(rows.len(), |at| at + 1)
}
