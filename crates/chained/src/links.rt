ghost use Rattle.std.specs.Prelude.{◌≡◌, ℕ, ◌+◌, ◌<◌, [], ◌∷◌, ◌++◌, ◌≢◌, nat_eq};
ghost use Rattle.rows.specs.Bags.{many};
ghost use Rattle.rows.specs.Searches.{without};
ghost use Rattle.chained.specs.Links.{forward, rows_of, room_for, BothWays, Kept};
ghost use Rattle.chained.specs.Steps.{SoundChain, Sound, LinksKept, Moved};

use crate::ends::{CHAINS, Ends};
use crate::row::ChainRow;

// Rows and ends apart: the struct of the two is `Chains`, whose fact does not hold between these steps.

/// Takes a row out of its chain; answers the chain's ends without it.
fn detach(rows: &mut [ChainRow], ends: Ends, at: u16) -> Ends
    requires chain { SoundChain rows.old ends }
    requires here { 0 < many (nat_eq at) (forward rows.old ends) }
    ensures gone { forward rows.new result ≡ without (nat_eq at) (forward rows.old ends) }
    ensures both { BothWays rows.new result }
    ensures fewer { result.many + 1 ≡ ends.many }
    ensures rest { (i : ℕ) → many (nat_eq i) (forward rows.old ends) ≡ 0 → LinksKept rows.old rows.new i }
    ensures kept { Kept rows.old rows.new }
{
    let ChainRow { next, prev, .. } = rows[at as usize];
    let first = if at == ends.first {
        next
    } else {
        rows[prev as usize].next = next;
        ends.first
    };
    let last = if at == ends.last {
        prev
    } else {
        rows[next as usize].prev = prev;
        ends.last
    };
    Ends {
        first,
        last,
        many: ends.many - 1,
    }
}

/// Puts a row behind the last of a chain; answers the chain's ends with it.
fn attach(rows: &mut [ChainRow], ends: Ends, at: u16) -> Ends
    requires chain { SoundChain rows.old ends }
    requires alone { many (nat_eq at) (forward rows.old ends) ≡ 0 }
    requires within { at < room_for rows.old }
    requires few { ends.many < 4096 }
    ensures come { forward rows.new result ≡ forward rows.old ends ++ (at ∷ []) }
    ensures both { BothWays rows.new result }
    ensures more { result.many ≡ ends.many + 1 }
    ensures rest { (i : ℕ) → many (nat_eq i) (forward rows.old ends) ≡ 0 → (i ≢ at) → LinksKept rows.old rows.new i }
    ensures kept { Kept rows.old rows.new }
{
    let first = if ends.many == 0 {
        at
    } else {
        rows[ends.last as usize].next = at;
        ends.first
    };
    rows[at as usize].prev = ends.last;
    Ends {
        first,
        last: at,
        many: ends.many + 1,
    }
}

/// Moves a row from its chain to the end of another.
pub(crate) fn transfer(
    rows: &mut [ChainRow],
    ends: &mut [Ends; CHAINS],
    from: usize,
    at: u16,
    to: usize,
)
    requires sound { Sound rows.old ends.old }
    requires from { from < 33 }
    requires to { to < 33 }
    requires apart { to ≢ from }
    requires here { 0 < many (nat_eq at) (rows_of rows.old ends.old from) }
    ensures { Moved rows.old ends.old rows.new ends.new from at to }
{
    let left = detach(rows, ends[from], at);
    let joined = attach(rows, ends[to], at);
    ends[from] = left;
    ends[to] = joined;
}
