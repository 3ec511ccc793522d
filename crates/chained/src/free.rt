ghost use Rattle.std.specs.Prelude.{◌≡◌, ℕ, ◌+◌, ◌-◌, ◌<◌};
ghost use Rattle.chained.specs.Links.{next_of, prev_of, room_for, Kept};
ghost use Rattle.chained.specs.Steps.{Fresh};

use crate::ends::{CHAINS, Ends, FREE, MOST_ROWS};
use crate::row::ChainRow;

/// Links the first `many` rows into one chain, in the order in which they lie.
fn link_all(rows: &mut [ChainRow], many: u16)
    requires { many ≡ room_for rows.old }
    ensures nexts { (i : ℕ) → i < many → next_of rows.new i ≡ i + 1 }
    ensures prevs { (i : ℕ) → i < many → prev_of rows.new i ≡ i - 1 }
    ensures kept { Kept rows.old rows.new }
{
    // By number: a proof learns nothing of rows that are written through a `zip`.
    for i in 0..many {
        let row = &mut rows[i as usize];
        row.next = i + 1;
        row.prev = i.saturating_sub(1);
    }
}

/// Links all rows, at most 4,096, into the chain of free rows; answers the ends of the 33 chains.
pub(crate) fn freed(rows: &mut [ChainRow]) -> [Ends; CHAINS]
    ensures fresh { Fresh rows.new result }
    ensures kept { Kept rows.old rows.new }
{
    let many = rows.len().min(MOST_ROWS) as u16;
    link_all(rows, many);
    let mut ends = [Ends::default(); CHAINS];
    ends[FREE] = Ends {
        first: 0,
        last: many.saturating_sub(1),
        many,
    };
    ends
}
