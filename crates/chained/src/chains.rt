ghost use Rattle.std.specs.Prelude.{◌≡◌};
ghost use Rattle.chained.specs.Links.{ends_of, total};
ghost use Rattle.chained.specs.Steps.{Sound};

use crate::ends::{CHAINS, Ends};
use crate::row::ChainRow;

// An arena of rows named by number: the rows are the caller's memory, with no heap.
/// At most 4,096 rows of the caller's memory, linked into a chain for each of the 32 sites and one of free rows, the last.
#[derive(Drop)]
pub struct Chains<'a> {
    rows: &'a mut [ChainRow],
    ends: [Ends; CHAINS],
    used: usize,
    ghost sound: { Sound rows.now ends },
    ghost size: { used ≡ total 32 (λ c. (ends_of ends c).many) },
}

mod methods;
