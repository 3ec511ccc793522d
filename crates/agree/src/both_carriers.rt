ghost use Rattle.std.specs.Prelude.{◌≡◌, true, length};

use crate::draw::Draw;
use crate::tally::Tally;
use carriers::carrier::Carrier;
use carriers::letter::{Body, Letter};
use carriers::thread_row::ThreadRow;
use tuples::site::Site;

/// Fills both carriers and goes on with drawn turns, each made in both, and compares after each what they answer and hold.
pub(crate) fn compare<L: Carrier, R: Carrier>(left: &mut L, right: &mut R, turns: usize) -> Tally {
    let mut draw = Draw::new(11);
    let mut tally = Tally::default();
    for _ in 0..left.limit() {
        let agreed = post(left, right, &mut draw);
        tally.note(agreed);
    }
    for _ in 0..turns {
        let agreed = if draw.below(2) == 0 {
            let site = draw.below(34);
            left.fetch(site).is_some() == right.fetch(site).is_some()
        } else {
            post(left, right, &mut draw)
        };
        tally.note(agreed && left.waiting() == right.waiting());
    }
    left.clear();
    right.clear();
    tally.note(left.waiting() == 0 && right.waiting() == 0 && left.limit() == right.limit());
    tally
}

fn post<L: Carrier, R: Carrier>(left: &mut L, right: &mut R, draw: &mut Draw) -> bool {
    post_one(left, right, letter(draw))
}

/// Posts a letter in both; they answer alike where they hold and can hold as much.
fn post_one<L: Carrier, R: Carrier>(left: &mut L, right: &mut R, letter: Letter) -> bool
    ensures { length (L.Carrier.mail left.old) ≡ length (R.Carrier.mail right.old) → L.Carrier.capacity left.old ≡ R.Carrier.capacity right.old → result ≡ true }
{
    left.post(letter).is_ok() == right.post(letter).is_ok()
}

fn letter(draw: &mut Draw) -> Letter {
    let tuple = draw.tuple();
    let template = draw.template();
    let to = Site::new(draw.below(32)).unwrap();
    let row = ThreadRow::new(draw.below(64)).unwrap();
    let body = match draw.below(5) {
        0 => Body::Goods(tuple),
        1 => Body::Mover(row),
        2 => Body::InRequest(row, template),
        3 => Body::ReadRequest(row, template),
        _ => Body::Reply(row, tuple),
    };
    Letter { to, body }
}
