ghost use Rattle.std.specs.Prelude.{◌≡◌, true, length};

use crate::draw::Draw;
use crate::tally::Tally;
use spaces::space::Space;
use tuples::field::Field;
use tuples::tuple::Tuple;

/// Fills both spaces and goes on with drawn turns, each made in both, and compares after each what they answer, count and hold.
pub(crate) fn compare<L: Space, R: Space>(left: &mut L, right: &mut R, turns: usize) -> Tally {
    let mut draw = Draw::new(7);
    let mut tally = Tally::default();
    for _ in 0..left.limit() {
        let tuple = draw.tuple();
        let site = draw.below(32);
        tally.note(put(left, right, site, tuple));
    }
    for _ in 0..turns {
        let answers = turn(left, right, &mut draw);
        let site = draw.below(32);
        let template = draw.template();
        let counts = left.count(site, &template) == right.count(site, &template);
        tally.note(answers && counts && left.size() == right.size());
    }
    left.clear();
    right.clear();
    tally.note(left.size() == 0 && right.size() == 0 && left.limit() == right.limit());
    tally
}

/// Puts a tuple into both; they answer alike where they hold and can hold as much.
fn put<L: Space, R: Space>(left: &mut L, right: &mut R, site: usize, tuple: Tuple) -> bool
    ensures { length (L.Space.held left.old) ≡ length (R.Space.held right.old) → L.Space.room left.old ≡ R.Space.room right.old → result ≡ true }
{
    left.put(site, tuple) == right.put(site, tuple)
}

fn turn<L: Space, R: Space>(left: &mut L, right: &mut R, draw: &mut Draw) -> bool {
    let site = draw.below(34);
    // By a drawn number: closures for the steps would share both spaces and what is drawn.
    match draw.below(4) {
        0 => {
            let template = draw.template();
            let one = left.take(site, &template);
            let other = right.take(site, &template);
            one.is_some() == other.is_some()
        }
        1 => {
            let template = draw.template();
            left.peek(site, &template).is_some() == right.peek(site, &template).is_some()
        }
        _ => {
            let tuple = draw.tuple();
            put(left, right, site, tuple)
        }
    }
}

/// Fills a space with the numbers from 0 up to its limit, each at one site of 32.
pub(crate) fn fill<S: Space>(space: &mut S) {
    for number in 0..4096usize {
        let tuple = Tuple::new(&[Field::Num(number as i32)]).unwrap();
        let _ = space.put(number % 32, tuple);
    }
}
