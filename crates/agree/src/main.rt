//! Runs one list of questions over both spaces, and one over both carriers, and says whether they agree.
#![tactic(auto)]

use carriers::letter::{Body, Letter};
use carriers::ring_carrier::LetterRing;
use carriers::tray_carrier::LetterTray;
use chained::row::ChainRow;
use chained::space::ChainedSpace;
use rings::ring::Ring;
use rows::tray::Tray;
use spaces::held::{Held, Wanted};
use spaces::tray_space::HeldTray;
use tuples::field::Field;
use tuples::place::Place;
use tuples::site::Site;
use tuples::template::Template;
use tuples::tuple::Tuple;

mod both_carriers;
mod both_spaces;
mod draw;
mod tally;

/// How many drawn turns each comparison makes once both ends are full.
const TURNS: usize = 900;

/// How many questions the rows looked at are counted for.
const QUESTIONS: usize = 128;

/// Compares the spaces and the carriers at limits 0, 1 and the largest.
fn main(rt: HostRuntime) -> anyhow::Result<()> {
    run(&rt)
}

fn run(rt: &impl Print) -> anyhow::Result<()> {
    let site = Site::new(0).unwrap();
    let tuple = Tuple::new(&[Field::Num(0)]).unwrap();
    for limit in [0, 1, 4096] {
        compare_spaces(rt, site, tuple, limit)?;
    }
    for limit in [0, 1, 256] {
        compare_carriers(rt, site, tuple, limit)?;
    }
    Ok(())
}

fn compare_spaces(rt: &impl Print, site: Site, tuple: Tuple, limit: usize) -> anyhow::Result<()> {
    let mut left_rows = [Held { site, tuple }; 4096];
    let mut right_rows = [ChainRow::blank(); 4096];
    let rows = limit.min(4096);
    let mut left: HeldTray = Tray::over(&mut left_rows[0..rows]);
    let mut right = ChainedSpace::over(&mut right_rows[0..rows]);
    let tally = both_spaces::compare(&mut left, &mut right, TURNS);
    println!(rt; "spaces of {limit} rows: {tally}")?;
    if limit < 4096 {
        return Ok(());
    }
    both_spaces::fill(&mut left);
    both_spaces::fill(&mut right);
    let (in_tray, in_chains) = looked_at(&left, &right);
    println!(rt;
        "rows looked at for {QUESTIONS} questions: {in_tray} in the tray, {in_chains} in the chains"
    )?;
    Ok(())
}

/// Adds up the rows that each space looks at to find some of the numbers that it is filled with.
fn looked_at(tray: &HeldTray, chained: &ChainedSpace) -> (usize, usize) {
    let mut in_tray: usize = 0;
    let mut in_chains: usize = 0;
    for k in 0..QUESTIONS {
        let number = k * 31 % 4096;
        let template = template(number);
        let site = Site::new(number % 32).unwrap();
        in_tray = in_tray.saturating_add(tray.visits(&Wanted { site, template }));
        in_chains = in_chains.saturating_add(chained.visits(number % 32, &template));
    }
    (in_tray, in_chains)
}

fn template(number: usize) -> Template {
    let number = number.min(4096) as i32;
    Template::new(&[Place::Actual(Field::Num(number))]).unwrap()
}

fn compare_carriers(rt: &impl Print, to: Site, tuple: Tuple, limit: usize) -> anyhow::Result<()> {
    let blank = Letter {
        to,
        body: Body::Goods(tuple),
    };
    let mut left_rows = [blank; 256];
    let mut right_rows = [blank; 256];
    let rows = limit.min(256);
    let mut left: LetterTray = Tray::over(&mut left_rows[0..rows]);
    let mut right: LetterRing = Ring::over(&mut right_rows[0..rows]);
    let tally = both_carriers::compare(&mut left, &mut right, TURNS);
    println!(rt; "carriers of {limit} rows: {tally}")?;
    Ok(())
}
