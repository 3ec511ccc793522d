//! Offices contend for claims on sheets, through whatever space they are given.
#![tactic(auto)]

use rows::tray::Tray;
use spaces::held::Held;
use spaces::tray_space::HeldTray;
use tuples::field::Field;
use tuples::site::Site;
use tuples::tuple::Tuple;

mod contend;
mod day;

/// Runs the day of the offices over a tray of four rows.
fn main(rt: HostRuntime) -> anyhow::Result<()> {
    run(&rt)
}

fn run(rt: &impl Print) -> anyhow::Result<()> {
    let site = Site::new(0).unwrap();
    let tuple = Tuple::new(&[Field::Num(0)]).unwrap();
    let mut memory = [Held { site, tuple }; 4];
    let mut space: HeldTray = Tray::over(&mut memory);
    day::run(rt, &mut space)
}
