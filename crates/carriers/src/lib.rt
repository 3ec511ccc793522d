//! Letters between sites: what every carrier promises, the carrier that keeps them in a tray and the one that keeps them in a ring.
#![tactic(auto)]

pub mod carrier;
pub mod laws;
pub mod letter;
pub mod mailbag;
pub mod ring_carrier;
pub mod thread_row;
pub mod tray_carrier;
