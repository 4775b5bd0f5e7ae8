//! Devices that post from threads of their own, counted.
//!
//! * `stress_bus` sets a bus with its devices up and closes it.
//! * `stressing` lets the devices post.
//! * `devices` says who the devices are, and whether each of them has posted.
//! * `report` counts the run.
#![tactic(auto)]

mod devices;
mod report;
mod stress_bus;
mod stressing;

pub use report::{StressFault, StressReport};
pub use stressing::{Gate, MOST_DEVICES, MOST_POSTS, Watch, stress, stress_watched};
