//! The open-drain lines of an I3C bus, and the contest of devices that drive them at once.
//!
//! A line reads low if anyone drives it low. So contenders that send their keys together, the most significant bit first, all
//! read the least key. Each of them that drove a 1 where it read a 0 knows that it lost. So addresses are arbitrated, and
//! identities in dynamic address assignment (I3C Basic 5.1.2.2.1 and 5.1.4).
#![tactic(auto)]

mod arbitration;
mod bit_columns;
mod lines;
mod masks;
mod outcome;
mod turns;

pub use arbitration::{contest, contest_uncut};
pub use bit_columns::{BitColumns, Won};
pub use lines::Lines;
pub use outcome::Contest;
