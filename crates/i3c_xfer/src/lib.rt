//! Transfers with an address, with I3C devices and legacy I2C targets: private reads and writes and requests for a datum,
//! their results, and their symbols.
#![tactic(auto)]

mod answers;
mod getting;
mod reading;
mod wire;
mod writing;

pub use answers::{Get, Read, Write, get_bits, write_bits};
pub use getting::{datum_length, get};
pub use reading::{read, transfer_length};
pub use wire::{tell_get, tell_read, tell_write};
pub use writing::write;
