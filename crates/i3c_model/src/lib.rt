//! A plain, slow reference machine of an I3C bus, to be believed by reading.
//!
//! It keeps maps and lists and does one event at a time, as `i3c_step`'s definition of a legal step says. It knows no
//! wires, contests or rows; of bits it knows how many a frame has sent, which says whose drop-off falls into it.
#![tactic(auto)]

mod announcing;
mod asking;
mod assigning;
mod device;
mod enabling;
mod faults;
mod getting;
mod handing;
mod keeping;
mod kinds;
mod limiting;
mod local;
mod plain;
mod plain_entry;
mod reading;
mod refusals;
mod serving;
mod setting;
mod starting;
mod transferring;

pub use faults::{OutOfMemory, PlainFault};
pub use plain::{Choice, Plain};
