//! The list of DEFTGTS: what a controller tells the other controllers of its table (I3C Basic 5.1.9.3.7).
//!
//! A list is a count, and then four words for each entry, the active controller's first. An address is in bits 7:1.
//!
//! * The words of a device are its dynamic address, its DCR, its BCR, and its static address or `00`.
//! * The words of a legacy target are `00`, its LVR, `00`, and its static address.
#![tactic(auto)]

mod copies;
mod entries;
mod faults;
mod listing;
mod reading;
mod writing;

pub use entries::{ENTRIES, Entry, List};
pub use faults::ListFault;
pub use reading::read_list;
pub use writing::{WORDS, write_list};
