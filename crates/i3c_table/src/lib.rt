//! What a controller knows of the addresses of its bus: those that were given, and the static ones.
#![tactic(auto)]

mod keeping;
mod registers;
mod resting;
mod row;
mod rows;
mod sorted_addresses;
mod static_address;
mod table;

pub use i3c_legacy::Legacies;
pub use resting::RestingTable;
pub use row::Row;
pub use table::{ROWS, Table};
