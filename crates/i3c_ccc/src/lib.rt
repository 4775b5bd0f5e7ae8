//! Common command codes, and the words that follow them after one header.
#![tactic(auto)]

mod codes;
mod commands;

pub use codes::{Code, CodeSet, byte_of, code_of, extended_code_of};
pub use commands::{CccFault, Command, read_command, read_extended_command};
