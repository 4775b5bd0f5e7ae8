//! The lines of a script, each as soon as it was read, and output that is written whole.
//!
//! * `script_lines` reads one line after another.
//! * `reading` reads bytes, up to those that a script or a trace may have, and `whole` an input to its end.
//! * `output` finds where lines end, and writes what is printed.
//! * `faults` has why reading or writing was given up, and `tally` what a run to the end counts.
//! * `watching` says what is shown of a script's lines, and `form` how the answer to a line is written.
#![tactic(auto)]

mod faults;
mod form;
mod output;
mod reading;
mod script_lines;
mod tally;
mod watching;
mod whole;

pub use faults::ScriptFault;
pub use form::Form;
pub use output::{gather, position_of_feed, write_gathered, write_last, write_out};
pub use reading::{CHUNK, MOST_BYTES, Piece, read_piece};
pub use script_lines::ScriptLines;
pub use tally::Tally;
pub use watching::Watching;
pub use whole::{read_noted, read_whole};
