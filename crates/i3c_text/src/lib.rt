//! The text of lines, and the numerals in it: decimal and hex digits, printed and read. Letters of hex digits are upper case.
//! `stop` says why a line did not come to its end.
//!
//! `text` is what a line prints, `numerals` prints numbers into it, and `digits` reads hex digits and writes them by a
//! formatter.
#![tactic(auto)]

mod digits;
mod line_error;
mod numerals;
mod text;

pub use digits::{digit, read_byte, read_digits, write_digits};
pub use line_error::LineError;
pub use numerals::PID_DIGITS;
pub use text::Text;
