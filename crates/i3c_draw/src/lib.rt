//! A picture of a script's wire, as an SVG: a row for each line, with the symbols that it sent, in the colours of their
//! drivers, and SCL and SDA.
//!
//! `driver` gives the driver of SDA during a symbol, `traces` draws the two lines, and `pen` the symbols one after another.
//! `labels` writes the script's line and what it printed, by `escaped`. `picture` gathers the rows.
#![tactic(auto)]

mod driver;
mod escaped;
mod labels;
mod laws;
mod pen;
mod picture;
mod traces;

pub use driver::{Driver, Turn};
pub use escaped::push_escaped;
pub use laws::escaped_is_plain;
pub use pen::Pen;
pub use picture::Picture;
