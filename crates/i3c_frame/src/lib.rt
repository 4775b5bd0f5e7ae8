//! The symbols of an I3C wire and their texts, traces of symbols, and the taps that are told each symbol.
#![tactic(auto)]

mod firsts;
mod frames;
mod laws;
mod parts;
mod pushing;
mod symbols;
mod taps;
mod traces;

pub use frames::{Break, Due, Frames, read_frames};
pub use laws::{printed_is_read_back, texts_differ};
pub use symbols::Symbol;
pub use taps::{Silent, Tap};
pub use traces::{TraceFault, read_trace, read_trace_bytes};
