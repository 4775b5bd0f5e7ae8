//! The wire as a waveform: what each symbol is on SCL and SDA, with times, and the text of a value change dump.
//!
//! `levels` is what the two lines are at, symbol by symbol. `timing` says for how long, and `wave` is the dump (IEEE 1364)
//! of one symbol after another; `content` is what a dump has. `script_wave` has the lines of a script and what they print. `run` writes the dump of a
//! trace as a stream. `source` is a reader that knows whether it failed. `edges` is a watcher of
//! the two lines. `laws` says that SDA has a symbol's bits where SCL rises, and what is heard of a trace's levels;
//! `clock_laws` says the same of whole frames, bit by bit.
//!
//! `dump_word` and `dump` say what the words of a dump say of SCL and SDA, which `signals` finds by their names. `capture`
//! reads symbols of the levels, each with its time (`stamped`). `captured` keeps them frame by frame, with those that can't be
//! read. `capture_text` and `capture_run` read a whole text. `timescale` is what its times are counted in.
#![tactic(auto)]

mod awaited;
mod capture;
mod capture_fault;
mod capture_run;
mod capture_text;
mod captured;
mod clock_laws;
mod content;
mod dump;
mod dump_word;
mod edges;
mod laws;
mod levels;
mod reader;
mod run;
mod script_wave;
mod signals;
mod source;
mod stamped;
mod timescale;
mod timing;
mod wave;

pub use awaited::Awaited;
pub use capture_fault::CaptureFault;
pub use capture_run::read_capture;
pub use captured::{Captured, FrameMark, Loss, Unread, without_times};
pub use clock_laws::{
    bits_have_their_numbers, frames_have_the_bits_in_order, rising_edges_are_in_order,
};
pub use content::Content;
pub use edges::{Edges, Mark};
pub use laws::{edges_give_the_marks, rising_edges_have_the_bits, symbols_are_read_back};
pub use levels::{Level, Levels, Line};
pub use reader::{Reader, Reading};
pub use run::run_wave;
pub use script_wave::{push_script_line, push_script_preamble, push_served};
pub use signals::SignalNames;
pub use source::Source;
pub use timescale::{Instant, Magnitude, Timescale, Unit};
pub use timing::Timing;
pub use wave::Wave;
