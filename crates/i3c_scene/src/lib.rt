//! The bus of a script as a machine. Its lines are tried in every order, with devices that lose power at any bit of a frame.
//!
//! * `scene` is a bus between two lines: it is at rest, and can be compared, kept and dropped.
//! * `scene_bus` is a bus awake, which comes to a scene and obeys a line's command.
//! * `runner` is the same with the slot that its last line changed.
//! * `line` has the lines with what is expected behind them.
//! * `risk` is which devices may lose power in a line's frame, and `ways` at which bits.
//! * `machine` tries the lines, each in every way that can matter.
//! * `scene_names` is what names stand for, `named` one of them, and `place_byte` what it stands for, in a byte.
//! * `showing` prints a scene, and what is unmet there.
//! * `frames` says which commands send frames.
//! * `answering` answers a program's line (`program_line`) under its `rules`: `replying` makes the `reply`.
#![tactic(auto)]

mod answering;
mod frames;
mod line;
mod machine;
mod named;
mod place_byte;
mod program_line;
mod reply;
mod replying;
mod risk;
mod rules;
mod runner;
mod scene;
mod scene_bus;
mod scene_names;
mod showing;
mod ways;

pub use frames::{sends_frame, sends_many};
pub use line::{Expectation, Line};
pub use named::{Named, place_in};
pub use place_byte::PlaceByte;
pub use program_line::ProgramLine;
pub use reply::Reply;
pub use risk::Risk;
pub use rules::Rules;
pub use runner::Runner;
pub use scene::{BeginFault, Scene};
pub use scene_bus::SceneBus;
pub use ways::{Ways, each_is_a_pair, ways_of};
