//! What a trace says, told in lines.
//!
//! * `trace` tells what a trace says.
//! * `linting` tells its faults too.
//! * `explaining` tells why its lines are refused.
//! * `frames` tells the frames of symbols that are no text's, with their marks.
//! * `reasons` has the text of each reason.
#![tactic(auto)]

mod explaining;
mod frames;
mod linting;
mod reasons;
mod trace;

pub use explaining::{explain_frames, note, run_explained, run_explained_knowing};
pub use frames::{frames_of, print_frames};
pub use linting::run_lint;
pub use trace::{run_trace, run_trace_knowing};
