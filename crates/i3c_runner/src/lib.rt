//! Whole scripts: one that is run, and what is told and shown of its lines.
//!
//! * `said` is what a line prints, and what facts know of its pieces.
//! * `script` reads a script's lines, runs them and counts the refusals.
//! * `expecting` prints whether expectations are met.
//! * `lasting` tests those that last to the next `close`.
//! * `check` tells which lines of a script have no form.
//! * `watched` runs a script and shows more of it.
//! * `reasons` says why a line was refused.
//! * `viewed` shows each line to a viewer, with what it printed and the symbols that it sent.
//! * `output` prints that a line is refused.
//! * `laws` says that the lines of a script make a legal run.
#![tactic(auto)]

mod check;
mod expecting;
mod lasting;
mod laws;
mod output;
mod reasons;
mod said;
mod script;
mod viewed;
mod watched;

pub use check::check_script;
pub use i3c_streams::Watching;
pub use laws::{commands_are_legal_runs, lines_are_legal_runs, watched_lines_print_the_same};
pub use script::run_script;
pub use viewed::{Viewer, run_viewed};
pub use watched::{WatchFault, Witness, run_watched};
