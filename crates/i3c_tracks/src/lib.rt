//! Files of tracks, whose lines interleave in every order: read, explored, and told.
//!
//! `read_plan` reads the plan of a file (`plan`): `file_line` parses a line, `draft` gathers lines, `front` keeps those before the
//! bus, and `body` those behind it, with the `open_block`. `refusal` says why a file isn't explored. `run_explore`, in
//! `exploring`, explores the plan and prints the ends (`report`), as far as `showing` asks for them and in `groups` where there
//! is a `question`, or an order that breaks an expectation as a script (`broken`), whose lines `course` puts one after another;
//! `answer` is its result, and `explore_fault` says why there is none. `laws` is a theorem over all files.
#![tactic(auto)]

mod answer;
mod body;
mod broken;
mod course;
mod draft;
mod explore_fault;
mod exploring;
mod file_line;
mod front;
mod groups;
mod laws;
mod open_block;
mod plan;
mod question;
mod refusal;
mod report;
mod showing;
mod unexpected;

pub use answer::Answer;
pub use broken::{push_expectation, push_heading, push_lines, push_runs, unmet_number};
pub use course::{Run, add_block, runs_of, turns_of};
pub use explore_fault::ExploreFault;
pub use exploring::{read_lines, run_explore};
pub use laws::files_have_one_plan;
pub use plan::{Plan, PlanFault, read_plan};
pub use question::Question;
pub use refusal::{Reason, Refusal};
pub use report::push_cuts;
pub use showing::Showing;
