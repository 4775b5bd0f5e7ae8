//! A bus with the run that led to it, each event with its reply.
#![tactic(auto)]

mod entry;
mod packed;
mod recorder;
mod run;

pub use entry::Entry;
pub use recorder::Recorder;
pub use run::Run;
