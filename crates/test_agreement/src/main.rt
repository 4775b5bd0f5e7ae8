//! `test_agreement FILE` runs the script of a file on the bus and on the plain machine, and says whether their results agree.
//! It runs once unchanged, and once for each device, each frame and each bit of it, with the device cut there.
//!
//! `test_agreement sevenths FILE` cuts at every seventh bit instead, for scripts with many devices, for which each bit would
//! take too long.
//!
//! `test_agreement choices FILE` prints the plain machine's replies to the events whose choice a comment says.
//!
//! It is a test, and promises nothing. It ends with 0 if they agree, with 1 if they don't, and with 2 if it could not say.
#![tactic(auto)]

mod agreeing;
mod course;
mod cutting;
mod faults;
mod reader;
mod run;
mod script;

use std::process::ExitCode;

fn main(rt: HostRuntime) -> ExitCode {
    ExitCode::from(run::run(&rt))
}
