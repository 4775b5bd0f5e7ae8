//! `i3cbus run FILE` runs a script over an I3C bus, and prints the results of its lines. `i3cbus trace FILE` reads a trace of
//! one, and prints what its frames were. `i3cbus check FILE` tells the lines of a script that have no form, and `i3cbus draw
//! FILE` prints a picture of its wire. `i3cbus explore FILE` tries every order of tracks that may interleave. `i3cbus stress`
//! lets devices post from threads of their own.
//!
//! All end with 0, with 1 if a line was refused, or with 2 and a line on standard error if the file wasn't done with to its
//! end. A script ends with 3 if an expectation isn't met, and `explore` if an order breaks one.
#![tactic(auto)]

mod ending;
mod meeting;
mod run;
mod stack;
mod watcher;

use std::io::IsTerminal;
use std::process::ExitCode;

fn main(rt: HostRuntime) -> ExitCode {
    ExitCode::from(run::run(&rt, rt.stderr().is_terminal()))
}
