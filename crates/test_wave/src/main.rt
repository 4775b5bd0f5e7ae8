//! `test_wave ADDR..` reads a trace on standard input, hears its levels, and prints the symbols that are read of them, one on
//! each line, and `misread` for what is no symbol. Legacy targets have these addresses.
//!
//! It is a test, and promises nothing. It ends with 0, or with 2 where it could not say.
#![tactic(auto)]

mod readback;

use std::process::ExitCode;

fn main(rt: HostRuntime) -> ExitCode {
    match readback::print_read_back(&rt) {
        Ok(()) => ExitCode::from(0),
        Err(_) => ExitCode::from(2),
    }
}
