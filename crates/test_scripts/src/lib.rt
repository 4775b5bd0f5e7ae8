//! Tests of scripts and traces, and of the parts of their lines, by public calls alone. Tests inside a crate would have it
//! proved again, so these have a crate of their own.
//!
//! `lines` has names, numbers and refusals, `script` whole scripts and traces with what they print, and readers and writers
//! that fail. `driven` has what a driven bus does beside its answers.
#![tactic(auto)]

#[cfg(test)]
mod checks;
#[cfg(test)]
mod driven;
#[cfg(test)]
mod lines;
#[cfg(test)]
mod script;
