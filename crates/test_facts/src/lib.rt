//! Tests of marks and facts by their public calls alone. Tests inside a crate would have it proved again, so these have a
//! crate of their own.
//!
//! `lines` has which lines are marks, and what these are printed as. `bus` has facts of a bus, and what holds in place of
//! unmet ones. `checks` has what they assert.
#![tactic(auto)]

#[cfg(test)]
mod bus;
#[cfg(test)]
mod checks;
#[cfg(test)]
mod lines;
