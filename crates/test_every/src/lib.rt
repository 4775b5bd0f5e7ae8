//! Tests of `i3c_every` on a counter, with answers and runs that are derived by hand.
#![tactic(auto)]

mod counter;
mod laws;
#[cfg(test)]
mod tests;

pub use counter::{Ask, Counter, Line, Reply, Rules};
pub use laws::counters_are_determined;
