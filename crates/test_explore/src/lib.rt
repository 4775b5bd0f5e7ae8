//! Tests of `i3c_explore` on a counter, with numbers that are derived by hand.
#![tactic(auto)]

mod counter;
#[cfg(test)]
mod tests;

pub use counter::{Counter, Line};
