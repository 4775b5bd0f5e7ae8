//! Tests of `i3c_orders` on a coin, with runs that are derived by hand.
#![tactic(auto)]

mod coin;
#[cfg(test)]
mod tests;

pub use coin::{Coin, Line, Table};
