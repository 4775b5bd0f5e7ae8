//! Tests of the scenes of files that answer a program, with runs that are derived by hand.
//!
//! `scenario` reads a scene, and plays a program's lines on it.
#![tactic(auto)]

#[cfg(test)]
mod scenario;
#[cfg(test)]
mod tests;
