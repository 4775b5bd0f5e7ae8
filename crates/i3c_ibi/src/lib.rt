//! Requests in an arbitrable header: the first one, the policy that decides on it, its effect on its drivers, the byte read
//! behind it, and its symbols.
#![tactic(auto)]

mod first;
mod policies;
mod readings;
mod serving;
mod wire;

pub use first::first_request;
pub use i3c_base::{Fixed, Record, Request, Served, Verdict};
pub use policies::{Policy, decide};
pub use serving::{Reading, serve};
pub use wire::{tell_broadcast, tell_reading, tell_repeated, tell_request};
