//! Tests of the bus that threads share, and of devices that post from threads, by their public calls alone. Tests inside a
//! crate would have it proved again, so these have a crate of their own.
//!
//! `runs` has whole runs with each of their events, `handing` the role that is parked for its new holder, and `closing` when
//! a bus may be closed. `foreign` has ports of another bus, `threads` devices that post while the bus is busy, `sharing`
//! threads that call on one bus, and `stressed` what a stress run posts, serves and counts.
//! `setting` has what they share: there a bus is made with its three ledgers (`Trial`), and a call that was short of memory
//! is given again. `strict` makes each call once.
#![tactic(auto)]

#[cfg(test)]
mod checks;
#[cfg(test)]
mod closing;
#[cfg(test)]
mod foreign;
#[cfg(test)]
mod handing;
#[cfg(test)]
mod runs;
#[cfg(test)]
mod setting;
#[cfg(test)]
mod sharing;
#[cfg(test)]
mod stressed;
#[cfg(test)]
mod strict;
#[cfg(test)]
mod threads;
