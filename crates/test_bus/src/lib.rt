//! Tests of the bus and of the plain machine by their public calls alone. Tests inside a crate would have it proved again, so
//! these have a crate of their own.
//!
//! `calls` has typed calls of the bus, and what a refused growth leaves; lists of events with their replies, wires and
//! records are scripts, in `tests/scripts`. `resting` has a bus at rest. `plain` has the plain machine's own refusal; the
//! other tests of it are in `tests/choices` and `tests/agreement`. `sizes` has the sizes of values that are kept by the
//! million. `setting` has the devices and the bus that tests share, and `checks` what they assert.
#![tactic(auto)]

#[cfg(test)]
mod calls;
#[cfg(test)]
mod checks;
#[cfg(test)]
mod plain;
#[cfg(test)]
mod resting;
#[cfg(test)]
mod setting;
#[cfg(test)]
mod sizes;
