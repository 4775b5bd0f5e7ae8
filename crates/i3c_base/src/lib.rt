//! The words of an I3C bus: addresses, identities, kinds of events, cuts, and what frames are asked and answer.
//!
//! `specs/` has the definitions that every contract above speaks in: the abstract bus, its local events, serving,
//! assignment and the frames. They know no bits, headers, parity, rows or copies.
#![tactic(auto)]

mod addresses;
mod answers;
mod bytes;
mod cuts;
mod datum;
mod device;
mod identity;
mod kinds;
mod length;
mod range;
mod refusals;
mod requests;

pub use addresses::Addresses;
pub use answers::{Answer, RoundReply};
pub use bytes::Bytes;
pub use cuts::Cuts;
pub use datum::{Datum, Direction};
pub use device::{LegacyTarget, REGISTERS, Setup, WAITING, Waiting};
pub use identity::{Bcr, Dcr, Identity, Lvr};
pub use kinds::{Change, Kinds};
pub use length::Length;
pub use range::{ADDRESSES, Addr7, OutOfRange, Pid, SLOTS, Slot};
pub use refusals::{JoinRefusal, RaiseRefusal, RoleRefusal};
pub use requests::{Fixed, Record, Request, Served, Verdict};
