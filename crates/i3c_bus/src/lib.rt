//! The bus: the calls that carry its events out, and whole runs.
//!
//! Each call is one step of `i3c_step`, whose wire it tells, and `run_events` is a whole run. `i3c_step` has the laws
//! over all runs.
#![tactic(auto)]

mod assignment;
mod bus;
mod bus_snapshot;
mod dispatch;
mod enec_disec;
mod entdaa;
mod frames;
mod get_data;
mod getacccr;
mod hand;
mod outcome;
mod private_transfers;
mod raises;
mod replying;
mod rstdaa_deftgts;
mod setdasa_setnewda;
mod setmwl_setmrl;
mod wire;
mod wishes;

pub use assignment::Assignment;
pub use bus::{Bus, Records};
pub use bus_snapshot::BusSnapshot;
pub use hand::{Hand, Session};
pub use i3c_base::{
    Answer, Bytes, Datum, Direction, JoinRefusal, Length, RaiseRefusal, Request, RoundReply, Served,
};
pub use i3c_device::SlotSet;
pub use i3c_handoff::Role;
pub use i3c_ibi::{Fixed, Policy, Record, Verdict};
pub use i3c_step::{
    ActiveStays, Command, DropRefusal, Event, FrameFault, Framed, OutOfMemory, Refusal, Reply,
    RunFault, SetFault, SlotTaken, StartFault, TRANSFER, TargetFault, WRITE_KEPT, WriteFault,
};
pub use outcome::{Outcome, run_events};
