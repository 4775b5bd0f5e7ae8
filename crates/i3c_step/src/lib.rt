//! One step of an I3C bus: the events that may happen on it, their replies, and the laws over all runs.
//!
//! `specs/Step.antt` says what one event may answer and leave. Nothing here carries an event out: the bus does, and a
//! plain machine to test it against. The functions of `laws` state what holds over every run of such steps.
#![tactic(auto)]

mod events;
mod laws;
mod replies;

pub use events::{Command, Event, TRANSFER, WRITE_KEPT, copy_of};
pub use laws::{
    accepted_interrupts_are_recorded, addresses_are_unique, data_are_of_the_table,
    interrupts_are_recorded_once, late_cuts_are_alike, late_cuts_do_nothing, one_is_active,
    pids_are_told, raises_stay_in_order, runs_are_histories, sessions_end, slots_are_kept,
    stays_begin_by_attachments, steps_are_given, uncut_steps_are_determined,
};
pub use replies::{
    ActiveStays, DropRefusal, FrameFault, Framed, OutOfMemory, Refusal, Reply, RunFault, SetFault,
    SlotTaken, StartFault, TargetFault, WriteFault,
};
