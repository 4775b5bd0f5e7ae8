//! A bus goes on alike whatever records are in front of its log.
//!
//! A step reads the log of accepted interrupts only to number a new record, and only ever appends one. So each step of a bus
//! whose first records are gone is a step of the whole bus, too, which gives a new record a greater number. The functions of
//! `laws` say this. Nothing is carried out here.
#![tactic(auto)]

mod laws;

pub use laws::{gone_records_add_up, runs_go_on_alike, steps_go_on_alike};
