//! A device on the bus: what it asks for, what it does with the commands that it hears, and what it answers; and the
//! devices of a bus in their slots.
#![tactic(auto)]

mod answering;
mod attached;
mod byte_address;
mod device;
mod devices;
mod driven_requests;
mod enabled;
mod flag;
mod hearing;
mod kinds;
mod occupants;
mod occupants_snapshot;
mod own_kinds;
mod places;
mod queues;
mod resting;
mod slot_index;
mod slot_set;
mod slot_update;

pub use device::Device;
pub use devices::Devices;
pub use resting::Resting;
pub use slot_set::SlotSet;
