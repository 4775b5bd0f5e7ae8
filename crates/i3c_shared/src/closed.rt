use i3c_base::SLOTS;
use i3c_bus::Records;
use i3c_recorder::Run;

/// What is left of a closed bus: its run, its records, and the interrupts that wait.
#[derive(Drop)]
pub struct Closed {
    /// The events that the bus went through, with their replies.
    pub run: Run,
    /// The interrupts that were recorded, in their order.
    pub records: Records,
    /// How many interrupts of each slot's device wait at the close.
    pub waiting: [usize; SLOTS],
}
