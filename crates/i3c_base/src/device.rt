use crate::identity::{Identity, Lvr};

/// How many interrupts of a device may wait (this project's choice).
pub const WAITING: usize = 8;

/// How many registers a device has (this project's choice).
pub const REGISTERS: usize = 16;

/// What a device is when it is attached: its identity, and whether it takes the controller role when it is offered.
#[derive(Clone, Copy, Debug, PartialEq, Eq)]
pub struct Setup {
    /// What it drives in an assignment.
    pub identity: Identity,
    /// Whether it takes the controller role where it is offered.
    pub willing: bool,
}

/// An interrupt that waits: the number of its raise, and its mandatory byte.
#[derive(Clone, Copy, Debug, PartialEq, Eq, Default, Drop)]
pub struct Waiting {
    /// The number of its raise, from 1 on for each slot.
    pub number: u64,
    /// Its mandatory byte, where its BCR says that it has one.
    pub byte: Option<u8>,
}

/// A legacy I2C target: its LVR and its registers.
#[derive(Clone, Copy, Debug, PartialEq, Eq, Default)]
pub struct LegacyTarget {
    /// What it is like, as its legacy virtual register says.
    pub lvr: Lvr,
    /// What private transfers read and write.
    pub registers: [u8; REGISTERS],
}
