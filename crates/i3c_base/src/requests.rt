use crate::range::{Addr7, Slot};

/// What a device may drive into an arbitrable header (I3C Basic 5.1.6).
#[derive(Clone, Copy, Debug, PartialEq, Eq)]
pub enum Request {
    /// Hot-Join, at `02`/W.
    Join,
    /// A request for the controller role, at the device's address with W.
    Role(Addr7),
    /// An in-band interrupt, at the device's address with R.
    Interrupt(Addr7),
}

/// A join, with which bounded lists of requests fill their unused places.
impl Default for Request {
    fn default() -> Request {
        Request::Join
    }
}

/// The controller's answer to a request: ACK or NACK.
#[derive(Clone, Copy, Debug, PartialEq, Eq)]
pub enum Verdict {
    /// The header is acknowledged.
    Accept,
    /// It is not, and the request stays as it was.
    Refuse,
}

/// A verdict for each kind of request: the policy that events carry.
#[derive(Clone, Copy, Debug, PartialEq, Eq)]
pub struct Fixed {
    /// On a Hot-Join.
    pub join: Verdict,
    /// On a request for the controller role.
    pub role: Verdict,
    /// On an interrupt.
    pub interrupt: Verdict,
}

/// The result of a frame's first request.
#[derive(Clone, Copy, Debug, PartialEq, Eq)]
pub enum Served {
    /// Nobody asked.
    Quiet,
    /// An interrupt was accepted and recorded, as the record of this place from 1.
    Recorded(usize),
    /// The request was turned down, and stays as it was.
    Refused,
    /// An interrupt was accepted, and its mandatory byte was lost. Nothing is recorded.
    Torn,
    /// A Hot-Join was accepted.
    Joining,
    /// The role request of the device at this address was accepted.
    WantsRole(Addr7),
}

/// A recorded interrupt: the slot and number of its raise, and the address and byte that the controller read.
#[derive(Clone, Copy, Debug, PartialEq, Eq, Drop)]
pub struct Record {
    /// The slot of the device that raised it.
    pub slot: Slot,
    /// The number of the raise, from 1 on for each slot.
    pub number: u64,
    /// The address that the device had in the frame.
    pub at: Addr7,
    /// The mandatory byte that was read, if the device sends one.
    pub byte: Option<u8>,
}
