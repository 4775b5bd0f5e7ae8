use i3c_base::{Addr7, Served, Slot};
use i3c_step::Refusal;
use thiserror::Error;

/// Why a bus can't start.
#[derive(Clone, Copy, Debug, PartialEq, Eq, Drop, Error)]
pub enum StartFault {
    /// The main device's BCR isn't a controller's.
    #[error("the main device can't be a controller")]
    NotCapable,
    /// There was no memory.
    #[error("out of memory")]
    OutOfMemory,
}

/// Why no device is attached.
#[derive(Clone, Copy, Debug, PartialEq, Eq, Drop, Error)]
pub enum AttachFault {
    /// The slot holds a device, or is empty and its old port is out.
    #[error("the slot is taken")]
    SlotTaken,
    /// There was no memory. Nothing changed.
    #[error("out of memory")]
    OutOfMemory,
}

/// What a drop-off found.
#[derive(Clone, Copy, Debug, PartialEq, Eq)]
pub enum Left {
    /// The device dropped off.
    Now,
    /// It was gone already.
    WasGone,
}

/// Why a device doesn't drop off.
#[derive(Clone, Copy, Debug, PartialEq, Eq, Drop, Error)]
pub enum DropFault {
    /// The slot's device is the active controller.
    #[error("the active controller stays")]
    ActiveStays,
    /// There was no memory. Nothing changed.
    #[error("out of memory")]
    OutOfMemory,
}

/// Why a wish, an opening, a round or the end of a session isn't carried out.
#[derive(Clone, Copy, Debug, PartialEq, Eq, Drop, Error)]
pub enum CallFault {
    /// There was no memory. Nothing changed.
    #[error("out of memory")]
    OutOfMemory,
    /// The bus refused it.
    #[error("the call is refused")]
    Refused(Refusal),
}

/// Why the role isn't handed over.
#[derive(Clone, Copy, Debug, PartialEq, Eq, Drop, Error)]
pub enum HandOverFault {
    /// There was no memory. Nothing changed.
    #[error("out of memory")]
    OutOfMemory,
    /// The bus refused it, and sent no frame.
    #[error("the handover is refused")]
    Refused(Refusal),
    /// Nobody took the role at the address; the frame served this.
    #[error("nobody took the role")]
    NoAnswer(Served, Addr7),
}

/// Why a bus can't be closed.
#[derive(Clone, Copy, Debug, PartialEq, Eq, Drop, Error)]
pub enum CloseFault {
    /// The role wasn't handed in and isn't parked, or an assignment is under way.
    #[error("the role is out")]
    RoleOut,
    /// The slot's port is out and isn't handed in; no lower slot's is.
    #[error("a port is out")]
    PortOut(Slot),
    /// There was no memory. Nothing changed.
    #[error("out of memory")]
    OutOfMemory,
}
