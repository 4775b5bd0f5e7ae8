use i3c_base::{Addr7, Answer, JoinRefusal, RaiseRefusal, RoleRefusal, RoundReply, Served};
use thiserror::Error;

/// Why an event is refused. It changes nothing then.
#[derive(Clone, Copy, Debug, PartialEq, Eq)]
pub enum Refusal {
    /// A session is open, and the frame isn't one of its own.
    SessionOpen,
    /// No session is open.
    NoSession,
    /// The active controller can't be cut or leave.
    ActiveStays,
    /// The slot holds a device.
    SlotTaken,
    /// The slot holds no device.
    NoDevice,
    /// The slot's device is the active controller.
    IsActive,
    /// The device has no address.
    NoAddress,
    /// The device has an address.
    HasAddress,
    /// The device can't do this by its BCR, or there is no row at the address that the role is offered to.
    NotCapable,
    /// The device's BCR asks for a mandatory byte and none was given, or the reverse.
    ByteMismatch,
    /// The device's events of this kind are disabled.
    Masked,
    /// No more interrupts of the slot may wait or be counted.
    Full,
    /// The devices haven't got the list of the addresses as they are now.
    ListStale,
    /// No device of the active controller's table has this address, or it is the active controller's own; and for a
    /// transfer it is no legacy target's. For SETDASA: no identity is declared at the static address.
    NoAnswer(Addr7),
    /// The write has more bytes than a transfer may bring.
    TooLong,
    /// The address that a device would be given may not be picked. SETDASA may give the one that is kept for its
    /// identity.
    BadAddress(Addr7),
}

/// What a frame served, and the answer to its own part.
#[derive(Clone, Copy, Debug, PartialEq, Eq)]
pub struct Framed {
    /// The result of the first request.
    pub served: Served,
    /// The result of the frame itself.
    pub answer: Answer,
}

/// The reply to an event.
#[derive(Clone, Copy, Debug, PartialEq, Eq)]
pub enum Reply {
    /// Nothing happened, for this reason.
    Refused(Refusal),
    /// There was no memory for a record, before the frame's first bit. Nothing changed.
    OutOfMemory,
    /// The device is in its slot.
    Attached,
    /// The device is gone.
    Dropped,
    /// The number of the raise: those of a slot count from 1, over all its stays.
    Raised(u64),
    /// The device wishes what it was asked to.
    Asked,
    /// The frame served this, and did no more.
    Served(Served),
    /// A frame was sent, with this result.
    Framed(Framed),
    /// A session is open; the frame served this.
    Opened(Served),
    /// The role was handed over; the frame served this.
    Handed(Served),
    /// What a round came to.
    Round(RoundReply),
    /// The session has ended.
    Ended,
}

/// Why a bus can't start.
#[derive(Clone, Copy, Debug, PartialEq, Eq, Drop, Error)]
pub enum StartFault {
    /// The main device's BCR isn't a controller's.
    #[error("the main device can't be a controller")]
    NotCapable,
}

/// The slot holds a device.
#[derive(Clone, Copy, Debug, PartialEq, Eq, Drop, Error)]
#[error("the slot is taken")]
pub struct SlotTaken;

/// Why a slot's device doesn't drop off.
#[derive(Clone, Copy, Debug, PartialEq, Eq, Drop, Error)]
pub enum DropRefusal {
    /// The slot holds no device.
    #[error("the slot holds no device")]
    NoDevice,
    /// The slot's device is the active controller.
    #[error("the active controller stays")]
    ActiveStays,
}

impl From<DropRefusal> for Refusal {
    ghost use Rattle.std.specs.Prelude.{◌≡◌};
    ghost use Rattle.i3c_step.specs.Replies.{drop_refusal};

    ghost from_gives = { λ why refusal. refusal ≡ drop_refusal why };

    fn from(why: DropRefusal) -> Refusal {
        match why {
            DropRefusal::NoDevice => Refusal::NoDevice,
            DropRefusal::ActiveStays => Refusal::ActiveStays,
        }
    }
}

impl From<JoinRefusal> for Refusal {
    ghost use Rattle.std.specs.Prelude.{◌≡◌};
    ghost use Rattle.i3c_step.specs.Replies.{join_refusal};

    ghost from_gives = { λ why refusal. refusal ≡ join_refusal why };

    fn from(why: JoinRefusal) -> Refusal {
        match why {
            JoinRefusal::NoDevice => Refusal::NoDevice,
            JoinRefusal::HasAddress => Refusal::HasAddress,
            JoinRefusal::Masked => Refusal::Masked,
        }
    }
}

/// The active controller can't be cut.
#[derive(Clone, Copy, Debug, PartialEq, Eq, Drop, Error)]
#[error("the active controller stays")]
pub struct ActiveStays;

impl From<RoleRefusal> for Refusal {
    ghost use Rattle.std.specs.Prelude.{◌≡◌};
    ghost use Rattle.i3c_step.specs.Replies.{role_refusal};

    ghost from_gives = { λ why refusal. refusal ≡ role_refusal why };

    fn from(why: RoleRefusal) -> Refusal {
        match why {
            RoleRefusal::NoDevice => Refusal::NoDevice,
            RoleRefusal::IsActive => Refusal::IsActive,
            RoleRefusal::NoAddress => Refusal::NoAddress,
            RoleRefusal::NotCapable => Refusal::NotCapable,
            RoleRefusal::Masked => Refusal::Masked,
        }
    }
}

impl From<RaiseRefusal> for Refusal {
    ghost use Rattle.std.specs.Prelude.{◌≡◌};
    ghost use Rattle.i3c_step.specs.Replies.{raise_refusal};

    ghost from_gives = { λ why refusal. refusal ≡ raise_refusal why };

    fn from(why: RaiseRefusal) -> Refusal {
        match why {
            RaiseRefusal::NoDevice => Refusal::NoDevice,
            RaiseRefusal::IsActive => Refusal::IsActive,
            RaiseRefusal::NoAddress => Refusal::NoAddress,
            RaiseRefusal::NotCapable => Refusal::NotCapable,
            RaiseRefusal::ByteMismatch => Refusal::ByteMismatch,
            RaiseRefusal::Masked => Refusal::Masked,
            RaiseRefusal::Full => Refusal::Full,
        }
    }
}

/// There was no memory for a record. Nothing changed.
#[derive(Clone, Copy, Debug, PartialEq, Eq, Drop, Error)]
#[error("out of memory")]
pub struct OutOfMemory;

/// Why a frame to nobody in particular is not sent.
#[derive(Clone, Copy, Debug, PartialEq, Eq, Drop, Error)]
pub enum FrameFault {
    /// The active controller can't be cut.
    #[error("the active controller stays")]
    ActiveStays,
    /// There was no memory for a record.
    #[error("out of memory")]
    OutOfMemory,
}

impl From<FrameFault> for Reply {
    ghost use Rattle.std.specs.Prelude.{◌≡◌};
    ghost use Rattle.i3c_step.specs.Replies.{frame_fault_reply};

    ghost from_gives = { λ fault reply. reply ≡ frame_fault_reply fault };

    fn from(fault: FrameFault) -> Reply {
        match fault {
            FrameFault::ActiveStays => Reply::Refused(Refusal::ActiveStays),
            FrameFault::OutOfMemory => Reply::OutOfMemory,
        }
    }
}

impl From<Result<Served, FrameFault>> for Reply {
    ghost use Rattle.std.specs.Prelude.{◌≡◌};
    ghost use Rattle.i3c_step.specs.Replies.{served_reply};

    ghost from_gives = { λ answer reply. reply ≡ served_reply answer };

    fn from(answer: Result<Served, FrameFault>) -> Reply {
        match answer {
            Ok(served) => Reply::Served(served),
            Err(fault) => Reply::from(fault),
        }
    }
}

impl From<Result<Framed, FrameFault>> for Reply {
    ghost use Rattle.std.specs.Prelude.{◌≡◌};
    ghost use Rattle.i3c_step.specs.Replies.{announced_reply};

    ghost from_gives = { λ answer reply. reply ≡ announced_reply answer };

    fn from(answer: Result<Framed, FrameFault>) -> Reply {
        match answer {
            Ok(framed) => Reply::Framed(framed),
            Err(fault) => Reply::from(fault),
        }
    }
}

/// Why a frame to one address, other than a write, is not sent.
#[derive(Clone, Copy, Debug, PartialEq, Eq, Drop, Error)]
pub enum TargetFault {
    /// The active controller can't be cut.
    #[error("the active controller stays")]
    ActiveStays,
    /// No device of the active controller's table has this address, or it is the active controller's own; and for a read
    /// it is no legacy target's.
    #[error("no device answers to the address")]
    NoAnswer(Addr7),
    /// There was no memory for a record.
    #[error("out of memory")]
    OutOfMemory,
}

impl From<TargetFault> for Reply {
    ghost use Rattle.std.specs.Prelude.{◌≡◌};
    ghost use Rattle.i3c_step.specs.Replies.{target_fault_reply};

    ghost from_gives = { λ fault reply. reply ≡ target_fault_reply fault };

    fn from(fault: TargetFault) -> Reply {
        match fault {
            TargetFault::ActiveStays => Reply::Refused(Refusal::ActiveStays),
            TargetFault::NoAnswer(address) => Reply::Refused(Refusal::NoAnswer(address)),
            TargetFault::OutOfMemory => Reply::OutOfMemory,
        }
    }
}

impl From<Result<Framed, TargetFault>> for Reply {
    ghost use Rattle.std.specs.Prelude.{◌≡◌};
    ghost use Rattle.i3c_step.specs.Replies.{framed_reply};

    ghost from_gives = { λ answer reply. reply ≡ framed_reply answer };

    fn from(answer: Result<Framed, TargetFault>) -> Reply {
        match answer {
            Ok(framed) => Reply::Framed(framed),
            Err(fault) => Reply::from(fault),
        }
    }
}

/// Why a private write is not sent.
#[derive(Clone, Copy, Debug, PartialEq, Eq, Drop, Error)]
pub enum WriteFault {
    /// The active controller can't be cut.
    #[error("the active controller stays")]
    ActiveStays,
    /// There are more bytes than a transfer may bring.
    #[error("the write is too long")]
    TooLong,
    /// The address is the active controller's own, or neither a legacy target nor a device of its table has it.
    #[error("no device answers to the address")]
    NoAnswer(Addr7),
    /// There was no memory for a record.
    #[error("out of memory")]
    OutOfMemory,
}

impl From<WriteFault> for Reply {
    ghost use Rattle.std.specs.Prelude.{◌≡◌};
    ghost use Rattle.i3c_step.specs.Replies.{write_fault_reply};

    ghost from_gives = { λ fault reply. reply ≡ write_fault_reply fault };

    fn from(fault: WriteFault) -> Reply {
        match fault {
            WriteFault::ActiveStays => Reply::Refused(Refusal::ActiveStays),
            WriteFault::TooLong => Reply::Refused(Refusal::TooLong),
            WriteFault::NoAnswer(address) => Reply::Refused(Refusal::NoAnswer(address)),
            WriteFault::OutOfMemory => Reply::OutOfMemory,
        }
    }
}

impl From<Result<Framed, WriteFault>> for Reply {
    ghost use Rattle.std.specs.Prelude.{◌≡◌};
    ghost use Rattle.i3c_step.specs.Replies.{wrote_reply};

    ghost from_gives = { λ answer reply. reply ≡ wrote_reply answer };

    fn from(answer: Result<Framed, WriteFault>) -> Reply {
        match answer {
            Ok(framed) => Reply::Framed(framed),
            Err(fault) => Reply::from(fault),
        }
    }
}

/// Why a frame that gives an address is not sent.
#[derive(Clone, Copy, Debug, PartialEq, Eq, Drop, Error)]
pub enum SetFault {
    /// The active controller can't be cut.
    #[error("the active controller stays")]
    ActiveStays,
    /// No identity is declared at the static address. Of a dynamic one: it is the active controller's own, or no device
    /// of its table has it.
    #[error("no device answers to the address")]
    NoAnswer(Addr7),
    /// The new address may not be picked. SETDASA may give the one that is kept for the identity.
    #[error("the address can't be given")]
    BadAddress(Addr7),
    /// There was no memory for a record.
    #[error("out of memory")]
    OutOfMemory,
}

impl From<SetFault> for Reply {
    ghost use Rattle.std.specs.Prelude.{◌≡◌};
    ghost use Rattle.i3c_step.specs.Replies.{set_fault_reply};

    ghost from_gives = { λ fault reply. reply ≡ set_fault_reply fault };

    fn from(fault: SetFault) -> Reply {
        match fault {
            SetFault::ActiveStays => Reply::Refused(Refusal::ActiveStays),
            SetFault::NoAnswer(address) => Reply::Refused(Refusal::NoAnswer(address)),
            SetFault::BadAddress(address) => Reply::Refused(Refusal::BadAddress(address)),
            SetFault::OutOfMemory => Reply::OutOfMemory,
        }
    }
}

impl From<Result<Framed, SetFault>> for Reply {
    ghost use Rattle.std.specs.Prelude.{◌≡◌};
    ghost use Rattle.i3c_step.specs.Replies.{set_reply};

    ghost from_gives = { λ answer reply. reply ≡ set_reply answer };

    fn from(answer: Result<Framed, SetFault>) -> Reply {
        match answer {
            Ok(framed) => Reply::Framed(framed),
            Err(fault) => Reply::from(fault),
        }
    }
}

/// Why a run gave no outcome.
#[derive(Clone, Copy, Debug, PartialEq, Eq, Drop, Error)]
pub enum RunFault {
    /// The main device's BCR isn't a controller's.
    #[error("the main device can't be a controller")]
    NotCapable,
    /// There was no memory for the replies.
    #[error("out of memory")]
    OutOfMemory,
}
