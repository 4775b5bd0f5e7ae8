ghost use Rattle.std.specs.Prelude.{◌≡◌};

use arrayvec::ArrayVec;
use i3c_base::{Addr7, Cuts, Datum, Direction, Fixed, Kinds, Length, REGISTERS, Setup, Slot};

/// How many bytes one private write may bring, and one private read gives: as many as there are registers (this
/// project's choice).
pub const TRANSFER: usize = REGISTERS;

/// How many bytes of a write an event keeps: one more than a write may bring, so that a longer one is known as such.
pub const WRITE_KEPT: usize = 17;

const _: () = prove!(TRANSFER < WRITE_KEPT);

/// What may happen on a bus. A frame carries its policy on requests, and its cuts.
#[derive(Debug, PartialEq, Eq, Drop)]
pub enum Event {
    /// A device enters a slot.
    Attach(Slot, Setup),
    /// The slot's device drops off: it loses power, and is gone.
    DropOff(Slot),
    /// The slot's device raises an interrupt, with its mandatory byte if it sends one (I3C Basic 5.1.6.2).
    Raise(Slot, Option<u8>),
    /// The slot's device wishes to join (Hot-Join, I3C Basic 5.1.5).
    AskJoin(Slot),
    /// The slot's device wishes for the controller role (I3C Basic 5.1.7.1).
    AskRole(Slot),
    /// The active controller serves the first request, and does no more.
    Serve(Fixed, Cuts),
    /// Kinds of events are enabled (ENEC, I3C Basic 5.1.9.3.1): of the devices at an address, or without one of all
    /// but the active controller.
    Enec(Option<Addr7>, Kinds, Fixed, Cuts),
    /// Kinds of events are disabled (DISEC, I3C Basic 5.1.9.3.1), of the same.
    Disec(Option<Addr7>, Kinds, Fixed, Cuts),
    /// All addresses but the active controller's are cleared (RSTDAA, I3C Basic 5.1.9.3.3).
    Reset(Fixed, Cuts),
    /// Each device is told of all others (DEFTGTS, I3C Basic 5.1.9.3.7).
    SendList(Fixed, Cuts),
    /// The active controller reads all registers of the devices, or of the legacy target, at an address (private read,
    /// I3C Basic 5.1.2.2).
    ReadFrom(Addr7, Fixed, Cuts),
    /// The active controller writes these bytes to the first registers of the same (private write, I3C Basic 5.1.2.2).
    /// Of a longer write they are its first.
    WriteTo(Addr7, ArrayVec<u8, WRITE_KEPT>, Fixed, Cuts),
    /// The devices that have the first address as their static one, and no dynamic one, are given the second as their
    /// dynamic address (SETDASA, I3C Basic 5.1.9.3.10).
    SetStatic(Addr7, Addr7, Fixed, Cuts),
    /// The devices at the first dynamic address are given the second in its place (SETNEWDA, I3C Basic 5.1.9.3.11).
    SetNew(Addr7, Addr7, Fixed, Cuts),
    /// The active controller asks the devices at an address for a datum (GETPID and its like, I3C Basic 5.1.9.3).
    Get(Datum, Addr7, Fixed, Cuts),
    /// The maximum length of writes or of reads is set (SETMWL and SETMRL, I3C Basic 5.1.9.3.5 and 5.1.9.3.6): of the
    /// devices at an address, or without one of all but the active controller.
    SetLength(Direction, Length, Option<Addr7>, Fixed, Cuts),
    /// The active controller offers its role to a device at an address (GETACCCR, I3C Basic 5.1.9.3.16).
    HandOver(Addr7, Cuts),
    /// The active controller opens a session of dynamic address assignment (ENTDAA, I3C Basic 5.1.4.2).
    OpenDaa(Cuts),
    /// One round of the open session.
    Round(Cuts),
    /// The session ends with STOP.
    EndDaa,
}

/// A frame that the active controller sends under its role, with an event's arguments but policy and cuts.
#[derive(Clone, Debug, PartialEq, Eq, Drop)]
pub enum Command {
    /// Serves the first request, and does no more.
    Serve,
    /// Enables kinds of events, of the devices at an address or of all but the active controller.
    Enec(Option<Addr7>, Kinds),
    /// Disables kinds of events, of the same.
    Disec(Option<Addr7>, Kinds),
    /// Clears all addresses but the active controller's.
    Reset,
    /// Tells each device of all others.
    SendList,
    /// Reads all registers of the devices, or of the legacy target, at an address.
    ReadFrom(Addr7),
    /// Writes these bytes to the first registers of the same; of a longer write they are its first.
    WriteTo(Addr7, ArrayVec<u8, WRITE_KEPT>),
    /// Gives the devices at a static address, which have no dynamic one, this dynamic address.
    SetStatic(Addr7, Addr7),
    /// Gives the devices at a dynamic address another one in its place.
    SetNew(Addr7, Addr7),
    /// Asks the devices at an address for a datum.
    Get(Datum, Addr7),
    /// Sets the maximum length of writes or of reads, of the devices at an address or of all but the active controller.
    SetLength(Direction, Length, Option<Addr7>),
}

/// The bytes that an event or a command keeps of a write, once more.
pub fn copy_of(bytes: &ArrayVec<u8, WRITE_KEPT>) -> ArrayVec<u8, WRITE_KEPT>
    ensures { result ≡ bytes.now }
{
    let mut copy = ArrayVec::new();
    let Ok(()) = copy.try_extend_from_slice(bytes.as_slice()) else {
        unreachable!()
    };
    copy
}
