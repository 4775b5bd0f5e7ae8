ghost use Rattle.std.specs.Prelude.{◌≡◌, OnOk};
ghost use Rattle.i3c_script.specs.declared.piece.Piece.{Piece as PieceValue};

use i3c_base::{Addr7, Bytes, Datum, Identity, Record, Served, Slot};
use i3c_bus::Request;
use i3c_frame::Symbol;
use i3c_lines::Name;
use std::alloc::AllocError;

/// One part of what a line comes to. A line's pieces come in the order in which a script prints them.
#[derive(Clone, Copy)]
pub enum Piece {
    /// `legacy`: the target with this name is declared at this static address.
    Legacy(Name, Addr7),
    /// `declare`: an identity is declared at this static address.
    Declared(Addr7),
    /// `main`: the main controller enters slot 0, and has this address.
    Main(Name, Option<Addr7>),
    /// `attach`: the device with this name enters this slot.
    Entered(Name, Slot),
    /// `drop`: the device has lost power.
    Dropped,
    /// `raise`: the interrupt has this number in its slot, from 1.
    Raised(u64),
    /// `ask-join` and `ask-role`: the device has this wish.
    Asked,
    /// The result of the request in a frame's first header (I3C Basic 5.1.6).
    Served(Served),
    /// A frame's own part was carried out, or nobody hears a session any more.
    Done,
    /// A private read gave these bytes.
    Bytes(Bytes),
    /// A target told this datum.
    Told(Datum, Bytes),
    /// A session is open.
    Opened,
    /// A round of a session gave this address to this identity (I3C Basic 5.1.4.2).
    Assigned(Addr7, Identity),
    /// Nobody acknowledged the address of a round.
    Nobody,
    /// The session is over.
    Ended,
    /// The address of the active controller.
    Active(Option<Addr7>),
    /// A present device: its address, and how many of its interrupts wait.
    Device(Name, Option<Addr7>, usize),
    /// A legacy target, at this static address.
    Target(Name, Addr7),
    /// How many records are in the log.
    Records(usize),
    /// A record, with its number from 1.
    Entry(usize, Record),
    /// What a present device is.
    Description(Description),
    /// Whether the list of devices is current.
    Listed(bool),
    /// Whether a session is open.
    Session(bool),
    /// The device of this slot was active while the records with these numbers were made.
    Tenure { slot: Slot, from: usize, to: usize },
    /// The first symbol of a line of symbols, a further one, and the end of this line.
    FirstSymbol(Symbol),
    Symbol(Symbol),
    SymbolsEnd,
}

/// What a present device is: its name and identity, which kinds of its events are enabled, and its wish.
#[derive(Clone, Copy)]
pub struct Description {
    pub name: Name,
    pub identity: Identity,
    pub interrupt: bool,
    pub role: bool,
    pub join: bool,
    pub wish: Option<Request>,
}

/// Listens to what a line comes to.
pub trait Listener {
    /// What a listener is behind a piece.
    ghost heard: { Self → PieceValue → Self };

    /// Hears the next piece.
    ///
    /// # Errors
    ///
    /// There is no memory for it.
    fn hear(&mut self, piece: Piece) -> Result<(), AllocError>
        ensures { OnOk result (self.new ≡ heard self.old piece) };
}

/// Hears nothing.
#[derive(Clone, Copy)]
pub struct Deaf;

impl Listener for Deaf {
    ghost heard = { λ deaf _. deaf };

    #[inline(always)]
    fn hear(&mut self, _piece: Piece) -> Result<(), AllocError> {
        Ok(())
    }
}
