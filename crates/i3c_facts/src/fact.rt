use i3c_base::{Addr7, Bytes, Served};
use i3c_lines::{Name, Refusal};

/// What the first request of a frame came to, without its number or address (I3C Basic 5.1.6).
#[derive(Clone, Copy)]
pub enum ServedAs {
    /// Nobody asked.
    Quiet,
    /// An interrupt was recorded.
    Recorded,
    /// A request was turned down.
    TurnedDown,
    /// The mandatory byte of an interrupt was torn.
    Torn,
    /// A join was accepted.
    Joining,
    /// A role request was accepted.
    WantsRole,
}

impl ServedAs {
    ghost use Rattle.std.specs.Prelude.{◌≡◌};
    ghost use Rattle.i3c_facts.specs.Forms.{served_text};
    ghost use Rattle.i3c_facts.specs.Holding.{served_as};

    /// What a request came to, without its number or address.
    pub fn of(served: &Served) -> ServedAs
        ensures { result ≡ served_as served.now }
    {
        match served {
            Served::Quiet => ServedAs::Quiet,
            Served::Recorded(_) => ServedAs::Recorded,
            Served::Refused => ServedAs::TurnedDown,
            Served::Torn => ServedAs::Torn,
            Served::Joining => ServedAs::Joining,
            Served::WantsRole(_) => ServedAs::WantsRole,
        }
    }

    /// Its tokens, as a script prints them.
    pub fn text(self) -> &'static str
        ensures { result.now ≡ served_text self }
    {
        match self {
            ServedAs::Quiet => "quiet",
            ServedAs::Recorded => "recorded",
            ServedAs::TurnedDown => "turned down",
            ServedAs::Torn => "torn",
            ServedAs::Joining => "joining",
            ServedAs::WantsRole => "wants role",
        }
    }
}

/// One thing that may hold: of the bus, of the device of a name, or of the previous line's result.
#[derive(Clone, Copy)]
pub enum Fact {
    /// `active NAME`: the device is the active controller.
    Active(Name),
    /// `NAME at ADDR`: the device is there, with this dynamic address.
    At(Name, Addr7),
    /// `NAME at any`: the device is there, with a dynamic address.
    AtAny(Name),
    /// `NAME at none`: the device is there, without a dynamic address.
    AtNone(Name),
    /// `NAME gone`: no device of this name is there.
    Gone(Name),
    /// `NAME waiting N`: N interrupts of the device wait.
    Waiting(Name, u16),
    /// `waiting N`: N interrupts of all devices wait.
    AllWaiting(u16),
    /// `records N`: N interrupts were recorded.
    Records(u16),
    /// `record NAME BYTE N`, `record NAME -- N`: N interrupts of the name's slot were recorded with this mandatory byte, or
    /// with none.
    Recorded(Name, Option<u8>, u16),
    /// `assigned`: each device has a dynamic address.
    Assigned,
    /// `listed`: the list of DEFTGTS is current.
    Listed,
    /// `open`: a session of dynamic address assignment is open.
    Open,
    /// `done`: the line before was done.
    Done,
    /// `refused REASON`: the line before was refused, for this reason.
    Refused(Refusal),
    /// `refused`: the line before was refused.
    AnyRefused,
    /// `served quiet`, `served recorded` and so on: what the first request of the line before came to.
    Served(ServedAs),
    /// `bytes HEX`: the line before read these bytes first.
    Bytes(Bytes),
    /// `asking NAME`: the device would drive the first request of the next frame.
    Asking(Name),
}

impl Fact {
    ghost use Rattle.std.specs.Prelude.{◌≡◌, option_copied};
    ghost use Rattle.i3c_facts.specs.Holding.{name_of};

    /// The name of the device that it is about, if it is about one.
    pub fn name(&self) -> Option<&Name>
        ensures { option_copied result ≡ name_of self.now }
    {
        match self {
            Fact::Active(name) => Some(name),
            Fact::At(name, _) => Some(name),
            Fact::AtAny(name) => Some(name),
            Fact::AtNone(name) => Some(name),
            Fact::Gone(name) => Some(name),
            Fact::Waiting(name, _) => Some(name),
            Fact::Recorded(name, _, _) => Some(name),
            Fact::Asking(name) => Some(name),
            _ => None,
        }
    }
}
