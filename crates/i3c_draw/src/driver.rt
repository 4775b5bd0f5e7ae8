ghost use Rattle.std.specs.Prelude.{◌≡◌};
ghost use Rattle.i3c_draw.specs.Driving.{answer_by, answered_by, bits_by, is_request, next_turn};

use i3c_frame::Symbol;

/// The address that every I3C device hears (I3C Basic 5.1.2.2.1).
const BROADCAST: u8 = 0x7E;

/// The driver of SDA (I3C Basic 5.1.2).
#[derive(Clone, Copy)]
pub enum Driver {
    /// The active controller.
    Controller,
    /// A target, or several of them.
    Target,
    /// The controller, and the target that wins the contest.
    Both,
    /// Nobody: SDA stays high.
    Nobody,
}

/// The part of a frame before its next symbol, as far as it decides the driver.
#[derive(Clone, Copy, Debug, PartialEq, Eq)]
pub struct Turn {
    /// The header that comes is the one behind a START, in which targets may contend (I3C Basic 5.1.2.2.2).
    pub arbitrable: bool,
    /// Words behind the last header are read.
    pub reading: bool,
}

impl Turn {
    ghost use Rattle.i3c_draw.specs.Driving.{hearer, sender};

    /// The driver of the bits of a symbol before its answer.
    pub fn bits_by(self, symbol: &Symbol) -> Driver
        ensures { result ≡ bits_by self symbol.now }
    {
        match *symbol {
            Symbol::Header { address, .. } if self.is_request(address.get()) => Driver::Both,
            Symbol::Word(_) | Symbol::LegacyWord { .. } => self.sender(),
            Symbol::Identity(_) => Driver::Target,
            _ => Driver::Controller,
        }
    }

    /// The driver of the answer of a symbol, if it has one.
    pub fn answer_by(self, symbol: &Symbol) -> Option<Driver>
        ensures { result ≡ answer_by self symbol.now }
    {
        match *symbol {
            Symbol::Header { address, ack, .. } if self.is_request(address.get()) => {
                Some(answered_by(Driver::Controller, ack))
            }
            Symbol::Header { ack, .. } => Some(answered_by(Driver::Target, ack)),
            Symbol::AddressByte { ack, .. } => Some(answered_by(Driver::Target, ack)),
            Symbol::LegacyWord { ack, .. } => Some(answered_by(self.hearer(), ack)),
            _ => None,
        }
    }

    /// The turn after a symbol.
    pub fn after(self, symbol: &Symbol) -> Turn
        ensures { result ≡ next_turn self symbol.now }
    {
        match *symbol {
            Symbol::Start => Turn {
                arbitrable: true,
                reading: self.reading,
            },
            Symbol::Header { read, .. } => Turn {
                arbitrable: false,
                reading: read,
            },
            _ => self,
        }
    }

    /// Whether a header with this address is the request of a target.
    fn is_request(self, address: u8) -> bool
        ensures { result ≡ is_request self address }
    {
        self.arbitrable && address != BROADCAST
    }

    /// The sender of words.
    fn sender(self) -> Driver
        ensures { result ≡ sender self }
    {
        if self.reading {
            Driver::Target
        } else {
            Driver::Controller
        }
    }

    /// The hearer of words.
    fn hearer(self) -> Driver
        ensures { result ≡ hearer self }
    {
        if self.reading {
            Driver::Controller
        } else {
            Driver::Target
        }
    }
}

/// The driver of an answer, which is an ACK or a NACK.
fn answered_by(driver: Driver, ack: bool) -> Driver
    ensures { result ≡ answered_by driver ack }
{
    if ack { driver } else { Driver::Nobody }
}
