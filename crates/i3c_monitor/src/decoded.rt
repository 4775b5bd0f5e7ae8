ghost use Rattle.std.specs.Prelude.{◌≡◌};
ghost use Rattle.i3c_monitor.specs.AddressStatuses.{dynamic_in};
ghost use Rattle.i3c_text.specs.declared.line_error.LineError.TheVariants.{Refused as StopRefused};

use i3c_base::{Addr7, Datum, Direction, Request};
use i3c_deftgts::ListFault;
use i3c_frame::Symbol;
use i3c_text::LineError;
use thiserror::Error;

/// A direct command: each target that it is for has a header of its own (I3C Basic 5.1.9.1).
#[derive(Clone, Copy)]
pub enum Direct {
    /// Enable events.
    Enec,
    /// Disable events.
    Disec,
    /// Set dynamic address from static address.
    Setdasa,
    /// Set new dynamic address.
    Setnewda,
    /// Get accept controller role.
    Getacccr,
}

/// Symbols of a trace that follow one another: how many come before them, and how many they are.
#[derive(Clone, Copy)]
pub struct Span {
    /// The number of symbols before it.
    pub before: usize,
    /// How many symbols it has.
    pub count: usize,
}

impl Span {
    ghost use Rattle.std.specs.Prelude.{◌≡◌};
    ghost use Rattle.i3c_monitor.specs.Lines.{symbols_of};

    /// These symbols of a trace, as many as it has.
    #[inline(always)]
    pub fn of(self, trace: &[Symbol]) -> &[Symbol]
        ensures { result.now ≡ symbols_of self trace.now }
    {
        let (_, rest) = trace.split_at(self.before.min(trace.len()));
        let (symbols, _) = rest.split_at(self.count.min(rest.len()));
        symbols
    }
}

/// What a trace has next. Bytes are as they are on the wire.
#[derive(Clone, Copy)]
pub enum Decoded {
    /// The frame of this number begins, counted from 1 (I3C Basic 5.1.2).
    FrameStart(usize),
    /// A request won the frame's first header (I3C Basic 5.1.2.2). The byte is the one that follows an interrupt that
    /// was accepted.
    Request {
        request: Request,
        accepted: bool,
        byte: Option<u8>,
    },
    /// ENEC to all, with its byte of kinds (I3C Basic 5.1.9.3.1).
    Enec(u8),
    /// DISEC to all, with its byte of kinds.
    Disec(u8),
    /// RSTDAA (I3C Basic 5.1.9.3.3).
    Rstdaa,
    /// ENTDAA (I3C Basic 5.1.9.3.4).
    Entdaa,
    /// DEFTGTS, with the number of entries of its list (I3C Basic 5.1.9.3.7).
    Deftgts(usize),
    /// SETMWL or SETMRL to all, with the two bytes of its length (I3C Basic 5.1.9.3.5, 5.1.9.3.6).
    SetLength(Direction, (u8, u8)),
    /// A code that isn't known by name.
    Other(u8),
    /// A round: the identity that was read, the address byte, and whether it was acknowledged (I3C Basic 5.1.4.2).
    Round {
        identity: u64,
        byte: u8,
        taken: bool,
    },
    /// Nobody takes part in a further round.
    RoundsDone,
    /// A header of a command to single targets, and the byte behind it: `None` where nobody answered.
    Single {
        command: Direct,
        address: Addr7,
        byte: Option<u8>,
    },
    /// A header of SETMWL or SETMRL to single targets, and the two bytes behind it: `None` where nobody answered (I3C Basic
    /// 5.1.9.3.5, 5.1.9.3.6).
    SetLengthDirect(Direction, Addr7, Option<(u8, u8)>),
    /// A header of a code that asks a target for a datum, and the symbols behind it, whose words are the bytes that it tells:
    /// `None` if nobody answered (I3C Basic 5.1.9.3).
    Get(Datum, Addr7, Option<Span>),
    /// A private transfer, and the symbols behind its header, whose words are its bytes: `None` if nobody answered (I3C Basic
    /// 5.1.2).
    Transfer {
        address: Addr7,
        read: bool,
        span: Option<Span>,
    },
    /// The trace breaks a rule, and isn't read further.
    Refused(Fault),
}

impl Decoded {
    ghost use Rattle.std.specs.Prelude.{◌≡◌};
    ghost use Rattle.i3c_monitor.specs.AddressStatuses.{absent, present};
    ghost use Rattle.i3c_monitor.specs.Lint.{spoken_to};

    /// The dynamic address of a single target to which a header speaks.
    pub(crate) fn spoken_to(&self) -> Option<Addr7>
        ensures { result ≡ spoken_to self.now }
    {
        match self {
            Decoded::Transfer { address, .. }
            | Decoded::Get(_, address, _)
            | Decoded::SetLengthDirect(_, address, _) => Some(*address),
            Decoded::Single {
                command,
                address,
                ..
            } => dynamic_in(command, *address),
            _ => None,
        }
    }

    /// The dynamic address of a target that answered, or asked.
    pub(crate) fn present(&self) -> Option<Addr7>
        ensures { result ≡ present self.now }
    {
        match self {
            Decoded::Transfer {
                address,
                span: Some(_),
                ..
            }
            | Decoded::Get(_, address, Some(_))
            | Decoded::SetLengthDirect(_, address, Some(_))
            | Decoded::Request {
                request: Request::Interrupt(address) | Request::Role(address),
                ..
            } => Some(*address),
            Decoded::Single {
                command,
                address,
                byte: Some(_),
            } => dynamic_in(command, *address),
            _ => None,
        }
    }

    /// The dynamic address of a target that had to answer and didn't. A target may decline the role.
    pub(crate) fn absent(&self) -> Option<Addr7>
        ensures { result ≡ absent self.now }
    {
        match self {
            Decoded::Transfer {
                address,
                span: None,
                ..
            }
            | Decoded::Get(_, address, None)
            | Decoded::SetLengthDirect(_, address, None)
            | Decoded::Single {
                command: Direct::Enec | Direct::Disec | Direct::Setnewda,
                address,
                byte: None,
            } => Some(*address),
            _ => None,
        }
    }
}

/// The dynamic address in a header of a command to one target: SETDASA's is a static one (I3C Basic 5.1.9.3.10).
fn dynamic_in(command: &Direct, address: Addr7) -> Option<Addr7>
    ensures { result ≡ dynamic_in command.now address }
{
    match command {
        Direct::Setdasa => None,
        _ => Some(address),
    }
}

/// Which rule a trace breaks. Symbols are counted from 1, over the whole trace.
#[derive(Clone, Copy, Debug, Drop, Error)]
pub enum Fault {
    /// Another symbol than a word with a good T bit, where one is expected.
    #[error("symbol {0} is no word with a right T (docs/FORMATS.md, What `trace` prints)")]
    Parity(usize),
    /// An expected symbol is missing: this symbol is in its place, or the trace ends before it.
    #[error("a word, an identity or an address byte is missing at symbol {0} (docs/FORMATS.md, What `trace` prints)")]
    Truncated(usize),
    /// The words of a list are none.
    #[error("{0} (docs/FORMATS.md, The list of DEFTGTS)")]
    List(ListFault),
}

impl From<Fault> for LineError<Fault> {
    ghost from_gives = { λ fault stop. stop ≡ StopRefused fault };

    fn from(fault: Fault) -> LineError<Fault> {
        LineError::Refused(fault)
    }
}
