ghost use Rattle.std.specs.Prelude.{◌≡◌, ◌+◌, ◌<◌, length, IfOk};
ghost use Rattle.i3c_ccc.specs.declared.codes.CodeSet.{CodeSet};
ghost use Rattle.i3c_monitor.specs.Due.{Comes};
ghost use Rattle.i3c_monitor.specs.Lint.{settled};
ghost use Rattle.i3c_monitor.specs.Told.{get_of, length_of, request_of, round_of, single_byte, single_of, span_of, told, transfer_of};

use crate::commands::read_code;
use crate::decoded::{Decoded, Direct, Fault, Span};
use crate::words::{due_word, written_byte, written_length};
use i3c_base::{Addr7, Datum, Direction, Request};
use i3c_ccc::CodeSet;
use i3c_frame::Symbol;
use i3c_text::LineError;
use std::alloc::{AllocError, Global};

/// The address that every I3C device hears (I3C Basic 5.1.2.2.1).
pub(crate) const BROADCAST: u8 = 0x7E;

/// The address of a Hot-Join (I3C Basic 5.1.5).
const HOT_JOIN: u8 = 0x02;

/// The mode of a frame before its next header.
#[derive(Clone, Copy)]
pub(crate) enum Mode {
    /// At its start.
    First,
    /// In no command that takes further headers.
    Plain,
    /// In a command to single targets.
    Single(Direct),
    /// In a code that asks targets for a datum.
    Get(Datum),
    /// In a command that sets the maximum length of single targets.
    Length(Direction),
    /// In the rounds of ENTDAA.
    Rounds,
    /// After a code that isn't known, where nothing is read.
    Skipped,
}

/// What a header and the symbols behind it tell, and the frame's mode then.
#[derive(Clone, Copy)]
pub(crate) struct Told {
    pub decoded: Option<Decoded>,
    pub mode: Mode,
}

impl Told {
    ghost use Rattle.std.specs.Prelude.{◌≡◌, Some, None};

    /// Nothing is told.
    #[inline(always)]
    pub fn nothing(mode: Mode) -> Told
        ensures { (result.decoded ≡ None) × (result.mode ≡ mode) }
    {
        Told {
            decoded: None,
            mode,
        }
    }

    /// This is told.
    #[inline(always)]
    pub fn one(decoded: Decoded, mode: Mode) -> Told
        ensures { (result.decoded ≡ Some decoded) × (result.mode ≡ mode) }
    {
        Told {
            decoded: Some(decoded),
            mode,
        }
    }
}

/// A header (I3C Basic 5.1.2.2).
#[derive(Clone, Copy)]
pub(crate) struct Header {
    pub address: Addr7,
    pub read: bool,
    pub ack: bool,
}

impl Header {
    ghost use Rattle.std.specs.Prelude.{◌≡◌};
    ghost use Rattle.i3c_monitor.specs.Trace.{header_in};

    /// The symbol as a header, if it is one.
    #[inline(always)]
    pub fn of(symbol: &Symbol) -> Option<Header>
        ensures { result ≡ header_in symbol.now }
    {
        match symbol {
            Symbol::Header { address, read, ack } => Some(Header {
                address: *address,
                read: *read,
                ack: *ack,
            }),
            _ => None,
        }
    }
}

/// Decodes a header and the symbols behind it, where these codes are known by name. The number is how many symbols of the
/// trace precede them.
#[inline(always)]
pub(crate) fn read_header(
    alloc: Global,
    codes: CodeSet,
    mode: &Mode,
    header: &Header,
    symbols: &[Symbol],
    before: usize,
) -> Result<Told, LineError<Fault>>
    requires { before + length symbols.now < usize.MAX }
    ensures { Comes (told codes mode.now header.now symbols.now before) result }
{
    let is_broadcast = header.address.get() == BROADCAST;
    match mode {
        Mode::Skipped => Ok(Told::nothing(Mode::Skipped)),
        _ if is_broadcast && !header.read => read_code(alloc, codes, symbols, before),
        Mode::First => Ok(Told::one(request_of(header, symbols), Mode::Plain)),
        Mode::Plain => Ok(Told::one(transfer_of(header, symbols.len(), before), Mode::Plain)),
        Mode::Single(command) => {
            let decoded = read_single(command, header, symbols, before)?;
            Ok(Told::one(decoded, Mode::Single(*command)))
        }
        Mode::Get(what) => {
            let decoded = get_of(*what, header, symbols.len(), before);
            Ok(Told::one(decoded, Mode::Get(*what)))
        }
        Mode::Length(way) => {
            let decoded = read_length(*way, header, symbols, before)?;
            Ok(Told::one(decoded, Mode::Length(*way)))
        }
        Mode::Rounds if is_broadcast => {
            let decoded = read_round(header, symbols, before)?;
            Ok(Told::one(decoded, Mode::Rounds))
        }
        Mode::Rounds => Ok(Told::one(transfer_of(header, symbols.len(), before), Mode::Rounds)),
    }
}

/// The same where all codes are known by name, but a refusal is told too: the rest of its frame is skipped.
pub(crate) fn settled_header(
    alloc: Global,
    mode: &Mode,
    header: &Header,
    symbols: &[Symbol],
    before: usize,
) -> Result<Told, AllocError>
    requires { before + length symbols.now < usize.MAX }
    ensures { IfOk result (λ found. found ≡ settled (told CodeSet.Extended mode.now header.now symbols.now before)) }
{
    match read_header(alloc, CodeSet::Extended, mode, header, symbols, before) {
        Ok(told) => Ok(told),
        Err(LineError::Refused(fault)) => Ok(Told::one(Decoded::Refused(fault), Mode::Skipped)),
        Err(LineError::Memory) => Err(AllocError),
    }
}

/// The request that a frame's first header is (I3C Basic 5.1.2.2).
#[inline(always)]
fn request_of(header: &Header, symbols: &[Symbol]) -> Decoded
    ensures { result ≡ request_of header.now symbols.now }
{
    let request = if header.read {
        Request::Interrupt(header.address)
    } else if header.address.get() == HOT_JOIN {
        Request::Join
    } else {
        Request::Role(header.address)
    };
    let byte = match symbols.first() {
        Some(Symbol::Word(word)) if header.read && header.ack => Some(word.byte),
        _ => None,
    };
    Decoded::Request {
        request,
        accepted: header.ack,
        byte,
    }
}

/// A private transfer.
#[inline(always)]
fn transfer_of(header: &Header, count: usize, before: usize) -> Decoded
    ensures { result ≡ transfer_of header.now count before }
{
    Decoded::Transfer {
        address: header.address,
        read: header.read,
        span: span_of(header, count, before),
    }
}

/// A header of a code that asks for a datum, whichever its direction. A datum is as long as it comes, with any T bits.
#[inline(always)]
fn get_of(what: Datum, header: &Header, count: usize, before: usize) -> Decoded
    ensures { result ≡ get_of what header.now count before }
{
    Decoded::Get(what, header.address, span_of(header, count, before))
}

/// The symbols behind a header, unless nobody answered.
#[inline(always)]
fn span_of(header: &Header, count: usize, before: usize) -> Option<Span>
    ensures { result ≡ span_of header.now count before }
{
    if header.ack {
        Some(Span { before, count })
    } else {
        None
    }
}

/// A header of a command to single targets, whichever its direction. A byte from the target may have any T bit.
#[inline(always)]
fn read_single(
    command: &Direct,
    header: &Header,
    symbols: &[Symbol],
    before: usize,
) -> Result<Decoded, Fault>
    requires { before + length symbols.now < usize.MAX }
    ensures { result ≡ single_of command.now header.now symbols.now before }
{
    let byte = if header.ack {
        Some(single_byte(command, symbols, before)?)
    } else {
        None
    };
    Ok(Decoded::Single {
        command: *command,
        address: header.address,
        byte,
    })
}

/// The byte behind a header of a direct command.
#[inline(always)]
fn single_byte(command: &Direct, symbols: &[Symbol], before: usize) -> Result<u8, Fault>
    requires { before < usize.MAX }
    ensures { result ≡ single_byte command.now symbols.now before }
{
    match command {
        Direct::Enec | Direct::Disec | Direct::Setdasa | Direct::Setnewda => {
            written_byte(symbols, before)
        }
        Direct::Getacccr => Ok(due_word(symbols, before)?.byte),
    }
}

/// A header of SETMWL or SETMRL to single targets, whichever its direction (I3C Basic 5.1.9.3.5, 5.1.9.3.6).
// kept apart, so that no other header pays for it
#[inline(never)]
fn read_length(
    way: Direction,
    header: &Header,
    symbols: &[Symbol],
    before: usize,
) -> Result<Decoded, Fault>
    requires { before + length symbols.now < usize.MAX }
    ensures { result ≡ length_of way header.now symbols.now before }
{
    let bytes = if header.ack {
        Some(written_length(symbols, before)?)
    } else {
        None
    };
    Ok(Decoded::SetLengthDirect(way, header.address, bytes))
}

/// A round of ENTDAA (I3C Basic 5.1.4.2).
#[inline(always)]
fn read_round(header: &Header, symbols: &[Symbol], before: usize) -> Result<Decoded, Fault>
    requires { before + length symbols.now < usize.MAX }
    ensures { result ≡ round_of header.now symbols.now before }
{
    if !header.ack {
        return Ok(Decoded::RoundsDone);
    }
    match symbols {
        [
            Symbol::Identity(identity),
            Symbol::AddressByte { byte, ack },
            ..
        ] => Ok(Decoded::Round {
            identity: *identity,
            byte: *byte,
            taken: *ack,
        }),
        [Symbol::Identity(_), ..] => Err(Fault::Truncated(before + 2)),
        _ => Err(Fault::Truncated(before + 1)),
    }
}
