ghost use Rattle.std.specs.Prelude.{◌≡◌, ◌++◌, ◌-◌, OnOk, codes, slice_get};
ghost use Rattle.i3c_monitor.specs.Lines.{answer_text, byte_after, byte_of, bytes_text, command_text, data_text, datum_name, fault_text, frame_text, length_name, length_text, mark_text, number_text, request_text, taken_text, transfer_text, verdict_text, words_text};
ghost use Rattle.i3c_text.specs.Hex.{hex_text};

use crate::decoded::{Decoded, Direct, Fault, Span};
use i3c_base::{Addr7, Datum, Direction, Request};
use i3c_deftgts::ListFault;
use i3c_frame::Symbol;
use i3c_text::Text;
use i3c_wave::FrameMark;
use std::alloc::AllocError;

impl Decoded {
    ghost use Rattle.std.specs.Prelude.{◌≡◌, ◌++◌, OnOk};
    ghost use Rattle.i3c_monitor.specs.Lines.{line_text, decoded_text};

    /// Appends its line to a text, of this trace, whose frames have these marks, as far as these go.
    #[inline(always)]
    pub fn push(
        &self,
        trace: &[Symbol],
        marks: &[FrameMark],
        text: &mut Text,
    ) -> Result<(), AllocError>
        ensures { OnOk result (text.new ≡ text.old ++ line_text trace.now marks.now self.now) }
    {
        self.push_words(trace, marks, text)?;
        text.end()
    }

    /// Appends it without a line's end.
    #[inline(always)]
    fn push_words(
        &self,
        trace: &[Symbol],
        marks: &[FrameMark],
        text: &mut Text,
    ) -> Result<(), AllocError>
        ensures { OnOk result (text.new ≡ text.old ++ decoded_text trace.now marks.now self.now) }
    {
        match self {
            Decoded::FrameStart(number) => push_frame(*number, marks, text),
            Decoded::Request {
                request,
                accepted,
                byte,
            } => push_request(request, *accepted, *byte, text),
            Decoded::Enec(kinds) => push_byte(b"ENEC ", *kinds, text),
            Decoded::Disec(kinds) => push_byte(b"DISEC ", *kinds, text),
            Decoded::Rstdaa => text.push(b"RSTDAA"),
            Decoded::Entdaa => text.push(b"ENTDAA"),
            Decoded::Deftgts(entries) => push_list(*entries, text),
            Decoded::Other(byte) => push_byte(b"Other ", *byte, text),
            Decoded::Round {
                identity,
                byte,
                taken,
            } => push_round(*identity, *byte, *taken, text),
            Decoded::RoundsDone => text.push(b"round done"),
            Decoded::Single {
                command,
                address,
                byte,
            } => push_single(command, *address, *byte, text),
            Decoded::SetLength(way, bytes) => push_length(*way, *bytes, text),
            Decoded::SetLengthDirect(way, address, bytes) => {
                push_length_at(*way, *address, *bytes, text)
            }
            Decoded::Get(what, address, span) => push_get(*what, *address, span, trace, text),
            Decoded::Transfer {
                address,
                read,
                span,
            } => {
                push_address(transfer_words(*read), *address, text)?;
                push_bytes(span, trace, text)
            }
            Decoded::Refused(fault) => push_refusal(fault, text),
        }
    }
}

/// Appends a frame, and its mark, if it has one.
#[inline(always)]
fn push_frame(number: usize, marks: &[FrameMark], text: &mut Text) -> Result<(), AllocError>
    ensures { OnOk result (text.new ≡ text.old ++ frame_text marks.now number) }
{
    push_number(b"frame ", number, text)?;
    match mark_of(marks, number) {
        Some(mark) => push_mark(mark, text),
        None => Ok(()),
    }
}

/// The mark of the frame of this number.
#[inline(always)]
pub fn mark_of(marks: &[FrameMark], number: usize) -> Option<FrameMark>
    ensures { result ≡ slice_get marks.now (number - 1) }
{
    match marks.get(number.saturating_sub(1)) {
        Some(mark) => Some(*mark),
        None => None,
    }
}

/// Appends a frame's mark.
#[cold]
#[inline(never)]
fn push_mark(mark: FrameMark, text: &mut Text) -> Result<(), AllocError>
    ensures { OnOk result (text.new ≡ text.old ++ mark_text mark) }
{
    match mark {
        FrameMark::Bare => Ok(()),
        FrameMark::At(time) => push_time(time, text),
        FrameMark::Lost(loss) => loss.push(text),
    }
}

/// Appends a time.
fn push_time(time: u64, text: &mut Text) -> Result<(), AllocError>
    ensures { OnOk result (text.new ≡ text.old ++ number_text (codes " at ") time) }
{
    text.push(b" at ")?;
    text.push_decimal(time)
}

/// Appends a prefix and a number.
#[inline(always)]
pub(crate) fn push_number(prefix: &[u8], number: usize, text: &mut Text) -> Result<(), AllocError>
    ensures { OnOk result (text.new ≡ text.old ++ number_text prefix.now number) }
{
    text.push(prefix)?;
    text.push_decimal(number as u64)
}

/// Appends a prefix and a byte.
#[inline(always)]
fn push_byte(prefix: &[u8], byte: u8, text: &mut Text) -> Result<(), AllocError>
    ensures { OnOk result (text.new ≡ text.old ++ words_text prefix.now byte) }
{
    text.push(prefix)?;
    text.push_byte(byte)
}

/// Appends a prefix and an address.
#[inline(always)]
pub(crate) fn push_address(prefix: &[u8], address: Addr7, text: &mut Text) -> Result<(), AllocError>
    ensures { OnOk result (text.new ≡ text.old ++ words_text prefix.now address) }
{
    push_byte(prefix, address.get(), text)
}

/// Appends how many entries a list has.
#[inline(always)]
fn push_list(entries: usize, text: &mut Text) -> Result<(), AllocError>
    ensures { OnOk result (text.new ≡ text.old ++ (number_text (codes "DEFTGTS ") entries ++ codes " entries")) }
{
    push_number(b"DEFTGTS ", entries, text)?;
    text.push(b" entries")
}

/// Appends a request and the controller's answer to it.
#[inline(always)]
fn push_request(
    request: &Request,
    accepted: bool,
    byte: Option<u8>,
    text: &mut Text,
) -> Result<(), AllocError>
    ensures { OnOk result (text.new ≡ text.old ++ (request_text request.now ++ (verdict_text accepted ++ byte_after byte))) }
{
    push_asked(request, text)?;
    text.push(verdict_text(accepted))?;
    push_after(byte, text)
}

/// Appends a request.
#[inline(always)]
fn push_asked(request: &Request, text: &mut Text) -> Result<(), AllocError>
    ensures { OnOk result (text.new ≡ text.old ++ request_text request.now) }
{
    match request {
        Request::Join => text.push(b"request join"),
        Request::Role(address) => push_address(b"request role ", *address, text),
        Request::Interrupt(address) => push_address(b"request interrupt ", *address, text),
    }
}

/// The text for the controller's answer to a request.
#[inline(always)]
fn verdict_text(accepted: bool) -> &'static [u8]
    ensures { result.now ≡ verdict_text accepted }
{
    if accepted {
        b" accepted"
    } else {
        b" turned down"
    }
}

/// Appends a round, and whether somebody took the address.
#[inline(always)]
fn push_round(identity: u64, byte: u8, taken: bool, text: &mut Text) -> Result<(), AllocError>
    ensures { OnOk result (text.new ≡ text.old ++ (codes "round " ++ (hex_text 16 identity ++ (words_text (codes " ") byte ++ taken_text taken)))) }
{
    text.push(b"round ")?;
    text.push_hex(identity)?;
    push_byte(b" ", byte, text)?;
    text.push(taken_text(taken))
}

/// The text for whether somebody took the address of a round.
#[inline(always)]
fn taken_text(taken: bool) -> &'static [u8]
    ensures { result.now ≡ taken_text taken }
{
    if taken { b" taken" } else { b" not taken" }
}

/// Appends a command to single targets, and the byte behind its header.
#[inline(always)]
fn push_single(
    command: &Direct,
    address: Addr7,
    byte: Option<u8>,
    text: &mut Text,
) -> Result<(), AllocError>
    ensures { OnOk result (text.new ≡ text.old ++ (words_text (command_text command.now) address ++ answer_text byte)) }
{
    push_address(command_words(command), address, text)?;
    push_answer(byte, text)
}

/// The text for a command to single targets.
#[inline(always)]
fn command_words(command: &Direct) -> &'static [u8]
    ensures { result.now ≡ command_text command.now }
{
    match command {
        Direct::Enec => b"ENEC ",
        Direct::Disec => b"DISEC ",
        Direct::Setdasa => b"SETDASA ",
        Direct::Setnewda => b"SETNEWDA ",
        Direct::Getacccr => b"GETACCCR ",
    }
}

/// Appends the byte behind a header of a direct command.
#[inline(always)]
fn push_answer(byte: Option<u8>, text: &mut Text) -> Result<(), AllocError>
    ensures { OnOk result (text.new ≡ text.old ++ answer_text byte) }
{
    match byte {
        Some(byte) => push_byte(b" ", byte, text),
        None => text.push(b" no answer"),
    }
}

/// Appends a code that asks for a datum, and the bytes behind its header.
#[inline(always)]
fn push_get(
    what: Datum,
    address: Addr7,
    span: &Option<Span>,
    trace: &[Symbol],
    text: &mut Text,
) -> Result<(), AllocError>
    ensures { OnOk result (text.new ≡ text.old ++ (words_text (datum_name what) address ++ bytes_text span.now trace.now)) }
{
    push_address(datum_name(what), address, text)?;
    push_bytes(span, trace, text)
}

/// The name of the code that asks for a datum, and a space.
#[inline(always)]
fn datum_name(what: Datum) -> &'static [u8]
    ensures { result.now ≡ datum_name what }
{
    match what {
        Datum::Pid => b"GETPID ",
        Datum::Bcr => b"GETBCR ",
        Datum::Dcr => b"GETDCR ",
        Datum::Status => b"GETSTATUS ",
        Datum::WriteLength => b"GETMWL ",
        Datum::ReadLength => b"GETMRL ",
        Datum::Speed => b"GETMXDS ",
        Datum::Capabilities => b"GETCAPS ",
    }
}

/// Appends a code that sets the maximum length of all, and its two bytes.
#[inline(never)]
fn push_length(way: Direction, bytes: (u8, u8), text: &mut Text) -> Result<(), AllocError>
    ensures { OnOk result (text.new ≡ text.old ++ (words_text (length_name way) bytes.0 ++ words_text (codes " ") bytes.1)) }
{
    push_byte(length_name(way), bytes.0, text)?;
    push_byte(b" ", bytes.1, text)
}

/// Appends a code that sets the maximum length of a target, and the two bytes behind its header.
#[inline(never)]
fn push_length_at(
    way: Direction,
    address: Addr7,
    bytes: Option<(u8, u8)>,
    text: &mut Text,
) -> Result<(), AllocError>
    ensures { OnOk result (text.new ≡ text.old ++ (words_text (length_name way) address ++ length_text bytes)) }
{
    push_address(length_name(way), address, text)?;
    push_length_bytes(bytes, text)
}

/// Appends the two bytes of a length behind a header, unless nobody answered.
fn push_length_bytes(bytes: Option<(u8, u8)>, text: &mut Text) -> Result<(), AllocError>
    ensures { OnOk result (text.new ≡ text.old ++ length_text bytes) }
{
    match bytes {
        Some((high, low)) => {
            push_byte(b" ", high, text)?;
            push_byte(b" ", low, text)
        }
        None => text.push(b" no answer"),
    }
}

/// The name of a code that sets a maximum length, and a space.
fn length_name(way: Direction) -> &'static [u8]
    ensures { result.now ≡ length_name way }
{
    match way {
        Direction::Write => b"SETMWL ",
        Direction::Read => b"SETMRL ",
    }
}

/// The text for the direction of a private transfer.
#[inline(always)]
fn transfer_words(read: bool) -> &'static [u8]
    ensures { result.now ≡ transfer_text read }
{
    if read { b"read " } else { b"write " }
}

/// Appends the bytes behind a header, unless nobody answered.
#[inline(always)]
fn push_bytes(span: &Option<Span>, trace: &[Symbol], text: &mut Text) -> Result<(), AllocError>
    ensures { OnOk result (text.new ≡ text.old ++ bytes_text span.now trace.now) }
{
    match span {
        Some(span) => push_data(span.of(trace), text),
        None => text.push(b" no answer"),
    }
}

/// Appends the bytes of the words among symbols.
#[inline(always)]
fn push_data(symbols: &[Symbol], text: &mut Text) -> Result<(), AllocError>
    ensures { OnOk result (text.new ≡ text.old ++ data_text symbols.now) }
{
    let mut rest = symbols;
    while let [symbol, more @ ..] = rest {
        push_after(byte_of(symbol), text)?;
        rest = more;
    }
    Ok(())
}

/// The byte of a word, with a T bit or of a legacy target.
#[inline(always)]
fn byte_of(symbol: &Symbol) -> Option<u8>
    ensures { result ≡ byte_of symbol.now }
{
    match symbol {
        Symbol::Word(word) => Some(word.byte),
        Symbol::LegacyWord { byte, .. } => Some(*byte),
        _ => None,
    }
}

/// Appends a byte after a space, if there is one.
#[inline(always)]
fn push_after(byte: Option<u8>, text: &mut Text) -> Result<(), AllocError>
    ensures { OnOk result (text.new ≡ text.old ++ byte_after byte) }
{
    match byte {
        Some(byte) => push_byte(b" ", byte, text),
        None => Ok(()),
    }
}

/// Appends that a trace is refused, and its fault.
#[cold]
#[inline(never)]
fn push_refusal(fault: &Fault, text: &mut Text) -> Result<(), AllocError>
    ensures { OnOk result (text.new ≡ text.old ++ (codes "refused " ++ fault_text fault.now)) }
{
    text.push(b"refused ")?;
    push_fault(fault, text)
}

/// Appends a fault, and its number if it has one.
fn push_fault(fault: &Fault, text: &mut Text) -> Result<(), AllocError>
    ensures { OnOk result (text.new ≡ text.old ++ fault_text fault.now) }
{
    match fault {
        Fault::Parity(number) | Fault::List(ListFault::Parity(number)) => {
            push_number(b"Parity ", *number, text)
        }
        Fault::Truncated(number) => push_number(b"Truncated ", *number, text),
        Fault::List(ListFault::Truncated) => text.push(b"Truncated"),
        Fault::List(ListFault::Count) => text.push(b"Count"),
        Fault::List(ListFault::Address(number)) => push_number(b"Address ", *number, text),
        Fault::List(ListFault::Twice) => text.push(b"Twice"),
    }
}
