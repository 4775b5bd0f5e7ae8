ghost use Rattle.std.specs.Prelude.{◌≡◌, ◌<◌, ◌≤◌, [], ◌++◌, length, map, min, option_to_list, IfErr, IfOk, IfSome, IsErr, MatchResult, OnOk};
ghost use Rattle.std.specs.Io.KnownBytes.{Appends, IsAtEnd, Keeps};
ghost use Rattle.i3c_ccc.specs.declared.codes.CodeSet.{CodeSet};
ghost use Rattle.i3c_monitor.specs.Lines.{line_text};
ghost use Rattle.i3c_monitor.specs.Trace.{to_come, trace_told};
ghost use Rattle.i3c_streams.specs.Outcomes.{AppendsSome};
ghost use Rattle.i3c_streams.specs.Faults.{IsLineFault};
ghost use Rattle.i3c_traces.specs.Traces.{ascii, fault_line, losses_in, refusals_in, refused_in, trace_text, Goes, GoesOut, IsTold};

use i3c_ccc::CodeSet;
use i3c_frame::{Symbol, TraceFault, read_trace_bytes};
use i3c_monitor::{Decoded, Monitor, mark_of};
use i3c_streams::{MOST_BYTES, ScriptFault, Tally, read_whole, write_gathered, write_out};
use i3c_text::Text;
use i3c_wave::FrameMark;
use std::alloc::{AllocError, Global};
use std::io::{Read, Write};

/// What stands for a byte that isn't ASCII. No symbol has it.
const UNKNOWN: u8 = b'?';

/// Tells what a trace says: a line for each frame, and below it a line for each thing that was decoded in it; or one line
/// with the trace's first fault. A trace is read whole, and has at most 1,048,576 bytes. It knows the codes of the table; each
/// other code is told as `Other`, without the rest of its frame.
pub fn run_trace<R: Read, W: Write>(
    alloc: Global,
    reader: &mut R,
    writer: &mut W,
) -> Result<Tally, ScriptFault>
    // an `Ok` comes after the whole of a trace that isn't too large
    ensures whole { OnOk result (IsAtEnd (R.remaining reader.new)) }
    ensures fits { OnOk result (IfSome (R.remaining reader.old) (λ bytes. length bytes ≤ MOST_BYTES)) }
    ensures large { result ≡ Err ScriptFault.TooLarge → IfSome (R.remaining reader.old) (λ bytes. MOST_BYTES < length bytes) }
    ensures lines { GoesOut CodeSet.Table (R.remaining reader.old) (W.contents writer.old) (W.contents writer.new) result }
    ensures unmet { IfOk result (λ tally. tally.unmet ≡ 0) }
{
    run_trace_knowing(alloc, CodeSet::Table, reader, writer)
}

/// Tells the same of a trace that knows these codes.
pub fn run_trace_knowing<R: Read, W: Write>(
    alloc: Global,
    codes: CodeSet,
    reader: &mut R,
    writer: &mut W,
) -> Result<Tally, ScriptFault>
    // an `Ok` comes after the whole of a trace that isn't too large
    ensures whole { OnOk result (IsAtEnd (R.remaining reader.new)) }
    ensures fits { OnOk result (IfSome (R.remaining reader.old) (λ bytes. length bytes ≤ MOST_BYTES)) }
    ensures large { result ≡ Err ScriptFault.TooLarge → IfSome (R.remaining reader.old) (λ bytes. MOST_BYTES < length bytes) }
    ensures lines { GoesOut codes (R.remaining reader.old) (W.contents writer.old) (W.contents writer.new) result }
    ensures unmet { IfOk result (λ tally. tally.unmet ≡ 0) }
{
    let text = read_text(alloc, reader)?;
    print_text(alloc, codes, &text, writer)
}

/// Tells a text as a trace that knows these codes.
pub(crate) fn print_text<W: Write>(
    alloc: Global,
    codes: CodeSet,
    text: &[u8],
    writer: &mut W,
) -> Result<Tally, ScriptFault>
    ensures lines { Goes (IsTold codes text.now) (W.contents writer.old) (W.contents writer.new) result }
    ensures faults { IfErr result IsLineFault }
    ensures unmet { IfOk result (λ tally. tally.unmet ≡ 0) }
{
    match read_trace_bytes(alloc, text) {
        Ok(symbols) => print_trace(alloc, codes, &symbols, &[], writer),
        Err(fault) => print_fault(alloc, &fault, writer),
    }
}

/// Reads an input to its end, with a question mark in place of each byte that isn't ASCII.
pub(crate) fn read_text<R: Read>(alloc: Global, reader: &mut R) -> Result<Vec<u8>, ScriptFault>
    ensures whole { OnOk result (IsAtEnd (R.remaining reader.new)) }
    ensures text { IfOk result (λ text. IfSome (R.remaining reader.old) (λ bytes. text.items ≡ map ascii bytes)) }
    ensures fits { OnOk result (IfSome (R.remaining reader.old) (λ bytes. length bytes ≤ MOST_BYTES)) }
    ensures large { result ≡ Err ScriptFault.TooLarge → IfSome (R.remaining reader.old) (λ bytes. MOST_BYTES < length bytes) }
{
    let mut has_failed = false;
    let mut bytes = read_whole(alloc, reader, MOST_BYTES, &mut has_failed)?;
    mark_unknown(&mut bytes);
    Ok(bytes)
}

/// Puts a question mark in place of each byte that isn't ASCII.
fn mark_unknown(bytes: &mut [u8])
    ensures { bytes.new ≡ map ascii bytes.old }
{
    for byte in bytes.iter_mut() {
        *byte = ascii_byte(*byte);
    }
}

/// A byte, or a question mark for one that isn't ASCII.
#[inline(always)]
fn ascii_byte(byte: u8) -> u8
    ensures { result ≡ ascii byte }
{
    if byte < 128 { byte } else { UNKNOWN }
}

/// Writes the lines of a trace, one after another. Its frames have these marks, as far as these go.
pub(crate) fn print_trace<W: Write>(
    alloc: Global,
    codes: CodeSet,
    trace: &[Symbol],
    marks: &[FrameMark],
    out: &mut W,
) -> Result<Tally, ScriptFault>
    ensures unmet { IfOk result (λ tally. tally.unmet ≡ 0) }
    ensures told { MatchResult result
        (λ tally. (tally.refused ≡ min (refused_in marks.now (trace_told codes trace.now)) u64.MAX) × Appends (W.contents out.old) (W.contents out.new) (trace_text codes trace.now marks.now))
        (λ fault. IsLineFault fault × AppendsSome (W.contents out.old) (W.contents out.new) (trace_text codes trace.now marks.now)) }
{
    let mut monitor = Monitor::knowing(alloc, codes, trace);
    let mut text = Text::new(alloc);
    let mut refused: u64 = 0;
    while let Some(decoded) = next_decoded(&mut monitor)? {
        push_decoded(&decoded, trace, marks, &mut text)?;
        refused = refused.saturating_add(refusals(&decoded, marks));
        write_gathered(&mut text, out)?;
    }
    write_out(text.as_bytes(), out)?;
    Ok(Tally { refused, unmet: 0 })
}

/// What comes next in a trace.
#[inline(always)]
fn next_decoded(monitor: &mut Monitor<'_>) -> Result<Option<Decoded>, ScriptFault>
    ensures told { IfOk result (λ decoded. to_come monitor.old ≡ option_to_list decoded ++ to_come monitor.new) }
    ensures ended { result ≡ Ok None → to_come monitor.old ≡ [] }
    ensures memory { IfErr result (λ fault. fault ≡ ScriptFault.Memory) }
{
    match monitor.next() {
        Ok(decoded) => Ok(decoded),
        Err(_) => Err(ScriptFault::Memory),
    }
}

/// How many refusals it is, where frames have these marks: a frame that can't be read counts too.
pub(crate) fn refusals(decoded: &Decoded, marks: &[FrameMark]) -> u64
    ensures { result ≡ refusals_in marks.now decoded.now }
{
    match decoded {
        Decoded::Refused(_) => 1,
        Decoded::FrameStart(number) => losses(mark_of(marks, *number)),
        _ => 0,
    }
}

/// Whether a frame with this mark can't be read, as a number.
fn losses(mark: Option<FrameMark>) -> u64
    ensures { result ≡ losses_in mark }
{
    match mark {
        Some(FrameMark::Lost(_)) => 1,
        _ => 0,
    }
}

/// Appends the line of a decoded part.
#[inline(always)]
fn push_decoded(
    decoded: &Decoded,
    trace: &[Symbol],
    marks: &[FrameMark],
    text: &mut Text,
) -> Result<(), ScriptFault>
    ensures { MatchResult result (λ _. text.new ≡ text.old ++ line_text trace.now marks.now decoded.now)
        (λ fault. fault ≡ ScriptFault.Memory) }
{
    match decoded.push(trace, marks, text) {
        Ok(()) => Ok(()),
        Err(_) => Err(ScriptFault::Memory),
    }
}

/// Writes the line of a text that is no trace.
pub(crate) fn print_fault<W: Write>(
    alloc: Global,
    fault: &TraceFault,
    out: &mut W,
) -> Result<Tally, ScriptFault>
    ensures lines { MatchResult result
        (λ tally. (tally.refused ≡ 1) × Appends (W.contents out.old) (W.contents out.new) (fault_line fault.now))
        (λ stop. IsLineFault stop × AppendsSome (W.contents out.old) (W.contents out.new) (fault_line fault.now)) }
    ensures unmet { IfOk result (λ tally. tally.unmet ≡ 0) }
    ensures memory { fault.now ≡ TraceFault.OutOfMemory → (result ≡ Err ScriptFault.Memory) × Keeps (W.contents out.old) (W.contents out.new) }
{
    let mut text = Text::new(alloc);
    match push_fault(fault, &mut text) {
        Ok(()) => write_out(text.as_bytes(), out)?,
        Err(_) => return Err(ScriptFault::Memory),
    }
    Ok(Tally {
        refused: 1,
        unmet: 0,
    })
}

/// Appends the line of a trace's fault. Want of memory has none, and stays what it is.
fn push_fault(fault: &TraceFault, text: &mut Text) -> Result<(), AllocError>
    ensures told { OnOk result (text.new ≡ text.old ++ fault_line fault.now) }
    ensures memory { fault.now ≡ TraceFault.OutOfMemory → IsErr result }
{
    match fault {
        TraceFault::BadSymbol(number) => {
            text.push(b"refused BadSymbol ")?;
            text.push_decimal(*number as u64)?;
        }
        TraceFault::NoStart => text.push(b"refused NoStart")?,
        TraceFault::NoStop => text.push(b"refused NoStop")?,
        TraceFault::OutOfMemory => return Err(AllocError),
    }
    text.end()
}
