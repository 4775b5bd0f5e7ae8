ghost use Rattle.std.specs.Prelude.{◌≡◌, ◌⊎◌, ◌≤◌, ◌<◌, ◌++◌, length, IfOk, IfSome, IsErr, MatchResult, OnOk};
ghost use Rattle.std.specs.Io.KnownBytes.{Appends};
ghost use Rattle.i3c_wave.specs.Dump.{after_symbol, dump_text, preamble, symbol_dump};
ghost use Rattle.i3c_streams.specs.Faults.{IsLineFault};
ghost use Rattle.i3c_streams.specs.Outcomes.{AppendsSome, WritesFront};
ghost use Rattle.i3c_streams.specs.Reading.{TellsRead};
ghost use Rattle.i3c_wave.specs.Runs.{GoesOut, fault_line};

use crate::content::Content;
use crate::source::Source;
use crate::wave::Wave;
use i3c_base::Addresses;
use i3c_frame::{Symbol, TraceFault, read_trace_bytes};
use i3c_streams::{MOST_BYTES, ScriptFault, write_gathered, write_out};
use i3c_text::Text;
use std::alloc::{AllocError, Global};
use std::io::{Read, Write};

/// Writes the value change dump (IEEE 1364) of a trace, with this content, on a bus with legacy targets at these addresses; or
/// the line of the trace's first fault, which it gives. A trace is read whole, and has at most 1,048,576 bytes. `Read` is told exactly where a
/// read failed.
pub fn run_wave<R: Read, W: Write>(
    alloc: Global,
    legacies: Addresses,
    content: Content,
    source: &mut Source<R>,
    writer: &mut W,
) -> Result<Option<TraceFault>, ScriptFault>
    ensures fits { OnOk result (IfSome (R.remaining source.old.reader) (λ bytes. length bytes ≤ MOST_BYTES)) }
    ensures large { result ≡ Err ScriptFault.TooLarge → IfSome (R.remaining source.old.reader) (λ bytes. MOST_BYTES < length bytes) }
    ensures lines { GoesOut legacies.0 content (R.remaining source.old.reader) (W.contents writer.old) (W.contents writer.new) result }
    ensures read { TellsRead source.old.has_failed source.new.has_failed result }
{
    let text = source.read_text(alloc)?;
    match read_trace_bytes(alloc, &text) {
        Ok(trace) => {
            write_dump(alloc, legacies, content, &trace, writer)?;
            Ok(None)
        }
        Err(fault) => match write_fault(alloc, fault, writer) {
            Ok(()) => Ok(Some(fault)),
            Err(stop) => Err(stop),
        },
    }
}

/// Writes the dump of a trace, symbol by symbol.
fn write_dump<W: Write>(
    alloc: Global,
    legacies: Addresses,
    content: Content,
    trace: &[Symbol],
    out: &mut W,
) -> Result<(), ScriptFault>
    ensures { MatchResult result
        (λ _. Appends (W.contents out.old) (W.contents out.new) (dump_text legacies.0 content trace.now))
        (λ fault. IsLineFault fault × AppendsSome (W.contents out.old) (W.contents out.new) (dump_text legacies.0 content trace.now)) }
{
    let mut text = Text::new(alloc);
    push_preamble(content, &mut text)?;
    let mut wave = Wave::new(content);
    for symbol in trace {
        write_symbol(&mut wave, legacies, *symbol, &mut text, out)?;
    }
    write_out(text.as_bytes(), out)
}

/// Appends what a dump has before its first symbol.
fn push_preamble(content: Content, text: &mut Text) -> Result<(), ScriptFault>
    ensures { MatchResult result (λ _. text.new ≡ text.old ++ preamble content) (λ fault. fault ≡ ScriptFault.Memory) }
{
    match Wave::push_preamble(content, text) {
        Ok(()) => Ok(()),
        Err(_) => Err(ScriptFault::Memory),
    }
}

/// Appends what a dump has for the next symbol, and writes out what is gathered, once it is long enough.
fn write_symbol<W: Write>(
    wave: &mut Wave,
    legacies: Addresses,
    symbol: Symbol,
    text: &mut Text,
    out: &mut W,
) -> Result<(), ScriptFault>
    ensures wave { OnOk result (wave.new ≡ after_symbol legacies.0 wave.old symbol) }
    ensures out { MatchResult result
        (λ _. WritesFront (W.contents out.old) (W.contents out.new) (text.old ++ symbol_dump legacies.0 wave.old symbol) text.new)
        (λ fault. IsLineFault fault × AppendsSome (W.contents out.old) (W.contents out.new) (text.old ++ symbol_dump legacies.0 wave.old symbol)) }
{
    match wave.push_symbol(legacies, symbol, text) {
        Ok(()) => write_gathered(text, out),
        Err(_) => Err(ScriptFault::Memory),
    }
}

/// Writes the line of a text that is no trace. Want of memory has none, and stays what it is.
fn write_fault<W: Write>(alloc: Global, fault: TraceFault, out: &mut W) -> Result<(), ScriptFault>
    ensures line { MatchResult result
        (λ _. Appends (W.contents out.old) (W.contents out.new) (fault_line fault))
        (λ stop. IsLineFault stop × AppendsSome (W.contents out.old) (W.contents out.new) (fault_line fault)) }
    ensures memory { fault ≡ TraceFault.OutOfMemory → IsErr result }
{
    let mut text = Text::new(alloc);
    match push_fault(fault, &mut text) {
        Ok(()) => write_out(text.as_bytes(), out),
        Err(_) => Err(ScriptFault::Memory),
    }
}

/// Appends the line of a trace's fault.
fn push_fault(fault: TraceFault, text: &mut Text) -> Result<(), AllocError>
    ensures line { OnOk result (text.new ≡ text.old ++ fault_line fault) }
    ensures memory { fault ≡ TraceFault.OutOfMemory → IsErr result }
{
    match fault {
        TraceFault::BadSymbol(number) => text.push_numbered(b"refused BadSymbol ", number as u64),
        TraceFault::NoStart => text.push(b"refused NoStart\n"),
        TraceFault::NoStop => text.push(b"refused NoStop\n"),
        TraceFault::OutOfMemory => Err(AllocError),
    }
}
