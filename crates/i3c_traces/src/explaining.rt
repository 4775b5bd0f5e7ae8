ghost use Rattle.std.specs.Prelude.{◌≡◌, ◌<◌, ◌≤◌, ◌++◌, length, IfErr, IfOk, IfSome, OnOk};
ghost use Rattle.std.specs.Io.KnownBytes.{IsAtEnd};
ghost use Rattle.std.specs.String.{string_bytes};
ghost use Rattle.i3c_ccc.specs.declared.codes.CodeSet.{CodeSet};
ghost use Rattle.i3c_monitor.specs.Lint.{trace_linted};
ghost use Rattle.i3c_monitor.specs.Trace.{trace_told};
ghost use Rattle.i3c_traces.specs.Explained.{AreNoted, GrowsOrNot, IsExplained, decoded_in, frames_reasons, reasons_in};
ghost use Rattle.i3c_streams.specs.Faults.{IsLineFault};
ghost use Rattle.i3c_traces.specs.Linted.{GoesOutAs, IsToldAs};
ghost use Rattle.i3c_traces.specs.Traces.{Goes};

use crate::linting::lint_text;
use crate::reasons::{frame_after, frame_behind, push_break, push_decoded, push_report};
use crate::trace::{print_text, read_text};
use i3c_base::{Addresses, Request};
use i3c_ccc::CodeSet;
use i3c_frame::{Frames, Symbol, read_frames};
use i3c_monitor::{Linter, Monitor};
use i3c_streams::{MOST_BYTES, ScriptFault, Tally};
use i3c_text::Text;
use std::alloc::{AllocError, Global};
use std::io::{Read, Write};
use std::str;

/// Tells a trace as `run_trace` does, or, with the addresses of legacy targets, as `run_lint` does. Behind it `notes` has a
/// line for each `refused` line, which says why and where; for want of memory it has none.
pub fn run_explained<R: Read, W: Write>(
    alloc: Global,
    legacies: Option<Addresses>,
    reader: &mut R,
    writer: &mut W,
    notes: &mut String,
) -> Result<Tally, ScriptFault>
    // an `Ok` comes after the whole of a trace that isn't too large
    ensures whole { OnOk result (IsAtEnd (R.remaining reader.new)) }
    ensures fits { OnOk result (IfSome (R.remaining reader.old) (λ bytes. length bytes ≤ MOST_BYTES)) }
    ensures large { result ≡ Err ScriptFault.TooLarge → IfSome (R.remaining reader.old) (λ bytes. MOST_BYTES < length bytes) }
    ensures lines { GoesOutAs CodeSet.Table legacies (R.remaining reader.old) (W.contents writer.old) (W.contents writer.new) result }
    // the notes have the reason of each refusal, with its numbers
    ensures reasons { IsExplained CodeSet.Table legacies (R.remaining reader.old) (string_bytes notes.old) (string_bytes notes.new) }
    // a trace has no expectations
    ensures unmet { IfOk result (λ tally. tally.unmet ≡ 0) }
{
    run_explained_knowing(alloc, CodeSet::Table, legacies, reader, writer, notes)
}

/// Tells and explains the same of a trace that knows these codes. With its faults, each trace knows all codes.
pub fn run_explained_knowing<R: Read, W: Write>(
    alloc: Global,
    codes: CodeSet,
    legacies: Option<Addresses>,
    reader: &mut R,
    writer: &mut W,
    notes: &mut String,
) -> Result<Tally, ScriptFault>
    // an `Ok` comes after the whole of a trace that isn't too large
    ensures whole { OnOk result (IsAtEnd (R.remaining reader.new)) }
    ensures fits { OnOk result (IfSome (R.remaining reader.old) (λ bytes. length bytes ≤ MOST_BYTES)) }
    ensures large { result ≡ Err ScriptFault.TooLarge → IfSome (R.remaining reader.old) (λ bytes. MOST_BYTES < length bytes) }
    ensures lines { GoesOutAs codes legacies (R.remaining reader.old) (W.contents writer.old) (W.contents writer.new) result }
    // the notes have the reason of each refusal, with its numbers
    ensures reasons { IsExplained codes legacies (R.remaining reader.old) (string_bytes notes.old) (string_bytes notes.new) }
    // a trace has no expectations
    ensures unmet { IfOk result (λ tally. tally.unmet ≡ 0) }
{
    let text = read_text(alloc, reader)?;
    note_reasons(alloc, codes, legacies, &text, notes);
    print_text_as(alloc, codes, legacies, &text, writer)
}

/// Tells a text as a trace, with its faults if legacy targets are named. A trace has no expectations, so none is unmet.
fn print_text_as<W: Write>(
    alloc: Global,
    codes: CodeSet,
    legacies: Option<Addresses>,
    text: &[u8],
    writer: &mut W,
) -> Result<Tally, ScriptFault>
    ensures lines { Goes (IsToldAs codes legacies text.now) (W.contents writer.old) (W.contents writer.new) result }
    ensures faults { IfErr result IsLineFault }
    ensures unmet { IfOk result (λ tally. tally.unmet ≡ 0) }
{
    match legacies {
        Some(legacies) => lint_text(alloc, legacies, text, writer),
        None => print_text(alloc, codes, text, writer),
    }
}

/// Appends to the notes why the lines of a text are refused, or nothing for want of memory.
fn note_reasons(
    alloc: Global,
    codes: CodeSet,
    legacies: Option<Addresses>,
    text: &[u8],
    notes: &mut String,
)
    ensures { AreNoted codes legacies text.now (string_bytes notes.old) (string_bytes notes.new) }
{
    match read_frames(alloc, text) {
        Ok(frames) => explain_frames(alloc, codes, legacies, &frames, notes),
        // what can't be told isn't missed
        Err(_) => {}
    }
}

/// Appends to the notes why the frames of symbols are refused, or nothing for want of memory.
pub fn explain_frames(
    alloc: Global,
    codes: CodeSet,
    legacies: Option<Addresses>,
    frames: &Frames<'_>,
    notes: &mut String,
)
    ensures { GrowsOrNot (frames_reasons codes legacies frames.now) (string_bytes notes.old) (string_bytes notes.new) }
{
    let mut reasons = Text::new(alloc);
    match explain(alloc, codes, legacies, frames, &mut reasons) {
        Ok(()) => note(&reasons, notes),
        // what can't be told isn't missed
        Err(_) => {}
    }
}

/// Appends lines to the notes, or nothing for want of memory.
pub fn note(reasons: &Text, notes: &mut String)
    ensures { GrowsOrNot reasons.now (string_bytes notes.old) (string_bytes notes.new) }
{
    if let Ok(text) = str::from_utf8(reasons.as_bytes()) {
        // what can't be told isn't missed
        let _ = notes.push_str(text);
    }
}

/// Explains the whole frames of a text that is told with its faults, or of another its break, or else its refusals.
fn explain(
    alloc: Global,
    codes: CodeSet,
    legacies: Option<Addresses>,
    frames: &Frames<'_>,
    text: &mut Text,
) -> Result<(), AllocError>
    ensures { OnOk result (text.new ≡ text.old ++ frames_reasons codes legacies frames.now) }
{
    match (legacies, &frames.broken) {
        (Some(legacies), _) => explain_linted(alloc, legacies, &frames.symbols, text),
        (None, Some(broken)) => push_break(broken, text),
        (None, None) => explain_told(alloc, codes, &frames.symbols, text),
    }
}

/// Says why a trace that knows these codes is refused, if it is. Nothing behind its first refused frame is told.
fn explain_told(
    alloc: Global,
    codes: CodeSet,
    symbols: &[Symbol],
    text: &mut Text,
) -> Result<(), AllocError>
    ensures { OnOk result (text.new ≡ text.old ++ reasons_in 0 (trace_told codes symbols.now)) }
{
    // the prover wants this type named where a decoded part is held
    let _none: Option<Request> = None;
    let mut monitor = Monitor::knowing(alloc, codes, symbols);
    let mut frame = 0;
    while let Some(decoded) = monitor.next()? {
        push_decoded(frame, &decoded, text)?;
        frame = frame_after(frame, &decoded);
    }
    Ok(())
}

/// Says of each refused frame of a trace that is told with its faults why it is refused. Legacy targets have these addresses.
fn explain_linted(
    alloc: Global,
    legacies: Addresses,
    symbols: &[Symbol],
    text: &mut Text,
) -> Result<(), AllocError>
    ensures { OnOk result (text.new ≡ text.old ++ reasons_in 0 (decoded_in (trace_linted legacies.0 symbols.now))) }
{
    let mut linter = Linter::new(alloc, legacies, symbols);
    let mut frame = 0;
    while let Some(report) = linter.next()? {
        push_report(frame, &report, text)?;
        frame = frame_behind(frame, &report);
    }
    Ok(())
}
