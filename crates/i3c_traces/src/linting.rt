ghost use Rattle.std.specs.Prelude.{◌≡◌, ◌<◌, ◌≤◌, [], ◌++◌, length, map, min, IfErr, IfOk, IfSome, IsSome, MatchResult, OnOk, option_copied, take};
ghost use Rattle.std.specs.Io.KnownBytes.{Appends, IsAtEnd};
ghost use Rattle.i3c_monitor.specs.Linting.{left, reported, to_come};
ghost use Rattle.i3c_monitor.specs.Lines.{number_text};
ghost use Rattle.i3c_monitor.specs.LintLines.{report_text};
ghost use Rattle.i3c_streams.specs.Faults.{IsLineFault};
ghost use Rattle.i3c_traces.specs.Linted.{GoesOutLinted, IsLinted, break_text, breaks, broken_text, cause_text, due_text, faults_in, frames_faults, frames_text, more_text, part_text, parted_text, printable};
ghost use Rattle.i3c_streams.specs.Outcomes.{AppendsSome};
ghost use Rattle.i3c_traces.specs.Traces.{Goes};

use crate::trace::{read_text, refusals};
use i3c_base::Addresses;
use i3c_frame::{Break, Due, Frames, Symbol, read_frames};
use i3c_monitor::{Linter, Report};
use i3c_streams::{MOST_BYTES, ScriptFault, Tally, write_gathered, write_out};
use i3c_text::Text;
use i3c_wave::FrameMark;
use std::alloc::{AllocError, Global};
use std::io::{Read, Write};

/// How many bytes of a text that is no symbol are told.
const TOLD_BYTES: usize = 16;

/// Tells what a trace says, as `run_trace` does, and behind each frame a line for each of its faults; and of a text that is no
/// trace the frames before its first fault, and that fault. A refusal ends its frame, and the next is told. A frame that
/// begins with one of these addresses, of legacy targets, is a private transfer. Refusals and faults are counted.
pub fn run_lint<R: Read, W: Write>(
    alloc: Global,
    legacies: Addresses,
    reader: &mut R,
    writer: &mut W,
) -> Result<Tally, ScriptFault>
    // an `Ok` comes after the whole of a trace that isn't too large
    ensures whole { OnOk result (IsAtEnd (R.remaining reader.new)) }
    ensures fits { OnOk result (IfSome (R.remaining reader.old) (λ bytes. length bytes ≤ MOST_BYTES)) }
    ensures large { result ≡ Err ScriptFault.TooLarge → IfSome (R.remaining reader.old) (λ bytes. MOST_BYTES < length bytes) }
    ensures lines { GoesOutLinted legacies.0 (R.remaining reader.old) (W.contents writer.old) (W.contents writer.new) result }
    ensures unmet { IfOk result (λ tally. tally.unmet ≡ 0) }
{
    let text = read_text(alloc, reader)?;
    lint_text(alloc, legacies, &text, writer)
}

/// Tells a text as a trace with its faults.
pub(crate) fn lint_text<W: Write>(
    alloc: Global,
    legacies: Addresses,
    text: &[u8],
    writer: &mut W,
) -> Result<Tally, ScriptFault>
    ensures lines { Goes (IsLinted legacies.0 text.now) (W.contents writer.old) (W.contents writer.new) result }
    ensures faults { IfErr result IsLineFault }
    ensures unmet { IfOk result (λ tally. tally.unmet ≡ 0) }
{
    match read_frames(alloc, text) {
        Ok(frames) => lint_frames(alloc, legacies, &frames, &[], writer),
        Err(_) => Err(ScriptFault::Memory),
    }
}

/// Writes the lines of frames, and that of their break. They have these marks, as far as these go.
pub(crate) fn lint_frames<W: Write>(
    alloc: Global,
    legacies: Addresses,
    frames: &Frames<'_>,
    marks: &[FrameMark],
    out: &mut W,
) -> Result<Tally, ScriptFault>
    ensures unmet { IfOk result (λ tally. tally.unmet ≡ 0) }
    ensures told { MatchResult result
        (λ tally. (tally.refused ≡ min (frames_faults legacies.0 frames.now marks.now) u64.MAX) × Appends (W.contents out.old) (W.contents out.new) (frames_text legacies.0 frames.now marks.now))
        (λ fault. IsLineFault fault × AppendsSome (W.contents out.old) (W.contents out.new) (frames_text legacies.0 frames.now marks.now)) }
{
    let mut linter = Linter::new(alloc, legacies, &frames.symbols);
    let mut text = Text::new(alloc);
    let mut refused: u64 = 0;
    while let Some(report) = next_report(&mut linter)? {
        push_report(&report, &frames.symbols, marks, &mut text)?;
        refused = refused.saturating_add(faults_of(&report, marks));
        write_gathered(&mut text, out)?;
    }
    refused = refused.saturating_add(breaks_of(&frames.broken));
    push_end(&frames.broken, &mut text)?;
    write_out(text.as_bytes(), out)?;
    Ok(Tally { refused, unmet: 0 })
}

/// What comes next for a linter.
fn next_report(linter: &mut Linter<'_>) -> Result<Option<Report>, ScriptFault>
    ensures told { IfOk result (λ report. to_come linter.old ≡ reported report ++ to_come linter.new) }
    ensures ended { result ≡ Ok None → to_come linter.old ≡ [] }
    ensures memory { IfErr result (λ fault. fault ≡ ScriptFault.Memory) }
    ensures further { IfOk result (λ report. IsSome report → left linter.new < left linter.old) }
{
    match linter.next() {
        Ok(report) => Ok(report),
        Err(_) => Err(ScriptFault::Memory),
    }
}

/// How many refusals and faults a report tells, where frames have these marks.
fn faults_of(report: &Report, marks: &[FrameMark]) -> u64
    ensures { result ≡ faults_in marks.now report.now }
{
    match report {
        Report::Decoded(decoded) => refusals(decoded, marks),
        Report::Faults(faults) => faults.len() as u64,
    }
}

/// Appends the lines of a report.
fn push_report(
    report: &Report,
    trace: &[Symbol],
    marks: &[FrameMark],
    text: &mut Text,
) -> Result<(), ScriptFault>
    ensures { MatchResult result (λ _. text.new ≡ text.old ++ report_text trace.now marks.now report.now)
        (λ fault. fault ≡ ScriptFault.Memory) }
{
    match report.push(trace, marks, text) {
        Ok(()) => Ok(()),
        Err(_) => Err(ScriptFault::Memory),
    }
}

/// How many faults it is that a text stops being a trace, if it does.
fn breaks_of(broken: &Option<Break<'_>>) -> u64
    ensures { result ≡ breaks broken.now }
{
    match broken {
        Some(_) => 1,
        None => 0,
    }
}

/// Appends the line of where a text stops being a trace, if it does.
fn push_end(broken: &Option<Break<'_>>, text: &mut Text) -> Result<(), ScriptFault>
    ensures { MatchResult result (λ _. text.new ≡ text.old ++ break_text broken.now)
        (λ fault. fault ≡ ScriptFault.Memory) }
{
    let Some(broken) = broken else {
        return Ok(());
    };
    match push_break(broken, text) {
        Ok(()) => Ok(()),
        Err(_) => Err(ScriptFault::Memory),
    }
}

/// Appends where a text stops being a trace.
fn push_break(broken: &Break<'_>, text: &mut Text) -> Result<(), AllocError>
    ensures { OnOk result (text.new ≡ text.old ++ broken_text broken.now) }
{
    push_number(b"frame ", broken.frame, text)?;
    push_number(b": symbol ", broken.symbol, text)?;
    push_cause(broken, text)
}

/// Appends a label and a number.
pub(crate) fn push_number(label: &[u8], number: usize, text: &mut Text) -> Result<(), AllocError>
    ensures { OnOk result (text.new ≡ text.old ++ number_text label.now number) }
{
    text.push(label)?;
    text.push_decimal(number as u64)
}

/// Appends the text that is there, and the symbol expected in its place.
fn push_cause(broken: &Break<'_>, text: &mut Text) -> Result<(), AllocError>
    ensures { OnOk result (text.new ≡ text.old ++ cause_text broken.now) }
{
    push_standing(broken, text)?;
    text.push(due_text(broken.due))?;
    text.end()
}

/// Appends the text in the place of a symbol, if there is one.
fn push_standing(broken: &Break<'_>, text: &mut Text) -> Result<(), AllocError>
    ensures { OnOk result (text.new ≡ text.old ++ parted_text (option_copied broken.now.part)) }
{
    match broken.part {
        Some(part) => push_part(part, text),
        None => Ok(()),
    }
}

/// Appends a text that is no symbol, in quotes: its first bytes, if it is longer.
fn push_part(part: &[u8], text: &mut Text) -> Result<(), AllocError>
    ensures { OnOk result (text.new ≡ text.old ++ part_text part.now) }
{
    text.push(b" '")?;
    push_printable(front_of(part), text)?;
    text.push(more_text(part.len()))?;
    text.push(b"'")
}

/// The bytes that are told of a text.
fn front_of(part: &[u8]) -> &[u8]
    ensures { result.now ≡ take 16 part.now }
{
    if part.len() > TOLD_BYTES {
        &part[..TOLD_BYTES]
    } else {
        part
    }
}

/// The text behind them, for a text of `count` bytes.
fn more_text(count: usize) -> &'static [u8]
    ensures { result.now ≡ more_text count }
{
    if count > TOLD_BYTES { b".." } else { b"" }
}

/// Appends bytes, with a question mark in place of each that isn't printed.
fn push_printable(bytes: &[u8], text: &mut Text) -> Result<(), AllocError>
    ensures { OnOk result (text.new ≡ text.old ++ map printable bytes.now) }
{
    let mut rest = bytes;
    while let [byte, more @ ..] = rest {
        text.push(&[printable(*byte)])?;
        rest = more;
    }
    Ok(())
}

/// A byte, or a question mark for one that isn't printed.
fn printable(byte: u8) -> u8
    ensures { result ≡ printable byte }
{
    if byte < 32 || byte > 126 { b'?' } else { byte }
}

/// The text of an expected symbol.
fn due_text(due: Due) -> &'static [u8]
    ensures { result.now ≡ due_text due }
{
    match due {
        Due::Symbol => b": no symbol",
        Due::Header => b": a header is due",
        Due::Start => b": S is due",
        Due::Stop => b": P is due",
    }
}
