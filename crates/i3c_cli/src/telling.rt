ghost use Rattle.std.specs.Prelude.{◌≡◌, ◌++◌, Err, IfOk, OnOk};
ghost use Rattle.std.specs.String.{string_bytes};
ghost use Rattle.i3c_cli.specs.Tellings.{Grows, HasFailed, TellsAs, TellsCapture, TellsFound, TellsFrames, gap_line, gap_text, printed_marks};
ghost use Rattle.i3c_traces.specs.Explained.{GrowsOrNot};

use crate::ending::tally_of;
use crate::fault::Fault;
use i3c_ccc::CodeSet;
use i3c_frame::Frames;
use i3c_streams::{ScriptFault, Tally};
use i3c_task::{Capturing, Telling};
use i3c_text::Text;
use i3c_traces::{
    explain_frames, frames_of, note, print_frames, run_explained_knowing, run_lint,
    run_trace_knowing,
};
use i3c_wave::{Captured, FrameMark, Instant, Source, read_capture, without_times};
use std::alloc::{AllocError, Global};
use std::io::{Read, Write};

/// Tells the trace of a reader in this way, and `notes` why its lines are refused, if that is asked for.
pub fn print_trace<S: Read, W: Write>(
    alloc: Global,
    telling: Telling,
    input: &mut S,
    out: &mut W,
    notes: &mut String,
) -> Result<Tally, ScriptFault>
    ensures { TellsAs telling (S.remaining input.old) (W.contents out.old) (W.contents out.new) result }
{
    match telling {
        Telling::Plain(codes) => run_trace_knowing(alloc, codes, input, out),
        Telling::Lint(legacies) => run_lint(alloc, legacies, input, out),
        Telling::Explain(codes, legacies) => {
            run_explained_knowing(alloc, codes, legacies, input, out, notes)
        }
    }
}

/// Tells the frames of a reader's capture, with `notes` as above, and before these a line where a line of the bus has no level.
/// A read that fails is told as such.
pub fn print_capture<S: Read, W: Write>(
    alloc: Global,
    capturing: Capturing<'_>,
    telling: Telling,
    input: &mut Source<S>,
    out: &mut W,
    notes: &mut String,
) -> Result<Tally, Fault>
    ensures told { TellsCapture capturing.entry telling (S.remaining input.old.reader) (W.contents out.old) (W.contents out.new) (string_bytes notes.old) (string_bytes notes.new) result }
    ensures read { HasFailed input.old.has_failed input.new.has_failed → result ≡ Err Fault.Read }
{
    let scl = capturing.scl.as_bytes();
    let sda = capturing.sda.as_bytes();
    let captured = read_capture(alloc, capturing.legacies, scl, sda, input)?;
    note_gap(alloc, captured.gap, notes);
    print_captured(alloc, capturing.numbers, telling, captured, out, notes)
}

/// Appends to the notes that a line has no level, or nothing for want of memory.
fn note_gap(alloc: Global, gap: Option<Instant>, notes: &mut String)
    ensures { GrowsOrNot (gap_line gap) (string_bytes notes.old) (string_bytes notes.new) }
{
    let mut line = Text::new(alloc);
    if push_gap(gap, &mut line).is_ok() {
        note(&line, notes);
    }
}

/// Appends the line that tells of a gap, if there is one.
fn push_gap(gap: Option<Instant>, text: &mut Text) -> Result<(), AllocError>
    ensures { OnOk result (text.new ≡ text.old ++ gap_line gap) }
{
    match gap {
        Some(at) => push_gap_at(at, text),
        None => Ok(()),
    }
}

/// Appends the line that tells of a gap at this time.
fn push_gap_at(at: Instant, text: &mut Text) -> Result<(), AllocError>
    ensures { OnOk result (text.new ≡ text.old ++ gap_text at) }
{
    text.push(b"a line has no level at ")?;
    at.push(text)?;
    text.push(b", and is passed over until it has one (docs/WAVES.md, Captures)\n")
}

/// Tells what was read of a capture, with the times at which the frames begin or without.
fn print_captured<W: Write>(
    alloc: Global,
    numbers: bool,
    telling: Telling,
    captured: Captured,
    out: &mut W,
    notes: &mut String,
) -> Result<Tally, Fault>
    ensures told { TellsFound numbers telling captured (W.contents out.old) (W.contents out.new) result }
    ensures noted { Grows (string_bytes notes.old) (string_bytes notes.new) }
{
    let marks = printed_marks(alloc, numbers, captured.marks)?;
    let frames = frames_of(captured.symbols)?;
    tally_of(
        print_whole(alloc, telling, &frames, &marks, out, notes),
        true,
    )
}

/// The marks that are told of frames: with their times, if these are asked for.
fn printed_marks(
    alloc: Global,
    numbers: bool,
    marks: Vec<FrameMark>,
) -> Result<Vec<FrameMark>, AllocError>
    ensures { IfOk result (λ printed. printed.items ≡ printed_marks numbers marks.items) }
{
    if numbers {
        Ok(marks)
    } else {
        without_times(alloc, &marks)
    }
}

/// Tells frames in this way, and `notes` why they are refused, if that is asked for. The frames have these marks.
fn print_whole<W: Write>(
    alloc: Global,
    telling: Telling,
    frames: &Frames<'_>,
    marks: &[FrameMark],
    out: &mut W,
    notes: &mut String,
) -> Result<Tally, ScriptFault>
    ensures told { TellsFrames telling frames.now marks.now (W.contents out.old) (W.contents out.new) result }
    ensures noted { Grows (string_bytes notes.old) (string_bytes notes.new) }
{
    match telling {
        Telling::Plain(codes) => print_frames(alloc, codes, None, frames, marks, out),
        Telling::Lint(legacies) => {
            print_frames(alloc, CodeSet::Extended, Some(legacies), frames, marks, out)
        }
        Telling::Explain(codes, legacies) => {
            explain_frames(alloc, codes, legacies, frames, notes);
            print_frames(alloc, codes, legacies, frames, marks, out)
        }
    }
}
