ghost use Rattle.std.specs.Prelude.{◌≡◌, ◌++◌, OnOk};
ghost use Rattle.i3c_monitor.specs.Lines.{number_text};
ghost use Rattle.i3c_traces.specs.Explained.{break_reason, due_line, due_reason, frame_after, frame_behind, list_reason, reason_line, reason_of, reason_text, report_reason};

use crate::linting::push_number;
use i3c_deftgts::ListFault;
use i3c_frame::{Break, Due};
use i3c_monitor::{Decoded, Fault, Report};
use i3c_text::Text;
use std::alloc::AllocError;

/// The line that explains a report in this frame, if it is a refusal. Faults explain themselves.
pub(crate) fn push_report(frame: usize, report: &Report, text: &mut Text) -> Result<(), AllocError>
    ensures { OnOk result (text.new ≡ text.old ++ report_reason frame report.now) }
{
    match report {
        Report::Decoded(decoded) => push_decoded(frame, decoded, text),
        Report::Faults(_) => Ok(()),
    }
}

/// The frame after a report in this frame.
pub(crate) fn frame_behind(frame: usize, report: &Report) -> usize
    ensures { result ≡ frame_behind frame report.now }
{
    match report {
        Report::Decoded(decoded) => frame_after(frame, decoded),
        Report::Faults(_) => frame,
    }
}

/// Appends the line that explains a decoded part of this frame, if it is a refusal.
pub(crate) fn push_decoded(
    frame: usize,
    decoded: &Decoded,
    text: &mut Text,
) -> Result<(), AllocError>
    ensures { OnOk result (text.new ≡ text.old ++ reason_of frame decoded.now) }
{
    match decoded {
        Decoded::Refused(fault) => push_line(frame, fault, text),
        _ => Ok(()),
    }
}

/// The frame that began last, after a decoded part.
pub(crate) fn frame_after(frame: usize, decoded: &Decoded) -> usize
    ensures { result ≡ frame_after frame decoded.now }
{
    match decoded {
        Decoded::FrameStart(number) => *number,
        _ => frame,
    }
}

/// Appends the line that explains a refusal in this frame.
fn push_line(frame: usize, fault: &Fault, text: &mut Text) -> Result<(), AllocError>
    ensures { OnOk result (text.new ≡ text.old ++ reason_line frame fault.now) }
{
    push_number(b"frame ", frame, text)?;
    text.push(b": ")?;
    push_reason(fault, text)?;
    text.end()
}

/// Appends why a frame is refused, with the refusal's numbers.
fn push_reason(fault: &Fault, text: &mut Text) -> Result<(), AllocError>
    ensures { OnOk result (text.new ≡ text.old ++ reason_text fault.now) }
{
    match fault {
        Fault::Parity(number) => push_around(
            b"symbol ",
            *number,
            b" is no word with a right T (docs/FORMATS.md, What `trace` prints)",
            text,
        ),
        Fault::Truncated(number) => push_around(
            b"a word, an identity or an address byte is missing at symbol ",
            *number,
            b" (docs/FORMATS.md, What `trace` prints)",
            text,
        ),
        Fault::List(fault) => {
            push_list(fault, text)?;
            text.push(b" (docs/FORMATS.md, The list of DEFTGTS)")
        }
    }
}

/// Appends why words are no list.
fn push_list(fault: &ListFault, text: &mut Text) -> Result<(), AllocError>
    ensures { OnOk result (text.new ≡ text.old ++ list_reason fault.now) }
{
    match fault {
        ListFault::Parity(number) => push_around(b"word ", *number, b" has a wrong T bit", text),
        ListFault::Truncated => text.push(b"the list is cut short"),
        ListFault::Count => text.push(b"the count is not that of the entries"),
        ListFault::Address(number) => push_around(b"entry ", *number, b" lacks its address", text),
        ListFault::Twice => text.push(b"two entries have one address"),
    }
}

/// Appends a number between two texts.
fn push_around(label: &[u8], number: usize, more: &[u8], text: &mut Text) -> Result<(), AllocError>
    ensures { OnOk result (text.new ≡ text.old ++ (number_text label.now number ++ more.now)) }
{
    push_number(label, number, text)?;
    text.push(more)
}

/// Appends where a text stops being a trace, and which symbol is expected there.
pub(crate) fn push_break(broken: &Break<'_>, text: &mut Text) -> Result<(), AllocError>
    ensures { OnOk result (text.new ≡ text.old ++ break_reason broken.now) }
{
    push_number(b"frame ", broken.frame, text)?;
    push_number(b": symbol ", broken.symbol, text)?;
    push_due(broken.due, text)
}

/// Appends which symbol is expected, and ends the line.
fn push_due(due: Due, text: &mut Text) -> Result<(), AllocError>
    ensures { OnOk result (text.new ≡ text.old ++ due_line due) }
{
    text.push(b": ")?;
    text.push(due_reason(due))?;
    text.push(b" (docs/FORMATS.md, Symbols and traces)\n")
}

/// Why a symbol is no part of a trace at its place.
fn due_reason(due: Due) -> &'static [u8]
    ensures { result.now ≡ due_reason due }
{
    match due {
        Due::Symbol => b"this is no symbol",
        Due::Header => b"a header is due behind S and Sr",
        Due::Start => b"S is due outside a frame",
        Due::Stop => b"P is due before the next S and at the end",
    }
}
