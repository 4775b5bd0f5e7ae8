ghost use Rattle.std.specs.Prelude.{◌≡◌, ◌++◌, true, OnOk};
ghost use Rattle.i3c_draw.specs.Rows.{before_byte, behind_bytes, below_printed, line_text, printed_lines, printed_part, printed_text, title_text};

use crate::escaped::{push_byte, push_escaped};
use i3c_text::Text;
use std::alloc::AllocError;

/// How far below a printed line the next one is.
const PRINTED: u64 = 14;

/// What ends a line.
const LINE_FEED: u8 = b'\n';

/// Appends a script's line at height `y`, cut at this width.
pub(crate) fn push_line(y: u64, width: u64, line: &[u8], text: &mut Text) -> Result<(), AllocError>
    ensures { OnOk result (text.new ≡ text.old ++ line_text y width line.now) }
{
    text.push(b"<svg x='8' y='")?;
    text.push_decimal(y)?;
    text.push(b"' width='")?;
    text.push_decimal(width)?;
    text.push(b"' height='16'>")?;
    push_title(line, text)?;
    text.push(b"<text y='12'>")?;
    push_escaped(line, text)?;
    text.push(b"</text></svg>\n")
}

/// Appends a line's output, from height `y` on.
pub(crate) fn push_printed(y: u64, printed: &[u8], text: &mut Text) -> Result<(), AllocError>
    ensures { OnOk result (text.new ≡ text.old ++ printed_text y printed.now) }
{
    text.push(b"<text transform='translate(940,")?;
    text.push_decimal(y)?;
    text.push(b")' y='-2'>")?;
    push_title(printed, text)?;
    push_printed_lines(printed, text)?;
    text.push(b"</text>\n")
}

/// Appends the whole of a text, which a browser shows where it is pointed at.
fn push_title(whole: &[u8], text: &mut Text) -> Result<(), AllocError>
    ensures { OnOk result (text.new ≡ text.old ++ title_text whole.now) }
{
    text.push(b"<title>")?;
    push_escaped(whole, text)?;
    text.push(b"</title>")
}

/// Appends printed lines, each below the one before.
fn push_printed_lines(printed: &[u8], text: &mut Text) -> Result<(), AllocError>
    ensures { OnOk result (text.new ≡ text.old ++ printed_lines true printed.now) }
{
    let mut begins = true;
    let mut rest = printed;
    while let [byte, more @ ..] = rest {
        text.push(before_byte(begins))?;
        push_part(*byte, text)?;
        begins = *byte == LINE_FEED;
        rest = more;
    }
    text.push(behind_bytes(begins))
}

/// What is before a byte that begins a line, or doesn't.
fn before_byte(begins: bool) -> &'static [u8]
    ensures { result.now ≡ before_byte begins }
{
    if begins {
        b"<tspan x='0' dy='14'>"
    } else {
        b""
    }
}

/// What is behind the last byte, where a line would begin, or has begun.
fn behind_bytes(begins: bool) -> &'static [u8]
    ensures { result.now ≡ behind_bytes begins }
{
    if begins { b"" } else { b"</tspan>" }
}

/// Appends a byte of the output.
fn push_part(byte: u8, text: &mut Text) -> Result<(), AllocError>
    ensures { OnOk result (text.new ≡ text.old ++ printed_part byte) }
{
    if byte == LINE_FEED {
        text.push(b"</tspan>")
    } else {
        push_byte(byte, text)
    }
}

/// How far down printed lines go.
pub(crate) fn below_printed(y: u64, printed: &[u8]) -> u64
    ensures { result ≡ below_printed y printed.now }
{
    let mut bottom = y;
    let mut rest = printed;
    while let [byte, more @ ..] = rest {
        if *byte == LINE_FEED {
            bottom = bottom.saturating_add(PRINTED);
        }
        rest = more;
    }
    bottom
}
