ghost use Rattle.std.specs.Prelude.{◌≡◌, ◌++◌, codes, OnOk};
ghost use Rattle.i3c_draw.specs.Pictures.{head_text, line, picture_text};
ghost use Rattle.i3c_cli.specs.Drawings.{IsDrawn, IsWritten};

use i3c_draw::Picture;
use i3c_frame::Symbol;
use i3c_runner::{Viewer, run_viewed};
use i3c_streams::{ScriptFault, Tally, write_out};
use i3c_text::Text;
use std::alloc::{AllocError, Global};
use std::io::{Read, Write};

/// A picture has at most this many bytes, since its rows are gathered before its height is known.
const MOST_BYTES: usize = 16_777_216;

/// Runs a script, and writes a picture of it once it was run to its end. With a fault nothing is written, unless writing is what
/// failed.
pub fn draw_script<R: Read, W: Write>(
    alloc: Global,
    reader: &mut R,
    out: &mut W,
) -> Result<Tally, ScriptFault>
    ensures { IsDrawn (R.remaining reader.old) (W.contents out.old) (W.contents out.new) result }
{
    let mut drawing = Drawing::new(alloc);
    match run_viewed(alloc, reader, &mut drawing) {
        Ok(tally) => match write_picture(alloc, &drawing.picture, out) {
            Ok(()) => Ok(tally),
            Err(fault) => Err(fault),
        },
        Err(fault) => Err(fault),
    }
}

/// A picture of a script that runs.
#[derive(Drop)]
struct Drawing {
    picture: Picture,
}

impl Drawing {
    ghost use Rattle.i3c_cli.specs.Drawings.{IsBlank};

    /// A picture without rows.
    fn new(alloc: Global) -> Drawing
        ensures { IsBlank result.picture }
    {
        Drawing {
            picture: Picture::new(alloc),
        }
    }
}

// A line that is empty has no row.
impl Viewer for Drawing {
    ghost use Rattle.i3c_cli.specs.Drawings.{Draws, DrawsNot};

    ghost view_gives = { Draws };

    ghost view_fails = { DrawsNot };

    fn view(&mut self, line: &[u8], printed: &[u8], wire: &[Symbol]) -> Result<(), ScriptFault> {
        if line.is_empty() {
            return Ok(());
        }
        match self.picture.push_row(line, printed, wire) {
            Ok(()) => {}
            Err(_) => return Err(ScriptFault::Memory),
        }
        if self.picture.rows.as_bytes().len() > MOST_BYTES {
            return Err(ScriptFault::TooLarge);
        }
        Ok(())
    }
}

/// Writes a picture. For want of memory nothing is written, and a writer that fails takes a prefix.
fn write_picture<W: Write>(alloc: Global, picture: &Picture, out: &mut W) -> Result<(), ScriptFault>
    ensures { IsWritten (W.contents out.old) (W.contents out.new) (picture_text picture.now) result }
{
    let mut head = Text::new(alloc);
    let mut end = Text::new(alloc);
    match push_ends(picture, &mut head, &mut end) {
        Ok(()) => {}
        Err(_) => return Err(ScriptFault::Memory),
    }
    match write_out(head.as_bytes(), out) {
        Ok(()) => {}
        Err(fault) => return Err(fault),
    }
    match write_out(picture.rows.as_bytes(), out) {
        Ok(()) => {}
        Err(fault) => return Err(fault),
    }
    write_out(end.as_bytes(), out)
}

/// Appends what is before the rows of a picture to one text, and what is behind them to another.
fn push_ends(picture: &Picture, head: &mut Text, end: &mut Text) -> Result<(), AllocError>
    ensures head { OnOk result (head.new ≡ head.old ++ head_text picture.now.pen.y) }
    ensures end { OnOk result (end.new ≡ end.old ++ line (codes "</svg>")) }
{
    picture.push_head(head)?;
    Picture::push_end(end)
}
