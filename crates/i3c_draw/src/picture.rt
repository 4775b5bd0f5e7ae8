ghost use Rattle.std.specs.Prelude.{◌≡◌, ◌++◌, OnOk};
ghost use Rattle.i3c_draw.specs.Pictures.{head_text, line_room, next_row};

use crate::labels::{below_printed, push_line, push_printed};
use crate::pen::{LEFT, Pen};
use i3c_frame::Symbol;
use i3c_text::Text;
use std::alloc::{AllocError, Global};
use std::cmp;

/// How far down the first row is, below the legend.
const TOP: u64 = 36;

/// How high the row of a line is at least.
const LEAST: u64 = 20;

/// How far below printed lines the next row is.
const GAP: u64 = 6;

/// How wide a script's line may be beside a wire, and alone.
const BESIDE: u64 = 216;

const ALONE: u64 = 916;

/// What is below the height: the colours, light and dark, and which colour is whose.
const LEGEND: &[u8] = b"' font-family='monospace' font-size='11'>
<style>
svg{background:#fff}text{fill:#222;white-space:pre}path{stroke:#222;fill:none}rect{stroke:#fff}
.c{fill:#a8cdf5}.t{fill:#b2dfae}.b{fill:#f8d384}.n{fill:#ddd}
@media(prefers-color-scheme:dark){svg{background:#161616}text{fill:#eee}path{stroke:#eee}rect{stroke:#161616}
.c{fill:#1d4f86}.t{fill:#2c6030}.b{fill:#7a5410}.n{fill:#444}}
</style>
<rect class='c' x='232' y='8' width='72' height='16'/><text x='235' y='20'>controller</text>
<rect class='t' x='312' y='8' width='72' height='16'/><text x='315' y='20'>target</text>
<rect class='b' x='392' y='8' width='72' height='16'/><text x='395' y='20'>both</text>
<rect class='n' x='472' y='8' width='72' height='16'/><text x='475' y='20'>nobody</text>
<text x='560' y='20'>above: SCL, below: SDA</text>
";

/// A picture that is being drawn: its rows so far, and the pen of the next one. Rows are gathered, since the picture's height
/// is before them.
#[derive(Drop)]
pub struct Picture {
    pub rows: Text,
    pub pen: Pen,
}

impl Picture {
    ghost use Rattle.std.specs.Prelude.{[], codes};
    ghost use Rattle.i3c_draw.specs.Pictures.{after_row, line, row_text};
    ghost use Rattle.i3c_draw.specs.Rows.{pen_at};

    /// A picture without rows.
    pub fn new(alloc: Global) -> Picture
        ensures rows { result.rows ≡ [] }
        ensures pen { result.pen ≡ pen_at 36 }
    {
        Picture {
            rows: Text::new(alloc),
            pen: Pen::at(TOP),
        }
    }

    /// Appends the row of a script's line: the line, what it printed, and its wire.
    pub fn push_row(
        &mut self,
        line: &[u8],
        printed: &[u8],
        wire: &[Symbol],
    ) -> Result<(), AllocError>
        ensures rows { OnOk result (self.new.rows ≡ self.old.rows ++ row_text self.old.pen (record { line = line.now; printed = printed.now; wire = wire.now })) }
        ensures pen { OnOk result (self.new.pen ≡ after_row self.old.pen (record { line = line.now; printed = printed.now; wire = wire.now })) }
    {
        let y = self.pen.y;
        push_line(y, line_room(wire), line, &mut self.rows)?;
        push_printed(y, printed, &mut self.rows)?;
        let mut pen = self.pen;
        pen.push_wire(wire, &mut self.rows)?;
        self.pen = next_row(y, pen, printed);
        Ok(())
    }

    /// Appends the beginning of the picture, with its height.
    pub fn push_head(&self, text: &mut Text) -> Result<(), AllocError>
        ensures { OnOk result (text.new ≡ text.old ++ head_text self.now.pen.y) }
    {
        text.push(b"<svg xmlns='http://www.w3.org/2000/svg' width='1200' height='")?;
        text.push_decimal(self.pen.y)?;
        text.push(LEGEND)
    }

    /// Appends the end of a picture.
    pub fn push_end(text: &mut Text) -> Result<(), AllocError>
        ensures { OnOk result (text.new ≡ text.old ++ line (codes "</svg>")) }
    {
        text.push(b"</svg>\n")
    }
}

/// How wide a script's line may be, beside this wire.
fn line_room(wire: &[Symbol]) -> u64
    ensures { result ≡ line_room wire.now }
{
    if wire.is_empty() { ALONE } else { BESIDE }
}

/// The pen of the next row, behind a row at height `y`.
fn next_row(y: u64, behind: Pen, printed: &[u8]) -> Pen
    ensures { result ≡ next_row y behind printed.now }
{
    let beside = cmp::max(
        below_printed(y, printed).saturating_add(GAP),
        behind.bottom(),
    );
    Pen {
        x: LEFT,
        y: cmp::max(y.saturating_add(LEAST), beside),
        turn: behind.turn,
        level: behind.level,
    }
}
