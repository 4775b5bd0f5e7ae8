ghost use Rattle.std.specs.Prelude.{◌≡◌, ◌≤◌, ◌++◌, OnOk};
ghost use Rattle.i3c_draw.specs.Rows.{box_text, boxes_text, class_of};

use crate::driver::{Driver, Turn};
use crate::traces::{last_level, push_trace, symbol_width};
use i3c_frame::Symbol;
use i3c_text::Text;
use i3c_wave::{Level, Line};
use std::alloc::AllocError;

/// Where a wire begins on the left, and where it ends on the right.
pub(crate) const LEFT: u64 = 232;

const RIGHT: u64 = 928;

/// How high a band of the wire is: the symbols, SCL, SDA, and what parts it from the next.
const BAND: u64 = 58;

/// How wide the box of an answer is.
const ANSWER: u64 = 8;

/// Where the next symbol of a wire is drawn: its place in pixels, what was before it, and the level of the lines.
#[derive(Clone, Copy)]
pub struct Pen {
    pub x: u64,
    pub y: u64,
    pub turn: Turn,
    pub level: Level,
}

impl Pen {
    ghost use Rattle.i3c_draw.specs.Rows.{after_symbol, after_wire, at_symbol, behind, below_wire, drawn, next_band, pen_at, placed, symbol_text, wire_text};

    /// The pen at the beginning of a row at height `y`: the bus is free.
    pub fn at(y: u64) -> Pen
        ensures { result ≡ pen_at y }
    {
        let turn = Turn {
            arbitrable: false,
            reading: false,
        };
        let level = Level {
            scl: true,
            sda: true,
        };
        Pen {
            x: LEFT,
            y,
            turn,
            level,
        }
    }

    /// How far down the wire goes.
    pub fn bottom(self) -> u64
        ensures { result ≡ below_wire self }
    {
        if self.x == LEFT {
            self.y
        } else {
            self.y.saturating_add(BAND)
        }
    }

    /// Appends symbols, one after another.
    pub fn push_wire(&mut self, wire: &[Symbol], text: &mut Text) -> Result<(), AllocError>
        ensures text { OnOk result (text.new ≡ text.old ++ wire_text self.old wire.now) }
        ensures pen { OnOk result (self.new ≡ after_wire self.old wire.now) }
    {
        let mut rest = wire;
        while let [symbol, more @ ..] = rest {
            self.push_symbol(*symbol, text)?;
            rest = more;
        }
        Ok(())
    }

    /// Appends a symbol, where there is room for it.
    fn push_symbol(&mut self, symbol: Symbol, text: &mut Text) -> Result<(), AllocError>
        ensures text { OnOk result (text.new ≡ text.old ++ symbol_text self.old symbol) }
        ensures pen { OnOk result (self.new ≡ after_symbol self.old symbol) }
    {
        let pen = self.at_symbol(&symbol);
        pen.push_placed(symbol, text)?;
        *self = pen.behind(symbol);
        Ok(())
    }

    /// The place of a symbol: a START begins a band, and so does a symbol for which the band has no room.
    fn at_symbol(self, symbol: &Symbol) -> Pen
        ensures { result ≡ at_symbol self symbol.now }
    {
        let fits = match symbol {
            Symbol::Start => self.x == LEFT,
            _ => self.x.saturating_add(symbol_width(symbol)) <= RIGHT,
        };
        if fits { self } else { self.next_band() }
    }

    /// The next band of the wire.
    fn next_band(self) -> Pen
        ensures { result ≡ next_band self }
    {
        Pen {
            x: LEFT,
            y: self.y.saturating_add(BAND),
            turn: self.turn,
            level: self.level,
        }
    }

    /// The pen behind a symbol that was drawn.
    fn behind(self, symbol: Symbol) -> Pen
        ensures { result ≡ behind self symbol }
    {
        Pen {
            x: self.x.saturating_add(symbol_width(&symbol)),
            y: self.y,
            turn: self.turn.after(&symbol),
            level: last_level(self.level, symbol),
        }
    }

    /// Appends a symbol at its place.
    fn push_placed(self, symbol: Symbol, text: &mut Text) -> Result<(), AllocError>
        ensures { OnOk result (text.new ≡ text.old ++ placed self (drawn self symbol)) }
    {
        text.push(b"<g transform='translate(")?;
        text.push_decimal(self.x)?;
        text.push(b",")?;
        text.push_decimal(self.y)?;
        text.push(b")'>")?;
        self.push_drawn(symbol, text)?;
        text.push(b"</g>\n")
    }

    /// Appends what is drawn of a symbol.
    fn push_drawn(self, symbol: Symbol, text: &mut Text) -> Result<(), AllocError>
        ensures { OnOk result (text.new ≡ text.old ++ drawn self symbol) }
    {
        let bits = self.turn.bits_by(&symbol);
        let answer = self.turn.answer_by(&symbol);
        push_boxes(bits, answer, symbol_width(&symbol), text)?;
        text.push(b"<text x='3' y='12'>")?;
        symbol.push(text)?;
        text.push(b"</text>")?;
        push_trace(Line::Scl, self.level, symbol, text)?;
        push_trace(Line::Sda, self.level, symbol, text)
    }
}

/// Appends the boxes of a symbol.
fn push_boxes(
    bits: Driver,
    answer: Option<Driver>,
    width: u64,
    text: &mut Text,
) -> Result<(), AllocError>
    ensures { OnOk result (text.new ≡ text.old ++ boxes_text bits answer width) }
{
    match answer {
        None => push_box(bits, 0, width, text),
        Some(answer) => {
            let front = width.saturating_sub(ANSWER);
            push_box(bits, 0, front, text)?;
            push_box(answer, front, ANSWER, text)
        }
    }
}

/// Appends a box in the colour of a driver.
fn push_box(driver: Driver, x: u64, width: u64, text: &mut Text) -> Result<(), AllocError>
    ensures { OnOk result (text.new ≡ text.old ++ box_text driver x width) }
{
    text.push(b"<rect class='")?;
    text.push(class_of(driver))?;
    text.push(b"' x='")?;
    text.push_decimal(x)?;
    text.push(b"' width='")?;
    text.push_decimal(width)?;
    text.push(b"' height='16'/>")
}

/// The class of a box.
fn class_of(driver: Driver) -> &'static [u8]
    ensures { result.now ≡ class_of driver }
{
    match driver {
        Driver::Controller => b"c",
        Driver::Target => b"t",
        Driver::Both => b"b",
        Driver::Nobody => b"n",
    }
}
