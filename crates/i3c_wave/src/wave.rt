ghost use Rattle.std.specs.Prelude.{◌≡◌, ◌++◌, OnOk};
ghost use Rattle.i3c_wave.specs.Dump.{change_text, delayed_text, stamp_text};

use crate::content::Content;
use crate::levels::{Level, Levels};
use crate::timing::Timing;
use i3c_base::Addresses;
use i3c_frame::Symbol;
use i3c_text::Text;
use std::alloc::AllocError;

/// How long the bus is free before the first START, in ns (I3C Basic 5.1.3.2).
const IDLE: u64 = 1000;

/// How long SDA keeps its level behind a falling edge of SCL, in ns (I3C Basic 6.2).
const HOLD: u64 = 10;

/// What stands for SCL in a dump, and for SDA.
const SCL: u8 = b'c';

const SDA: u8 = b'd';

/// What a dump has before its first symbol: its signals, and the free bus. A text is a variable of GTKWave's kind `string`.
const PREAMBLE: &[u8] = b"$version i3cbus wave $end
$timescale 1 ns $end
$scope module i3c $end
$var wire 1 c scl $end
$var wire 1 d sda $end
$var string 1 s symbol $end
$var real 64 f frame $end
$upscope $end
$enddefinitions $end
#0
1c
1d
r0 f
#1000
";

/// What a plain dump has before its first symbol.
pub(crate) const PLAIN_PREAMBLE: &[u8] = b"$version i3cbus wave $end
$timescale 1 ns $end
$scope module i3c $end
$var wire 1 c scl $end
$var wire 1 d sda $end
$upscope $end
$enddefinitions $end
#0
1c
1d
#1000
";

/// A dump that is being written: the time in ns, the level of the lines, the number of the frame, and what the dump has.
#[derive(Clone, Copy, Drop)]
pub struct Wave {
    pub time: u64,
    pub level: Level,
    pub frame: u64,
    pub content: Content,
}

impl Wave {
    ghost use Rattle.std.specs.Prelude.{◌≡◌, ◌++◌, OnOk};
    ghost use Rattle.i3c_wave.specs.Dump.{after_symbol, begun, free_bus, level_text, mark_text, moved, preamble, symbol_dump};

    /// A free bus, before its first frame.
    pub fn new(content: Content) -> Wave
        ensures { result ≡ free_bus content }
    {
        let level = Level {
            scl: true,
            sda: true,
        };
        Wave {
            time: IDLE,
            level,
            frame: 0,
            content,
        }
    }

    /// Appends what a dump has before its first symbol.
    pub fn push_preamble(content: Content, text: &mut Text) -> Result<(), AllocError>
        ensures { OnOk result (text.new ≡ text.old ++ preamble content) }
    {
        match content {
            Content::Full => text.push(PREAMBLE),
            Content::Wires => text.push(PLAIN_PREAMBLE),
        }
    }

    /// Appends what a dump has for the next symbol, on a bus with legacy targets at these addresses.
    pub fn push_symbol(
        &mut self,
        legacies: Addresses,
        symbol: Symbol,
        text: &mut Text,
    ) -> Result<(), AllocError>
        ensures text { OnOk result (text.new ≡ text.old ++ symbol_dump legacies.0 self.old symbol) }
        ensures wave { OnOk result (self.new ≡ after_symbol legacies.0 self.old symbol) }
    {
        self.begin(symbol);
        self.push_mark(symbol, text)?;
        let timing = Timing::of(legacies, &symbol);
        let mut levels = Levels::new(symbol);
        while let Some(level) = levels.next() {
            self.push_level(timing, level, text)?;
        }
        Ok(())
    }

    /// Counts the frame that a symbol begins.
    fn begin(&mut self, symbol: Symbol)
        ensures { self.new ≡ begun self.old symbol }
    {
        if let Symbol::Start = symbol {
            self.frame = self.frame.saturating_add(1);
        }
    }

    /// Appends the text of a symbol, and the number of the frame that it begins, unless the dump is plain.
    fn push_mark(&self, symbol: Symbol, text: &mut Text) -> Result<(), AllocError>
        ensures { OnOk result (text.new ≡ text.old ++ mark_text self.now symbol) }
    {
        if let Content::Wires = self.content {
            return Ok(());
        }
        if let Symbol::Start = symbol {
            text.push(b"r")?;
            text.push_decimal(self.frame)?;
            text.push(b" f\n")?;
        }
        text.push(b"s")?;
        symbol.push(text)?;
        text.push(b" s\n")
    }

    /// Appends how the lines come to a level, and the time at which it ends.
    fn push_level(
        &mut self,
        timing: Timing,
        level: Level,
        text: &mut Text,
    ) -> Result<(), AllocError>
        ensures text { OnOk result (text.new ≡ text.old ++ level_text timing self.old level) }
        ensures wave { OnOk result (self.new ≡ moved timing self.old level) }
    {
        push_change(SCL, self.level.scl, level.scl, text)?;
        if level.scl {
            push_change(SDA, self.level.sda, level.sda, text)?;
        } else {
            push_delayed(self.time, self.level.sda, level.sda, text)?;
        }
        self.time = self.time.saturating_add(timing.lasting(level));
        self.level = level;
        push_stamp(self.time, text)
    }
}

/// Appends a time.
fn push_stamp(time: u64, text: &mut Text) -> Result<(), AllocError>
    ensures { OnOk result (text.new ≡ text.old ++ stamp_text time) }
{
    text.push_numbered(b"#", time)
}

/// Appends how a line changes, if it does.
fn push_change(line: u8, old: bool, new: bool, text: &mut Text) -> Result<(), AllocError>
    ensures { OnOk result (text.new ≡ text.old ++ change_text line old new) }
{
    match (old, new) {
        (true, true) | (false, false) => Ok(()),
        (false, true) => text.push(&[b'1', line, b'\n']),
        (true, false) => text.push(&[b'0', line, b'\n']),
    }
}

/// Appends how SDA changes behind a falling edge of SCL at this time, if it does.
fn push_delayed(time: u64, old: bool, new: bool, text: &mut Text) -> Result<(), AllocError>
    ensures { OnOk result (text.new ≡ text.old ++ delayed_text time old new) }
{
    match (old, new) {
        (true, true) | (false, false) => Ok(()),
        (false, true) | (true, false) => {
            push_stamp(time.saturating_add(HOLD), text)?;
            push_change(SDA, old, new, text)
        }
    }
}
