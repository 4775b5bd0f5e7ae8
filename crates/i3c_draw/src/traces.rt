ghost use Rattle.std.specs.Prelude.{◌≡◌, ◌++◌, OnOk};
ghost use Rattle.i3c_draw.specs.Traces.{depth, last_level, level_width, step_text, steps_text, symbol_width, trace_text};
ghost use Rattle.i3c_wave.specs.Levels.{levels_of};

use i3c_frame::Symbol;
use i3c_text::Text;
use i3c_wave::{Level, Levels, Line};
use std::alloc::AllocError;

/// How far a level of a symbol goes to the right.
fn level_width(symbol: &Symbol) -> u64
    ensures { result ≡ level_width symbol.now }
{
    match symbol {
        Symbol::Start => 14,
        Symbol::Repeated => 7,
        Symbol::Stop => 6,
        Symbol::Identity(_) => 2,
        _ => 4,
    }
}

/// How far a symbol goes to the right.
pub(crate) fn symbol_width(symbol: &Symbol) -> u64
    ensures { result ≡ symbol_width symbol.now }
{
    match symbol {
        Symbol::Start => 14,
        Symbol::Repeated => 21,
        Symbol::Stop => 18,
        Symbol::Identity(_) => 256,
        _ => 72,
    }
}

/// How far down a line is at a level.
fn depth(which: Line, level: Level) -> u64
    ensures { result ≡ depth which level }
{
    match (which, level.scl, level.sda) {
        (Line::Scl, true, _) => 21,
        (Line::Scl, false, _) => 31,
        (Line::Sda, _, true) => 36,
        (Line::Sda, _, false) => 46,
    }
}

/// Appends the trace of a line during a symbol, from the level before it on.
pub(crate) fn push_trace(
    which: Line,
    before: Level,
    symbol: Symbol,
    text: &mut Text,
) -> Result<(), AllocError>
    ensures { OnOk result (text.new ≡ text.old ++ trace_text which before symbol) }
{
    text.push(b"<path d='M0 ")?;
    text.push_decimal(depth(which, before))?;
    push_steps(which, symbol, text)?;
    text.push(b"'/>")
}

/// Appends the steps of a line over the levels of a symbol.
fn push_steps(which: Line, symbol: Symbol, text: &mut Text) -> Result<(), AllocError>
    ensures { OnOk result (text.new ≡ text.old ++ steps_text which (level_width symbol) (levels_of symbol)) }
{
    let width = level_width(&symbol);
    let mut levels = Levels::new(symbol);
    while let Some(level) = levels.next() {
        push_step(which, width, level, text)?;
    }
    Ok(())
}

/// Appends how a line comes to a level and stays there.
fn push_step(which: Line, width: u64, level: Level, text: &mut Text) -> Result<(), AllocError>
    ensures { OnOk result (text.new ≡ text.old ++ step_text which width level) }
{
    text.push(b"V")?;
    text.push_decimal(depth(which, level))?;
    text.push(b"h")?;
    text.push_decimal(width)
}

/// The last level of a symbol.
pub(crate) fn last_level(before: Level, symbol: Symbol) -> Level
    ensures { result ≡ last_level before (levels_of symbol) }
{
    let mut last = before;
    let mut levels = Levels::new(symbol);
    while let Some(level) = levels.next() {
        last = level;
    }
    last
}
