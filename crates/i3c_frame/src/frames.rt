ghost use Rattle.std.specs.Prelude.{◌≡◌, ◌<◌, [], length, IfOk, MatchOption};
ghost use Rattle.i3c_frame.specs.declared.traces.FramePosition.{FramePosition as PlaceValue};
ghost use Rattle.i3c_frame.specs.Frames.{IsBreak, IsDue, IsPrefix, IsRead, begins_frame, due_by, frame_at, whole_from};
ghost use Rattle.i3c_frame.specs.Parts.{parts};

use crate::firsts::{First, first_of};
use crate::parts::Parts;
use crate::symbols::Symbol;
use crate::traces::{BYTES_A_SYMBOL, FramePosition, after};
use std::alloc::{AllocError, Global};

/// The symbol expected at the point where a text stops being a trace.
#[derive(Clone, Copy, Debug, PartialEq, Eq)]
pub enum Due {
    /// A symbol: the text isn't one's.
    Symbol,
    /// A header, behind a START or a repeated START.
    Header,
    /// A START, outside a frame.
    Start,
    /// A STOP, before another START or the end of the text.
    Stop,
}

/// Where a text stops being a trace: in which frame and at which symbol, both counted from 1; the symbol's text, if the text
/// doesn't end there; and the symbol expected in its place.
#[derive(Clone, Copy, Debug)]
pub struct Break<'a> {
    pub frame: usize,
    pub symbol: usize,
    pub part: Option<&'a [u8]>,
    pub due: Due,
}

/// The whole frames with which a text begins, and where it stops being a trace, if it does.
#[derive(Drop)]
pub struct Frames<'a> {
    pub symbols: Vec<Symbol>,
    pub broken: Option<Break<'a>>,
}

/// The symbols with which a text begins, the place behind them, the rest of the text, and the symbol expected there.
#[derive(Drop)]
pub(crate) struct Prefix<'a> {
    pub symbols: Vec<Symbol>,
    pub place: FramePosition,
    pub rest: &'a [u8],
    pub due: Due,
}

/// Reads a trace as `read_trace` does, and of one with a fault the whole frames before it.
pub fn read_frames(alloc: Global, bytes: &[u8]) -> Result<Frames<'_>, AllocError>
    ensures { IfOk result (IsRead (parts bytes.now)) }
{
    let Prefix {
        mut symbols,
        place,
        rest,
        due,
    } = read_prefix(alloc, bytes)?;
    let broken = break_of(&symbols, &place, rest, due);
    symbols.truncate(whole_len(&symbols));
    Ok(Frames { symbols, broken })
}

/// Reads symbols as long as they follow one another as those of a trace do.
fn read_prefix(alloc: Global, bytes: &[u8]) -> Result<Prefix<'_>, AllocError>
    ensures { IfOk result (IsPrefix (parts bytes.now)) }
{
    let mut symbols = Vec::with_capacity(alloc, bytes.len() / BYTES_A_SYMBOL)?;
    let mut place = FramePosition::Outside;
    let mut rest = bytes;
    while let Some(first) = first_of(rest) {
        let First::Symbol(symbol, left) = first else {
            let due = Due::Symbol;
            return Ok(Prefix {
                symbols,
                place,
                rest,
                due,
            });
        };
        let Some(next) = after(&place, &symbol) else {
            let due = due_by(&place);
            return Ok(Prefix {
                symbols,
                place,
                rest,
                due,
            });
        };
        place = next;
        symbols.push(symbol)?;
        rest = left;
    }
    let due = due_by(&place);
    Ok(Prefix {
        symbols,
        place,
        rest,
        due,
    })
}

/// The point where a text breaks, behind these symbols, unless it ends outside a frame.
fn break_of<'a>(
    symbols: &[Symbol],
    place: &FramePosition,
    rest: &'a [u8],
    due: Due,
) -> Option<Break<'a>>
    requires short { length symbols.now < usize.MAX }
    requires is_due { IsDue place.now (parts rest.now) due }
    ensures { MatchOption result ((place.now ≡ PlaceValue.Outside) × (parts rest.now ≡ [])) (IsBreak symbols.now place.now (parts rest.now)) }
{
    let part = Parts::new(rest).next();
    if part.is_none() && matches!(place, FramePosition::Outside) {
        return None;
    }
    Some(Break {
        frame: frame_at(place, symbols),
        symbol: symbols.len() + 1,
        part,
        due,
    })
}

/// The frame at a place behind symbols: outside one it is the next.
fn frame_at(place: &FramePosition, symbols: &[Symbol]) -> usize
    requires { length symbols.now < usize.MAX }
    ensures { result ≡ frame_at place.now symbols.now }
{
    let begun = symbols.iter().filter(|symbol| begins_frame(symbol)).count();
    match place {
        FramePosition::Outside => begun + 1,
        FramePosition::Opened | FramePosition::Inside => begun,
    }
}

/// Whether a symbol begins a frame.
fn begins_frame(symbol: &Symbol) -> bool
    ensures { result ≡ begins_frame symbol.now }
{
    matches!(symbol, Symbol::Start)
}

/// The symbol expected at a place.
fn due_by(place: &FramePosition) -> Due
    ensures { result ≡ due_by place.now }
{
    match place {
        FramePosition::Outside => Due::Start,
        FramePosition::Opened => Due::Header,
        FramePosition::Inside => Due::Stop,
    }
}

/// How many symbols there are up to the last STOP.
fn whole_len(symbols: &[Symbol]) -> usize
    ensures { result ≡ whole_from 0 0 symbols.now }
{
    let mut whole = 0;
    let mut count = 0;
    let mut rest = symbols;
    while let [symbol, more @ ..] = rest {
        count += 1;
        if let Symbol::Stop = symbol {
            whole = count;
        }
        rest = more;
    }
    whole
}
