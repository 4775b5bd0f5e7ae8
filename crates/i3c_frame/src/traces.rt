ghost use Rattle.std.specs.Prelude.{◌≡◌, ◌⊎◌, List, All, IfErr, IfOk, MatchResult, map};
ghost use Rattle.i3c_frame.specs.declared.symbols.Symbol.{Symbol as SymbolValue};
ghost use Rattle.i3c_frame.specs.Parts.{parts};
ghost use Rattle.i3c_frame.specs.Texts.{IsInRange, text_of};
ghost use Rattle.i3c_frame.specs.Traces.{IsFirstFault, IsTrace, after, misplaced};

use crate::firsts::{First, first_of};
use crate::symbols::Symbol;
use std::alloc::Global;
use thiserror::Error;

/// How many bytes of a trace are a symbol and what parts it from the next, as a rule.
pub(crate) const BYTES_A_SYMBOL: usize = 4;

/// Why a text is no trace. Symbols are counted from 1.
#[derive(Clone, Copy, Debug, PartialEq, Eq, Drop, Error)]
pub enum TraceFault {
    /// This one is no symbol, or no header though it follows a START.
    #[error("symbol {0} is bad")]
    BadSymbol(usize),
    /// A symbol other than START is outside a frame.
    #[error("a frame has no START")]
    NoStart,
    /// A frame ends without STOP: a START or the end of the text comes inside it.
    #[error("a frame has no STOP")]
    NoStop,
    /// There was no memory for the symbols.
    #[error("out of memory")]
    OutOfMemory,
}

/// The place of a wire between two symbols.
#[derive(Clone, Copy)]
pub(crate) enum FramePosition {
    /// Outside a frame: only START is allowed.
    Outside,
    /// After START or repeated START, where a header must follow.
    Opened,
    /// Inside a frame, after a header.
    Inside,
}

/// The place after a symbol, if the symbol is allowed there.
pub(crate) fn after(place: &FramePosition, symbol: &Symbol) -> Option<FramePosition>
    ensures { result ≡ after place.now symbol.now }
{
    match (place, symbol) {
        (FramePosition::Outside, Symbol::Start) => Some(FramePosition::Opened),
        (FramePosition::Opened, Symbol::Header { .. }) => Some(FramePosition::Inside),
        (FramePosition::Outside | FramePosition::Opened, _)
        | (FramePosition::Inside, Symbol::Start) => None,
        (FramePosition::Inside, Symbol::Repeated) => Some(FramePosition::Opened),
        (FramePosition::Inside, Symbol::Stop) => Some(FramePosition::Outside),
        (FramePosition::Inside, _) => Some(FramePosition::Inside),
    }
}

/// The fault of a symbol that isn't allowed at a place.
fn misplaced(place: &FramePosition, number: usize) -> TraceFault
    ensures { result ≡ misplaced place.now number }
{
    match place {
        FramePosition::Outside => TraceFault::NoStart,
        FramePosition::Opened => TraceFault::BadSymbol(number),
        FramePosition::Inside => TraceFault::NoStop,
    }
}

/// Reads a trace: symbols parted by spaces and line feeds, which are also allowed at both ends. Each frame begins with a
/// START and ends with a STOP, and a header follows each START and each repeated START. Fails with the first fault.
pub fn read_trace(alloc: Global, text: &str) -> Result<Vec<Symbol>, TraceFault>
    ensures sound { IfOk result (λ trace. IsTrace trace.items × (map text_of trace.items ≡ parts text.now)) }
    ensures range { IfOk result (λ trace. All IsInRange trace.items) }
    ensures fault { IfErr result (λ fault.
        (fault ≡ TraceFault.OutOfMemory) ⊎ IsFirstFault (parts text.now) fault) }
    ensures complete { (symbols : List SymbolValue) → All IsInRange symbols → IsTrace symbols
        → map text_of symbols ≡ parts text.now
        → MatchResult result (λ trace. trace.items ≡ symbols) (λ fault. fault ≡ TraceFault.OutOfMemory) }
{
    read_trace_bytes(alloc, text.as_bytes())
}

/// Reads a trace as `read_trace` does, from any bytes.
pub fn read_trace_bytes(alloc: Global, bytes: &[u8]) -> Result<Vec<Symbol>, TraceFault>
    ensures sound { IfOk result (λ trace. IsTrace trace.items × (map text_of trace.items ≡ parts bytes.now)) }
    ensures range { IfOk result (λ trace. All IsInRange trace.items) }
    ensures fault { IfErr result (λ fault.
        (fault ≡ TraceFault.OutOfMemory) ⊎ IsFirstFault (parts bytes.now) fault) }
    ensures complete { (symbols : List SymbolValue) → All IsInRange symbols → IsTrace symbols
        → map text_of symbols ≡ parts bytes.now
        → MatchResult result (λ trace. trace.items ≡ symbols) (λ fault. fault ≡ TraceFault.OutOfMemory) }
{
    let Ok(mut symbols) = Vec::with_capacity(alloc, bytes.len() / BYTES_A_SYMBOL) else {
        return Err(TraceFault::OutOfMemory);
    };
    let mut place = FramePosition::Outside;
    let mut rest = bytes;
    while let Some(first) = first_of(rest) {
        let number = symbols.len() + 1;
        let First::Symbol(symbol, left) = first else {
            return Err(TraceFault::BadSymbol(number));
        };
        let Some(next) = after(&place, &symbol) else {
            return Err(misplaced(&place, number));
        };
        place = next;
        if symbols.push(symbol).is_err() {
            return Err(TraceFault::OutOfMemory);
        }
        rest = left;
    }
    match place {
        FramePosition::Outside => Ok(symbols),
        FramePosition::Opened | FramePosition::Inside => Err(TraceFault::NoStop),
    }
}
