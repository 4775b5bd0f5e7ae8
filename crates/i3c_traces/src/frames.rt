ghost use Rattle.std.specs.Prelude.{◌≡◌, ◌+◌, ◌<◌, ◌≤◌, Err, IfErr, IfOk, length, count_by, false, option_copied, slice_get, true, ◌-◌};
ghost use Rattle.i3c_frame.specs.Frames.{begins_frame, whole_from};
ghost use Rattle.i3c_frame.specs.Texts.{text_of};
ghost use Rattle.i3c_streams.specs.Faults.{IsLineFault};
ghost use Rattle.i3c_traces.specs.Symbols.{FramesGo, HaveFrames, break_at, due_after, fault_of, text_size};

use crate::linting::lint_frames;
use crate::trace::{print_fault, print_trace};
use i3c_base::Addresses;
use i3c_ccc::CodeSet;
use i3c_frame::{Break, Due, Frames, Symbol, TraceFault};
use i3c_streams::{MOST_BYTES, ScriptFault, Tally};
use i3c_wave::FrameMark;
use std::alloc::Global;
use std::io::Write;

/// The whole frames of symbols that follow one another as those of a trace do, and where the last one isn't ended.
///
/// # Errors
///
/// Their text would be longer than a trace may be.
pub fn frames_of<'a>(symbols: Vec<Symbol>) -> Result<Frames<'a>, ScriptFault>
    ensures { HaveFrames symbols.items result }
{
    if is_too_large(&symbols) {
        return Err(ScriptFault::TooLarge);
    }
    let broken = break_of(&symbols);
    let mut whole = symbols;
    whole.truncate(whole_len(&whole));
    Ok(Frames {
        symbols: whole,
        broken,
    })
}

/// Whether the text of symbols is longer than a trace may be.
fn is_too_large(symbols: &[Symbol]) -> bool
    ensures large { result ≡ true → MOST_BYTES < text_size symbols.now }
    ensures small { result ≡ false → text_size symbols.now ≤ MOST_BYTES }
{
    let mut left = MOST_BYTES;
    let mut rest = symbols;
    while let [symbol, more @ ..] = rest {
        let size = size_of(symbol) + 1;
        if size > left {
            return true;
        }
        left -= size;
        rest = more;
    }
    false
}

/// How long a symbol's text is.
fn size_of(symbol: &Symbol) -> usize
    ensures text { result ≡ length (text_of symbol.now) }
    ensures short { result ≤ 17 }
{
    match symbol {
        Symbol::Start | Symbol::Stop => 1,
        Symbol::Repeated => 2,
        Symbol::LegacyWord { .. } => 3,
        Symbol::Word(_) => 4,
        Symbol::AddressByte { .. } => 4,
        Symbol::Header { .. } => 5,
        Symbol::Identity(_) => 17,
    }
}

/// The place behind symbols where the last frame isn't ended.
fn break_of<'a>(symbols: &[Symbol]) -> Option<Break<'a>>
    requires { length symbols.now < usize.MAX }
    ensures { result ≡ break_at symbols.now (due_after (slice_get symbols.now (length symbols.now - 1))) }
{
    let due = due_behind(symbols)?;
    Some(Break {
        frame: symbols.iter().filter(|symbol| begins_frame(symbol)).count(),
        symbol: symbols.len() + 1,
        part: None,
        due,
    })
}

/// Whether a symbol begins a frame.
fn begins_frame(symbol: &Symbol) -> bool
    ensures { result ≡ begins_frame symbol.now }
{
    matches!(symbol, Symbol::Start)
}

/// The symbol expected behind the last one, where the frame isn't ended.
fn due_behind(symbols: &[Symbol]) -> Option<Due>
    ensures { result ≡ due_after (slice_get symbols.now (length symbols.now - 1)) }
{
    match symbols.last() {
        None | Some(Symbol::Stop) => None,
        Some(Symbol::Start | Symbol::Repeated) => Some(Due::Header),
        Some(_) => Some(Due::Stop),
    }
}

/// How many symbols there are up to the last STOP.
fn whole_len(symbols: &[Symbol]) -> usize
    ensures { result ≡ whole_from 0 0 symbols.now }
{
    let mut whole = 0;
    let mut count = 0;
    let mut rest = symbols;
    while let [symbol, more @ ..] = rest {
        count += 1;
        if let Symbol::Stop = symbol {
            whole = count;
        }
        rest = more;
    }
    whole
}

/// Tells frames as `run_trace` tells a trace or, with the addresses of legacy targets, as `run_lint` does. They have these
/// marks, as far as these go, and the lines of those frames end with them.
pub fn print_frames<W: Write>(
    alloc: Global,
    codes: CodeSet,
    legacies: Option<Addresses>,
    frames: &Frames<'_>,
    marks: &[FrameMark],
    writer: &mut W,
) -> Result<Tally, ScriptFault>
    ensures lines { FramesGo codes legacies frames.now marks.now (W.contents writer.old) (W.contents writer.new) result }
    ensures faults { IfErr result IsLineFault }
    ensures unmet { IfOk result (λ tally. tally.unmet ≡ 0) }
{
    match (legacies, &frames.broken) {
        (Some(legacies), _) => lint_frames(alloc, legacies, frames, marks, writer),
        (None, None) => print_trace(alloc, codes, &frames.symbols, marks, writer),
        (None, Some(broken)) => print_fault(alloc, &fault_of(broken), writer),
    }
}

/// The fault of a text that stops being a trace there.
fn fault_of(broken: &Break<'_>) -> TraceFault
    ensures { result ≡ fault_of broken.now }
{
    match (broken.due, broken.part) {
        (Due::Symbol, _) | (Due::Header, Some(_)) => TraceFault::BadSymbol(broken.symbol),
        (Due::Start, _) => TraceFault::NoStart,
        (Due::Header, None) | (Due::Stop, _) => TraceFault::NoStop,
    }
}
