ghost use Rattle.std.specs.Prelude.{◌≡◌, position};
ghost use Rattle.i3c_monitor.specs.Trace.{count_behind, ends};

use i3c_frame::Symbol;

/// The number of symbols behind a header: those up to the next START, repeated START or STOP.
#[inline(always)]
pub(crate) fn count_behind(symbols: &[Symbol]) -> usize
    ensures { result ≡ count_behind symbols.now }
{
    first_end(symbols).unwrap_or(symbols.len())
}

/// The index of the first symbol that ends them, if there is one.
#[inline(always)]
fn first_end(symbols: &[Symbol]) -> Option<usize>
    ensures { result ≡ position ends symbols.now }
{
    symbols.iter().position(ends)
}

/// Whether a symbol ends the symbols behind a header.
#[inline(always)]
fn ends(symbol: &Symbol) -> bool
    ensures { result ≡ ends symbol.now }
{
    matches!(symbol, Symbol::Start | Symbol::Repeated | Symbol::Stop)
}
