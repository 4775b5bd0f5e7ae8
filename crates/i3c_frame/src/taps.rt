ghost use Rattle.std.specs.Prelude.{◌≡◌};
ghost use Rattle.i3c_frame.specs.declared.symbols.Symbol.{Symbol as SymbolValue};

use crate::symbols::Symbol;

/// A tap is told each symbol of a wire as it passes.
pub trait Tap {
    /// What a tap may be after it was told a symbol.
    ghost note_gives: { Self → SymbolValue → Self → Type 0 };

    /// Tells it the next symbol.
    fn note(&mut self, symbol: Symbol)
        ensures { note_gives self.old symbol self.new };
}

/// A tap that keeps nothing.
#[derive(Clone, Copy, Debug, PartialEq, Eq, Default)]
pub struct Silent;

impl Tap for Silent {
    ghost note_gives = { λ old _ new. new ≡ old };

    fn note(&mut self, _symbol: Symbol) {}
}

impl<T: Tap> Tap for &mut T {
    ghost note_gives = { λ old symbol new. T.note_gives old.now symbol new.now × (new.ghost_name ≡ old.ghost_name) };

    fn note(&mut self, symbol: Symbol) {
        (**self).note(symbol);
    }
}
