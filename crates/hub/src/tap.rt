use i3c_frame::{Symbol, Tap};

/// Counts the symbols of a wire.
#[derive(Clone, Copy, Debug, Default)]
pub struct Count {
    /// How many symbols passed.
    pub symbols: u64,
}

// A tap asks for a `ghost` line too: what it may be after it was told a symbol. Here it says that the count never falls, and
// the check proves it of `note`. A `ghost use` line above it brings in the words that it needs.
impl Tap for Count {
    ghost use Rattle.std.specs.Prelude.{◌≤◌};

    ghost note_gives = { λ old symbol new. old.symbols ≤ new.symbols };

    fn note(&mut self, _symbol: Symbol) {
        self.symbols = self.symbols.saturating_add(1);
    }
}
