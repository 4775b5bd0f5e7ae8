ghost use Rattle.std.specs.Prelude.{◌≡◌, ◌⊎◌, [], ◌∷◌, ◌++◌};

use crate::faults::Fault;
use crate::frame::symbol;
use crate::setting::Setting;
use crate::told::{Answer, told};
use crate::words::Words;
use i3c_frame::{Silent, Symbol, Tap};
use std::alloc::Global;

/// A tap that keeps what it is told.
#[derive(Drop)]
pub(crate) struct Told {
    pub symbols: Vec<Symbol>,
}

impl Told {
    /// A tap that wasn't told anything.
    fn new(alloc: Global) -> Told {
        let symbols: Vec<Symbol> = Vec::new(alloc);
        Told { symbols }
    }

    /// A tap that was told the header of a frame.
    pub fn begun(alloc: Global) -> Told {
        let mut told = Told::new(alloc);
        told.note(Symbol::Start);
        told.note(Symbol::broadcast(false, true));
        told
    }
}

impl Tap for Told {
    ghost note_gives = { λ old symbol new. (new.symbols.items ≡ old.symbols.items ++ symbol ∷ []) ⊎ (new.symbols.items ≡ old.symbols.items) };

    fn note(&mut self, symbol: Symbol) {
        let _ = self.symbols.push(symbol);
    }
}

/// The calls that tell taps three symbols: `last` is lent, and answers how many symbols it was told, and which came last.
pub(crate) fn call(setting: &mut Setting, call: &str, words: &mut Words<'_>) -> Answer {
    match call {
        "last" => tell_last(setting.alloc, words),
        "silent" => tell_silent(setting.alloc, words),
        _ => Err(Fault::Unknown),
    }
}

/// Tells a tap three symbols.
fn note_three<T: Tap>(tap: &mut T, words: &mut Words<'_>) -> Result<(), Fault> {
    tap.note(symbol(words)?);
    tap.note(symbol(words)?);
    tap.note(symbol(words)?);
    Ok(())
}

fn tell_last(alloc: Global, words: &mut Words<'_>) -> Answer {
    let mut last = Told::new(alloc);
    let mut lent = &mut last;
    note_three(&mut lent, words)?;
    told(alloc, &(last.symbols.len(), last.symbols.last()))
}

fn tell_silent(alloc: Global, words: &mut Words<'_>) -> Answer {
    let mut silent = Silent;
    note_three(&mut silent, words)?;
    told(alloc, &silent)
}
