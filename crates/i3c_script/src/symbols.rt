ghost use Rattle.std.specs.Prelude.{◌≡◌, OnOk};
ghost use Rattle.i3c_script.specs.Hearing.{all_heard};
ghost use Rattle.i3c_script.specs.Pieces.{later_pieces, symbols_pieces};

use crate::piece::{Listener, Piece};
use i3c_frame::Symbol;
use std::alloc::AllocError;

/// A line of symbols, the oldest first.
pub(crate) fn hear_line<L: Listener>(symbols: &[Symbol], listener: &mut L) -> Result<(), AllocError>
    ensures { OnOk result (listener.new ≡ all_heard L.heard listener.old (symbols_pieces symbols.now)) }
{
    match symbols {
        [] => listener.hear(Piece::SymbolsEnd),
        [first, later @ ..] => {
            listener.hear(Piece::FirstSymbol(*first))?;
            hear_later(later, listener)
        }
    }
}

/// The symbols that follow the first one of a line, and its end.
fn hear_later<L: Listener>(symbols: &[Symbol], listener: &mut L) -> Result<(), AllocError>
    ensures { OnOk result (listener.new ≡ all_heard L.heard listener.old (later_pieces symbols.now)) }
{
    let mut rest = symbols;
    while let [symbol, more @ ..] = rest {
        listener.hear(Piece::Symbol(*symbol))?;
        rest = more;
    }
    listener.hear(Piece::SymbolsEnd)
}
