ghost use Rattle.std.specs.Prelude.{◌≡◌, [], map, IfOk};
ghost use Rattle.serde_json.specs.View.{view};
ghost use Rattle.i3c_json.specs.Fields.{symbol_lines};
ghost use Rattle.i3c_json.specs.Values.{text_data};

use crate::values::text_value;
use i3c_script::{Listener, Piece};
use i3c_text::Text;
use serde_json::{Value, push};
use std::alloc::{AllocError, Global};

/// The lines of symbols, each as a string.
pub(crate) fn lines_of(alloc: Global, pieces: &[Piece]) -> Result<Vec<Value>, AllocError>
    ensures { IfOk result (λ values. map view values.items ≡ map text_data (symbol_lines [] pieces.now)) }
{
    let mut values = Vec::new(alloc);
    let mut line = Text::new(alloc);
    let mut rest = pieces;
    while let [piece, more @ ..] = rest {
        match piece {
            Piece::FirstSymbol(_) | Piece::Symbol(_) => line.hear(*piece)?,
            Piece::SymbolsEnd => {
                push(&mut values, text_value(alloc, line.as_bytes())?)?;
                line.clear();
            }
            _ => {}
        }
        rest = more;
    }
    Ok(values)
}
