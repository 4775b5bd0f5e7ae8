use crate::piece::{Listener, Piece};
use std::alloc::{AllocError, Global};
use std::marker::Model;

/// The pieces that were heard, in their order. Clauses see them as a list.
#[derive(Drop)]
pub struct PieceList {
    pieces: Vec<Piece>,
}

impl Model for PieceList {
    ghost use Rattle.std.specs.Prelude.{List};
    ghost use Rattle.i3c_script.specs.declared.piece.Piece.{Piece as PieceValue};

    ghost Value = { List PieceValue };

    ghost view = { λ list. list.pieces.items };
}

impl PieceList {
    ghost use Rattle.std.specs.Prelude.{◌≡◌, []};

    /// A list that has heard nothing yet.
    pub fn new(alloc: Global) -> PieceList
        ensures { result ≡ [] }
    {
        PieceList {
            pieces: Vec::new(alloc),
        }
    }

    /// A list that has heard nothing again.
    pub fn clear(&mut self)
        ensures { self.new ≡ [] }
    {
        self.pieces.clear();
    }

    /// The pieces.
    pub fn as_slice(&self) -> &[Piece]
        ensures { result.now ≡ self.now }
    {
        self.pieces.as_slice()
    }
}

impl Listener for PieceList {
    ghost use Rattle.i3c_script.specs.Pieces.{with_next};

    ghost heard = { with_next };

    fn hear(&mut self, piece: Piece) -> Result<(), AllocError> {
        self.pieces.extend_from_slice(&[piece])
    }
}
