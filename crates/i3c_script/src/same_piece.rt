ghost use Rattle.std.specs.Prelude.{◌≡◌, IsTrue};

use crate::piece::{Description, Piece};
use crate::piece_list::PieceList;

impl Piece {
    ghost use Rattle.std.specs.Prelude.{◌≡◌, IsTrue};

    /// Whether two pieces are the same.
    pub fn is_same(&self, other: &Piece) -> bool
        ensures { IsTrue result → self.now ≡ other.now }
    {
        match (self, other) {
            (Piece::Legacy(name, at), Piece::Legacy(other, place)) => {
                name.is_same(other) && at == place
            }
            (Piece::Declared(at), Piece::Declared(other)) => at == other,
            (Piece::Main(name, at), Piece::Main(other, place)) => {
                name.is_same(other) && at == place
            }
            (Piece::Entered(name, slot), Piece::Entered(other, place)) => {
                name.is_same(other) && slot == place
            }
            (Piece::Raised(number), Piece::Raised(other)) => number == other,
            (Piece::Served(served), Piece::Served(other)) => served == other,
            (Piece::Bytes(bytes), Piece::Bytes(other)) => bytes.as_slice() == other.as_slice(),
            (Piece::Told(datum, bytes), Piece::Told(other, told)) => {
                datum == other && bytes.as_slice() == told.as_slice()
            }
            (Piece::Assigned(at, identity), Piece::Assigned(place, other)) => {
                at == place && identity == other
            }
            _ => self.is_same_word(other) || self.is_same_shown(other),
        }
    }

    /// Whether two pieces are the same word.
    fn is_same_word(&self, other: &Piece) -> bool
        ensures { IsTrue result → self.now ≡ other.now }
    {
        matches!(
            (self, other),
            (Piece::Dropped, Piece::Dropped)
                | (Piece::Asked, Piece::Asked)
                | (Piece::Done, Piece::Done)
                | (Piece::Opened, Piece::Opened)
                | (Piece::Nobody, Piece::Nobody)
                | (Piece::Ended, Piece::Ended)
                | (Piece::SymbolsEnd, Piece::SymbolsEnd)
        )
    }

    /// Whether two pieces are the same part of what `show` and its kin print.
    fn is_same_shown(&self, other: &Piece) -> bool
        ensures { IsTrue result → self.now ≡ other.now }
    {
        match (self, other) {
            (Piece::Active(at), Piece::Active(other)) => at == other,
            (Piece::Device(name, at, waiting), Piece::Device(other, place, queued)) => {
                name.is_same(other) && at == place && waiting == queued
            }
            (Piece::Target(name, at), Piece::Target(other, place)) => {
                name.is_same(other) && at == place
            }
            (Piece::Records(count), Piece::Records(other)) => count == other,
            (Piece::Entry(number, record), Piece::Entry(other, entry)) => {
                number == other && record == entry
            }
            (Piece::Description(told), Piece::Description(other)) => told.is_same(other),
            (Piece::Listed(is), Piece::Listed(other)) => is == other,
            (Piece::Session(is), Piece::Session(other)) => is == other,
            (
                Piece::Tenure { slot, from, to },
                Piece::Tenure {
                    slot: other,
                    from: first,
                    to: last,
                },
            ) => slot == other && from == first && to == last,
            (Piece::FirstSymbol(symbol), Piece::FirstSymbol(other)) => symbol == other,
            (Piece::Symbol(symbol), Piece::Symbol(other)) => symbol == other,
            _ => false,
        }
    }
}

impl Description {
    ghost use Rattle.std.specs.Prelude.{◌≡◌, IsTrue};

    /// Whether two devices are described alike.
    fn is_same(&self, other: &Description) -> bool
        ensures { IsTrue result → self.now ≡ other.now }
    {
        self.name.is_same(&other.name)
            && self.identity == other.identity
            && self.interrupt == other.interrupt
            && self.role == other.role
            && self.join == other.join
            && self.wish == other.wish
    }
}

impl PieceList {
    ghost use Rattle.std.specs.Prelude.{◌≡◌, IsTrue};

    /// Whether two lists have the same pieces.
    pub fn is_same(&self, other: &PieceList) -> bool
        ensures { IsTrue result → self.now ≡ other.now }
    {
        are_same(self.as_slice(), other.as_slice())
    }
}

/// Whether there are the same pieces in the same order.
fn are_same(pieces: &[Piece], others: &[Piece]) -> bool
    ensures { IsTrue result → pieces.now ≡ others.now }
{
    if pieces.len() != others.len() {
        return false;
    }
    for index in 0..pieces.len() {
        if !pieces[index].is_same(&others[index]) {
            return false;
        }
    }
    true
}
