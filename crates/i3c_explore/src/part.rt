use std::marker::Model;

/// A part of all orders. Parts can be explored one by one, in any order or side by side.
///
/// An order is in the part of the track of its first turn, in the first block in which two tracks have a line: the tracks
/// are dealt out to the parts in turn. Where no block has two such tracks, the one order is in part 1.
#[derive(Clone, Copy, Debug, PartialEq, Eq)]
pub struct Part {
    // counted from 0
    index: usize,
    of: usize,
}

impl Model for Part {
    ghost use Rattle.std.specs.Prelude.{◌<◌};
    ghost use Rattle.i3c_explore.specs.Parts.{Part as PartValue};

    ghost Value = { PartValue };

    ghost view = { λ p. record { index = p.index; of = p.of } };

    ghost invariant = { λ p. p.index < p.of };

    ghost inverse = { λ part. record { index = part.index; of = part.of } };
}

impl Part {
    ghost use Rattle.std.specs.Prelude.{◌≡◌, ◌≤◌, ◌<◌, ◌↔◌, ◌+◌, IfSome, IsSome, IsTrue, if◌then◌else◌};
    ghost use Rattle.i3c_explore.specs.Parts.{begins, whole};

    /// Part `number`, counted from 1, of `of` parts.
    pub fn new(number: usize, of: usize) -> Option<Part>
        ensures some { IsSome result ↔ ((1 ≤ number) × (number ≤ of)) }
        ensures part { IfSome result (λ part. (part.index + 1 ≡ number) × (part.of ≡ of)) }
    {
        let index = number.checked_sub(1)?;
        if index < of {
            Some(Part { index, of })
        } else {
            None
        }
    }

    /// The one part that has every order.
    pub fn whole() -> Part
        ensures { result ≡ whole }
    {
        Part { index: 0, of: 1 }
    }

    /// Whether every order is in it.
    pub(crate) fn is_whole(self) -> bool
        ensures { IsTrue result ↔ (self ≡ whole) }
    {
        self.of == 1
    }

    /// Whether it has an order, where block `split` of `blocks` is parted. Where none is, only the first part has one.
    pub(crate) fn has_orders(self, split: usize, blocks: usize) -> bool
        ensures { IsTrue result ↔ (split ≡ blocks → self.index ≡ 0) }
    {
        split != blocks || self.index == 0
    }

    /// Whether orders begin with a track's line.
    pub(crate) fn begins(self, track: usize) -> bool
        ensures { result ≡ begins self track }
    {
        track % self.of == self.index
    }

    /// This part where it counts, and the whole elsewhere.
    pub(crate) fn only_if(self, counts: bool) -> Part
        ensures { result ≡ (if counts then self else whole) }
    {
        if counts { self } else { Part::whole() }
    }
}
