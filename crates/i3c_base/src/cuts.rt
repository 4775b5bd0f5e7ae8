use crate::range::{SLOTS, Slot};
use std::marker::Model;
use std::mem;

/// The devices that lose power during one frame: for each cut slot, the bit from which it drives nothing.
///
/// Bits are counted from the ninth bit of the frame's first header, which is 0. A slot has one cut at most.
#[derive(Clone, Debug, Drop)]
pub struct Cuts {
    // one bit for each slot: it is cut
    cut: u64,
    // the bit of the frame, 0 where the slot is not cut
    bits: [u16; SLOTS],
}

impl Model for Cuts {
    ghost use Rattle.std.specs.Prelude.{ℕ, ◌<◌, ◌^◌, List, Option};
    ghost use Rattle.i3c_base.specs.Places.{masked_from};
    ghost use Rattle.i3c_base.specs.declared.range.TheConstants.{SLOTS};

    ghost Value = { List (Option ℕ) };

    ghost view = { λ c. masked_from 0 c.cut c.bits };

    ghost invariant = { λ c. c.cut < 2 ^ SLOTS };
}

impl Cuts {
    ghost use Rattle.std.specs.Prelude.{◌≡◌, ◌↔◌, ◌<◌, ◌==◌, ℕ, IsTrue, Some, is_some, slice_set};
    ghost use Rattle.std.specs.Int.{bit_at};
    ghost use Rattle.i3c_base.specs.declared.range.TheConstants.{SLOTS};
    ghost use Rattle.i3c_base.specs.Cutting.{counted_from, cut_of, earlier, lost_by, no_cuts, IsUncut};

    /// No cut.
    pub fn new() -> Cuts
        ensures none { result ≡ no_cuts }
        ensures uncut { IsUncut result }
    {
        Cuts {
            cut: 0,
            bits: [0; SLOTS],
        }
    }

    /// The bit at which a slot is cut, if it is.
    pub fn at(&self, slot: Slot) -> Option<u16>
        ensures { result ≡ cut_of self.now slot }
    {
        let index = slot.index();
        if self.cut >> index & 1 == 1 {
            Some(self.bits[index])
        } else {
            None
        }
    }

    /// Cuts a slot at a bit. Of two cuts of one slot the earlier bit is kept.
    pub fn add(&mut self, slot: Slot, bit: u16)
        ensures { self.new ≡ slice_set self.old slot (Some (earlier (cut_of self.old slot) bit)) }
    {
        let first = match self.at(slot) {
            Some(had) => had.min(bit),
            None => bit,
        };
        let index = slot.index();
        self.cut |= 1 << index;
        self.bits[index] = first;
    }

    /// Whether a slot's device is lost by this bit: it is cut there or before.
    pub fn is_lost(&self, slot: Slot, last: u16) -> bool
        ensures { result ≡ lost_by self.now last slot }
    {
        match self.at(slot) {
            Some(bit) => bit <= last,
            None => false,
        }
    }

    /// The same cuts with their bits counted from a later one. Those before it are at it.
    pub fn counted_from(&self, first: u16) -> Cuts
        ensures { result ≡ counted_from first self.now }
    {
        let mut bits = self.bits;
        for bit in bits.iter_mut() {
            *bit = bit.saturating_sub(first);
        }
        Cuts {
            cut: self.cut,
            bits,
        }
    }

    /// A bit for each slot: bit `s` is set where slot `s` is cut.
    pub fn slots(&self) -> u64
        ensures { (s : ℕ) → s < SLOTS → (bit_at result s == 1) ≡ is_some (cut_of self.now s) }
    {
        self.cut
    }

    /// These cuts; none is left.
    pub fn take(&mut self) -> Cuts
        ensures taken { result ≡ self.old }
        ensures left { self.new ≡ no_cuts }
    {
        if self.is_empty() {
            Cuts::new()
        } else {
            mem::replace(self, Cuts::new())
        }
    }

    /// No slot is cut from now on.
    pub fn clear(&mut self)
        ensures none { self.new ≡ no_cuts }
    {
        if !self.is_empty() {
            *self = Cuts::new();
        }
    }

    /// Whether no slot is cut.
    pub fn is_empty(&self) -> bool
        ensures uncut { IsTrue result ↔ IsUncut self.now }
        ensures none { IsTrue result ↔ self.now ≡ no_cuts }
    {
        self.cut == 0
    }
}

/// Cuts are equal where they cut the same slots at the same bits.
impl PartialEq for Cuts {
    ghost use Rattle.std.specs.Prelude.{nat_eq};
    ghost use Rattle.std.specs.Option.{option_eq};
    ghost use Rattle.std.specs.Cmp.{partial_equiv_from_equiv};
    ghost use Rattle.std.specs.Cmp.Lexicographic.{lists_per, options_equiv, pointwise};
    ghost use Rattle.std.proofs.lemmas.Cmp.{nat_eq_equiv};

    ghost eq = { pointwise (option_eq nat_eq) };

    ghost laws = { lists_per (partial_equiv_from_equiv (options_equiv nat_eq_equiv)) };

    fn eq(&self, other: &Cuts) -> bool {
        if self.cut != other.cut {
            return false;
        }
        for index in 0..SLOTS {
            let slot = Slot::from_index(index);
            if self.at(slot) != other.at(slot) {
                return false;
            }
        }
        true
    }
}

impl Eq for Cuts {
    ghost use Rattle.std.specs.Cmp.Lexicographic.{lists_equiv, options_equiv};
    ghost use Rattle.std.proofs.lemmas.Cmp.{nat_eq_equiv};

    ghost laws = { lists_equiv (options_equiv nat_eq_equiv) };
}
