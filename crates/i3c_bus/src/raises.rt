use i3c_base::{SLOTS, Slot};
use std::marker::Model;

/// How many interrupts each slot raised.
///
/// Clauses see the list of these numbers, by slot.
#[derive(Drop)]
pub(crate) struct Raises {
    numbers: [u64; SLOTS],
    // the numbers at or behind this index are 0
    span: usize,
}

impl Model for Raises {
    ghost use Rattle.std.specs.Prelude.{ℕ, List};
    ghost use Rattle.i3c_bus.specs.Spans.{IsSpanned};

    ghost Value = { List ℕ };

    ghost view = { λ r. r.numbers };

    ghost invariant = { λ r. IsSpanned r.span r.numbers };
}

impl Raises {
    ghost use Rattle.std.specs.Prelude.{◌≡◌, ◌↔◌, IsTrue, slice_index, slice_set};
    ghost use Rattle.i3c_base.specs.State.{no_raises};

    /// No raises.
    pub fn new() -> Raises
        ensures { result ≡ no_raises }
    {
        Raises {
            numbers: [0; SLOTS],
            span: 0,
        }
    }

    /// A copy.
    pub fn copied(&self) -> Raises
        ensures { result ≡ self.now }
    {
        Raises {
            numbers: self.numbers,
            span: self.span,
        }
    }

    /// Copies others into these.
    pub fn copy_from(&mut self, others: &Raises)
        ensures { self.new ≡ others.now }
    {
        let span = self.span.max(others.span);
        self.numbers[..span].copy_from_slice(&others.numbers[..span]);
        self.span = others.span;
    }

    /// How many interrupts a slot raised.
    pub fn at(&self, slot: Slot) -> u64
        ensures { result ≡ slice_index self.now slot }
    {
        self.numbers[slot.index()]
    }

    /// Sets how many interrupts a slot raised.
    pub fn set(&mut self, slot: Slot, number: u64)
        ensures { self.new ≡ slice_set self.old slot number }
    {
        let index = slot.index();
        self.numbers[index] = number;
        self.span = self.span.max(index + 1);
    }

    /// Whether both are the same numbers. Bits that differ are gathered in one word: that is faster than to stop at the
    /// first number that differs.
    pub fn is_same(&self, other: &Raises) -> bool
        ensures { IsTrue result ↔ (self.now ≡ other.now) }
    {
        let span = self.span.max(other.span);
        let mut differing = 0;
        for index in 0..span {
            differing |= self.numbers[index] ^ other.numbers[index];
        }
        differing == 0
    }

    /// The sum of the numbers, modulo 2 to the 64.
    pub fn sum(&self) -> u64 {
        let mut sum = 0u64;
        for number in &self.numbers[..self.span] {
            sum = sum.wrapping_add(*number);
        }
        sum
    }
}
