ghost use Rattle.std.specs.Prelude.{◌≡◌, ◌<◌, ◌≤◌, ◌↔◌, ℕ, false, true, not, ◌&&◌, ◌||◌, ◌==◌, nat_le, if◌then◌else◌, IsTrue, MatchOption};
ghost use Rattle.std.specs.List.{list_any};
ghost use Rattle.i3c_base.specs.declared.range.TheConstants.{SLOTS as SLOT_COUNT};
ghost use Rattle.i3c_base.specs.Cutting.{lost_by};
ghost use Rattle.i3c_device.specs.Sets.{AreUncut, IsLowestOf, IsNone, SomeLeft, has};

use i3c_base::{Cuts, SLOTS, Slot};

// the bits that stand for slots
const ALL: u64 = u64::MAX >> (u64::BITS as usize - SLOTS);

/// A set of slots, one bit for each.
#[derive(Clone, Copy)]
pub struct SlotSet {
    bits: u64,
}

impl SlotSet {
    /// No slot.
    pub(crate) fn none() -> SlotSet
        ensures { (s : ℕ) → has result s ≡ false }
    {
        SlotSet { bits: 0 }
    }

    /// The set of these bits: bit `s` is slot `s`.
    pub(crate) fn of_bits(bits: u64) -> SlotSet
        ensures { result.bits ≡ bits }
    {
        SlotSet { bits }
    }

    /// A bit for each slot: bit `s` is set where slot `s` is in it.
    pub(crate) fn bits(self) -> u64
        ensures { result ≡ self.bits }
    {
        self.bits
    }

    /// Whether the slot with this index is in it.
    pub(crate) fn has(self, index: usize) -> bool
        requires { index < SLOT_COUNT }
        ensures { result ≡ has self index }
    {
        self.bits >> index & 1 == 1
    }

    /// Whether a slot is in it.
    pub fn contains(self, slot: Slot) -> bool
        ensures { result ≡ has self slot }
    {
        self.has(slot.index())
    }

    /// The set in which a slot is, or isn't.
    pub(crate) fn with(self, index: usize, is_in: bool) -> SlotSet
        requires { index < SLOT_COUNT }
        ensures { (s : ℕ) → s < SLOT_COUNT → has result s ≡ (if s == index then is_in else has self s) }
    {
        let bit = 1 << index;
        SlotSet {
            bits: if is_in {
                self.bits | bit
            } else {
                self.bits & !bit
            },
        }
    }

    /// One slot alone.
    pub(crate) fn only(index: usize) -> SlotSet
        requires { index < SLOT_COUNT }
        ensures { (s : ℕ) → s < SLOT_COUNT → has result s ≡ (if s == index then true else false) }
    {
        SlotSet::none().with(index, true)
    }

    /// These slots.
    pub fn of(slots: &[Slot]) -> SlotSet
        ensures { (s : ℕ) → s < SLOT_COUNT → has result s ≡ list_any (λ t. t == s) slots.now }
    {
        let mut set = SlotSet::none();
        for slot in slots {
            set = set.with(slot.index(), true);
        }
        set
    }

    /// Whether no slot is in it.
    pub(crate) fn is_none(self) -> bool
        ensures { IsTrue result ↔ IsNone self }
    {
        self.lowest().is_none()
    }

    /// Its lowest slot, if there is one.
    pub fn lowest(self) -> Option<Slot>
        ensures { MatchOption result (IsNone self) (IsLowestOf self) }
    {
        let mut left = self;
        let index = left.take_lowest()?;
        Some(Slot::from_index(index))
    }

    /// Its other slots.
    pub fn but(self, slot: Slot) -> SlotSet
        ensures { (s : ℕ) → s < SLOT_COUNT → has result s ≡ (if s == slot then false else has self s) }
    {
        self.with(slot.index(), false)
    }

    /// Whether none of its slots is cut.
    #[inline(always)]
    pub(crate) fn is_uncut(self, cuts: &Cuts) -> bool
        ensures { IsTrue result ↔ AreUncut self cuts.now }
    {
        self.and(SlotSet::of_bits(cuts.slots())).is_none()
    }

    /// Those of its slots that aren't lost by this bit.
    pub fn left(self, cuts: &Cuts, last: u16) -> SlotSet
        ensures { (s : ℕ) → s < SLOT_COUNT → has result s ≡ (has self s && not (lost_by cuts.now last s)) }
    {
        if self.is_uncut(cuts) {
            self
        } else {
            self.without(cut_slots(cuts, last))
        }
    }

    /// Whether one of its slots isn't lost by this bit.
    pub fn outlasts(self, cuts: &Cuts, last: u16) -> bool
        ensures { IsTrue result ↔ SomeLeft self (lost_by cuts.now last) }
    {
        self.left(cuts, last).lowest().is_some()
    }

    /// Those of its slots that aren't in another set.
    pub(crate) fn without(self, other: SlotSet) -> SlotSet
        ensures { (s : ℕ) → s < SLOT_COUNT → has result s ≡ (has self s && not (has other s)) }
    {
        SlotSet {
            bits: self.bits & !other.bits,
        }
    }

    /// The slots of both sets.
    pub(crate) fn or(self, other: SlotSet) -> SlotSet
        ensures { (s : ℕ) → s < SLOT_COUNT → has result s ≡ (has self s || has other s) }
    {
        SlotSet {
            bits: self.bits | other.bits,
        }
    }

    /// Those of its slots that are in another set too.
    pub(crate) fn and(self, other: SlotSet) -> SlotSet
        ensures { (s : ℕ) → s < SLOT_COUNT → has result s ≡ (has self s && has other s) }
    {
        SlotSet {
            bits: self.bits & other.bits,
        }
    }

    /// The slots that are in one of both sets alone.
    pub(crate) fn apart(self, other: SlotSet) -> SlotSet
        ensures { (s : ℕ) → s < SLOT_COUNT → (has result s ≡ false) ↔ (has self s ≡ has other s) }
    {
        self.without(other).or(other.without(self))
    }

    /// All of its slots, or none.
    pub(crate) fn only_if(self, is_so: bool) -> SlotSet
        ensures { (s : ℕ) → has result s ≡ (is_so && has self s) }
    {
        if is_so { self } else { SlotSet::none() }
    }

    /// How many of the lowest slots there are up to its highest one.
    pub(crate) fn span(self) -> usize
        ensures most { result ≤ SLOT_COUNT }
        ensures all { (s : ℕ) → s < SLOT_COUNT → result ≤ s → has self s ≡ false }
    {
        let mut span = 0;
        let mut left = self;
        while let Some(index) = left.take_lowest() {
            span = index + 1;
        }
        span
    }

    /// Takes its lowest slot out of it, if there is one.
    pub fn take_lowest(&mut self) -> Option<usize>
        ensures taken { MatchOption result ((s : ℕ) → s < SLOT_COUNT → has self.old s ≡ false)
            (λ i. (i < SLOT_COUNT) × (has self.old i ≡ true) × ((s : ℕ) → s < i → has self.old s ≡ false)
            × ((s : ℕ) → s < SLOT_COUNT → has self.new s ≡ (if s == i then false else has self.old s))) }
        ensures smaller { MatchOption result (self.new ≡ self.old) (λ i. self.new.bits < self.old.bits) }
    {
        if self.bits & ALL == 0 {
            return None;
        }
        // the remainder is the number itself, and tells the compiler that it is a slot's
        let index = self.bits.trailing_zeros() as usize % SLOTS;
        self.bits &= !(1 << index);
        Some(index)
    }
}

/// The slots whose devices are lost by this bit.
#[inline(always)]
pub(crate) fn lost_slots(cuts: &Cuts, last: u16) -> SlotSet
    ensures { (s : ℕ) → s < SLOT_COUNT → has result s ≡ lost_by cuts.now last s }
{
    if cuts.is_empty() {
        SlotSet::none()
    } else {
        cut_slots(cuts, last)
    }
}

/// The slots whose devices are cut by this bit.
// kept apart, since most frames have no cuts
#[inline(never)]
fn cut_slots(cuts: &Cuts, last: u16) -> SlotSet
    ensures { (s : ℕ) → s < SLOT_COUNT → has result s ≡ lost_by cuts.now last s }
{
    let mut lost = SlotSet::none();
    let mut left = SlotSet::of_bits(cuts.slots());
    while let Some(index) = left.take_lowest() {
        lost = lost.with(index, cuts.is_lost(Slot::from_index(index), last));
    }
    lost
}
