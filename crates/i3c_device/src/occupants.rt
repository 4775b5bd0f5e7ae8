use crate::attached::Attached;
use crate::occupants_snapshot::OccupantsSnapshot;
use crate::places::{byte_from, length_in, pull_low, raise, requeue, wishes_interrupt};
use crate::slot_index::SlotIndex;
use crate::slot_set::SlotSet;
use crate::slot_update::{Driven, SlotUpdate, Sought, update_in};
use i3c_base::{Addr7, Cuts, Direction, Length, REGISTERS, RaiseRefusal, SLOTS, Slot};
use std::marker::Model;

/// The devices of a bus in their slots, each as if all kinds of its events were enabled.
#[derive(Drop)]
pub(crate) struct Occupants {
    places: [Option<Attached>; SLOTS],
    // so that no walk looks into a slot where there is nothing for it
    marks: SlotIndex,
}

impl Model for Occupants {
    ghost use Rattle.std.specs.Prelude.{◌≡◌, length, List, Option};
    ghost use Rattle.i3c_base.specs.declared.range.TheConstants.{SLOTS as SLOT_COUNT};
    ghost use Rattle.i3c_base.specs.State.{Device as DeviceState};
    ghost use Rattle.i3c_device.specs.SlotIndex.{AreMarks};

    ghost Value = { List (Option DeviceState) };

    ghost view = { λ d. d.places };

    ghost invariant = { λ d. (length d.places ≡ SLOT_COUNT) × AreMarks d.marks d.places };
}

impl Occupants {
    ghost use Rattle.i3c_base.specs.declared.device.TheConstants.{REGISTERS as REGISTER_COUNT};
    ghost use Rattle.i3c_base.specs.declared.range.TheConstants.{SLOTS as SLOT_COUNT};
    ghost use Rattle.i3c_base.specs.Cutting.{CutList};
    ghost use Rattle.i3c_base.specs.Places.{changed};
    ghost use Rattle.i3c_base.specs.State.{Device as DeviceState, no_devices};
    ghost use Rattle.i3c_base.specs.Local.{with_raise};
    ghost use Rattle.i3c_device.specs.Finding.{within, IsLowestFound, IsNowhere};
    ghost use Rattle.i3c_device.specs.Keeping.{IsHeld};
    ghost use Rattle.i3c_device.specs.Least.{IsLeastHeard, NobodyHears};
    ghost use Rattle.i3c_device.specs.SlotIndex.{AreMarks};
    ghost use Rattle.i3c_device.specs.Raising.{interrupting_if, next_fault};
    ghost use Rattle.i3c_device.specs.Reading.{IsByteOf, registers_of};
    ghost use Rattle.i3c_device.specs.Lengths.{IsLeastLength};
    ghost use Rattle.i3c_device.specs.Sets.{AreUncut, has};
    ghost use Rattle.i3c_device.specs.Walks.{AreTakers, AreReached};
    ghost use Rattle.std.specs.Prelude.{◌≡◌, ◌<◌, ◌&&◌, ◌⊎◌, ℕ, All, IsTrue, false, is_some, length, suc, true, Some, None, option_copied, option_map, slice_index, slice_index_or, slice_set, MatchOption, MatchResult, OnOk, OnErr};

    /// Empty slots.
    #[inline(always)]
    pub fn new() -> Occupants
        ensures { result ≡ no_devices }
    {
        Occupants {
            places: std::array::from_fn(|_| None),
            marks: SlotIndex::new(),
        }
    }

    /// They become the occupants that were kept.
    #[tactic(auto, using(crate::proofs::KeepLaws::held_both))]
    pub fn wake(&mut self, kept: &OccupantsSnapshot)
        ensures { self.new ≡ kept.now }
    {
        self.wake_alone(kept);
        let mut left = self.marks.present.and(kept.present());
        while let Some(index) = left.take_lowest() {
            self.wake_held(index, kept.device(index));
        }
    }

    /// A slot that is empty now, but was kept with a device, gets that device; one whose device came later becomes empty.
    #[tactic(auto, using(crate::proofs::KeepLaws::alone_none))]
    fn wake_alone(&mut self, kept: &OccupantsSnapshot)
        ensures woken { (s : ℕ) → s < SLOT_COUNT → (slice_index_or self.new s None ≡ slice_index_or kept.now s None) ⊎ IsHeld kept.now self.new s }
        ensures slots { length self.new ≡ SLOT_COUNT }
    {
        let mut left = self.marks.present.apart(kept.present());
        while let Some(index) = left.take_lowest() {
            let slot = Slot::from_index(index);
            self.wake_at(slot, kept.at(slot));
        }
    }

    /// Puts a device into a slot that holds one. Where the same is there already, nothing is written.
    #[inline(always)]
    fn wake_held(&mut self, index: usize, device: &Attached)
        requires { (index < SLOT_COUNT) × (is_some (slice_index_or self.old index None) ≡ true) }
        ensures { self.new ≡ slice_set self.old index (Some device.now) }
    {
        if !device.is_same(self.device(index)) {
            self.wake_device(Slot::from_index(index), device);
        }
    }

    /// Puts a device into a slot, or none. Mostly a device is there that differs from it in its queue alone.
    pub fn wake_at(&mut self, slot: Slot, device: Option<&Attached>)
        ensures put { self.new ≡ slice_set self.old slot (option_copied device.entry) }
        ensures slots { length self.old ≡ SLOT_COUNT }
    {
        match device {
            Some(device) => self.wake_device(slot, device),
            None => self.put(slot, None),
        }
    }

    /// Puts a device into a slot.
    fn wake_device(&mut self, slot: Slot, device: &Attached)
        ensures put { self.new ≡ slice_set self.old slot (Some device.now) }
        ensures slots { length self.old ≡ SLOT_COUNT }
    {
        if !self.requeue(slot, device) {
            self.put(slot, Some(device.copied()));
        }
    }

    /// Copies only the queue of a device into a slot, if the device there differs in nothing else. Answers whether it
    /// did.
    fn requeue(&mut self, slot: Slot, device: &Attached) -> bool
        ensures put { IsTrue result → self.new ≡ slice_set self.old slot (Some device.now) }
        ensures kept { result ≡ false → self.new ≡ self.old }
        ensures slots { length self.old ≡ SLOT_COUNT }
    {
        let index = slot.index();
        if !requeue(&mut self.places[index], device) {
            return false;
        }
        let interrupts = wishes_interrupt(&self.places[index]);
        self.marks.queued(index, interrupts);
        true
    }

    /// How many slots there are.
    pub fn slots(&self) -> usize
        ensures count { result ≡ SLOT_COUNT }
        ensures slots { length self.now ≡ SLOT_COUNT }
    {
        let places = &self.places;
        places.len()
    }

    /// The place of each slot.
    pub fn places(&self) -> &[Option<Attached>]
        ensures places { result.now ≡ self.now }
        ensures slots { length self.now ≡ SLOT_COUNT }
    {
        &self.places
    }

    /// The place of a slot.
    pub fn at(&self, slot: Slot) -> &Option<Attached>
        ensures place { result.now ≡ slice_index_or self.now slot None }
        ensures slots { length self.now ≡ SLOT_COUNT }
    {
        &self.places[slot.index()]
    }

    /// The device in a slot that holds one.
    #[inline(always)]
    pub fn device(&self, index: usize) -> &Attached
        requires { (index < SLOT_COUNT) × (is_some (slice_index_or self.now index None) ≡ true) }
        ensures { slice_index_or self.now index None ≡ Some result.now }
    {
        match &self.places[index] {
            Some(device) => device,
            None => unreachable!(),
        }
    }

    /// In which slots a walk may find something.
    pub fn marks(&self) -> &SlotIndex
        ensures marks { AreMarks result.now self.now }
        ensures slots { length self.now ≡ SLOT_COUNT }
    {
        &self.marks
    }

    /// This is in a slot from now on.
    pub fn put(&mut self, slot: Slot, place: Option<Attached>)
        ensures put { self.new ≡ slice_set self.old slot place }
        ensures slots { length self.old ≡ SLOT_COUNT }
    {
        let index = slot.index();
        self.marks.noted(index, &place);
        self.places[index] = place;
    }

    /// The slot's device raises the interrupt after this many of its slot, and answers its number, if its interrupts are
    /// enabled. The first fault refuses it, and changes nothing.
    pub fn raise(
        &mut self,
        slot: Slot,
        raised: u64,
        byte: Option<u8>,
        enabled: bool,
    ) -> Result<u64, RaiseRefusal>
        requires { (d : DeviceState) × (slice_index_or self.old slot None ≡ Some d) }
        ensures fault { (d : DeviceState) → slice_index_or self.old slot None ≡ Some d → MatchResult result (λ number. (number ≡ suc raised) × (next_fault (interrupting_if enabled d) byte raised ≡ None)) (λ fault. next_fault (interrupting_if enabled d) byte raised ≡ Some fault) }
        ensures raised { OnOk result (self.new ≡ slice_set self.old slot (option_map (with_raise (suc raised) byte) (slice_index_or self.old slot None))) }
        ensures unchanged { OnErr result (self.new ≡ self.old) }
        ensures slots { length self.old ≡ SLOT_COUNT }
    {
        let index = slot.index();
        let answer = raise(&mut self.places[index], raised, byte, enabled);
        let interrupts = wishes_interrupt(&self.places[index]);
        self.marks.queued(index, interrupts);
        answer
    }

    /// The slots of the devices at an address, but the active controller's.
    pub fn targets(&self, active: Slot, address: Addr7) -> SlotSet
        ensures there { AreReached active (Some address) result self.now }
        ensures slots { length self.now ≡ SLOT_COUNT }
    {
        let there = self.marks.answering.at(address);
        there.without(self.marks.unaddressed).but(active)
    }

    /// The least maximum length of these slots' devices, 16 at most.
    pub fn least_length(&self, among: SlotSet, way: Direction) -> Length
        ensures { IsLeastLength among way self.now result }
    {
        let mut least = Length::most();
        let mut left = among;
        while let Some(index) = left.take_lowest() {
            let length = length_in(&self.places[index], way);
            if length < least {
                least = length;
            }
        }
        least
    }

    /// The slots of the devices that take SETDASA at this static address. The active controller is none of them.
    pub fn unaddressed_at(&self, active: Slot, fixed: Addr7) -> SlotSet
        ensures takers { AreTakers active fixed result self.now }
        ensures slots { length self.now ≡ SLOT_COUNT }
    {
        let there = self.marks.answering.at(fixed);
        there.and(self.marks.unaddressed).but(active)
    }

    /// The contest of those who hear the open session, on the lines, where nobody is cut (I3C Basic 5.1.4.2): the
    /// identity that is read, as a number, and the slots of those who have it; `None` where nobody hears.
    pub fn least_heard(&self) -> Option<(u64, SlotSet)>
        ensures least { MatchOption result (NobodyHears self.now) (IsLeastHeard self.now) }
        ensures slots { length self.now ≡ SLOT_COUNT }
    {
        match self.marks.columns.contest(self.marks.hearing.bits()) {
            Some(won) => Some((won.bits, SlotSet::of_bits(won.winners))),
            None => None,
        }
    }

    /// A byte that these slots' devices drive, as the lines give it from this bit of a frame on.
    pub fn byte_of<D: Driven>(
        &self,
        driven: &D,
        among: SlotSet,
        index: usize,
        cuts: &Cuts,
        at: u16,
    ) -> u8
        requires { index < D.count }
        ensures { IsByteOf (D.bytes driven.now) among index cuts.now at self.now result }
    {
        let mut byte = u8::MAX;
        let mut left = among;
        while let Some(slot) = left.take_lowest() {
            let cut = cuts.at(Slot::from_index(slot));
            byte &= byte_from(driven, &self.places[slot], index, cut, at);
        }
        byte
    }

    /// All registers of these slots' devices, as the lines give them where none of these slots is cut.
    pub fn registers_of(&self, among: SlotSet) -> [u8; REGISTERS]
        ensures long { length result ≡ REGISTER_COUNT }
        ensures bytes { All (λ byte. byte < 256) result }
        ensures each { (k at : ℕ) (cuts : CutList) → k < REGISTER_COUNT → AreUncut among cuts → IsByteOf registers_of among k cuts at self.now (slice_index result k) }
    {
        let mut bytes = [u8::MAX; REGISTERS];
        let mut left = among;
        while let Some(slot) = left.take_lowest() {
            if let Some(device) = &self.places[slot] {
                pull_low(&mut bytes, device);
            }
        }
        bytes
    }

    /// The lowest of these slots in which what is sought is found.
    pub fn lowest<S: Sought>(&self, among: SlotSet, sought: &S) -> Option<Slot>
        ensures { MatchOption result (IsNowhere (S.finds sought.now) among self.now) (IsLowestFound (S.finds sought.now) among self.now) }
    {
        let mut left = among;
        while let Some(index) = left.take_lowest() {
            if sought.is_found(&self.places[index], index) {
                return Some(Slot::from_index(index));
            }
        }
        None
    }

    /// Applies an update to one slot.
    pub fn apply<H: SlotUpdate>(&mut self, slot: Slot, update: &H)
        ensures changed { self.new ≡ slice_set self.old slot (H.after update.now slot (slice_index_or self.old slot None)) }
        ensures slots { length self.old ≡ SLOT_COUNT }
    {
        let index = slot.index();
        update_in(update, index, &mut self.places[index], &mut self.marks);
    }

    /// Applies an update to each of these slots.
    pub fn each<H: SlotUpdate>(&mut self, among: SlotSet, update: &H)
        ensures changed { self.new ≡ changed (within among (H.after update.now)) self.old }
        ensures slots { length self.old ≡ SLOT_COUNT }
    {
        let mut left = among;
        while let Some(index) = left.take_lowest() {
            update_in(update, index, &mut self.places[index], &mut self.marks);
        }
    }
}
