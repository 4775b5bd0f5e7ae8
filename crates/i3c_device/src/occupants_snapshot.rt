ghost use Rattle.std.specs.Prelude.{◌≡◌, ◌<◌, ◌≤◌, ℕ, length, None, OnErr, OnOk, slice_index_or};
ghost use Rattle.i3c_base.specs.declared.range.TheConstants.{SLOTS as SLOT_COUNT};

use crate::attached::Attached;
use crate::occupants::Occupants;
use crate::places::copy_all;
use crate::slot_set::SlotSet;
use i3c_base::Slot;
use std::alloc::{AllocError, Global};
use std::marker::Model;

/// The occupants of slots as they were at some time. They take the room of the lowest slots, up to the last that held a
/// device, and no more.
#[derive(Drop)]
pub(crate) struct OccupantsSnapshot {
    present: SlotSet,
    places: Vec<Option<Attached>>,
}

impl Model for OccupantsSnapshot {
    ghost use Rattle.std.specs.Prelude.{◌≡◌, ◌<◌, ◌≤◌, ℕ, is_some, length, List, None, Option, slice_index_or};
    ghost use Rattle.i3c_base.specs.declared.range.TheConstants.{SLOTS as SLOT_COUNT};
    ghost use Rattle.i3c_base.specs.State.{Device as DeviceState};
    ghost use Rattle.i3c_device.specs.Keeping.{unpacked};
    ghost use Rattle.i3c_device.specs.Sets.{has};

    ghost Value = { List (Option DeviceState) };

    ghost view = { λ k. unpacked k.places.items };

    ghost invariant = { λ k. (length k.places.items ≤ SLOT_COUNT) × ((s : ℕ) → s < SLOT_COUNT → has k.present s ≡ is_some (slice_index_or k.places.items s None)) };
}

impl OccupantsSnapshot {
    ghost use Rattle.std.specs.Prelude.{◌≡◌, ◌<◌, ℕ, OnErr, OnOk, Some, None, true, is_some, length, option_copied, slice_index_or};
    ghost use Rattle.i3c_base.specs.declared.range.TheConstants.{SLOTS as SLOT_COUNT};
    ghost use Rattle.i3c_base.specs.State.{no_devices};
    ghost use Rattle.i3c_device.specs.Sets.{has};

    /// Empty slots.
    pub fn new(alloc: Global) -> OccupantsSnapshot
        ensures { result ≡ no_devices }
    {
        OccupantsSnapshot {
            present: SlotSet::none(),
            places: Vec::new(alloc),
        }
    }

    /// They become occupants as these are now. Where there is no memory for more of them they stay what they are.
    pub fn copy_from(&mut self, occupants: &Occupants) -> Result<(), AllocError>
        ensures copied { OnOk result (self.new ≡ occupants.now) }
        ensures kept { OnErr result (self.new ≡ self.old) }
    {
        let present = occupants.marks().present;
        lengthen(&mut self.places, present.span())?;
        let count = self.places.len();
        copy_all(&mut self.places, &occupants.places()[..count]);
        self.present = present;
        Ok(())
    }

    /// The slots that hold a device.
    pub fn present(&self) -> SlotSet
        ensures present { (s : ℕ) → s < SLOT_COUNT → has result s ≡ is_some (slice_index_or self.now s None) }
        ensures slots { length self.now ≡ SLOT_COUNT }
    {
        self.present
    }

    /// The device in a slot.
    pub fn at(&self, slot: Slot) -> Option<&Attached>
        ensures place { option_copied result ≡ slice_index_or self.now slot None }
        ensures slots { length self.now ≡ SLOT_COUNT }
    {
        match self.places.get(slot.index()) {
            Some(place) => place.as_ref(),
            None => None,
        }
    }

    /// The device in a slot that holds one.
    #[inline(always)]
    pub fn device(&self, index: usize) -> &Attached
        requires { (index < SLOT_COUNT) × (is_some (slice_index_or self.now index None) ≡ true) }
        ensures { slice_index_or self.now index None ≡ Some result.now }
    {
        match &self.places[index] {
            Some(device) => device,
            None => unreachable!(),
        }
    }
}

/// There are at least `count` places; the new ones are empty.
fn lengthen(places: &mut Vec<Option<Attached>>, count: usize) -> Result<(), AllocError>
    requires { (length places.old.items ≤ SLOT_COUNT) × (count ≤ SLOT_COUNT) }
    ensures same { (s : ℕ) → slice_index_or places.new.items s None ≡ slice_index_or places.old.items s None }
    ensures long { OnOk result (count ≤ length places.new.items) }
    ensures most { length places.new.items ≤ SLOT_COUNT }
{
    places.reserve_exact(count.saturating_sub(places.len()))?;
    for index in 0..count {
        if places.len() <= index {
            places.push(None)?;
        }
    }
    Ok(())
}
