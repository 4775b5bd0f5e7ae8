ghost use Rattle.std.specs.Prelude.{◌≡◌, ◌<◌, ◌↔◌, ℕ, IsTrue, None, false, true, is_some, option_map, option_copied, slice_index_or};
ghost use Rattle.i3c_base.specs.declared.range.TheConstants.{SLOTS as SLOT_COUNT};
ghost use Rattle.i3c_base.specs.Numbers.{KindSet};
ghost use Rattle.i3c_device.specs.Enabling.{under};
ghost use Rattle.i3c_device.specs.Keeping.{IsHeld};
ghost use Rattle.i3c_device.specs.Sets.{has};

use crate::attached::Attached;
use crate::devices::Devices;
use crate::enabled::Enabled;
use crate::occupants::Occupants;
use crate::occupants_snapshot::OccupantsSnapshot;
use crate::slot_set::SlotSet;
use i3c_base::{Addr7, Slot};
use std::alloc::{AllocError, Global};
use std::marker::Model;

/// Devices in their slots as they were at some time, and unchangeable. Slots behind the last present device take no room.
#[derive(Drop)]
pub struct Resting {
    pub(crate) kept: OccupantsSnapshot,
    pub(crate) enabled: Enabled,
}

impl Model for Resting {
    ghost use Rattle.std.specs.Prelude.{List, Option};
    ghost use Rattle.i3c_base.specs.State.{Device as DeviceState};
    ghost use Rattle.i3c_device.specs.Enabling.{seen};

    ghost Value = { List (Option DeviceState) };

    ghost view = { λ r. seen r.enabled r.kept };
}

impl Resting {
    ghost use Rattle.std.specs.Prelude.{◌≡◌, ◌↔◌, IsTrue, IfOk, OnErr, OnOk, None, is_some, slice_index_or};
    ghost use Rattle.i3c_device.specs.Holding.{address_in};

    /// Devices as they are now.
    ///
    /// # Errors
    ///
    /// There is no memory for them.
    pub fn of(alloc: Global, devices: &Devices) -> Result<Resting, AllocError>
        ensures { IfOk result (λ resting. resting ≡ devices.now) }
    {
        let mut resting = Resting {
            kept: OccupantsSnapshot::new(alloc),
            enabled: Enabled::new(),
        };
        resting.copy_from(devices)?;
        Ok(resting)
    }

    /// They become these devices as they are now.
    ///
    /// # Errors
    ///
    /// There is no memory for more of them. They stay what they are.
    pub fn copy_from(&mut self, devices: &Devices) -> Result<(), AllocError>
        ensures copied { OnOk result (self.new ≡ devices.now) }
        ensures kept { OnErr result (self.new ≡ self.old) }
    {
        self.kept.copy_from(&devices.occupants)?;
        self.enabled = devices.enabled;
        Ok(())
    }

    /// Whether others are the same: each slot holds the same device in both, or no device in either.
    pub fn is_same(&self, others: &Resting) -> bool
        ensures { IsTrue result ↔ (self.now ≡ others.now) }
    {
        let differing = self.enabled.differing(others.enabled);
        let mut left = self.kept.present().or(others.kept.present());
        while let Some(index) = left.take_lowest() {
            let slot = Slot::from_index(index);
            let differ = differing.has(index);
            if !are_same(self.kept.at(slot), others.kept.at(slot), differ) {
                return false;
            }
        }
        true
    }

    /// Whether devices that don't rest are the same.
    pub fn is_of(&self, devices: &Devices) -> bool
        ensures { IsTrue result ↔ (self.now ≡ devices.now) }
    {
        let present = self.kept.present();
        let alone = present.apart(devices.present());
        let differing = self.enabled.differing(devices.enabled).and(present);
        alone.or(differing).is_none() && are_same_among(present, &self.kept, &devices.occupants)
    }

    /// Whether a slot holds a device.
    pub fn holds(&self, slot: Slot) -> bool
        ensures { result ≡ is_some (slice_index_or self.now slot None) }
    {
        self.kept.present().has(slot.index())
    }

    /// The dynamic address of a slot's device, if there is a device and it has one.
    pub fn address(&self, slot: Slot) -> Option<Addr7>
        ensures { result ≡ address_in (slice_index_or self.now slot None) }
    {
        match self.kept.at(slot) {
            Some(device) => device.address(),
            None => None,
        }
    }
}

/// Whether both slots are empty, or both devices are the same. `differ` says whether their enabled kinds of events differ,
/// which are kept apart.
fn are_same(one: Option<&Attached>, other: Option<&Attached>, differ: bool) -> bool
    ensures { (kinds others : KindSet) → (differ ≡ false) ↔ (kinds ≡ others) → IsTrue result ↔ (option_map (under kinds) (option_copied one.entry) ≡ option_map (under others) (option_copied other.entry)) }
{
    match (one, other) {
        (None, None) => true,
        (Some(device), Some(twin)) => !differ && device.is_same(twin),
        (None, Some(_)) => false,
        (Some(_), None) => false,
    }
}

/// Whether both hold the same devices in these slots. Each of these slots holds one in both.
fn are_same_among(among: SlotSet, kept: &OccupantsSnapshot, occupants: &Occupants) -> bool
    requires { (s : ℕ) → s < SLOT_COUNT → has among s ≡ true → IsHeld kept.now occupants.now s }
    ensures { (kinds : KindSet) → IsTrue result ↔ ((s : ℕ) → s < SLOT_COUNT → has among s ≡ true → option_map (under kinds) (slice_index_or kept.now s None) ≡ option_map (under kinds) (slice_index_or occupants.now s None)) }
{
    let mut left = among;
    while let Some(index) = left.take_lowest() {
        if !kept.device(index).is_same(occupants.device(index)) {
            return false;
        }
    }
    true
}
