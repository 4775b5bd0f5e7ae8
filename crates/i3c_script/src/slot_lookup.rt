ghost use Rattle.std.specs.Prelude.{◌≡◌, ◌<◌, ◌≤◌, ◌+◌, ◌++◌, ◌↔◌, length, Ok, Err, IsTrue, MatchOption, MatchResult};
ghost use Rattle.i3c_base.specs.State.{IsPresent};
ghost use Rattle.i3c_script.specs.Asking.{IsEntrance, IsTaken, acting_refusal, slot_of_device, slots_named};
ghost use Rattle.i3c_script.specs.Slots.{AllPresentBelow};

use arrayvec::ArrayVec;
use i3c_base::{SLOTS, Slot};
use i3c_bus::{Bus, Refusal as BusRefusal};
use i3c_lines::{EXCEPTED, Name, Naming, Place, Refusal, slot_meant};

/// The slot for a new device with this name: the lowest free one, if the name isn't taken.
pub(crate) fn entrance<N: Naming>(bus: &Bus, names: &N, name: &Name) -> Result<Slot, Refusal>
    ensures { IsEntrance bus.now.state (N.kept.place names.now name.now) result }
{
    if is_taken(bus, names.place_of(name)) {
        return Err(Refusal::NameTaken);
    }
    match free_slot(bus) {
        Some(slot) => Ok(slot),
        None => Err(Refusal::Bus(BusRefusal::SlotTaken)),
    }
}

/// The slot of the present device that a name stands for. It answers `NoDevice` where the device is gone.
pub(crate) fn slot_of_device<N: Naming>(bus: &Bus, names: &N, name: &Name) -> Result<Slot, Refusal>
    ensures { result ≡ slot_of_device N.kept bus.now.state names.now name.now }
{
    let slot = slot_meant(names, name)?;
    if bus.present(slot) {
        Ok(slot)
    } else {
        Err(Refusal::Bus(BusRefusal::NoDevice))
    }
}

/// Why a line of the controller with this name is refused, if it is: it has no device, or this isn't the active controller.
pub(crate) fn acting_refusal<N: Naming>(bus: &Bus, names: &N, name: &Name) -> Option<Refusal>
    ensures { result ≡ acting_refusal N.kept bus.now.state names.now name.now }
{
    match slot_of_device(bus, names, name) {
        Ok(slot) if slot == bus.active() => None,
        Ok(_) => Some(Refusal::NotActive),
        Err(why) => Some(why),
    }
}

/// Appends the slots of the devices with these names. It answers the refusal of the first name that no present device
/// has.
pub(crate) fn slots_of_devices<N: Naming>(
    bus: &Bus,
    names: &N,
    named: &[Name],
    slots: &mut ArrayVec<Slot, EXCEPTED>,
) -> Result<(), Refusal>
    requires { length slots.old.items + length named.now ≤ EXCEPTED }
    ensures { MatchResult (slots_named (slot_of_device N.kept bus.now.state names.now) named.now)
        (λ found. (result ≡ Ok tt) × (slots.new.items ≡ slots.old.items ++ found))
        (λ why. result ≡ Err why) }
{
    let Some((first, rest)) = named.split_first() else {
        return Ok(());
    };
    match slot_of_device(bus, names, first) {
        Ok(slot) => {
            slots.push(slot);
            slots_of_devices(bus, names, rest, slots)
        }
        Err(why) => Err(why),
    }
}

/// Whether a present device or a legacy target has the name that stands for this place. The name of a device that is gone
/// may be given again.
fn is_taken(bus: &Bus, place: Option<Place>) -> bool
    ensures { IsTrue result ↔ IsTaken bus.now.state place }
{
    let Some(place) = place else {
        return false;
    };
    match place {
        Place::Slot(slot) => bus.present(slot),
        Place::Legacy(_) => true,
        Place::Gone => false,
    }
}

/// The lowest slot without a device.
fn free_slot(bus: &Bus) -> Option<Slot>
    ensures { MatchOption result (AllPresentBelow bus.now.state SLOTS)
        (λ slot. (slot < SLOTS) × (¬ IsPresent bus.now.state slot) × AllPresentBelow bus.now.state slot) }
{
    for number in 0..SLOTS as u8 {
        let slot = Slot::new(number).unwrap();
        if !bus.present(slot) {
            return Some(slot);
        }
    }
    None
}
