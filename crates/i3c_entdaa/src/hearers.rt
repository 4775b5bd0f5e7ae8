ghost use Rattle.std.specs.Prelude.{◌≡◌, ◌+◌, ◌≤◌, ◌++◌, ℕ, Some, None, true, [], length, slice_index_or};
ghost use Rattle.std.specs.List.{All, Contains};
ghost use Rattle.i3c_base.specs.declared.range.TheConstants.{SLOTS as SLOT_COUNT};
ghost use Rattle.i3c_base.specs.Numbers.{IsInRange, number_of};
ghost use Rattle.i3c_base.specs.State.{Device as DeviceState, in_slot};
ghost use Rattle.i3c_entdaa.specs.Hearers.{contender, contenders_from, IsContenderKey};

use arrayvec::ArrayVec;
use i3c_base::{SLOTS, Slot};
use i3c_device::Devices;

/// Adds the contender of this slot, whose device hears.
fn enter(keys: &mut ArrayVec<(Slot, u64), SLOTS>, devices: &Devices, slot: Slot)
    requires room { length keys.old.items ≤ slot }
    requires hears { in_slot (λ d. d.hearing) (slice_index_or devices.now slot None) ≡ true }
    ensures entered { keys.new.items ≡ keys.old.items ++ contender slot (slice_index_or devices.now slot None) }
    ensures short { length keys.new.items ≤ slot + 1 }
    ensures in_range { (d : DeviceState) → slice_index_or devices.now slot None ≡ Some d → d.hearing ≡ true → IsInRange d.identity }
{
    let Some(identity) = devices.identity(slot) else {
        unreachable!()
    };
    keys.push((slot, identity.number()));
}

/// Enters the hearers into an empty list, each with the number of its identity.
// the list is the caller's, since it is large to hand back
pub(crate) fn contend(keys: &mut ArrayVec<(Slot, u64), SLOTS>, devices: &Devices)
    requires { keys.old.items ≡ [] }
    ensures exact { keys.new.items ≡ contenders_from 0 devices.now }
    ensures sound { All (IsContenderKey devices.now) keys.new.items }
    ensures complete { (s : ℕ) (d : DeviceState) → slice_index_or devices.now s None ≡ Some d → d.hearing ≡ true → Contains keys.new.items (s, number_of d.identity) }
    ensures slots { length devices.now ≡ SLOT_COUNT }
{
    let mut first = 0;
    let mut left = devices.hearers();
    while let Some(index) = left.take_lowest() {
        enter(keys, devices, Slot::from_index(index));
        first = index + 1;
    }
}
