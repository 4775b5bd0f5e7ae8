ghost use Rattle.std.specs.Prelude.{◌≡◌, None, Some, option_map, slice_index_or, slice_set, MatchResult, OnErr, OnOk};
ghost use Rattle.i3c_hotjoin.specs.Wishes.{refusal_of};
ghost use Rattle.i3c_base.specs.Local.{wishing_join};

use i3c_base::{JoinRefusal, Slot};
use i3c_device::Devices;

/// The slot's device wishes to join (Hot-Join, I3C Basic 5.1.5). The first refusal that holds is answered, and changes
/// nothing.
pub fn ask(devices: &mut Devices, slot: Slot) -> Result<(), JoinRefusal>
    ensures refusal { MatchResult result (λ _. refusal_of (slice_index_or devices.old slot None) ≡ None) (λ why. refusal_of (slice_index_or devices.old slot None) ≡ Some why) }
    ensures wishes { OnOk result (devices.new ≡ slice_set devices.old slot (option_map wishing_join (slice_index_or devices.old slot None))) }
    ensures unchanged { OnErr result (devices.new ≡ devices.old) }
{
    if !devices.holds(slot) {
        return Err(JoinRefusal::NoDevice);
    }
    if devices.address(slot).is_some() {
        return Err(JoinRefusal::HasAddress);
    }
    if !devices.may_join(slot) {
        return Err(JoinRefusal::Masked);
    }
    devices.wish_join(slot);
    Ok(())
}
