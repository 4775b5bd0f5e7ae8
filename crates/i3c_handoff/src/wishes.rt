ghost use Rattle.std.specs.Prelude.{◌≡◌, None, Some, option_map, slice_index_or, slice_set, MatchResult, OnErr, OnOk};
ghost use Rattle.i3c_handoff.specs.Wishes.{refusal_of};
ghost use Rattle.i3c_base.specs.Local.{wishing_role};

use i3c_base::{RoleRefusal, Slot};
use i3c_device::Devices;

/// The slot's device wishes for the controller role (I3C Basic 5.1.7.1). The first refusal that holds is answered, and
/// changes nothing.
pub fn ask(devices: &mut Devices, active: Slot, slot: Slot) -> Result<(), RoleRefusal>
    ensures refusal { MatchResult result (λ _. refusal_of active slot (slice_index_or devices.old slot None) ≡ None) (λ why. refusal_of active slot (slice_index_or devices.old slot None) ≡ Some why) }
    ensures wishes { OnOk result (devices.new ≡ slice_set devices.old slot (option_map wishing_role (slice_index_or devices.old slot None))) }
    ensures unchanged { OnErr result (devices.new ≡ devices.old) }
{
    let Some(identity) = devices.identity(slot) else {
        return Err(RoleRefusal::NoDevice);
    };
    if slot == active {
        return Err(RoleRefusal::IsActive);
    }
    if devices.address(slot).is_none() {
        return Err(RoleRefusal::NoAddress);
    }
    if !identity.bcr.capable() {
        return Err(RoleRefusal::NotCapable);
    }
    if !devices.may_ask_role(slot) {
        return Err(RoleRefusal::Masked);
    }
    devices.wish_role(slot);
    Ok(())
}
