ghost use Rattle.std.specs.Prelude.{◌≡◌, ◌+◌, ◌≤◌, ◌↔◌, IsOk, MatchResult};
ghost use Rattle.i3c_base.specs.Cutting.{lost_by};
ghost use Rattle.i3c_base.specs.Frames.{AllLostAt, AllUnaddressedLostAt, AnyAt, AnyUnaddressedAt, SomeLeftAt, SomeUnaddressedLeftAt, with_new_at, with_static_at};
ghost use Rattle.i3c_base.specs.State.{HasDevices, State, each_in};

use crate::hearing::{ACK_BITS, NoAnswer};
use i3c_base::{Addr7, Cuts, Slot};
use i3c_device::Devices;

/// A command that sets the dynamic address of a device.
#[derive(Clone, Copy, Debug, PartialEq, Eq)]
pub enum Setting {
    /// SETDASA, to a static address (I3C Basic 5.1.9.3.10).
    Static,
    /// SETNEWDA, to a dynamic address (I3C Basic 5.1.9.3.11).
    New,
}

/// SETDASA: each device with the static address and no dynamic one takes the new address, except the active controller
/// (I3C Basic 5.1.9.3.10). `bits_before` bits of the frame come before it, and `cuts` are the devices cut in the frame.
/// If no device is left at the acknowledgement, nothing changes. No dynamic address is below `08`.
#[inline(always)]
pub fn hear_static(
    devices: &mut Devices,
    active: Slot,
    fixed: Addr7,
    new: Addr7,
    cuts: &Cuts,
    bits_before: u16,
) -> Result<(), NoAnswer>
    requires early { bits_before ≤ 18 }
    requires dynamic { 8 ≤ new }
    ensures set { (st : State) → HasDevices st devices.old active → MatchResult result
        (λ _. AnyUnaddressedAt st fixed × (devices.new ≡ each_in (with_static_at active fixed new) devices.old))
        (λ none. (none.0 ≡ fixed) × AllUnaddressedLostAt st fixed (lost_by cuts.now (bits_before + 18)) × (devices.new ≡ devices.old)) }
    ensures answered { (st : State) → HasDevices st devices.old active → IsOk result ↔ SomeUnaddressedLeftAt st fixed (lost_by cuts.now (bits_before + 18)) }
{
    let takers = devices.unaddressed_at(active, fixed);
    if !takers.outlasts(cuts, bits_before + ACK_BITS) {
        return Err(NoAnswer(fixed));
    }
    devices.take_address(takers, new);
    Ok(())
}

/// SETNEWDA: each device with the old address has the new one, except the active controller (I3C Basic 5.1.9.3.11).
/// `bits_before` bits of the frame come before it, and `cuts` are the devices cut in the frame. If no device is left at
/// the acknowledgement, nothing changes. No dynamic address is below `08`.
pub fn hear_new(
    devices: &mut Devices,
    active: Slot,
    old: Addr7,
    new: Addr7,
    cuts: &Cuts,
    bits_before: u16,
) -> Result<(), NoAnswer>
    requires early { bits_before ≤ 18 }
    requires dynamic { 8 ≤ new }
    ensures set { (st : State) → HasDevices st devices.old active → MatchResult result
        (λ _. AnyAt st old × (devices.new ≡ each_in (with_new_at active old new) devices.old))
        (λ none. (none.0 ≡ old) × AllLostAt st old (lost_by cuts.now (bits_before + 18)) × (devices.new ≡ devices.old)) }
    ensures answered { (st : State) → HasDevices st devices.old active → IsOk result ↔ SomeLeftAt st old (lost_by cuts.now (bits_before + 18)) }
{
    let targets = devices.reached(active, &Some(old));
    if !targets.outlasts(cuts, bits_before + ACK_BITS) {
        return Err(NoAnswer(old));
    }
    devices.readdress(targets, new);
    Ok(())
}
