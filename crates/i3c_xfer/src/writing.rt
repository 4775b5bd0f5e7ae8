ghost use Rattle.std.specs.Prelude.{◌≡◌, ◌+◌, ◌≤◌, ◌↔◌, length, true};
ghost use Rattle.i3c_base.specs.declared.device.TheConstants.{REGISTERS as REGISTER_COUNT};
ghost use Rattle.i3c_base.specs.Cutting.{lost_by};
ghost use Rattle.i3c_base.specs.Frames.{Writes, write_bits};
ghost use Rattle.i3c_base.specs.State.{HasDevices, State};
ghost use Rattle.i3c_xfer.specs.Transfers.{AnyAnswers, IsWrittenBy, is_write_acknowledged, write_answer};

use crate::answers::{ACK_BITS, Write};
use i3c_base::{Addr7, Cuts, Slot};
use i3c_device::Devices;
use i3c_legacy::LegacyTargets;

/// The party that takes the bytes of a write to an address: it acknowledges the header, by this bit of the frame.
fn taker(
    devices: &Devices,
    legacy: &LegacyTargets,
    active: Slot,
    to: Addr7,
    cuts: &Cuts,
    ack: u16,
) -> Write
    ensures acknowledged { (st : State) → HasDevices st devices.now active → st.legacy ≡ legacy.now
        → is_write_acknowledged result ≡ true ↔ AnyAnswers st to (lost_by cuts.now ack) }
    ensures written { (st : State) → st.legacy ≡ legacy.now → IsWrittenBy st to result }
{
    if legacy.get(to).is_some() {
        return Write::Legacy;
    }
    if devices.is_heard(active, &Some(to), cuts, ack) {
        Write::Devices
    } else {
        Write::Nobody
    }
}

/// A private write of these bytes to an address: a header, and if it is acknowledged a word for each byte (I3C Basic
/// 5.1.2.2, 5.1.2.3.1). `bits_before` bits of the frame come before it, and `cuts` are the devices cut in the frame. The
/// bytes go into the first registers of each party that has the address. If none acknowledges, nothing changes; a device
/// lost behind the acknowledgement is still among the devices.
pub fn write(
    devices: &mut Devices,
    legacy: &mut LegacyTargets,
    active: Slot,
    to: Addr7,
    bytes: &[u8],
    cuts: &Cuts,
    bits_before: u16,
) -> Write
    requires short { length bytes.now ≤ REGISTER_COUNT }
    requires early { bits_before ≤ 18 }
    ensures writes { (st : State) → HasDevices st devices.old active → st.legacy ≡ legacy.old
        → Writes to bytes.now (write_answer to result) (lost_by cuts.now (bits_before + write_bits bytes.now (write_answer to result))) st (record st { devices = devices.new; legacy = legacy.new }) }
    ensures acknowledged { (st : State) → HasDevices st devices.old active → st.legacy ≡ legacy.old
        → is_write_acknowledged result ≡ true ↔ AnyAnswers st to (lost_by cuts.now (bits_before + 9)) }
    ensures written { (st : State) → st.legacy ≡ legacy.old → IsWrittenBy st to result }
{
    let taker = taker(devices, legacy, active, to, cuts, bits_before + ACK_BITS);
    if taker.is_acknowledged() {
        devices.write(active, to, bytes);
        legacy.write(to, bytes);
    }
    taker
}
