ghost use Rattle.std.specs.Prelude.{◌≡◌, ◌+◌, ◌≤◌, ◌↔◌, true};
ghost use Rattle.i3c_base.specs.declared.datum.Direction.{Direction as DirectionValue};
ghost use Rattle.i3c_base.specs.Cutting.{lost_by};
ghost use Rattle.i3c_base.specs.Frames.{Reads, read_bits, transfer_length};
ghost use Rattle.i3c_base.specs.State.{HasDevices, State};
ghost use Rattle.i3c_xfer.specs.Transfers.{AnyAnswers, IsReadAs, bits_of_read, is_read_acknowledged, read_answer};

use crate::answers::{ACK_BITS, Read};
use i3c_base::{Addr7, Bytes, Cuts, Direction, Length, Slot};
use i3c_device::Devices;
use i3c_legacy::LegacyTargets;
use i3c_word::WORD_BITS;

/// A private read from an address: a header, and if it is acknowledged the first registers, as many as may be read (I3C
/// Basic 5.1.2.2, 5.1.2.3.4). `bits_before` bits of the frame come before it, and `cuts` are the devices cut in the
/// frame. A legacy target answers for its address alone. Otherwise all devices at the address answer, except the active
/// controller, and the lines give the AND of what they drive.
pub fn read(
    devices: &Devices,
    legacy: &LegacyTargets,
    active: Slot,
    to: Addr7,
    cuts: &Cuts,
    bits_before: u16,
) -> Read
    requires { bits_before ≤ 18 }
    ensures reads { (st : State) → HasDevices st devices.now active → st.legacy ≡ legacy.now
        → Reads to (read_answer to result) (lost_by cuts.now (bits_before + bits_of_read result)) st st }
    ensures bits { (st : State) → HasDevices st devices.now active → st.legacy ≡ legacy.now
        → bits_of_read result ≡ read_bits (transfer_length st DirectionValue.Read to) (read_answer to result) }
    ensures acknowledged { (st : State) → HasDevices st devices.now active → st.legacy ≡ legacy.now
        → is_read_acknowledged result ≡ true ↔ AnyAnswers st to (lost_by cuts.now (bits_before + 9)) }
    ensures read { (st : State) → HasDevices st devices.now active → st.legacy ≡ legacy.now → IsReadAs st to cuts.now (bits_before + 10) result }
{
    if let Some(target) = legacy.get(to) {
        return Read::Legacy(target.registers);
    }
    let target = Some(to);
    if !devices.is_heard(active, &target, cuts, bits_before + ACK_BITS) {
        return Read::Nobody;
    }
    let count = devices.least_length(active, to, Direction::Read).get();
    let registers = devices.read(active, to, cuts, bits_before + ACK_BITS + 1);
    let bytes = Bytes::new(&registers[..count as usize]);
    let last = bits_before + ACK_BITS + WORD_BITS * count as u16;
    if devices.is_heard(active, &target, cuts, last) {
        Read::Ended(bytes)
    } else {
        Read::Torn(bytes)
    }
}

/// How many bytes a transfer with an address may have (I3C Basic 5.1.9.3.5, 5.1.9.3.6): as many as a legacy target has
/// registers, or the least maximum length of the devices there.
pub fn transfer_length(
    devices: &Devices,
    legacy: &LegacyTargets,
    active: Slot,
    to: Addr7,
    way: Direction,
) -> Length
    ensures { (st : State) → HasDevices st devices.now active → st.legacy ≡ legacy.now → result ≡ transfer_length st way to }
{
    match legacy.get(to) {
        Some(_) => Length::most(),
        None => devices.least_length(active, to, way),
    }
}
