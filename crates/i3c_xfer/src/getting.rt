ghost use Rattle.std.specs.Prelude.{◌≡◌, ◌+◌, ◌≤◌, ◌↔◌, Option, true};
ghost use Rattle.i3c_base.specs.Cutting.{lost_by};
ghost use Rattle.i3c_base.specs.Frames.{Gets, SomeLeftAt, get_bits, told_length};
ghost use Rattle.i3c_base.specs.Serve.{byte_due};
ghost use Rattle.i3c_base.specs.State.{Entry, HasDevices, State, entry_at};
ghost use Rattle.i3c_xfer.specs.Getting.{IsToldAs, get_answer, is_get_acknowledged};

use crate::answers::{ASKED_BITS, Get};
use i3c_base::{Addr7, Cuts, Datum, Slot};
use i3c_device::Devices;
use i3c_word::WORD_BITS;

/// A datum is asked for at an address: its code and a header, and if that is acknowledged its bytes (I3C Basic 5.1.9.3).
/// `bits_before` bits of the frame come before it, and `cuts` are the devices cut in the frame. All devices at the
/// address answer, except the active controller, and the lines give the AND of what they drive.
pub fn get(
    devices: &Devices,
    active: Slot,
    what: Datum,
    count: usize,
    to: Addr7,
    cuts: &Cuts,
    bits_before: u16,
) -> Get
    requires early { bits_before ≤ 18 }
    requires few { count ≤ 6 }
    requires some { 1 ≤ count }
    ensures gets { (st : State) → HasDevices st devices.now active → count ≡ told_length what (entry_at st to)
        → Gets what to (get_answer to result) (lost_by cuts.now (bits_before + get_bits what (entry_at st to) (get_answer to result))) st st }
    ensures acknowledged { (st : State) → HasDevices st devices.now active → is_get_acknowledged result ≡ true ↔ SomeLeftAt st to (lost_by cuts.now (bits_before + 18)) }
    ensures told { (st : State) → HasDevices st devices.now active → IsToldAs st what count to cuts.now (bits_before + 19) result }
{
    let target = Some(to);
    if !devices.is_heard(active, &target, cuts, bits_before + ASKED_BITS) {
        return Get::Nobody;
    }
    let bytes = devices.tell(what, count, active, to, cuts, bits_before + ASKED_BITS + 1);
    let last = bits_before + ASKED_BITS + WORD_BITS * count as u16;
    if devices.is_heard(active, &target, cuts, last) {
        Get::Ended(bytes)
    } else {
        Get::Torn(bytes)
    }
}

/// How many bytes are read of a datum, at an address whose interrupts have a mandatory byte or have none.
pub fn datum_length(what: Datum, has_byte: bool) -> usize
    ensures same { (entry : Option Entry) → has_byte ≡ byte_due entry → result ≡ told_length what entry }
    ensures few { result ≤ 6 }
    ensures some { 1 ≤ result }
{
    match what {
        Datum::Pid => 6,
        Datum::Bcr | Datum::Dcr => 1,
        Datum::ReadLength if has_byte => 3,
        Datum::ReadLength
        | Datum::Status
        | Datum::WriteLength
        | Datum::Speed
        | Datum::Capabilities => 2,
    }
}
