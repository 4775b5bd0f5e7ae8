ghost use Rattle.std.specs.Prelude.{◌≡◌, ◌+◌, ◌≤◌, ◌↔◌, ℕ, true};
ghost use Rattle.i3c_base.specs.Cutting.{lost_by};
ghost use Rattle.i3c_base.specs.State.{HasDevices, State};
ghost use Rattle.i3c_handoff.specs.Offers.{IsOffered, IsReadAs, IsTornByte, SomeTakes, is_acknowledged, offer_bits};

use crate::outcome::Offer;
use i3c_base::{Addr7, Cuts, Slot};
use i3c_device::Devices;
use i3c_word::{HEADER_BITS, WORD_BITS, address_byte};

/// How many bits a handover has up to its target's acknowledgement: a word and a header.
const ACK_BITS: u16 = WORD_BITS + HEADER_BITS;

/// The byte as it is read when its senders are cut: ones from the bit on at which the last of them is gone. `sent` bits
/// of the frame come before it.
fn torn_byte(devices: &Devices, active: Slot, to: Addr7, cuts: &Cuts, sent: u16) -> u8
    requires { sent ≤ 36 }
    ensures { (st : State) → HasDevices st devices.now active → IsTornByte st to cuts.now (sent + 1) result }
{
    let own = address_byte(to);
    for bit in 0..8 {
        let Some(_driver) = devices.lowest_willing(active, to, cuts, sent + 1 + bit) else {
            return own | (u8::MAX >> bit);
        };
    }
    own
}

/// Offers the role to an address (GETACCCR, I3C Basic 5.1.9.3.16). `bits_before` bits of the frame come before it, and
/// `cuts` are the devices cut in the frame. The frame has the code, the target's header, and if a device that would take
/// the role acknowledges it, that device's byte. The lowest slot whose device is willing and is left at the byte's T
/// takes the role.
pub fn offer(devices: &Devices, active: Slot, to: Addr7, cuts: &Cuts, bits_before: u16) -> Offer
    requires { bits_before ≤ 18 }
    ensures offered { (st : State) → HasDevices st devices.now active → IsOffered st to (lost_by cuts.now (bits_before + offer_bits result)) result }
    ensures acknowledged { (st : State) → HasDevices st devices.now active → is_acknowledged result ≡ true ↔ SomeTakes st to (lost_by cuts.now (bits_before + 18)) }
    ensures read { (st : State) → HasDevices st devices.now active → IsReadAs st to cuts.now (bits_before + 19) result }
{
    let ack = bits_before + ACK_BITS;
    if let Some(slot) = devices.lowest_willing(active, to, cuts, ack + WORD_BITS) {
        return Offer::Taken(slot);
    }
    if devices.lowest_willing(active, to, cuts, ack).is_none() {
        return Offer::Nobody;
    }
    Offer::Torn(torn_byte(devices, active, to, cuts, ack))
}

/// The bits of a handover: the code and the target's header, and after its ACK the byte (I3C Basic 5.1.9.3.16).
pub fn offer_bits(offer: &Offer) -> u16
    ensures { result ≡ offer_bits offer.now }
{
    match offer {
        Offer::Nobody => ACK_BITS,
        Offer::Torn(_) | Offer::Taken(_) => ACK_BITS + WORD_BITS,
    }
}
