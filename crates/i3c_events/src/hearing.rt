ghost use Rattle.std.specs.Prelude.{◌≡◌, ◌+◌, ◌≤◌, ◌↔◌, ℕ, IsOk, Some};
ghost use Rattle.i3c_base.specs.Cutting.{lost_by};
ghost use Rattle.i3c_base.specs.State.{HasDevices, State};
ghost use Rattle.i3c_base.specs.Frames.{Rekinds, SetsLength, SomeLeftAt, changed_kinds, kinds_bits, length_bits};
ghost use Rattle.i3c_events.specs.Hearing.{answer_of};

use i3c_base::{Addr7, Answer, Change, Cuts, Direction, Kinds, Length, Slot};
use i3c_device::Devices;
use i3c_word::{HEADER_BITS, WORD_BITS};
use thiserror::Error;

/// How many bits a direct command has up to its target's acknowledgement: a word and a header.
pub(crate) const ACK_BITS: u16 = WORD_BITS + HEADER_BITS;

/// No device other than the active controller has the address, or none of them was left to acknowledge it.
#[derive(Clone, Copy, Debug, PartialEq, Eq, Drop, Error)]
#[error("no device answers at the address")]
pub struct NoAnswer(pub Addr7);

/// ENEC or DISEC: each device that it reaches hears it, that is, all but the active controller, or those of them at one
/// address (I3C Basic 5.1.9.3.1). `bits_before` bits of the frame come before it, and `cuts` are the devices cut in the
/// frame. If no device is left at the acknowledgement, nothing changes.
#[inline(always)]
pub fn hear_kinds(
    devices: &mut Devices,
    active: Slot,
    to: Option<Addr7>,
    change: Change,
    kinds: Kinds,
    cuts: &Cuts,
    bits_before: u16,
) -> Result<(), NoAnswer>
    requires { bits_before ≤ 18 }
    ensures rekinds { (st : State) → HasDevices st devices.old active
        → Rekinds to (changed_kinds change kinds) (answer_of result) (lost_by cuts.now (bits_before + kinds_bits to (answer_of result))) st (record st { devices = devices.new }) }
    ensures answered { (st : State) (a : ℕ) → HasDevices st devices.old active → to ≡ Some a → IsOk result ↔ SomeLeftAt st a (lost_by cuts.now (bits_before + 18)) }
{
    let reached = devices.reached(active, &to);
    if let Some(at) = to {
        if !reached.outlasts(cuts, bits_before + ACK_BITS) {
            return Err(NoAnswer(at));
        }
    }
    devices.change_kinds(reached, change, kinds);
    Ok(())
}

/// SETMWL or SETMRL: each device that it reaches has this maximum length, that is, all but the active controller, or
/// those of them at one address (I3C Basic 5.1.9.3.5, 5.1.9.3.6). `bits_before` bits of the frame come before it, and
/// `cuts` are the devices cut in the frame. If no device is left at the acknowledgement, nothing changes.
pub fn hear_length(
    devices: &mut Devices,
    active: Slot,
    to: Option<Addr7>,
    way: Direction,
    most: Length,
    cuts: &Cuts,
    bits_before: u16,
) -> Result<(), NoAnswer>
    requires { bits_before ≤ 18 }
    ensures sets { (st : State) → HasDevices st devices.old active
        → SetsLength to way most (answer_of result) (lost_by cuts.now (bits_before + length_bits to (answer_of result))) st (record st { devices = devices.new }) }
    ensures answered { (st : State) (a : ℕ) → HasDevices st devices.old active → to ≡ Some a → IsOk result ↔ SomeLeftAt st a (lost_by cuts.now (bits_before + 18)) }
{
    let reached = devices.reached(active, &to);
    if let Some(at) = to {
        if !reached.outlasts(cuts, bits_before + ACK_BITS) {
            return Err(NoAnswer(at));
        }
    }
    devices.limit(reached, way, most);
    Ok(())
}

/// The bits of SETMWL and SETMRL: three words, or a word, a header and after its ACK two words (I3C Basic 5.1.9.3.5,
/// 5.1.9.3.6).
pub fn length_bits(to: &Option<Addr7>, answer: &Answer) -> u16
    ensures { result ≡ length_bits to.now answer.now }
{
    match (to, answer) {
        (Some(_), Answer::NoAnswer(_)) => ACK_BITS,
        (Some(_), _) => ACK_BITS + 2 * WORD_BITS,
        (None, _) => 3 * WORD_BITS,
    }
}

/// The bits of ENEC and DISEC: two words, or a word, a header and after its ACK a word (I3C Basic 5.1.9.3.1).
pub fn kinds_bits(to: &Option<Addr7>, answer: &Answer) -> u16
    ensures { result ≡ kinds_bits to.now answer.now }
{
    match (to, answer) {
        (Some(_), Answer::NoAnswer(_)) => ACK_BITS,
        (Some(_), _) => ACK_BITS + WORD_BITS,
        (None, _) => 2 * WORD_BITS,
    }
}

/// The answer of ENEC or DISEC that was heard, or wasn't (I3C Basic 5.1.9.3.1).
pub fn answer_of(heard: &Result<(), NoAnswer>) -> Answer
    ensures { result ≡ answer_of heard.now }
{
    match heard {
        Ok(()) => Answer::Done,
        Err(NoAnswer(address)) => Answer::NoAnswer(*address),
    }
}
