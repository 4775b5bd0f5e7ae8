ghost use Rattle.std.specs.Prelude.{◌≡◌, length, not, IfSome, IsTrue, MatchOption};
ghost use Rattle.std.specs.List.{list_all, list_any};
ghost use Rattle.i3c_base.specs.declared.range.TheConstants.{SLOTS as SLOT_COUNT};
ghost use Rattle.i3c_base.specs.Cutting.{lost_by};
ghost use Rattle.i3c_base.specs.Round.{AllHearersLost};
ghost use Rattle.i3c_base.specs.State.{State};
ghost use Rattle.i3c_device.specs.Least.{NobodyHears};
ghost use Rattle.i3c_entdaa.specs.Parts.{AreTakers, HearersAreRanged, IsContest};

use crate::hearers::contend;
use arrayvec::ArrayVec;
use i3c_base::{Cuts, SLOTS, Slot};
use i3c_device::{Devices, SlotSet};
use i3c_wires::contest;

/// The ninth bit of `7E`/R, where the hearers acknowledge: a round's first bit.
pub(crate) const HEADER_ACK: u16 = 0;

/// The bit of a round at which its identities begin.
const FIRST_IDENTITY_BIT: u16 = 1;

/// An identity is a PID, a BCR and a DCR.
const IDENTITY_BITS: u32 = 64;

/// The ninth bit after the address byte, where the winners acknowledge: a round's last bit.
pub(crate) const ADDRESS_ACK: u16 = 73;

/// The bits read of the contenders, and the one that acknowledges the address sent next.
#[derive(Clone, Copy)]
pub(crate) struct Contested {
    pub bits: u64,
    pub acknowledged: bool,
    pub takers: SlotSet,
}

/// Whether each contender is lost by this bit.
fn are_lost(keys: &[(Slot, u64)], cuts: &Cuts, last: u16) -> bool
    ensures { result ≡ list_all (λ e. lost_by cuts.now last e.0) keys.now }
{
    keys.iter().all(|key| cuts.is_lost(key.0, last))
}

/// Whether one of these slots isn't lost by this bit.
fn is_left(slots: &[Slot], cuts: &Cuts, last: u16) -> bool
    ensures { result ≡ list_any (λ s. not (lost_by cuts.now last s)) slots.now }
{
    slots.iter().any(|slot| !cuts.is_lost(*slot, last))
}

/// Whether no device hears the session.
fn nobody_hears(devices: &Devices) -> bool
    ensures silent { IsTrue result → NobodyHears devices.now }
    ensures slots { length devices.now ≡ SLOT_COUNT }
{
    devices.hearers().lowest().is_none()
}

/// The contest of a round: all hearers drive their identities at once. `None` if nobody acknowledges the header.
///
/// Without cuts they contend by the words that the devices keep of each bit, and those with the identity that was read
/// acknowledge the address.
pub(crate) fn read_identity(devices: &Devices, cuts: &Cuts) -> Option<Contested>
    ensures contest { (st : State) → st.devices ≡ devices.now → MatchOption result (AllHearersLost st (lost_by cuts.now 0)) (λ read. IsContest st cuts.now read.bits read.acknowledged) }
    ensures takers { IfSome result (λ read. AreTakers cuts.now devices.now read.bits read.takers) }
    ensures ranged { IfSome result (λ _. HearersAreRanged devices.now) }
    ensures slots { length devices.now ≡ SLOT_COUNT }
{
    if !cuts.is_empty() {
        return read_cut(devices, cuts);
    }
    let Some((bits, takers)) = devices.least_heard() else {
        return None;
    };
    Some(Contested {
        bits,
        acknowledged: true,
        takers,
    })
}

/// The same with cuts: the keys of the hearers contend bit by bit.
// out of line, since most rounds have no cuts; one that nobody hears, as each session's last, makes no room for keys
#[inline(never)]
fn read_cut(devices: &Devices, cuts: &Cuts) -> Option<Contested>
    ensures contest { (st : State) → st.devices ≡ devices.now → MatchOption result (AllHearersLost st (lost_by cuts.now 0)) (λ read. IsContest st cuts.now read.bits read.acknowledged) }
    ensures takers { IfSome result (λ read. AreTakers cuts.now devices.now read.bits read.takers) }
    ensures ranged { IfSome result (λ _. HearersAreRanged devices.now) }
    ensures slots { length devices.now ≡ SLOT_COUNT }
{
    if nobody_hears(devices) {
        return None;
    }
    read_contest(devices, cuts)
}

/// The same with at least one hearer.
fn read_contest(devices: &Devices, cuts: &Cuts) -> Option<Contested>
    ensures contest { (st : State) → st.devices ≡ devices.now → MatchOption result (AllHearersLost st (lost_by cuts.now 0)) (λ read. IsContest st cuts.now read.bits read.acknowledged) }
    ensures takers { IfSome result (λ read. AreTakers cuts.now devices.now read.bits read.takers) }
    ensures ranged { IfSome result (λ _. HearersAreRanged devices.now) }
    ensures slots { length devices.now ≡ SLOT_COUNT }
{
    let mut keys: ArrayVec<(Slot, u64), SLOTS> = ArrayVec::new();
    contend(&mut keys, devices);
    if are_lost(&keys, cuts, HEADER_ACK) {
        return None;
    }
    let outcome = contest(&keys, IDENTITY_BITS, &cuts.counted_from(FIRST_IDENTITY_BIT));
    Some(Contested {
        bits: outcome.bits,
        acknowledged: is_left(&outcome.winners, cuts, ADDRESS_ACK),
        takers: SlotSet::of(&outcome.winners).left(cuts, ADDRESS_ACK),
    })
}
