ghost use Rattle.std.specs.Prelude.{◌≡◌, ◌==◌, IfSome, Some, is_some, length, not, option_map};
ghost use Rattle.i3c_base.specs.declared.range.TheConstants.{SLOTS};
ghost use Rattle.i3c_base.specs.State.{has_address, in_slot};
ghost use Rattle.i3c_facts.specs.Holding.{are_recorded, begins_with, claim_holds, claims_hold, device_of, fact_holds, is_any_refused, is_asking, is_done, is_line, is_refused, is_same_refusal, is_served, address_about, place_for, slot_of, waiting_below};

use crate::before::{Before, LineResult};
use crate::counting::{are_assigned, records_of, waiting};
use crate::fact::{Fact, ServedAs};
use crate::facts::{Claim, Facts};
use i3c_base::{Addr7, Bytes, Record, Slot};
use i3c_bus::{Bus, Refusal as BusRefusal};
use i3c_lines::{Naming, Place, Refusal};

impl Fact {
    /// Whether it holds of a bus, with this place of its name and this result of the previous line.
    pub fn holds(&self, bus: &Bus, place: Option<Place>, before: &Before) -> bool
        ensures { result ≡ fact_holds bus.now.state place before.now self.now }
    {
        match self {
            Fact::Active(_) => slot_of(place) == Some(bus.active()),
            Fact::At(_, address) => has_address(bus, place, *address),
            Fact::AtAny(_) => has_any_address(bus, place),
            Fact::AtNone(_) => has_no_address(bus, place),
            Fact::Gone(_) => device_slot(bus, place).is_none(),
            Fact::Waiting(_, count) => has_waiting(bus, place, *count),
            Fact::AllWaiting(count) => are_waiting(bus, *count),
            Fact::Records(count) => bus.records().len() == usize::from(*count),
            Fact::Recorded(_, byte, count) => are_recorded(bus.records(), place, *byte, *count),
            Fact::Assigned => are_assigned(bus),
            Fact::Listed => bus.listed(),
            Fact::Open => bus.in_session(),
            Fact::Done => is_done(&before.result),
            Fact::Refused(why) => is_refused(why, &before.result),
            Fact::AnyRefused => is_any_refused(&before.result),
            Fact::Served(way) => is_served(*way, before),
            Fact::Bytes(bytes) => begins_with(bytes, &before.heard.read),
            Fact::Asking(_) => is_asking(bus, place),
        }
    }
}

/// The slot that a name stands for.
pub(crate) fn slot_of(place: Option<Place>) -> Option<Slot>
    ensures { result ≡ slot_of place }
{
    let place = place?;
    match place {
        Place::Slot(slot) => Some(slot),
        Place::Legacy(_) | Place::Gone => None,
    }
}

/// The slot of the device that a name stands for, if it is there.
pub(crate) fn device_slot(bus: &Bus, place: Option<Place>) -> Option<Slot>
    ensures slot { is_some result ≡ is_some (device_of bus.now.state place) }
    ensures same { IfSome result (λ slot. slot_of place ≡ Some slot) }
{
    match slot_of(place) {
        Some(slot) if bus.present(slot) => Some(slot),
        _ => None,
    }
}

/// Whether the device that a name stands for is there, with this address.
fn has_address(bus: &Bus, place: Option<Place>, address: Addr7) -> bool
    ensures { result ≡ in_slot (has_address address) (device_of bus.now.state place) }
{
    match slot_of(place) {
        Some(slot) => bus.address(slot) == Some(address),
        None => false,
    }
}

/// Whether the device of a name is there, with a dynamic address.
fn has_any_address(bus: &Bus, place: Option<Place>) -> bool
    ensures { result ≡ in_slot (λ d. is_some d.address) (device_of bus.now.state place) }
{
    match slot_of(place) {
        Some(slot) => bus.address(slot).is_some(),
        None => false,
    }
}

/// Whether it is there, without an address.
fn has_no_address(bus: &Bus, place: Option<Place>) -> bool
    ensures { result ≡ in_slot (λ d. not (is_some d.address)) (device_of bus.now.state place) }
{
    match slot_of(place) {
        Some(slot) => bus.present(slot) && bus.address(slot).is_none(),
        None => false,
    }
}

/// Whether it is there, with `count` waiting interrupts.
fn has_waiting(bus: &Bus, place: Option<Place>, count: u16) -> bool
    ensures { result ≡ in_slot (λ d. length d.waiting == count) (device_of bus.now.state place) }
{
    match slot_of(place) {
        Some(slot) => bus.present(slot) && bus.waiting(slot) == usize::from(count),
        None => false,
    }
}

/// Whether all devices together have `count` waiting interrupts.
fn are_waiting(bus: &Bus, count: u16) -> bool
    ensures { result ≡ (waiting_below bus.now.state SLOTS == count) }
{
    match waiting(bus) {
        Some(all) => all == usize::from(count),
        None => false,
    }
}

/// Whether the slot of a name has `count` records with this mandatory byte, or with none.
fn are_recorded(records: &[Record], place: Option<Place>, byte: Option<u8>, count: u16) -> bool
    ensures { result ≡ are_recorded records.now (slot_of place) byte count }
{
    match slot_of(place) {
        Some(slot) => records_of(records, slot, byte) == usize::from(count),
        None => false,
    }
}

/// Whether the line before was done.
fn is_done(ended: &LineResult) -> bool
    ensures { result ≡ is_done ended.now }
{
    matches!(ended, LineResult::Done)
}

/// Whether the line before was refused for this reason.
fn is_refused(why: &Refusal, ended: &LineResult) -> bool
    ensures { result ≡ is_refused why.now ended.now }
{
    match ended {
        LineResult::Refused(other) => is_same_refusal(why, other),
        _ => false,
    }
}

/// Whether the line before was refused.
fn is_any_refused(ended: &LineResult) -> bool
    ensures { result ≡ is_any_refused ended.now }
{
    matches!(ended, LineResult::Refused(_))
}

/// Whether there is a line before.
fn is_line(ended: &LineResult) -> bool
    ensures { result ≡ is_line ended.now }
{
    match ended {
        LineResult::Nothing => false,
        LineResult::Done | LineResult::Refused(_) => true,
    }
}

/// Whether the first request of the line before came to this.
fn is_served(way: ServedAs, before: &Before) -> bool
    ensures { result ≡ is_served way before.now }
{
    is_line(&before.result)
        && way.text().as_bytes() == ServedAs::of(&before.heard.served).text().as_bytes()
}

/// Whether bytes that were read begin with these.
fn begins_with(bytes: &Bytes, read: &Option<Bytes>) -> bool
    ensures { result ≡ begins_with bytes.now read.now }
{
    match read {
        Some(read) => is_prefix(bytes.as_slice(), read.as_slice()),
        None => false,
    }
}

/// Whether some bytes are the first of others.
fn is_prefix(bytes: &[u8], all: &[u8]) -> bool
    ensures { result ≡ begins_with bytes.now (Some all.now) }
{
    bytes.len() <= all.len() && bytes == &all[..bytes.len()]
}

/// Whether the device of a name would drive the first request of the next frame (I3C Basic 5.1.6.2).
fn is_asking(bus: &Bus, place: Option<Place>) -> bool
    ensures { result ≡ is_asking bus.now.state (slot_of place) }
{
    match slot_of(place) {
        Some(slot) => asks(bus, slot),
        None => false,
    }
}

/// Whether a slot's device would drive the first request of the next frame.
fn asks(bus: &Bus, slot: Slot) -> bool
    ensures { result ≡ is_asking bus.now.state (Some slot) }
{
    match bus.asking() {
        Some((_, slots)) => slots.contains(slot),
        None => false,
    }
}

/// Whether two refusals are printed the same.
fn is_same_refusal(why: &Refusal, other: &Refusal) -> bool
    ensures { result ≡ is_same_refusal why.now other.now }
{
    why.token().as_bytes() == other.token().as_bytes() && address_about(why) == address_about(other)
}

/// The address that a refusal is about.
fn address_about(why: &Refusal) -> Option<Addr7>
    ensures { result ≡ address_about why.now }
{
    match why {
        Refusal::Bus(BusRefusal::NoAnswer(address) | BusRefusal::BadAddress(address)) => {
            Some(*address)
        }
        _ => None,
    }
}

impl Claim {
    /// Whether it holds of a bus, with this place of its name and this result of the previous line.
    pub fn holds(&self, bus: &Bus, place: Option<Place>, before: &Before) -> bool
        ensures { result ≡ claim_holds bus.now.state place before.now self.now }
    {
        self.fact.holds(bus, place, before) != self.negated
    }
}

/// The place of a fact's name, if it has one that was given.
pub(crate) fn place_for<N: Naming>(naming: &N, fact: &Fact) -> Option<Place>
    ensures { result ≡ place_for (N.kept.place naming.now) fact.now }
{
    match fact.name() {
        Some(name) => naming.place_of(name),
        None => None,
    }
}

impl Facts {
    /// Whether one of its claims holds of a bus, with the places of names and the result of the previous line.
    pub fn hold<N: Naming>(&self, bus: &Bus, naming: &N, before: &Before) -> bool
        ensures { result ≡ claims_hold bus.now.state (N.kept.place naming.now) before.now self.now }
    {
        for index in 0..self.claims.len() {
            let claim = self.claims[index];
            if claim.holds(bus, place_for(naming, &claim.fact), before) {
                return true;
            }
        }
        false
    }
}
