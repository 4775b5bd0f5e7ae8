ghost use Rattle.std.specs.Prelude.{◌≡◌, ◌↔◌, IfSome, IsTrue, ◌≤◌, ◌<◌, ◌+◌, ◌^◌, ◌&&◌, ℕ, suc, true, false, Some, None, option_map, length, bit_and, slice_index, is_none, is_some, MatchResult, OnErr, OnOk};
ghost use Rattle.i3c_base.specs.declared.device.TheConstants.{REGISTERS as REGISTER_COUNT};
ghost use Rattle.i3c_base.specs.declared.range.TheConstants.{SLOTS as SLOT_COUNT};
ghost use Rattle.i3c_base.specs.Frames.{limited, readdressed, unaddressed_device, reaches_at, written_at};
ghost use Rattle.i3c_base.specs.Round.{hears, unhearing, winner};
ghost use Rattle.i3c_base.specs.Serve.{without_front, without_role};
ghost use Rattle.i3c_base.specs.State.{Device as DeviceState, in_slot};
ghost use Rattle.i3c_base.specs.Local.{with_raise, wishing_join, wishing_role};
ghost use Rattle.i3c_device.specs.Addressing.{IsDynamicIn};
ghost use Rattle.i3c_device.specs.Hearing.{set_length, set_new, set_static};
ghost use Rattle.i3c_device.specs.Holding.{length_in, address_in, byte_in, front_in, identity_in, waiting_in};
ghost use Rattle.i3c_device.specs.SlotIndex.{answer_in, key_in, requeued};
ghost use Rattle.i3c_device.specs.Raising.{interrupting_if, next_fault};
ghost use Rattle.i3c_device.specs.Reading.{IsByteFrom, IsDrivenFrom};
ghost use Rattle.i3c_device.specs.Walks.{taken_from, willing_at};
ghost use Rattle.i3c_device.specs.Wishing.{wishes_interrupt, wishes_join, wishes_role};

use crate::answering::NOWHERE;
use crate::attached::Attached;
use crate::slot_update::Driven;
use i3c_base::{
    Addr7, Direction, Identity, Length, REGISTERS, RaiseRefusal, Request, Slot, Waiting,
};

/// The device here becomes this one, if the two differ only in what waits. Answers whether it does.
pub(crate) fn requeue(place: &mut Option<Attached>, device: &Attached) -> bool
    ensures put { IsTrue result → place.new ≡ Some device.now }
    ensures requeued { IsTrue result → place.new ≡ option_map (requeued (λ _. device.now.waiting)) place.old }
    ensures kept { result ≡ false → place.new ≡ place.old }
{
    match place {
        Some(held) if held.is_same_but_for_waiting(device) => {
            held.copy_waiting(device);
            true
        }
        _ => false,
    }
}

/// One place becomes the same as another.
pub(crate) fn copy_from(place: &mut Option<Attached>, other: &Option<Attached>)
    ensures { place.new ≡ other.now }
{
    let Some(twin) = other else {
        if place.is_some() {
            vacate(place);
        }
        return;
    };
    match place {
        Some(device) => device.copy_from(twin),
        None => fill(place, twin),
    }
}

/// The place is empty from now on. A function of its own, since a whole place is cleared for it.
#[inline(never)]
fn vacate(place: &mut Option<Attached>)
    ensures { place.new ≡ None }
{
    *place = None;
}

/// The place holds the same device as the other. A function of its own, since a whole device is cleared for it.
#[inline(never)]
fn fill(place: &mut Option<Attached>, twin: &Attached)
    ensures { place.new ≡ Some twin.now }
{
    *place = Some(twin.copied());
}

/// Each of some places becomes the same as the other one.
pub(crate) fn copy_all(places: &mut [Option<Attached>], others: &[Option<Attached>])
    requires { length places.old ≡ length others.now }
    ensures { places.new ≡ others.now }
{
    let Some((first, rest)) = places.split_first_mut() else {
        return;
    };
    let Some((other, more)) = others.split_first() else {
        unreachable!()
    };
    copy_from(first, other);
    copy_all(rest, more);
}

/// What the device here is, if there is one.
pub(crate) fn identity_in(place: &Option<Attached>) -> Option<Identity>
    ensures { result ≡ identity_in place.now }
{
    match place {
        Some(device) => Some(device.identity()),
        None => None,
    }
}

/// The dynamic address of the device here, if there is one and it has one.
pub(crate) fn address_in(place: &Option<Attached>) -> Option<Addr7>
    ensures { result ≡ address_in place.now }
{
    match place {
        Some(device) => device.address(),
        None => None,
    }
}

/// A number that equal queues have in common, of the interrupts of the device here.
pub(crate) fn queue_key(place: &Option<Attached>) -> u64 {
    match place {
        Some(device) => device.queue_key(),
        None => 0,
    }
}

/// How many interrupts of the device here wait.
pub(crate) fn waiting_in(place: &Option<Attached>) -> usize
    ensures { result ≡ waiting_in place.now }
{
    match place {
        Some(device) => device.waiting(),
        None => 0,
    }
}

/// The interrupt that waits at the front of the device here.
pub(crate) fn front_in(place: &Option<Attached>) -> Option<Waiting>
    ensures { result ≡ front_in place.now }
{
    match place {
        Some(device) => device.front(),
        None => None,
    }
}

/// The mandatory byte that the device here answers with.
pub(crate) fn byte_in(place: &Option<Attached>) -> Option<u8>
    ensures { result ≡ byte_in place.now }
{
    match place {
        Some(device) => device.answer_byte(),
        None => None,
    }
}

/// The device here, if there is one, wishes to join.
pub(crate) fn wish_join(place: &mut Option<Attached>)
    ensures { place.new ≡ option_map wishing_join place.old }
{
    if let Some(device) = place {
        device.wish_join();
    }
}

/// The device here, if there is one, wishes for the controller role.
pub(crate) fn wish_role(place: &mut Option<Attached>)
    ensures { place.new ≡ option_map wishing_role place.old }
{
    if let Some(device) = place {
        device.wish_role();
    }
}

/// The device here, if there is one, loses its wish for the role.
pub(crate) fn lose_role_wish(place: &mut Option<Attached>)
    ensures { place.new ≡ option_map without_role place.old }
{
    if let Some(device) = place {
        device.lose_role_wish();
    }
}

/// The device here, if there is one, loses the front of its waiting interrupts.
pub(crate) fn lose_front(place: &mut Option<Attached>)
    ensures { place.new ≡ option_map without_front place.old }
{
    if let Some(device) = place {
        device.lose_front();
    }
}

/// The device here raises the interrupt after this many of its slot, and answers its number, if its interrupts are
/// enabled. The first fault refuses it, and changes nothing.
pub(crate) fn raise(
    place: &mut Option<Attached>,
    raised: u64,
    byte: Option<u8>,
    enabled: bool,
) -> Result<u64, RaiseRefusal>
    requires { is_some place.old ≡ true }
    ensures fault { (d : DeviceState) → place.old ≡ Some d → MatchResult result (λ number. (number ≡ suc raised) × (next_fault (interrupting_if enabled d) byte raised ≡ None)) (λ fault. next_fault (interrupting_if enabled d) byte raised ≡ Some fault) }
    ensures raised { OnOk result (place.new ≡ option_map (with_raise (suc raised) byte) place.old) }
    ensures unchanged { OnErr result (place.new ≡ place.old) }
{
    let Some(device) = place else { unreachable!() };
    device.raise(raised, byte, enabled)
}

/// This request was accepted, which the device here drives: it loses the wish or the front.
pub(crate) fn accept(place: &mut Option<Attached>, request: &Request)
    ensures { place.new ≡ taken_from request.now place.old }
{
    let Some(device) = place else {
        return;
    };
    match request {
        Request::Join => device.lose_join_wish(),
        Request::Role(_) => device.lose_role_wish(),
        Request::Interrupt(_) => device.lose_front(),
    }
}

/// Whether a command reaches the device in this slot.
pub(crate) fn reaches(
    place: &Option<Attached>,
    index: usize,
    active: Slot,
    to: &Option<Addr7>,
) -> bool
    ensures { result ≡ in_slot (reaches_at active to.now index) place.now }
{
    let Some(device) = place else {
        return false;
    };
    if index == active.index() {
        return false;
    }
    match to {
        Some(at) => device.is_at(*at),
        None => true,
    }
}

/// The device in this slot takes a private write of these bytes, if it is at this address.
pub(crate) fn write(
    place: &mut Option<Attached>,
    index: usize,
    active: Slot,
    address: Addr7,
    bytes: &[u8],
)
    requires { length bytes.now ≤ REGISTER_COUNT }
    ensures { place.new ≡ option_map (written_at active address bytes.now index) place.old }
{
    if reaches(place, index, active, &Some(address)) {
        if let Some(device) = place {
            device.write(bytes);
        }
    }
}

/// A byte as it is driven from this bit of a frame on, by a device that may be cut: ones from its cut on.
fn driven_from(own: u8, cut: Option<u16>, at: u16) -> u8
    ensures { IsDrivenFrom own cut at result }
{
    let Some(bit) = cut else {
        return own;
    };
    if bit <= at {
        return u8::MAX;
    }
    let whole = bit - at;
    if whole < u8::BITS as u16 {
        own | (u8::MAX >> whole)
    } else {
        own
    }
}

/// The byte with this index of those that a slot's device drives, as it is on the wire from bit `at` of a frame on: ones
/// from the device's cut on, and all ones without a device.
pub(crate) fn byte_from<D: Driven>(
    driven: &D,
    place: &Option<Attached>,
    index: usize,
    cut: Option<u16>,
    at: u16,
) -> u8
    requires { index < D.count }
    ensures { IsByteFrom (D.bytes driven.now) place.now index cut at result }
{
    match place {
        Some(device) => driven_from(driven.byte(device, index), cut, at),
        None => u8::MAX,
    }
}

/// The bits that are 0 in a device's registers are pulled low in these.
pub(crate) fn pull_low(bytes: &mut [u8; REGISTERS], device: &Attached)
    ensures long { length bytes.new ≡ REGISTER_COUNT }
    ensures each { (k : ℕ) → k < REGISTER_COUNT → slice_index bytes.new k ≡ bit_and (slice_index bytes.old k) (slice_index device.now.registers k) }
{
    let registers = device.registers();
    for index in 0..REGISTERS {
        bytes[index] &= registers[index];
    }
}

/// Whether the device in this slot would take the role that is offered to this address.
pub(crate) fn is_willing(
    place: &Option<Attached>,
    index: usize,
    active: Slot,
    address: Addr7,
) -> bool
    ensures { result ≡ willing_at active address index place.now }
{
    match place {
        Some(device) => reaches(place, index, active, &Some(address)) && device.is_willing(),
        None => false,
    }
}

/// A session is opened: the device here hears it if it has no address.
pub(crate) fn open(place: &mut Option<Attached>)
    ensures { place.new ≡ option_map hears place.old }
{
    if let Some(device) = place {
        device.hear_opening();
    }
}

/// All dynamic addresses are reset: the device here has none any more.
pub(crate) fn reset(place: &mut Option<Attached>)
    ensures { place.new ≡ option_map unaddressed_device place.old }
{
    if let Some(device) = place {
        device.lose_address();
    }
}

/// A session ends: the device here hears no more.
pub(crate) fn silence(place: &mut Option<Attached>)
    ensures { place.new ≡ option_map unhearing place.old }
{
    if let Some(device) = place {
        device.fall_silent();
    }
}

/// Whether a device in this slot hears the open session.
pub(crate) fn hears(place: &Option<Attached>) -> bool
    ensures { result ≡ in_slot (λ d. d.hearing) place.now }
{
    match place {
        Some(device) => device.is_hearing(),
        None => false,
    }
}

/// Whether a device in this slot wishes to interrupt, and not for the role, and has an address.
pub(crate) fn wishes_interrupt(place: &Option<Attached>) -> bool
    ensures { result ≡ in_slot wishes_interrupt place.now }
{
    match place {
        Some(device) => device.wishes_interrupt(),
        None => false,
    }
}

/// Whether a device in this slot wishes for the role, and has an address.
pub(crate) fn wishes_role(place: &Option<Attached>) -> bool
    ensures { result ≡ in_slot wishes_role place.now }
{
    match place {
        Some(device) => device.wishes_role(),
        None => false,
    }
}

/// Whether a device in this slot wishes for the role, with an address or without one.
pub(crate) fn has_role_wish(place: &Option<Attached>) -> bool
    ensures { result ≡ in_slot (λ d. d.role_wish) place.now }
{
    match place {
        Some(device) => device.has_role_wish(),
        None => false,
    }
}

/// Whether a device in this slot wishes to join, and has no address.
pub(crate) fn wishes_join(place: &Option<Attached>) -> bool
    ensures { result ≡ in_slot wishes_join place.now }
{
    match place {
        Some(device) => device.wishes_join(),
        None => false,
    }
}

/// The key of the request that the device here drives when it drives one.
pub(crate) fn key_in(place: &Option<Attached>) -> u8
    ensures key { result ≡ key_in place.now }
    ensures dynamic { IsDynamicIn place.now }
{
    match place {
        Some(device) => device.key(),
        None => 0,
    }
}

/// The address at which the device here answers, if there is one and it answers anywhere.
pub(crate) fn answer_in(place: &Option<Attached>) -> u8
    ensures { result ≡ answer_in place.now }
{
    match place {
        Some(device) => device.answer(),
        None => NOWHERE,
    }
}

/// A maximum length is set: the device here has it.
pub(crate) fn limit(place: &mut Option<Attached>, way: Direction, most: Length)
    ensures { place.new ≡ option_map (limited way most) place.old }
{
    if let Some(device) = place {
        device.limit(way, most);
    }
}

/// SETMWL or SETMRL: the device here, if there is one, has this maximum length, where one is named.
pub(crate) fn set_length(place: &mut Option<Attached>, way: Direction, most: Option<Length>)
    ensures { place.new ≡ option_map (set_length way most) place.old }
{
    if let Some(device) = place {
        device.set_length(way, most);
    }
}

/// SETDASA: the device here, if there is one, takes this address, where one is named.
pub(crate) fn set_static(place: &mut Option<Attached>, address: Option<Addr7>)
    requires { IfSome address (λ a. 8 ≤ a) }
    ensures { place.new ≡ option_map (set_static address) place.old }
{
    if let Some(device) = place {
        device.set_static(address);
    }
}

/// SETNEWDA: the device here, if there is one, has this address, where one is named.
pub(crate) fn set_new(place: &mut Option<Attached>, address: Option<Addr7>)
    requires { IfSome address (λ a. 8 ≤ a) }
    ensures { place.new ≡ option_map (set_new address) place.old }
{
    if let Some(device) = place {
        device.set_new(address);
    }
}

/// The maximum length of the device here; 16 where there is none.
pub(crate) fn length_in(place: &Option<Attached>, way: Direction) -> Length
    ensures { result ≡ length_in way place.now }
{
    match place {
        Some(device) => device.length(way),
        None => Length::most(),
    }
}

/// The device here, if there is one, has another dynamic address.
pub(crate) fn readdress(place: &mut Option<Attached>, address: Addr7)
    requires { 8 ≤ address }
    ensures { place.new ≡ option_map (readdressed address) place.old }
{
    if let Some(device) = place {
        device.readdress(address);
    }
}

/// The device here, if there is one, takes this address.
pub(crate) fn win(place: &mut Option<Attached>, address: Addr7)
    requires { 8 ≤ address }
    ensures { place.new ≡ option_map (winner address) place.old }
{
    if let Some(device) = place {
        device.take_address(address);
    }
}
