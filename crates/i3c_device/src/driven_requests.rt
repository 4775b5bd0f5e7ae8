ghost use Rattle.std.specs.Prelude.{◌≡◌, ◌<◌, ◌≤◌, ◌&&◌, ◌==◌, ◌+◌, ◌*◌, ℕ, true, [], length, slice_index};
ghost use Rattle.std.specs.List.{All, Contains};
ghost use Rattle.i3c_base.specs.declared.range.TheConstants.{SLOTS as SLOT_COUNT};
ghost use Rattle.i3c_header.specs.Keys.{address_of, rnw_of};
ghost use Rattle.i3c_device.specs.Driven.{IsDrivenIn};
ghost use Rattle.i3c_device.specs.Sets.{has};
ghost use Rattle.i3c_device.specs.Wishing.{request_of};

use crate::slot_set::SlotSet;
use arrayvec::ArrayVec;
use i3c_base::{Addr7, Request, SLOTS};
use i3c_header::key;

/// Enters the requests of these slots' keys into an empty list, in the order of the slots.
// filled in place, since the list is large to return by value
pub(crate) fn enter_requests(
    requests: &mut ArrayVec<Request, SLOTS>,
    among: SlotSet,
    keys: &[u8; SLOTS],
)
    requires none { requests.old.items ≡ [] }
    ensures sound { All (IsDrivenIn among keys.now) requests.new.items }
    ensures complete { (s : ℕ) → s < SLOT_COUNT → has among s ≡ true → Contains requests.new.items (request_of (slice_index keys.now s)) }
    ensures short { length requests.new.items ≤ SLOT_COUNT }
{
    // for the loop's invariant alone
    let mut passed = 0;
    let mut left = among;
    while let Some(index) = left.take_lowest() {
        requests.push(request_of(keys[index]));
        passed = index + 1;
    }
}

/// Those of these slots whose key is this request's.
pub(crate) fn slots_with(among: SlotSet, keys: &[u8; SLOTS], request: &Request) -> SlotSet
    ensures { (s : ℕ) → s < SLOT_COUNT → has result s ≡ (has among s && slice_index keys.now s == 2 * address_of request.now + rnw_of request.now) }
{
    let driven = key(*request);
    let mut slots = SlotSet::none();
    let mut left = among;
    while let Some(index) = left.take_lowest() {
        slots = slots.with(index, keys[index] == driven);
    }
    slots
}

/// The request with a key.
pub(crate) fn request_of(of: u8) -> Request
    ensures { result ≡ request_of of }
{
    if of == key(Request::Join) {
        return Request::Join;
    }
    let address = Addr7::new(of / 2).unwrap();
    if of % 2 == 0 {
        Request::Role(address)
    } else {
        Request::Interrupt(address)
    }
}
