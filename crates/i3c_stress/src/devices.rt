ghost use Rattle.std.specs.Prelude.{◌≡◌, ◌+◌, ◌<◌, ℕ, cond, slice_index, IfOk, IsTrue};
ghost use Rattle.i3c_base.specs.declared.range.TheConstants.{SLOTS};
ghost use Rattle.i3c_stress.specs.Devices.{HasEntered, HasPosted, IsEntrance, is_at, raising};

use crate::report::StressFault;
use i3c_base::{SLOTS, Slot};
use i3c_shared::{Entry, POSTS, Run};
use i3c_step::{Event, Reply};

/// The provisioned ID of the device of slot 0, if there were one. That of each other slot is as much higher as the slot.
pub(crate) const FIRST_PID: u64 = 0x0204_0000_0100;

/// The characteristics of each device: an interrupt has a mandatory byte.
pub(crate) const DEVICE_BCR: u8 = 0x06;

/// The kind of each device.
pub(crate) const DEVICE_DCR: u8 = 0x44;

/// No raise of any slot.
pub(crate) fn no_raises() -> [u64; SLOTS]
    ensures { (slot : ℕ) → slot < SLOTS → slice_index result slot ≡ 0 }
{
    [0; SLOTS]
}

/// The slot whose device raises an interrupt, if this event is one.
pub(crate) fn raising(event: &Event) -> Option<Slot>
    ensures { result ≡ raising event.now }
{
    match event {
        Event::Raise(slot, _) => Some(*slot),
        _ => None,
    }
}

/// Counts one raise more of its slot, if there is one.
pub(crate) fn count_raise(by_slot: &mut [u64; SLOTS], raised: Option<Slot>)
    requires { (slot : ℕ) → slot < SLOTS → slice_index by_slot.old slot < u64.MAX }
    ensures { (slot : ℕ) → slot < SLOTS → slice_index by_slot.new slot ≡ slice_index by_slot.old slot + cond (is_at slot raised) 1 0 }
{
    if let Some(slot) = raised {
        by_slot[slot.index()] += 1;
    }
}

/// Whether each device's slot has as many raises as its tries can have led to, and no other slot has any.
pub(crate) fn have_posted(by_slot: &[u64; SLOTS], devices: u8, posts: u64) -> bool
    ensures { IsTrue result → (slot : ℕ) → slot < SLOTS → HasPosted devices posts slot (slice_index by_slot.now slot) }
{
    for (slot, raises) in by_slot.iter().enumerate() {
        if !has_posted(devices, posts, slot, *raises) {
            return false;
        }
    }
    true
}

/// The same of one slot. A port takes its first eight posts, whatever the others do.
fn has_posted(devices: u8, posts: u64, slot: usize, raises: u64) -> bool
    ensures { IsTrue result → HasPosted devices posts slot raises }
{
    if slot < 1 || usize::from(devices) < slot {
        raises == 0
    } else {
        posts.min(POSTS as u64) <= raises && raises <= posts
    }
}

/// Whether a run begins with the devices' attachments, in the order of their slots.
pub(crate) fn have_entered(run: &Run, devices: u8) -> Result<bool, StressFault>
    ensures { IfOk result (λ so. IsTrue so → (slot : ℕ) → 0 < slot → slot < devices + 1 → HasEntered slot run.now.entries) }
{
    for index in 0..devices {
        match run.get(usize::from(index)) {
            Ok(Some(entry)) => {
                if !is_entrance(u64::from(index) + 1, &entry) {
                    return Ok(false);
                }
            }
            Ok(None) => return Ok(false),
            Err(_) => return Err(StressFault::Memory),
        }
    }
    Ok(true)
}

/// Whether an entry is the accepted attachment of a slot's device.
fn is_entrance(slot: u64, entry: &Entry) -> bool
    requires { slot < 256 }
    ensures { IsTrue result → IsEntrance slot entry.now }
{
    match (&entry.event, &entry.reply) {
        (Event::Attach(at, setup), Reply::Attached) => {
            let identity = setup.identity;
            at.index() as u64 == slot
                && identity.pid.get() == FIRST_PID + slot
                && identity.bcr.0 == DEVICE_BCR
                && identity.dcr.0 == DEVICE_DCR
        }
        _ => false,
    }
}
