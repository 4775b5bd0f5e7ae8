ghost use Rattle.std.specs.Prelude.{◌≡◌, ◌<◌, ◌==◌, ◌&&◌, ℕ, if◌then◌else◌, replicate, slice_index, slice_set};
ghost use Rattle.i3c_base.specs.declared.range.TheConstants.{ADDRESSES as ADDRESS_COUNT, SLOTS as SLOT_COUNT};
ghost use Rattle.i3c_device.specs.Answering.{AreFound, set_at};
ghost use Rattle.i3c_device.specs.Sets.{has};

use crate::slot_set::SlotSet;
use i3c_base::{ADDRESSES, Addr7, SLOTS};

/// In the place of an address where there is none.
pub(crate) const NOWHERE: u8 = 0xFF;

/// The address of each slot, or `NOWHERE`, and the slots of each address, so that a frame finds its devices without a
/// walk.
#[derive(Clone, Copy)]
pub(crate) struct Answering {
    addresses: [u8; SLOTS],
    // by address, the slots that have it
    slots: [SlotSet; ADDRESSES],
}

impl Answering {
    ghost use Rattle.i3c_device.specs.declared.answering.TheConstants.{NOWHERE as NO_ADDRESS};

    /// No slot has an address.
    #[inline(always)]
    pub(crate) fn new() -> Answering
        ensures none { result.addresses ≡ replicate SLOT_COUNT NO_ADDRESS }
        ensures found { AreFound result }
    {
        Answering {
            addresses: [NOWHERE; SLOTS],
            slots: [SlotSet::none(); ADDRESSES],
        }
    }

    /// A slot has this address from now on, or `NOWHERE`.
    pub(crate) fn set(&mut self, index: usize, address: u8)
        requires { index < SLOT_COUNT }
        ensures set { self.new.addresses ≡ slice_set self.old.addresses index address }
        ensures found { AreFound self.old → AreFound self.new }
    {
        enter(&mut self.slots, self.addresses[index], index, false);
        enter(&mut self.slots, address, index, true);
        self.addresses[index] = address;
    }

    /// The slots that have this address.
    pub(crate) fn at(&self, address: Addr7) -> SlotSet
        requires { AreFound self.now }
        ensures { (s : ℕ) → s < SLOT_COUNT → has result s ≡ (slice_index self.now.addresses s == address) }
    {
        self.slots[address.get() as usize]
    }
}

/// A slot has this address, or has it no more.
fn enter(slots: &mut [SlotSet; ADDRESSES], address: u8, index: usize, has_it: bool)
    requires { index < SLOT_COUNT }
    ensures { (a s : ℕ) → a < ADDRESS_COUNT → s < SLOT_COUNT → has (set_at slots.new a) s ≡ (if a == address && s == index then has_it else has (set_at slots.old a) s) }
{
    let at = address as usize;
    if at < ADDRESSES {
        slots[at] = slots[at].with(index, has_it);
    }
}
