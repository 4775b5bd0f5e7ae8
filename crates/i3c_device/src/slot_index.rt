ghost use Rattle.std.specs.Prelude.{◌≡◌, ◌<◌, ℕ, length, List, None, Option, Some, option_map, slice_index_or, slice_set};
ghost use Rattle.i3c_base.specs.declared.range.TheConstants.{SLOTS as SLOT_COUNT};
ghost use Rattle.i3c_base.specs.Frames.{unaddressed_device};
ghost use Rattle.i3c_base.specs.Round.{hears, unhearing, winner};
ghost use Rattle.i3c_base.specs.declared.device.Waiting.{Waiting as WaitingValue};
ghost use Rattle.i3c_base.specs.State.{Device as DeviceState, in_slot, no_devices};
ghost use Rattle.i3c_device.specs.SlotIndex.{AreMarks, requeued};
ghost use Rattle.i3c_device.specs.Wishing.{wishes_interrupt};

use crate::answering::{Answering, NOWHERE};
use crate::attached::Attached;
use crate::places::{answer_in, hears, key_in, wishes_interrupt, wishes_join, wishes_role};
use crate::slot_set::SlotSet;
use i3c_base::{SLOTS, Slot};
use i3c_wires::BitColumns;

/// What a search over the devices needs of their slots, so that it skips all others.
#[derive(Clone, Copy)]
pub(crate) struct SlotIndex {
    /// The slots that hold a device.
    pub present: SlotSet,
    /// Those whose device wishes to join, and has no address.
    pub joining: SlotSet,
    /// Those whose device wishes for the role, and has an address.
    pub asking: SlotSet,
    /// Those whose device wishes to interrupt, and not for the role, and has an address.
    pub interrupting: SlotSet,
    /// Those whose device hears the open session.
    pub hearing: SlotSet,
    /// Those whose device has no address.
    pub unaddressed: SlotSet,
    /// By slot, the key of the request that its device drives when it drives one.
    pub keys: [u8; SLOTS],
    /// By slot and by address, where its device answers: at its dynamic address, otherwise at its static one.
    pub answering: Answering,
    /// By slot and by bit, the numbers of the identities.
    pub columns: BitColumns,
}

impl SlotIndex {
    /// The marks of empty slots.
    #[inline(always)]
    pub(crate) fn new() -> SlotIndex
        ensures { AreMarks result no_devices }
    {
        SlotIndex {
            present: SlotSet::none(),
            joining: SlotSet::none(),
            asking: SlotSet::none(),
            interrupting: SlotSet::none(),
            hearing: SlotSet::none(),
            unaddressed: SlotSet::none(),
            keys: [0; SLOTS],
            answering: Answering::new(),
            columns: BitColumns::new(),
        }
    }

    /// This is in a slot from now on.
    pub(crate) fn noted(&mut self, index: usize, place: &Option<Attached>)
        requires { index < SLOT_COUNT }
        ensures { (places : List (Option DeviceState)) → length places ≡ SLOT_COUNT → AreMarks self.old places → AreMarks self.new (slice_set places index place.now) }
    {
        match place {
            Some(device) => self.taken(index, device),
            None => self.vacated(index),
        }
    }

    /// A session was opened for the device in a slot.
    pub(crate) fn opened(&mut self, index: usize, place: &Option<Attached>)
        requires { index < SLOT_COUNT }
        ensures { (places : List (Option DeviceState)) → length places ≡ SLOT_COUNT → AreMarks self.old places → place.now ≡ option_map hears (slice_index_or places index None) → AreMarks self.new (slice_set places index place.now) }
    {
        self.hearing = self.hearing.with(index, hears(place));
    }

    /// A session ended for the device in a slot.
    pub(crate) fn ended(&mut self, index: usize, place: &Option<Attached>)
        requires { index < SLOT_COUNT }
        ensures { (places : List (Option DeviceState)) → length places ≡ SLOT_COUNT → AreMarks self.old places → place.now ≡ option_map unhearing (slice_index_or places index None) → AreMarks self.new (slice_set places index place.now) }
    {
        self.hearing = self.hearing.with(index, hears(place));
    }

    /// The device in a slot took an address.
    pub(crate) fn won(&mut self, index: usize, place: &Option<Attached>)
        requires { index < SLOT_COUNT }
        ensures { (places : List (Option DeviceState)) (address : ℕ) → length places ≡ SLOT_COUNT → AreMarks self.old places → place.now ≡ option_map (winner address) (slice_index_or places index None) → AreMarks self.new (slice_set places index place.now) }
    {
        self.joining = self.joining.with(index, false);
        self.asking = self.asking.with(index, wishes_role(place));
        self.interrupting = self.interrupting.with(index, wishes_interrupt(place));
        self.hearing = self.hearing.with(index, false);
        self.unaddressed = self.unaddressed.with(index, false);
        // last, since the compiler reads the place anew after a write at an index that it doesn't know
        self.keys[index] = key_in(place);
        self.answering.set(index, answer_in(place));
    }

    /// The device in a slot lost its address.
    pub(crate) fn reset(&mut self, index: usize, place: &Option<Attached>)
        requires { index < SLOT_COUNT }
        ensures { (places : List (Option DeviceState)) → length places ≡ SLOT_COUNT → AreMarks self.old places → place.now ≡ option_map unaddressed_device (slice_index_or places index None) → AreMarks self.new (slice_set places index place.now) }
    {
        self.joining = self.joining.with(index, wishes_join(place));
        self.asking = self.asking.with(index, false);
        self.interrupting = self.interrupting.with(index, false);
        self.unaddressed = self.unaddressed.with(index, place.is_some());
        // last, since the compiler reads the place anew after a write at an index that it doesn't know
        self.keys[index] = key_in(place);
        self.answering.set(index, answer_in(place));
    }

    /// The device in a slot has other interrupts waiting, and wishes to interrupt or doesn't.
    pub(crate) fn queued(&mut self, index: usize, interrupts: bool)
        requires { index < SLOT_COUNT }
        ensures { (places : List (Option DeviceState)) (place : Option DeviceState) (queue : DeviceState → List WaitingValue) → length places ≡ SLOT_COUNT → AreMarks self.old places → place ≡ option_map (requeued queue) (slice_index_or places index None)
            → interrupts ≡ in_slot wishes_interrupt place → AreMarks self.new (slice_set places index place) }
    {
        self.interrupting = self.interrupting.with(index, interrupts);
    }

    /// This device is in a slot from now on.
    fn taken(&mut self, index: usize, device: &Attached)
        requires { index < SLOT_COUNT }
        ensures { (places : List (Option DeviceState)) → length places ≡ SLOT_COUNT → AreMarks self.old places → AreMarks self.new (slice_set places index (Some device.now)) }
    {
        self.keys[index] = device.key();
        self.answering.set(index, device.answer());
        self.columns
            .set(Slot::from_index(index), device.identity().number());
        self.present = self.present.with(index, true);
        self.joining = self.joining.with(index, device.wishes_join());
        self.asking = self.asking.with(index, device.wishes_role());
        self.interrupting = self.interrupting.with(index, device.wishes_interrupt());
        self.hearing = self.hearing.with(index, device.is_hearing());
        self.unaddressed = self.unaddressed.with(index, device.is_unaddressed());
    }

    /// A slot is empty from now on.
    fn vacated(&mut self, index: usize)
        requires { index < SLOT_COUNT }
        ensures { (places : List (Option DeviceState)) → length places ≡ SLOT_COUNT → AreMarks self.old places → AreMarks self.new (slice_set places index None) }
    {
        self.keys[index] = 0;
        self.answering.set(index, NOWHERE);
        self.present = self.present.with(index, false);
        self.joining = self.joining.with(index, false);
        self.asking = self.asking.with(index, false);
        self.interrupting = self.interrupting.with(index, false);
        self.hearing = self.hearing.with(index, false);
        self.unaddressed = self.unaddressed.with(index, false);
    }
}
