ghost use Rattle.std.specs.Prelude.{◌≡◌, ◌≤◌, ◌<◌, ℕ, Bool, List, Option, None, false, length, option_map, slice_index, slice_index_or, slice_set};
ghost use Rattle.i3c_base.specs.declared.device.TheConstants.{REGISTERS as REGISTER_COUNT};
ghost use Rattle.i3c_base.specs.declared.range.TheConstants.{SLOTS as SLOT_COUNT};
ghost use Rattle.i3c_base.specs.Frames.{limited, readdressed, told_bytes, unaddressed_device, written_at};
ghost use Rattle.i3c_base.specs.Round.{hears, unhearing, winner};
ghost use Rattle.i3c_base.specs.Serve.{without_front, without_role};
ghost use Rattle.i3c_base.specs.State.{Device as DeviceState};
ghost use Rattle.i3c_base.specs.Local.{wishing_join, wishing_role};
ghost use Rattle.std.specs.Option.{ForSome};
ghost use Rattle.i3c_device.specs.Hearing.{set_length, set_new, set_static};
ghost use Rattle.i3c_device.specs.SlotIndex.{AreMarks};
ghost use Rattle.i3c_device.specs.declared.attached.TheConstants.{LONGEST};
ghost use Rattle.i3c_device.specs.Reading.{registers_of};
ghost use Rattle.i3c_device.specs.Walks.{taken_from, willing_at};

use crate::attached::Attached;
use crate::places::{
    accept, has_role_wish, is_willing, limit, lose_front, lose_role_wish, open, reaches, readdress,
    reset, set_length, set_new, set_static, silence, win, wish_join, wish_role, wishes_interrupt,
    write,
};
use crate::slot_index::SlotIndex;
use i3c_base::{Addr7, Datum, Direction, Length, Request, Slot};

/// A change of the devices in some slots.
pub(crate) trait SlotUpdate {
    /// The device in a slot after it.
    ghost after: { Self → ℕ → Option DeviceState → Option DeviceState };

    /// Whether it may change the device in this slot.
    fn concerns(&self, place: &Option<Attached>, index: usize) -> bool
        ensures { result ≡ false → after self.now index place.now ≡ place.now };

    /// Changes what is in this slot.
    fn apply(&self, place: &mut Option<Attached>, index: usize)
        ensures { place.new ≡ after self.now index place.old };

    /// Updates the marks after this change in this slot: all that is marked of the slot is marked anew, unless less has
    /// changed.
    fn noted(&self, marks: &mut SlotIndex, index: usize, place: &Option<Attached>)
        requires { index < SLOT_COUNT }
        ensures { (places : List (Option DeviceState)) → length places ≡ SLOT_COUNT → AreMarks marks.old places → place.now ≡ after self.now index (slice_index_or places index None) → AreMarks marks.new (slice_set places index place.now) }
    {
        marks.noted(index, place);
    }
}

/// Applies an update to a slot that it concerns, and notes it in the marks.
#[inline(always)]
pub(crate) fn update_in<H: SlotUpdate>(
    update: &H,
    index: usize,
    place: &mut Option<Attached>,
    marks: &mut SlotIndex,
)
    requires { index < SLOT_COUNT }
    ensures changed { place.new ≡ H.after update.now index place.old }
    ensures marked { (places : List (Option DeviceState)) → length places ≡ SLOT_COUNT → AreMarks marks.old places → slice_index_or places index None ≡ place.old → AreMarks marks.new (slice_set places index place.new) }
{
    if update.concerns(place, index) {
        update.apply(place, index);
        update.noted(marks, index, place);
    }
}

/// This request was accepted, which is driven here.
#[derive(Drop)]
pub(crate) struct Accepted<'a> {
    pub request: &'a Request,
}

impl SlotUpdate for Accepted<'_> {
    ghost after = { λ h s place. taken_from h.request.now place };

    fn concerns(&self, _place: &Option<Attached>, _index: usize) -> bool {
        true
    }

    fn apply(&self, place: &mut Option<Attached>, _index: usize) {
        accept(place, self.request);
    }
}

/// An interrupt was accepted, which is driven here.
#[derive(Drop)]
pub(crate) struct InterruptAccepted;

impl SlotUpdate for InterruptAccepted {
    ghost after = { λ h s place. option_map without_front place };

    fn concerns(&self, _place: &Option<Attached>, _index: usize) -> bool {
        true
    }

    fn apply(&self, place: &mut Option<Attached>, _index: usize) {
        lose_front(place);
    }

    fn noted(&self, marks: &mut SlotIndex, index: usize, place: &Option<Attached>) {
        marks.queued(index, wishes_interrupt(place));
    }
}

/// The device wishes to join.
#[derive(Drop)]
pub(crate) struct JoinWished;

impl SlotUpdate for JoinWished {
    ghost after = { λ h s place. option_map wishing_join place };

    fn concerns(&self, _place: &Option<Attached>, _index: usize) -> bool {
        true
    }

    fn apply(&self, place: &mut Option<Attached>, _index: usize) {
        wish_join(place);
    }
}

/// The device wishes for the controller role.
#[derive(Drop)]
pub(crate) struct RoleWished;

impl SlotUpdate for RoleWished {
    ghost after = { λ h s place. option_map wishing_role place };

    fn concerns(&self, _place: &Option<Attached>, _index: usize) -> bool {
        true
    }

    fn apply(&self, place: &mut Option<Attached>, _index: usize) {
        wish_role(place);
    }
}

/// The device loses its wish for the role.
#[derive(Drop)]
pub(crate) struct RoleLost;

impl SlotUpdate for RoleLost {
    ghost after = { λ h s place. option_map without_role place };

    // as a rule no device wishes so, and there is nothing to mark
    fn concerns(&self, place: &Option<Attached>, _index: usize) -> bool {
        has_role_wish(place)
    }

    fn apply(&self, place: &mut Option<Attached>, _index: usize) {
        lose_role_wish(place);
    }
}

/// All dynamic addresses are reset.
#[derive(Drop)]
pub(crate) struct Reset;

impl SlotUpdate for Reset {
    ghost after = { λ h s place. option_map unaddressed_device place };

    fn concerns(&self, _place: &Option<Attached>, _index: usize) -> bool {
        true
    }

    fn apply(&self, place: &mut Option<Attached>, _index: usize) {
        reset(place);
    }

    fn noted(&self, marks: &mut SlotIndex, index: usize, place: &Option<Attached>) {
        marks.reset(index, place);
    }
}

/// A session is opened.
#[derive(Drop)]
pub(crate) struct Opened;

impl SlotUpdate for Opened {
    ghost after = { λ h s place. option_map hears place };

    fn concerns(&self, _place: &Option<Attached>, _index: usize) -> bool {
        true
    }

    fn apply(&self, place: &mut Option<Attached>, _index: usize) {
        open(place);
    }

    fn noted(&self, marks: &mut SlotIndex, index: usize, place: &Option<Attached>) {
        marks.opened(index, place);
    }
}

/// A session ends.
#[derive(Drop)]
pub(crate) struct Ended;

impl SlotUpdate for Ended {
    ghost after = { λ h s place. option_map unhearing place };

    fn concerns(&self, _place: &Option<Attached>, _index: usize) -> bool {
        true
    }

    fn apply(&self, place: &mut Option<Attached>, _index: usize) {
        silence(place);
    }

    fn noted(&self, marks: &mut SlotIndex, index: usize, place: &Option<Attached>) {
        marks.ended(index, place);
    }
}

/// The device takes this address, which it won in a round or was set. No dynamic address is below `08`.
#[derive(Drop)]
pub(crate) struct Won {
    pub address: Addr7,
    ghost dynamic: { 8 ≤ address },
}

impl SlotUpdate for Won {
    ghost after = { λ h s place. option_map (winner h.address) place };

    fn concerns(&self, _place: &Option<Attached>, _index: usize) -> bool {
        true
    }

    fn apply(&self, place: &mut Option<Attached>, _index: usize) {
        win(place, self.address);
    }

    fn noted(&self, marks: &mut SlotIndex, index: usize, place: &Option<Attached>) {
        marks.won(index, place);
    }
}

/// The device has another dynamic address. None is below `08`.
#[derive(Drop)]
pub(crate) struct Readdressed {
    pub address: Addr7,
    ghost dynamic: { 8 ≤ address },
}

impl SlotUpdate for Readdressed {
    ghost after = { λ h s place. option_map (readdressed h.address) place };

    fn concerns(&self, _place: &Option<Attached>, _index: usize) -> bool {
        true
    }

    fn apply(&self, place: &mut Option<Attached>, _index: usize) {
        readdress(place, self.address);
    }
}

/// This maximum length was set.
#[derive(Drop)]
pub(crate) struct Limited {
    pub way: Direction,
    pub most: Length,
}

impl SlotUpdate for Limited {
    ghost after = { λ h s place. option_map (limited h.way h.most) place };

    fn concerns(&self, _place: &Option<Attached>, _index: usize) -> bool {
        true
    }

    fn apply(&self, place: &mut Option<Attached>, _index: usize) {
        limit(place, self.way, self.most);
    }
}

/// The words of SETDASA were heard, which name this address, if they do. No dynamic address is below `08`.
#[derive(Drop)]
pub(crate) struct StaticHeard {
    pub address: Option<Addr7>,
    ghost dynamic: { ForSome address (λ a. 8 ≤ a) },
}

impl SlotUpdate for StaticHeard {
    ghost after = { λ h s place. option_map (set_static h.address) place };

    fn concerns(&self, _place: &Option<Attached>, _index: usize) -> bool {
        true
    }

    fn apply(&self, place: &mut Option<Attached>, _index: usize) {
        set_static(place, self.address);
    }
}

/// The words of SETNEWDA were heard, which name this address, if they do. No dynamic address is below `08`.
#[derive(Drop)]
pub(crate) struct NewHeard {
    pub address: Option<Addr7>,
    ghost dynamic: { ForSome address (λ a. 8 ≤ a) },
}

impl SlotUpdate for NewHeard {
    ghost after = { λ h s place. option_map (set_new h.address) place };

    fn concerns(&self, _place: &Option<Attached>, _index: usize) -> bool {
        true
    }

    fn apply(&self, place: &mut Option<Attached>, _index: usize) {
        set_new(place, self.address);
    }
}

/// The words of SETMWL or SETMRL were heard, which name this length, if they do.
#[derive(Drop)]
pub(crate) struct LengthHeard {
    pub way: Direction,
    pub most: Option<Length>,
}

impl SlotUpdate for LengthHeard {
    ghost after = { λ h s place. option_map (set_length h.way h.most) place };

    fn concerns(&self, _place: &Option<Attached>, _index: usize) -> bool {
        true
    }

    fn apply(&self, place: &mut Option<Attached>, _index: usize) {
        set_length(place, self.way, self.most);
    }
}

/// These bytes were written to this address.
#[derive(Drop)]
pub(crate) struct Written<'a> {
    pub active: Slot,
    pub address: Addr7,
    pub bytes: &'a [u8],
    ghost fitting: { length bytes.now ≤ REGISTER_COUNT },
}

impl SlotUpdate for Written<'_> {
    ghost after = { λ h s place. option_map (written_at h.active h.address h.bytes.now s) place };

    fn concerns(&self, place: &Option<Attached>, index: usize) -> bool {
        reaches(place, index, self.active, &Some(self.address))
    }

    fn apply(&self, place: &mut Option<Attached>, index: usize) {
        write(place, index, self.active, self.address, self.bytes);
    }
}

/// The device loses its power.
#[derive(Drop)]
pub(crate) struct Lost;

impl SlotUpdate for Lost {
    ghost after = { λ h s place. None };

    fn concerns(&self, _place: &Option<Attached>, _index: usize) -> bool {
        true
    }

    fn apply(&self, place: &mut Option<Attached>, _index: usize) {
        *place = None;
    }
}

/// What is looked for in some slots.
pub(crate) trait Sought {
    /// Whether it is in a slot.
    ghost finds: { Self → ℕ → Option DeviceState → Bool };

    /// Whether it is in this slot.
    fn is_found(&self, place: &Option<Attached>, index: usize) -> bool
        ensures { result ≡ finds self.now index place.now };
}

/// A device that would take the role at this address.
#[derive(Drop)]
pub(crate) struct Willing {
    pub active: Slot,
    pub address: Addr7,
}

impl Sought for Willing {
    ghost finds = { λ d s place. willing_at d.active d.address s place };

    fn is_found(&self, place: &Option<Attached>, index: usize) -> bool {
        is_willing(place, index, self.active, self.address)
    }
}

/// What devices drive while they are read.
pub(crate) trait Driven {
    /// How many bytes each drives.
    ghost count: { ℕ };

    /// The bytes that a device drives.
    ghost bytes: { Self → DeviceState → List ℕ };

    /// One of these bytes.
    fn byte(&self, device: &Attached, index: usize) -> u8
        requires { index < count }
        ensures { result ≡ slice_index (bytes self.now device.now) index };
}

/// Their registers, as in a private read.
#[derive(Drop)]
pub(crate) struct Registers;

impl Driven for Registers {
    ghost count = { REGISTER_COUNT };

    ghost bytes = { λ r d. registers_of d };

    fn byte(&self, device: &Attached, index: usize) -> u8 {
        device.registers()[index]
    }
}

/// A datum that they are asked for, with 00 behind it.
#[derive(Drop)]
pub(crate) struct Told {
    pub what: Datum,
}

impl Driven for Told {
    ghost count = { LONGEST };

    ghost bytes = { λ t d. told_bytes t.what d };

    fn byte(&self, device: &Attached, index: usize) -> u8 {
        device.told(self.what)[index]
    }
}
