ghost use Rattle.std.specs.Prelude.{◌≡◌, ◌↔◌, ◌<◌, ℕ, Bool, IsTrue};
ghost use Rattle.i3c_script.specs.Sums.{IsSum};
ghost use Rattle.i3c_base.specs.declared.range.TheConstants.{SLOTS};
ghost use Rattle.std.specs.List.{list_any};
ghost use Rattle.i3c_device.specs.Sets.{has};

use arrayvec::ArrayVec;
use i3c_base::{Fixed, Record, Slot, Verdict};
use i3c_bus::{Bus, SlotSet};
use i3c_lines::{ACCEPT_ALL, EXCEPTED};
use std::alloc::AllocError;

/// Each request is turned down.
const REFUSE_ALL: Fixed = Fixed {
    join: Verdict::Refuse,
    role: Verdict::Refuse,
    interrupt: Verdict::Refuse,
};

/// What a script's lines have set: which requests its frames accept, and how many records have left the log.
#[derive(Drop)]
pub struct Settings {
    /// The kinds of requests that are accepted.
    pub kinds: Fixed,
    /// The slots of excepted devices: a request that one of these drives is turned down all the same.
    pub but: ArrayVec<Slot, EXCEPTED>,
    /// How many records have left the log.
    pub forgotten: usize,
}

impl Settings {
    ghost use Rattle.std.specs.Prelude.{◌≡◌, ◌↔◌, length, IsTrue};
    ghost use Rattle.i3c_script.specs.Accepting.{Accepts, Forgets, at_first};
    ghost use Rattle.i3c_script.specs.Sums.{IsSum};

    /// The settings of a new bus: each request is accepted, and no record has left.
    pub fn new() -> Settings
        ensures { result ≡ at_first }
    {
        Settings {
            kinds: ACCEPT_ALL,
            but: ArrayVec::new(),
            forgotten: 0,
        }
    }

    /// The same once more.
    pub fn copied(&self) -> Settings
        ensures { result ≡ self.now }
    {
        let mut but = ArrayVec::new();
        let Ok(()) = but.try_extend_from_slice(self.but.as_slice()) else {
            unreachable!()
        };
        Settings {
            kinds: self.kinds,
            but,
            forgotten: self.forgotten,
        }
    }

    /// Whether others are the same.
    pub fn is_same(&self, other: &Settings) -> bool
        ensures { IsTrue result ↔ (self.now ≡ other.now) }
    {
        is_same_policy(&self.kinds, &other.kinds)
            && are_same_slots(self.but.as_slice(), other.but.as_slice())
            && self.forgotten == other.forgotten
    }

    /// How many interrupts were recorded: those that left the log, and those that are in it.
    ///
    /// # Errors
    ///
    /// They are more than a `usize` holds.
    pub(crate) fn recorded(&self, records: &[Record]) -> Result<usize, AllocError>
        ensures { IsSum self.now.forgotten (length records.now) result }
    {
        sum_of(self.forgotten, records.len())
    }

    /// Lets the records up to this number leave a bus's log, and counts them.
    pub fn forget(&mut self, bus: &mut Bus, last: usize)
        ensures forgets { Forgets last self.old bus.old.state self.new bus.new.state }
        ensures log { bus.new.state ≡ record bus.old.state { records = bus.new.state.records } }
    {
        let count = last.saturating_sub(self.forgotten).min(bus.records().len());
        bus.forget(count);
        self.forgotten += count;
    }

    /// The kinds of requests that a bus's next frame accepts: none where an excepted device drives the first request.
    pub fn accepted(&self, bus: &Bus) -> Fixed
        ensures { Accepts self.now bus.now.state result }
    {
        if self.but.is_empty() {
            return self.kinds;
        }
        self.accepted_of_some(bus)
    }

    /// The same with excepted devices.
    // kept apart, so that a frame pays for no more than the question whether any is
    #[inline(never)]
    fn accepted_of_some(&self, bus: &Bus) -> Fixed
        ensures { Accepts self.now bus.now.state result }
    {
        match bus.asking() {
            Some((_, askers)) if has_one_of(askers, self.but.as_slice()) => REFUSE_ALL,
            _ => self.kinds,
        }
    }
}

/// The sum of two numbers of records.
///
/// # Errors
///
/// They are more than a `usize` holds.
pub fn sum_of(count: usize, more: usize) -> Result<usize, AllocError>
    ensures { IsSum count more result }
{
    match count.checked_add(more) {
        Some(sum) => Ok(sum),
        None => Err(AllocError),
    }
}

/// Whether two policies accept the same kinds.
fn is_same_policy(policy: &Fixed, other: &Fixed) -> bool
    ensures { IsTrue result ↔ (policy.now ≡ other.now) }
{
    *policy == *other
}

/// Whether the slots are the same in the same order.
fn are_same_slots(slots: &[Slot], others: &[Slot]) -> bool
    ensures { IsTrue result ↔ (slots.now ≡ others.now) }
{
    slots == others
}

/// Whether one of these slots is in a set.
fn has_one_of(set: SlotSet, slots: &[Slot]) -> bool
    ensures { (is_in : ℕ → Bool) → ((slot : ℕ) → slot < SLOTS → has set slot ≡ is_in slot) → result ≡ list_any is_in slots.now }
{
    let Some((first, rest)) = slots.split_first() else {
        return false;
    };
    if is_in(set, *first) {
        return true;
    }
    has_one_of(set, rest)
}

/// Whether a slot is in a set.
fn is_in(set: SlotSet, slot: Slot) -> bool
    ensures same { result ≡ has set slot }
    ensures in_range { slot < SLOTS }
{
    set.contains(slot)
}
