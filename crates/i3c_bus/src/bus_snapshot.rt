ghost use Rattle.std.specs.Prelude.{◌≡◌, ◌≤◌, ◌↔◌, IfOk, IsTrue, MatchOption, OnErr, OnOk, length, vec_capacity};
ghost use Rattle.i3c_table.specs.Room.{HasRoom};

use crate::bus::Bus;
use crate::hand::Hand;
use crate::raises::Raises;
use i3c_base::{Record, Slot};
use i3c_deftgts::List;
use i3c_device::{Devices, Resting};
use i3c_handoff::{Active, retire};
use i3c_legacy::{LegacyTargets, RestingTargets};
use i3c_step::OutOfMemory;
use i3c_table::{RestingTable, Table};
use i3c_word::WORD_BITS;
use std::alloc::{AllocError, Global};
use std::marker::Model;
use std::mem;

/// Of how many of the last records the slots and bytes are hashed.
const HASHED: usize = 8;

/// For how many more records a copy has room, so that it is refilled and not made anew where the log has grown.
const SPARE: usize = 4;

/// A bus at rest. Nobody has its role in hand, so it can be dropped, and it can be woken more than once.
///
/// Clauses see the state of the bus.
#[derive(Drop)]
pub struct BusSnapshot {
    devices: Resting,
    raised: Raises,
    active: Slot,
    // the list, if it is current, has the same entries: so it isn't kept
    table: RestingTable,
    legacy: RestingTargets,
    in_session: bool,
    records: Vec<Record>,
}

impl Model for BusSnapshot {
    ghost use Rattle.i3c_base.specs.State.{State};
    ghost use Rattle.i3c_bus.specs.Parts.{state_of};
    ghost use Rattle.i3c_bus.specs.Whole.{IsCovered};

    ghost Value = { State };

    ghost view = { λ s. state_of s.devices s.raised s.active s.table s.legacy s.in_session s.records.items };

    ghost invariant = { λ s. IsCovered (state_of s.devices s.raised s.active s.table s.legacy s.in_session s.records.items) s.table };
}

impl Bus {
    ghost use Rattle.i3c_bus.specs.Hands.{HandFits};

    /// The bus at rest. It takes the role or session that is of it.
    ///
    /// # Errors
    ///
    /// There is no memory for it. The bus is gone then, with its role or session.
    pub fn rest(self, alloc: Global, hand: Hand) -> Result<BusSnapshot, OutOfMemory>
        requires { HandFits hand self.state }
        ensures { IfOk result (λ still. still ≡ self.state) }
    {
        let still = BusSnapshot::seen(alloc, &self);
        let _records = self.retire(hand);
        still
    }

    /// A number that equal states have in common. Others can have it too: it is no more than a hint where to look first.
    #[inline(never)]
    pub fn key(&self) -> u64 {
        let mut key = key_with(self.records.len() as u64, self.active.slot().index() as u64);
        let session = u64::from(self.in_session);
        key = key_with(key, session << 1 | u64::from(self.listed()));
        key = key_with(key, self.devices.key());
        let first = self.records.len().saturating_sub(HASHED);
        for record in &self.records[first..] {
            let byte = u64::from(record.byte.unwrap_or(0));
            key = key_with(key, record.slot.index() as u64 ^ byte << 8);
        }
        // the slot of a device that still waits or wishes is in the devices' key
        key_with(key, self.raised.sum())
    }
}

impl BusSnapshot {
    ghost use Rattle.std.specs.Prelude.{◌≡◌, ◌≤◌, ◌↔◌, true, is_some, IfOk, IsTrue, OnErr, OnOk};
    ghost use Rattle.i3c_base.specs.Covered.{IsTable};
    ghost use Rattle.i3c_base.specs.Frames.{list_bits};
    ghost use Rattle.i3c_base.specs.State.{device_at};
    ghost use Rattle.i3c_bus.specs.Hands.{HandFits};
    ghost use Rattle.i3c_bus.specs.Near.{IsNear};
    ghost use Rattle.i3c_bus.specs.Whole.{IsCopyOf};

    /// The bus once more, with a role or session of its own.
    ///
    /// # Errors
    ///
    /// There is no memory for its records.
    pub fn wake(&self, alloc: Global) -> Result<(Bus, Hand), OutOfMemory>
        ensures same { IfOk result (λ woken. woken.0.state ≡ self.now) }
        ensures fits { IfOk result (λ woken. HandFits woken.1 woken.0.state) }
    {
        let Ok(records) = records_again(alloc, &self.records) else {
            return Err(OutOfMemory);
        };
        let mut devices = Devices::new();
        devices.wake(&self.devices);
        let table = Table::woken(&self.table);
        let mut list = List::new();
        self.wake_list(&table, &mut list);
        let (active, role) = Active::new(self.active);
        let bus = Bus {
            devices,
            raised: self.raised.copied(),
            active,
            table,
            list,
            legacy: LegacyTargets::woken(&self.legacy),
            in_session: self.in_session,
            records,
        };
        Ok((bus, Hand::new(role, self.in_session)))
    }

    /// A bus comes to the state of this one. It takes the role or session that is of it, and gives back that which is of
    /// it then.
    ///
    /// # Errors
    ///
    /// There is no memory for its records. The bus stays in its state.
    #[inline(never)]
    pub fn wake_into(
        &self,
        alloc: Global,
        bus: &mut Bus,
        hand: Hand,
    ) -> (Hand, Result<(), OutOfMemory>)
        requires { HandFits hand bus.old.state }
        ensures same { OnOk result.1 (bus.new.state ≡ self.now) }
        ensures kept { OnErr result.1 ((bus.new.state ≡ bus.old.state) × (result.0 ≡ hand)) }
        ensures fits { HandFits result.0 bus.new.state }
    {
        let Ok(()) = copy_records(alloc, &mut bus.records, &self.records) else {
            return (hand, Err(OutOfMemory));
        };
        let (holder, role) = Active::new(self.active);
        retire(mem::replace(&mut bus.active, holder), hand.into_role());
        bus.devices.wake(&self.devices);
        bus.raised.copy_from(&self.raised);
        bus.table.wake(&self.table);
        self.wake_list(&bus.table, &mut bus.list);
        bus.legacy.wake(&self.legacy);
        bus.in_session = self.in_session;
        (Hand::new(role, self.in_session), Ok(()))
    }

    /// A bus comes back to the state of this one, from which it differs in one slot at most.
    pub fn wake_at(&self, slot: Slot, bus: &mut Bus)
        requires { IsNear slot self.now bus.old.state }
        ensures { bus.new.state ≡ self.now }
    {
        bus.devices.wake_at(slot, &self.devices);
        bus.raised.set(slot, self.raised.at(slot));
    }

    /// A bus at rest, in the state of this one.
    ///
    /// # Errors
    ///
    /// There is no memory for it.
    #[inline(never)]
    pub fn of(alloc: Global, bus: &Bus) -> Result<Box<BusSnapshot>, OutOfMemory>
        ensures { IfOk result (λ still. still.value ≡ bus.now.state) }
    {
        let Ok(still) = BusSnapshot::seen(alloc, bus) else {
            return Err(OutOfMemory);
        };
        match Box::new(alloc, still) {
            Ok(still) => Ok(still),
            Err(_) => Err(OutOfMemory),
        }
    }

    // The same, not boxed.
    #[inline(always)]
    fn seen(alloc: Global, bus: &Bus) -> Result<BusSnapshot, OutOfMemory>
        ensures { IfOk result (λ still. still ≡ bus.now.state) }
    {
        let Ok(records) = records_again(alloc, &bus.records) else {
            return Err(OutOfMemory);
        };
        let Ok(devices) = Resting::of(alloc, &bus.devices) else {
            return Err(OutOfMemory);
        };
        let Ok(table) = RestingTable::of(alloc, &bus.table) else {
            return Err(OutOfMemory);
        };
        let Ok(legacy) = RestingTargets::of(alloc, &bus.legacy) else {
            return Err(OutOfMemory);
        };
        Ok(BusSnapshot {
            devices,
            raised: bus.raised.copied(),
            active: bus.active.slot(),
            table,
            legacy,
            in_session: bus.in_session,
            records,
        })
    }

    /// It comes to the state of a bus.
    ///
    /// # Errors
    ///
    /// There is no memory for more of it. It stays in its state.
    #[inline(never)]
    pub fn copy_from(&mut self, alloc: Global, bus: &Bus) -> Result<(), OutOfMemory>
        ensures copied { OnOk result (self.new ≡ bus.now.state) }
        ensures kept { OnErr result (self.new ≡ self.old) }
    {
        let Ok(records) = other_records(alloc, &self.records, &bus.records) else {
            return Err(OutOfMemory);
        };
        let Ok(table) = other_table(alloc, &self.table, &bus.table) else {
            return Err(OutOfMemory);
        };
        let Ok(legacy) = other_targets(alloc, &self.legacy, &bus.legacy) else {
            return Err(OutOfMemory);
        };
        let Ok(()) = self.devices.copy_from(&bus.devices) else {
            return Err(OutOfMemory);
        };
        settle_records(&mut self.records, records, &bus.records);
        settle_table(&mut self.table, table, &bus.table);
        settle_targets(&mut self.legacy, legacy, &bus.legacy);
        self.active = bus.active.slot();
        self.raised.copy_from(&bus.raised);
        self.in_session = bus.in_session;
        Ok(())
    }

    /// Whether another bus is in the same state.
    pub fn is_same(&self, other: &BusSnapshot) -> bool
        ensures { IsTrue result ↔ (self.now ≡ other.now) }
    {
        self.has_same_devices_and_log(other) && self.has_same_tables(other)
    }

    /// Whether a bus that is awake is in this state.
    #[inline(never)]
    pub fn is_of(&self, bus: &Bus) -> bool
        ensures { IsTrue result ↔ (self.now ≡ bus.now.state) }
    {
        self.has_devices_and_log_of(bus) && self.has_tables_of(bus)
    }

    /// The active controller's slot.
    pub fn active(&self) -> Slot
        ensures { result ≡ self.now.active }
    {
        self.active
    }

    /// Whether a slot holds a device.
    pub fn present(&self, slot: Slot) -> bool
        ensures { result ≡ is_some (device_at self.now slot) }
    {
        self.devices.holds(slot)
    }

    /// How many bits DEFTGTS has from its code on (I3C Basic 5.1.9.3.7), if it is sent now.
    pub fn list_bits(&self) -> u16
        ensures bits { result ≡ list_bits self.now }
        ensures few { result ≤ 4482 }
    {
        WORD_BITS * (2 + 4 * self.table.list_len() as u16)
    }

    // Rewrites `list` from this bus's table, if the last list that was sent is current.
    fn wake_list(&self, table: &Table, list: &mut List)
        requires { IsTable self.now table.now }
        ensures { self.now.listed ≡ true → IsCopyOf self.now list.new }
    {
        if !table.list_current() {
            return;
        }
        let Some(own) = self.devices.address(self.active) else {
            unreachable!();
        };
        list.rewrite(table, own);
    }

    // Whether both have the same devices with the same raises, the same active controller, either both or neither a
    // session, and the same records.
    fn has_same_devices_and_log(&self, other: &BusSnapshot) -> bool
        ensures { IsTrue result ↔ ((self.now.active ≡ other.now.active) × (self.now.in_session ≡ other.now.in_session) × (self.now.raised ≡ other.now.raised) × (self.now.records ≡ other.now.records) × (self.now.devices ≡ other.now.devices)) }
    {
        self.active == other.active
            && self.in_session == other.in_session
            && self.raised.is_same(&other.raised)
            && are_same(&self.records, &other.records)
            && self.devices.is_same(&other.devices)
    }

    // Whether both controllers know the same, and the legacy targets are the same.
    fn has_same_tables(&self, other: &BusSnapshot) -> bool
        ensures { IsTrue result ↔ ((self.now.given ≡ other.now.given) × (self.now.declared ≡ other.now.declared) × (self.now.listed ≡ other.now.listed) × (self.now.legacy ≡ other.now.legacy)) }
    {
        self.table.is_same(&other.table) && self.legacy.is_same(&other.legacy)
    }

    // The same of a bus that is awake.
    fn has_devices_and_log_of(&self, bus: &Bus) -> bool
        ensures { IsTrue result ↔ ((self.now.active ≡ bus.now.state.active) × (self.now.in_session ≡ bus.now.state.in_session) × (self.now.raised ≡ bus.now.state.raised) × (self.now.records ≡ bus.now.state.records) × (self.now.devices ≡ bus.now.state.devices)) }
    {
        self.active == bus.active.slot()
            && self.in_session == bus.in_session
            && self.raised.is_same(&bus.raised)
            && are_same(&self.records, &bus.records)
            && self.devices.is_of(&bus.devices)
    }

    // The same of its controller, and of the legacy targets.
    fn has_tables_of(&self, bus: &Bus) -> bool
        ensures { IsTrue result ↔ ((self.now.given ≡ bus.now.state.given) × (self.now.declared ≡ bus.now.state.declared) × (self.now.listed ≡ bus.now.state.listed) × (self.now.legacy ≡ bus.now.state.legacy)) }
    {
        self.table.is_of(&bus.table) && self.legacy.is_of(&bus.legacy)
    }
}

/// The key of what has a key so far and of a number more.
fn key_with(key: u64, more: u64) -> u64 {
    (key ^ more)
        .wrapping_mul(0x9E37_79B9_7F4A_7C15)
        .rotate_left(23)
}

/// Whether both are the same records, in the same order.
fn are_same(records: &Vec<Record>, others: &Vec<Record>) -> bool
    ensures { IsTrue result ↔ (records.now.items ≡ others.now.items) }
{
    records.as_slice() == others.as_slice()
}

/// These become the same records as others, or stay as they are where there is no memory.
fn copy_records(
    alloc: Global,
    records: &mut Vec<Record>,
    others: &Vec<Record>,
) -> Result<(), AllocError>
    ensures copied { OnOk result (records.new.items ≡ others.now.items) }
    ensures kept { OnErr result (records.new ≡ records.old) }
{
    let copy = other_records(alloc, records, others)?;
    settle_records(records, copy, others);
    Ok(())
}

/// Others once more, unless these have room for them.
fn other_records(
    alloc: Global,
    records: &Vec<Record>,
    others: &Vec<Record>,
) -> Result<Option<Vec<Record>>, AllocError>
    ensures { IfOk result (λ copy. MatchOption copy (length others.now.items ≤ vec_capacity records.now) (λ copy. copy.items ≡ others.now.items)) }
{
    if others.len() <= records.capacity() {
        return Ok(None);
    }
    Ok(Some(records_again(alloc, others)?))
}

/// These become the same records as others, of which there is a copy where these have no room for them.
fn settle_records(records: &mut Vec<Record>, copy: Option<Vec<Record>>, others: &Vec<Record>)
    requires { MatchOption copy (length others.now.items ≤ vec_capacity records.old) (λ copy. copy.items ≡ others.now.items) }
    ensures { records.new.items ≡ others.now.items }
{
    match copy {
        Some(copy) => *records = copy,
        None => refill(records, others),
    }
}

/// These become the same records as others, for which they have room.
fn refill(records: &mut Vec<Record>, others: &Vec<Record>)
    requires { length others.now.items ≤ vec_capacity records.old }
    ensures { records.new.items ≡ others.now.items }
{
    records.clear();
    let Ok(()) = records.extend_from_slice(others.as_slice()) else {
        unreachable!()
    };
}

/// A table at rest once more, unless there is room for it in this one.
fn other_table(
    alloc: Global,
    resting: &RestingTable,
    table: &Table,
) -> Result<Option<RestingTable>, AllocError>
    ensures { IfOk result (λ copy. MatchOption copy (HasRoom resting.now table.now) (λ copy. copy ≡ table.now)) }
{
    if resting.has_room_for(table) {
        return Ok(None);
    }
    Ok(Some(RestingTable::of(alloc, table)?))
}

/// A table at rest becomes a table as it is now, of which there is a copy where it has no room for it.
fn settle_table(resting: &mut RestingTable, copy: Option<RestingTable>, table: &Table)
    requires { MatchOption copy (HasRoom resting.old table.now) (λ copy. copy ≡ table.now) }
    ensures { resting.new ≡ table.now }
{
    match copy {
        Some(copy) => *resting = copy,
        None => resting.copy_from(table),
    }
}

/// Targets at rest once more, unless these are the same.
fn other_targets(
    alloc: Global,
    resting: &RestingTargets,
    targets: &LegacyTargets,
) -> Result<Option<RestingTargets>, AllocError>
    ensures { IfOk result (λ copy. MatchOption copy (resting.now ≡ targets.now) (λ copy. copy ≡ targets.now)) }
{
    if resting.is_of(targets) {
        return Ok(None);
    }
    Ok(Some(RestingTargets::of(alloc, targets)?))
}

/// Targets at rest become targets as they are now, of which there is a copy where they aren't the same.
fn settle_targets(
    resting: &mut RestingTargets,
    copy: Option<RestingTargets>,
    targets: &LegacyTargets,
)
    requires { MatchOption copy (resting.old ≡ targets.now) (λ copy. copy ≡ targets.now) }
    ensures { resting.new ≡ targets.now }
{
    if let Some(copy) = copy {
        *resting = copy;
    }
}

/// The same records once more, with room for some more.
fn records_again(alloc: Global, records: &Vec<Record>) -> Result<Vec<Record>, AllocError>
    ensures { IfOk result (λ copy. copy.items ≡ records.now.items) }
{
    let mut copy = Vec::with_capacity(alloc, records.len().saturating_add(SPARE))?;
    copy.extend_from_slice(records.as_slice())?;
    Ok(copy)
}
