ghost use Rattle.std.specs.Prelude.{◌≡◌};
ghost use Rattle.i3c_base.specs.State.{attached, fixed_of};

use crate::hand::Hand;
use crate::raises::Raises;
use crate::wishes::wish;
use i3c_base::{Addr7, Identity, RaiseRefusal, Record, Request, RoleRefusal, Setup, Slot};
use i3c_deftgts::List;
use i3c_device::{Device, Devices, SlotSet};
use i3c_handoff::{Active, Role, retire};
use i3c_hotjoin::{JoinRefusal, ask};
use i3c_legacy::{Legacies, LegacyTargets};
use i3c_picker::pick;
use i3c_step::{DropRefusal, OutOfMemory, SlotTaken, StartFault};
use i3c_table::{Row, Table};
use std::alloc::Global;
use std::marker::Model;

/// The recorded interrupts of a bus, in order.
#[derive(Drop)]
pub struct Records {
    list: Vec<Record>,
}

impl Model for Records {
    ghost use Rattle.std.specs.Prelude.{List};
    ghost use Rattle.i3c_base.specs.declared.requests.Record.{Record};

    ghost Value = { List Record };

    ghost view = { λ r. r.list.items };
}

impl Records {
    ghost use Rattle.std.specs.Prelude.{◌≡◌};

    /// The records, the oldest first.
    pub fn as_slice(&self) -> &[Record]
        ensures { result.now ≡ self.now }
    {
        self.list.as_slice()
    }
}

/// A bus: devices in their slots and which is the active controller, its table, the legacy targets, and what was
/// recorded.
pub struct Bus {
    pub(crate) devices: Devices,
    pub(crate) raised: Raises,
    pub(crate) active: Active,
    pub(crate) table: Table,
    // what each device that keeps the list read of the last one
    pub(crate) list: List,
    pub(crate) legacy: LegacyTargets,
    pub(crate) in_session: bool,
    pub(crate) records: Vec<Record>,
}

impl Model for Bus {
    ghost use Rattle.std.specs.Prelude.{nat_lt, vec_len, vec_capacity};
    ghost use Rattle.i3c_base.specs.State.{Held};
    ghost use Rattle.i3c_bus.specs.Parts.{state_of};
    ghost use Rattle.i3c_bus.specs.Whole.{IsWhole};

    ghost Value = { Held };

    ghost view = { λ b. record {
      state = state_of b.devices b.raised b.active b.table b.legacy b.in_session b.records.items;
      room = nat_lt (vec_len b.records) (vec_capacity b.records);
    } };

    ghost invariant = { λ b. IsWhole (state_of b.devices b.raised b.active b.table b.legacy b.in_session b.records.items) b.table b.list };
}

impl Bus {
    ghost use Rattle.std.specs.Prelude.{◌↔◌, true, false, drop, is_some, IfOk, IsOk, MatchOption, OnOk, OnErr};
    ghost use Rattle.i3c_base.specs.Numbers.{is_capable};
    ghost use Rattle.i3c_base.specs.Covered.{IsTable};
    ghost use Rattle.i3c_bus.specs.Whole.{IsCopyOf};
    ghost use Rattle.i3c_base.specs.Serve.{NoneAsks};
    ghost use Rattle.i3c_base.specs.State.{Device as DeviceState, device_at, in_slot, IsStart};
    ghost use Rattle.i3c_bus.specs.Wishing.{wish_of};
    ghost use Rattle.i3c_step.specs.Step.{Step};
    ghost use Rattle.i3c_bus.specs.Hands.{HandFits};
    ghost use Rattle.i3c_bus.specs.Readings.{IsAsked, address_of, identity_of, keeps_copy, waiting_of};
    ghost use Rattle.i3c_bus.specs.Room.{StaysAround};
    ghost use Rattle.i3c_step.specs.Replies.{attached_reply, dropped_reply, joins_reply, raised_reply, role_reply};
    ghost use Rattle.i3c_step.specs.declared.events.Event.{Event};
    ghost use Rattle.i3c_bus.specs.declared.hand.Hand.{Hand};

    /// A bus with its main controller, in slot 0 at the least pickable address, beside these legacy targets and with
    /// these declared static addresses. It answers `NotCapable` where the main device's BCR isn't a controller's.
    #[inline(always)]
    pub fn new(alloc: Global, main: Setup, legacies: Legacies) -> Result<(Bus, Role), StartFault>
        ensures capable { IsOk result ↔ (is_capable main.identity.bcr ≡ true) }
        ensures start { IfOk result (λ made. IsStart main legacies made.0.state) }
        ensures fits { IfOk result (λ made. HandFits (Hand.Role made.1) made.0.state) }
    {
        let Identity { bcr, dcr, .. } = main.identity;
        if !bcr.capable() {
            return Err(StartFault::NotCapable);
        }
        let mut controller = device(main, &legacies);
        // so few static addresses leave most of the usable ones free
        let _taken = legacies.addresses();
        let legacy = LegacyTargets::new(&legacies);
        let mut table = Table::new(legacies);
        let Some(address) = pick(&table) else {
            unreachable!();
        };
        table.put(Row {
            address,
            bcr,
            dcr,
            identity: None,
            fixed: controller.fixed(),
        });
        controller.take_address(address);
        let holder = Slot::default();
        let mut devices = Devices::new();
        devices.put(holder, controller);
        let (active, role) = Active::new(holder);
        let bus = Bus {
            devices,
            raised: Raises::new(),
            active,
            table,
            list: List::new(),
            legacy,
            in_session: false,
            records: Vec::new(alloc),
        };
        Ok((bus, role))
    }

    /// The active controller's slot.
    pub fn active(&self) -> Slot
        ensures { result ≡ self.now.state.active }
    {
        self.active.slot()
    }

    /// Whether a slot holds a device.
    pub fn present(&self, slot: Slot) -> bool
        ensures { result ≡ is_some (device_at self.now.state slot) }
    {
        self.devices.holds(slot)
    }

    /// The dynamic address of a slot's device, if there is a device and it has one.
    pub fn address(&self, slot: Slot) -> Option<Addr7>
        ensures { result ≡ address_of (device_at self.now.state slot) }
    {
        self.devices.address(slot)
    }

    /// How many interrupts of a slot's device wait.
    pub fn waiting(&self, slot: Slot) -> usize
        ensures { result ≡ waiting_of (device_at self.now.state slot) }
    {
        self.devices.waiting(slot)
    }

    /// The first request that the next frame would meet, and the slots whose devices drive it (I3C Basic 5.1.6.2).
    pub fn asking(&self) -> Option<(Request, SlotSet)>
        ensures { MatchOption result (NoneAsks self.now.state) (IsAsked self.now.state) }
    {
        self.devices.first_request(self.active())
    }

    /// What a slot's device is, if there is one (I3C Basic 5.1.1.2).
    pub fn identity(&self, slot: Slot) -> Option<Identity>
        ensures { result ≡ identity_of (device_at self.now.state slot) }
    {
        self.devices.identity(slot)
    }

    /// Whether interrupts of a slot's device are enabled (I3C Basic 5.1.9.3.1).
    pub fn may_interrupt(&self, slot: Slot) -> bool
        ensures { result ≡ in_slot (λ d. d.kinds.interrupt) (device_at self.now.state slot) }
    {
        self.devices.may_interrupt(slot)
    }

    /// Whether role requests of a slot's device are enabled (I3C Basic 5.1.9.3.1).
    pub fn may_ask_role(&self, slot: Slot) -> bool
        ensures { result ≡ in_slot (λ d. d.kinds.role) (device_at self.now.state slot) }
    {
        self.devices.may_ask_role(slot)
    }

    /// Whether joins of a slot's device are enabled (I3C Basic 5.1.9.3.1).
    pub fn may_join(&self, slot: Slot) -> bool
        ensures { result ≡ in_slot (λ d. d.kinds.join) (device_at self.now.state slot) }
    {
        self.devices.may_join(slot)
    }

    /// The request that a slot's device would drive if each kind of its events was enabled, if it would drive one: a join
    /// without an address, otherwise the role request before the interrupt (I3C Basic 5.1.6).
    pub fn wish(&self, slot: Slot) -> Option<Request>
        ensures { result ≡ wish_of (device_at self.now.state slot) }
    {
        wish(&self.devices, slot)
    }

    /// The recorded interrupts, the oldest first.
    pub fn records(&self) -> &[Record]
        ensures { result.now ≡ self.now.state.records }
    {
        self.records.as_slice()
    }

    /// Lets the oldest `count` records go, or all if there are fewer. The rest is unchanged, and room stays.
    ///
    /// A reply counts the records that are left: the next one is at the place behind them.
    pub fn forget(&mut self, count: usize)
        ensures left { self.new.state ≡ record self.old.state { records = drop count self.old.state.records } }
        ensures room { self.old.room ≡ true → self.new.room ≡ true }
    {
        let gone = count.min(self.records.len());
        drop(self.records.drain(..gone));
    }

    /// The active controller's table: its rows are what was given, its identities what is kept, its legacy list the
    /// legacy targets.
    pub fn table(&self) -> &Table
        ensures { IsTable self.now.state result.now }
    {
        &self.table
    }

    /// Whether the list of DEFTGTS is current.
    pub fn listed(&self) -> bool
        ensures { result ≡ self.now.state.listed }
    {
        self.table.list_current()
    }

    /// Whether a session of dynamic address assignment is open.
    pub fn in_session(&self) -> bool
        ensures { result ≡ self.now.state.in_session }
    {
        self.in_session
    }

    /// Whether there is room for one more record.
    pub fn has_room(&self) -> bool
        ensures { result ≡ self.now.room }
    {
        self.records.len() < self.records.capacity()
    }

    /// Makes room for one more record. While there is room no frame is short of memory, and only a record that is
    /// appended ends it. It answers `OutOfMemory` where there is none, and changes nothing then.
    pub fn make_room(&mut self) -> Result<(), OutOfMemory>
        ensures state { self.new.state ≡ self.old.state }
        ensures made { OnOk result (self.new.room ≡ true) }
        ensures short { OnErr result (self.old.room ≡ false) }
        ensures kept { self.old.room ≡ true → IsOk result }
    {
        // as a rule there is room
        if self.has_room() {
            return Ok(());
        }
        match self.records.reserve(1) {
            Ok(()) => Ok(()),
            Err(_) => Err(OutOfMemory),
        }
    }

    /// A device enters a slot, without a dynamic address; its static one is what was declared for its identity. It
    /// answers `SlotTaken` where the slot holds one.
    #[inline(never)]
    pub fn attach(&mut self, slot: Slot, setup: Setup) -> Result<(), SlotTaken>
        ensures step { Step self.old.state (Event.Attach slot setup) (attached_reply result) self.new.state }
        ensures around { StaysAround self.old self.new }
    {
        if self.devices.holds(slot) {
            return Err(SlotTaken);
        }
        let device = device(setup, self.table.legacies());
        self.devices.put(slot, device);
        Ok(())
    }

    /// The slot's device drops off: it loses power, and is gone. What the table keeps of it stays. The active
    /// controller's drop-off is refused.
    pub fn drop_off(&mut self, slot: Slot) -> Result<(), DropRefusal>
        ensures step { Step self.old.state (Event.DropOff slot) (dropped_reply result) self.new.state }
        ensures around { StaysAround self.old self.new }
    {
        if !self.devices.holds(slot) {
            return Err(DropRefusal::NoDevice);
        }
        if slot == self.active() {
            return Err(DropRefusal::ActiveStays);
        }
        self.devices.remove(slot);
        Ok(())
    }

    /// The slot's device raises an interrupt, with its mandatory byte if it sends one (I3C Basic 5.1.6.2). It answers the
    /// raise's number: each slot has a count of its own, which begins with 1 and never goes back.
    pub fn raise(&mut self, slot: Slot, byte: Option<u8>) -> Result<u64, RaiseRefusal>
        ensures step { Step self.old.state (Event.Raise slot byte) (raised_reply result) self.new.state }
        ensures around { StaysAround self.old self.new }
    {
        if !self.devices.holds(slot) {
            return Err(RaiseRefusal::NoDevice);
        }
        if slot == self.active() {
            return Err(RaiseRefusal::IsActive);
        }
        let number = self.devices.raise(slot, self.raised.at(slot), byte)?;
        self.raised.set(slot, number);
        Ok(number)
    }

    /// The slot's device wishes to join (Hot-Join, I3C Basic 5.1.5).
    pub fn ask_join(&mut self, slot: Slot) -> Result<(), JoinRefusal>
        ensures step { Step self.old.state (Event.AskJoin slot) (joins_reply result) self.new.state }
        ensures around { StaysAround self.old self.new }
    {
        ask(&mut self.devices, slot)
    }

    /// The slot's device wishes for the controller role (I3C Basic 5.1.7.1).
    pub fn ask_role(&mut self, slot: Slot) -> Result<(), RoleRefusal>
        ensures step { Step self.old.state (Event.AskRole slot) (role_reply result) self.new.state }
        ensures around { StaysAround self.old self.new }
    {
        let active = self.active();
        i3c_handoff::ask(&mut self.devices, active, slot)
    }

    /// The copy that a slot's device keeps of the last list, while that is current: a device keeps it that has an address
    /// and can be a controller, and isn't the active one (I3C Basic 5.1.9.3.7). The copy becomes its table if it takes
    /// the role.
    pub fn copy(&self, slot: Slot) -> Option<&List>
        ensures { MatchOption result (keeps_copy self.now.state slot ≡ false) (λ list. (keeps_copy self.now.state slot ≡ true) × IsCopyOf self.now.state list.now) }
    {
        let identity = self.devices.identity(slot)?;
        let keeps = self.devices.address(slot).is_some() && identity.bcr.capable();
        if self.listed() && slot != self.active() && keeps {
            Some(&self.list)
        } else {
            None
        }
    }

    /// Takes the bus apart, and gives its records.
    pub fn retire(self, hand: Hand) -> Records
        requires { HandFits hand self.state }
        ensures { result ≡ self.state.records }
    {
        let Bus {
            devices: _,
            raised: _,
            active,
            table: _,
            list: _,
            legacy: _,
            in_session: _,
            records,
        } = self;
        retire(active, hand.into_role());
        Records { list: records }
    }
}

/// A device that was just attached to a bus with these declared static addresses.
fn device(setup: Setup, legacies: &Legacies) -> Device
    ensures { result ≡ attached (fixed_of legacies.now.declared setup.identity) setup }
{
    let identity = setup.identity;
    let fixed = legacies.fixed_of(&identity);
    Device::new(setup, fixed)
}
