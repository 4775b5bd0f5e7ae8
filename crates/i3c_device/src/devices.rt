use crate::attached::LONGEST;
use crate::device::Device;
use crate::driven_requests::{enter_requests, slots_with};
use crate::enabled::Enabled;
use crate::hearing::{named_address, named_length};
use crate::kinds::named;
use crate::occupants::Occupants;
use crate::places::{address_in, byte_in, front_in, identity_in, queue_key, waiting_in};
use crate::resting::Resting;
use crate::slot_set::{SlotSet, lost_slots};
use crate::slot_update::{
    Accepted, Ended, InterruptAccepted, JoinWished, LengthHeard, Limited, Lost, NewHeard, Opened,
    Readdressed, Registers, Reset, RoleLost, RoleWished, SlotUpdate, StaticHeard, Told, Willing,
    Won, Written,
};
use arrayvec::ArrayVec;
use i3c_base::{
    Addr7, Bytes, Change, Cuts, Datum, Direction, Identity, Kinds, Length, REGISTERS, RaiseRefusal,
    Request, SLOTS, Slot, Waiting,
};
use i3c_ccc::Code;
use i3c_header::arbitrate;
use i3c_word::{WORD_BITS, Word};
use std::marker::Model;

/// The devices of a bus in their slots.
///
/// Clauses see a place for each slot. Which slot is the active controller's is told to the calls that depend on it.
#[derive(Drop)]
pub struct Devices {
    pub(crate) occupants: Occupants,
    // a word for each kind, so that a command to all changes three words
    pub(crate) enabled: Enabled,
}

impl Model for Devices {
    ghost use Rattle.std.specs.Prelude.{List, Option};
    ghost use Rattle.i3c_base.specs.State.{Device as DeviceState};
    ghost use Rattle.i3c_device.specs.Enabling.{seen};

    ghost Value = { List (Option DeviceState) };

    ghost view = { λ d. seen d.enabled d.occupants };
}

impl Devices {
    ghost use Rattle.i3c_base.specs.declared.device.TheConstants.{REGISTERS as REGISTER_COUNT};
    ghost use Rattle.i3c_base.specs.declared.range.TheConstants.{SLOTS as SLOT_COUNT};
    ghost use Rattle.i3c_base.specs.Cutting.{lost_by};
    ghost use Rattle.i3c_base.specs.Frames.{changed_kinds, least_length_from, AreWillingLost, IsHeardIn, rekinded_at, written_at, IsLowestWilling};
    ghost use Rattle.i3c_base.specs.Places.{changed};
    ghost use Rattle.i3c_device.specs.Holding.{address_in, byte_in, front_in, identity_in, waiting_in};
    ghost use Rattle.i3c_device.specs.Walks.{heard_at, limited_at, readdressed_at, taken_at, AreDrivers, AreHearers, AreReached, AreTakers, IsFirstDriven};
    ghost use Rattle.i3c_device.specs.Least.{IsLeastHeard, NobodyHears};
    ghost use Rattle.i3c_device.specs.Reading.{AreReadOf, AreToldOf, IsByteOf};
    ghost use Rattle.i3c_device.specs.Sets.{has};
    ghost use Rattle.i3c_device.specs.Wishing.{asks_some};
    ghost use Rattle.std.specs.Prelude.{◌≡◌, ◌≤◌, ◌<◌, ◌+◌, ◌^◌, ◌↔◌, ◌&&◌, ◌==◌, ℕ, not, All, length, Option, IsTrue, is_some, suc, Some, None, option_map, slice_index_or, slice_set, MatchOption, MatchResult, OnOk, OnErr};
    ghost use Rattle.i3c_base.specs.Round.{hears, unhearing};
    ghost use Rattle.i3c_base.specs.Serve.{NobodyDrives, each_driver_in, left_at, without, without_role};
    ghost use Rattle.i3c_base.specs.State.{Device as DeviceState, Population, each_in, in_slot, no_devices, with_active};
    ghost use Rattle.i3c_base.specs.Local.{with_raise, wishing_join, wishing_role};
    ghost use Rattle.i3c_device.specs.Raising.{next_fault};

    /// Empty slots.
    #[inline(always)]
    pub fn new() -> Devices
        ensures { result ≡ no_devices }
    {
        Devices {
            occupants: Occupants::new(),
            enabled: Enabled::new(),
        }
    }

    /// They become these devices that rest.
    pub fn wake(&mut self, resting: &Resting)
        ensures { self.new ≡ resting.now }
    {
        self.occupants.wake(&resting.kept);
        self.enabled = resting.enabled;
    }

    /// One slot comes back to what rests there: its device with its kinds, or nobody.
    pub fn wake_at(&mut self, slot: Slot, resting: &Resting)
        ensures { self.new ≡ slice_set self.old slot (slice_index_or resting.now slot None) }
    {
        let index = slot.index();
        let kinds = resting.enabled.at(index);
        self.occupants.wake_at(slot, resting.kept.at(slot));
        self.enabled = self.enabled.renewed(index, kinds);
    }

    /// The slots that hold a device.
    pub fn present(&self) -> SlotSet
        ensures present { (s : ℕ) → s < SLOT_COUNT → has result s ≡ is_some (slice_index_or self.now s None) }
        ensures slots { length self.now ≡ SLOT_COUNT }
    {
        self.occupants.marks().present
    }

    /// How many slots there are.
    pub fn slots(&self) -> usize
        ensures count { result ≡ SLOT_COUNT }
        ensures slots { length self.now ≡ SLOT_COUNT }
    {
        self.occupants.slots()
    }

    /// The device in a slot, as it is now. It is copied: what is done to the copy isn't done to the slot's device.
    pub fn get(&self, slot: Slot) -> Option<Device>
        ensures device { result ≡ slice_index_or self.now slot None }
        ensures slots { length self.now ≡ SLOT_COUNT }
    {
        match self.occupants.at(slot) {
            Some(attached) => Some(Device {
                attached: attached.copied(),
                kinds: self.enabled.at(slot.index()),
            }),
            None => None,
        }
    }

    /// Whether a slot holds a device.
    pub fn holds(&self, slot: Slot) -> bool
        ensures { result ≡ is_some (slice_index_or self.now slot None) }
    {
        self.occupants.marks().present.has(slot.index())
    }

    /// What a slot's device is, if there is one.
    pub fn identity(&self, slot: Slot) -> Option<Identity>
        ensures { result ≡ identity_in (slice_index_or self.now slot None) }
    {
        identity_in(self.occupants.at(slot))
    }

    /// The dynamic address of a slot's device, if there is a device and it has one.
    pub fn address(&self, slot: Slot) -> Option<Addr7>
        ensures { result ≡ address_in (slice_index_or self.now slot None) }
    {
        address_in(self.occupants.at(slot))
    }

    /// How many interrupts of a slot's device wait.
    pub fn waiting(&self, slot: Slot) -> usize
        ensures { result ≡ waiting_in (slice_index_or self.now slot None) }
    {
        waiting_in(self.occupants.at(slot))
    }

    /// The interrupt that waits at the front of a slot's device.
    pub fn front(&self, slot: Slot) -> Option<Waiting>
        ensures { result ≡ front_in (slice_index_or self.now slot None) }
    {
        front_in(self.occupants.at(slot))
    }

    /// The mandatory byte that a slot's device answers with when its interrupt is accepted, if it has one.
    pub fn answer_byte(&self, slot: Slot) -> Option<u8>
        ensures { result ≡ byte_in (slice_index_or self.now slot None) }
    {
        byte_in(self.occupants.at(slot))
    }

    /// Whether a slot holds a device whose interrupts are enabled.
    pub fn may_interrupt(&self, slot: Slot) -> bool
        ensures { result ≡ in_slot (λ d. d.kinds.interrupt) (slice_index_or self.now slot None) }
    {
        let present = self.occupants.marks().present;
        present.and(self.enabled.interrupts).has(slot.index())
    }

    /// Whether a slot holds a device whose joins are enabled.
    pub fn may_join(&self, slot: Slot) -> bool
        ensures { result ≡ in_slot (λ d. d.kinds.join) (slice_index_or self.now slot None) }
    {
        let present = self.occupants.marks().present;
        present.and(self.enabled.joins).has(slot.index())
    }

    /// Whether a slot holds a device whose role requests are enabled.
    pub fn may_ask_role(&self, slot: Slot) -> bool
        ensures { result ≡ in_slot (λ d. d.kinds.role) (slice_index_or self.now slot None) }
    {
        let present = self.occupants.marks().present;
        present.and(self.enabled.roles).has(slot.index())
    }

    /// A number that equal devices have in common: of their enabled kinds of events, of their wishes, and of the interrupts
    /// of one slot that wait.
    pub fn key(&self) -> u64 {
        let marks = self.occupants.marks();
        let interrupts = marks.present.and(self.enabled.interrupts).bits();
        let roles = marks.present.and(self.enabled.roles).bits();
        let joins = marks.present.and(self.enabled.joins).bits();
        let kinds = interrupts ^ roles.rotate_left(21) ^ joins.rotate_left(42);
        let wishes = marks.interrupting.bits() ^ marks.asking.bits().rotate_left(21);
        let others = marks.joining.bits() ^ marks.unaddressed.bits().rotate_left(21);
        let queue = self.queue_key(marks.interrupting).rotate_left(55);
        kinds ^ wishes.rotate_left(11) ^ others.rotate_left(33) ^ queue
    }

    // The same of the interrupts that wait in the lowest of these slots.
    fn queue_key(&self, slots: SlotSet) -> u64 {
        match slots.lowest() {
            Some(slot) => queue_key(self.occupants.at(slot)),
            None => 0,
        }
    }

    /// A device enters a slot.
    pub fn put(&mut self, slot: Slot, device: Device)
        ensures { self.new ≡ slice_set self.old slot (Some device) }
    {
        let Device { attached, kinds } = device;
        self.occupants.put(slot, Some(attached));
        self.enabled = self.enabled.renewed(slot.index(), kinds);
    }

    /// A slot's device is gone.
    pub fn remove(&mut self, slot: Slot)
        ensures { self.new ≡ slice_set self.old slot None }
    {
        self.occupants.put(slot, None);
    }

    /// The slot's device, if there is one, wishes to join.
    pub fn wish_join(&mut self, slot: Slot)
        ensures { self.new ≡ slice_set self.old slot (option_map wishing_join (slice_index_or self.old slot None)) }
    {
        self.occupants.apply(slot, &JoinWished);
    }

    /// The slot's device, if there is one, wishes for the controller role.
    pub fn wish_role(&mut self, slot: Slot)
        ensures { self.new ≡ slice_set self.old slot (option_map wishing_role (slice_index_or self.old slot None)) }
    {
        self.occupants.apply(slot, &RoleWished);
    }

    /// The slot's device, if there is one, loses its wish for the role.
    pub fn lose_role_wish(&mut self, slot: Slot)
        ensures { self.new ≡ slice_set self.old slot (option_map without_role (slice_index_or self.old slot None)) }
    {
        self.occupants.apply(slot, &RoleLost);
    }

    /// The slot's device raises the interrupt after this many of its slot, and answers its number. The first fault
    /// refuses it, and changes nothing.
    pub fn raise(&mut self, slot: Slot, raised: u64, byte: Option<u8>) -> Result<u64, RaiseRefusal>
        requires { (d : DeviceState) × (slice_index_or self.old slot None ≡ Some d) }
        ensures fault { (d : DeviceState) → slice_index_or self.old slot None ≡ Some d → MatchResult result (λ number. (number ≡ suc raised) × (next_fault d byte raised ≡ None)) (λ fault. next_fault d byte raised ≡ Some fault) }
        ensures raised { OnOk result (self.new ≡ slice_set self.old slot (option_map (with_raise (suc raised) byte) (slice_index_or self.old slot None))) }
        ensures unchanged { OnErr result (self.new ≡ self.old) }
    {
        let enabled = self.enabled.interrupts.has(slot.index());
        self.occupants.raise(slot, raised, byte, enabled)
    }

    /// The request that wins the header into which the devices drive theirs at once, and the slots that drive it (I3C
    /// Basic 5.1.2.2.1). The active controller drives none.
    // in line, since as a rule nobody asks
    #[inline(always)]
    pub fn first_request(&self, active: Slot) -> Option<(Request, SlotSet)>
        ensures first { MatchOption result (NobodyDrives (with_active self.now active)) (IsFirstDriven (with_active self.now active)) }
        ensures slots { length self.now ≡ SLOT_COUNT }
    {
        match self.driving(active).lowest() {
            Some(_) => self.contest(active),
            None => None,
        }
    }

    /// The contest of the requests that the devices drive at once: the winner, and the slots that drive it.
    #[inline(never)]
    fn contest(&self, active: Slot) -> Option<(Request, SlotSet)>
        ensures first { MatchOption result (NobodyDrives (with_active self.now active)) (IsFirstDriven (with_active self.now active)) }
        ensures slots { length self.now ≡ SLOT_COUNT }
    {
        let driving = self.driving(active);
        let marks = self.occupants.marks();
        let mut requests: ArrayVec<Request, SLOTS> = ArrayVec::new();
        enter_requests(&mut requests, driving, &marks.keys);
        let winner = arbitrate(&requests)?;
        let drivers = slots_with(driving, &marks.keys, &winner);
        Some((winner, drivers))
    }

    /// The slots whose device drives a request. The active controller drives none.
    fn driving(&self, active: Slot) -> SlotSet
        ensures asking { (s : ℕ) → s < SLOT_COUNT → has result s ≡ (not (s == active) && in_slot asks_some (slice_index_or self.now s None)) }
        ensures slots { length self.now ≡ SLOT_COUNT }
    {
        let marks = self.occupants.marks();
        let joins = marks.joining.and(self.enabled.joins);
        let roles = marks.asking.and(self.enabled.roles);
        let interrupts = marks.interrupting.and(self.enabled.interrupts);
        joins.or(roles.or(interrupts)).but(active)
    }

    /// The request was accepted: these slots, its drivers, lose the wish or the front of their waiting interrupts.
    #[inline(always)]
    pub fn accept(&mut self, drivers: SlotSet, request: &Request)
        ensures { (all : Population) → all.devices ≡ self.old → AreDrivers all request.now drivers → self.new ≡ each_driver_in all request.now (without request.now) }
    {
        match request {
            // which changes less than a wish
            Request::Interrupt(_) => self.occupants.each(drivers, &InterruptAccepted),
            _ => self.occupants.each(drivers, &Accepted { request }),
        }
    }

    /// Whether a command, to all or to one address, reaches a device that isn't lost by this bit: it acknowledges.
    pub fn is_heard(&self, active: Slot, to: &Option<Addr7>, cuts: &Cuts, last: u16) -> bool
        ensures { IsTrue result ↔ IsHeardIn (with_active self.now active) to.now (lost_by cuts.now last) }
    {
        self.reached(active, to).outlasts(cuts, last)
    }

    /// The lowest slot with a device that would take the role that is offered to this address, of those that aren't lost
    /// by this bit. The active controller is none of them.
    pub fn lowest_willing(
        &self,
        active: Slot,
        address: Addr7,
        cuts: &Cuts,
        last: u16,
    ) -> Option<Slot>
        ensures { MatchOption result (AreWillingLost (with_active self.now active) address (lost_by cuts.now last)) (IsLowestWilling (with_active self.now active) address (lost_by cuts.now last)) }
    {
        let present = self.occupants.marks().present;
        let left = present.without(lost_slots(cuts, last));
        self.occupants.lowest(left, &Willing { active, address })
    }

    /// A private write to an address: these bytes go into the first registers of each device there but the active
    /// controller.
    pub fn write(&mut self, active: Slot, address: Addr7, bytes: &[u8])
        requires { length bytes.now ≤ REGISTER_COUNT }
        ensures { self.new ≡ each_in (written_at active address bytes.now) self.old }
    {
        let present = self.occupants.marks().present;
        self.occupants.each(
            present,
            &Written {
                active,
                address,
                bytes,
            },
        );
    }

    /// The registers of the devices at an address, as the lines give them in a private read whose first data bit is
    /// this bit of its frame: eight bits for each, and a T. All who have the address drive theirs, but the active
    /// controller and, from their cuts on, those who are cut.
    pub fn read(&self, active: Slot, address: Addr7, cuts: &Cuts, first: u16) -> [u8; REGISTERS]
        requires { first + 144 ≤ 2 ^ 16 }
        ensures read { AreReadOf (with_active self.now active) address cuts.now first result }
        ensures long { length result ≡ REGISTER_COUNT }
        ensures bytes { All (λ byte. byte < 256) result }
    {
        let targets = self.occupants.targets(active, address);
        if targets.is_uncut(cuts) {
            return self.occupants.registers_of(targets);
        }
        let mut bytes = [0; REGISTERS];
        for (index, byte) in bytes.iter_mut().enumerate() {
            *byte = self.occupants.byte_of(
                &Registers,
                targets,
                index,
                cuts,
                first + WORD_BITS * index as u16,
            );
        }
        bytes
    }

    /// So many bytes of a datum, as the lines give them while the devices at an address tell it; the first data bit is
    /// this bit of the frame (I3C Basic 5.1.9.3). All who have the address drive theirs, but the active controller and,
    /// from their cuts on, those who are cut.
    pub fn tell(
        &self,
        what: Datum,
        count: usize,
        active: Slot,
        address: Addr7,
        cuts: &Cuts,
        first: u16,
    ) -> Bytes
        requires few { count ≤ 6 }
        requires fits { first + 54 ≤ 2 ^ 16 }
        ensures told { AreToldOf what (with_active self.now active) address cuts.now first result }
        ensures long { length result ≡ count }
        ensures bytes { All (λ byte. byte < 256) result }
    {
        let targets = self.occupants.targets(active, address);
        let told = Told { what };
        let mut bytes = [0; LONGEST];
        for index in 0..count {
            bytes[index] = self.occupants.byte_of(
                &told,
                targets,
                index,
                cuts,
                first + WORD_BITS * index as u16,
            );
        }
        Bytes::new(&bytes[..count])
    }

    /// The slots of the devices that a command reaches, all but the active controller or those of them at one address.
    pub fn reached(&self, active: Slot, to: &Option<Addr7>) -> SlotSet
        ensures reached { AreReached active to.now result self.now }
        ensures slots { length self.now ≡ SLOT_COUNT }
    {
        match to {
            None => self.occupants.marks().present.but(active),
            Some(address) => self.occupants.targets(active, *address),
        }
    }

    /// The slots of the devices that take SETDASA at a static address: they have it and no dynamic address (I3C Basic
    /// 5.1.9.3.10). The active controller is none of them.
    pub fn unaddressed_at(&self, active: Slot, fixed: Addr7) -> SlotSet
        ensures takers { AreTakers active fixed result self.now }
        ensures slots { length self.now ≡ SLOT_COUNT }
    {
        self.occupants.unaddressed_at(active, fixed)
    }

    /// The devices that a command reaches, all but the active controller or those of them at one address, hear it and
    /// its words (I3C Basic 5.1.9.3). What they keep of a list (DEFTGTS) isn't part of it: the bus has that.
    pub fn hear(&mut self, active: Slot, to: &Option<Addr7>, code: Code, words: &[Word])
        ensures { self.new ≡ changed (heard_at active to.now code words.now) self.old }
    {
        let reached = self.reached(active, to);
        match code {
            Code::Enec | Code::EnecDirect => {
                self.enabled = self.enabled.with(named(words), reached);
            }
            Code::Disec | Code::DisecDirect => {
                self.enabled = self.enabled.without(named(words), reached);
            }
            Code::Entdaa => self.occupants.each(reached, &Opened),
            Code::Rstdaa => self.occupants.each(reached, &Reset),
            Code::Setdasa => {
                let address = named_address(words);
                self.occupants.each(reached, &StaticHeard { address });
            }
            Code::Setnewda => {
                let address = named_address(words);
                self.occupants.each(reached, &NewHeard { address });
            }
            Code::SetLength(way) | Code::SetLengthDirect(way) => {
                let most = named_length(words);
                self.occupants.each(reached, &LengthHeard { way, most });
            }
            Code::Deftgts | Code::Get(_) | Code::Getacccr | Code::Other(_) => {}
        }
    }

    /// Kinds of events are enabled or disabled for the devices that a command reaches, which are in these slots.
    pub fn change_kinds(&mut self, reached: SlotSet, change: Change, kinds: Kinds)
        requires { length self.old ≡ SLOT_COUNT }
        ensures { (active : ℕ) (to : Option ℕ) → AreReached active to reached self.old → self.new ≡ each_in (rekinded_at active to (changed_kinds change kinds)) self.old }
    {
        self.enabled = match change {
            Change::Enable => self.enabled.with(kinds, reached),
            Change::Disable => self.enabled.without(kinds, reached),
        };
    }

    /// A session is opened: each device without an address hears it.
    pub fn open(&mut self)
        ensures { self.new ≡ each_in (λ s d. hears d) self.old }
    {
        let unaddressed = self.occupants.marks().unaddressed;
        self.occupants.each(unaddressed, &Opened);
    }

    /// The session ends: nobody hears any more.
    pub fn silence(&mut self)
        ensures { self.new ≡ each_in (λ s d. unhearing d) self.old }
    {
        let hearing = self.occupants.marks().hearing;
        self.occupants.each(hearing, &Ended);
    }

    /// The slots whose device hears the open session.
    pub fn hearers(&self) -> SlotSet
        ensures hearing { AreHearers result self.now }
        ensures slots { length self.now ≡ SLOT_COUNT }
    {
        self.occupants.marks().hearing
    }

    /// The contest of those who hear the open session, on the lines, where nobody is cut (I3C Basic 5.1.4.2): the
    /// identity that is read, as a number, and the slots of those who have it; `None` where nobody hears.
    pub fn least_heard(&self) -> Option<(u64, SlotSet)>
        ensures least { MatchOption result (NobodyHears self.now) (IsLeastHeard self.now) }
        ensures slots { length self.now ≡ SLOT_COUNT }
    {
        self.occupants.least_heard()
    }

    /// The devices in these slots take the address, which they won in a round (I3C Basic 5.1.4.2) or were set by SETDASA:
    /// each hears no more and has lost its join wish. No dynamic address is below `08`.
    pub fn take_address(&mut self, winners: SlotSet, address: Addr7)
        requires { 8 ≤ address }
        ensures { self.new ≡ changed (taken_at winners address) self.old }
    {
        self.occupants.each(winners, &Won { address });
    }

    /// The devices in these slots have another dynamic address, and nothing else of them changes (SETNEWDA, I3C Basic
    /// 5.1.9.3.11). No dynamic address is below `08`.
    pub fn readdress(&mut self, slots: SlotSet, address: Addr7)
        requires { 8 ≤ address }
        ensures { self.new ≡ changed (readdressed_at slots address) self.old }
    {
        self.occupants.each(slots, &Readdressed { address });
    }

    /// The devices in these slots have this maximum length (SETMWL and SETMRL, I3C Basic 5.1.9.3.5 and 5.1.9.3.6).
    pub fn limit(&mut self, slots: SlotSet, way: Direction, most: Length)
        ensures { self.new ≡ changed (limited_at slots way most) self.old }
    {
        self.occupants.each(slots, &Limited { way, most });
    }

    /// The least maximum length of the devices at an address, but the active controller: 16 at most (I3C Basic 5.1.9.3.5,
    /// 5.1.9.3.6).
    pub fn least_length(&self, active: Slot, address: Addr7, way: Direction) -> Length
        ensures { result ≡ least_length_from active way address 0 self.now }
    {
        let targets = self.occupants.targets(active, address);
        self.occupants.least_length(targets, way)
    }

    /// A frame ends: the devices lost by this bit are gone.
    pub fn drop_lost(&mut self, cuts: &Cuts, last: u16)
        ensures { self.new ≡ changed (left_at (lost_by cuts.now last)) self.old }
    {
        self.occupants.each(lost_slots(cuts, last), &Lost);
    }
}
