use crate::device::PlainDevice;
use crate::faults::OutOfMemory;
use crate::plain_entry::PlainEntry;
use i3c_base::{Addr7, Change, Identity, LegacyTarget, Record, SLOTS, Slot};
use i3c_step::{Event, Reply};
use std::alloc::Global;
use std::collections::BTreeMap;
use std::marker::Model;

/// Decides the result of an event where drop-offs leave it open. If the choice isn't possible, the first of the three
/// that is possible is taken in its place; if nothing is open, the choice has no effect.
#[derive(Clone, Copy, Debug, PartialEq, Eq)]
pub enum Choice {
    /// The last signal of a lost device was heard: an interrupt is recorded, an identity gets its address, a command or a
    /// write to one address is done.
    Heard,
    /// It was lost on the way: a mandatory byte is torn, an assigned address reaches nobody, the byte that takes the role
    /// breaks off, the data of a read doesn't end.
    Lost,
    /// It sent nothing: the header of a round, of a command or a transfer to one address, or of the offer of the role
    /// isn't acknowledged.
    Silent,
}

/// The plain machine: the devices by slot, the active controller's table by address, and what was recorded.
///
/// Clauses see the abstract bus.
#[derive(Drop)]
pub struct Plain {
    pub(crate) alloc: Global,
    pub(crate) devices: BTreeMap<Slot, PlainDevice>,
    // by slot, over all its stays
    pub(crate) raised: [u64; SLOTS],
    pub(crate) active: Slot,
    // by static address
    pub(crate) legacy: BTreeMap<Addr7, LegacyTarget>,
    // the identities of devices that have a static address, by it
    pub(crate) declared: BTreeMap<Addr7, Identity>,
    pub(crate) given: BTreeMap<Addr7, PlainEntry>,
    pub(crate) in_session: bool,
    // the list of DEFTGTS is current
    pub(crate) listed: bool,
    pub(crate) records: Vec<Record>,
}

impl Model for Plain {
    ghost use Rattle.i3c_base.specs.State.{State};

    ghost Value = { State };

    ghost use Rattle.i3c_model.specs.Views.{state_of, IsWithinPlaces};

    ghost view = { state_of };

    ghost invariant = { IsWithinPlaces };
}

impl Plain {
    ghost use Rattle.std.specs.Prelude.{◌≡◌, ◌≢◌, ◌↔◌, IfOk, IsTrue, MatchOption, None, OnErr, length, is_some, option_and_then, option_map};
    ghost use Rattle.i3c_base.specs.declared.range.TheConstants.{SLOTS as SLOT_COUNT};
    ghost use Rattle.i3c_base.specs.State.{declared_at, device_at, entry_at, fixed_of, legacy_target_at, IsPresent};
    ghost use Rattle.i3c_step.specs.Step.{Acts, Step, checks, first_refusal};
    ghost use Rattle.i3c_step.specs.declared.replies.Reply.{Reply};
    ghost use Rattle.i3c_model.specs.Choosing.{EndsAsChosen, Follows};
    ghost use Rattle.i3c_model.specs.Storing.{MayStore, Stores};

    /// The active controller's slot.
    pub fn active(&self) -> Slot
        ensures { result ≡ self.now.active }
    {
        self.active
    }

    /// Whether a slot holds a device.
    pub fn present(&self, slot: Slot) -> bool
        ensures { IsTrue result ↔ IsPresent self.now slot }
    {
        self.devices.contains_key(&slot)
    }

    /// The dynamic address of a slot's device, if there is a device and it has one.
    pub fn address(&self, slot: Slot) -> Option<Addr7>
        ensures { result ≡ option_and_then (λ d. d.address) (device_at self.now slot) }
    {
        match self.device(slot) {
            Some(device) => device.address(),
            None => None,
        }
    }

    /// How many interrupts of a slot's device wait.
    pub fn waiting(&self, slot: Slot) -> usize
        ensures { MatchOption (device_at self.now slot) (result ≡ 0) (λ d. result ≡ length d.waiting) }
    {
        match self.device(slot) {
            Some(device) => device.waiting(),
            None => 0,
        }
    }

    /// Whether a session of dynamic address assignment is open.
    pub fn in_session(&self) -> bool
        ensures { result ≡ self.now.in_session }
    {
        self.in_session
    }

    /// Whether the list of DEFTGTS is current.
    pub fn listed(&self) -> bool
        ensures { result ≡ self.now.listed }
    {
        self.listed
    }

    /// The recorded interrupts, the oldest first.
    pub fn records(&self) -> &[Record]
        ensures { result.now ≡ self.now.records }
    {
        self.records.as_slice()
    }

    /// Does an event, and decides by the choice what its drop-offs leave open. Where memory ran out nothing has changed,
    /// and the event is one that isn't refused and stores something: that is this machine's own fault, and no reply.
    pub fn step(&mut self, event: &Event, choice: Choice) -> Result<Reply, OutOfMemory>
        ensures step { IfOk result (λ reply. Step self.old event.now reply self.new) }
        ensures own { IfOk result (λ reply. reply ≢ Reply.OutOfMemory) }
        ensures unchanged { OnErr result (self.new ≡ self.old) }
        ensures memory { OnErr result (MayStore self.old event.now) }
        ensures chosen { IfOk result (Follows (Step self.old event.now) choice) }
        ensures handed { first_refusal (checks self.old event.now) ≡ None → IfOk result (λ _. EndsAsChosen self.old event.now choice self.new) }
    {
        match self.refusal(event) {
            Some(why) => Ok(Reply::Refused(why)),
            None => self.act(event, choice),
        }
    }

    // Does an event that isn't refused.
    fn act(&mut self, event: &Event, choice: Choice) -> Result<Reply, OutOfMemory>
        requires allowed { first_refusal (checks self.old event.now) ≡ None }
        ensures acts { IfOk result (λ reply. Acts self.old event.now reply self.new) }
        ensures unchanged { OnErr result (self.new ≡ self.old) }
        ensures memory { OnErr result (Stores self.old event.now) }
        ensures chosen { IfOk result (Follows (Acts self.old event.now) choice) }
        ensures handed { IfOk result (λ _. EndsAsChosen self.old event.now choice self.new) }
    {
        match event {
            Event::Attach(slot, setup) => {
                self.attach(*slot, setup)?;
                Ok(Reply::Attached)
            }
            Event::DropOff(slot) => {
                self.drop_off(*slot);
                Ok(Reply::Dropped)
            }
            Event::Raise(slot, byte) => Ok(Reply::Raised(self.raise(*slot, *byte)?)),
            Event::AskJoin(slot) => {
                self.ask_join(*slot);
                Ok(Reply::Asked)
            }
            Event::AskRole(slot) => {
                self.ask_role(*slot);
                Ok(Reply::Asked)
            }
            Event::Serve(policy, cuts) => Ok(Reply::Served(self.serve(policy, cuts, choice)?)),
            Event::Enec(to, kinds, policy, cuts) => {
                self.rekind(to, Change::Enable, *kinds, policy, cuts, choice)
            }
            Event::Disec(to, kinds, policy, cuts) => {
                self.rekind(to, Change::Disable, *kinds, policy, cuts, choice)
            }
            Event::Reset(policy, cuts) => self.reset(policy, cuts, choice),
            Event::SendList(policy, cuts) => self.send_list(policy, cuts, choice),
            Event::ReadFrom(at, policy, cuts) => self.read(*at, policy, cuts, choice),
            Event::WriteTo(at, bytes, policy, cuts) => {
                self.write(*at, bytes.as_slice(), policy, cuts, choice)
            }
            Event::SetStatic(fixed, new, policy, cuts) => {
                self.set_static(*fixed, *new, policy, cuts, choice)
            }
            Event::SetNew(old, new, policy, cuts) => {
                self.set_new(*old, *new, policy, cuts, choice)
            }
            Event::Get(what, at, policy, cuts) => {
                self.get_datum(*what, *at, policy, cuts, choice)
            }
            Event::SetLength(way, most, to, policy, cuts) => {
                self.set_length(*way, *most, to, policy, cuts, choice)
            }
            Event::HandOver(to, cuts) => Ok(self.hand_over(*to, cuts, choice)),
            Event::OpenDaa(cuts) => Ok(Reply::Opened(self.open_daa(cuts))),
            Event::Round(cuts) => Ok(Reply::Round(self.round(cuts, choice)?)),
            Event::EndDaa => {
                self.end_daa();
                Ok(Reply::Ended)
            }
        }
    }

    // How many slots there are.
    pub(crate) fn slots(&self) -> usize
        ensures all { result ≡ length self.now.devices }
        ensures count { result ≡ SLOT_COUNT }
    {
        let raised = &self.raised;
        raised.len()
    }

    // The device in a slot, if there is one.
    pub(crate) fn device(&self, slot: Slot) -> Option<&PlainDevice>
        ensures { option_map (λ d. d.now) result ≡ device_at self.now slot }
    {
        self.devices.get(&slot)
    }

    // The stored values of an address, if it was given.
    pub(crate) fn entry(&self, address: Addr7) -> Option<&PlainEntry>
        ensures { option_map (λ e. e.now) result ≡ entry_at self.now address }
    {
        self.given.get(&address)
    }

    // The legacy target at a static address, if there is one.
    pub(crate) fn target(&self, address: Addr7) -> Option<&LegacyTarget>
        ensures { option_map (λ t. t.now) result ≡ legacy_target_at self.now address }
    {
        self.legacy.get(&address)
    }

    // The identity that is declared at a static address, if one is.
    pub(crate) fn declared_at(&self, address: Addr7) -> Option<Identity>
        ensures { result ≡ declared_at self.now address }
    {
        self.declared.get(&address).copied()
    }

    // The static address that is declared for an identity, if one is.
    pub(crate) fn fixed_of(&self, identity: &Identity) -> Option<Addr7>
        ensures { result ≡ fixed_of self.now.declared identity.now }
    {
        self.declared
            .iter()
            .find(|(_, declared)| **declared == *identity)
            .map(|(address, _)| *address)
    }

    // Whether an address was given.
    pub(crate) fn is_given(&self, address: Addr7) -> bool
        ensures { result ≡ is_some (entry_at self.now address) }
    {
        self.given.contains_key(&address)
    }
}
