ghost use Rattle.std.specs.Prelude.{◌≡◌, ◌≢◌, ℕ, ◌+◌, ◌*◌, ◌<◌, ◌≤◌, ◌++◌, ◌∷◌, ◌↔◌, [], length, true, Some, None, OnOk, IfOk, IsTrue};
ghost use Rattle.rtrb.specs.Ring.{known_items};
ghost use Rattle.i3c_shared.specs.Ports.{AllBegun, AllCovered, HasPort, SamePort, SamePorts};
ghost use Rattle.i3c_shared.specs.Rings.{AllDrained, AllFew, AllLooked, HasDrained, HasLooked, IsBegun, IsEndOf, IsWhole, known_of, put_out, raises_at, raises_in, ring_at, taken_in};
ghost use Rattle.i3c_shared.specs.Taking.{Adds};
ghost use Rattle.i3c_step.specs.Stays.{is_attached};
ghost use Rattle.i3c_shared.specs.Beginning.{no_rings};
ghost use Rattle.i3c_recorder.specs.Values.{Recorded};
ghost use Rattle.i3c_shared.specs.declared.port.TheConstants.{POSTS};
ghost use Rattle.i3c_base.specs.declared.range.TheConstants.{SLOTS};

use crate::closed::Closed;
use crate::port::{POSTS, Port};
use i3c_base::{Cuts, SLOTS, Setup, Slot};
use i3c_bus::Policy;
use i3c_frame::{Silent, Tap};
use i3c_recorder::Recorder;
use i3c_step::{Command, Event, OutOfMemory, Reply};
use rtrb::Consumer;
use std::alloc::{AllocError, Global};
use std::marker::Model;

/// The rings of the ports that are out, by slot.
pub(crate) type Rings = Vec<Option<Consumer<Option<u8>>>>;

/// As many entries as one call may add: what it takes up, and its own event.
const ADDED: usize = SLOTS * POSTS + 1;

/// A bus with its run, and the rings that its devices' posts are taken from.
pub struct Intake {
    recorder: Recorder,
    rings: Rings,
}

impl Model for Intake {
    ghost use Rattle.std.specs.Prelude.{◌≡◌, length};
    ghost use Rattle.i3c_base.specs.declared.range.TheConstants.{SLOTS};
    ghost use Rattle.i3c_shared.specs.Rings.{Fits};
    ghost use Rattle.i3c_shared.specs.Values.{IntakeValue};

    ghost Value = { IntakeValue };

    ghost view = { λ k. record {
      log = record { start = k.recorder.start; state = k.recorder.state; run = k.recorder.run; rings = k.rings.items };
      room = k.recorder.room;
      spare = k.recorder.spare;
    } };

    ghost invariant = { λ k. record { size : length k.rings.items ≡ SLOTS; fits : Fits k.rings.items k.recorder.run } };
}

impl Intake {
    ghost use Rattle.std.specs.Prelude.{IfErr, OnErr, MatchResult, MatchOption, is_some};
    ghost use mathlib.Core.List.{IsPrefix};
    ghost use Rattle.rtrb.specs.Ring.{consumer_capacity, received, sent};
    ghost use Rattle.i3c_base.specs.State.{device_at};
    ghost use Rattle.i3c_bus.specs.Asking.{Asks};
    ghost use Rattle.i3c_bus.specs.Wire.{IsWire};
    ghost use Rattle.i3c_frame.specs.Taps.{Tells};
    ghost use Rattle.i3c_step.specs.Commands.{event_of};
    ghost use Rattle.i3c_step.specs.Giving.{given_by};
    ghost use Rattle.i3c_step.specs.declared.events.Event.{Event as EventValue};
    ghost use Rattle.i3c_step.specs.declared.replies.Reply.{Reply as ReplyValue};
    ghost use Rattle.i3c_shared.specs.Calls.{is_awaited};
    ghost use Rattle.i3c_recorder.specs.KeptRuns.{IsBegun as IsBegunAt, IsLegalTo, Leads};
    ghost use Rattle.i3c_shared.specs.Closing.{AreWaiting};
    ghost use Rattle.i3c_shared.specs.Ports.{AllPosted, AllPostedFirst, AllWhole, IsFirstMissing, IsMissing, NoneMissing};
    ghost use Rattle.i3c_shared.specs.Raises.{raises_of};
    ghost use Rattle.i3c_shared.specs.Rings.{Fits, is_out};
    ghost use Rattle.i3c_shared.specs.Taking.{Grows, IsOther, IsReady, Makes, PutsOut, Stays, TakesUp};
    ghost use Rattle.i3c_shared.specs.Telling.{TellsOf};
    ghost use Rattle.i3c_shared.specs.Values.{Log, Rings as Seen};

    /// A bus whose main controller's port is out with this ring.
    pub(crate) fn new(recorder: Recorder, rings: Rings) -> Intake
        requires size { length rings.items ≡ SLOTS }
        requires fits { Fits rings.items recorder.run }
        ensures { result.log ≡ record { start = recorder.start; state = recorder.state; run = recorder.run; rings = rings.items } }
    {
        Intake { recorder, rings }
    }

    /// The active controller's slot.
    pub(crate) fn active(&self) -> Slot
        ensures { result ≡ self.now.log.state.active }
    {
        self.recorder.active()
    }

    /// Whether a slot holds a device.
    pub(crate) fn present(&self, slot: Slot) -> bool
        ensures { result ≡ is_some (device_at self.now.log.state slot) }
    {
        self.recorder.present(slot)
    }

    /// Whether a session is open.
    pub(crate) fn in_session(&self) -> bool
        ensures { result ≡ self.now.log.state.in_session }
    {
        self.recorder.in_session()
    }

    /// How many events the run has.
    pub(crate) fn events(&self) -> usize
        ensures { result ≡ length self.now.log.run }
    {
        self.recorder.events()
    }

    /// Whether a slot's port is out.
    pub(crate) fn is_out(&self, slot: Slot) -> bool
        ensures { result ≡ is_out self.now.log.rings slot }
    {
        self.rings[slot.index()].is_some()
    }

    /// Whether the slot is empty and its old port is out.
    pub(crate) fn is_awaited(&self, slot: Slot) -> bool
        ensures { result ≡ is_awaited self.now.log slot }
    {
        self.is_out(slot) && !self.present(slot)
    }

    /// Looks into the rings, and makes room for all that a call may add.
    fn ready(&mut self) -> Result<(), OutOfMemory>
        ensures same { Stays self.old.log self.new.log }
        ensures few { AllFew self.new.log.rings }
        ensures room { OnOk result (IsReady self.new) }
    {
        look(&mut self.rings);
        self.recorder.reserve(ADDED)
    }

    /// The same with a port in hand, which may be of any ring. If its slot's ring is its own, all that it posted is seen.
    fn ready_for(&mut self, port: &mut Port) -> Result<(), OutOfMemory>
        ensures same { Stays self.old.log self.new.log }
        ensures few { AllFew self.new.log.rings }
        ensures port { SamePort port.old port.new }
        ensures prefix { IsEndOf port.old (ring_at self.old.log.rings port.old.slot) → IsPrefix (raises_of port.old.slot self.old.log.run) (sent port.new.producer) }
        ensures whole { OnOk result (IsEndOf port.old (ring_at self.old.log.rings port.old.slot) → IsWhole port.new (ring_at self.new.log.rings port.old.slot)) }
        ensures room { OnOk result (IsReady self.new) }
    {
        look(&mut self.rings);
        if !covers_one(&mut self.rings, port) {
            return Err(OutOfMemory);
        }
        self.recorder.reserve(ADDED)
    }

    /// Takes up what was seen of the rings.
    fn take_up(&mut self)
        requires ready { IsReady self.old }
        requires few { AllFew self.old.log.rings }
        ensures taken { TakesUp self.old.log self.old.log.rings self.new.log }
        ensures fits { Fits self.new.log.rings self.new.log.run }
        ensures room { self.new.room ≡ true }
        ensures spare { 0 < self.new.spare }
    {
        drain(&mut self.recorder, &mut self.rings);
    }

    /// Applies one event that is neither a raise nor an attachment.
    fn apply<T: Tap>(&mut self, event: Event, tap: &mut T) -> Reply
        requires room { (0 < self.old.spare) × (self.old.room ≡ true) }
        requires other { IsOther event }
        ensures memory { result ≢ ReplyValue.OutOfMemory }
        ensures made { Makes self.old.log event result self.new.log }
        ensures told { Tells T.note_gives tap.old tap.new (IsWire self.old.log.state event result self.new.log.state) }
    {
        self.recorder.apply(event, tap)
    }

    /// Takes posts up, and then applies one event that is neither a raise nor an attachment. The tap is told the
    /// wire of that event.
    pub(crate) fn take_and_apply<T: Tap>(
        &mut self,
        event: Event,
        tap: &mut T,
    ) -> Result<Reply, OutOfMemory>
        requires { IsOther event }
        ensures { MatchResult result
            (λ reply. (reply ≢ ReplyValue.OutOfMemory) × TellsOf T.note_gives tap.old tap.new self.old.log event reply self.new.log)
            (λ _. (tap.new ≡ tap.old) × Stays self.old.log self.new.log) }
    {
        self.ready()?;
        self.take_up();
        Ok(self.apply(event, tap))
    }

    /// The same with a port in hand: if its slot's ring is its own, all that it posted is taken up.
    pub(crate) fn take_and_apply_for(
        &mut self,
        event: Event,
        port: &mut Port,
    ) -> Result<Reply, OutOfMemory>
        requires { IsOther event }
        ensures port { SamePort port.old port.new }
        ensures grows { MatchResult result (λ reply. (reply ≢ ReplyValue.OutOfMemory) × Grows self.old.log event reply self.new.log) (λ _. Stays self.old.log self.new.log) }
        ensures prefix { IsEndOf port.old (ring_at self.old.log.rings port.old.slot) → IsPrefix (raises_of port.old.slot self.new.log.run) (sent port.new.producer) }
        ensures all { OnOk result (IsEndOf port.old (ring_at self.old.log.rings port.old.slot) → raises_of port.old.slot self.new.log.run ≡ sent port.new.producer) }
    {
        self.ready_for(port)?;
        self.take_up();
        Ok(self.apply(event, &mut Silent))
    }

    /// Takes posts up, and then sends a frame under the role.
    pub(crate) fn command<P: Policy, T: Tap>(
        &mut self,
        command: Command,
        policy: &mut P,
        tap: &mut T,
        cuts: Cuts,
    ) -> Result<Reply, OutOfMemory>
        ensures { MatchResult result
            (λ reply. (reply ≢ ReplyValue.OutOfMemory) × ((g : Grows self.old.log (event_of command (given_by reply) cuts) reply self.new.log)
            × Asks P.verdict_gives policy.old policy.new g.mid.state reply
            × Tells T.note_gives tap.old tap.new (IsWire g.mid.state (event_of command (given_by reply) cuts) reply self.new.log.state)))
            (λ _. (policy.new ≡ policy.old) × (tap.new ≡ tap.old) × Stays self.old.log self.new.log) }
    {
        self.ready()?;
        self.take_up();
        Ok(self.frame(command, policy, tap, cuts))
    }

    /// Sends one frame under the role.
    fn frame<P: Policy, T: Tap>(
        &mut self,
        command: Command,
        policy: &mut P,
        tap: &mut T,
        cuts: Cuts,
    ) -> Reply
        requires room { (0 < self.old.spare) × (self.old.room ≡ true) }
        ensures memory { result ≢ ReplyValue.OutOfMemory }
        ensures made { Makes self.old.log (event_of command (given_by result) cuts) result self.new.log }
        ensures asked { Asks P.verdict_gives policy.old policy.new self.old.log.state result }
        ensures told { Tells T.note_gives tap.old tap.new (IsWire self.old.log.state (event_of command (given_by result) cuts) result self.new.log.state) }
    {
        self.recorder.frame(command, policy, tap, cuts)
    }

    /// Takes posts up, and then attaches a device: if that is accepted, its port goes out with this ring.
    pub(crate) fn attach(
        &mut self,
        slot: Slot,
        setup: Setup,
        ring: Consumer<Option<u8>>,
    ) -> Result<Reply, OutOfMemory>
        requires fresh { (received ring ≡ []) × (consumer_capacity ring ≡ POSTS) }
        ensures { MatchResult result
            (λ reply. (taken : Log) × Grows self.old.log (EventValue.Attach slot setup) reply taken × PutsOut slot ring reply taken self.new.log)
            (λ _. Stays self.old.log self.new.log) }
    {
        self.ready()?;
        self.take_up();
        Ok(self.apply_attach(slot, setup, ring))
    }

    /// Applies an attachment: if it is accepted, its port goes out with this ring.
    fn apply_attach(&mut self, slot: Slot, setup: Setup, ring: Consumer<Option<u8>>) -> Reply
        requires room { (0 < self.old.spare) × (self.old.room ≡ true) }
        requires fresh { (received ring ≡ []) × (consumer_capacity ring ≡ POSTS) }
        ensures { (taken : Log) × Makes self.old.log (EventValue.Attach slot setup) result taken × PutsOut slot ring result taken self.new.log }
    {
        let reply = self.recorder.apply(Event::Attach(slot, setup), &mut Silent);
        if is_attached(&reply) {
            put_out(&mut self.rings, slot, ring);
            return reply;
        }
        reply
    }

    /// Takes the slot's ring away.
    pub(crate) fn take_in(&mut self, slot: Slot)
        ensures { self.new.log ≡ record self.old.log { rings = taken_in slot self.old.log.rings } }
    {
        take_in(&mut self.rings, slot);
    }

    /// Takes posts up for the last time, and takes the bus apart. With all ports in hand whose rings are here, all posts
    /// are taken up. Without memory it comes back whole.
    pub(crate) fn retire(self, ports: &mut Vec<Port>) -> Result<Closed, Intake>
        ensures ports { SamePorts ports.old.items ports.new.items }
        ensures closed { IfOk result (λ c. (seen : Seen) × (end : Log) × AllLooked self.log.rings seen × TakesUp self.log seen end × (c.run.entries ≡ end.run) × (c.records ≡ end.state.records) × AreWaiting c.waiting end.state × IsLegalTo end.run end.state) }
        ensures whole { IfOk result (λ c. AllPosted self.log.rings ports.old.items c.run.entries) }
        ensures prefix { IfErr result (λ k. AllPostedFirst self.log.rings ports.old.items k.log.run) }
        ensures back { IfErr result (λ k. Stays self.log k.log) }
    {
        let mut intake = self;
        let Ok(()) = intake.ready_for_all(ports) else {
            return Err(intake);
        };
        intake.take_up();
        let waiting = intake.waiting();
        let Intake { recorder, rings: _ } = intake;
        let (run, records) = recorder.retire();
        Ok(Closed {
            run,
            records,
            waiting,
        })
    }

    /// How many interrupts of each slot's device wait.
    fn waiting(&self) -> [usize; SLOTS]
        ensures { AreWaiting result self.now.log.state }
    {
        let recorder = &self.recorder;
        std::array::from_fn(|index| recorder.waiting(Slot::from_index(index)))
    }

    /// The run is legal and leads to the bus, and what was received from the ring of each port that is out are the bytes
    /// of its raises.
    pub(crate) fn keeps(&self)
        ensures begun { IsBegunAt self.now.log.start }
        ensures leads { Leads self.now.log.start self.now.log.run self.now.log.state }
        ensures fits { Fits self.now.log.rings self.now.log.run }
    {
        self.recorder.keeps();
    }

    /// Whether the slot's port is out and not among these.
    fn is_missing(&self, slot: Slot, ports: &Vec<Port>) -> bool
        ensures { IsTrue result ↔ IsMissing self.now.log.rings ports.now.items slot }
    {
        self.is_out(slot) && !has_port(ports, slot)
    }

    /// The lowest slot whose port is out and not among these.
    pub(crate) fn missing(&self, ports: &Vec<Port>) -> Option<Slot>
        ensures { MatchOption result (NoneMissing self.now.log.rings ports.now.items) (λ s. IsFirstMissing self.now.log.rings ports.now.items s) }
    {
        let _rings = &self.rings;
        for index in 0..SLOTS {
            let slot = Slot::from_index(index);
            if self.is_missing(slot, ports) {
                return Some(slot);
            }
        }
        None
    }

    /// Ends it without closing the bus. Its recorder goes too.
    pub(crate) fn let_go(self) {
        let Intake { recorder, rings: _ } = self;
        recorder.let_go();
    }

    /// Compares all these ports with their slots' rings, and takes nothing up.
    pub(crate) fn compare_all(&mut self, ports: &mut Vec<Port>)
        ensures same { self.new ≡ self.old }
        ensures ports { SamePorts ports.old.items ports.new.items }
        ensures prefix { AllPostedFirst self.old.log.rings ports.old.items self.old.log.run }
    {
        covers_all(&mut self.rings, ports);
    }

    /// Looks into the rings with all these ports in hand, and makes room.
    fn ready_for_all(&mut self, ports: &mut Vec<Port>) -> Result<(), OutOfMemory>
        ensures same { Stays self.old.log self.new.log }
        ensures few { AllFew self.new.log.rings }
        ensures ports { SamePorts ports.old.items ports.new.items }
        ensures prefix { AllPostedFirst self.old.log.rings ports.old.items self.old.log.run }
        ensures whole { OnOk result (AllWhole self.old.log.rings self.new.log.rings ports.old.items) }
        ensures room { OnOk result (IsReady self.new) }
    {
        look(&mut self.rings);
        if !covers_all(&mut self.rings, ports) {
            return Err(OutOfMemory);
        }
        self.recorder.reserve(ADDED)
    }
}

/// The rings at the start: the main controller's port is out with this one.
pub(crate) fn first_rings(alloc: Global, ring: Consumer<Option<u8>>) -> Result<Rings, AllocError>
    ensures { IfOk result (λ rings. rings.items ≡ put_out 0 ring no_rings) }
{
    let mut rings = Vec::new(alloc);
    rings.reserve(SLOTS)?;
    for _ in 0..SLOTS {
        rings.push_reserved(None);
    }
    put_out(&mut rings, Slot::default(), ring);
    Ok(rings)
}

/// The slot's port goes out with this ring.
fn put_out(rings: &mut Rings, slot: Slot, ring: Consumer<Option<u8>>)
    requires { length rings.old.items ≡ SLOTS }
    ensures { rings.new.items ≡ put_out slot ring rings.old.items }
{
    rings[slot.index()] = Some(ring);
}

/// The slot's port comes back.
fn take_in(rings: &mut Rings, slot: Slot)
    requires { length rings.old.items ≡ SLOTS }
    ensures { rings.new.items ≡ taken_in slot rings.old.items }
{
    rings[slot.index()] = None;
}

/// Whether a device was attached.
fn is_attached(reply: &Reply) -> bool
    ensures { result ≡ is_attached reply.now }
{
    match reply {
        Reply::Attached => true,
        _ => false,
    }
}

/// Whether a port of the slot is among these.
fn has_port(ports: &Vec<Port>, slot: Slot) -> bool
    ensures { IsTrue result ↔ HasPort ports.now.items slot }
{
    for port in ports {
        if port.slot() == slot {
            return true;
        }
    }
    false
}

/// Looks into a ring.
fn look_one(ring: &mut Option<Consumer<Option<u8>>>)
    ensures { HasLooked ring.old ring.new }
{
    if let Some(ring) = ring {
        ring.slots();
    }
}

/// Looks into all rings.
fn look(rings: &mut Rings)
    ensures { AllLooked rings.old.items rings.new.items }
{
    for ring in rings.iter_mut() {
        look_one(ring);
    }
}

/// Makes a raise of a post.
fn raise(recorder: &mut Recorder, slot: Slot, byte: Option<u8>)
    requires room { recorder.old.room ≡ true }
    requires spare { 0 < recorder.old.spare }
    ensures added { Adds recorder.old (raises_at slot (byte ∷ [])) recorder.new }
    ensures room { recorder.new.room ≡ true }
    ensures spare { recorder.old.spare ≤ recorder.new.spare + 1 }
{
    recorder.apply(Event::Raise(slot, byte), &mut Silent);
}

/// Makes a raise of each post that is known to be in a ring.
fn drain_known(recorder: &mut Recorder, slot: Slot, ring: &mut Consumer<Option<u8>>)
    requires room { recorder.old.room ≡ true }
    requires spare { length (known_items ring.old) ≤ recorder.old.spare }
    ensures drained { HasDrained (Some ring.old) (Some ring.new) }
    ensures added { Adds recorder.old (raises_at slot (known_items ring.old)) recorder.new }
    ensures room { recorder.new.room ≡ true }
    ensures spare { recorder.old.spare ≤ recorder.new.spare + length (known_items ring.old) }
{
    let count = ring.cached_slots();
    for _ in 0..count {
        let byte = ring.pop_known();
        raise(recorder, slot, byte);
    }
}

/// The same for a slot. Without a ring no port was handed out for it, and nothing happens.
fn drain_one(recorder: &mut Recorder, slot: Slot, ring: &mut Option<Consumer<Option<u8>>>)
    requires room { recorder.old.room ≡ true }
    requires spare { length (known_of ring.old) ≤ recorder.old.spare }
    ensures drained { HasDrained ring.old ring.new }
    ensures added { Adds recorder.old (raises_at slot (known_of ring.old)) recorder.new }
    ensures room { recorder.new.room ≡ true }
    ensures spare { recorder.old.spare ≤ recorder.new.spare + length (known_of ring.old) }
{
    if let Some(ring) = ring {
        drain_known(recorder, slot, ring);
    }
}

/// Makes a raise of each post that is known to be in the rings, in the order of the slots.
fn drain(recorder: &mut Recorder, rings: &mut Rings)
    requires size { length rings.old.items ≡ SLOTS }
    requires room { recorder.old.room ≡ true }
    requires spare { SLOTS * POSTS + 1 ≤ recorder.old.spare }
    requires few { AllFew rings.old.items }
    ensures drained { AllDrained rings.old.items rings.new.items }
    ensures added { Adds recorder.old (raises_in rings.old.items) recorder.new }
    ensures room { recorder.new.room ≡ true }
    ensures spare { 0 < recorder.new.spare }
{
    let mut index = 0;
    for ring in rings.iter_mut() {
        drain_one(recorder, Slot::from_index(index), ring);
        index += 1;
    }
}

/// Whether all that a port posted is known, if its slot's ring is its own.
fn covers_one(rings: &mut Rings, port: &mut Port) -> bool
    requires { length rings.old.items ≡ SLOTS }
    ensures rings { rings.new.items ≡ rings.old.items }
    ensures port { SamePort port.old port.new }
    ensures prefix { IsEndOf port.old (ring_at rings.old.items port.old.slot) → IsBegun port.new (ring_at rings.old.items port.old.slot) }
    ensures whole { IsTrue result → IsEndOf port.old (ring_at rings.old.items port.old.slot) → IsWhole port.new (ring_at rings.old.items port.old.slot) }
{
    let slot = port.slot();
    port.covered_by(&mut rings[slot.index()])
}

/// The same of all these ports.
fn covers_all(rings: &mut Rings, ports: &mut Vec<Port>) -> bool
    requires { length rings.old.items ≡ SLOTS }
    ensures rings { rings.new.items ≡ rings.old.items }
    ensures ports { SamePorts ports.old.items ports.new.items }
    ensures prefix { AllBegun rings.old.items ports.old.items }
    ensures whole { IsTrue result → AllCovered rings.old.items ports.old.items }
{
    let mut whole = true;
    for port in ports.iter_mut() {
        whole &= covers_one(rings, port);
    }
    whole
}
