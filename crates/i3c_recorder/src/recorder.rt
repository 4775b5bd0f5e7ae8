ghost use Rattle.std.specs.Prelude.{◌≡◌, ◌≢◌, ◌+◌, ◌<◌, ◌≤◌, ◌++◌, ◌∷◌, [], length, true, None, OnOk};
ghost use Rattle.i3c_step.specs.Commands.{event_of};
ghost use Rattle.i3c_step.specs.Giving.{given_by};

use crate::entry::Entry;
use crate::run::Run;
use i3c_base::{Addr7, Cuts, Fixed, Served, Setup, Slot, Verdict};
use i3c_bus::{Bus, Hand, Policy, Records};
use i3c_frame::Tap;
use i3c_legacy::Legacies;
use i3c_step::{Command, Event, OutOfMemory, Reply, StartFault};
use std::alloc::Global;
use std::marker::Model;
use std::mem;

/// What a bus began with: its main controller with its first address, and what has a static one. From this and
/// from the events of its run the bus could be made again.
#[derive(Drop)]
struct Beginning {
    main: Setup,
    address: Addr7,
    legacies: Legacies,
}

impl Beginning {
    ghost use Rattle.std.specs.Prelude.{◌≡◌};

    /// A bus's, whose main controller's address isn't known yet.
    fn new(main: &Setup, legacies: &Legacies) -> Beginning
        ensures main { result.main ≡ main.now }
        ensures legacies { result.legacies ≡ legacies.now }
    {
        Beginning {
            main: *main,
            address: Addr7::default(),
            legacies: legacies.copied(),
        }
    }
}

/// A bus with the run that led to it. It holds the bus's role or session.
pub struct Recorder {
    bus: Bus,
    hand: Option<Hand>,
    run: Run,
    beginning: Beginning,
}

impl Model for Recorder {
    ghost use Rattle.std.specs.Prelude.{◌≡◌, Some};
    ghost use Rattle.i3c_base.specs.State.{IsStart};
    ghost use Rattle.i3c_bus.specs.Hands.{HandFits};
    ghost use Rattle.i3c_bus.specs.declared.hand.Hand.{Hand as HandValue};
    ghost use Rattle.i3c_recorder.specs.Beginning.{first_state};
    ghost use Rattle.i3c_recorder.specs.KeptRuns.{Leads};
    ghost use Rattle.i3c_recorder.specs.Values.{Recorded};

    ghost Value = { Recorded };

    ghost view = { λ k. record {
      start = first_state k.beginning.main k.beginning.address k.beginning.legacies;
      state = k.bus.state;
      run = k.run.entries;
      room = k.bus.room;
      spare = k.run.spare;
    } };

    ghost invariant = { λ k. record {
      hand : (h : HandValue) × (k.hand ≡ Some h) × HandFits h k.bus.state;
      begun : (main : _) × (board : _) × IsStart main board (first_state k.beginning.main k.beginning.address k.beginning.legacies);
      legal : Leads (first_state k.beginning.main k.beginning.address k.beginning.legacies) k.run.entries k.bus.state;
    } };
}

impl Recorder {
    ghost use Rattle.std.specs.Prelude.{IfOk, IsOk, is_some, ◌↔◌};
    ghost use Rattle.i3c_base.specs.Numbers.{is_capable};
    ghost use Rattle.i3c_base.specs.State.{IsStart, device_at};
    ghost use Rattle.i3c_bus.specs.Asking.{Asks};
    ghost use Rattle.i3c_bus.specs.Readings.{waiting_of};
    ghost use Rattle.i3c_bus.specs.Wire.{IsWire};
    ghost use Rattle.i3c_frame.specs.Taps.{Tells};
    ghost use Rattle.i3c_step.specs.Serving.{recorded_at};
    ghost use Rattle.i3c_step.specs.Step.{Step};
    ghost use Rattle.i3c_step.specs.declared.replies.Reply.{Reply as ReplyValue};
    ghost use Rattle.i3c_recorder.specs.KeptRuns.{IsBegun, IsLegalTo, Leads};

    /// A bus with its main controller, and an empty run.
    pub fn new(alloc: Global, main: Setup, legacies: Legacies) -> Result<Recorder, StartFault>
        ensures capable { IsOk result ↔ (is_capable main.identity.bcr ≡ true) }
        ensures start { IfOk result (λ made. IsStart main legacies made.start × (made.state ≡ made.start)) }
        ensures run { IfOk result (λ made. made.run ≡ []) }
    {
        let mut beginning = Beginning::new(&main, &legacies);
        let (bus, role) = Bus::new(alloc, main, legacies)?;
        let Some(address) = bus.address(bus.active()) else {
            unreachable!()
        };
        beginning.address = address;
        Ok(Recorder {
            bus,
            hand: Some(Hand::Role(role)),
            run: Run::new(alloc),
            beginning,
        })
    }

    /// Makes room for one more record and for `more` entries. It has no other effect.
    pub fn reserve(&mut self, more: usize) -> Result<(), OutOfMemory>
        ensures start { self.new.start ≡ self.old.start }
        ensures state { self.new.state ≡ self.old.state }
        ensures run { self.new.run ≡ self.old.run }
        ensures room { OnOk result ((more ≤ self.new.spare) × (self.new.room ≡ true)) }
    {
        self.run.reserve(more)?;
        self.bus.make_room()
    }

    /// One event, which is kept with its reply. The tap is told its wire.
    pub fn apply<T: Tap>(&mut self, event: Event, tap: &mut T) -> Reply
        requires spare { 0 < self.old.spare }
        ensures start { self.new.start ≡ self.old.start }
        ensures run { self.new.run ≡ self.old.run ++ record { event = event; reply = result } ∷ [] }
        ensures step { Step self.old.state event result self.new.state }
        ensures told { Tells T.note_gives tap.old tap.new (IsWire self.old.state event result self.new.state) }
        ensures memory { self.old.room ≡ true → result ≢ ReplyValue.OutOfMemory }
        ensures room { self.old.room ≡ true → recorded_at result ≡ None → self.new.room ≡ true }
        ensures spare { self.old.spare ≤ self.new.spare + 1 }
    {
        let Some(hand) = self.hand.take() else {
            unreachable!()
        };
        let (hand, reply) = self.bus.step(hand, &event, tap);
        match mem::replace(&mut self.hand, Some(hand)) {
            None => {}
            Some(_) => unreachable!(),
        }
        let kept = reply;
        self.run.push(Entry { event, reply: kept });
        reply
    }

    /// A frame under the role, which is kept with the verdicts that its policy gave. The tap is told its wire.
    pub fn frame<P: Policy, T: Tap>(
        &mut self,
        command: Command,
        policy: &mut P,
        tap: &mut T,
        cuts: Cuts,
    ) -> Reply
        requires spare { 0 < self.old.spare }
        ensures start { self.new.start ≡ self.old.start }
        ensures run { self.new.run ≡ self.old.run ++ record { event = event_of command (given_by result) cuts; reply = result } ∷ [] }
        ensures step { Step self.old.state (event_of command (given_by result) cuts) result self.new.state }
        ensures told { Tells T.note_gives tap.old tap.new (IsWire self.old.state (event_of command (given_by result) cuts) result self.new.state) }
        ensures asked { Asks P.verdict_gives policy.old policy.new self.old.state result }
        ensures memory { self.old.room ≡ true → result ≢ ReplyValue.OutOfMemory }
        ensures spare { self.old.spare ≤ self.new.spare + 1 }
    {
        let Some(hand) = &self.hand else {
            unreachable!()
        };
        let reply = self.bus.command(hand, &command, policy, tap, &cuts);
        let event = event_of(command, given(&reply), cuts);
        self.run.push(Entry { event, reply });
        reply
    }

    /// The active controller's slot.
    pub fn active(&self) -> Slot
        ensures { result ≡ self.now.state.active }
    {
        self.bus.active()
    }

    /// Whether a slot holds a device.
    pub fn present(&self, slot: Slot) -> bool
        ensures { result ≡ is_some (device_at self.now.state slot) }
    {
        self.bus.present(slot)
    }

    /// How many interrupts of a slot's device wait.
    pub fn waiting(&self, slot: Slot) -> usize
        ensures { result ≡ waiting_of (device_at self.now.state slot) }
    {
        self.bus.waiting(slot)
    }

    /// Whether a session is open.
    pub fn in_session(&self) -> bool
        ensures { result ≡ self.now.state.in_session }
    {
        self.bus.in_session()
    }

    /// How many events have happened.
    pub fn events(&self) -> usize
        ensures { result ≡ length self.now.run }
    {
        self.run.len()
    }

    /// The run is legal, and leads to the bus.
    pub fn keeps(&self)
        ensures begun { IsBegun self.now.start }
        ensures leads { Leads self.now.start self.now.run self.now.state }
    {
        let _bus = &self.bus;
    }

    /// Spends it.
    pub fn let_go(self) {
        let (_, _) = self.retire();
    }

    /// Takes it apart: its run and its records.
    pub fn retire(self) -> (Run, Records)
        ensures run { result.0.entries ≡ self.run }
        ensures records { result.1 ≡ self.state.records }
        ensures legal { IsLegalTo self.run self.state }
    {
        let Recorder {
            bus,
            hand,
            run,
            beginning: _,
        } = self;
        match hand {
            Some(hand) => (run, bus.retire(hand)),
            None => unreachable!(),
        }
    }
}

/// The verdicts that a frame's policy gave, by its reply.
fn given(reply: &Reply) -> Fixed
    ensures { result ≡ given_by reply.now }
{
    let mut given = Fixed {
        join: Verdict::Refuse,
        role: Verdict::Refuse,
        interrupt: Verdict::Refuse,
    };
    let served = match reply {
        Reply::Served(served) => *served,
        Reply::Framed(framed) => framed.served,
        Reply::Opened(served) => *served,
        Reply::Handed(served) => *served,
        _ => return given,
    };
    match served {
        Served::Joining => given.join = Verdict::Accept,
        Served::WantsRole(_) => given.role = Verdict::Accept,
        Served::Recorded(_) | Served::Torn => given.interrupt = Verdict::Accept,
        Served::Quiet | Served::Refused => {}
    }
    given
}

/// The event that a frame is, with this policy and these cuts.
fn event_of(command: Command, policy: Fixed, cuts: Cuts) -> Event
    ensures { result ≡ event_of command policy cuts }
{
    match command {
        Command::Serve => Event::Serve(policy, cuts),
        Command::Enec(to, kinds) => Event::Enec(to, kinds, policy, cuts),
        Command::Disec(to, kinds) => Event::Disec(to, kinds, policy, cuts),
        Command::Reset => Event::Reset(policy, cuts),
        Command::SendList => Event::SendList(policy, cuts),
        Command::ReadFrom(from) => Event::ReadFrom(from, policy, cuts),
        Command::WriteTo(to, bytes) => Event::WriteTo(to, bytes, policy, cuts),
        Command::SetStatic(fixed, new) => Event::SetStatic(fixed, new, policy, cuts),
        Command::SetNew(old, new) => Event::SetNew(old, new, policy, cuts),
        Command::Get(what, from) => Event::Get(what, from, policy, cuts),
        Command::SetLength(way, most, to) => Event::SetLength(way, most, to, policy, cuts),
    }
}
