use crate::books::Books;
use crate::closed::Closed;
use crate::faults::{
    AttachFault, CallFault, CloseFault, DropFault, HandOverFault, Left, StartFault,
};
use crate::held::{HeldRole, HeldSession, spend_role};
use crate::intake::{Intake, first_rings};
use crate::port::{POSTS, Port, spend_ports};
use crate::replying::{asked, attached, dropped, ended, handed, opened, rounded};
use i3c_base::{Addr7, Cuts, RoundReply, Served, Setup, Slot};
use i3c_bus::Policy;
use i3c_frame::Tap;
use i3c_legacy::Legacies;
use i3c_recorder::Recorder;
use i3c_step::{Command, Event, OutOfMemory, Reply};
use rtrb::RingBuffer;
use std::alloc::Global;
use std::marker::Model;
use std::mem;
use std::sync::ledger::{Blank, Ledger};

/// The state under the lock: the bus with its run, the rings of the ports that are out, the books of three ledgers, and the
/// parked role.
///
/// Each call first takes up what its devices posted, at most eight posts of each port, in the order of the slots, each as one
/// raise; then comes its own event. A call that answers `SlotTaken` for an empty slot takes up nothing and is no event; nor
/// is one that answers `OutOfMemory`, before which nothing is taken.
///
/// All shares of the ledgers are in the one role or session of the bus, in a thread's hand or parked. So what a thread holds
/// is the active controller's, is a session just while one is open, and counts each frame event of the run.
pub struct Kept<L: Ledger, M: Ledger, N: Ledger> {
    alloc: Global,
    intake: Intake,
    books: Books<L, M, N>,
    parked: Option<HeldRole<L, M, N>>,
}

impl<L: Ledger, M: Ledger, N: Ledger> Model for Kept<L, M, N> {
    ghost use Rattle.std.specs.Prelude.{◌≡◌};
    ghost use Rattle.i3c_shared.specs.Books.{books_of};
    ghost use Rattle.i3c_shared.specs.Values.{KeptValue};

    ghost Value = { KeptValue };

    ghost view = { λ k. record { log = k.intake.log; books = k.books; parked = k.parked } };

    ghost invariant = { λ k. k.books ≡ books_of k.intake.log };
}

/// What a refused close hands back.
pub struct Unclosed<B, R> {
    /// The bus, as it was.
    pub bus: B,
    /// The role, if one was given.
    pub role: Option<R>,
    /// The ports that were given.
    pub ports: Vec<Port>,
    /// Why the bus stays open.
    pub fault: CloseFault,
}

impl<L: Ledger, M: Ledger, N: Ledger> Kept<L, M, N> {
    ghost use Rattle.std.specs.Prelude.{◌≡◌, ◌≢◌, ◌+◌, ◌↔◌, true, false, IfOk, IfErr, IsErrOf, MatchResult, OnOk, Err};
    ghost use mathlib.Core.List.{IsPrefix};
    ghost use Rattle.rtrb.specs.Ring.{sent};
    ghost use Rattle.i3c_base.specs.Numbers.{is_capable};
    ghost use Rattle.i3c_step.specs.declared.events.Event.{Event as EventValue};
    ghost use Rattle.i3c_step.specs.declared.replies.Refusal.{Refusal as RefusalValue};
    ghost use Rattle.i3c_step.specs.declared.replies.Reply.{Reply as ReplyValue};
    ghost use Rattle.i3c_shared.specs.declared.faults.CallFault.{CallFault as CallFaultValue};
    ghost use Rattle.i3c_shared.specs.declared.faults.DropFault.{DropFault as DropFaultValue};
    ghost use Rattle.i3c_shared.specs.declared.faults.HandOverFault.{HandOverFault as HandOverFaultValue};
    ghost use Rattle.i3c_shared.specs.declared.faults.StartFault.{StartFault as StartFaultValue};
    ghost use Rattle.i3c_shared.specs.Beginning.{IsMade};
    ghost use Rattle.i3c_shared.specs.Books.{IsHeld, counted, is_frame, unended, unhanded, unopened};
    ghost use Rattle.i3c_shared.specs.Calls.{AsksFor, Attaches, Commands, Drops, Ends, Hands, Opens, Rounds, TakesRole};
    ghost use Rattle.i3c_shared.specs.Closing.{Closes, RefusesClose, is_role_out};
    ghost use Rattle.i3c_shared.specs.Ports.{AllPostedFirst, NoneMissing, SamePort, SamePorts};
    ghost use Rattle.i3c_shared.specs.Raises.{raises_of};
    ghost use Rattle.i3c_shared.specs.Rings.{IsEndOf, ring_at};
    ghost use Rattle.i3c_shared.specs.Taking.{Grows, IsKept, IsOther, Stays};
    ghost use Rattle.i3c_shared.specs.Telling.{TellsFrame, TellsIf, ending_reply, handing_reply, opening_reply, round_reply};

    /// A bus with its main controller in slot 0, whose role and port are out, and an empty run. It answers `NotCapable`
    /// where the main device's BCR isn't a controller's.
    pub fn new(
        alloc: Global,
        main: Setup,
        legacies: Legacies,
        active: Blank,
        session: Blank,
        frames: Blank,
    ) -> Result<(Kept<L, M, N>, HeldRole<L, M, N>, Port), StartFault>
        requires active { (active.name ≡ L.name) × (active.parts ≡ L.parts) × (active.parts ≡ 1) }
        requires session { (session.name ≡ M.name) × (session.parts ≡ M.parts) × (session.parts ≡ 1) }
        requires frames { (frames.name ≡ N.name) × (frames.parts ≡ N.parts) × (frames.parts ≡ 1) }
        ensures capable { IsErrOf result StartFaultValue.NotCapable ↔ (is_capable main.identity.bcr ≡ false) }
        ensures made { IfOk result (λ made. IsMade main legacies made.0 made.1 made.2) }
    {
        let Ok(recorder) = Recorder::new(alloc, main, legacies) else {
            return Err(StartFault::NotCapable);
        };
        let Ok((producer, ring)) = RingBuffer::new(alloc, POSTS) else {
            recorder.let_go();
            return Err(StartFault::OutOfMemory);
        };
        let Ok(rings) = first_rings(alloc, ring) else {
            recorder.let_go();
            return Err(StartFault::OutOfMemory);
        };
        let (books, shares) = Books::open(active, session, frames);
        let kept = Kept {
            alloc,
            intake: Intake::new(recorder, rings),
            books,
            parked: None,
        };
        Ok((
            kept,
            HeldRole { shares },
            Port::new(Slot::default(), producer),
        ))
    }

    /// A device enters a slot (no address), and its port goes out. It answers `SlotTaken` where the slot holds a device,
    /// and, as no event, where it is empty and its old port is out.
    pub fn attach(&mut self, slot: Slot, setup: Setup) -> Result<Port, AttachFault>
        ensures { Attaches self.old self.new slot setup result }
    {
        if self.intake.is_awaited(slot) {
            return Err(AttachFault::SlotTaken);
        }
        let Ok((producer, ring)) = RingBuffer::new(self.alloc, POSTS) else {
            return Err(AttachFault::OutOfMemory);
        };
        let Ok(reply) = self.intake.attach(slot, setup, ring) else {
            return Err(AttachFault::OutOfMemory);
        };
        let Ok(()) = attached(reply) else {
            return Err(AttachFault::SlotTaken);
        };
        Ok(Port::new(slot, producer))
    }

    /// Applies an event of a port's device, which is no frame.
    fn apply_for(&mut self, event: Event, port: &mut Port) -> Result<Reply, OutOfMemory>
        requires other { IsOther event }
        requires local { is_frame event ≡ false }
        ensures kept { (self.new.books ≡ self.old.books) × (self.new.parked ≡ self.old.parked) }
        ensures port { SamePort port.old port.new }
        ensures grows { MatchResult result (λ reply. (reply ≢ ReplyValue.OutOfMemory) × Grows self.old.log event reply self.new.log) (λ _. Stays self.old.log self.new.log) }
        ensures prefix { IsEndOf port.old (ring_at self.old.log.rings port.old.slot) → IsPrefix (raises_of port.old.slot self.new.log.run) (sent port.new.producer) }
        ensures all { OnOk result (IsEndOf port.old (ring_at self.old.log.rings port.old.slot) → raises_of port.old.slot self.new.log.run ≡ sent port.new.producer) }
    {
        self.intake.take_and_apply_for(event, port)
    }

    /// The port's device drops off, and the port is spent: `WasGone` where a cut had taken the device away. The active
    /// controller stays, and its port comes back.
    pub fn drop_off(&mut self, port: Port) -> Result<Left, (Port, DropFault)>
        ensures drops { Drops self.old self.new port result }
        ensures prefix { IsEndOf port (ring_at self.old.log.rings port.slot) → IsPrefix (raises_of port.slot self.new.log.run) (sent port.producer) }
        ensures all { OnOk result (IsEndOf port (ring_at self.old.log.rings port.slot) → raises_of port.slot self.new.log.run ≡ sent port.producer) }
        ensures stays { IfErr result (λ refused. refused.1 ≢ DropFaultValue.OutOfMemory → IsEndOf port (ring_at self.old.log.rings port.slot) → raises_of port.slot self.new.log.run ≡ sent port.producer) }
    {
        let mut port = port;
        let slot = port.slot();
        let Ok(reply) = self.apply_for(Event::DropOff(slot), &mut port) else {
            return Err((port, DropFault::OutOfMemory));
        };
        match dropped(reply) {
            Ok(left) => {
                self.intake.take_in(slot);
                port.let_go();
                Ok(left)
            }
            Err(why) => Err((port, why)),
        }
    }

    /// The port's device wishes for the controller role (I3C Basic 5.1.7.1).
    pub fn ask_role(&mut self, port: &mut Port) -> Result<(), CallFault>
        ensures asks { AsksFor self.old self.new (EventValue.AskRole port.old.slot) result }
        ensures port { SamePort port.old port.new }
        ensures prefix { IsEndOf port.old (ring_at self.old.log.rings port.old.slot) → IsPrefix (raises_of port.old.slot self.new.log.run) (sent port.new.producer) }
        ensures all { (result ≢ Err CallFaultValue.OutOfMemory) → IsEndOf port.old (ring_at self.old.log.rings port.old.slot) → raises_of port.old.slot self.new.log.run ≡ sent port.new.producer }
    {
        let event = Event::AskRole(port.slot());
        let Ok(reply) = self.apply_for(event, port) else {
            return Err(CallFault::OutOfMemory);
        };
        match asked(reply) {
            Ok(()) => Ok(()),
            Err(why) => Err(CallFault::Refused(why)),
        }
    }

    /// The port's device wishes to join (Hot-Join, I3C Basic 5.1.5).
    pub fn ask_join(&mut self, port: &mut Port) -> Result<(), CallFault>
        ensures asks { AsksFor self.old self.new (EventValue.AskJoin port.old.slot) result }
        ensures port { SamePort port.old port.new }
        ensures prefix { IsEndOf port.old (ring_at self.old.log.rings port.old.slot) → IsPrefix (raises_of port.old.slot self.new.log.run) (sent port.new.producer) }
        ensures all { (result ≢ Err CallFaultValue.OutOfMemory) → IsEndOf port.old (ring_at self.old.log.rings port.old.slot) → raises_of port.old.slot self.new.log.run ≡ sent port.new.producer }
    {
        let event = Event::AskJoin(port.slot());
        let Ok(reply) = self.apply_for(event, port) else {
            return Err(CallFault::OutOfMemory);
        };
        match asked(reply) {
            Ok(()) => Ok(()),
            Err(why) => Err(CallFault::Refused(why)),
        }
    }

    /// A frame under the role.
    pub fn command<P: Policy, T: Tap>(
        &mut self,
        role: &mut HeldRole<L, M, N>,
        command: Command,
        policy: &mut P,
        tap: &mut T,
        cuts: Cuts,
    ) -> Reply
        ensures held { IsHeld self.old.log false role.old }
        ensures counts { result ≢ ReplyValue.OutOfMemory → role.new ≡ counted role.old }
        ensures memory { result ≡ ReplyValue.OutOfMemory → role.new ≡ role.old }
        ensures never { result ≢ ReplyValue.Refused RefusalValue.SessionOpen }
        ensures sent { Commands P.verdict_gives policy.old policy.new self.old self.new command cuts result }
        ensures told { TellsFrame T.note_gives tap.old tap.new self.old.log command cuts result self.new.log }
    {
        self.books.audit(&mut role.shares);
        let Ok(reply) = self.intake.command(command, policy, tap, cuts) else {
            return Reply::OutOfMemory;
        };
        self.books.count(&self.intake, &mut role.shares);
        reply
    }

    /// Opens a session of dynamic address assignment (ENTDAA, I3C Basic 5.1.4.2): the role becomes its session, or comes
    /// back.
    pub fn open_daa<T: Tap>(
        &mut self,
        role: HeldRole<L, M, N>,
        tap: &mut T,
        cuts: Cuts,
    ) -> Result<(HeldSession<L, M, N>, Served), (HeldRole<L, M, N>, CallFault)>
        ensures held { IsHeld self.old.log false role }
        ensures opened { IfOk result (λ opened. opened.0 ≡ counted role) }
        ensures back { IfErr result (λ refused. refused.0 ≡ unopened refused.1 role) }
        ensures never { IfErr result (λ refused. refused.1 ≢ CallFaultValue.Refused RefusalValue.SessionOpen) }
        ensures opens { Opens self.old self.new cuts result }
        ensures told { TellsIf T.note_gives tap.old tap.new self.old.log (EventValue.OpenDaa cuts) (opening_reply result) self.new.log }
    {
        let HeldRole { mut shares } = role;
        self.books.audit(&mut shares);
        let Ok(reply) = self.intake.take_and_apply(Event::OpenDaa(cuts), tap) else {
            return Err((HeldRole { shares }, CallFault::OutOfMemory));
        };
        self.books.count(&self.intake, &mut shares);
        match opened(reply) {
            Ok(served) => {
                self.books.open_session(&mut shares);
                Ok((HeldSession { shares }, served))
            }
            Err(why) => Err((HeldRole { shares }, CallFault::Refused(why))),
        }
    }

    /// One round of the open session.
    pub fn round<T: Tap>(
        &mut self,
        session: &mut HeldSession<L, M, N>,
        tap: &mut T,
        cuts: Cuts,
    ) -> Result<RoundReply, CallFault>
        ensures held { IsHeld self.old.log true session.old }
        ensures session { MatchResult result (λ _. session.new ≡ counted session.old) (λ why. session.new ≡ unended why session.old) }
        ensures never { result ≢ Err (CallFaultValue.Refused RefusalValue.NoSession) }
        ensures rounds { Rounds self.old self.new cuts result }
        ensures told { TellsIf T.note_gives tap.old tap.new self.old.log (EventValue.Round cuts) (round_reply result) self.new.log }
    {
        self.books.audit(&mut session.shares);
        let Ok(reply) = self.intake.take_and_apply(Event::Round(cuts), tap) else {
            return Err(CallFault::OutOfMemory);
        };
        self.books.count(&self.intake, &mut session.shares);
        match rounded(reply) {
            Ok(answer) => Ok(answer),
            Err(why) => Err(CallFault::Refused(why)),
        }
    }

    /// The session ends with STOP: it becomes the role again, or comes back.
    pub fn end<T: Tap>(
        &mut self,
        session: HeldSession<L, M, N>,
        tap: &mut T,
    ) -> Result<HeldRole<L, M, N>, (HeldSession<L, M, N>, CallFault)>
        ensures held { IsHeld self.old.log true session }
        ensures ended { IfOk result (λ role. role ≡ counted session) }
        ensures back { IfErr result (λ refused. refused.0 ≡ unended refused.1 session) }
        ensures never { IfErr result (λ refused. refused.1 ≢ CallFaultValue.Refused RefusalValue.NoSession) }
        ensures ends { Ends self.old self.new result }
        ensures told { TellsIf T.note_gives tap.old tap.new self.old.log EventValue.EndDaa (ending_reply result) self.new.log }
    {
        let HeldSession { mut shares } = session;
        self.books.audit(&mut shares);
        let Ok(reply) = self.intake.take_and_apply(Event::EndDaa, tap) else {
            return Err((HeldSession { shares }, CallFault::OutOfMemory));
        };
        self.books.count(&self.intake, &mut shares);
        match ended(reply) {
            Ok(()) => {
                self.books.end_session(&mut shares);
                Ok(HeldRole { shares })
            }
            Err(why) => Err((HeldSession { shares }, CallFault::Refused(why))),
        }
    }

    /// The active controller offers its role to a device at an address (GETACCCR, I3C Basic 5.1.9.3.16): it is parked for the
    /// device that took it, or comes back.
    pub fn hand_over<T: Tap>(
        &mut self,
        role: HeldRole<L, M, N>,
        to: Addr7,
        tap: &mut T,
        cuts: Cuts,
    ) -> Result<Served, (HeldRole<L, M, N>, HandOverFault)>
        ensures held { IsHeld self.old.log false role }
        ensures back { IfErr result (λ refused. refused.0 ≡ unhanded refused.1 role) }
        ensures never { IfErr result (λ refused. refused.1 ≢ HandOverFaultValue.Refused RefusalValue.SessionOpen) }
        ensures hands { Hands self.old self.new role to cuts result }
        ensures told { TellsIf T.note_gives tap.old tap.new self.old.log (EventValue.HandOver to cuts) (handing_reply result) self.new.log }
    {
        let HeldRole { mut shares } = role;
        self.books.audit(&mut shares);
        let Ok(reply) = self.intake.take_and_apply(Event::HandOver(to, cuts), tap) else {
            return Err((HeldRole { shares }, HandOverFault::OutOfMemory));
        };
        self.books.count(&self.intake, &mut shares);
        match handed(reply) {
            Ok(served) => {
                self.books.move_to(&mut shares, self.intake.active());
                spend_role(mem::replace(&mut self.parked, Some(HeldRole { shares })));
                Ok(served)
            }
            Err(why) => Err((HeldRole { shares }, why)),
        }
    }

    /// The role that is parked for the port's slot, which is the active controller's. It is no event.
    pub fn take_role(&mut self, port: &Port) -> Option<HeldRole<L, M, N>>
        ensures { TakesRole self.old self.new port.now.slot result }
    {
        match &self.parked {
            Some(role) if role.holder() == port.slot() => {}
            _ => return None,
        }
        let mut taken = self.parked.take();
        self.books.audit_role(&mut taken);
        taken
    }

    /// Ends the bus. Its role has to be handed in or parked, with no session open, and each port that is out handed in;
    /// otherwise all comes back.
    pub fn close(
        self,
        role: Option<HeldRole<L, M, N>>,
        ports: Vec<Port>,
    ) -> Result<Closed, Unclosed<Kept<L, M, N>, HeldRole<L, M, N>>>
        ensures closed { IfOk result (λ c. Closes self role ports.items c.run.entries c.records c.waiting) }
        ensures refused { IfErr result (λ u. RefusesClose self role ports.items u.fault u.bus) }
        ensures back { IfErr result (λ u. (u.role ≡ role) × SamePorts ports.items u.ports.items) }
        ensures prefix { MatchResult result (λ c. AllPostedFirst self.log.rings ports.items c.run.entries) (λ u. AllPostedFirst self.log.rings ports.items u.bus.log.run) }
    {
        if self.is_role_out(&role) {
            return Err(self.refused(role, ports, CloseFault::RoleOut));
        }
        if let Some(slot) = self.intake.missing(&ports) {
            return Err(self.refused(role, ports, CloseFault::PortOut(slot)));
        }
        self.close_all(role, ports)
    }

    /// All comes back as it was, with this fault.
    fn refused(
        self,
        role: Option<HeldRole<L, M, N>>,
        ports: Vec<Port>,
        fault: CloseFault,
    ) -> Unclosed<Kept<L, M, N>, HeldRole<L, M, N>>
        ensures same { (result.bus ≡ self) × (result.role ≡ role) × (result.fault ≡ fault) }
        ensures ports { SamePorts ports.items result.ports.items }
        ensures prefix { AllPostedFirst self.log.rings ports.items self.log.run }
    {
        let mut bus = self;
        let mut ports = ports;
        bus.intake.compare_all(&mut ports);
        Unclosed {
            bus,
            role,
            ports,
            fault,
        }
    }

    /// Whether an assignment is under way, or the role is neither handed in nor parked.
    fn is_role_out(&self, role: &Option<HeldRole<L, M, N>>) -> bool
        ensures { result ≡ is_role_out self.now role.now }
    {
        self.intake.in_session() || role.is_none() && self.parked.is_none()
    }

    /// The same when neither a port nor the role is out.
    fn close_all(
        self,
        role: Option<HeldRole<L, M, N>>,
        ports: Vec<Port>,
    ) -> Result<Closed, Unclosed<Kept<L, M, N>, HeldRole<L, M, N>>>
        requires role_in { is_role_out self role ≡ false }
        requires ports_in { NoneMissing self.log.rings ports.items }
        ensures closed { IfOk result (λ c. Closes self role ports.items c.run.entries c.records c.waiting) }
        ensures refused { IfErr result (λ u. RefusesClose self role ports.items u.fault u.bus) }
        ensures back { IfErr result (λ u. (u.role ≡ role) × SamePorts ports.items u.ports.items) }
        ensures prefix { MatchResult result (λ c. AllPostedFirst self.log.rings ports.items c.run.entries) (λ u. AllPostedFirst self.log.rings ports.items u.bus.log.run) }
    {
        let Kept {
            alloc,
            intake,
            mut books,
            parked,
        } = self;
        let (mut role, mut ports) = (role, ports);
        books.audit_role(&mut role);
        match intake.retire(&mut ports) {
            Ok(closed) => {
                spend_role(role);
                spend_role(parked);
                spend_ports(ports);
                Ok(closed)
            }
            Err(intake) => Err(Unclosed {
                bus: Kept {
                    alloc,
                    intake,
                    books,
                    parked,
                },
                role,
                ports,
                fault: CloseFault::OutOfMemory,
            }),
        }
    }

    /// The run is legal and leads to the bus. What was received from the ring of each port that is out are the bytes of
    /// its raises. The books are the active controller's slot, 1 while a session is open, and the number of frame events in
    /// the run.
    pub fn keeps(&self)
        ensures { IsKept self.now.log self.now.books }
    {
        self.intake.keeps();
    }

    /// Spends it: no event, no lock, no memory, and nothing is taken up.
    pub fn let_go(self) {
        let Kept {
            alloc: _,
            intake,
            books: _,
            parked,
        } = self;
        intake.let_go();
        spend_role(parked);
    }
}
