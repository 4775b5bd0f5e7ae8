use crate::closed::Closed;
use crate::faults::{AttachFault, CallFault, DropFault, HandOverFault, Left, StartFault};
use crate::held::{HeldRole, HeldSession, spend_role};
use crate::kept::{Kept, Unclosed};
use crate::port::{Port, spend_ports};
use i3c_base::{Addr7, Cuts, RoundReply, Served, Setup, Slot};
use i3c_bus::Policy;
use i3c_frame::Tap;
use i3c_legacy::Legacies;
use i3c_step::{Command, Reply};
use std::alloc::Global;
use std::sync::ledger::{Blank, Ledger};
use std::sync::{Mutex, Wait};

/// A bus that threads share: its calls may wait for its one lock. It must be closed or let go.
///
/// Each call is the method of the same name on the state under the lock. `Kept` has the contracts of that; here are those of
/// the results. The types `L`, `M` and `N` name three ledgers of this bus alone: the active controller's slot, whether a
/// session is open, and the number of frame events in the run. The shares of all three are in the bus's one role or session,
/// so that it counts the events of the run. A call that says that it counts one more has added one frame event to the run
/// under the lock.
pub struct SharedBus<L: Ledger, M: Ledger, N: Ledger> {
    kept: Mutex<Kept<L, M, N>>,
}

impl<L: Ledger, M: Ledger, N: Ledger> SharedBus<L, M, N> {
    ghost use Rattle.std.specs.Prelude.{◌≡◌, ◌≢◌, ◌↔◌, [], false, Err, IfErr, IfOk, IfSome, IsErrOf, MatchResult};
    ghost use Rattle.rtrb.specs.Ring.{sent};
    ghost use Rattle.i3c_base.specs.Numbers.{is_capable};
    ghost use Rattle.i3c_step.specs.declared.replies.Refusal.{Refusal as RefusalValue};
    ghost use Rattle.i3c_step.specs.declared.replies.Reply.{Reply as ReplyValue};
    ghost use Rattle.i3c_shared.specs.declared.faults.HandOverFault.{HandOverFault as HandOverFaultValue};
    ghost use Rattle.i3c_shared.specs.declared.faults.CallFault.{CallFault as CallFaultValue};
    ghost use Rattle.i3c_shared.specs.declared.faults.StartFault.{StartFault as StartFaultValue};
    ghost use Rattle.i3c_shared.specs.Books.{counted, unended, unhanded, unopened};
    ghost use Rattle.i3c_shared.specs.Closing.{Closes};
    ghost use Rattle.i3c_shared.specs.Ports.{SamePort, SamePorts};
    ghost use Rattle.i3c_shared.specs.Values.{KeptValue};

    /// A bus with its main controller in slot 0, and with its role and its port. Its ledgers are opened from three blanks
    /// of one part. It answers `NotCapable` where the main device's BCR isn't a controller's, and `OutOfMemory`.
    pub fn new(
        alloc: Global,
        main: Setup,
        legacies: Legacies,
        active: Blank,
        session: Blank,
        frames: Blank,
    ) -> Result<(SharedBus<L, M, N>, HeldRole<L, M, N>, Port), StartFault>
        requires active { (active.name ≡ L.name) × (active.parts ≡ L.parts) × (active.parts ≡ 1) }
        requires session { (session.name ≡ M.name) × (session.parts ≡ M.parts) × (session.parts ≡ 1) }
        requires frames { (frames.name ≡ N.name) × (frames.parts ≡ N.parts) × (frames.parts ≡ 1) }
        ensures capable { IsErrOf result StartFaultValue.NotCapable ↔ (is_capable main.identity.bcr ≡ false) }
        ensures held { IfOk result (λ made. (made.1 ≡ record { holder = 0; frames = 0 }) × (made.2.slot ≡ 0) × (sent made.2.producer ≡ [])) }
    {
        let (kept, role, port) = Kept::new(alloc, main, legacies, active, session, frames)?;
        let bus = SharedBus {
            kept: Mutex::new(kept),
        };
        Ok((bus, role, port))
    }

    /// A device enters a slot, and its port goes out. It answers `SlotTaken` where the slot holds a device or its old
    /// port is out.
    pub fn attach(&self, rt: &impl Wait, slot: Slot, setup: Setup) -> Result<Port, AttachFault>
        ensures { IfOk result (λ port. (port.slot ≡ slot) × (sent port.producer ≡ [])) }
    {
        self.kept.lock(rt).attach(slot, setup)
    }

    /// The port's device drops off, and its port is spent. The active controller stays.
    pub fn drop_off(&self, rt: &impl Wait, port: Port) -> Result<Left, (Port, DropFault)>
        ensures { IfErr result (λ refused. SamePort port refused.0) }
    {
        self.kept.lock(rt).drop_off(port)
    }

    /// The port's device wishes for the controller role.
    pub fn ask_role(&self, rt: &impl Wait, port: &mut Port) -> Result<(), CallFault>
        ensures { SamePort port.old port.new }
    {
        self.kept.lock(rt).ask_role(port)
    }

    /// The port's device wishes to join.
    pub fn ask_join(&self, rt: &impl Wait, port: &mut Port) -> Result<(), CallFault>
        ensures { SamePort port.old port.new }
    {
        self.kept.lock(rt).ask_join(port)
    }

    /// A frame under the role, which counts it. The policy is asked, and the tap is told, while the lock is held.
    pub fn command<P: Policy, T: Tap>(
        &self,
        rt: &impl Wait,
        role: &mut HeldRole<L, M, N>,
        command: Command,
        policy: &mut P,
        tap: &mut T,
        cuts: Cuts,
    ) -> Reply
        ensures counts { result ≢ ReplyValue.OutOfMemory → role.new ≡ counted role.old }
        ensures memory { result ≡ ReplyValue.OutOfMemory → role.new ≡ role.old }
        ensures never { result ≢ ReplyValue.Refused RefusalValue.SessionOpen }
    {
        self.kept.lock(rt).command(role, command, policy, tap, cuts)
    }

    /// Opens a session: the role becomes its session, or comes back. What comes back counts the opening, unless memory
    /// was short.
    pub fn open_daa<T: Tap>(
        &self,
        rt: &impl Wait,
        role: HeldRole<L, M, N>,
        tap: &mut T,
        cuts: Cuts,
    ) -> Result<(HeldSession<L, M, N>, Served), (HeldRole<L, M, N>, CallFault)>
        ensures opened { IfOk result (λ opened. opened.0 ≡ counted role) }
        ensures back { IfErr result (λ refused. refused.0 ≡ unopened refused.1 role) }
        ensures never { IfErr result (λ refused. refused.1 ≢ CallFaultValue.Refused RefusalValue.SessionOpen) }
    {
        self.kept.lock(rt).open_daa(role, tap, cuts)
    }

    /// One round of the open session, which counts it unless memory was short.
    pub fn round<T: Tap>(
        &self,
        rt: &impl Wait,
        session: &mut HeldSession<L, M, N>,
        tap: &mut T,
        cuts: Cuts,
    ) -> Result<RoundReply, CallFault>
        ensures session { MatchResult result (λ _. session.new ≡ counted session.old) (λ why. session.new ≡ unended why session.old) }
        ensures never { result ≢ Err (CallFaultValue.Refused RefusalValue.NoSession) }
    {
        self.kept.lock(rt).round(session, tap, cuts)
    }

    /// The session ends: it becomes the role again, or comes back. What comes back counts the end, unless memory was
    /// short.
    pub fn end<T: Tap>(
        &self,
        rt: &impl Wait,
        session: HeldSession<L, M, N>,
        tap: &mut T,
    ) -> Result<HeldRole<L, M, N>, (HeldSession<L, M, N>, CallFault)>
        ensures ended { IfOk result (λ role. role ≡ counted session) }
        ensures back { IfErr result (λ refused. refused.0 ≡ unended refused.1 session) }
        ensures never { IfErr result (λ refused. refused.1 ≢ CallFaultValue.Refused RefusalValue.NoSession) }
    {
        self.kept.lock(rt).end(session, tap)
    }

    /// The active controller offers its role to a device at an address: it is parked for the device that took it, or comes
    /// back, and counts the handover then, unless memory was short.
    pub fn hand_over<T: Tap>(
        &self,
        rt: &impl Wait,
        role: HeldRole<L, M, N>,
        to: Addr7,
        tap: &mut T,
        cuts: Cuts,
    ) -> Result<Served, (HeldRole<L, M, N>, HandOverFault)>
        ensures back { IfErr result (λ refused. refused.0 ≡ unhanded refused.1 role) }
        ensures never { IfErr result (λ refused. refused.1 ≢ HandOverFaultValue.Refused RefusalValue.SessionOpen) }
    {
        self.kept.lock(rt).hand_over(role, to, tap, cuts)
    }

    /// The role that is parked for the port's slot.
    pub fn take_role(&self, rt: &impl Wait, port: &Port) -> Option<HeldRole<L, M, N>>
        ensures { IfSome result (λ role. role.holder ≡ port.now.slot) }
    {
        self.kept.lock(rt).take_role(port)
    }

    /// Ends the bus. Its role has to be handed in or parked, with no session open, and each port that is out handed in;
    /// otherwise all comes back, the bus too.
    pub fn close(
        self,
        role: Option<HeldRole<L, M, N>>,
        ports: Vec<Port>,
    ) -> Result<Closed, Unclosed<SharedBus<L, M, N>, HeldRole<L, M, N>>>
        // of some bus, with the active controller and the frames of the role that is handed in: that it is this one, tests show
        ensures closed { IfOk result (λ c. (old : KeptValue) × Closes old role ports.items c.run.entries c.records c.waiting) }
        ensures back { IfErr result (λ u. (u.role ≡ role) × SamePorts ports.items u.ports.items) }
    {
        let SharedBus { kept } = self;
        match kept.into_inner().close(role, ports) {
            Ok(closed) => Ok(closed),
            Err(refused) => {
                let Unclosed {
                    bus,
                    role,
                    ports,
                    fault,
                } = refused;
                Err(Unclosed {
                    bus: SharedBus {
                        kept: Mutex::new(bus),
                    },
                    role,
                    ports,
                    fault,
                })
            }
        }
    }

    /// Spends the bus: no event, no lock, no memory, and nothing is taken up.
    pub fn let_go(self) {
        let SharedBus { kept } = self;
        kept.into_inner().let_go();
    }
}

impl<L: Ledger, M: Ledger, N: Ledger> Unclosed<SharedBus<L, M, N>, HeldRole<L, M, N>> {
    /// Spends all that came back: no event, no lock, no memory, and nothing is taken up.
    pub fn let_go(self) {
        let Unclosed {
            bus,
            role,
            ports,
            fault: _,
        } = self;
        bus.let_go();
        spend_role(role);
        spend_ports(ports);
    }
}
