//! What the trials share. A call that was short of memory is given again, once: then it does what it would have done, so
//! each trial ends as it does otherwise, whichever one allocation is refused.
ghost use Rattle.std.specs.Prelude.{◌≡◌};

use crate::checks::{holds, same};
use i3c_base::{
    Addr7, Bcr, Cuts, Dcr, Fixed, Identity, Pid, RoundReply, Served, Setup, Slot, Verdict,
};
use i3c_bus::Policy;
use i3c_frame::Silent;
use i3c_legacy::Legacies;
use i3c_shared::{
    AttachFault, CallFault, CloseFault, Closed, DropFault, Entry, Full, HandOverFault, HeldRole,
    HeldSession, Left, Port, Run, SharedBus, StartFault, Unclosed,
};
use i3c_step::{Command, Event, Reply};
use std::alloc::{AllocError, Global};
use std::marker::Brand;
use std::process::Abort;
use std::sync::Wait;
use std::sync::atomic::{AtomicU64, Ordering};
use std::sync::ledger::{Blank, Ledger};
use std::thread;
use std::time::{Clock, Duration};

/// The setup of these numbers.
pub(crate) fn setup<R: Abort>(rt: &R, pid: u64, bcr: u8, dcr: u8) -> Setup {
    Setup {
        identity: Identity {
            pid: Pid::new(pid).expect(rt, "a provisioned ID"),
            bcr: Bcr(bcr),
            dcr: Dcr(dcr),
        },
        willing: true,
    }
}

/// The main controller.
pub(crate) fn hub<R: Abort>(rt: &R) -> Setup {
    setup(rt, 0x0204_0000_0001, 0x46, 0xC0)
}

/// A device with a mandatory byte.
pub(crate) fn target<R: Abort>(rt: &R) -> Setup {
    setup(rt, 0x0204_0000_0010, 0x06, 0x44)
}

/// Another target, with a greater number.
pub(crate) fn other_target<R: Abort>(rt: &R) -> Setup {
    setup(rt, 0x0204_0000_0011, 0x06, 0x44)
}

/// A device that can be a controller.
pub(crate) fn controller<R: Abort>(rt: &R) -> Setup {
    setup(rt, 0x0204_0000_0020, 0x46, 0xC1)
}

pub(crate) fn slot<R: Abort>(rt: &R, index: u8) -> Slot {
    Slot::new(index).expect(rt, "a slot")
}

pub(crate) fn address<R: Abort>(rt: &R, number: u8) -> Addr7 {
    Addr7::new(number).expect(rt, "an address")
}

/// A policy that accepts all.
pub(crate) const ALL: Fixed = Fixed {
    join: Verdict::Accept,
    role: Verdict::Accept,
    interrupt: Verdict::Accept,
};

/// The policy that a frame is kept with which asked nobody.
pub(crate) const NONE: Fixed = Fixed {
    join: Verdict::Refuse,
    role: Verdict::Refuse,
    interrupt: Verdict::Refuse,
};

/// The policy that a serve is kept with which accepted an interrupt.
pub(crate) const INTERRUPT: Fixed = Fixed {
    join: Verdict::Refuse,
    role: Verdict::Refuse,
    interrupt: Verdict::Accept,
};

/// How many turns of a millisecond a thread waits for another before its test fails.
const TURNS: u64 = 2000;

/// Waits until the count is reached. False at the limit of turns.
pub(crate) fn reached<R: Clock>(rt: &R, count: &AtomicU64, least: u64) -> bool {
    for _ in 0..TURNS {
        if count.load(Ordering::SeqCst) >= least {
            return true;
        }
        thread::sleep(rt, Duration::from_millis(1));
    }
    false
}

/// A trial on a bus of its own, whichever its ledgers are.
pub(crate) trait Trial {
    /// The trial, on this bus with its main controller's role and port.
    fn run<R: Wait + Abort, L: Ledger, M: Ledger, N: Ledger>(
        rt: &R,
        alloc: Global,
        bus: SharedBus<L, M, N>,
        role: HeldRole<L, M, N>,
        main: Port,
    );
}

/// Makes a trial on a new bus. Where there was no memory for the bus, another is made, once.
pub(crate) fn on_a_bus<T: Trial, R: Wait + Abort>(rt: &R, alloc: Global) {
    if !is_tried::<T, R>(rt, alloc) {
        holds(rt, is_tried::<T, R>(rt, alloc), "a bus");
    }
}

/// Makes a trial on a new bus, if there is memory for the bus.
pub(crate) fn is_tried<T: Trial, R: Wait + Abort>(rt: &R, alloc: Global) -> bool {
    let (active, session, frames) = (Blank::new(1), Blank::new(1), Blank::new(1));
    is_tried_with::<T, R, Brand, Brand, Brand>(rt, alloc, active, session, frames)
}

/// The same, with ledgers that are opened from these blanks.
fn is_tried_with<T: Trial, R: Wait + Abort, L: Ledger, M: Ledger, N: Ledger>(
    rt: &R,
    alloc: Global,
    active: Blank,
    session: Blank,
    frames: Blank,
) -> bool
    requires active { (active.name ≡ L.name) × (active.parts ≡ L.parts) × (active.parts ≡ 1) }
    requires session { (session.name ≡ M.name) × (session.parts ≡ M.parts) × (session.parts ≡ 1) }
    requires frames { (frames.name ≡ N.name) × (frames.parts ≡ N.parts) × (frames.parts ≡ 1) }
{
    let Some((bus, role, main)) = begun::<R, L, M, N>(rt, alloc, active, session, frames) else {
        return false;
    };
    T::run(rt, alloc, bus, role, main);
    true
}

/// A bus with ledgers that are opened from these blanks, its role, and its main controller's port, if there is memory.
pub(crate) fn begun<R: Abort, L: Ledger, M: Ledger, N: Ledger>(
    rt: &R,
    alloc: Global,
    active: Blank,
    session: Blank,
    frames: Blank,
) -> Option<(SharedBus<L, M, N>, HeldRole<L, M, N>, Port)>
    requires active { (active.name ≡ L.name) × (active.parts ≡ L.parts) × (active.parts ≡ 1) }
    requires session { (session.name ≡ M.name) × (session.parts ≡ M.parts) × (session.parts ≡ 1) }
    requires frames { (frames.name ≡ N.name) × (frames.parts ≡ N.parts) × (frames.parts ≡ 1) }
{
    match SharedBus::new(alloc, hub(rt), Legacies::new(), active, session, frames) {
        Ok(made) => Some(made),
        Err(StartFault::OutOfMemory) => None,
        Err(StartFault::NotCapable) => panic!(rt; "a main controller"),
    }
}

/// What an attachment answers.
pub(crate) fn attach<L: Ledger, M: Ledger, N: Ledger, R: Wait>(
    rt: &R,
    bus: &SharedBus<L, M, N>,
    at: Slot,
    setup: Setup,
) -> Result<Port, AttachFault> {
    let entering = &setup;
    match bus.attach(rt, at, *entering) {
        Err(AttachFault::OutOfMemory) => bus.attach(rt, at, *entering),
        first => first,
    }
}

/// The port of a device that enters a slot.
pub(crate) fn attached<L: Ledger, M: Ledger, N: Ledger, R: Wait + Abort>(
    rt: &R,
    bus: &SharedBus<L, M, N>,
    at: Slot,
    setup: Setup,
) -> Port {
    attach(rt, bus, at, setup).expect(rt, "a port")
}

/// The port of a target that enters a slot.
pub(crate) fn target_at<L: Ledger, M: Ledger, N: Ledger, R: Wait + Abort>(
    rt: &R,
    bus: &SharedBus<L, M, N>,
    at: Slot,
) -> Port {
    attached(rt, bus, at, target(rt))
}

/// A post with this byte goes into the ring.
pub(crate) fn post<R: Abort>(rt: &R, port: &mut Port, byte: u8) {
    same(rt, port.post(Some(byte)), Ok(()));
}

/// Posts with the bytes from 1 to this one do.
pub(crate) fn post_up_to<R: Abort>(rt: &R, port: &mut Port, last: u8) {
    for byte in 1..=last {
        post(rt, port, byte);
    }
}

/// A ninth post doesn't, and its byte comes back.
pub(crate) fn post_is_full<R: Abort>(rt: &R, port: &mut Port) {
    same(rt, port.post(Some(9)), Err(Full(Some(9))));
}

/// What a wish to join answers.
pub(crate) fn ask_join<L: Ledger, M: Ledger, N: Ledger, R: Wait>(
    rt: &R,
    bus: &SharedBus<L, M, N>,
    port: &mut Port,
) -> Result<(), CallFault> {
    match bus.ask_join(rt, port) {
        Err(CallFault::OutOfMemory) => bus.ask_join(rt, port),
        first => first,
    }
}

/// What a wish for the role answers.
pub(crate) fn ask_role<L: Ledger, M: Ledger, N: Ledger, R: Wait>(
    rt: &R,
    bus: &SharedBus<L, M, N>,
    port: &mut Port,
) -> Result<(), CallFault> {
    match bus.ask_role(rt, port) {
        Err(CallFault::OutOfMemory) => bus.ask_role(rt, port),
        first => first,
    }
}

/// What a frame answers with this policy.
pub(crate) fn commanded_by<L: Ledger, M: Ledger, N: Ledger, R: Wait, P: Policy>(
    rt: &R,
    bus: &SharedBus<L, M, N>,
    role: &mut HeldRole<L, M, N>,
    command: Command,
    policy: &mut P,
    cuts: Cuts,
) -> Reply {
    let again: Result<Command, AllocError> = command.clone();
    let Ok(again) = again else {
        return Reply::OutOfMemory;
    };
    let same = cuts.counted_from(0);
    match bus.command(rt, role, command, policy, &mut Silent, cuts) {
        Reply::OutOfMemory => bus.command(rt, role, again, policy, &mut Silent, same),
        first => first,
    }
}

/// What a frame answers with a policy that accepts all.
pub(crate) fn commanded<L: Ledger, M: Ledger, N: Ledger, R: Wait>(
    rt: &R,
    bus: &SharedBus<L, M, N>,
    role: &mut HeldRole<L, M, N>,
    command: Command,
    cuts: Cuts,
) -> Reply {
    let mut policy = ALL;
    commanded_by(rt, bus, role, command, &mut policy, cuts)
}

/// What a serve answers that accepts all.
pub(crate) fn served<L: Ledger, M: Ledger, N: Ledger, R: Wait>(
    rt: &R,
    bus: &SharedBus<L, M, N>,
    role: &mut HeldRole<L, M, N>,
) -> Reply {
    commanded(rt, bus, role, Command::Serve, Cuts::new())
}

/// A serve that accepts all has this result.
pub(crate) fn serves<L: Ledger, M: Ledger, N: Ledger, R: Wait + Abort>(
    rt: &R,
    bus: &SharedBus<L, M, N>,
    role: &mut HeldRole<L, M, N>,
    due: Served,
) {
    same(rt, served(rt, bus, role), Reply::Served(due));
}

/// An opened session.
pub(crate) fn opened<L: Ledger, M: Ledger, N: Ledger, R: Wait + Abort>(
    rt: &R,
    bus: &SharedBus<L, M, N>,
    role: HeldRole<L, M, N>,
) -> HeldSession<L, M, N> {
    let outcome = match bus.open_daa(rt, role, &mut Silent, Cuts::new()) {
        Err((role, CallFault::OutOfMemory)) => bus.open_daa(rt, role, &mut Silent, Cuts::new()),
        first => first,
    };
    match outcome {
        Ok((session, _)) => session,
        Err((role, _)) => {
            role.let_go();
            panic!(rt; "no session is opened")
        }
    }
}

/// The role again, at the session's end.
pub(crate) fn ended<L: Ledger, M: Ledger, N: Ledger, R: Wait + Abort>(
    rt: &R,
    bus: &SharedBus<L, M, N>,
    session: HeldSession<L, M, N>,
) -> HeldRole<L, M, N> {
    let outcome = match bus.end(rt, session, &mut Silent) {
        Err((session, CallFault::OutOfMemory)) => bus.end(rt, session, &mut Silent),
        first => first,
    };
    match outcome {
        Ok(role) => role,
        Err((session, _)) => {
            session.let_go();
            panic!(rt; "the session doesn't end")
        }
    }
}

/// What a round answers.
pub(crate) fn round<L: Ledger, M: Ledger, N: Ledger, R: Wait>(
    rt: &R,
    bus: &SharedBus<L, M, N>,
    session: &mut HeldSession<L, M, N>,
) -> Result<RoundReply, CallFault> {
    match bus.round(rt, session, &mut Silent, Cuts::new()) {
        Err(CallFault::OutOfMemory) => bus.round(rt, session, &mut Silent, Cuts::new()),
        first => first,
    }
}

/// Rounds of one session, to the one that nobody hears.
pub(crate) fn assigned<L: Ledger, M: Ledger, N: Ledger, R: Wait + Abort>(
    rt: &R,
    bus: &SharedBus<L, M, N>,
    role: HeldRole<L, M, N>,
) -> HeldRole<L, M, N> {
    let mut session = opened(rt, bus, role);
    for _ in 0..16 {
        match round(rt, bus, &mut session) {
            Ok(RoundReply::Assigned(_, _)) => {}
            _ => break,
        }
    }
    ended(rt, bus, session)
}

/// The port of the controller in slot 1, to which the main controller hands its role over. The role is parked.
pub(crate) fn handed<L: Ledger, M: Ledger, N: Ledger, R: Wait + Abort>(
    rt: &R,
    bus: &SharedBus<L, M, N>,
    role: HeldRole<L, M, N>,
) -> Port {
    let port = attached(rt, bus, slot(rt, 1), controller(rt));
    let mut role = assigned(rt, bus, role);
    let listed = commanded(rt, bus, &mut role, Command::SendList, Cuts::new());
    holds(rt, matches!(listed, Reply::Framed(_)), "the list is sent");
    match hand_over(rt, bus, role, &port) {
        Ok(served) => same(rt, served, Served::Quiet),
        Err((role, _)) => {
            role.let_go();
            panic!(rt; "the role isn't handed over")
        }
    }
    port
}

/// What a handover to the address 09, whose device has this port, answers.
fn hand_over<L: Ledger, M: Ledger, N: Ledger, R: Wait + Abort>(
    rt: &R,
    bus: &SharedBus<L, M, N>,
    role: HeldRole<L, M, N>,
    port: &Port,
) -> Result<Served, (HeldRole<L, M, N>, HandOverFault)> {
    let to = address(rt, 0x09);
    match bus.hand_over(rt, role, to, &mut Silent, Cuts::new()) {
        Err((role, HandOverFault::OutOfMemory)) => {
            // nothing was handed over
            holds(rt, is_none(bus.take_role(rt, port)), "no role is parked");
            bus.hand_over(rt, role, to, &mut Silent, Cuts::new())
        }
        first => first,
    }
}

/// What a drop-off answers.
pub(crate) fn drop_off<L: Ledger, M: Ledger, N: Ledger, R: Wait>(
    rt: &R,
    bus: &SharedBus<L, M, N>,
    port: Port,
) -> Result<Left, (Port, DropFault)> {
    match bus.drop_off(rt, port) {
        Err((port, DropFault::OutOfMemory)) => bus.drop_off(rt, port),
        first => first,
    }
}

/// What a drop-off found.
pub(crate) fn left<L: Ledger, M: Ledger, N: Ledger, R: Wait>(
    rt: &R,
    bus: &SharedBus<L, M, N>,
    port: Port,
) -> Option<Left> {
    match drop_off(rt, bus, port) {
        Ok(left) => Some(left),
        Err((port, _)) => {
            port.let_go();
            None
        }
    }
}

/// A list of one port.
pub(crate) fn only<R: Abort>(rt: &R, alloc: Global, port: Port) -> Vec<Port> {
    with(rt, Vec::new(alloc), port)
}

/// A list of two ports.
pub(crate) fn both<R: Abort>(rt: &R, alloc: Global, one: Port, other: Port) -> Vec<Port> {
    with(rt, only(rt, alloc, one), other)
}

/// The ports with one more.
pub(crate) fn with<R: Abort>(rt: &R, ports: Vec<Port>, port: Port) -> Vec<Port> {
    let mut ports = ports;
    let outcome = match ports.push(port) {
        Err(refused) => ports.push(refused.value),
        first => first,
    };
    if let Err(refused) = outcome {
        refused.value.let_go();
        panic!(rt; "no memory");
    }
    ports
}

/// What a close with a role and these ports answers.
fn close<L: Ledger, M: Ledger, N: Ledger>(
    bus: SharedBus<L, M, N>,
    role: Option<HeldRole<L, M, N>>,
    ports: Vec<Port>,
) -> Result<Closed, Unclosed<SharedBus<L, M, N>, HeldRole<L, M, N>>> {
    match bus.close(role, ports) {
        Err(
            Unclosed {
                bus,
                role,
                ports,
                fault: CloseFault::OutOfMemory,
            },
        ) => bus.close(role, ports),
        first => first,
    }
}

/// Closes with the role and these ports.
pub(crate) fn closed<L: Ledger, M: Ledger, N: Ledger, R: Abort>(
    rt: &R,
    bus: SharedBus<L, M, N>,
    role: Option<HeldRole<L, M, N>>,
    ports: Vec<Port>,
) -> Closed {
    match close(bus, role, ports) {
        Ok(closed) => closed,
        Err(refused) => {
            refused.let_go();
            panic!(rt; "the bus isn't closed")
        }
    }
}

/// What a refused close hands back: a role if there was one, and as many ports.
pub(crate) fn unclosed<L: Ledger, M: Ledger, N: Ledger, R: Abort>(
    rt: &R,
    bus: SharedBus<L, M, N>,
    role: Option<HeldRole<L, M, N>>,
    ports: Vec<Port>,
    why: CloseFault,
) -> (SharedBus<L, M, N>, Option<HeldRole<L, M, N>>, Vec<Port>) {
    let (had_role, count) = (role.is_some(), ports.len());
    match close(bus, role, ports) {
        Ok(_) => panic!(rt; "the bus is closed"),
        Err(refused) => {
            let Unclosed {
                bus,
                role,
                ports,
                fault,
            } = refused;
            same(rt, fault, why);
            same(rt, role.is_some(), had_role);
            same(rt, ports.len(), count);
            (bus, role, ports)
        }
    }
}

/// The bus and the ports, where a close with these and no role is refused since the role is out. No role comes back.
pub(crate) fn role_is_out<L: Ledger, M: Ledger, N: Ledger, R: Abort>(
    rt: &R,
    bus: SharedBus<L, M, N>,
    ports: Vec<Port>,
) -> (SharedBus<L, M, N>, Vec<Port>) {
    let (bus, nobody, ports) = unclosed(rt, bus, None, ports, CloseFault::RoleOut);
    holds(rt, is_none(nobody), "nobody has a role");
    (bus, ports)
}

/// Whether there is no role. It is spent.
pub(crate) fn is_none<L: Ledger, M: Ledger, N: Ledger>(role: Option<HeldRole<L, M, N>>) -> bool {
    match role {
        Some(role) => {
            role.let_go();
            false
        }
        None => true,
    }
}

/// An event with its reply.
pub(crate) fn entry(event: Event, reply: Reply) -> Entry {
    Entry { event, reply }
}

/// The entry at a place of the run.
pub(crate) fn got(run: &Run, place: usize) -> Option<Entry> {
    match run.get(place) {
        Err(_) => run.get(place).unwrap_or(None),
        Ok(found) => found,
    }
}

/// Whether these entries are in the run from this place on.
pub(crate) fn has_from(run: &Run, place: usize, due: &[Entry]) -> bool {
    let mut at = place;
    for entry in due {
        match got(run, at) {
            Some(found) if found == *entry => {}
            _ => return false,
        }
        at = at.wrapping_add(1);
    }
    true
}

/// These entries are the whole run.
pub(crate) fn is_run<R: Abort>(rt: &R, run: &Run, due: &[Entry]) {
    let is_so = run.len() == due.len() && has_from(run, 0, due);
    holds(rt, is_so, "the run is so");
}

/// These entries end the run.
pub(crate) fn ends_with<R: Abort>(rt: &R, run: &Run, due: &[Entry]) {
    let is_so = due.len() <= run.len() && has_from(run, run.len() - due.len(), due);
    holds(rt, is_so, "the run ends so");
}
