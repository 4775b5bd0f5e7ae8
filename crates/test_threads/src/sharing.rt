ghost use Rattle.std.specs.Prelude.{◌≡◌, ⊤};

use super::setting::{
    INTERRUPT, ask_join, ask_role, assigned, attached, begun, both, closed, commanded_by,
    controller, ends_with, entry, got, other_target, post, reached, slot, target_at, with,
};
use crate::checks::{holds, same};
use i3c_base::{Cuts, Request, Served, Setup, Slot, Verdict};
use i3c_bus::Policy;
use i3c_shared::{Entry, HeldRole, Port, Run, SharedBus};
use i3c_step::{Command, Event, Reply};
use std::alloc::Global;
use std::marker::Brand;
use std::process::Abort;
use std::sync::Wait;
use std::sync::atomic::{AtomicU64, Ordering};
use std::sync::ledger::{Blank, Ledger};
use std::thread;
use std::thread::Threads;
use std::time::{Clock, Duration};

/// For how many milliseconds a serve stays under the lock once another thread is about to call.
const STAYS: u64 = 30;

/// How far two threads are: whether the serve's policy was asked, whether the other thread is about to call, and how
/// often one of them waited for too long.
#[derive(Drop)]
struct Course {
    asked: AtomicU64,
    calls: AtomicU64,
    late: AtomicU64,
}

/// A policy that accepts once the other thread is about to call, and has had time to come to the lock.
#[derive(Drop)]
struct Lingering<'a, R> {
    rt: &'a R,
    course: &'a Course,
}

impl<'a, R: Clock> Policy for Lingering<'a, R> {
    ghost verdict_gives = { λ old request verdict new. ⊤ };

    fn verdict(&mut self, _request: Request) -> Verdict {
        self.course.asked.fetch_add(1, Ordering::SeqCst);
        if !reached(self.rt, &self.course.calls, 1) {
            self.course.late.fetch_add(1, Ordering::SeqCst);
        }
        thread::sleep(self.rt, Duration::from_millis(STAYS));
        Verdict::Accept
    }
}

/// The answer to a serve under a policy that lingers.
fn serve_lingering<L: Ledger, M: Ledger, N: Ledger, R: Wait + Clock>(
    rt: &R,
    bus: &SharedBus<L, M, N>,
    role: &mut HeldRole<L, M, N>,
    course: &Course,
) -> Reply {
    let mut policy = Lingering { rt, course };
    commanded_by(rt, bus, role, Command::Serve, &mut policy, Cuts::new())
}

/// The port of a device that is attached while the other thread's serve is under the lock.
fn attach_meanwhile<L: Ledger, M: Ledger, N: Ledger, R: Wait + Clock + Abort>(
    rt: &R,
    bus: &SharedBus<L, M, N>,
    at: Slot,
    setup: Setup,
    course: &Course,
) -> Port {
    if !reached(rt, &course.asked, 1) {
        course.late.fetch_add(1, Ordering::SeqCst);
    }
    course.calls.fetch_add(1, Ordering::SeqCst);
    attached(rt, bus, at, setup)
}

/// Two threads call on one bus. The call that comes while a serve is under the lock waits for it: its event is the next.
fn call_under_a_serve_with<
    R: Threads + Wait + Clock + Abort + Sync,
    L: Ledger + Send + Sync,
    M: Ledger + Send + Sync,
    N: Ledger + Send + Sync,
>(rt: &R, alloc: Global, active: Blank, session: Blank, frames: Blank) -> bool
    requires active { (active.name ≡ L.name) × (active.parts ≡ L.parts) × (active.parts ≡ 1) }
    requires session { (session.name ≡ M.name) × (session.parts ≡ M.parts) × (session.parts ≡ 1) }
    requires frames { (frames.name ≡ N.name) × (frames.parts ≡ N.parts) × (frames.parts ≡ 1) }
{
    let Some((bus, role, main)) = begun::<R, L, M, N>(rt, alloc, active, session, frames) else {
        return false;
    };
    let course = Course {
        asked: AtomicU64::new(0),
        calls: AtomicU64::new(0),
        late: AtomicU64::new(0),
    };
    let mut first = target_at(rt, &bus, slot(rt, 1));
    let mut role = assigned(rt, &bus, role);
    post(rt, &mut first, 1);
    let (second, served) = thread::join(
        rt,
        || attach_meanwhile(rt, &bus, slot(rt, 2), other_target(rt), &course),
        || serve_lingering(rt, &bus, &mut role, &course),
    );
    assert!(rt; course.late.load(Ordering::SeqCst) == 0);
    same(rt, served, Reply::Served(Served::Recorded(1)));
    let ports = both(rt, alloc, main, first);
    let closed = closed(rt, bus, Some(role), with(rt, ports, second));
    let due = [
        entry(
            Event::Serve(INTERRUPT, Cuts::new()),
            Reply::Served(Served::Recorded(1)),
        ),
        entry(
            Event::Attach(slot(rt, 2), other_target(rt)),
            Reply::Attached,
        ),
    ];
    ends_with(rt, &closed.run, &due);
    true
}

/// The same, if there is memory for a bus.
fn call_under_a_serve<R: Threads + Wait + Clock + Abort + Sync>(rt: &R, alloc: Global) -> bool {
    let (active, session, frames) = (Blank::new(1), Blank::new(1), Blank::new(1));
    call_under_a_serve_with::<R, Brand, Brand, Brand>(rt, alloc, active, session, frames)
}

#[test]
fn a_call_waits_for_the_serve_under_the_lock(rt: HostRuntime) {
    if !call_under_a_serve(&rt, rt.alloc()) {
        holds(&rt, call_under_a_serve(&rt, rt.alloc()), "a bus");
    }
}

/// Two devices wish for a role and for an address, from two threads at one bus.
fn wish_from_two_threads_with<
    R: Threads + Wait + Abort + Sync,
    L: Ledger + Send + Sync,
    M: Ledger + Send + Sync,
    N: Ledger + Send + Sync,
>(rt: &R, alloc: Global, active: Blank, session: Blank, frames: Blank) -> bool
    requires active { (active.name ≡ L.name) × (active.parts ≡ L.parts) × (active.parts ≡ 1) }
    requires session { (session.name ≡ M.name) × (session.parts ≡ M.parts) × (session.parts ≡ 1) }
    requires frames { (frames.name ≡ N.name) × (frames.parts ≡ N.parts) × (frames.parts ≡ 1) }
{
    let Some((bus, role, main)) = begun::<R, L, M, N>(rt, alloc, active, session, frames) else {
        return false;
    };
    let mut first = attached(rt, &bus, slot(rt, 1), controller(rt));
    let role = assigned(rt, &bus, role);
    let mut second = attached(rt, &bus, slot(rt, 2), other_target(rt));
    let (wish, other) = thread::join(
        rt,
        || ask_role(rt, &bus, &mut first),
        || ask_join(rt, &bus, &mut second),
    );
    same(rt, wish, Ok(()));
    same(rt, other, Ok(()));
    let ports = both(rt, alloc, main, first);
    let closed = closed(rt, bus, Some(role), with(rt, ports, second));
    let wishes = entry(Event::AskRole(slot(rt, 1)), Reply::Asked);
    holds(rt, has(&closed.run, &wishes), "the first has wished");
    holds(
        rt,
        has(&closed.run, &asked(slot(rt, 2))),
        "the second has asked",
    );
    true
}

/// The same, if there is memory for a bus.
fn wish_from_two_threads<R: Threads + Wait + Abort + Sync>(rt: &R, alloc: Global) -> bool {
    let (active, session, frames) = (Blank::new(1), Blank::new(1), Blank::new(1));
    wish_from_two_threads_with::<R, Brand, Brand, Brand>(rt, alloc, active, session, frames)
}

#[test]
fn devices_wish_from_two_threads(rt: HostRuntime) {
    if !wish_from_two_threads(&rt, rt.alloc()) {
        holds(&rt, wish_from_two_threads(&rt, rt.alloc()), "a bus");
    }
}

/// A port's device asks to join, and is counted where it may.
fn ask_and_count<L: Ledger, M: Ledger, N: Ledger, R: Wait>(
    rt: &R,
    bus: &SharedBus<L, M, N>,
    asked: &AtomicU64,
    port: &mut Port,
) {
    if ask_join(rt, bus, port).is_ok() {
        asked.fetch_add(1, Ordering::SeqCst);
    }
}

/// Each of these ports' devices asks to join, from a thread of its own if one can be made, and otherwise from this one.
fn ask_from_threads<
    L: Ledger + Send + Sync,
    M: Ledger + Send + Sync,
    N: Ledger + Send + Sync,
    R: Threads + Wait + Sync,
>(rt: &R, bus: &SharedBus<L, M, N>, ports: &mut Vec<Port>, asked: &AtomicU64) {
    thread::scope(thread::scope_env(), rt, move |scope| {
        for port in ports.iter_mut() {
            if let Err(refused) = scope.spawn(move || ask_and_count(rt, bus, asked, port)) {
                (refused.value)();
            }
        }
    });
}

/// Three devices ask to join from threads of their own, all at one bus. In the run each of them has asked, in some order.
fn ask_from_scoped_threads_with<
    R: Threads + Wait + Abort + Sync,
    L: Ledger + Send + Sync,
    M: Ledger + Send + Sync,
    N: Ledger + Send + Sync,
>(rt: &R, alloc: Global, active: Blank, session: Blank, frames: Blank) -> bool
    requires active { (active.name ≡ L.name) × (active.parts ≡ L.parts) × (active.parts ≡ 1) }
    requires session { (session.name ≡ M.name) × (session.parts ≡ M.parts) × (session.parts ≡ 1) }
    requires frames { (frames.name ≡ N.name) × (frames.parts ≡ N.parts) × (frames.parts ≡ 1) }
{
    let Some((bus, role, main)) = begun::<R, L, M, N>(rt, alloc, active, session, frames) else {
        return false;
    };
    let first = target_at(rt, &bus, slot(rt, 1));
    let second = attached(rt, &bus, slot(rt, 2), other_target(rt));
    let third = attached(rt, &bus, slot(rt, 3), controller(rt));
    let ports = both(rt, alloc, first, second);
    let mut ports = with(rt, ports, third);
    let count = AtomicU64::new(0);
    ask_from_threads(rt, &bus, &mut ports, &count);
    same(rt, count.load(Ordering::SeqCst), 3);
    let closed = closed(rt, bus, Some(role), with(rt, ports, main));
    same(rt, closed.run.len(), 6);
    for number in 1..4 {
        holds(
            rt,
            has(&closed.run, &asked(slot(rt, number))),
            "each has asked",
        );
    }
    true
}

/// The same, if there is memory for a bus.
fn ask_from_scoped_threads<R: Threads + Wait + Abort + Sync>(rt: &R, alloc: Global) -> bool {
    let (active, session, frames) = (Blank::new(1), Blank::new(1), Blank::new(1));
    ask_from_scoped_threads_with::<R, Brand, Brand, Brand>(rt, alloc, active, session, frames)
}

#[test]
fn devices_ask_from_scoped_threads(rt: HostRuntime) {
    if !ask_from_scoped_threads(&rt, rt.alloc()) {
        holds(&rt, ask_from_scoped_threads(&rt, rt.alloc()), "a bus");
    }
}

/// A slot's device asked to join.
fn asked(at: Slot) -> Entry {
    entry(Event::AskJoin(at), Reply::Asked)
}

/// Whether this entry is in the run.
fn has(run: &Run, due: &Entry) -> bool {
    for place in 0..run.len() {
        match got(run, place) {
            Some(found) if found == *due => return true,
            _ => {}
        }
    }
    false
}
