ghost use Rattle.std.specs.Prelude.{◌≡◌, ⊤};

use super::setting::{
    ALL, address, assigned, attached, begun, both, closed, commanded_by, ends_with, entry,
    other_target, post, reached, slot, target_at, with,
};
use crate::checks::{holds, same};
use i3c_base::{Addr7, Cuts, Request, Served, Slot, Verdict};
use i3c_bus::Policy;
use i3c_scenario::{Gate, StressFault, StressReport, stress};
use i3c_shared::{Entry, Full, HeldRole, Port, SharedBus};
use i3c_step::{Command, Event, Reply};
use std::alloc::Global;
use std::marker::Brand;
use std::process::Abort;
use std::sync::Wait;
use std::sync::atomic::{AtomicU64, Ordering};
use std::sync::ledger::{Blank, Ledger};
use std::thread;
use std::thread::Threads;
use std::time::Clock;

/// A gate at which the first call of each of two devices waits until the other's has begun.
#[derive(Drop)]
struct Meeting<'a, R> {
    rt: &'a R,
    first: AtomicU64,
    second: AtomicU64,
    late: AtomicU64,
}

impl<'a, R: Clock> Gate for Meeting<'a, R> {
    fn answered(&self, slot: Slot, n: u64) {
        if n == 1 {
            let (own, other) = if slot.index() == 1 {
                (&self.first, &self.second)
            } else {
                (&self.second, &self.first)
            };
            own.fetch_add(1, Ordering::SeqCst);
            if !reached(self.rt, other, 1) {
                self.late.fetch_add(1, Ordering::SeqCst);
            }
        }
    }
}

/// What two devices with two posts each come to, and how often one of them waited for too long.
fn met<R: Threads + Wait + Clock + Sync>(
    rt: &R,
    alloc: Global,
) -> (Result<StressReport, StressFault>, u64) {
    let gate = Meeting {
        rt,
        first: AtomicU64::new(0),
        second: AtomicU64::new(0),
        late: AtomicU64::new(0),
    };
    let mut policy = ALL;
    let report = stress(rt, alloc, 2, 2, &mut policy, &gate);
    (report, gate.late.load(Ordering::SeqCst))
}

// Two devices that wait for each other's first answer run at once, and each of their four posts is accounted for.
#[test]
fn devices_post_at_once(rt: HostRuntime) {
    let (report, late) = match met(&rt, rt.alloc()) {
        (Err(StressFault::Memory), _) => met(&rt, rt.alloc()),
        first => first,
    };
    assert!(rt; late == 0);
    match report {
        Ok(report) => {
            same(&rt, report.tried, 4);
            same(&rt, report.posted, 4);
            same(&rt, report.turned_away, 0);
            same(&rt, report.recorded.checked_add(report.waiting), Some(4));
        }
        Err(_) => holds(&rt, false, "there is a report"),
    }
}

/// What two threads have counted.
#[derive(Drop)]
struct Counts {
    /// How often the policy was asked as it should be.
    asked: AtomicU64,
    /// How many answers the poster had.
    answers: AtomicU64,
    /// How many of these say that its post is in.
    posted: AtomicU64,
    /// How often one of the threads waited for too long.
    late: AtomicU64,
}

fn none_counted() -> Counts {
    Counts {
        asked: AtomicU64::new(0),
        answers: AtomicU64::new(0),
        posted: AtomicU64::new(0),
        late: AtomicU64::new(0),
    }
}

/// A policy that accepts one device's interrupt after another device's thread had nine answers.
#[derive(Drop)]
struct Patient<'a, R> {
    rt: &'a R,
    from: Addr7,
    counts: &'a Counts,
}

impl<'a, R: Clock> Policy for Patient<'a, R> {
    ghost verdict_gives = { λ old request verdict new. ⊤ };

    fn verdict(&mut self, request: Request) -> Verdict {
        if request != Request::Interrupt(self.from) {
            return Verdict::Refuse;
        }
        self.counts.asked.fetch_add(1, Ordering::SeqCst);
        if !reached(self.rt, &self.counts.answers, 9) {
            self.counts.late.fetch_add(1, Ordering::SeqCst);
        }
        Verdict::Accept
    }
}

/// The answer to a serve under a patient policy.
fn serve_patiently<L: Ledger, M: Ledger, N: Ledger, R: Wait + Clock>(
    rt: &R,
    bus: &SharedBus<L, M, N>,
    role: &mut HeldRole<L, M, N>,
    counts: &Counts,
    from: Addr7,
) -> Reply {
    let mut policy = Patient { rt, from, counts };
    commanded_by(rt, bus, role, Command::Serve, &mut policy, Cuts::new())
}

/// Nine posts of the bytes 1 to 9, once the policy was asked. It answers the result of the ninth.
fn post_nine<R: Clock>(rt: &R, port: &mut Port, counts: &Counts) -> Result<(), Full> {
    if !reached(rt, &counts.asked, 1) {
        counts.late.fetch_add(1, Ordering::SeqCst);
    }
    for byte in 1..9 {
        if port.post(Some(byte)).is_ok() {
            counts.posted.fetch_add(1, Ordering::SeqCst);
        }
        counts.answers.fetch_add(1, Ordering::SeqCst);
    }
    let last = port.post(Some(9));
    counts.answers.fetch_add(1, Ordering::SeqCst);
    last
}

/// The raise of a slot with a byte that is its number, accepted.
fn raised(at: Slot, byte: u8) -> Entry {
    entry(Event::Raise(at, Some(byte)), Reply::Raised(u64::from(byte)))
}

/// The first eight raises of a slot.
fn eight(at: Slot) -> [Entry; 8] {
    [
        raised(at, 1),
        raised(at, 2),
        raised(at, 3),
        raised(at, 4),
        raised(at, 5),
        raised(at, 6),
        raised(at, 7),
        raised(at, 8),
    ]
}

/// While a serve waits under the lock, another device's thread posts: eight posts are taken, and the ninth is told to be
/// one too many. All eight come into the run, in order.
fn post_under_a_serve_with<
    R: Threads + Wait + Clock + Abort + Sync,
    L: Ledger + Send + Sync,
    M: Ledger + Send + Sync,
    N: Ledger + Send + Sync,
>(rt: &R, alloc: Global, active: Blank, session: Blank, frames: Blank) -> bool
    requires active { (active.name ≡ L.name) × (active.parts ≡ L.parts) × (active.parts ≡ 1) }
    requires session { (session.name ≡ M.name) × (session.parts ≡ M.parts) × (session.parts ≡ 1) }
    requires frames { (frames.name ≡ N.name) × (frames.parts ≡ N.parts) × (frames.parts ≡ 1) }
{
    let Some((bus, role, main)) = begun::<R, L, M, N>(rt, alloc, active, session, frames) else {
        return false;
    };
    let counts = none_counted();
    let mut first = target_at(rt, &bus, slot(rt, 1));
    let mut second = attached(rt, &bus, slot(rt, 2), other_target(rt));
    let mut role = assigned(rt, &bus, role);
    post(rt, &mut second, 1);
    let from = address(rt, 0x0A);
    let (ninth, served) = thread::join(
        rt,
        || post_nine(rt, &mut first, &counts),
        || serve_patiently(rt, &bus, &mut role, &counts, from),
    );
    assert!(rt; counts.late.load(Ordering::SeqCst) == 0);
    same(rt, counts.posted.load(Ordering::SeqCst), 8);
    same(rt, ninth, Err(Full(Some(9))));
    same(rt, served, Reply::Served(Served::Recorded(1)));
    let ports = both(rt, alloc, main, first);
    let closed = closed(rt, bus, Some(role), with(rt, ports, second));
    // two attachments, a session of five events, the other's raise, and the serve, come before
    same(rt, closed.run.len(), 17);
    ends_with(rt, &closed.run, &eight(slot(rt, 1)));
    true
}

/// The same, if there is memory for a bus.
fn post_under_a_serve<R: Threads + Wait + Clock + Abort + Sync>(rt: &R, alloc: Global) -> bool {
    let (active, session, frames) = (Blank::new(1), Blank::new(1), Blank::new(1));
    post_under_a_serve_with::<R, Brand, Brand, Brand>(rt, alloc, active, session, frames)
}

#[test]
fn posts_do_not_wait_for_a_serve(rt: HostRuntime) {
    if !post_under_a_serve(&rt, rt.alloc()) {
        holds(&rt, post_under_a_serve(&rt, rt.alloc()), "a bus");
    }
}
