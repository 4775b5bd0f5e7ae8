ghost use Rattle.std.specs.Prelude.{◌≡◌, ◌+◌, ◌*◌, ◌≤◌, IfOk, IsTrue};
ghost use Rattle.i3c_stress.specs.Reporting.{CountsBus};
ghost use Rattle.i3c_stress.specs.declared.stressing.TheConstants.{MOST_DEVICES, MOST_POSTS};

use crate::devices::{have_entered, have_posted};
use crate::report::{StressFault, StressReport, count, report};
use crate::stress_bus::{StressBus, begin, end};
use i3c_base::{Cuts, Slot};
use i3c_bus::Policy;
use i3c_frame::Silent;
use i3c_shared::{Closed, HeldRole, Port, SharedBus};
use i3c_step::{Command, Reply};
use std::alloc::Global;
use std::marker::Brand;
use std::sync::ledger::{Blank, Ledger};
use std::sync::{Mutex, Wait};
use std::thread;
use std::thread::{JoinHandle, Threads};

/// How many devices there may be: one for each slot but the main controller's.
pub const MOST_DEVICES: u8 = 63;

/// How often each of them may try to post (this project's choice).
pub const MOST_POSTS: u32 = 100_000;

/// Called by each device's thread after each answered try.
pub trait Gate {
    /// The slot's device has had its nth answer, from 1.
    fn answered(&self, slot: Slot, n: u64);
}

/// Watches a run: a gate, and told of each serve and of the closed bus besides. Tests hold threads up by it.
pub trait Watch {
    /// The slot's device has had its nth answer, from 1.
    fn answered(&self, slot: Slot, n: u64);

    /// The nth serve begins, from 1.
    fn serving(&self, n: u64);

    /// The bus was closed. Its run is counted next.
    fn closed(&self, closed: &Closed);
}

/// A gate alone: nobody is told of serves, or of the closed bus.
#[derive(Drop)]
struct Unwatched<'a, G> {
    gate: &'a G,
}

impl<'a, G: Gate> Watch for Unwatched<'a, G> {
    fn answered(&self, slot: Slot, n: u64) {
        self.gate.answered(slot, n);
    }

    fn serving(&self, _n: u64) {}

    fn closed(&self, _closed: &Closed) {}
}

/// Devices in slots from 1 raise interrupts from threads of their own, each `posts` times, with bytes that count from 0.
/// This thread serves once for each try. Then the bus is closed, and its run counted.
pub fn stress<R: Threads + Wait + Sync, P: Policy, G: Gate + Sync>(
    rt: &R,
    alloc: Global,
    devices: u8,
    posts: u64,
    policy: &mut P,
    gate: &G,
) -> Result<StressReport, StressFault>
    requires devices { (1 ≤ devices) × (devices ≤ MOST_DEVICES) }
    requires posts { (1 ≤ posts) × (posts ≤ MOST_POSTS) }
    ensures tried { IfOk result (λ r. r.tried ≡ devices * posts) }
    ensures posted { IfOk result (λ r. r.posted ≤ r.tried) }
    ensures balanced { IfOk result (λ r. r.posted ≡ r.turned_away + r.recorded + r.waiting) }
    ensures counted { IfOk result (CountsBus devices posts) }
{
    stress_watched(rt, alloc, devices, posts, policy, &Unwatched { gate })
}

/// The same, watched.
pub fn stress_watched<R: Threads + Wait + Sync, P: Policy, W: Watch + Sync>(
    rt: &R,
    alloc: Global,
    devices: u8,
    posts: u64,
    policy: &mut P,
    watch: &W,
) -> Result<StressReport, StressFault>
    requires devices { (1 ≤ devices) × (devices ≤ MOST_DEVICES) }
    requires posts { (1 ≤ posts) × (posts ≤ MOST_POSTS) }
    ensures tried { IfOk result (λ r. r.tried ≡ devices * posts) }
    ensures posted { IfOk result (λ r. r.posted ≤ r.tried) }
    ensures balanced { IfOk result (λ r. r.posted ≡ r.turned_away + r.recorded + r.waiting) }
    ensures counted { IfOk result (CountsBus devices posts) }
{
    let (active, session, frames) = (Blank::new(1), Blank::new(1), Blank::new(1));
    stress_with::<Brand, Brand, Brand, R, P, W>(
        rt, alloc, active, session, frames, devices, posts, policy, watch,
    )
}

/// The same on a bus with ledgers that are opened from these blanks.
fn stress_with<
    L: Ledger + Send + Sync,
    M: Ledger + Send + Sync,
    N: Ledger + Send + Sync,
    R: Threads + Wait + Sync,
    P: Policy,
    W: Watch + Sync,
>(
    rt: &R,
    alloc: Global,
    active: Blank,
    session: Blank,
    frames: Blank,
    devices: u8,
    posts: u64,
    policy: &mut P,
    watch: &W,
) -> Result<StressReport, StressFault>
    requires active { (active.name ≡ L.name) × (active.parts ≡ L.parts) × (active.parts ≡ 1) }
    requires session { (session.name ≡ M.name) × (session.parts ≡ M.parts) × (session.parts ≡ 1) }
    requires frames { (frames.name ≡ N.name) × (frames.parts ≡ N.parts) × (frames.parts ≡ 1) }
    requires devices { (1 ≤ devices) × (devices ≤ MOST_DEVICES) }
    requires posts { (1 ≤ posts) × (posts ≤ MOST_POSTS) }
    ensures tried { IfOk result (λ r. r.tried ≡ devices * posts) }
    ensures posted { IfOk result (λ r. r.posted ≤ r.tried) }
    ensures balanced { IfOk result (λ r. r.posted ≡ r.turned_away + r.recorded + r.waiting) }
    ensures counted { IfOk result (CountsBus devices posts) }
{
    let tried = u64::from(devices) * posts;
    let StressBus {
        bus,
        mut role,
        mut ports,
    } = begin::<L, M, N, R>(rt, alloc, active, session, frames, devices)?;
    let before = role.frames();
    // no other thread takes this lock: it lends the server to the threads' scope
    let server = Mutex::new(Server {
        role: &mut role,
        policy,
    });
    let posted = post_and_serve(rt, alloc, &bus, &server, &mut ports, tried, posts, watch);
    drop(server);
    let after = role.frames();
    let closed = end(StressBus { bus, role, ports })?;
    watch.closed(&closed);
    let counted = count(&closed)?;
    let posted = posted?;
    let entered = have_entered(&closed.run, devices)?;
    if !is_served(before, after, tried)
        || !entered
        || !have_posted(&counted.by_slot, devices, posts)
    {
        return Err(StressFault::NotBalanced);
    }
    report(tried, posted, counted)
}

/// Whether each try was served: the role counts a frame more for each.
fn is_served(before: u64, after: u64, tried: u64) -> bool
    ensures { IsTrue result → after ≡ before + tried }
{
    after.checked_sub(before) == Some(tried)
}

/// A device's tries, with bytes that count from 0. It answers how many were posted.
fn post_all<W: Watch>(port: &mut Port, watch: &W, posts: u64) -> u64
    ensures { result ≤ posts }
{
    let slot = port.slot();
    let mut posted = 0u64;
    for n in 0..posts {
        if port.post(Some((n % 256) as u8)).is_ok() {
            posted += 1;
        }
        watch.answered(slot, n + 1);
    }
    posted
}

/// Starts a thread for each device, serves on this one, and joins them all. It answers how many tries were posted.
fn post_and_serve<
    L: Ledger + Send + Sync,
    M: Ledger + Send + Sync,
    N: Ledger + Send + Sync,
    R: Threads + Wait + Sync,
    P: Policy,
    W: Watch + Sync,
>(
    rt: &R,
    alloc: Global,
    bus: &SharedBus<L, M, N>,
    server: &Mutex<Server<'_, L, M, N, P>>,
    ports: &mut Vec<Port>,
    tried: u64,
    posts: u64,
    watch: &W,
) -> Result<u64, StressFault>
    requires { posts ≤ MOST_POSTS }
{
    thread::scope(
        thread::scope_env(),
        rt,
        move |scope| -> Result<u64, StressFault> {
            let mut started = true;
            let mut handles: Vec<JoinHandle<u64>> = Vec::new(alloc);
            for port in ports.iter_mut() {
                if port.slot() != Slot::default() {
                    match scope.spawn(move || post_all(port, watch, posts)) {
                        Ok(handle) => {
                            if handles.push(handle).is_err() {
                                started = false;
                            }
                        }
                        Err(_) => started = false,
                    }
                }
            }
            let served = server.lock(rt).serve_all(rt, bus, tried, watch);
            let mut posted = 0u64;
            while let Some(handle) = handles.pop() {
                posted = posted.saturating_add(handle.join(rt));
            }
            served?;
            if started {
                Ok(posted)
            } else {
                Err(StressFault::Memory)
            }
        },
    )
}

/// The role and the policy that requests are served with.
#[derive(Drop)]
struct Server<'a, L: Ledger, M: Ledger, N: Ledger, P> {
    role: &'a mut HeldRole<L, M, N>,
    policy: &'a mut P,
}

impl<'a, L: Ledger, M: Ledger, N: Ledger, P: Policy> Server<'a, L, M, N, P> {
    /// Serves `times` times.
    fn serve_all<R: Threads + Wait + Sync, W: Watch>(
        &mut self,
        rt: &R,
        bus: &SharedBus<L, M, N>,
        times: u64,
        watch: &W,
    ) -> Result<(), StressFault> {
        for n in 0..times {
            watch.serving(n + 1);
            let reply = bus.command(
                rt,
                self.role,
                Command::Serve,
                self.policy,
                &mut Silent,
                Cuts::new(),
            );
            match reply {
                Reply::Served(_) => {}
                Reply::OutOfMemory => return Err(StressFault::Memory),
                _ => return Err(StressFault::NotBalanced),
            }
        }
        Ok(())
    }
}
