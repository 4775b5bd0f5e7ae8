ghost use Rattle.std.specs.Prelude.{◌≡◌};

use super::setting::{
    Trial, ask_join, begun, both, closed, drop_off, entry, is_run, on_a_bus, post, slot, target,
    target_at, unclosed, with,
};
use crate::checks::same;
use i3c_base::Slot;
use i3c_shared::{CallFault, CloseFault, DropFault, HeldRole, Port, SharedBus};
use i3c_step::{Event, Reply};
use std::alloc::Global;
use std::marker::Brand;
use std::process::Abort;
use std::sync::Wait;
use std::sync::ledger::{Blank, Ledger};

/// A port of the slot of another bus, with one untaken post, if there is memory for that bus. That bus and the rest of it are
/// let go.
fn stranger<R: Wait + Abort>(rt: &R, alloc: Global, at: Slot) -> Option<Port> {
    let (active, session, frames) = (Blank::new(1), Blank::new(1), Blank::new(1));
    stranger_with::<R, Brand, Brand, Brand>(rt, alloc, at, active, session, frames)
}

/// The same, of a bus with ledgers that are opened from these blanks.
fn stranger_with<R: Wait + Abort, L: Ledger, M: Ledger, N: Ledger>(
    rt: &R,
    alloc: Global,
    at: Slot,
    active: Blank,
    session: Blank,
    frames: Blank,
) -> Option<Port>
    requires active { (active.name ≡ L.name) × (active.parts ≡ L.parts) × (active.parts ≡ 1) }
    requires session { (session.name ≡ M.name) × (session.parts ≡ M.parts) × (session.parts ≡ 1) }
    requires frames { (frames.name ≡ N.name) × (frames.parts ≡ N.parts) × (frames.parts ≡ 1) }
{
    let (bus, role, main) = begun::<R, L, M, N>(rt, alloc, active, session, frames)?;
    let mut port = target_at(rt, &bus, at);
    post(rt, &mut port, 0x33);
    bus.let_go();
    role.let_go();
    main.let_go();
    Some(port)
}

/// The same port, of another bus where there was no memory for the first.
fn strangers<R: Wait + Abort>(rt: &R, alloc: Global, at: Slot) -> Port {
    match stranger(rt, alloc, at) {
        None => stranger(rt, alloc, at),
        made => made,
    }
    .expect(rt, "a stranger's port")
}

/// The port, which doesn't drop off for want of memory.
fn kept<L: Ledger, M: Ledger, N: Ledger, R: Wait + Abort>(
    rt: &R,
    bus: &SharedBus<L, M, N>,
    port: Port,
) -> Port {
    match drop_off(rt, bus, port) {
        Ok(_) => panic!(rt; "a stranger's device is gone"),
        Err((port, why)) => {
            same(rt, why, DropFault::OutOfMemory);
            port
        }
    }
}

/// A port of another bus, whose ring isn't the one under the lock: no call believes it, nothing is taken, and no post of
/// it comes into the run.
struct AStrangersPortIsNotBelieved;

impl Trial for AStrangersPortIsNotBelieved {
    fn run<R: Wait + Abort, L: Ledger, M: Ledger, N: Ledger>(
        rt: &R,
        alloc: Global,
        bus: SharedBus<L, M, N>,
        role: HeldRole<L, M, N>,
        main: Port,
    ) {
        let at = slot(rt, 1);
        let mut own = target_at(rt, &bus, at);
        let mut foreign = strangers(rt, alloc, at);
        same(
            rt,
            bus.ask_join(rt, &mut foreign),
            Err(CallFault::OutOfMemory),
        );
        same(
            rt,
            bus.ask_role(rt, &mut foreign),
            Err(CallFault::OutOfMemory),
        );
        let foreign = kept(rt, &bus, foreign);
        let ports = both(rt, alloc, main, foreign);
        let (bus, role, ports) = unclosed(rt, bus, Some(role), ports, CloseFault::OutOfMemory);
        let mut ports = ports;
        ports.pop().expect(rt, "the stranger's port").let_go();
        same(rt, ask_join(rt, &bus, &mut own), Ok(()));
        let closed = closed(rt, bus, role, with(rt, ports, own));
        let due = [
            entry(Event::Attach(at, target(rt)), Reply::Attached),
            entry(Event::AskJoin(at), Reply::Asked),
        ];
        is_run(rt, &closed.run, &due);
    }
}

#[test]
fn a_strangers_port_is_not_believed(rt: HostRuntime) {
    on_a_bus::<AStrangersPortIsNotBelieved, HostRuntime>(&rt, rt.alloc());
}
