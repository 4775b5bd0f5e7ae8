use super::setting::{ALL, Trial, address, controller, entry, is_none, is_tried, slot};
use crate::checks::{holds, same};
use i3c_base::{Cuts, RoundReply, Served};
use i3c_frame::Silent;
use i3c_shared::{Closed, HeldRole, HeldSession, Left, Port, SharedBus};
use i3c_step::{Command, Event, Reply};
use std::alloc::Global;
use std::process::Abort;
use std::sync::Wait;
use std::sync::ledger::Ledger;

/// The session that an opening gives at once.
fn opened_once<L: Ledger, M: Ledger, N: Ledger, R: Wait + Abort>(
    rt: &R,
    bus: &SharedBus<L, M, N>,
    role: HeldRole<L, M, N>,
) -> HeldSession<L, M, N> {
    match bus.open_daa(rt, role, &mut Silent, Cuts::new()) {
        Ok((session, _)) => session,
        Err((role, _)) => {
            role.let_go();
            panic!(rt; "no session is opened")
        }
    }
}

/// The role that a session's end gives back at once.
fn ended_once<L: Ledger, M: Ledger, N: Ledger, R: Wait + Abort>(
    rt: &R,
    bus: &SharedBus<L, M, N>,
    session: HeldSession<L, M, N>,
) -> HeldRole<L, M, N> {
    match bus.end(rt, session, &mut Silent) {
        Ok(role) => role,
        Err((session, _)) => {
            session.let_go();
            panic!(rt; "the session doesn't end")
        }
    }
}

/// The role that the device at 09 takes at once.
fn handed_once<L: Ledger, M: Ledger, N: Ledger, R: Wait + Abort>(
    rt: &R,
    bus: &SharedBus<L, M, N>,
    role: HeldRole<L, M, N>,
    to: &Port,
) -> HeldRole<L, M, N> {
    match bus.hand_over(rt, role, address(rt, 0x09), &mut Silent, Cuts::new()) {
        Ok(served) => same(rt, served, Served::Quiet),
        Err((role, _)) => {
            role.let_go();
            panic!(rt; "the role isn't handed over")
        }
    }
    bus.take_role(rt, to).expect(rt, "the role")
}

/// The port's device drops off at once.
fn left_once<L: Ledger, M: Ledger, N: Ledger, R: Wait + Abort>(
    rt: &R,
    bus: &SharedBus<L, M, N>,
    port: Port,
) -> Left {
    match bus.drop_off(rt, port) {
        Ok(left) => left,
        Err((port, _)) => {
            port.let_go();
            panic!(rt; "the device doesn't drop off")
        }
    }
}

/// What is closed at once with this role and this port.
fn closed_once<L: Ledger, M: Ledger, N: Ledger, R: Abort>(
    rt: &R,
    alloc: Global,
    bus: SharedBus<L, M, N>,
    role: HeldRole<L, M, N>,
    port: Port,
) -> Closed {
    let mut ports = Vec::new(alloc);
    if let Err(refused) = ports.push(port) {
        refused.value.let_go();
        panic!(rt; "no memory");
    }
    match bus.close(Some(role), ports) {
        Ok(closed) => closed,
        Err(refused) => {
            refused.let_go();
            panic!(rt; "the bus isn't closed")
        }
    }
}

/// What a frame answers at once with a policy that accepts all.
fn commanded_once<L: Ledger, M: Ledger, N: Ledger, R: Wait + Abort>(
    rt: &R,
    bus: &SharedBus<L, M, N>,
    role: &mut HeldRole<L, M, N>,
    command: Command,
) -> Reply {
    let mut policy = ALL;
    bus.command(rt, role, command, &mut policy, &mut Silent, Cuts::new())
}

/// Where memory is granted no call is short of it: each call of the shared bus is made here and given once.
struct NoCallIsShortOfMemory;

impl Trial for NoCallIsShortOfMemory {
    fn run<R: Wait + Abort, L: Ledger, M: Ledger, N: Ledger>(
        rt: &R,
        alloc: Global,
        bus: SharedBus<L, M, N>,
        role: HeldRole<L, M, N>,
        main: Port,
    ) {
        let at = slot(rt, 1);
        let (mut role, mut main) = (role, main);
        let attached = bus.attach(rt, at, controller(rt));
        let mut port = attached.expect(rt, "a port");
        same(rt, bus.ask_join(rt, &mut port), Ok(()));
        let served = commanded_once(rt, &bus, &mut role, Command::Serve);
        same(rt, served, Reply::Served(Served::Joining));
        let mut session = opened_once(rt, &bus, role);
        let given = RoundReply::Assigned(address(rt, 0x09), controller(rt).identity);
        same(
            rt,
            bus.round(rt, &mut session, &mut Silent, Cuts::new()),
            Ok(given),
        );
        let mut role = ended_once(rt, &bus, session);
        let listed = commanded_once(rt, &bus, &mut role, Command::SendList);
        holds(rt, matches!(listed, Reply::Framed(_)), "the list is sent");
        let role = handed_once(rt, &bus, role, &port);
        holds(
            rt,
            is_none(bus.take_role(rt, &port)),
            "the role is taken once",
        );
        same(rt, bus.ask_role(rt, &mut main), Ok(()));
        same(rt, left_once(rt, &bus, main), Left::Now);
        let closed = closed_once(rt, alloc, bus, role, port);
        let first = entry(Event::Attach(at, controller(rt)), Reply::Attached);
        same(rt, closed.run.get(0), Ok(Some(first)));
        same(rt, closed.run.len(), 10);
    }
}

#[test]
fn no_call_is_short_of_memory(rt: HostRuntime) {
    let is_made = is_tried::<NoCallIsShortOfMemory, HostRuntime>(&rt, rt.alloc());
    holds(&rt, is_made, "a bus");
}
