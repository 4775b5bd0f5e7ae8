use super::setting::{
    Trial, ask_role, attach, both, closed, drop_off, ends_with, entry, handed, is_none, on_a_bus,
    only, role_is_out, serves, slot, target, unclosed, with,
};
use crate::checks::{holds, same};
use i3c_base::Served;
use i3c_shared::{
    AttachFault, CallFault, CloseFault, DropFault, HeldRole, Port, SharedBus, spend_ports,
};
use i3c_step::{Event, Refusal, Reply};
use std::alloc::Global;
use std::process::Abort;
use std::sync::Wait;
use std::sync::ledger::Ledger;

/// The role, which the new holder's port alone is given, and once.
fn taken<L: Ledger, M: Ledger, N: Ledger, R: Wait + Abort>(
    rt: &R,
    bus: &SharedBus<L, M, N>,
    main: &Port,
    port: &Port,
) -> HeldRole<L, M, N> {
    holds(
        rt,
        is_none(bus.take_role(rt, main)),
        "no role is parked for the main controller",
    );
    let role = bus.take_role(rt, port).expect(rt, "the role");
    holds(
        rt,
        is_none(bus.take_role(rt, port)),
        "the role is taken once",
    );
    same(rt, role.holder(), slot(rt, 1));
    role
}

/// The port of the new holder, which doesn't drop off.
fn stays<L: Ledger, M: Ledger, N: Ledger, R: Wait + Abort>(
    rt: &R,
    bus: &SharedBus<L, M, N>,
    port: Port,
) -> Port {
    match drop_off(rt, bus, port) {
        Ok(_) => panic!(rt; "the active controller is gone"),
        Err((port, why)) => {
            same(rt, why, DropFault::ActiveStays);
            port
        }
    }
}

/// A handover: the new holder alone takes the role, once, and serves. It stays on the bus, which isn't closed while its
/// role or its port is out.
struct TheNewHolderTakesTheRole;

impl Trial for TheNewHolderTakesTheRole {
    fn run<R: Wait + Abort, L: Ledger, M: Ledger, N: Ledger>(
        rt: &R,
        alloc: Global,
        bus: SharedBus<L, M, N>,
        role: HeldRole<L, M, N>,
        main: Port,
    ) {
        let at = slot(rt, 1);
        let port = handed(rt, &bus, role);
        let mut main = main;
        let mut role = taken(rt, &bus, &main, &port);
        serves(rt, &bus, &mut role, Served::Quiet);
        same(rt, ask_role(rt, &bus, &mut main), Ok(()));
        match attach(rt, &bus, at, target(rt)) {
            Ok(port) => {
                port.let_go();
                holds(rt, false, "the slot is taken");
            }
            Err(why) => same(rt, why, AttachFault::SlotTaken),
        }
        let port = stays(rt, &bus, port);
        let ports = only(rt, alloc, main);
        let (bus, ports) = role_is_out(rt, bus, ports);
        let (bus, role, ports) = unclosed(rt, bus, Some(role), ports, CloseFault::PortOut(at));
        let closed = closed(rt, bus, role, with(rt, ports, port));
        let due = [
            entry(Event::AskRole(slot(rt, 0)), Reply::Asked),
            entry(
                Event::Attach(at, target(rt)),
                Reply::Refused(Refusal::SlotTaken),
            ),
            entry(Event::DropOff(at), Reply::Refused(Refusal::ActiveStays)),
        ];
        ends_with(rt, &closed.run, &due);
    }
}

#[test]
fn the_new_holder_takes_the_role(rt: HostRuntime) {
    on_a_bus::<TheNewHolderTakesTheRole, HostRuntime>(&rt, rt.alloc());
}

/// The holder of the role doesn't wish for it.
struct TheNewHolderDoesNotAsk;

impl Trial for TheNewHolderDoesNotAsk {
    fn run<R: Wait + Abort, L: Ledger, M: Ledger, N: Ledger>(
        rt: &R,
        alloc: Global,
        bus: SharedBus<L, M, N>,
        role: HeldRole<L, M, N>,
        main: Port,
    ) {
        let port = handed(rt, &bus, role);
        let mut port = port;
        same(
            rt,
            ask_role(rt, &bus, &mut port),
            Err(CallFault::Refused(Refusal::IsActive)),
        );
        // the role is parked: it is in
        let ports = both(rt, alloc, main, port);
        let closed = closed(rt, bus, None, ports);
        let due = [entry(
            Event::AskRole(slot(rt, 1)),
            Reply::Refused(Refusal::IsActive),
        )];
        ends_with(rt, &closed.run, &due);
    }
}

#[test]
fn the_new_holder_does_not_ask(rt: HostRuntime) {
    on_a_bus::<TheNewHolderDoesNotAsk, HostRuntime>(&rt, rt.alloc());
}

/// A role that was taken and let go is out, and isn't parked again.
struct ARoleThatWasLetGoIsOut;

impl Trial for ARoleThatWasLetGoIsOut {
    fn run<R: Wait + Abort, L: Ledger, M: Ledger, N: Ledger>(
        rt: &R,
        alloc: Global,
        bus: SharedBus<L, M, N>,
        role: HeldRole<L, M, N>,
        main: Port,
    ) {
        let port = handed(rt, &bus, role);
        taken(rt, &bus, &main, &port).let_go();
        let ports = both(rt, alloc, main, port);
        let (bus, ports) = role_is_out(rt, bus, ports);
        bus.let_go();
        spend_ports(ports);
    }
}

#[test]
fn a_role_that_was_let_go_is_out(rt: HostRuntime) {
    on_a_bus::<ARoleThatWasLetGoIsOut, HostRuntime>(&rt, rt.alloc());
}
