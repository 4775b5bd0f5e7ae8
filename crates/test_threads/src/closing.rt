use super::setting::{
    Trial, address, assigned, attached, closed, commanded, ended, ends_with, entry, is_none,
    on_a_bus, only, opened, other_target, post_is_full, post_up_to, role_is_out, slot, target_at,
    unclosed, with,
};
use crate::checks::{holds, same};
use i3c_base::Cuts;
use i3c_shared::{CloseFault, HeldRole, Port, SharedBus, spend_ports};
use i3c_step::{Command, Event, Refusal, Reply};
use std::alloc::Global;
use std::process::Abort;
use std::sync::Wait;
use std::sync::ledger::Ledger;

/// The port that is told is the lowest that is out and isn't handed in, in whatever order the others are.
struct TheLowestPortIsTold;

impl Trial for TheLowestPortIsTold {
    fn run<R: Wait + Abort, L: Ledger, M: Ledger, N: Ledger>(
        rt: &R,
        alloc: Global,
        bus: SharedBus<L, M, N>,
        role: HeldRole<L, M, N>,
        main: Port,
    ) {
        let (one, three) = (slot(rt, 1), slot(rt, 3));
        let first = target_at(rt, &bus, one);
        let third = attached(rt, &bus, three, other_target(rt));
        let (zero_out, none) = (CloseFault::PortOut(slot(rt, 0)), Vec::new(alloc));
        let (bus, role, ports) = unclosed(rt, bus, Some(role), none, zero_out);
        let ports = with(rt, ports, third);
        let (bus, role, ports) = unclosed(rt, bus, role, ports, zero_out);
        let ports = with(rt, ports, main);
        let (bus, role, ports) = unclosed(rt, bus, role, ports, CloseFault::PortOut(one));
        let closed = closed(rt, bus, role, with(rt, ports, first));
        let (events, records) = (closed.run.len(), closed.records.as_slice().len());
        holds(rt, events == 2 && records == 0, "two events, and no record");
    }
}

#[test]
fn the_lowest_port_is_told(rt: HostRuntime) {
    on_a_bus::<TheLowestPortIsTold, HostRuntime>(&rt, rt.alloc());
}

/// Of two ports that are out the lower is told, and then the other.
struct TheNextPortIsTold;

impl Trial for TheNextPortIsTold {
    fn run<R: Wait + Abort, L: Ledger, M: Ledger, N: Ledger>(
        rt: &R,
        alloc: Global,
        bus: SharedBus<L, M, N>,
        role: HeldRole<L, M, N>,
        main: Port,
    ) {
        let (two, three) = (slot(rt, 2), slot(rt, 3));
        let second = target_at(rt, &bus, two);
        let third = attached(rt, &bus, three, other_target(rt));
        let ports = only(rt, alloc, main);
        let (bus, role, ports) = unclosed(rt, bus, Some(role), ports, CloseFault::PortOut(two));
        let ports = with(rt, ports, second);
        let (bus, role, ports) = unclosed(rt, bus, role, ports, CloseFault::PortOut(three));
        let closed = closed(rt, bus, role, with(rt, ports, third));
        same(rt, closed.run.len(), 2);
    }
}

#[test]
fn the_next_port_is_told(rt: HostRuntime) {
    on_a_bus::<TheNextPortIsTold, HostRuntime>(&rt, rt.alloc());
}

/// A port that was let go is out for good. The port of a device that a cut took away is out until it is handed in.
struct PortsOfNobodyAreOut;

impl Trial for PortsOfNobodyAreOut {
    fn run<R: Wait + Abort, L: Ledger, M: Ledger, N: Ledger>(
        rt: &R,
        alloc: Global,
        bus: SharedBus<L, M, N>,
        role: HeldRole<L, M, N>,
        main: Port,
    ) {
        let (one, two) = (slot(rt, 1), slot(rt, 2));
        let first = target_at(rt, &bus, one);
        attached(rt, &bus, two, other_target(rt)).let_go();
        let mut role = assigned(rt, &bus, role);
        let mut cuts = Cuts::new();
        cuts.add(one, 20);
        let from = Command::ReadFrom(address(rt, 0x09));
        let read = commanded(rt, &bus, &mut role, from, cuts);
        holds(rt, matches!(read, Reply::Framed(_)), "the frame is sent");
        let ports = only(rt, alloc, main);
        let (bus, role, ports) = unclosed(rt, bus, Some(role), ports, CloseFault::PortOut(one));
        let ports = with(rt, ports, first);
        let (bus, role, ports) = unclosed(rt, bus, role, ports, CloseFault::PortOut(two));
        bus.let_go();
        holds(rt, !is_none(role), "the role came back");
        spend_ports(ports);
    }
}

#[test]
fn ports_of_nobody_are_out(rt: HostRuntime) {
    on_a_bus::<PortsOfNobodyAreOut, HostRuntime>(&rt, rt.alloc());
}

/// With no role handed in, and none parked, the role is out, whatever ports are.
struct ARoleIsDue;

impl Trial for ARoleIsDue {
    fn run<R: Wait + Abort, L: Ledger, M: Ledger, N: Ledger>(
        rt: &R,
        alloc: Global,
        bus: SharedBus<L, M, N>,
        role: HeldRole<L, M, N>,
        main: Port,
    ) {
        let none = Vec::new(alloc);
        let (bus, ports) = role_is_out(rt, bus, none);
        let (bus, ports) = role_is_out(rt, bus, with(rt, ports, main));
        let closed = closed(rt, bus, Some(role), ports);
        holds(rt, closed.run.is_empty(), "the run is empty");
    }
}

#[test]
fn a_role_is_due(rt: HostRuntime) {
    on_a_bus::<ARoleIsDue, HostRuntime>(&rt, rt.alloc());
}

/// While a session is open the role is out.
struct ASessionHasTheRole;

impl Trial for ASessionHasTheRole {
    fn run<R: Wait + Abort, L: Ledger, M: Ledger, N: Ledger>(
        rt: &R,
        alloc: Global,
        bus: SharedBus<L, M, N>,
        role: HeldRole<L, M, N>,
        main: Port,
    ) {
        let session = opened(rt, &bus, role);
        let ports = only(rt, alloc, main);
        let (bus, ports) = role_is_out(rt, bus, ports);
        let role = ended(rt, &bus, session);
        let closed = closed(rt, bus, Some(role), ports);
        same(rt, closed.run.len(), 2);
    }
}

#[test]
fn a_session_has_the_role(rt: HostRuntime) {
    on_a_bus::<ASessionHasTheRole, HostRuntime>(&rt, rt.alloc());
}

/// A refused close takes nothing up: a port with eight untaken posts stays full. The accepted one takes them all.
struct ARefusedCloseTakesNothingUp;

impl Trial for ARefusedCloseTakesNothingUp {
    fn run<R: Wait + Abort, L: Ledger, M: Ledger, N: Ledger>(
        rt: &R,
        alloc: Global,
        bus: SharedBus<L, M, N>,
        role: HeldRole<L, M, N>,
        main: Port,
    ) {
        let at = slot(rt, 0);
        let mut main = main;
        post_up_to(rt, &mut main, 8);
        let none = Vec::new(alloc);
        let (bus, none) = role_is_out(rt, bus, none);
        post_is_full(rt, &mut main);
        let (bus, role, none) = unclosed(rt, bus, Some(role), none, CloseFault::PortOut(at));
        post_is_full(rt, &mut main);
        let closed = closed(rt, bus, role, with(rt, none, main));
        same(rt, closed.run.len(), 8);
        let last = entry(Event::Raise(at, Some(8)), Reply::Refused(Refusal::IsActive));
        ends_with(rt, &closed.run, &[last]);
    }
}

#[test]
fn a_refused_close_takes_nothing_up(rt: HostRuntime) {
    on_a_bus::<ARefusedCloseTakesNothingUp, HostRuntime>(&rt, rt.alloc());
}
