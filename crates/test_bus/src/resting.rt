// A bus at rest, and the buses that are woken from it.
ghost use Rattle.i3c_bus.specs.Hands.{HandFits};

use crate::checks::{holds, same};
use crate::setting::{all, interrupted, slot};
use i3c_base::Cuts;
use i3c_bus::{Bus, BusSnapshot, Command, Event, Hand, Reply, Served, Verdict};
use i3c_frame::Silent;
use std::alloc::Global;
use std::process::Abort;

/// A bus at rest whose T has an interrupt that waits.
fn at_rest<R: Abort>(rt: &R, alloc: Global) -> BusSnapshot {
    let (bus, role) = interrupted(rt, alloc);
    rested(rt, alloc, bus, Hand::Role(role))
}

/// The bus at rest.
fn rested<R: Abort>(rt: &R, alloc: Global, bus: Bus, hand: Hand) -> BusSnapshot
    requires { HandFits hand bus.state }
{
    bus.rest(alloc, hand).expect(rt, "a bus at rest")
}

/// The bus once more.
fn woken<R: Abort>(rt: &R, alloc: Global, still: &BusSnapshot) -> (Bus, Hand)
    ensures { HandFits result.1 result.0.state }
{
    still.wake(alloc).expect(rt, "a bus that is awake")
}

/// The bus after a serve that recorded T's interrupt.
fn served<R: Abort>(rt: &R, alloc: Global, still: &BusSnapshot) -> BusSnapshot {
    let (mut bus, hand) = woken(rt, alloc, still);
    let mut accept = all(Verdict::Accept);
    let reply = bus.command(
        &hand,
        &Command::Serve,
        &mut accept,
        &mut Silent,
        &Cuts::new(),
    );
    same(rt, reply, Reply::Served(Served::Recorded(1)));
    same(rt, bus.waiting(slot()), 0);
    rested(rt, alloc, bus, hand)
}

/// The bus after the opening of a session, where T's interrupt waits.
fn opened<R: Abort>(rt: &R, alloc: Global, still: &BusSnapshot) -> BusSnapshot {
    let (mut bus, hand) = woken(rt, alloc, still);
    same(rt, bus.waiting(slot()), 1);
    let open = Event::OpenDaa(Cuts::new());
    let (hand, reply) = bus.step(hand, &open, &mut Silent);
    same(rt, reply, Reply::Opened(Served::Refused));
    rested(rt, alloc, bus, hand)
}

/// A copy of a bus with an open session.
fn copied<R: Abort>(rt: &R, alloc: Global, open: &BusSnapshot) -> BusSnapshot {
    let (bus, hand) = woken(rt, alloc, open);
    let is_session = matches!(&hand, Hand::Session(_));
    holds(rt, is_session, "a session is open");
    rested(rt, alloc, bus, hand)
}

// A bus at rest is woken twice. What one of the two does isn't done to the other, and equal states are the same, whether or
// not a session is open.
#[test]
fn a_bus_at_rest_is_woken_twice(rt: HostRuntime) {
    let still = at_rest(&rt, rt.alloc());
    let later = served(&rt, rt.alloc(), &still);
    let open = opened(&rt, rt.alloc(), &still);
    let copy = copied(&rt, rt.alloc(), &open);
    holds(&rt, open.is_same(&copy), "a copy is the same");
    holds(&rt, !still.is_same(&later), "a record makes another state");
    holds(&rt, !still.is_same(&open), "a session makes another state");
}
