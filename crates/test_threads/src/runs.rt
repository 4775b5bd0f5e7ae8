use super::setting::{
    INTERRUPT, NONE, Trial, address, ask_join, assigned, attach, both, closed, commanded, ended,
    ends_with, entry, is_run, left, on_a_bus, only, opened, post, post_is_full, post_up_to, round,
    serves, slot, target, target_at,
};
use crate::checks::{holds, same};
use i3c_base::{Answer, Cuts, Fixed, Record, RoundReply, Served, Slot, Verdict};
use i3c_shared::{AttachFault, Entry, HeldRole, Left, Port, SharedBus};
use i3c_step::{Command, Event, Framed, Refusal, Reply};
use std::alloc::Global;
use std::process::Abort;
use std::sync::Wait;
use std::sync::ledger::Ledger;

/// The policy that a serve is kept with which accepted a request to join.
const JOIN: Fixed = Fixed {
    join: Verdict::Accept,
    role: Verdict::Refuse,
    interrupt: Verdict::Refuse,
};

/// A session in which a target gets the address 09, and the next round finds that nobody hears any more.
fn one_assigned<L: Ledger, M: Ledger, N: Ledger, R: Wait + Abort>(
    rt: &R,
    bus: &SharedBus<L, M, N>,
    role: HeldRole<L, M, N>,
) -> HeldRole<L, M, N> {
    let mut session = opened(rt, bus, role);
    let given = RoundReply::Assigned(address(rt, 0x09), target(rt).identity);
    let first = round(rt, bus, &mut session);
    let second = round(rt, bus, &mut session);
    same(rt, first, Ok(given));
    same(rt, second, Ok(RoundReply::Done));
    ended(rt, bus, session)
}

/// What a target's join, its interrupt and its drop-off leave in the run, with those of its assignment.
fn eleven<R: Abort>(rt: &R, at: Slot) -> [Entry; 11] {
    let given = RoundReply::Assigned(address(rt, 0x09), target(rt).identity);
    [
        entry(Event::Attach(at, target(rt)), Reply::Attached),
        entry(Event::AskJoin(at), Reply::Asked),
        entry(
            Event::Serve(JOIN, Cuts::new()),
            Reply::Served(Served::Joining),
        ),
        entry(Event::OpenDaa(Cuts::new()), Reply::Opened(Served::Quiet)),
        entry(Event::Round(Cuts::new()), Reply::Round(given)),
        entry(Event::Round(Cuts::new()), Reply::Round(RoundReply::Done)),
        entry(Event::EndDaa, Reply::Ended),
        entry(Event::Raise(at, Some(0x11)), Reply::Raised(1)),
        entry(
            Event::Serve(INTERRUPT, Cuts::new()),
            Reply::Served(Served::Recorded(1)),
        ),
        entry(Event::DropOff(at), Reply::Dropped),
        entry(Event::Attach(at, target(rt)), Reply::Attached),
    ]
}

/// From a join to a drop-off and the next attachment: eleven events, one of them a raise that the serve after it took up.
struct FromAJoinToADropOff;

impl Trial for FromAJoinToADropOff {
    fn run<R: Wait + Abort, L: Ledger, M: Ledger, N: Ledger>(
        rt: &R,
        alloc: Global,
        bus: SharedBus<L, M, N>,
        role: HeldRole<L, M, N>,
        main: Port,
    ) {
        let at = slot(rt, 1);
        let mut role = role;
        let mut port = target_at(rt, &bus, at);
        same(rt, ask_join(rt, &bus, &mut port), Ok(()));
        serves(rt, &bus, &mut role, Served::Joining);
        role = one_assigned(rt, &bus, role);
        post(rt, &mut port, 0x11);
        serves(rt, &bus, &mut role, Served::Recorded(1));
        same(rt, left(rt, &bus, port), Some(Left::Now));
        let again = target_at(rt, &bus, at);
        // two serves, and a session of four
        same(rt, role.frames(), 6);
        let closed = closed(rt, bus, Some(role), both(rt, alloc, main, again));
        is_run(rt, &closed.run, &eleven(rt, at));
        let record = Record {
            slot: at,
            number: 1,
            at: address(rt, 0x09),
            byte: Some(0x11),
        };
        same(rt, closed.records.as_slice(), &[record][..]);
    }
}

#[test]
fn from_a_join_to_a_drop_off(rt: HostRuntime) {
    on_a_bus::<FromAJoinToADropOff, HostRuntime>(&rt, rt.alloc());
}

/// The active controller's post is a raise that the run has as refused.
struct TheActiveControllerPosts;

impl Trial for TheActiveControllerPosts {
    fn run<R: Wait + Abort, L: Ledger, M: Ledger, N: Ledger>(
        rt: &R,
        alloc: Global,
        bus: SharedBus<L, M, N>,
        role: HeldRole<L, M, N>,
        main: Port,
    ) {
        let (mut role, mut main) = (role, main);
        post(rt, &mut main, 1);
        serves(rt, &bus, &mut role, Served::Quiet);
        let closed = closed(rt, bus, Some(role), only(rt, alloc, main));
        let due = [
            entry(
                Event::Raise(slot(rt, 0), Some(1)),
                Reply::Refused(Refusal::IsActive),
            ),
            entry(
                Event::Serve(NONE, Cuts::new()),
                Reply::Served(Served::Quiet),
            ),
        ];
        is_run(rt, &closed.run, &due);
        same(rt, closed.records.as_slice().len(), 0);
    }
}

#[test]
fn the_active_controller_posts(rt: HostRuntime) {
    on_a_bus::<TheActiveControllerPosts, HostRuntime>(&rt, rt.alloc());
}

/// A drop-off takes up the last two posts first; the ring was free again after the first seven.
struct ADropOffTakesUpTheLastPosts;

impl Trial for ADropOffTakesUpTheLastPosts {
    fn run<R: Wait + Abort, L: Ledger, M: Ledger, N: Ledger>(
        rt: &R,
        alloc: Global,
        bus: SharedBus<L, M, N>,
        role: HeldRole<L, M, N>,
        main: Port,
    ) {
        let at = slot(rt, 1);
        let mut port = target_at(rt, &bus, at);
        let mut role = assigned(rt, &bus, role);
        post_up_to(rt, &mut port, 7);
        serves(rt, &bus, &mut role, Served::Recorded(1));
        post(rt, &mut port, 8);
        post(rt, &mut port, 9);
        same(rt, left(rt, &bus, port), Some(Left::Now));
        let closed = closed(rt, bus, Some(role), only(rt, alloc, main));
        let due = [
            entry(Event::Raise(at, Some(8)), Reply::Raised(8)),
            entry(Event::Raise(at, Some(9)), Reply::Raised(9)),
            entry(Event::DropOff(at), Reply::Dropped),
        ];
        ends_with(rt, &closed.run, &due);
    }
}

#[test]
fn a_drop_off_takes_up_the_last_posts(rt: HostRuntime) {
    on_a_bus::<ADropOffTakesUpTheLastPosts, HostRuntime>(&rt, rt.alloc());
}

/// Eight posts may be untaken, and no more; the byte comes back.
struct TheNinthPostIsFull;

impl Trial for TheNinthPostIsFull {
    fn run<R: Wait + Abort, L: Ledger, M: Ledger, N: Ledger>(
        rt: &R,
        alloc: Global,
        bus: SharedBus<L, M, N>,
        role: HeldRole<L, M, N>,
        main: Port,
    ) {
        let mut main = main;
        post_up_to(rt, &mut main, 8);
        post_is_full(rt, &mut main);
        bus.let_go();
        role.let_go();
        main.let_go();
    }
}

#[test]
fn the_ninth_post_is_full(rt: HostRuntime) {
    on_a_bus::<TheNinthPostIsFull, HostRuntime>(&rt, rt.alloc());
}

/// A slot's device is cut in the first byte that is read of it.
fn cut(at: Slot) -> Cuts {
    let mut cuts = Cuts::new();
    cuts.add(at, 20);
    cuts
}

/// The reply to a read whose last byte doesn't end.
fn torn() -> Reply {
    Reply::Framed(Framed {
        served: Served::Quiet,
        answer: Answer::NoEnd,
    })
}

/// A cut takes a device away, and its port stays out. The slot is free once that port came back. The attachment that is
/// refused before is no event.
struct ACutDeviceLeavesItsPortOut;

impl Trial for ACutDeviceLeavesItsPortOut {
    fn run<R: Wait + Abort, L: Ledger, M: Ledger, N: Ledger>(
        rt: &R,
        alloc: Global,
        bus: SharedBus<L, M, N>,
        role: HeldRole<L, M, N>,
        main: Port,
    ) {
        let (at, from) = (slot(rt, 1), address(rt, 0x09));
        let port = target_at(rt, &bus, at);
        let mut role = assigned(rt, &bus, role);
        same(
            rt,
            commanded(rt, &bus, &mut role, Command::ReadFrom(from), cut(at)),
            torn(),
        );
        match attach(rt, &bus, at, target(rt)) {
            Ok(port) => {
                port.let_go();
                holds(rt, false, "the slot is taken");
            }
            Err(why) => same(rt, why, AttachFault::SlotTaken),
        }
        same(rt, left(rt, &bus, port), Some(Left::WasGone));
        let again = target_at(rt, &bus, at);
        let closed = closed(rt, bus, Some(role), both(rt, alloc, main, again));
        let due = [
            entry(Event::EndDaa, Reply::Ended),
            entry(Event::ReadFrom(from, NONE, cut(at)), torn()),
            entry(Event::DropOff(at), Reply::Refused(Refusal::NoDevice)),
            entry(Event::Attach(at, target(rt)), Reply::Attached),
        ];
        ends_with(rt, &closed.run, &due);
    }
}

#[test]
fn a_cut_device_leaves_its_port_out(rt: HostRuntime) {
    on_a_bus::<ACutDeviceLeavesItsPortOut, HostRuntime>(&rt, rt.alloc());
}
