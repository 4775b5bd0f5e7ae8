// The typed calls, with memory, and where the first growth is refused.
ghost use Rattle.i3c_bus.specs.Hands.{HandFits};
ghost use Rattle.i3c_bus.specs.declared.hand.Hand.{Hand as HandValue};

use crate::checks::{holds, same};
use crate::setting::{address, all, attached, done, identity, interrupted, opened, refused, slot};
use i3c_base::{Addr7, Cuts, Kinds};
use i3c_bus::{
    Answer, Bus, Command, FrameFault, Framed, Hand, Record, Refusal, Reply, Role, Served, Verdict,
};
use i3c_frame::Silent;
use i3c_legacy::Legacies;
use std::alloc::Global;
use std::process::Abort;

/// What a serve answers that accepts all.
fn serve(bus: &mut Bus, role: &Role) -> Result<Served, FrameFault>
    requires { HandFits (HandValue.Role role.now) bus.old.state }
    ensures { HandFits (HandValue.Role role.now) bus.new.state }
{
    let mut accept = all(Verdict::Accept);
    bus.serve(role, &mut accept, &mut Silent, &Cuts::new())
}

/// What two serves of T's interrupt answer, and how many interrupts wait between them. They leave one record.
struct Twice {
    first: Result<Served, FrameFault>,
    waiting: usize,
    second: Result<Served, FrameFault>,
}

fn served_twice<R: Abort>(rt: &R, alloc: Global) -> Twice {
    let (mut bus, role) = interrupted(rt, alloc);
    let first = serve(&mut bus, &role);
    let waiting = bus.waiting(slot());
    let second = serve(&mut bus, &role);
    let due = [Record {
        slot: slot(),
        number: 1,
        at: address(rt, 0x09),
        byte: Some(0x11),
    }];
    same(rt, bus.records(), &due[..]);
    let _records = bus.retire(Hand::Role(role));
    Twice {
        first,
        waiting,
        second,
    }
}

// Where the growth of the first record is refused (`rt try --test --fail-alloc 1`), nothing is sent, and the same serve
// given again records.
#[test]
fn a_refused_growth_loses_nothing(rt: HostRuntime) {
    let Twice {
        first,
        waiting,
        second,
    } = served_twice(&rt, rt.alloc());
    if first == Err(FrameFault::OutOfMemory) {
        println!(rt; "refused").expect(&rt, "it is printed");
        same(&rt, (waiting, second), (1, Ok(Served::Recorded(1))));
    } else {
        same(&rt, first, Ok(Served::Recorded(1)));
        same(&rt, (waiting, second), (0, Ok(Served::Quiet)));
    }
}

/// DISEC of interrupts to an address refuses T's interrupt, and is carried out.
fn disables<R: Abort>(rt: &R, bus: &mut Bus, role: &Role, at: Addr7)
    requires { HandFits (HandValue.Role role.now) bus.old.state }
    ensures { HandFits (HandValue.Role role.now) bus.new.state }
{
    let (mut refuse, cuts) = (all(Verdict::Refuse), Cuts::new());
    let off = bus.disec(
        role,
        Some(at),
        Kinds::INTERRUPT,
        &mut refuse,
        &mut Silent,
        &cuts,
    );
    same(rt, Reply::from(off), done(Served::Refused));
}

/// ENEC of interrupts to all meets no request, and is carried out.
fn enables<R: Abort>(rt: &R, bus: &mut Bus, role: &Role)
    requires { HandFits (HandValue.Role role.now) bus.old.state }
    ensures { HandFits (HandValue.Role role.now) bus.new.state }
{
    let (mut refuse, cuts) = (all(Verdict::Refuse), Cuts::new());
    let on = bus.enec(
        role,
        None,
        Kinds::INTERRUPT,
        &mut refuse,
        &mut Silent,
        &cuts,
    );
    same(rt, Reply::from(on), done(Served::Quiet));
}

/// No command is sent in a session.
fn refuses<R: Abort>(rt: &R, bus: &mut Bus, hand: &Hand)
    requires { HandFits hand.now bus.old.state }
    ensures { HandFits hand.now bus.new.state }
{
    let mut refuse = all(Verdict::Refuse);
    let reply = bus.command(
        hand,
        &Command::Serve,
        &mut refuse,
        &mut Silent,
        &Cuts::new(),
    );
    same(rt, reply, refused(Refusal::SessionOpen));
    same(rt, hand.holder(), bus.active());
}

/// T drops off. It is gone, and its row is left.
fn drops_off<R: Abort>(rt: &R, bus: &mut Bus, hand: &Hand, at: Addr7)
    requires { HandFits hand.now bus.old.state }
    ensures { HandFits hand.now bus.new.state }
{
    same(rt, bus.address(slot()), Some(at));
    same(rt, bus.drop_off(slot()), Ok(()));
    holds(rt, bus.ask_join(slot()).is_err(), "T is gone");
    holds(rt, bus.table().row_of(at).is_some(), "its row is left");
}

// Two commands, the room that is made for a record, and that no command is sent in a session.
#[test]
fn commands(rt: HostRuntime) {
    let at = address(&rt, 0x09);
    let (mut bus, role) = interrupted(&rt, rt.alloc());
    disables(&rt, &mut bus, &role, at);
    enables(&rt, &mut bus, &role);
    holds(&rt, bus.make_room().is_ok(), "room is made");
    holds(&rt, bus.has_room(), "there is room");
    let (session, _) = opened(&rt, &mut bus, role);
    let hand = Hand::Session(session);
    refuses(&rt, &mut bus, &hand);
    drops_off(&rt, &mut bus, &hand, at);
    let _records = bus.retire(hand);
}

/// A bus whose T is declared at a static address.
fn declared<R: Abort>(rt: &R, alloc: Global, fixed: Addr7) -> (Bus, Role)
    ensures { HandFits (HandValue.Role result.1) result.0.state }
{
    let mut legacies = Legacies::new();
    same(rt, legacies.declare(fixed, identity()), Ok(()));
    attached(rt, alloc, legacies)
}

/// The reply to a frame that met no request and had this answer, or was refused.
fn reply_of(due: Result<Answer, Refusal>) -> Reply {
    let served = Served::Quiet;
    match due {
        Ok(answer) => Reply::Framed(Framed { served, answer }),
        Err(why) => refused(why),
    }
}

/// SETDASA, which refuses all, has this answer, or is refused.
fn set_static<R: Abort>(
    rt: &R,
    bus: &mut Bus,
    role: &Role,
    fixed: Addr7,
    new: Addr7,
    due: Result<Answer, Refusal>,
)
    requires { HandFits (HandValue.Role role.now) bus.old.state }
    ensures { HandFits (HandValue.Role role.now) bus.new.state }
{
    let (mut refuse, cuts) = (all(Verdict::Refuse), Cuts::new());
    let found = bus.set_static(role, fixed, new, &mut refuse, &mut Silent, &cuts);
    same(rt, Reply::from(found), reply_of(due));
}

/// SETNEWDA, which refuses all, has this answer, or is refused.
fn set_new<R: Abort>(
    rt: &R,
    bus: &mut Bus,
    role: &Role,
    old: Addr7,
    new: Addr7,
    due: Result<Answer, Refusal>,
)
    requires { HandFits (HandValue.Role role.now) bus.old.state }
    ensures { HandFits (HandValue.Role role.now) bus.new.state }
{
    let (mut refuse, cuts) = (all(Verdict::Refuse), Cuts::new());
    let found = bus.set_new(role, old, new, &mut refuse, &mut Silent, &cuts);
    same(rt, Reply::from(found), reply_of(due));
}

/// T has moved from one address to another.
fn has_moved<R: Abort>(rt: &R, bus: &Bus, from: Addr7, to: Addr7) {
    same(rt, bus.address(slot()), Some(to));
    same(rt, bus.table().address_known(&identity()), Some(to));
    let is_free = bus.table().row_of(from).is_none();
    holds(rt, is_free, "the first address is free again");
}

// Five calls that give addresses: a declared device gets one at its static address, and another in its place. A device that
// has one doesn't take a second at its static address. An address that isn't a static one is refused, and so is a declared
// one as a dynamic one.
#[test]
fn addresses_are_set(rt: HostRuntime) {
    let (fixed, new, other) = (address(&rt, 0x20), address(&rt, 0x30), address(&rt, 0x31));
    let (mut bus, role) = declared(&rt, rt.alloc(), fixed);
    let nobodys = Err(Refusal::NoAnswer(new));
    set_static(&rt, &mut bus, &role, new, other, nobodys);
    set_static(&rt, &mut bus, &role, fixed, new, Ok(Answer::Done));
    let unheard = Ok(Answer::NoAnswer(fixed));
    set_static(&rt, &mut bus, &role, fixed, other, unheard);
    let declared_one = Err(Refusal::BadAddress(fixed));
    set_new(&rt, &mut bus, &role, new, fixed, declared_one);
    set_new(&rt, &mut bus, &role, new, other, Ok(Answer::Done));
    has_moved(&rt, &bus, new, other);
    let _records = bus.retire(Hand::Role(role));
}
