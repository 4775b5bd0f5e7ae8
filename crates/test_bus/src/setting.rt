//! What the tests share: devices, a bus with an interrupt that waits, and calls that answer what a test compares. Each call has
//! a function of its own, since many calls on one bus, and functions that leave early, take long to prove.
//!
//! Devices are written as the numbers of their identities: 48 bits of a PID, 8 of a BCR and 8 of a DCR.
ghost use Rattle.i3c_bus.specs.Hands.{HandFits};
ghost use Rattle.i3c_bus.specs.declared.hand.Hand.{Hand as HandValue};

use crate::checks::{holds, same};
use i3c_base::{Addr7, Cuts, Identity, Setup, Slot};
use i3c_bus::{
    Answer, Bus, Fixed, Framed, Refusal, Reply, Role, RoundReply, Served, Session, SlotTaken,
    Verdict,
};
use i3c_frame::Silent;
use i3c_legacy::Legacies;
use std::alloc::Global;
use std::process::Abort;

const HUB: u64 = 0x0204_0000_0001_46C0;

const T: u64 = 0x0204_0000_0010_0644;

/// The device of this number.
fn setup(bits: u64) -> Setup {
    let identity = Identity::from_number(bits);
    let willing = true;
    Setup { identity, willing }
}

/// T's identity.
pub(crate) fn identity() -> Identity {
    Identity::from_number(T)
}

/// T's slot.
pub(crate) fn slot() -> Slot {
    Slot::from_index(1)
}

pub(crate) fn address<R: Abort>(rt: &R, number: u8) -> Addr7 {
    Addr7::new(number).expect(rt, "an address")
}

/// A policy with one verdict for all.
pub(crate) fn all(verdict: Verdict) -> Fixed {
    Fixed {
        join: verdict,
        role: verdict,
        interrupt: verdict,
    }
}

/// The reply to a frame that served this, and whose own part was answered.
pub(crate) fn done(served: Served) -> Reply {
    let answer = Answer::Done;
    Reply::Framed(Framed { served, answer })
}

pub(crate) fn refused(why: Refusal) -> Reply {
    Reply::Refused(why)
}

/// A bus with T in its slot, and with these static addresses.
pub(crate) fn attached<R: Abort>(rt: &R, alloc: Global, legacies: Legacies) -> (Bus, Role)
    ensures { HandFits (HandValue.Role result.1) result.0.state }
{
    let (mut bus, role) = Bus::new(alloc, setup(HUB), legacies).expect(rt, "a bus");
    same(rt, bus.attach(slot(), setup(T)), Ok(()));
    (bus, role)
}

/// The session that takes the role's place, and what its frame served.
pub(crate) fn opened<R: Abort>(rt: &R, bus: &mut Bus, role: Role) -> (Session, Served)
    requires { HandFits (HandValue.Role role) bus.old.state }
    ensures { HandFits (HandValue.Session result.0) bus.new.state }
{
    match bus.open_daa(role, &mut Silent, &Cuts::new()) {
        Ok(opened) => opened,
        Err(_) => panic!(rt; "no session is opened"),
    }
}

/// One round of the session gives T the address 09. T is there then, and no list is current.
fn assigned<R: Abort>(rt: &R, bus: &mut Bus, session: &Session)
    requires { HandFits (HandValue.Session session.now) bus.old.state }
    ensures { HandFits (HandValue.Session session.now) bus.new.state }
{
    let due = RoundReply::Assigned(address(rt, 0x09), identity());
    let answer = session.round(bus, &mut Silent, &Cuts::new());
    same(rt, answer, Ok(due));
    same(rt, session.holder(), bus.active());
    holds(rt, bus.in_session(), "the session is open");
    holds(rt, bus.present(slot()), "T is there");
    holds(rt, !bus.listed(), "no list is current");
}

/// A bus whose T has the address 09, and an interrupt that waits.
pub(crate) fn interrupted<R: Abort>(rt: &R, alloc: Global) -> (Bus, Role)
    ensures { HandFits (HandValue.Role result.1) result.0.state }
{
    let (mut bus, role) = attached(rt, alloc, Legacies::new());
    same(rt, bus.attach(Slot::default(), setup(T)), Err(SlotTaken));
    let (session, served) = opened(rt, &mut bus, role);
    same(rt, served, Served::Quiet);
    assigned(rt, &mut bus, &session);
    let role = session.end(&mut bus, &mut Silent);
    holds(rt, !bus.in_session(), "the session has ended");
    same(rt, bus.raise(slot(), Some(0x11)), Ok(1));
    (bus, role)
}
