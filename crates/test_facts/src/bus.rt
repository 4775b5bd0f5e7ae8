// Facts of a bus with the main controller hub in slot 0 at 08 and t in slot 1 at 09, and of names that have no device.
ghost use Rattle.std.specs.Prelude.{IfOk};
ghost use Rattle.i3c_bus.specs.Hands.{HandFits};
ghost use Rattle.i3c_bus.specs.declared.hand.Hand.{Hand as HandValue};

use crate::checks::{expected, holds, same};
use i3c_base::{Addr7, Bytes, Cuts, Identity, Served, Setup, Slot};
use i3c_bus::{Bus, Fixed, Hand, Refusal as BusRefusal, Role, Verdict};
use i3c_facts::{Before, Heard, LineResult};
use i3c_frame::Silent;
use i3c_legacy::{DeclareFault, Legacies};
use i3c_lines::{Name, Names, Refusal};
use i3c_script::{Listener, Piece};
use i3c_text::Text;
use std::alloc::Global;
use std::process::Abort;
use std::test::Fail;

const HUB: u64 = 0x0204_0000_0001_46C0;

const T: u64 = 0x0204_0000_0010_0644;

const ACCEPT: Fixed = Fixed {
    join: Verdict::Accept,
    role: Verdict::Accept,
    interrupt: Verdict::Accept,
};

fn setup(bits: u64) -> Setup {
    let identity = Identity::from_number(bits);
    let willing = true;
    Setup { identity, willing }
}

// A bus whose t in slot 1 at 09 has an interrupt that waits, with its byte 2A.
fn interrupted(alloc: Global) -> Result<(Bus, Role), Fail>
    ensures { IfOk result (λ made. HandFits (HandValue.Role made.1) made.0.state) }
{
    let (one, cuts) = (Slot::new(1)?, Cuts::new());
    let (mut bus, role) = Bus::new(alloc, setup(HUB), Legacies::new())?;
    let _attached = bus.attach(one, setup(T));
    match bus.open_daa(role, &mut Silent, &cuts) {
        Ok((session, _)) => {
            let _assigned = session.round(&mut bus, &mut Silent, &cuts);
            let role = session.end(&mut bus, &mut Silent);
            let _raised = bus.raise(one, Some(0x2A));
            Ok((bus, role))
        }
        Err((role, _)) => Ok((bus, role)),
    }
}

// The names hub, t and v, of slots 0 to 2.
fn names(rt: &impl Abort, alloc: Global) -> Names {
    let mut names = Names::new(alloc);
    give(rt, &mut names, b"hub", 0);
    give(rt, &mut names, b"t", 1);
    give(rt, &mut names, b"v", 2);
    names
}

// Gives a name to a slot.
fn give(rt: &impl Abort, names: &mut Names, token: &[u8], number: u8) {
    let name = Name::parse(token).expect(rt, "a name");
    names
        .give_slot(&name, slot(rt, number))
        .expect(rt, "memory");
}

// A slot.
fn slot(rt: &impl Abort, number: u8) -> Slot {
    Slot::new(number).expect(rt, "a slot")
}

// A previous line that ended so, and told nothing.
fn ended(how: LineResult) -> Before {
    Before {
        result: how,
        heard: Heard::nothing(),
    }
}

/// A bus with names, and the result of the previous line.
#[derive(Drop)]
struct NamedBus<'a> {
    bus: &'a Bus,
    names: &'a Names,
    before: Before,
    alloc: Global,
}

impl NamedBus<'_> {
    // The line's facts hold.
    fn is_met(&self, rt: &impl Abort, line: &str) {
        let facts = expected(rt, self.alloc, line);
        holds(rt, facts.hold(self.bus, self.names, &self.before), line);
    }

    // The line's facts don't hold, and this is there.
    fn is_unmet(&self, rt: &impl Abort, line: &str, due: &str) {
        let facts = expected(rt, self.alloc, line);
        let mut text = Text::new(self.alloc);
        holds(rt, !facts.hold(self.bus, self.names, &self.before), line);
        facts
            .push_unmet(self.bus, self.names, &self.before, &mut text)
            .expect(rt, "memory");
        same(rt, line, text.as_bytes(), due);
    }
}

/// Facts that hold before anything is served.
static MET: [&str; 23] = [
    "expect active hub",
    "expect t at 09",
    "expect hub at 08",
    "expect t at any",
    "expect not t at none",
    "expect v gone",
    "expect x gone",
    "expect not t gone",
    "expect t waiting 1",
    "expect hub waiting 0",
    "expect waiting 1",
    "expect records 0",
    "expect record t 2A 0",
    "expect assigned",
    "expect not listed",
    "expect not open",
    "expect not done",
    "expect not refused",
    "expect not served quiet",
    "expect not bytes 00",
    "expect asking t",
    "expect not asking hub",
    "expect waiting 0 or t at 09",
];

/// Facts that don't hold, and what holds in their place.
static UNMET: [(&str, &str); 28] = [
    ("expect active t", "active hub"),
    ("expect active x", "active hub"),
    ("expect t at 0A", "t at 09"),
    ("expect t at none", "t at 09"),
    ("expect t gone", "t at 09"),
    ("expect v at 09", "v gone"),
    ("expect v at any", "v gone"),
    ("expect x at none", "x gone"),
    ("expect t waiting 0", "t waiting 1"),
    ("expect v waiting 0", "v gone"),
    ("expect waiting 0", "waiting 1"),
    ("expect records 2", "records 0"),
    ("expect record t 2A 1", "record t 2A 0"),
    ("expect record t -- 1", "record t -- 0"),
    ("expect record x -- 0", "x gone"),
    ("expect listed", "not listed"),
    ("expect open", "not open"),
    ("expect done", "not done"),
    ("expect refused", "not refused"),
    ("expect served quiet", "not served quiet"),
    ("expect bytes 0A0B", "not bytes 0A0B"),
    ("expect asking hub", "not asking hub"),
    ("expect asking x", "x gone"),
    ("expect not asking t", "asking t"),
    ("expect refused ListStale", "not refused ListStale"),
    ("expect not waiting 1", "waiting 1"),
    ("expect not assigned", "assigned"),
    ("expect waiting 0 or t gone", "waiting 1"),
];

// Each fact, where it holds and where it doesn't.
#[test]
fn facts_of_a_bus(rt: HostRuntime) -> Result<(), Fail> {
    let names = names(&rt, rt.alloc());
    let (bus, role) = interrupted(rt.alloc())?;
    let seen = NamedBus {
        bus: &bus,
        names: &names,
        before: Before::nothing(),
        alloc: rt.alloc(),
    };
    for line in MET {
        seen.is_met(&rt, line);
    }
    for (line, due) in UNMET {
        seen.is_unmet(&rt, line, due);
    }
    let _records = bus.retire(Hand::Role(role));
    Ok(())
}

// An interrupt is recorded, and a device without an address is there.
#[test]
fn facts_of_a_recorded_interrupt(rt: HostRuntime) -> Result<(), Fail> {
    let names = names(&rt, rt.alloc());
    let (mut bus, role) = interrupted(rt.alloc())?;
    let mut accept = ACCEPT;
    let _served = bus.serve(&role, &mut accept, &mut Silent, &Cuts::new());
    let _attached = bus.attach(slot(&rt, 2), setup(T + 1));
    let seen = NamedBus {
        bus: &bus,
        names: &names,
        before: ended(LineResult::Done),
        alloc: rt.alloc(),
    };
    seen.is_met(&rt, "expect records 1");
    seen.is_met(&rt, "expect record t 2A 1");
    seen.is_met(&rt, "expect record t -- 0");
    seen.is_met(&rt, "expect v at none");
    seen.is_met(&rt, "expect done");
    seen.is_met(&rt, "expect served quiet");
    seen.is_met(&rt, "expect not asking t");
    seen.is_unmet(&rt, "expect refused", "done");
    seen.is_unmet(&rt, "expect served torn", "served quiet");
    seen.is_unmet(&rt, "expect bytes 00", "bytes --");
    seen.is_unmet(&rt, "expect record t 2B 1", "record t 2B 0");
    seen.is_unmet(&rt, "expect v at any", "v at none");
    seen.is_unmet(&rt, "expect assigned", "not assigned");
    seen.is_unmet(&rt, "expect refused ListStale", "done");
    let _records = bus.retire(Hand::Role(role));
    Ok(())
}

// Refusals are the same where they are printed the same.
#[test]
fn facts_of_a_refused_line(rt: HostRuntime) -> Result<(), Fail> {
    let at = Refusal::Bus(BusRefusal::NoAnswer(Addr7::new(0x50)?));
    let names = names(&rt, rt.alloc());
    let (bus, role) = interrupted(rt.alloc())?;
    let mut seen = NamedBus {
        bus: &bus,
        names: &names,
        before: ended(LineResult::Refused(at)),
        alloc: rt.alloc(),
    };
    seen.is_met(&rt, "expect refused NoAnswer 50");
    seen.is_met(&rt, "expect refused");
    seen.is_unmet(&rt, "expect not refused", "refused");
    seen.is_unmet(&rt, "expect refused NoAnswer 51", "refused NoAnswer 50");
    seen.is_unmet(&rt, "expect refused BadAddress 50", "refused NoAnswer 50");
    seen.is_unmet(&rt, "expect done", "refused NoAnswer 50");
    seen.before = ended(LineResult::Refused(Refusal::Declare(DeclareFault::LegacyTwice)));
    seen.is_met(&rt, "expect refused LegacyTwice");
    let _records = bus.retire(Hand::Role(role));
    Ok(())
}

// What a line came to, by its pieces.
#[test]
fn facts_of_the_pieces_of_a_line(rt: HostRuntime) -> Result<(), Fail> {
    let names = names(&rt, rt.alloc());
    let (bus, role) = interrupted(rt.alloc())?;
    let mut heard = Heard::nothing();
    heard
        .hear(Piece::Served(Served::Recorded(7)))
        .expect(&rt, "memory");
    heard
        .hear(Piece::Bytes(Bytes::new(&[0x0A, 0x0B])))
        .expect(&rt, "memory");
    heard.hear(Piece::Done).expect(&rt, "memory");
    let seen = NamedBus {
        bus: &bus,
        names: &names,
        before: Before {
            result: LineResult::Done,
            heard,
        },
        alloc: rt.alloc(),
    };
    seen.is_met(&rt, "expect served recorded");
    seen.is_met(&rt, "expect bytes 0A");
    seen.is_met(&rt, "expect bytes 0A0B");
    seen.is_unmet(&rt, "expect bytes 0A0B0C", "bytes 0A0B");
    seen.is_unmet(&rt, "expect bytes 0B", "bytes 0A0B");
    seen.is_unmet(&rt, "expect served quiet", "served recorded");
    let _records = bus.retire(Hand::Role(role));
    Ok(())
}
