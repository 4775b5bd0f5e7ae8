use crate::checks::{holds, same};
use i3c_base::{Addr7, Pid, Slot};
use i3c_bus::Refusal as BusRefusal;
use i3c_lines::{Name, Names, Refusal, slot_meant};
use i3c_text::Text;
use std::process::Abort;

/// The name has this slot, or the refusal that is expected.
fn stands(rt: &impl Abort, names: &Names, name: &Name, due: Result<Slot, Refusal>) {
    same(rt, slot_meant(names, name), due);
}

/// The slot has this name.
fn is_called(rt: &impl Abort, names: &Names, slot: Slot, name: &Name) {
    holds(
        rt,
        names.in_slot(slot) == Some(name),
        "the slot has this name",
    );
}

/// The slot is given the name.
fn give(rt: &impl Abort, names: &mut Names, name: &Name, slot: Slot) {
    names.give_slot(name, slot).expect(rt, "memory");
}

/// A name.
fn name(rt: &impl Abort, token: &[u8]) -> Name {
    Name::parse(token).expect(rt, "a name")
}

/// A slot.
fn slot(rt: &impl Abort, index: u8) -> Slot {
    Slot::new(index).expect(rt, "a slot")
}

// A name stays known where another device takes its slot, and may be given again. A slot knows its name.
#[test]
fn names_of_devices_that_are_gone(rt: HostRuntime) {
    let mut names = Names::new(rt.alloc());
    let trial = Two {
        first: name(&rt, b"t"),
        second: name(&rt, b"u"),
        one: slot(&rt, 1),
        two: slot(&rt, 2),
    };
    trial.one_slot(&rt, &mut names);
    trial.two_slots(&rt, &mut names);
    trial.slots_exchanged(&rt, &mut names);
}

/// Two names, and two slots.
#[derive(Drop)]
struct Two {
    first: Name,
    second: Name,
    one: Slot,
    two: Slot,
}

impl Two {
    // The second device takes the slot of the first.
    fn one_slot(&self, rt: &impl Abort, names: &mut Names) {
        stands(rt, names, &self.first, Err(Refusal::NoName));
        holds(
            rt,
            names.in_slot(self.one).is_none(),
            "nobody was in slot 1",
        );
        give(rt, names, &self.first, self.one);
        give(rt, names, &self.first, self.one);
        stands(rt, names, &self.first, Ok(self.one));
        give(rt, names, &self.second, self.one);
        stands(
            rt,
            names,
            &self.first,
            Err(Refusal::Bus(BusRefusal::NoDevice)),
        );
        stands(rt, names, &self.second, Ok(self.one));
        is_called(rt, names, self.one, &self.second);
    }

    // The first comes again, in another slot.
    fn two_slots(&self, rt: &impl Abort, names: &mut Names) {
        give(rt, names, &self.first, self.two);
        stands(rt, names, &self.first, Ok(self.two));
        stands(rt, names, &self.second, Ok(self.one));
    }

    // A name that was given to another slot has that one, though its old slot is taken by a new name.
    fn slots_exchanged(&self, rt: &impl Abort, names: &mut Names) {
        give(rt, names, &self.second, self.two);
        give(rt, names, &self.first, self.one);
        stands(rt, names, &self.first, Ok(self.one));
        stands(rt, names, &self.second, Ok(self.two));
        is_called(rt, names, self.one, &self.first);
        is_called(rt, names, self.two, &self.second);
    }
}

// Refusals that no line comes to today, or at another address.
#[test]
fn tokens_of_refusals(rt: HostRuntime) {
    let broadcast = Addr7::new(0x7E).expect(&rt, "an address");
    let cases = [
        (Refusal::NoEnd, "NoEnd"),
        (Refusal::Bus(BusRefusal::NoAnswer(broadcast)), "NoAnswer 7E"),
    ];
    for (refusal, wanted) in cases {
        let mut text = Text::new(rt.alloc());
        refusal.push(&mut text).expect(&rt, "memory");
        same(&rt, text.as_bytes(), wanted.as_bytes());
    }
}

// Numbers as they are printed.
#[test]
fn numerals(rt: HostRuntime) {
    let pid = Pid::new(0x0204_0000_00BE).expect(&rt, "a provisioned ID");
    let mut text = Text::new(rt.alloc());
    text.push_decimal(0).expect(&rt, "memory");
    text.push_decimal(u64::MAX).expect(&rt, "memory");
    text.push_byte(0xA5).expect(&rt, "memory");
    text.push_bytes(&[0x00, 0xFF]).expect(&rt, "memory");
    text.push_pid(pid).expect(&rt, "memory");
    let wanted = b"018446744073709551615A500FF0204000000BE";
    same(&rt, text.as_bytes(), wanted.as_slice());
}
