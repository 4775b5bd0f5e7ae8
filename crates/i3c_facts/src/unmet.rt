ghost use Rattle.std.specs.Prelude.{◌≡◌, ◌++◌, OnOk, codes};
ghost use Rattle.std.specs.Fmt.{decimal};
ghost use Rattle.i3c_base.specs.declared.range.TheConstants.{SLOTS};
ghost use Rattle.i3c_facts.specs.Forms.{served_text};
ghost use Rattle.i3c_facts.specs.Holding.{device_of, served_as, slot_of, waiting_below};
ghost use Rattle.i3c_facts.specs.Printing.{active_text, address_text, before_text, counted_text, fact_text, place_text, read_text, silent_text, there_text, told_text, unmet_claim, unmet_text, waiting_text};
ghost use Rattle.i3c_lines.specs.Naming.{letters};

use crate::before::{Before, LineResult};
use crate::counting::{records_of, waiting};
use crate::fact::{Fact, ServedAs};
use crate::facts::{Claim, Facts};
use crate::holding::{device_slot, place_for, slot_of};
use crate::printing::{
    push_at, push_bytes, push_name, push_named, push_number, push_recorded, push_refused,
    push_served, push_waiting,
};
use i3c_base::{Addr7, Bytes, Record};
use i3c_bus::Bus;
use i3c_lines::{Name, Naming, Place};
use i3c_text::Text;
use std::alloc::AllocError;

impl Facts {
    /// Appends what holds in place of its claims, if none of them holds: the first one as it would hold.
    pub fn push_unmet<N: Naming>(
        &self,
        bus: &Bus,
        names: &N,
        before: &Before,
        text: &mut Text,
    ) -> Result<(), AllocError>
        ensures { OnOk result (text.new ≡ text.old ++ unmet_text bus.now.state (N.kept.place names.now) (N.kept.in_slot names.now) before.now self.now) }
    {
        match self.claims.as_slice().first() {
            Some(claim) => {
                let place = place_for(names, &claim.fact);
                let active = names.in_slot(bus.active());
                claim.push_unmet(bus, place, active, before, text)
            }
            None => Ok(()),
        }
    }
}

impl Claim {
    /// Appends what holds in its place, if it doesn't hold.
    fn push_unmet(
        &self,
        bus: &Bus,
        place: Option<Place>,
        active: Option<Name>,
        before: &Before,
        text: &mut Text,
    ) -> Result<(), AllocError>
        ensures { OnOk result (text.new ≡ text.old ++ unmet_claim bus.now.state place (λ _. active) before.now self.now.fact self.now.negated) }
    {
        if self.negated {
            self.fact.push(text)
        } else {
            self.fact.push_there(bus, place, active, before, text)
        }
    }
}

impl Fact {
    /// Appends what holds in its place, if it doesn't hold.
    fn push_there(
        &self,
        bus: &Bus,
        place: Option<Place>,
        active: Option<Name>,
        before: &Before,
        text: &mut Text,
    ) -> Result<(), AllocError>
        ensures { OnOk result (text.new ≡ text.old ++ there_text bus.now.state place (λ _. active) before.now self.now) }
    {
        match self {
            Fact::Active(_) => push_active(active, text),
            Fact::At(name, _) => push_place(bus, place, name, text),
            Fact::AtAny(name) => push_place(bus, place, name, text),
            Fact::AtNone(name) => push_place(bus, place, name, text),
            Fact::Gone(name) => push_place(bus, place, name, text),
            Fact::Waiting(name, _) => push_its_waiting(bus, place, name, text),
            Fact::AllWaiting(_) => push_all_waiting(bus, text),
            Fact::Records(_) => push_number(text, b"records ", bus.records().len()),
            Fact::Recorded(name, byte, _) => push_counted(bus.records(), place, name, *byte, text),
            Fact::Assigned => text.push(b"not assigned"),
            Fact::Listed => text.push(b"not listed"),
            Fact::Open => text.push(b"not open"),
            Fact::Done | Fact::Refused(_) | Fact::AnyRefused => {
                self.push_before(&before.result, text)
            }
            Fact::Served(_) => self.push_served(before, text),
            Fact::Bytes(_) => self.push_read(before, text),
            Fact::Asking(name) => push_silent(bus, place, name, text),
        }
    }

    /// Appends the result of the previous line, if it isn't this fact.
    fn push_before(&self, ended: &LineResult, text: &mut Text) -> Result<(), AllocError>
        ensures { OnOk result (text.new ≡ text.old ++ before_text self.now ended.now) }
    {
        match ended {
            LineResult::Nothing => self.push_contrary(text),
            LineResult::Done => text.push(b"done"),
            LineResult::Refused(why) => push_refused(text, why),
        }
    }

    /// Appends what the first request of the previous line came to.
    fn push_served(&self, before: &Before, text: &mut Text) -> Result<(), AllocError>
        ensures { OnOk result (text.new ≡ text.old ++ told_text self.now before.now.result (codes "served " ++ served_text (served_as before.now.heard.served))) }
    {
        match &before.result {
            LineResult::Nothing => self.push_contrary(text),
            LineResult::Done | LineResult::Refused(_) => {
                push_served(text, ServedAs::of(&before.heard.served))
            }
        }
    }

    /// Appends the bytes that the previous line read.
    fn push_read(&self, before: &Before, text: &mut Text) -> Result<(), AllocError>
        ensures { OnOk result (text.new ≡ text.old ++ told_text self.now before.now.result (read_text before.now.heard.read)) }
    {
        match &before.result {
            LineResult::Nothing => self.push_contrary(text),
            LineResult::Done | LineResult::Refused(_) => push_some_read(&before.heard.read, text),
        }
    }

    /// Appends that the fact doesn't hold.
    fn push_contrary(&self, text: &mut Text) -> Result<(), AllocError>
        ensures { OnOk result (text.new ≡ text.old ++ (codes "not " ++ fact_text self.now)) }
    {
        text.push(b"not ")?;
        self.push(text)
    }
}

/// Appends bytes that were read, or that none were.
fn push_some_read(read: &Option<Bytes>, text: &mut Text) -> Result<(), AllocError>
    ensures { OnOk result (text.new ≡ text.old ++ read_text read.now) }
{
    match read {
        Some(bytes) => push_bytes(text, bytes),
        None => text.push(b"bytes --"),
    }
}

/// Appends that the device of a name doesn't ask, or that it is gone.
fn push_silent(
    bus: &Bus,
    place: Option<Place>,
    name: &Name,
    text: &mut Text,
) -> Result<(), AllocError>
    ensures { OnOk result (text.new ≡ text.old ++ silent_text name.now (device_of bus.now.state place)) }
{
    match device_slot(bus, place) {
        Some(_) => push_named(text, b"not asking ", name),
        None => push_name(text, name, b" gone"),
    }
}

/// Appends the active controller.
fn push_active(active: Option<Name>, text: &mut Text) -> Result<(), AllocError>
    ensures { OnOk result (text.new ≡ text.old ++ active_text active) }
{
    match active {
        Some(name) => push_named(text, b"active ", &name),
        None => text.push(b"active --"),
    }
}

/// Appends where the device of a name is: its address, that it has none, or that it is gone.
fn push_place(
    bus: &Bus,
    place: Option<Place>,
    name: &Name,
    text: &mut Text,
) -> Result<(), AllocError>
    ensures { OnOk result (text.new ≡ text.old ++ (letters name.now ++ place_text (device_of bus.now.state place))) }
{
    match device_slot(bus, place) {
        Some(slot) => push_address(bus.address(slot), name, text),
        None => push_name(text, name, b" gone"),
    }
}

/// Appends that a device has this address, or none.
fn push_address(address: Option<Addr7>, name: &Name, text: &mut Text) -> Result<(), AllocError>
    ensures { OnOk result (text.new ≡ text.old ++ (letters name.now ++ address_text address)) }
{
    match address {
        Some(address) => push_at(text, name, address),
        None => push_name(text, name, b" at none"),
    }
}

/// Appends how many interrupts of a name's device wait, or that it is gone.
fn push_its_waiting(
    bus: &Bus,
    place: Option<Place>,
    name: &Name,
    text: &mut Text,
) -> Result<(), AllocError>
    ensures { OnOk result (text.new ≡ text.old ++ (letters name.now ++ waiting_text (device_of bus.now.state place))) }
{
    match device_slot(bus, place) {
        Some(slot) => push_waiting(text, name, bus.waiting(slot)),
        None => push_name(text, name, b" gone"),
    }
}

/// Appends how many interrupts of all devices wait. Where 64 bits don't hold it, which no bus comes to, there is no memory.
fn push_all_waiting(bus: &Bus, text: &mut Text) -> Result<(), AllocError>
    ensures { OnOk result (text.new ≡ text.old ++ (codes "waiting " ++ decimal (waiting_below bus.now.state SLOTS))) }
{
    match waiting(bus) {
        Some(count) => push_number(text, b"waiting ", count),
        None => Err(AllocError),
    }
}

/// Appends how many interrupts of a name's slot were recorded with a mandatory byte, or that no device of this name is there.
fn push_counted(
    records: &[Record],
    place: Option<Place>,
    name: &Name,
    byte: Option<u8>,
    text: &mut Text,
) -> Result<(), AllocError>
    ensures { OnOk result (text.new ≡ text.old ++ counted_text name.now byte (slot_of place) records.now) }
{
    match slot_of(place) {
        Some(slot) => push_recorded(text, name, byte, records_of(records, slot, byte)),
        None => push_name(text, name, b" gone"),
    }
}
