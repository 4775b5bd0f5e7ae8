use crate::faults::Fault;
use crate::hand::{self, in_hand};
use crate::setting::Setting;
use crate::slots::slots_of;
use crate::told::{Answer, told, told_hex, told_slots, told_text};
use crate::words::{WAYS, Words};
use i3c_base::{Addr7, Slot};
use i3c_device::{Devices, SlotSet};
use std::alloc::Global;

/// What all devices are asked, each for itself.
pub(crate) fn call(setting: &mut Setting, call: &str, words: &mut Words<'_>) -> Answer {
    let alloc = setting.alloc;
    match call {
        "raise" => raise(setting, words),
        "wants" => wants(setting, words.place()?),
        "may-interrupt" => told(alloc, &setting.devices.may_interrupt(words.slot()?)),
        "may-join" => told(alloc, &setting.devices.may_join(words.slot()?)),
        "may-ask-role" => told(alloc, &setting.devices.may_ask_role(words.slot()?)),
        _ => together(setting, call, words),
    }
}

/// What they are asked together.
fn together(setting: &mut Setting, call: &str, words: &mut Words<'_>) -> Answer {
    let alloc = setting.alloc;
    match call {
        "first" => first(setting),
        "drivers" => told_set(alloc, driving(setting)?),
        "outlasts" => outlasts(setting, words.bit()?),
        "is-heard" => is_heard(setting, words),
        "lowest-willing" => lowest_willing(setting, words),
        "hearers" => told_set(alloc, setting.devices.hearers()),
        "unaddressed-at" => unaddressed_at(setting, words.address()?),
        "read-from" => read_from(setting, words),
        "least-length" => least_length(setting, words),
        _ => hand::call(setting, call, words),
    }
}

/// A device raises an interrupt.
fn raise(setting: &mut Setting, words: &mut Words<'_>) -> Answer {
    let alloc = setting.alloc;
    let place = words.place()?;
    let raised = words.count()?;
    let byte = words.maybe_byte()?;
    match place {
        None => told(alloc, &in_hand(setting)?.raise(raised, byte)),
        Some(slot) => raise_in(alloc, &mut setting.devices, slot, raised, byte),
    }
}

/// The device in a slot raises one.
fn raise_in(
    alloc: Global,
    devices: &mut Devices,
    slot: Slot,
    raised: u64,
    byte: Option<u8>,
) -> Answer {
    if !devices.holds(slot) {
        return Err(Fault::Unknown);
    }
    told(alloc, &devices.raise(slot, raised, byte))
}

/// The request that a device drives now.
fn wants(setting: &mut Setting, place: Option<Slot>) -> Answer {
    let alloc = setting.alloc;
    match place {
        None => told_hex(alloc, &in_hand(setting)?.wants()),
        Some(slot) => match setting.devices.get(slot) {
            Some(device) => told_hex(alloc, &device.wants()),
            None => told_text(alloc, "nobody"),
        },
    }
}

/// The first request.
fn first(setting: &Setting) -> Answer {
    match setting.devices.first_request(setting.active) {
        Some((request, _)) => told_hex(setting.alloc, &Some(request)),
        None => told_text(setting.alloc, "None"),
    }
}

/// The slots that drive the first request.
fn driving(setting: &Setting) -> Result<SlotSet, Fault> {
    match setting.devices.first_request(setting.active) {
        Some((_, drivers)) => Ok(drivers),
        None => Err(Fault::Unknown),
    }
}

/// The numbers of the slots of a set.
fn told_set(alloc: Global, set: SlotSet) -> Answer {
    told_slots(alloc, &slots_of(alloc, set)?)
}

/// Whether a driver of the first request isn't cut by a bit.
fn outlasts(setting: &Setting, last: u16) -> Answer {
    let outlasts = driving(setting)?.outlasts(&setting.cuts, last);
    told(setting.alloc, &outlasts)
}

/// Whether a command reaches a device that isn't cut by a bit.
fn is_heard(setting: &Setting, words: &mut Words<'_>) -> Answer {
    let to = words.target()?;
    let last = words.bit()?;
    let heard = setting
        .devices
        .is_heard(setting.active, &to, &setting.cuts, last);
    told(setting.alloc, &heard)
}

/// The lowest slot of the devices that would take the role.
fn lowest_willing(setting: &Setting, words: &mut Words<'_>) -> Answer {
    let address = words.address()?;
    let last = words.bit()?;
    let lowest = setting
        .devices
        .lowest_willing(setting.active, address, &setting.cuts, last);
    told_slots(setting.alloc, &lowest)
}

/// The slots of the devices that take SETDASA at a static address.
fn unaddressed_at(setting: &Setting, fixed: Addr7) -> Answer {
    let takers = setting.devices.unaddressed_at(setting.active, fixed);
    told_set(setting.alloc, takers)
}

/// The least maximum length at an address.
fn least_length(setting: &Setting, words: &mut Words<'_>) -> Answer {
    let way = words.named(&WAYS)?;
    let address = words.address()?;
    let least = setting.devices.least_length(setting.active, address, way);
    told(setting.alloc, &least.get())
}

/// What the lines give of the registers at an address.
fn read_from(setting: &Setting, words: &mut Words<'_>) -> Answer {
    let address = words.address()?;
    let first = words.bit()?;
    if first > 1000 {
        return Err(Fault::Unknown);
    }
    let bytes = setting
        .devices
        .read(setting.active, address, &setting.cuts, first);
    told_hex(setting.alloc, &bytes)
}
