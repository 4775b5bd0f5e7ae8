use crate::asked;
use crate::faults::Fault;
use crate::hand::{device_of, in_hand};
use crate::setting::Setting;
use crate::told::{Answer, nothing};
use crate::words::{WAYS, Words};
use i3c_base::{Identity, REGISTERS, SLOTS, Slot};
use i3c_device::{Device, Devices, SlotSet};
use i3c_word::{Word, write_word};
use std::alloc::Global;

/// The calls that change the devices: here those by which they come, move and go.
pub(crate) fn call(setting: &mut Setting, call: &str, words: &mut Words<'_>) -> Answer {
    match call {
        "device" | "static-device" | "willing-device" => return enter(setting, call, words),
        "put" => return put(setting, words),
        "remove" => setting.devices.remove(words.slot()?),
        "drop-lost" => setting.devices.drop_lost(&setting.cuts, words.bit()?),
        _ => return wish(setting, call, words),
    }
    nothing(setting.alloc)
}

/// A new device, in hand or in a slot. The static address of a `static-device` comes before its identity.
fn enter(setting: &mut Setting, call: &str, words: &mut Words<'_>) -> Answer {
    let place = words.place()?;
    let fixed = match call {
        "static-device" => Some(words.address()?),
        _ => None,
    };
    let device = device_of(words, call == "willing-device", fixed)?;
    match place {
        None => setting.hand = Some(device),
        Some(slot) => setting.devices.put(slot, device),
    }
    nothing(setting.alloc)
}

/// The device in hand goes into a slot.
fn put(setting: &mut Setting, words: &mut Words<'_>) -> Answer {
    let slot = words.slot()?;
    let Some(device) = setting.hand.take() else {
        return Err(Fault::Unknown);
    };
    setting.devices.put(slot, device);
    nothing(setting.alloc)
}

/// Wishes that come and go.
fn wish(setting: &mut Setting, call: &str, words: &mut Words<'_>) -> Answer {
    match call {
        "wish-join" | "wish-role" | "lose-role-wish" => wish_at(setting, call, words),
        _ => happen(setting, call, words),
    }
}

/// A wish of the device in hand, or in a slot.
fn wish_at(setting: &mut Setting, call: &str, words: &mut Words<'_>) -> Answer {
    match words.place()? {
        None => wish_in_hand(in_hand(setting)?, call),
        Some(slot) => wish_in_slot(&mut setting.devices, slot, call),
    }
    nothing(setting.alloc)
}

fn wish_in_hand(device: &mut Device, call: &str) {
    match call {
        "wish-join" => device.wish_join(),
        "wish-role" => device.wish_role(),
        _ => device.lose_role_wish(),
    }
}

fn wish_in_slot(devices: &mut Devices, slot: Slot, call: &str) {
    match call {
        "wish-join" => devices.wish_join(slot),
        "wish-role" => devices.wish_role(slot),
        _ => devices.lose_role_wish(slot),
    }
}

/// What happens in all slots.
fn happen(setting: &mut Setting, call: &str, words: &mut Words<'_>) -> Answer {
    match call {
        "open" => setting.devices.open(),
        "silence" => setting.devices.silence(),
        "accept-first" => accept_first(setting),
        "command" => return command(setting, words),
        "assign" => return assign(setting, words),
        "readdress" => return readdress(setting, words),
        "limit" => return limit(setting, words),
        "write-to" => return write_to(setting, words),
        _ => return asked::call(setting, call, words),
    }
    nothing(setting.alloc)
}

/// The first request is accepted.
fn accept_first(setting: &mut Setting) {
    if let Some((request, drivers)) = setting.devices.first_request(setting.active) {
        setting.devices.accept(drivers, &request);
    }
}

/// The devices that it reaches hear a command.
fn command(setting: &mut Setting, words: &mut Words<'_>) -> Answer {
    let to = words.target()?;
    let code = words.code()?;
    let carried = written(setting.alloc, words)?;
    setting.devices.hear(setting.active, &to, code, &carried);
    nothing(setting.alloc)
}

/// The words of the bytes up to the end of the line.
pub(crate) fn written(alloc: Global, words: &mut Words<'_>) -> Result<Vec<Word>, Fault> {
    let mut written = Vec::new(alloc);
    for byte in &words.bytes(alloc)? {
        written.push(write_word(*byte))?;
    }
    Ok(written)
}

/// An identity wins a round: the hearers that have it, and aren't cut by a bit, take an address.
fn assign(setting: &mut Setting, words: &mut Words<'_>) -> Answer {
    let identity = words.identity()?;
    let address = words.usable()?;
    let last = words.bit()?;
    let takers = hearers_of(setting, &identity)?.left(&setting.cuts, last);
    setting.devices.take_address(takers, address);
    nothing(setting.alloc)
}

/// The devices at an address have another one, but not the active controller.
fn readdress(setting: &mut Setting, words: &mut Words<'_>) -> Answer {
    let old = words.address()?;
    let new = words.usable()?;
    let reached = setting.devices.reached(setting.active, &Some(old));
    setting.devices.readdress(reached, new);
    nothing(setting.alloc)
}

/// The devices that it reaches have a maximum length.
fn limit(setting: &mut Setting, words: &mut Words<'_>) -> Answer {
    let way = words.named(&WAYS)?;
    let to = words.target()?;
    let most = words.length()?;
    let reached = setting.devices.reached(setting.active, &to);
    setting.devices.limit(reached, way, most);
    nothing(setting.alloc)
}

/// The hearers that have an identity.
fn hearers_of(setting: &Setting, identity: &Identity) -> Result<SlotSet, Fault> {
    let mut hearers = Vec::new(setting.alloc);
    for slot in &slots_of(setting.alloc, setting.devices.hearers())? {
        match setting.devices.identity(*slot) {
            Some(own) if own == *identity => hearers.push(*slot)?,
            _ => {}
        }
    }
    Ok(SlotSet::of(&hearers))
}

/// The slots of a set.
pub(crate) fn slots_of(alloc: Global, set: SlotSet) -> Result<Vec<Slot>, Fault> {
    let mut slots = Vec::new(alloc);
    let mut left = set;
    for _ in 0..SLOTS {
        let Some(index) = left.take_lowest() else {
            break;
        };
        slots.push(Slot::from_index(index))?;
    }
    Ok(slots)
}

/// Bytes are written to an address.
fn write_to(setting: &mut Setting, words: &mut Words<'_>) -> Answer {
    let address = words.address()?;
    let bytes = words.bytes(setting.alloc)?;
    if bytes.len() > REGISTERS {
        return Err(Fault::Unknown);
    }
    setting.devices.write(setting.active, address, &bytes);
    nothing(setting.alloc)
}
