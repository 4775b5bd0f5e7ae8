use crate::faults::Fault;
use crate::setting::Setting;
use crate::slots::written;
use crate::told::{Answer, nothing, told, told_hex, told_text};
use crate::words::Words;
use i3c_base::{Addr7, REGISTERS, Setup};
use i3c_device::Device;
use std::alloc::Global;

/// What changes the device in hand.
const CHANGES: [&str; 6] = [
    "take-address",
    "fall-silent",
    "lose-front",
    "lose-join-wish",
    "hear",
    "fill",
];

/// What any device is asked.
const QUESTIONS: [&str; 10] = [
    "identity",
    "fixed",
    "address",
    "is-hearing",
    "is-willing",
    "registers",
    "waiting",
    "front",
    "answer-byte",
    "may-raise",
];

/// The calls on the device in hand, and what any device is asked.
pub(crate) fn call(setting: &mut Setting, call: &str, words: &mut Words<'_>) -> Answer {
    if CHANGES.contains(&call) {
        let alloc = setting.alloc;
        return change(alloc, in_hand(setting)?, call, words);
    }
    if QUESTIONS.contains(&call) {
        return ask(setting, call, words);
    }
    Err(Fault::Unknown)
}

/// A device of an identity with this static address, and at a dynamic one if one is given.
pub(crate) fn device_of(
    words: &mut Words<'_>,
    willing: bool,
    fixed: Option<Addr7>,
) -> Result<Device, Fault> {
    let identity = words.identity()?;
    let mut device = Device::new(Setup { identity, willing }, fixed);
    if !words.is_done() {
        device.take_address(words.usable()?);
    }
    Ok(device)
}

/// The device in hand.
pub(crate) fn in_hand(setting: &mut Setting) -> Result<&mut Device, Fault> {
    match &mut setting.hand {
        Some(device) => Ok(device),
        None => Err(Fault::Unknown),
    }
}

/// Changes a device.
fn change(alloc: Global, device: &mut Device, call: &str, words: &mut Words<'_>) -> Answer {
    match call {
        "take-address" => device.take_address(words.usable()?),
        "fall-silent" => device.fall_silent(),
        "lose-front" => device.lose_front(),
        "lose-join-wish" => device.lose_join_wish(),
        "hear" => return hear(alloc, device, words),
        _ => return fill(alloc, device, words),
    }
    nothing(alloc)
}

/// A device by itself hears a command.
fn hear(alloc: Global, device: &mut Device, words: &mut Words<'_>) -> Answer {
    let code = words.code()?;
    let carried = written(alloc, words)?;
    device.hear(code, &carried);
    nothing(alloc)
}

/// Bytes go into a device's first registers.
fn fill(alloc: Global, device: &mut Device, words: &mut Words<'_>) -> Answer {
    let bytes = words.bytes(alloc)?;
    if bytes.len() > REGISTERS {
        return Err(Fault::Unknown);
    }
    device.write(&bytes);
    nothing(alloc)
}

/// Asks the device in hand, or in a slot.
fn ask(setting: &Setting, call: &str, words: &mut Words<'_>) -> Answer {
    let place = words.place()?;
    let byte = words.maybe_byte()?;
    match place {
        None => ask_of(setting.alloc, setting.hand.as_ref(), call, byte),
        Some(slot) => {
            let device = setting.devices.get(slot);
            ask_of(setting.alloc, device.as_ref(), call, byte)
        }
    }
}

/// Asks a device, if there is one.
fn ask_of(alloc: Global, device: Option<&Device>, call: &str, byte: Option<u8>) -> Answer {
    match device {
        Some(device) => answer(alloc, device, call, byte),
        None => told_text(alloc, "nobody"),
    }
}

/// What a device answers.
fn answer(alloc: Global, device: &Device, call: &str, byte: Option<u8>) -> Answer {
    match call {
        "identity" => told_hex(alloc, &device.identity()),
        "fixed" => told_hex(alloc, &device.fixed()),
        "address" => told_hex(alloc, &device.address()),
        "is-hearing" => told(alloc, &device.is_hearing()),
        "is-willing" => told(alloc, &device.is_willing()),
        "registers" => told_hex(alloc, device.registers()),
        "waiting" => told(alloc, &device.waiting()),
        "front" => told_hex(alloc, &device.front()),
        "answer-byte" => told_hex(alloc, &device.answer_byte()),
        _ => told(alloc, &device.may_raise(byte)),
    }
}
