ghost use Rattle.std.specs.Prelude.{◌≤◌, length};

use crate::events::MOST_BEGUN;
use crate::faults::Fault;
use crate::setting::Setting;
use crate::taps::Told;
use crate::told::{Answer, told, told_hex, told_text, told_trace};
use crate::words::{BITS, DATA, WAYS, Words};
use i3c_base::{Addr7, Bytes, REGISTERS};
use i3c_xfer::{
    Get, Read, Write, datum_length, get, get_bits, read, tell_get, tell_read, tell_write,
    transfer_length, write, write_bits,
};
use std::alloc::Global;

/// What a write comes to.
const WRITES: [(&str, Write); 3] = [
    ("nobody", Write::Nobody),
    ("legacy", Write::Legacy),
    ("devices", Write::Devices),
];

/// The calls on transfers with an address.
pub(crate) fn call(setting: &mut Setting, call: &str, words: &mut Words<'_>) -> Answer {
    match call {
        "get" | "get-answer" | "get-bits" => of_get(setting, call, words),
        "told-count" => told(setting.alloc, &count_of(words)?),
        "tell-get" => trace_of_get(setting.alloc, words),
        "read" | "read-answer" | "read-bits" => of_read(setting, call, words),
        "write" | "write-answer" | "write-bits" => of_write(setting, call, words),
        "transfer-length" => told(setting.alloc, &length_of(setting, words)?),
        "legacy-registers" => legacy_registers(setting, words),
        "tell-read" => trace_of_read(setting.alloc, words),
        "tell-write" => trace_of_write(setting.alloc, words),
        _ => Err(Fault::Unknown),
    }
}

/// A read: its result, its answer, or its bits.
fn of_read(setting: &Setting, call: &str, words: &mut Words<'_>) -> Answer {
    let alloc = setting.alloc;
    let to = words.address()?;
    let came = came(setting, to)?;
    match call {
        "read" => told_hex(alloc, &came),
        "read-answer" => told_hex(alloc, &came.answer(to)),
        _ => told(alloc, &came.bits()),
    }
}

/// What a read comes to.
fn came(setting: &Setting, to: Addr7) -> Result<Read, Fault> {
    let begun = setting.begun;
    if begun > MOST_BEGUN {
        return Err(Fault::Unknown);
    }
    Ok(read(
        &setting.devices,
        &setting.targets,
        setting.active,
        to,
        &setting.cuts,
        begun,
    ))
}

/// A write: its result, its answer, or its bits.
fn of_write(setting: &mut Setting, call: &str, words: &mut Words<'_>) -> Answer {
    let alloc = setting.alloc;
    let to = words.address()?;
    let bytes = words.bytes(alloc)?;
    if bytes.len() > REGISTERS {
        return Err(Fault::Unknown);
    }
    let wrote = wrote(setting, to, &bytes)?;
    match call {
        "write" => told_hex(alloc, &wrote),
        "write-answer" => told_hex(alloc, &wrote.answer(to)),
        _ => told(alloc, &write_bits(&bytes, &wrote.answer(to))),
    }
}

/// What a write comes to.
fn wrote(setting: &mut Setting, to: Addr7, bytes: &[u8]) -> Result<Write, Fault>
    requires { length bytes.now ≤ 16 }
{
    let begun = setting.begun;
    if begun > MOST_BEGUN {
        return Err(Fault::Unknown);
    }
    Ok(write(
        &mut setting.devices,
        &mut setting.targets,
        setting.active,
        to,
        bytes,
        &setting.cuts,
        begun,
    ))
}

/// How many bytes a transfer with an address may have.
fn length_of(setting: &Setting, words: &mut Words<'_>) -> Result<u8, Fault> {
    let way = words.named(&WAYS)?;
    let to = words.address()?;
    let most = transfer_length(&setting.devices, &setting.targets, setting.active, to, way);
    Ok(most.get())
}

/// The registers of the legacy target at an address, if there is one.
fn legacy_registers(setting: &Setting, words: &mut Words<'_>) -> Answer {
    match setting.targets.get(words.address()?) {
        Some(target) => told_hex(setting.alloc, &Some(target.registers)),
        None => told_text(setting.alloc, "None"),
    }
}

/// The symbols of a read after the header of its frame.
fn trace_of_read(alloc: Global, words: &mut Words<'_>) -> Answer {
    let to = words.address()?;
    let came = read_named(alloc, words)?;
    let mut told = Told::begun(alloc);
    tell_read(&mut told, to, &came);
    told_trace(alloc, &told.symbols)
}

/// What a read came to.
fn read_named(alloc: Global, words: &mut Words<'_>) -> Result<Read, Fault> {
    match words.word()? {
        "nobody" => Ok(Read::Nobody),
        "legacy" => Ok(Read::Legacy(registers(words)?)),
        "ended" => Ok(Read::Ended(few(alloc, words)?)),
        "torn" => Ok(Read::Torn(few(alloc, words)?)),
        _ => Err(Fault::Unknown),
    }
}

/// The bytes up to the end of the line, no more than there are registers.
fn few(alloc: Global, words: &mut Words<'_>) -> Result<Bytes, Fault> {
    let bytes = words.bytes(alloc)?;
    if bytes.len() > REGISTERS {
        return Err(Fault::Unknown);
    }
    Ok(Bytes::new(&bytes))
}

/// A byte for each register.
fn registers(words: &mut Words<'_>) -> Result<[u8; REGISTERS], Fault> {
    let mut bytes = [0; REGISTERS];
    for byte in bytes.iter_mut() {
        *byte = words.byte()?;
    }
    Ok(bytes)
}

/// The symbols of a write after the header of its frame.
fn trace_of_write(alloc: Global, words: &mut Words<'_>) -> Answer {
    let to = words.address()?;
    let wrote = words.named(&WRITES)?;
    let bytes = words.bytes(alloc)?;
    let mut told = Told::begun(alloc);
    tell_write(&mut told, to, &bytes, &wrote);
    told_trace(alloc, &told.symbols)
}

/// A read of a datum: its result, its answer, or its bits. The word behind the address says whether the interrupts there have
/// a byte.
fn of_get(setting: &Setting, call: &str, words: &mut Words<'_>) -> Answer {
    let alloc = setting.alloc;
    let what = words.named(&DATA)?;
    let to = words.address()?;
    let count = datum_length(what, words.named(&BITS)?);
    let begun = setting.begun;
    if begun > MOST_BEGUN {
        return Err(Fault::Unknown);
    }
    let came = get(
        &setting.devices,
        setting.active,
        what,
        count,
        to,
        &setting.cuts,
        begun,
    );
    match call {
        "get" => told_hex(alloc, &came),
        "get-answer" => told_hex(alloc, &came.answer(to)),
        _ => told(alloc, &get_bits(count, &came.answer(to))),
    }
}

/// How many bytes a datum has, where interrupts have a byte or have none.
fn count_of(words: &mut Words<'_>) -> Result<usize, Fault> {
    let what = words.named(&DATA)?;
    Ok(datum_length(what, words.named(&BITS)?))
}

/// The symbols of a datum after the header of its frame.
fn trace_of_get(alloc: Global, words: &mut Words<'_>) -> Answer {
    let what = words.named(&DATA)?;
    let to = words.address()?;
    let came = get_named(alloc, words)?;
    let mut told = Told::begun(alloc);
    tell_get(&mut told, what, to, &came);
    told_trace(alloc, &told.symbols)
}

/// What asking for a datum came to.
fn get_named(alloc: Global, words: &mut Words<'_>) -> Result<Get, Fault> {
    match words.word()? {
        "nobody" => Ok(Get::Nobody),
        "ended" => Ok(Get::Ended(few(alloc, words)?)),
        "torn" => Ok(Get::Torn(few(alloc, words)?)),
        _ => Err(Fault::Unknown),
    }
}
