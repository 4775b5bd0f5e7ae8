use crate::cutting;
use crate::faults::Fault;
use crate::setting::Setting;
use crate::told::{Answer, told, told_hex, told_if, told_slots};
use crate::words::Words;
use bitflags::Flags;
use i3c_base::{
    Addr7, Bcr, Cuts, Fixed, Identity, Kinds, LegacyTarget, Pid, REGISTERS, Record, Request, SLOTS,
    Served, Setup, Slot, WAITING, Waiting,
};
use i3c_legacy::{DECLARED, LEGACIES};
use i3c_table::ROWS;
use std::alloc::Global;
use std::mem::size_of;

/// The constants.
const CONSTANTS: [(&str, usize); 6] = [
    ("SLOTS", SLOTS),
    ("WAITING", WAITING),
    ("REGISTERS", REGISTERS),
    ("LEGACIES", LEGACIES),
    ("DECLARED", DECLARED),
    ("ROWS", ROWS),
];

/// The sizes of types.
const SIZES: [(&str, usize); 9] = [
    ("Cuts", size_of::<Cuts>()),
    ("Identity", size_of::<Identity>()),
    ("Setup", size_of::<Setup>()),
    ("Fixed", size_of::<Fixed>()),
    ("Request", size_of::<Request>()),
    ("Served", size_of::<Served>()),
    ("Record", size_of::<Record>()),
    ("Waiting", size_of::<Waiting>()),
    ("LegacyTarget", size_of::<LegacyTarget>()),
];

/// The calls on the words of the bus: here those on numbers.
pub(crate) fn call(setting: &mut Setting, call: &str, words: &mut Words<'_>) -> Answer {
    let alloc = setting.alloc;
    match call {
        "addr7" => told_hex(alloc, &Addr7::new(words.byte()?)),
        "pid" => told_hex(alloc, &Pid::new(words.number()?)),
        "slot" => told_slots(alloc, &Slot::new(words.small()?)),
        "constant" => told_if(alloc, words.named(&CONSTANTS)),
        "size" => told_if(alloc, words.named(&SIZES)),
        _ => of_identities(setting, call, words),
    }
}

/// The calls on identities.
fn of_identities(setting: &mut Setting, call: &str, words: &mut Words<'_>) -> Answer {
    let alloc = setting.alloc;
    match call {
        "number" => told_hex(alloc, &words.identity()?.number()),
        "from_number" => written(alloc, Identity::from_number(words.number()?)),
        _ => of_kinds(setting, call, words),
    }
}

/// The calls on the bits of kinds.
fn of_kinds(setting: &mut Setting, call: &str, words: &mut Words<'_>) -> Answer {
    let alloc = setting.alloc;
    match call {
        "kinds" => told_hex(alloc, &kinds(words.word()?)?.bits()),
        "from_bits_truncate" => told_hex(alloc, &Kinds::from_bits_truncate(words.byte()?).bits()),
        _ => of_bcr(setting, call, words),
    }
}

/// The calls on those of a BCR.
fn of_bcr(setting: &mut Setting, call: &str, words: &mut Words<'_>) -> Answer {
    let alloc = setting.alloc;
    match call {
        "capable" => told(alloc, &Bcr(words.byte()?).capable()),
        "interrupts" => told(alloc, &Bcr(words.byte()?).interrupts()),
        "has_byte" => told(alloc, &Bcr(words.byte()?).has_byte()),
        _ => cutting::call(setting, call, words),
    }
}

/// An identity as it is written in a line.
fn written(alloc: Global, identity: Identity) -> Answer {
    let pid = identity.pid.get();
    let Bcr(bcr) = identity.bcr;
    let dcr = identity.dcr.0;
    format!(in alloc; "{pid:012X} {bcr:02X} {dcr:02X}").or(Err(Fault::Memory))
}

/// The kinds of a name.
fn kinds(name: &str) -> Result<Kinds, Fault> {
    match name {
        "INTERRUPT" => Ok(Kinds::INTERRUPT),
        "ROLE" => Ok(Kinds::ROLE),
        "JOIN" => Ok(Kinds::JOIN),
        "INTERRUPT|ROLE|JOIN" => Ok(Kinds::INTERRUPT | Kinds::ROLE | Kinds::JOIN),
        _ => Err(Fault::Unknown),
    }
}
