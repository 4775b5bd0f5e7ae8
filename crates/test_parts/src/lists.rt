use crate::faults::Fault;
use crate::setting::Setting;
use crate::told::{Answer, done, nothing, told, told_hex, told_trace};
use crate::words::Words;
use i3c_deftgts::{ENTRIES, Entry, read_list, write_list};
use i3c_frame::Symbol;
use i3c_word::{Word, write_word};
use std::alloc::Global;

/// The DCR of the devices that `entries` appends.
const DCR: u8 = 0xC0;

/// Their BCR.
const BCR: u8 = 0x46;

/// The calls on lists of devices: here those that change the list's words, or take its table, and answer nothing.
pub(crate) fn call(setting: &mut Setting, call: &str, words: &mut Words<'_>) -> Answer {
    let alloc = setting.alloc;
    match call {
        "list" => setting.list = words.carried(alloc)?,
        "word" => return done(alloc, replace(&mut setting.list, words)),
        "shorten" => setting.list.truncate(words.index()?),
        "entries" => return done(alloc, append(&mut setting.list, words)),
        "take-list" => return done(alloc, take(setting)),
        _ => return ask(setting, call, words),
    }
    nothing(alloc)
}

/// Takes the table of the list.
fn take(setting: &mut Setting) -> Result<(), Fault> {
    match read_list(&setting.list) {
        Ok(list) => setting.table = list.to_table(),
        Err(_) => return Err(Fault::Unknown),
    }
    Ok(())
}

/// Replaces the word of an index.
fn replace(list: &mut [Word], words: &mut Words<'_>) -> Result<(), Fault> {
    let index = words.index()?;
    match list.get_mut(index) {
        Some(place) => {
            *place = words.carried_word()?;
            Ok(())
        }
        None => Err(Fault::Unknown),
    }
}

/// Appends a number of devices without static addresses, each at an address a step above the one before.
fn append(list: &mut Vec<Word>, words: &mut Words<'_>) -> Result<(), Fault> {
    let mut address = words.byte()?;
    let step = words.byte()?;
    for _ in 0..words.count()? {
        list.extend_from_slice(&device_at(address))?;
        address = address.wrapping_add(step);
    }
    Ok(())
}

/// The words of a device without a static address.
fn device_at(address: u8) -> [Word; 4] {
    [
        write_word(address.wrapping_mul(2)),
        write_word(DCR),
        write_word(BCR),
        write_word(0x00),
    ]
}

/// What is asked of lists.
fn ask(setting: &mut Setting, call: &str, words: &mut Words<'_>) -> Answer {
    let alloc = setting.alloc;
    match call {
        "write-list" => written(setting, words),
        "read-list" => entries(alloc, &setting.list),
        "count-list" => counted(alloc, &setting.list),
        "list-length" => told(alloc, &setting.list.len()),
        "most-entries" => told(alloc, &ENTRIES),
        "blank-entry" => told_hex(alloc, &Entry::default()),
        _ => Err(Fault::Unknown),
    }
}

/// Writes the table's list, for the controller at an address that was given.
fn written(setting: &mut Setting, words: &mut Words<'_>) -> Answer {
    let own = words.address()?;
    if setting.table.row_of(own).is_none() {
        return Err(Fault::Unknown);
    }
    let words = write_list(&setting.table, own);
    setting.list.clear();
    setting.list.extend_from_slice(words.as_slice())?;
    told_words(setting.alloc, &setting.list)
}

/// Words on a bus, as traces have them.
fn told_words(alloc: Global, words: &[Word]) -> Answer {
    let mut symbols = Vec::new(alloc);
    for word in words {
        symbols.push(Symbol::Word(*word))?;
    }
    told_trace(alloc, &symbols)
}

/// The entries of the list, or why it is none.
fn entries(alloc: Global, words: &[Word]) -> Answer {
    match read_list(words) {
        Ok(list) => told_hex(alloc, &list.entries()),
        Err(fault) => told(alloc, &fault),
    }
}

/// How many entries the list has and whether it is empty, or why it is none.
fn counted(alloc: Global, words: &[Word]) -> Answer {
    match read_list(words) {
        Ok(list) => told(alloc, &(list.len(), list.is_empty())),
        Err(fault) => told(alloc, &fault),
    }
}
