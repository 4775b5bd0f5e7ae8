use crate::faults::Fault;
use crate::setting::Setting;
use crate::told::{Answer, told};
use crate::words::Words;
use i3c_base::Cuts;
use std::alloc::Global;

/// The calls on cuts: the first word says which ones, or compares both.
pub(crate) fn call(setting: &mut Setting, call: &str, words: &mut Words<'_>) -> Answer {
    let alloc = setting.alloc;
    match call {
        "cuts" => of_cuts(alloc, words, &mut setting.cuts),
        "others" => of_cuts(alloc, words, &mut setting.others),
        "cuts==others" => told(alloc, &(setting.cuts == setting.others)),
        "cuts!=others" => told(alloc, &(setting.cuts != setting.others)),
        _ => Err(Fault::Unknown),
    }
}

/// A call on cuts. Those that `counted_from` gives take the place of the ones before.
fn of_cuts(alloc: Global, words: &mut Words<'_>, cuts: &mut Cuts) -> Answer {
    let method = words.word()?;
    match method {
        "counted_from" => {
            *cuts = cuts.counted_from(words.bit()?);
            told(alloc, &())
        }
        "is_empty" => told(alloc, &cuts.is_empty()),
        _ => of_slot(alloc, method, words, cuts),
    }
}

/// A call on what is cut of a slot.
fn of_slot(alloc: Global, method: &str, words: &mut Words<'_>, cuts: &mut Cuts) -> Answer {
    let slot = words.slot()?;
    match method {
        "add" => told(alloc, &cuts.add(slot, words.bit()?)),
        "at" => told(alloc, &cuts.at(slot)),
        "is_lost" => told(alloc, &cuts.is_lost(slot, words.bit()?)),
        _ => Err(Fault::Unknown),
    }
}
