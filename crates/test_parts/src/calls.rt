use crate::faults::Fault;
use crate::requests::{Counting, verdicts};
use crate::setting::Setting;
use crate::subject::Subject;
use crate::told::{Answer, nothing, told, told_text};
use crate::words::Words;
use arrayvec::ArrayVec;
use i3c_base::Cuts;
use i3c_legacy::{Legacies, LegacyTargets};
use i3c_table::Table;
use std::mem;

/// The answer to a line, or `?` where it is no call.
pub(crate) fn answer(setting: &mut Setting, subject: Subject, line: &str) -> Answer {
    let alloc = setting.alloc;
    let mut words = Words::of(line);
    match made(setting, subject, &mut words) {
        Ok(answer) if words.next().is_none() => Ok(answer),
        Ok(_) | Err(Fault::Unknown) => told_text(alloc, "?"),
        Err(fault) => Err(fault),
    }
}

/// Makes the call of a line.
fn made(setting: &mut Setting, subject: Subject, words: &mut Words<'_>) -> Answer {
    let call = words.word()?;
    match call {
        "new" => renew(setting, words),
        _ => set(setting, subject, call, words),
    }
}

/// What is set beside devices, tables and lists.
fn set(setting: &mut Setting, subject: Subject, call: &str, words: &mut Words<'_>) -> Answer {
    match call {
        "active" => setting.active = words.slot()?,
        "cut" => setting.cuts.add(words.slot()?, words.bit()?),
        "uncut" => setting.cuts = Cuts::new(),
        "begun" => setting.begun = words.bit()?,
        "policy" => setting.policy = Counting::new(verdicts(words)?),
        _ => return subject.call(setting, call, words),
    }
    nothing(setting.alloc)
}

/// What a word names begins anew, or all, with no word.
fn renew(setting: &mut Setting, words: &mut Words<'_>) -> Answer {
    match words.next() {
        Some(name) => renew_one(setting, name),
        None => {
            *setting = Setting::new(setting.alloc);
            nothing(setting.alloc)
        }
    }
}

/// What this names begins anew. Targets are those that are declared by then, and a table takes these declarations.
fn renew_one(setting: &mut Setting, name: &str) -> Answer {
    match name {
        "cuts" => setting.cuts = Cuts::new(),
        "others" => setting.others = Cuts::new(),
        "contenders" => setting.contenders = ArrayVec::new(),
        "legacies" => setting.legacies = Legacies::new(),
        "targets" => setting.targets = LegacyTargets::new(&setting.legacies),
        "table" => {
            let legacies = mem::replace(&mut setting.legacies, Legacies::new());
            setting.table = Table::new(legacies);
        }
        _ => return Err(Fault::Unknown),
    }
    told(setting.alloc, &())
}
