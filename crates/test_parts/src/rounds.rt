use crate::faults::Fault;
use crate::setting::Setting;
use crate::told::{Answer, told_hex};
use crate::words::Words;
use i3c_entdaa::round;

/// The calls on an assignment.
pub(crate) fn call(setting: &mut Setting, call: &str, words: &mut Words<'_>) -> Answer {
    match call {
        "round" => one_round(setting),
        "reply" => reply(setting),
        _ => Err(Fault::Unknown),
    }
}

/// One round, which is kept.
fn one_round(setting: &mut Setting) -> Answer {
    let round = round(&mut setting.devices, &mut setting.table, &setting.cuts);
    setting.round = Some(round);
    told_hex(setting.alloc, &round)
}

/// The answer of the last round.
fn reply(setting: &Setting) -> Answer {
    match &setting.round {
        Some(round) => told_hex(setting.alloc, &round.reply()),
        None => Err(Fault::Unknown),
    }
}
