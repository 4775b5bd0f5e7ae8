use crate::faults::Fault;
use crate::setting::Setting;
use crate::taps::Told;
use crate::told::{Answer, text_of, told, told_hex, told_trace, told_word};
use crate::words::{WAYS, Words};
use bitflags::Flags;
use i3c_base::{Addr7, Change, Kinds};
use i3c_events::{
    NoAnswer, Setting as Sets, address_word, answer_of, code_word, hear_kinds, hear_length,
    hear_new, hear_static, kinds_word, length_bits, length_code, length_word, setting_word,
    tell_length, tell_setting,
};
use i3c_word::Word;
use std::alloc::Global;

/// The most bits that may come before a command: a mandatory byte's word and a header.
pub(crate) const MOST_BEGUN: u16 = 18;

/// The commands that set an address.
const SETS: [(&str, Sets); 2] = [("setdasa", Sets::Static), ("setnewda", Sets::New)];

/// The calls on ENEC and DISEC.
pub(crate) fn call(setting: &mut Setting, call: &str, words: &mut Words<'_>) -> Answer {
    let alloc = setting.alloc;
    match call {
        "enable" => rekind(setting, Change::Enable, words),
        "disable" => rekind(setting, Change::Disable, words),
        "enable-code" => told_word(alloc, code_word(Change::Enable, words.target()?)),
        "disable-code" => told_word(alloc, code_word(Change::Disable, words.target()?)),
        "kinds-word" => told_word(alloc, kinds_word(kinds(words)?)),
        "no-answer" => text_of(alloc, &NoAnswer(words.address()?)),
        _ => set(setting, call, words),
    }
}

/// The calls on SETDASA and SETNEWDA.
fn set(setting: &mut Setting, call: &str, words: &mut Words<'_>) -> Answer {
    let alloc = setting.alloc;
    match call {
        "setting-word" => told_word(alloc, setting_word(words.named(&SETS)?)),
        "address-word" => told_word(alloc, address_word(words.address()?)),
        "hear-static" | "hear-new" => readdress(setting, call, words),
        "tell-setting" => trace_of_setting(alloc, words),
        _ => limit(setting, call, words),
    }
}

/// The calls on SETMWL and SETMRL.
fn limit(setting: &mut Setting, call: &str, words: &mut Words<'_>) -> Answer {
    let alloc = setting.alloc;
    match call {
        "length-code" => told_word(alloc, code_of_length(words)?),
        "length-word" => told_word(alloc, length_word(words.length()?)),
        "length-bits" => told(alloc, &bits_of_length(words)?),
        "hear-length" => relength(setting, words),
        "tell-length" => trace_of_length(alloc, words),
        _ => Err(Fault::Unknown),
    }
}

/// The word of the code that sets a maximum length.
fn code_of_length(words: &mut Words<'_>) -> Result<Word, Fault> {
    let way = words.named(&WAYS)?;
    Ok(length_code(way, words.target()?))
}

/// How many bits SETMWL and SETMRL have.
fn bits_of_length(words: &mut Words<'_>) -> Result<u16, Fault> {
    let to = words.target()?;
    let heard = heard(words, to)?;
    Ok(length_bits(&to, &answer_of(&heard)))
}

/// The result of a command: it was `heard`, or at its address by `nobody`.
fn heard(words: &mut Words<'_>, to: Option<Addr7>) -> Result<Result<(), NoAnswer>, Fault> {
    match words.word()? {
        "heard" => Ok(Ok(())),
        "nobody" => match to {
            Some(at) => Ok(Err(NoAnswer(at))),
            None => Err(Fault::Unknown),
        },
        _ => Err(Fault::Unknown),
    }
}

/// Devices get a maximum length.
fn relength(setting: &mut Setting, words: &mut Words<'_>) -> Answer {
    let way = words.named(&WAYS)?;
    let to = words.target()?;
    let most = words.length()?;
    let begun = setting.begun;
    if begun > MOST_BEGUN {
        return Err(Fault::Unknown);
    }
    let heard = hear_length(
        &mut setting.devices,
        setting.active,
        to,
        way,
        most,
        &setting.cuts,
        begun,
    );
    told_hex(setting.alloc, &heard)
}

/// The symbols of SETMWL or SETMRL after the header of its frame.
fn trace_of_length(alloc: Global, words: &mut Words<'_>) -> Answer {
    let way = words.named(&WAYS)?;
    let to = words.target()?;
    let most = words.length()?;
    let heard = heard(words, to)?;
    let mut told = Told::begun(alloc);
    tell_length(&mut told, way, &to, most, &heard);
    told_trace(alloc, &told.symbols)
}

/// A device gets its dynamic address, or another one.
fn readdress(setting: &mut Setting, call: &str, words: &mut Words<'_>) -> Answer {
    let target = words.address()?;
    let new = words.usable()?;
    let (active, begun) = (setting.active, setting.begun);
    if begun > MOST_BEGUN {
        return Err(Fault::Unknown);
    }
    let devices = &mut setting.devices;
    let heard = match call {
        "hear-static" => hear_static(devices, active, target, new, &setting.cuts, begun),
        _ => hear_new(devices, active, target, new, &setting.cuts, begun),
    };
    told_hex(setting.alloc, &heard)
}

/// The symbols of SETDASA or SETNEWDA after the header of its frame: `heard`, or by nobody.
fn trace_of_setting(alloc: Global, words: &mut Words<'_>) -> Answer {
    let sets = words.named(&SETS)?;
    let target = words.address()?;
    let new = words.address()?;
    let heard = match words.word()? {
        "heard" => Ok(()),
        "nobody" => Err(NoAnswer(target)),
        _ => return Err(Fault::Unknown),
    };
    let mut told = Told::begun(alloc);
    tell_setting(&mut told, sets, target, new, &heard);
    told_trace(alloc, &told.symbols)
}

/// Kinds of events, as a byte names them.
fn kinds(words: &mut Words<'_>) -> Result<Kinds, Fault> {
    Ok(Kinds::from_bits_retain(words.byte()?))
}

/// Kinds of events are enabled or disabled.
fn rekind(setting: &mut Setting, change: Change, words: &mut Words<'_>) -> Answer {
    let to = words.target()?;
    let kinds = kinds(words)?;
    let begun = setting.begun;
    if begun > MOST_BEGUN {
        return Err(Fault::Unknown);
    }
    let heard = hear_kinds(
        &mut setting.devices,
        setting.active,
        to,
        change,
        kinds,
        &setting.cuts,
        begun,
    );
    told_hex(setting.alloc, &heard)
}
