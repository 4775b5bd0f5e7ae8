use crate::faults::Fault;
use crate::setting::Setting;
use crate::taps;
use crate::told::{Answer, printed, text_of, told, told_if};
use crate::words::Words;
use i3c_frame::{Symbol, read_trace};
use std::alloc::Global;

/// The directions of headers: whether they read.
const DIRECTIONS: [(&str, bool); 2] = [("read", true), ("write", false)];

/// The answers: whether they acknowledge.
const ANSWERS: [(&str, bool); 2] = [("ack", true), ("nack", false)];

/// The calls on symbols and traces. `read_trace` keeps the trace that it reads, and answers how long that is; `trace` is
/// one of its symbols, counted from 1, and `printed` the texts of all, each with a space behind it.
pub(crate) fn call(setting: &mut Setting, call: &str, words: &mut Words<'_>) -> Answer {
    let alloc = setting.alloc;
    match call {
        "symbol" => text_of(alloc, &symbol(words)?),
        "read_trace" => read(setting, words.all()?),
        "trace" => at(setting, words.index()?),
        "printed" => told_if(alloc, printed(alloc, &setting.trace)),
        _ => taps::call(setting, call, words),
    }
}

/// Reads and keeps the trace between two quotes.
fn read(setting: &mut Setting, text: &str) -> Answer {
    let alloc = setting.alloc;
    let text = quoted(alloc, text)?;
    match read_trace(alloc, text.as_str()) {
        Ok(trace) => {
            let count = trace.len();
            setting.trace = trace;
            format!(in alloc; "Ok({count})").or(Err(Fault::Memory))
        }
        Err(fault) => format!(in alloc; "Err({fault:?})").or(Err(Fault::Memory)),
    }
}

/// The symbol of a number, if there is one.
fn at(setting: &Setting, number: usize) -> Answer {
    match setting.trace.get(number.saturating_sub(1)) {
        Some(symbol) => told(setting.alloc, symbol),
        None => Err(Fault::Unknown),
    }
}

/// A symbol, by its name and what it has.
pub(crate) fn symbol(words: &mut Words<'_>) -> Result<Symbol, Fault> {
    let name = words.word()?;
    match name {
        "start" => Ok(Symbol::Start),
        "repeated" => Ok(Symbol::Repeated),
        "stop" => Ok(Symbol::Stop),
        "header" => header(words),
        "word" => Ok(Symbol::Word(words.carried_word()?)),
        "identity" => Ok(Symbol::Identity(words.number()?)),
        _ => answered(name, words),
    }
}

/// A header: its address, its direction and its answer.
fn header(words: &mut Words<'_>) -> Result<Symbol, Fault> {
    let address = words.address()?;
    let read = words.named(&DIRECTIONS)?;
    let ack = words.named(&ANSWERS)?;
    Ok(Symbol::Header { address, read, ack })
}

/// A byte of a name, with its answer.
fn answered(name: &str, words: &mut Words<'_>) -> Result<Symbol, Fault> {
    let byte = words.byte()?;
    let ack = words.named(&ANSWERS)?;
    match name {
        "address_byte" => Ok(Symbol::AddressByte { byte, ack }),
        "legacy_word" => Ok(Symbol::LegacyWord { byte, ack }),
        _ => Err(Fault::Unknown),
    }
}

/// The text between two quotes, in which a backslash and a letter stand for what can't be seen.
fn quoted(alloc: Global, text: &str) -> Result<String, Fault> {
    let inner = unquoted(text).ok_or(Fault::Unknown)?;
    let mut read = String::new(alloc);
    let mut escaped = false;
    for letter in inner.chars() {
        if letter == '\\' && !escaped {
            escaped = true;
            continue;
        }
        read.push(if escaped { unseen(letter)? } else { letter })?;
        escaped = false;
    }
    Ok(read)
}

/// The text between two quotes.
fn unquoted(text: &str) -> Option<&str> {
    text.strip_prefix('"')?.strip_suffix('"')
}

/// What a letter after a backslash stands for.
fn unseen(letter: char) -> Result<char, Fault> {
    match letter {
        'n' => Ok('\n'),
        'r' => Ok('\r'),
        't' => Ok('\t'),
        _ => Err(Fault::Unknown),
    }
}
