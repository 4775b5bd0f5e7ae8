use crate::faults::Fault;
use i3c_frame::Symbol;
use i3c_word::Word;
use std::alloc::Global;
use std::fmt::{Debug, Display, Write};

/// What a call answers, an empty text if nothing, or why it isn't made.
pub(crate) type Answer = Result<String, Fault>;

/// The texts before the number of an address, a slot or a PID.
const BEGINS: [&str; 3] = ["Addr7 { value: ", "Slot { value: ", "Pid { value: "];

/// The answer of a call that answers nothing.
pub(crate) fn nothing(alloc: Global) -> Answer {
    Ok(String::new(alloc))
}

/// The same of one that may be refused.
pub(crate) fn done(alloc: Global, made: Result<(), Fault>) -> Answer {
    made?;
    nothing(alloc)
}

/// A text as an answer.
pub(crate) fn told_text(alloc: Global, text: &str) -> Answer {
    String::from_str(alloc, text).or(Err(Fault::Memory))
}

/// An answer that has a text.
pub(crate) fn text_of<T: Display>(alloc: Global, answer: &T) -> Answer {
    format!(in alloc; "{answer}").or(Err(Fault::Memory))
}

/// An answer whose numbers are counts.
pub(crate) fn told<T: Debug>(alloc: Global, answer: &T) -> Answer {
    format!(in alloc; "{answer:?}").or(Err(Fault::Memory))
}

/// An answer of this kind, if there is one.
pub(crate) fn told_if<T: Debug + Drop>(alloc: Global, answer: Result<T, Fault>) -> Answer {
    told(alloc, &answer?)
}

/// An answer whose slots are decimal numbers.
pub(crate) fn told_slots<T: Debug>(alloc: Global, answer: &T) -> Answer {
    bare(alloc, &told(alloc, answer)?, "Slot { value: ", " }")
}

/// An answer whose numbers are addresses and bytes, in hex digits.
pub(crate) fn told_hex<T: Debug>(alloc: Global, answer: &T) -> Answer {
    let mut text = told(alloc, answer)?;
    for begin in BEGINS {
        text = bare(alloc, &text, begin, " }")?;
    }
    in_hex(alloc, &text)
}

/// The same, where LVRs are bytes too.
pub(crate) fn told_lvrs<T: Debug>(alloc: Global, answer: &T) -> Answer {
    bare(alloc, &told_hex(alloc, answer)?, "Lvr(", ")")
}

/// A text in which everything from this beginning to this end is replaced by the text between them.
fn bare(alloc: Global, text: &str, begin: &str, end: &str) -> Answer {
    let mut bare = String::new(alloc);
    let mut rest = text;
    for _ in 0..u64::MAX {
        let Some((before, behind)) = rest.split_once(begin) else {
            break;
        };
        bare.push_str(before)?;
        rest = behind;
        if let Some((number, after)) = behind.split_once(end) {
            bare.push_str(number)?;
            rest = after;
        }
    }
    bare.push_str(rest)?;
    Ok(bare)
}

/// A text with its decimal numbers in hex digits, two at least. Digits in a name stay.
fn in_hex(alloc: Global, text: &str) -> Answer {
    let mut hex = String::new(alloc);
    let mut number = None;
    let mut before = ' ';
    for letter in text.chars() {
        match letter.to_digit(10) {
            Some(digit) if !before.is_ascii_alphabetic() => {
                number = Some(with_digit(number, digit));
            }
            _ => {
                push_number(&mut hex, number)?;
                number = None;
                hex.push(letter)?;
                before = letter;
            }
        }
    }
    push_number(&mut hex, number)?;
    Ok(hex)
}

/// A number with one more decimal digit.
fn with_digit(number: Option<u64>, digit: u32) -> u64 {
    let upper = number.unwrap_or(0).wrapping_mul(10);
    upper.wrapping_add(u64::from(digit))
}

/// Appends a number in hex digits, if there is one.
fn push_number(hex: &mut String, number: Option<u64>) -> Result<(), Fault> {
    if let Some(number) = number {
        write!(hex, "{number:02X}")?;
    }
    Ok(())
}

/// A word, as traces have it.
pub(crate) fn told_word(alloc: Global, word: Word) -> Answer {
    text_of(alloc, &Symbol::Word(word))
}

/// Symbols, as traces have them.
pub(crate) fn told_trace(alloc: Global, symbols: &[Symbol]) -> Answer {
    let spaced = printed(alloc, symbols)?;
    told_text(alloc, spaced.trim_end())
}

/// Symbols, as traces have them, with a space behind each.
pub(crate) fn printed(alloc: Global, symbols: &[Symbol]) -> Answer {
    let mut text = String::new(alloc);
    for symbol in symbols {
        write!(text, "{symbol} ")?;
    }
    Ok(text)
}
