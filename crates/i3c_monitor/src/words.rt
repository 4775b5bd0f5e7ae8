ghost use Rattle.std.specs.Prelude.{◌≡◌, ◌+◌, ◌<◌, IfOk, length};
ghost use Rattle.i3c_deftgts.specs.Reading.{first_fault};
ghost use Rattle.i3c_monitor.specs.Due.{Comes, broken, due_word, entries_told, words_in, written_byte, written_length};

use crate::decoded::Fault;
use i3c_deftgts::{ListFault, read_list};
use i3c_frame::Symbol;
use i3c_text::LineError;
use i3c_word::{Word, read_word};
use std::alloc::{AllocError, Global};

/// The byte of a word that a controller writes, expected as the first of these symbols. `before` counts the symbols of the
/// trace before them.
#[inline(always)]
pub(crate) fn written_byte(symbols: &[Symbol], before: usize) -> Result<u8, Fault>
    requires { before < usize.MAX }
    ensures { result ≡ written_byte symbols.now before }
{
    match read_word(due_word(symbols, before)?) {
        Ok(byte) => Ok(byte),
        Err(_) => Err(Fault::Parity(before + 1)),
    }
}

/// The bytes of the two words that a controller writes for a length, the high one first (I3C Basic 5.1.9.3.5, 5.1.9.3.6).
/// They are expected as the first of these symbols.
pub(crate) fn written_length(symbols: &[Symbol], before: usize) -> Result<(u8, u8), Fault>
    requires { before + length symbols.now < usize.MAX }
    ensures { result ≡ written_length symbols.now before }
{
    let Some((_, rest)) = symbols.split_first() else {
        return Err(Fault::Truncated(before + 1));
    };
    let high = written_byte(symbols, before)?;
    let low = written_byte(rest, before + 1)?;
    Ok((high, low))
}

/// The word expected as the first of these symbols, whatever its T bit is.
#[inline(always)]
pub(crate) fn due_word(symbols: &[Symbol], before: usize) -> Result<Word, Fault>
    requires { before < usize.MAX }
    ensures { result ≡ due_word symbols.now before }
{
    match symbols.first() {
        Some(Symbol::Word(word)) => Ok(*word),
        Some(_) => Err(Fault::Parity(before + 1)),
        None => Err(Fault::Truncated(before + 1)),
    }
}

/// How many entries the list has that these symbols are (I3C Basic 5.1.9.3.7).
#[inline(always)]
pub(crate) fn read_entries(
    alloc: Global,
    symbols: &[Symbol],
    before: usize,
) -> Result<usize, LineError<Fault>>
    requires { before + length symbols.now < usize.MAX }
    ensures { Comes (entries_told symbols.now before) result }
{
    let words = leading_words(alloc, symbols)?;
    if words.len() < symbols.len() {
        let number = before + words.len() + 1;
        return Err(LineError::Refused(broken_list(&words, number)));
    }
    match read_list(&words) {
        Ok(list) => Ok(list.len()),
        Err(fault) => Err(LineError::Refused(Fault::List(fault))),
    }
}

/// The words that come before any other symbol.
#[inline(always)]
pub(crate) fn leading_words(alloc: Global, symbols: &[Symbol]) -> Result<Vec<Word>, AllocError>
    ensures { IfOk result (λ words. words.items ≡ words_in symbols.now) }
{
    let mut words = Vec::with_capacity(alloc, symbols.len())?;
    let mut rest = symbols;
    while let [Symbol::Word(word), more @ ..] = rest {
        words.push(*word)?;
        rest = more;
    }
    Ok(words)
}

/// The fault of a list that the symbol of this number interrupts, which is no word: a wrong T bit before it comes first.
#[cold]
#[inline(never)]
fn broken_list(words: &[Word], number: usize) -> Fault
    ensures { result ≡ broken (first_fault words.now) number }
{
    match read_list(words) {
        Err(ListFault::Parity(word)) => Fault::List(ListFault::Parity(word)),
        _ => Fault::Parity(number),
    }
}
