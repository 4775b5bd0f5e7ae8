ghost use Rattle.std.specs.Prelude.{◌≡◌, ◌<◌, [], true, length, slice_index, take, IfSome, MatchOption};
ghost use Rattle.i3c_frame.specs.Firsts.{BeginsWith, IsFirst};
ghost use Rattle.i3c_frame.specs.Parts.{is_separator, parts};
ghost use Rattle.i3c_frame.specs.Texts.{HasText};

use crate::parts::{Parts, parts_symbols};
use crate::symbols::{
    AT_SIGN, DOT, EQUALS, SLASH, Symbol, read_address_byte, read_header, read_identity,
    read_legacy_word, read_letter, read_pair, read_symbol, read_word,
};

/// The first part of a text.
#[derive(Clone, Copy)]
pub(crate) enum First<'a> {
    /// It is this symbol, and this follows it.
    Symbol(Symbol, &'a [u8]),
    /// It is no symbol.
    Other,
}

/// The first part of a text, if it has one.
#[inline(always)]
pub(crate) fn first_of(text: &[u8]) -> Option<First<'_>>
    ensures { MatchOption result (parts text.now ≡ []) (IsFirst text.now) }
{
    match read_first(text) {
        Some((symbol, rest)) => Some(First::Symbol(symbol, rest)),
        None => search_first(text),
    }
}

/// The symbol that a text begins with, and the text behind the separator that follows it. As a rule a text begins so, except
/// for its last symbols.
#[inline(always)]
fn read_first(text: &[u8]) -> Option<(Symbol, &[u8])>
    ensures { IfSome result (λ first. BeginsWith text.now first.0 first.1.now) }
{
    let [first, second, third, fourth, fifth, sixth, ..] = text else {
        return None;
    };
    if *third == DOT && parts_symbols(*fifth) {
        with_rest(read_word(*first, *second, *fourth), text, 4)
    } else if *third == SLASH && parts_symbols(*sixth) {
        let symbol = read_header(*first, *second, *third, *fourth, *fifth);
        with_rest(symbol, text, 5)
    } else if parts_symbols(*second) {
        with_rest(read_letter(*first), text, 1)
    } else if parts_symbols(*third) {
        with_rest(read_pair(*first, *second), text, 2)
    } else if parts_symbols(*fourth) {
        with_rest(read_legacy_word(*first, *second, *third), text, 3)
    } else if *first == AT_SIGN && parts_symbols(*fifth) {
        with_rest(read_address_byte(*second, *third, *fourth), text, 4)
    } else {
        read_first_identity(text)
    }
}

/// The same of an identity.
fn read_first_identity(text: &[u8]) -> Option<(Symbol, &[u8])>
    ensures { IfSome result (λ first. BeginsWith text.now first.0 first.1.now) }
{
    if text.len() < 18 || !parts_symbols(text[17]) {
        return None;
    }
    with_rest(read_identity(text[0], &text[1..17]), text, 17)
}

/// The symbol of the bytes before a separator, if they are one's, and what follows the separator.
#[inline(always)]
fn with_rest(symbol: Option<Symbol>, text: &[u8], separator: usize) -> Option<(Symbol, &[u8])>
    requires within { separator < length text.now }
    requires parted { is_separator (slice_index text.now separator) ≡ true }
    requires front { IfSome symbol (HasText (take separator text.now)) }
    ensures { IfSome result (λ first. BeginsWith text.now first.0 first.1.now) }
{
    Some((symbol?, &text[separator + 1..]))
}

/// The first part of any text, wherever it begins and ends.
#[cold]
#[inline(never)]
fn search_first(text: &[u8]) -> Option<First<'_>>
    ensures { MatchOption result (parts text.now ≡ []) (IsFirst text.now) }
{
    let mut parts = Parts::new(text);
    let part = parts.next()?;
    match read_symbol(part) {
        Some(symbol) => Some(First::Symbol(symbol, parts.rest())),
        None => Some(First::Other),
    }
}
