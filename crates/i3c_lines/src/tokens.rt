ghost use Rattle.std.specs.Prelude.{ℕ, List, MatchOption, Option, IsNone, option_copied, ◌≡◌, ◌<◌, ◌^◌, ◌≤◌, ◌↔◌, ◌++◌, ◌∷◌, [], ◌-◌, All, IsTrue, IsSome, IfSome, ◌==◌, bit_and, drop, false, length, position, take};
ghost use Rattle.std.specs.Str.Parse.{digits_value};
ghost use Rattle.i3c_lines.specs.Tokens.{AreBytes, IsDecimal, IsDecimalDigit, IsHex, pair_values};
ghost use Rattle.i3c_lines.specs.Parsing.{joined};

use arrayvec::ArrayVec;
use bitflags::Flags;
use i3c_base::{Addr7, Kinds, Length, Pid};
use i3c_step::WRITE_KEPT;
use i3c_text::{PID_DIGITS, digit, read_byte, read_digits};
use std::str;

/// What parts the tokens of a line.
pub(crate) const SPACE: u8 = b' ';

/// Numbers are written in hex.
const RADIX: u64 = 16;

/// Bits of frames, counts and the numbers of records are written in decimal.
const DECIMAL_RADIX: u32 = 10;

/// Bits 0, 1 and 3 of a byte: interrupts, role requests and Hot-Join.
const KNOWN_KINDS: u8 = 0x0B;

/// How many digits a byte has: an address, a BCR, a DCR or an LVR.
const BYTE_DIGITS: usize = 2;

/// The tokens of a line, which are parted by exactly one space: those that weren't read yet.
#[derive(Clone, Copy)]
pub struct Tokens<'a> {
    rest: Option<&'a [u8]>,
}

impl<'a> Tokens<'a> {
    ghost use Rattle.std.specs.Prelude.{◌≡◌, ◌∷◌, ◌↔◌, [], IsSome, MatchOption};
    ghost use Rattle.i3c_lines.specs.Forms.{tokens_of};
    ghost use Rattle.i3c_lines.specs.Parsing.{left_tokens};

    /// All tokens of a line. Without a space it is one token, and so is a line of no bytes.
    pub fn of(line: &'a [u8]) -> Tokens<'a>
        ensures { left_tokens result ≡ tokens_of line.now }
    {
        Tokens { rest: Some(line) }
    }

    /// The next token, if there is one.
    pub fn next(&mut self) -> Option<&'a [u8]>
        ensures { MatchOption result (left_tokens self.old ≡ []) (λ token. left_tokens self.old ≡ token.now ∷ left_tokens self.new) }
    {
        let rest = self.rest?;
        match first_space(rest) {
            Some(end) => {
                self.rest = Some(&rest[end + 1..]);
                Some(&rest[..end])
            }
            None => {
                self.rest = None;
                Some(rest)
            }
        }
    }

    /// Nothing, if each token was read.
    pub fn end(&self) -> Option<()>
        ensures { IsSome result ↔ (left_tokens self.now ≡ []) }
    {
        match self.rest {
            None => Some(()),
            Some(_) => None,
        }
    }
}

/// Whether a text begins with these letters.
// in line, where the loop over a known token is unrolled
#[inline(always)]
fn begins(text: &[u8], start: &[u8]) -> bool
    ensures begins { IsTrue result → text.now ≡ start.now ++ drop (length start.now) text.now }
    ensures differs { result ≡ false → (rest : List ℕ) → text.now ≡ start.now ++ rest → ⊥ }
{
    if text.len() < start.len() {
        return false;
    }
    for index in 0..start.len() {
        if text[index] != start[index] {
            return false;
        }
    }
    true
}

/// The rest of a text behind these letters, if it begins with them.
#[inline(always)]
pub(crate) fn after<'a>(text: &'a [u8], start: &[u8]) -> Option<&'a [u8]>
    ensures { MatchOption result ((rest : List ℕ) → text.now ≡ start.now ++ rest → ⊥) (λ rest. text.now ≡ start.now ++ rest.now) }
{
    if begins(text, start) {
        Some(&text[start.len()..])
    } else {
        None
    }
}

/// Whether a text is these letters.
#[inline(always)]
pub fn is_token(text: &[u8], token: &[u8]) -> bool
    ensures { IsTrue result ↔ (text.now ≡ token.now) }
{
    text.len() == token.len() && begins(text, token)
}

/// A first token of two bytes, and the line behind its space if there is one.
#[inline(always)]
pub(crate) fn split_two(line: &[u8]) -> Option<(&[u8], Option<&[u8]>)>
    ensures none { IsNone result → (token : List ℕ) (rest : Option (List ℕ)) → length token ≡ 2 → line.now ≡ joined token rest → ⊥ }
    ensures split { IfSome result (λ parts. (length parts.0.now ≡ 2) × (line.now ≡ joined parts.0.now (option_copied parts.1))) }
{
    let (token, rest) = line.split_at_checked(2)?;
    let rest = behind_space(rest)?;
    Some((token, rest))
}

/// The line behind a space, or nothing at a line's end.
#[inline(always)]
pub(crate) fn behind_space(line: &[u8]) -> Option<Option<&[u8]>>
    ensures { MatchOption result ((rest : Option (List ℕ)) → line.now ≡ joined [] rest → ⊥) (λ rest. line.now ≡ joined [] (option_copied rest)) }
{
    match line {
        [] => Some(None),
        [b' ', rest @ ..] => Some(Some(rest)),
        _ => None,
    }
}

/// The place of the first space, if there is one.
fn first_space(bytes: &[u8]) -> Option<usize>
    ensures { result ≡ position (λ byte. byte == SPACE) bytes.now }
{
    bytes.iter().position(|byte| *byte == SPACE)
}

/// The number that a token writes, if it has `digits` hex digits.
fn number(token: &[u8], digits: usize) -> Option<u64>
    requires { digits ≤ 16 }
    ensures form { IsSome result ↔ IsHex digits token.now }
    ensures value { IfSome result (λ n. n ≡ digits_value RADIX token.now) }
    ensures bound { IfSome result (λ n. n < 16 ^ digits) }
{
    if token.len() != digits {
        return None;
    }
    read_digits(token)
}

/// A byte: two hex digits.
pub fn byte(token: &[u8]) -> Option<u8>
    ensures form { IsSome result ↔ IsHex BYTE_DIGITS token.now }
    ensures value { IfSome result (λ b. b ≡ digits_value RADIX token.now) }
{
    match token {
        [high, low] => read_byte(*high, *low),
        _ => None,
    }
}

/// A 7-bit address: two hex digits. One above `7F` has no form.
pub fn address(token: &[u8]) -> Option<Addr7>
    ensures form { IsSome result ↔ (IsHex BYTE_DIGITS token.now × (digits_value RADIX token.now < 128)) }
    ensures value { IfSome result (λ a. a ≡ digits_value RADIX token.now) }
{
    let number = byte(token)?;
    Addr7::new(number).ok()
}

/// Whether a token is of decimal digits alone.
pub(crate) fn is_decimal(token: &[u8]) -> bool
    ensures { IsTrue result ↔ All IsDecimalDigit token.now }
{
    token.iter().all(|byte| matches!(*byte, b'0'..=b'9'))
}

/// A number of 64 bits in decimal digits. Zeros may lead them, and a sign may not.
fn decimal(token: &[u8]) -> Option<u64>
    ensures form { IsSome result ↔ (IsDecimal token.now × (digits_value DECIMAL_RADIX token.now < 2 ^ 64)) }
    ensures value { IfSome result (λ n. n ≡ digits_value DECIMAL_RADIX token.now) }
{
    if token.is_empty() || !is_decimal(token) {
        return None;
    }
    let Ok(text) = str::from_utf8(token) else {
        unreachable!();
    };
    u64::from_str_radix(text, DECIMAL_RADIX).ok()
}

/// A bit of a frame: decimal digits, up to 65535.
pub fn bit(token: &[u8]) -> Option<u16>
    ensures form { IsSome result ↔ (IsDecimal token.now × (digits_value DECIMAL_RADIX token.now < 2 ^ 16)) }
    ensures value { IfSome result (λ b. b ≡ digits_value DECIMAL_RADIX token.now) }
{
    let number = decimal(token)?;
    if number > u64::from(u16::MAX) {
        return None;
    }
    Some(number as u16)
}

/// The number of a record, from 1 on.
pub(crate) fn place(token: &[u8]) -> Option<u64>
    ensures form { IsSome result ↔ (IsDecimal token.now × (digits_value DECIMAL_RADIX token.now < 2 ^ 64) × (0 < digits_value DECIMAL_RADIX token.now)) }
    ensures value { IfSome result (λ n. n ≡ digits_value DECIMAL_RADIX token.now) }
{
    match decimal(token)? {
        0 => None,
        place => Some(place),
    }
}

/// A count: decimal digits, 1 to 65535, read as a bit is.
pub(crate) fn count(token: &[u8]) -> Option<u16>
    ensures form { IsSome result ↔ (IsDecimal token.now × (digits_value DECIMAL_RADIX token.now < 2 ^ 16) × (0 < digits_value DECIMAL_RADIX token.now)) }
    ensures value { IfSome result (λ n. n ≡ digits_value DECIMAL_RADIX token.now) }
{
    match bit(token)? {
        0 => None,
        count => Some(count),
    }
}

/// A maximum length: decimal digits, 1 to 16, read as a bit is.
pub(crate) fn length(token: &[u8]) -> Option<Length>
    ensures form { IsSome result ↔ (IsDecimal token.now × (digits_value DECIMAL_RADIX token.now < 2 ^ 16) × (0 < digits_value DECIMAL_RADIX token.now) × (digits_value DECIMAL_RADIX token.now ≤ 16)) }
    ensures value { IfSome result (λ n. n ≡ digits_value DECIMAL_RADIX token.now) }
{
    let number = bit(token)?;
    if number > 16 {
        return None;
    }
    Length::new(number as u8).ok()
}

/// Kinds of events: two hex digits. Bit 0 names interrupts, bit 1 role requests and bit 3 Hot-Join; other bits are
/// dropped.
pub(crate) fn kinds(token: &[u8]) -> Option<Kinds>
    ensures form { IsSome result ↔ IsHex BYTE_DIGITS token.now }
    ensures value { IfSome result (λ kinds. kinds.0 ≡ bit_and (digits_value RADIX token.now) KNOWN_KINDS) }
{
    let byte = byte(token)?;
    Some(Kinds::from_bits_retain(byte & KNOWN_KINDS))
}

/// A provisioned ID: twelve hex digits.
pub(crate) fn pid(token: &[u8]) -> Option<Pid>
    ensures form { IsSome result ↔ IsHex PID_DIGITS token.now }
    ensures value { IfSome result (λ p. p ≡ digits_value RADIX token.now) }
{
    let number = number(token, PID_DIGITS)?;
    Pid::new(number).ok()
}

/// The bytes of a write: two hex digits for each. Of more than are kept the first ones are given.
pub fn bytes(token: &[u8]) -> Option<ArrayVec<u8, WRITE_KEPT>>
    ensures form { IsSome result ↔ AreBytes token.now }
    ensures value { IfSome result (λ bytes. bytes.items ≡ take WRITE_KEPT (pair_values token.now)) }
{
    let mut bytes = ArrayVec::new();
    push_pairs(token, &mut bytes)?;
    Some(bytes)
}

/// Decodes pairs of hex digits, and appends their bytes while there is room. Further pairs are only checked.
fn push_pairs(digits: &[u8], bytes: &mut ArrayVec<u8, WRITE_KEPT>) -> Option<()>
    ensures form { IsSome result ↔ AreBytes digits.now }
    ensures value { IfSome result (λ _. bytes.new.items ≡ bytes.old.items ++ take (WRITE_KEPT - length bytes.old.items) (pair_values digits.now)) }
{
    let Some((high, rest)) = digits.split_first() else {
        return Some(());
    };
    let (low, rest) = rest.split_first()?;
    let byte = read_byte(*high, *low)?;
    if bytes.is_full() {
        return check_pairs(rest);
    }
    bytes.push(byte);
    push_pairs(rest, bytes)
}

/// Checks that these are pairs of hex digits, and stores nothing.
#[cold]
#[inline(never)]
fn check_pairs(digits: &[u8]) -> Option<()>
    ensures { IsSome result ↔ AreBytes digits.now }
{
    let Some((high, rest)) = digits.split_first() else {
        return Some(());
    };
    let (low, rest) = rest.split_first()?;
    digit(*high)?;
    digit(*low)?;
    check_pairs(rest)
}
