ghost use Rattle.std.specs.Prelude.{◌≡◌, ◌≤◌, [], bytes_eq, length, nat_lt, position};
ghost use Rattle.i3c_wave.specs.DumpWords.{bit_in, code_of, command_of, declaring_of, digit_more, digit_value, digits_in, extended, from_coded, lead_of, number_from, number_of, values_of};

use crate::capture::Value;

/// Ten times this and nine is a time.
const MOST_LED: u64 = 1_000_000_000_000_000_000;

/// The number of digits of numbers that fit.
const FITTING: usize = 19;

/// The codes of the first digit and the last.
const ZERO: u64 = b'0' as u64;

const NINE: u64 = b'9' as u64;

/// What stands for no number: more than any of nineteen digits.
const NO_NUMBER: u64 = u64::MAX;

/// What a dump calls a signal by: one to four characters, and zeros behind them.
#[derive(Clone, Copy, PartialEq, Eq)]
pub(crate) struct Code {
    first: u8,
    second: u8,
    third: u8,
    fourth: u8,
}

/// A word that begins a command.
#[derive(Clone, Copy)]
pub(crate) enum Command {
    /// `$end`: the command ends.
    End,
    /// `$timescale`.
    Timescale,
    /// `$var`: a signal.
    Var,
    /// `$scope`: a scope, with the signals behind it.
    Scope,
    /// `$upscope`: it ends.
    UpScope,
    /// `$enddefinitions`: there are no more signals.
    EndDefinitions,
    /// `$dumpvars`, `$dumpall`, `$dumpon` or `$dumpoff`: values follow.
    Values,
    /// Another, which is passed over to its `$end`.
    Other,
}

/// The command of a word that begins with a dollar sign.
pub(crate) fn command_of(word: &[u8]) -> Command
    ensures { result ≡ command_of word.now }
{
    if is_word(word, b"$end") {
        Command::End
    } else if is_word(word, b"$timescale") {
        Command::Timescale
    } else if is_word(word, b"$var") {
        Command::Var
    } else {
        declaring_of(word)
    }
}

/// The command of a word that is none of those before, but may declare.
fn declaring_of(word: &[u8]) -> Command
    ensures { result ≡ declaring_of word.now }
{
    if is_word(word, b"$scope") {
        Command::Scope
    } else if is_word(word, b"$upscope") {
        Command::UpScope
    } else if is_word(word, b"$enddefinitions") {
        Command::EndDefinitions
    } else {
        values_of(word)
    }
}

/// The command of a word that is none of those before.
fn values_of(word: &[u8]) -> Command
    ensures { result ≡ values_of word.now }
{
    if is_word(word, b"$dumpvars") || is_word(word, b"$dumpall") {
        Command::Values
    } else if is_word(word, b"$dumpon") || is_word(word, b"$dumpoff") {
        Command::Values
    } else {
        Command::Other
    }
}

/// Whether a word is this one.
pub(crate) fn is_word(word: &[u8], other: &[u8]) -> bool
    ensures { result ≡ bytes_eq word.now other.now }
{
    word == other
}

/// The code of a word, if it has one to four bytes.
pub(crate) fn code_of(word: &[u8]) -> Option<Code>
    ensures { result ≡ code_of word.now }
{
    match word {
        [first] => Some(four_bytes(*first, 0, 0, 0)),
        [first, second] => Some(four_bytes(*first, *second, 0, 0)),
        [first, second, third] => Some(four_bytes(*first, *second, *third, 0)),
        [first, second, third, fourth] => Some(four_bytes(*first, *second, *third, *fourth)),
        _ => None,
    }
}

/// The code of four bytes.
fn four_bytes(first: u8, second: u8, third: u8, fourth: u8) -> Code
    ensures { result ≡ record { first = first; second = second; third = third; fourth = fourth } }
{
    Code {
        first,
        second,
        third,
        fourth,
    }
}

impl Code {
    ghost use Rattle.std.specs.Prelude.{◌≡◌};
    ghost use Rattle.i3c_wave.specs.DumpWords.{is_same_code};

    /// Whether it is this one.
    pub fn is(self, other: Code) -> bool
        ensures { result ≡ is_same_code self other }
    {
        self.first == other.first
            && self.second == other.second
            && self.third == other.third
            && self.fourth == other.fourth
    }
}

/// The number of decimal digits, if they are digits, and it fits. Nineteen digits fit.
pub(crate) fn number_of(digits: &[u8]) -> Option<u64>
    ensures { result ≡ number_of digits.now }
{
    if digits.is_empty() {
        return None;
    }
    if digits.len() > FITTING {
        return long_number(digits);
    }
    let number = short_number(digits);
    if number == NO_NUMBER {
        None
    } else {
        Some(number)
    }
}

/// The number that digits write, if there are nineteen at most.
fn short_number(digits: &[u8]) -> u64
    requires { length digits.now ≤ 19 }
    ensures { from_coded result [] ≡ number_from 0 digits.now }
{
    let mut number = 0;
    for digit in digits {
        let code = u64::from(*digit);
        if code < ZERO || code > NINE {
            return NO_NUMBER;
        }
        number = number * 10 + (code - ZERO);
    }
    number
}

/// The number of many decimal digits.
#[inline(never)]
fn long_number(digits: &[u8]) -> Option<u64>
    ensures { result ≡ number_from 0 digits.now }
{
    let mut number = 0;
    for digit in digits {
        number = digit_more(number, *digit)?;
    }
    Some(number)
}

/// A number with one more digit, if it is one, and fits.
fn digit_more(number: u64, digit: u8) -> Option<u64>
    ensures { result ≡ digit_more number digit }
{
    if digit < b'0' || digit > b'9' || number > MOST_LED {
        return None;
    }
    Some(number * 10 + u64::from(digit - b'0'))
}

/// The number of bytes of a word before its first letter.
pub(crate) fn digits_in(word: &[u8]) -> usize
    ensures { result ≡ digits_in word.now }
{
    first_letter(word).unwrap_or(word.len())
}

/// The place of the first byte beyond digits, if there is one.
fn first_letter(word: &[u8]) -> Option<usize>
    ensures { result ≡ position (λ byte. nat_lt 57 byte) word.now }
{
    word.iter().position(|byte| *byte > b'9')
}

/// What a word between commands begins with.
#[derive(Clone, Copy)]
pub(crate) enum Lead {
    /// `$`: a command.
    Command,
    /// `#`: a time.
    Time,
    /// `0`, `1`: a level of a signal.
    Low,
    High,
    /// `x` or `z`: a signal has no level.
    NoLevel,
    /// `b`: a vector, behind which the code of its signal follows.
    Vector,
    /// `r` or `s`: a number or a text, behind which the same follows.
    Number,
    /// Any other word.
    Other,
}

/// What a word begins with.
pub(crate) fn lead_of(first: u8) -> Lead
    ensures { result ≡ lead_of first }
{
    match first {
        b'$' => Lead::Command,
        b'#' => Lead::Time,
        b'0' => Lead::Low,
        b'1' => Lead::High,
        b'x' | b'X' | b'z' | b'Z' => Lead::NoLevel,
        b'b' | b'B' => Lead::Vector,
        b'r' | b'R' | b's' | b'S' => Lead::Number,
        _ => Lead::Other,
    }
}

/// The value of a vector's bit, counted from the last. A bit that isn't written is that of the first digit, if this has no
/// level, and otherwise low.
pub(crate) fn bit_in(digits: &[u8], bit: u64) -> Value
    ensures { result ≡ bit_in digits.now bit }
{
    let [first, ..] = digits else {
        return Value::Unknown;
    };
    let last = digits.len() as u64 - 1;
    if bit > last {
        return extended(value_of(*first));
    }
    match digits.get((last - bit) as usize) {
        Some(digit) => value_of(*digit),
        None => Value::Unknown,
    }
}

/// The value of a digit.
fn value_of(digit: u8) -> Value
    ensures { result ≡ digit_value digit }
{
    match digit {
        b'0' => Value::Low,
        b'1' => Value::High,
        _ => Value::Unknown,
    }
}

/// The value of the digits that may be left out before one.
fn extended(value: Value) -> Value
    ensures { result ≡ extended value }
{
    match value {
        Value::Unknown => Value::Unknown,
        Value::Low | Value::High => Value::Low,
    }
}
