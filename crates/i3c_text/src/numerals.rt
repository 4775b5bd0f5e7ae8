ghost use Rattle.std.specs.Prelude.{◌≡◌, ◌+◌, ◌*◌, ◌/◌, ◌%◌, ◌<◌, ◌≤◌, ◌++◌, ◌∷◌, [], length, true, vec_capacity, vec_len, OnOk};
ghost use Rattle.std.specs.Fmt.{decimal, digit_glyph};
ghost use Rattle.i3c_text.specs.Hex.{byte_text, bytes_text, hex_text};

use i3c_base::Pid;
use itoa::Buffer;
use std::alloc::AllocError;

/// The two hex digits of each byte, one byte after another.
static PAIRS: [u8; 512] = *b"000102030405060708090A0B0C0D0E0F101112131415161718191A1B1C1D1E1F\
    202122232425262728292A2B2C2D2E2F303132333435363738393A3B3C3D3E3F\
    404142434445464748494A4B4C4D4E4F505152535455565758595A5B5C5D5E5F\
    606162636465666768696A6B6C6D6E6F707172737475767778797A7B7C7D7E7F\
    808182838485868788898A8B8C8D8E8F909192939495969798999A9B9C9D9E9F\
    A0A1A2A3A4A5A6A7A8A9AAABACADAEAFB0B1B2B3B4B5B6B7B8B9BABBBCBDBEBF\
    C0C1C2C3C4C5C6C7C8C9CACBCCCDCECFD0D1D2D3D4D5D6D7D8D9DADBDCDDDEDF\
    E0E1E2E3E4E5E6E7E8E9EAEBECEDEEEFF0F1F2F3F4F5F6F7F8F9FAFBFCFDFEFF";

/// The two decimal digits of each number below 100, one number after another.
static TENS: [u8; 200] = *b"0001020304050607080910111213141516171819202122232425262728293031\
    3233343536373839404142434445464748495051525354555657585960616263\
    6465666768697071727374757677787980818283848586878889909192939495\
    96979899";

/// How many hex digits a provisioned ID has.
pub const PID_DIGITS: usize = 12;

/// How many hex digits a number has, with the zeros that lead it.
const MOST_DIGITS: usize = 16;

/// Numbers below this have at most four digits.
const FIVE_DIGITS: u32 = 10_000;

/// Numbers below this have at most six digits.
const SEVEN_DIGITS: u64 = 1_000_000;

/// How many places at most six digits take.
const SIX_PLACES: usize = 6;

/// How many places at most six digits and a line's end take.
const ENDED_PLACES: usize = SIX_PLACES + 1;

/// Appends a number to a text, in decimal digits.
pub(crate) fn push_decimal(text: &mut Vec<u8>, number: u64) -> Result<(), AllocError>
    ensures { OnOk result (text.new.items ≡ text.old.items ++ decimal number) }
{
    let room = text.capacity() - text.len();
    if number >= SEVEN_DIGITS || room < SIX_PLACES {
        return push_longer(text, number);
    }
    push_six(text, number as u32);
    Ok(())
}

/// Appends a prefix and a number in decimal digits to a text, and ends the line.
// where the prefix is known, appending it takes two or three writes
#[inline(always)]
pub(crate) fn push_numbered(
    text: &mut Vec<u8>,
    prefix: &[u8],
    number: u64,
) -> Result<(), AllocError>
    ensures { OnOk result (text.new.items ≡ text.old.items ++ (prefix.now ++ (decimal number ++ 10 ∷ []))) }
{
    let room = text.capacity() - text.len();
    if number >= SEVEN_DIGITS || room < prefix.len().saturating_add(ENDED_PLACES) {
        return push_longer_numbered(text, prefix, number);
    }
    text.extend_from_slice(prefix)?;
    push_ended(text, number as u32);
    Ok(())
}

/// Appends a number of any length, in decimal digits.
// kept apart, so that a short number doesn't pay for the room that the digits of a long one take on the stack
#[cold]
#[inline(never)]
fn push_longer(text: &mut Vec<u8>, number: u64) -> Result<(), AllocError>
    ensures { OnOk result (text.new.items ≡ text.old.items ++ decimal number) }
{
    let mut buffer = Buffer::new();
    text.extend_from_slice(buffer.format(number).as_bytes())
}

/// Appends a prefix and a number of any length, and ends the line.
// kept apart with its calls, so that a short number for which there is room pays for none
#[cold]
#[inline(never)]
fn push_longer_numbered(text: &mut Vec<u8>, prefix: &[u8], number: u64) -> Result<(), AllocError>
    ensures { OnOk result (text.new.items ≡ text.old.items ++ (prefix.now ++ (decimal number ++ 10 ∷ []))) }
{
    text.extend_from_slice(prefix)?;
    push_longer(text, number)?;
    text.extend_from_slice(b"\n")
}

/// Appends at most six decimal digits and the line's end, for which there is room.
#[inline(always)]
fn push_ended(text: &mut Vec<u8>, number: u32)
    requires short { number < SEVEN_DIGITS }
    requires room { vec_len text.old + ENDED_PLACES ≤ vec_capacity text.old }
    ensures { text.new.items ≡ text.old.items ++ (decimal number ++ 10 ∷ []) }
{
    push_six(text, number);
    text.push_reserved(b'\n');
}

/// Appends at most six decimal digits, for which there is room.
#[inline(always)]
fn push_six(text: &mut Vec<u8>, number: u32)
    requires short { number < SEVEN_DIGITS }
    requires room { vec_len text.old + SIX_PLACES ≤ vec_capacity text.old }
    ensures digits { text.new.items ≡ text.old.items ++ decimal number }
    ensures len { vec_len text.new ≤ vec_len text.old + SIX_PLACES }
    ensures capacity { vec_capacity text.new ≡ vec_capacity text.old }
{
    if number < FIVE_DIGITS {
        push_four(text, number);
        return;
    }
    let hundreds = number / 100;
    push_two(text, hundreds / 100);
    push_pair(text, hundreds % 100);
    push_pair(text, number % 100);
}

/// Appends at most four decimal digits, for which there is room.
fn push_four(text: &mut Vec<u8>, number: u32)
    requires short { number < FIVE_DIGITS }
    requires room { vec_len text.old + 4 ≤ vec_capacity text.old }
    ensures digits { text.new.items ≡ text.old.items ++ decimal number }
    ensures len { vec_len text.new ≤ vec_len text.old + 4 }
    ensures capacity { vec_capacity text.new ≡ vec_capacity text.old }
{
    if number < 100 {
        push_two(text, number);
        return;
    }
    push_two(text, number / 100);
    push_pair(text, number % 100);
}

/// Appends one or two, for which there is room.
fn push_two(text: &mut Vec<u8>, number: u32)
    requires short { number < 100 }
    requires room { vec_len text.old + 2 ≤ vec_capacity text.old }
    ensures digits { text.new.items ≡ text.old.items ++ decimal number }
    ensures len { vec_len text.new ≤ vec_len text.old + 2 }
    ensures capacity { vec_capacity text.new ≡ vec_capacity text.old }
{
    if number < 10 {
        text.push_reserved(b'0' + number as u8);
        return;
    }
    push_pair(text, number);
}

/// Appends two digits, a zero before a number that has but one.
fn push_pair(text: &mut Vec<u8>, number: u32)
    requires short { number < 100 }
    requires room { vec_len text.old + 2 ≤ vec_capacity text.old }
    ensures digits { text.new.items ≡ text.old.items ++ (48 + number / 10) ∷ (48 + number % 10) ∷ [] }
    ensures len { vec_len text.new ≡ vec_len text.old + 2 }
    ensures capacity { vec_capacity text.new ≡ vec_capacity text.old }
{
    let place = 2 * number as usize;
    text.push_reserved(TENS[place]);
    text.push_reserved(TENS[place + 1]);
}

/// Appends a byte to a text, in two hex digits.
pub(crate) fn push_byte(text: &mut Vec<u8>, byte: u8) -> Result<(), AllocError>
    ensures { OnOk result (text.new.items ≡ text.old.items ++ byte_text byte) }
{
    text.extend_from_slice(&[high_digit(byte), low_digit(byte)])
}

/// Appends bytes to a text, each in two hex digits.
pub(crate) fn push_bytes(text: &mut Vec<u8>, bytes: &[u8]) -> Result<(), AllocError>
    ensures { OnOk result (text.new.items ≡ text.old.items ++ bytes_text bytes.now) }
{
    let start = text.len();
    let more = 2 * bytes.len();
    text.reserve(more)?;
    text.resize(start + more, 0)?;
    write_pairs(&mut text[start..], bytes);
    Ok(())
}

/// Writes bytes into these places, each in two hex digits.
fn write_pairs(places: &mut [u8], bytes: &[u8])
    requires { length places.old ≡ 2 * length bytes.now }
    ensures { places.new ≡ bytes_text bytes.now }
{
    for (index, byte) in bytes.iter().enumerate() {
        let high = high_digit(*byte);
        let low = low_digit(*byte);
        places[2 * index] = high;
        places[2 * index + 1] = low;
    }
}

/// The first hex digit of a byte.
#[tactic(auto, using(crate::proofs::HexTexts::high_at))]
fn high_digit(byte: u8) -> u8
    ensures { result ≡ digit_glyph true (byte / 16) }
{
    PAIRS[2 * usize::from(byte)]
}

/// The second hex digit of a byte.
#[tactic(auto, using(crate::proofs::HexTexts::low_at))]
fn low_digit(byte: u8) -> u8
    ensures { result ≡ digit_glyph true (byte % 16) }
{
    PAIRS[2 * usize::from(byte) + 1]
}

/// Appends a number to a text, in hex digits, with the zeros that lead it.
pub(crate) fn push_hex(text: &mut Vec<u8>, number: u64) -> Result<(), AllocError>
    ensures { OnOk result (text.new.items ≡ text.old.items ++ hex_text MOST_DIGITS number) }
{
    text.extend_from_slice(&hex_digits(number))
}

/// Appends a provisioned ID to a text, in hex digits, with the zeros that lead it.
pub(crate) fn push_pid(text: &mut Vec<u8>, pid: Pid) -> Result<(), AllocError>
    ensures { OnOk result (text.new.items ≡ text.old.items ++ hex_text PID_DIGITS pid) }
{
    let digits = hex_digits(pid.get());
    text.extend_from_slice(&digits[MOST_DIGITS - PID_DIGITS..])
}

/// The hex digits of a number, with the zeros that lead it.
fn hex_digits(number: u64) -> [u8; MOST_DIGITS]
    ensures { result ≡ hex_text MOST_DIGITS number }
{
    let mut digits = [0; MOST_DIGITS];
    write_pairs(&mut digits, &number.to_be_bytes());
    digits
}
