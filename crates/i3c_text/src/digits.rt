ghost use Rattle.std.specs.Prelude.{true, ◌≡◌, ◌<◌, ◌≤◌, ◌^◌, ◌↔◌, ℕ, [], ◌∷◌, All, length, IfSome, IsSome};
ghost use Rattle.std.specs.Char.{digit_value};
ghost use Rattle.std.specs.Fmt.{WritesOnOk, digit_glyph};
ghost use Rattle.std.specs.Str.Parse.{digits_value};
ghost use Rattle.i3c_text.specs.Digits.{IsHexDigit};
ghost use Rattle.i3c_text.specs.Hex.{hex_text};

use std::fmt;

/// More than any hex digit is worth.
const NO_DIGIT: u8 = 16;

/// What each byte is worth as a hex digit. Letters are upper case.
static WORTHS: [u8; 256] = [
    16, 16, 16, 16, 16, 16, 16, 16, 16, 16, 16, 16, 16, 16, 16, 16, 16, 16, 16, 16, 16, 16, 16, 16,
    16, 16, 16, 16, 16, 16, 16, 16, 16, 16, 16, 16, 16, 16, 16, 16, 16, 16, 16, 16, 16, 16, 16, 16,
    0, 1, 2, 3, 4, 5, 6, 7, 8, 9, 16, 16, 16, 16, 16, 16, 16, 10, 11, 12, 13, 14, 15, 16, 16, 16,
    16, 16, 16, 16, 16, 16, 16, 16, 16, 16, 16, 16, 16, 16, 16, 16, 16, 16, 16, 16, 16, 16, 16, 16,
    16, 16, 16, 16, 16, 16, 16, 16, 16, 16, 16, 16, 16, 16, 16, 16, 16, 16, 16, 16, 16, 16, 16, 16,
    16, 16, 16, 16, 16, 16, 16, 16, 16, 16, 16, 16, 16, 16, 16, 16, 16, 16, 16, 16, 16, 16, 16, 16,
    16, 16, 16, 16, 16, 16, 16, 16, 16, 16, 16, 16, 16, 16, 16, 16, 16, 16, 16, 16, 16, 16, 16, 16,
    16, 16, 16, 16, 16, 16, 16, 16, 16, 16, 16, 16, 16, 16, 16, 16, 16, 16, 16, 16, 16, 16, 16, 16,
    16, 16, 16, 16, 16, 16, 16, 16, 16, 16, 16, 16, 16, 16, 16, 16, 16, 16, 16, 16, 16, 16, 16, 16,
    16, 16, 16, 16, 16, 16, 16, 16, 16, 16, 16, 16, 16, 16, 16, 16, 16, 16, 16, 16, 16, 16, 16, 16,
    16, 16, 16, 16, 16, 16, 16, 16, 16, 16, 16, 16, 16, 16,
];

/// Writes the last `count` hex digits of a number. Letters are upper case.
pub fn write_digits<W: fmt::Write>(
    f: &mut fmt::Formatter<W>,
    number: u64,
    count: usize,
) -> fmt::Result
    ensures { WritesOnOk W.write_str_gives f.old result (hex_text count number) f.new }
{
    if count > 0 {
        write_digits(f, number / 16, count - 1)?;
        write_digit(f, (number % 16) as u8)?;
    }
    Ok(())
}

/// Writes a digit, in upper case.
fn write_digit<W: fmt::Write>(f: &mut fmt::Formatter<W>, value: u8) -> fmt::Result
    requires { value < 16 }
    ensures { WritesOnOk W.write_str_gives f.old result (digit_glyph true value ∷ []) f.new }
{
    let digit = if value < 10 {
        b'0' + value
    } else {
        b'A' + (value - 10)
    };
    f.write_char(char::from(digit))
}

/// The value of a hex digit. Letters are upper case.
pub fn digit(byte: u8) -> Option<u8>
    ensures form { IsSome result ↔ IsHexDigit byte }
    ensures value { IfSome result (λ value. (value ≡ digit_value byte) × (value < 16)) }
    ensures glyph { IfSome result (λ value. digit_glyph true value ≡ byte) }
{
    let worth = WORTHS[usize::from(byte)];
    if worth < NO_DIGIT { Some(worth) } else { None }
}

/// The number of at most 16 hex digits, if they are digits.
pub fn read_digits(digits: &[u8]) -> Option<u64>
    requires { length digits.now ≤ 16 }
    ensures form { IsSome result ↔ All IsHexDigit digits.now }
    ensures value { IfSome result (λ n. n ≡ digits_value 16 digits.now) }
    ensures range { IfSome result (λ n. n < 16 ^ length digits.now) }
    ensures text { IfSome result (λ n. hex_text (length digits.now) n ≡ digits.now) }
    ensures every { (n : ℕ) → hex_text (length digits.now) n ≡ digits.now → IsSome result }
{
    let mut number = 0;
    for byte in digits {
        number = 16 * number + u64::from(digit(*byte)?);
    }
    Some(number)
}

/// The byte of two hex digits, if they are digits.
#[inline(always)]
pub fn read_byte(high: u8, low: u8) -> Option<u8>
    ensures form { IsSome result ↔ (IsHexDigit high × IsHexDigit low) }
    ensures value { IfSome result (λ byte. byte ≡ digits_value 16 (high ∷ low ∷ [])) }
    ensures text { IfSome result (λ byte. hex_text 2 byte ≡ high ∷ low ∷ []) }
    ensures every { (n : ℕ) → hex_text 2 n ≡ high ∷ low ∷ [] → IsSome result }
{
    Some(16 * digit(high)? + digit(low)?)
}
