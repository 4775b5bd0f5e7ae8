ghost use Rattle.std.specs.Prelude.{◌≡◌, ◌≤◌, IfSome};
ghost use Rattle.i3c_device.specs.Hearing.{dynamic_address, named_address, named_length};

use i3c_base::{Addr7, Length};
use i3c_word::Word;

/// The first address that a dynamic one may be.
const FIRST_DYNAMIC: u8 = 0x08;

/// The dynamic address that a command's first word names, in bits 7:1 (I3C Basic 5.1.9.3.10, 5.1.9.3.11). None is below
/// `08`.
pub(crate) fn named_address(words: &[Word]) -> Option<Addr7>
    ensures named { result ≡ named_address words.now }
    ensures dynamic { IfSome result (λ a. 8 ≤ a) }
{
    let word = *words.first()?;
    dynamic_address(word.byte)
}

/// The dynamic address in bits 7:1 of a byte. None is below `08`.
fn dynamic_address(byte: u8) -> Option<Addr7>
    ensures named { result ≡ dynamic_address byte }
    ensures dynamic { IfSome result (λ a. 8 ≤ a) }
{
    match Addr7::new(byte / 2) {
        Ok(address) if FIRST_DYNAMIC <= address.get() => Some(address),
        _ => None,
    }
}

/// The length that a command's first two words name, the more significant byte first (I3C Basic 5.1.9.3.5, 5.1.9.3.6).
/// None is 0 or over 16.
pub(crate) fn named_length(words: &[Word]) -> Option<Length>
    ensures { result ≡ named_length words.now }
{
    let [upper, lower, ..] = words else {
        return None;
    };
    if upper.byte != 0 {
        return None;
    }
    match Length::new(lower.byte) {
        Ok(length) => Some(length),
        Err(_) => None,
    }
}
