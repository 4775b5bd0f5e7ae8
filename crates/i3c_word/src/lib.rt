//! Words on an I3C bus: eight bits and a T bit of odd parity, and address bytes with a parity bit of their own.
#![tactic(auto)]

ghost use Rattle.std.specs.Prelude.{◌≡◌, ◌/◌, ◌%◌, ◌↔◌, IsOk, IfOk, IsTrue, count_ones};
ghost use Rattle.i3c_word.specs.Parity.{HasOddParity, IsAddressByte};

use i3c_base::Addr7;
use thiserror::Error;

/// How many bits a word has on the lines: eight, and its ninth (I3C Basic 5.1.2.3).
pub const WORD_BITS: u16 = 9;

/// How many bits a header has: seven of its address, the direction, and its acknowledgement (I3C Basic 5.1.2.2).
pub const HEADER_BITS: u16 = 9;

/// A written word: eight bits, and the T bit that follows them (I3C Basic 5.1.2.3).
#[derive(Clone, Copy, Debug, PartialEq, Eq, Default)]
pub struct Word {
    /// The eight bits.
    pub byte: u8,
    /// The ninth.
    pub t: bool,
}

/// The parity bit of a word or an address byte is wrong.
#[derive(Clone, Copy, Debug, PartialEq, Eq, Drop, Error)]
#[error("wrong parity")]
pub struct Parity;

/// The word that is written for a byte: its T bit makes the number of ones odd (I3C Basic 5.1.2.3).
pub fn write_word(byte: u8) -> Word
    ensures byte { result.byte ≡ byte }
    ensures odd { HasOddParity result }
{
    Word {
        byte,
        t: is_even(byte),
    }
}

/// The byte of a written word, or `Parity` where its T bit is wrong.
pub fn read_word(word: Word) -> Result<u8, Parity>
    ensures ok { IsOk result ↔ HasOddParity word }
    ensures byte { IfOk result (λ byte. byte ≡ word.byte) }
{
    if word.t == is_even(word.byte) {
        Ok(word.byte)
    } else {
        Err(Parity)
    }
}

/// The T bit after a word that is read from a target: 1 where more follow, 0 where the data ends
/// (I3C Basic 5.1.2.3).
pub fn end_bit(more: bool) -> bool
    ensures { result ≡ more }
{
    more
}

/// The byte that is sent for an address: the address in bits 7:1, and in bit 0 the odd parity of its seven bits
/// (I3C Basic 5.1.4.2).
pub fn address_byte(address: Addr7) -> u8
    ensures { IsAddressByte address result }
{
    let bits = address.get();
    2 * bits + is_even(bits) as u8
}

/// The address in an address byte, or `Parity` where bit 0 is wrong.
pub fn read_address_byte(byte: u8) -> Result<Addr7, Parity>
    ensures ok { IsOk result ↔ IsAddressByte (byte / 2) byte }
    ensures address { IfOk result (λ address. address ≡ byte / 2) }
{
    let Ok(address) = Addr7::new(byte / 2) else {
        return Err(Parity);
    };
    if address_byte(address) == byte {
        Ok(address)
    } else {
        Err(Parity)
    }
}

// Whether the ones of a byte are even in number.
fn is_even(byte: u8) -> bool
    ensures { IsTrue result ↔ (count_ones byte % 2 ≡ 0) }
{
    byte.count_ones() % 2 == 0
}
