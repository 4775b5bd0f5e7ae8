ghost use Rattle.std.specs.Prelude.{◌≡◌, ◌∷◌, ◌++◌, [], OnOk, codes};
ghost use Rattle.i3c_frame.specs.Texts.{answer_text, direction_text};
ghost use Rattle.i3c_text.specs.Hex.{hex_text};

use crate::symbols::{AT_SIGN, EQUALS, Symbol, answer, direction, t_bit};
use i3c_base::Addr7;
use i3c_text::Text;
use std::alloc::AllocError;

impl Symbol {
    ghost use Rattle.std.specs.Prelude.{◌≡◌, ◌++◌, OnOk};
    ghost use Rattle.i3c_frame.specs.Texts.{text_of};

    /// Appends its text, as `Display` writes it.
    ///
    /// # Errors
    ///
    /// There is no memory for it.
    pub fn push(&self, text: &mut Text) -> Result<(), AllocError>
        ensures { OnOk result (text.new ≡ text.old ++ text_of self.now) }
    {
        match *self {
            Symbol::Start => text.push(b"S"),
            Symbol::Repeated => text.push(b"Sr"),
            Symbol::Stop => text.push(b"P"),
            Symbol::Header { address, read, ack } => push_header(address, read, ack, text),
            Symbol::Word(word) => push_behind_byte(word.byte, t_bit(word.t), text),
            Symbol::Identity(bits) => push_identity(bits, text),
            Symbol::AddressByte { byte, ack } => push_address_byte(byte, ack, text),
            Symbol::LegacyWord { byte, ack } => push_behind_byte(byte, answer(ack), text),
        }
    }
}

/// Appends a header: an address, a direction and an answer.
fn push_header(address: Addr7, read: bool, ack: bool, text: &mut Text) -> Result<(), AllocError>
    ensures { OnOk result (text.new ≡ text.old ++ (hex_text 2 address ++ (direction_text read ++ answer_text ack))) }
{
    push_behind_byte(address.get(), direction(read), text)?;
    text.push(answer(ack).as_bytes())
}

/// Appends the bits of an identity: an equals sign and 16 digits.
fn push_identity(bits: u64, text: &mut Text) -> Result<(), AllocError>
    ensures { OnOk result (text.new ≡ text.old ++ (codes "=" ++ hex_text 16 bits)) }
{
    text.push(&[EQUALS])?;
    text.push_hex(bits)
}

/// Appends an address byte of a round, and its answer.
fn push_address_byte(byte: u8, ack: bool, text: &mut Text) -> Result<(), AllocError>
    ensures { OnOk result (text.new ≡ text.old ++ (codes "@" ++ (hex_text 2 byte ++ answer_text ack))) }
{
    text.push(&[AT_SIGN])?;
    push_behind_byte(byte, answer(ack), text)
}

/// Appends a byte, and letters behind it.
fn push_behind_byte(byte: u8, letters: &str, text: &mut Text) -> Result<(), AllocError>
    ensures { OnOk result (text.new ≡ text.old ++ (hex_text 2 byte ++ letters.now)) }
{
    text.push_byte(byte)?;
    text.push(letters.as_bytes())
}
