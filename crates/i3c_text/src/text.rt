use crate::numerals::{push_byte, push_bytes, push_decimal, push_hex, push_numbered, push_pid};
use i3c_base::Pid;
use std::alloc::{AllocError, Global};
use std::fmt;
use std::marker::Model;

/// What a line prints. Clauses see its bytes.
#[derive(Drop)]
pub struct Text {
    bytes: Vec<u8>,
}

impl Model for Text {
    ghost use Rattle.std.specs.Prelude.{ℕ, List};

    ghost Value = { List ℕ };

    ghost view = { λ text. text.bytes.items };
}

impl Text {
    ghost use Rattle.std.specs.Prelude.{◌≡◌, [], ◌∷◌, ◌++◌, OnErr, OnOk};
    ghost use Rattle.std.specs.Fmt.{decimal};
    ghost use Rattle.i3c_text.specs.Hex.{byte_text, bytes_text, hex_text};

    /// Nothing yet.
    pub fn new(alloc: Global) -> Text
        ensures { result ≡ [] }
    {
        Text {
            bytes: Vec::new(alloc),
        }
    }

    /// Nothing again.
    pub fn clear(&mut self)
        ensures { self.new ≡ [] }
    {
        self.bytes.clear();
    }

    /// The bytes of the text.
    pub fn as_bytes(&self) -> &[u8]
        ensures { result.now ≡ self.now }
    {
        self.bytes.as_slice()
    }

    /// Appends some text. For want of memory it appends nothing.
    pub fn push(&mut self, text: &[u8]) -> Result<(), AllocError>
        ensures appended { OnOk result (self.new ≡ self.old ++ text.now) }
        ensures unchanged { OnErr result (self.new ≡ self.old) }
    {
        self.bytes.extend_from_slice(text)
    }

    /// Appends a number, in decimal digits.
    pub fn push_decimal(&mut self, number: u64) -> Result<(), AllocError>
        ensures { OnOk result (self.new ≡ self.old ++ decimal number) }
    {
        push_decimal(&mut self.bytes, number)
    }

    /// Appends a prefix and a number in decimal digits, and ends the line.
    #[inline(always)]
    pub fn push_numbered(&mut self, prefix: &[u8], number: u64) -> Result<(), AllocError>
        ensures { OnOk result (self.new ≡ self.old ++ (prefix.now ++ (decimal number ++ 10 ∷ []))) }
    {
        push_numbered(&mut self.bytes, prefix, number)
    }

    /// Appends a byte, in two hex digits.
    pub fn push_byte(&mut self, byte: u8) -> Result<(), AllocError>
        ensures { OnOk result (self.new ≡ self.old ++ byte_text byte) }
    {
        push_byte(&mut self.bytes, byte)
    }

    /// Appends bytes, each in two hex digits.
    pub fn push_bytes(&mut self, bytes: &[u8]) -> Result<(), AllocError>
        ensures { OnOk result (self.new ≡ self.old ++ bytes_text bytes.now) }
    {
        push_bytes(&mut self.bytes, bytes)
    }

    /// Appends a number, in sixteen hex digits.
    pub fn push_hex(&mut self, number: u64) -> Result<(), AllocError>
        ensures { OnOk result (self.new ≡ self.old ++ hex_text 16 number) }
    {
        push_hex(&mut self.bytes, number)
    }

    /// Appends a provisioned ID, in twelve hex digits.
    #[inline(always)]
    pub fn push_pid(&mut self, pid: Pid) -> Result<(), AllocError>
        ensures { OnOk result (self.new ≡ self.old ++ hex_text 12 pid) }
    {
        push_pid(&mut self.bytes, pid)
    }

    /// Ends the line.
    pub fn end(&mut self) -> Result<(), AllocError>
        ensures { OnOk result (self.new ≡ self.old ++ 10 ∷ []) }
    {
        match self.bytes.push(b'\n') {
            Ok(()) => Ok(()),
            Err(_) => Err(AllocError),
        }
    }
}

// Its one error is want of memory.
impl fmt::Write for Text {
    ghost use Rattle.std.specs.Prelude.{◌≡◌, ◌++◌};

    ghost write_str_gives = { λ text bytes new. new ≡ text ++ bytes };

    fn write_str(&mut self, s: &str) -> fmt::Result {
        match self.push(s.as_bytes()) {
            Ok(()) => Ok(()),
            Err(_) => Err(fmt::Error),
        }
    }
}
