ghost use Rattle.std.specs.Prelude.{IfOk, ◌≤◌};

use crate::faults::Fault;
use i3c_base::{Addr7, Bcr, Datum, Dcr, Direction, Identity, Length, Pid, Request, Slot};
use i3c_ccc::Code;
use i3c_word::{Word, write_word};
use std::alloc::Global;

/// The PID of an identity for which a line has the BCR alone.
const PID: u64 = 0x0204_0000_0010;

/// Its DCR.
const DCR: u8 = 0x44;

/// The commands that have no byte after them, as lines and as answers have them.
const CODES: [(&str, Code); 44] = [
    ("enec", Code::Enec),
    ("disec", Code::Disec),
    ("rstdaa", Code::Rstdaa),
    ("entdaa", Code::Entdaa),
    ("deftgts", Code::Deftgts),
    ("setmwl", Code::SetLength(Direction::Write)),
    ("setmrl", Code::SetLength(Direction::Read)),
    ("enec-direct", Code::EnecDirect),
    ("disec-direct", Code::DisecDirect),
    ("setdasa", Code::Setdasa),
    ("setnewda", Code::Setnewda),
    ("setmwl-direct", Code::SetLengthDirect(Direction::Write)),
    ("setmrl-direct", Code::SetLengthDirect(Direction::Read)),
    ("getpid", Code::Get(Datum::Pid)),
    ("getbcr", Code::Get(Datum::Bcr)),
    ("getdcr", Code::Get(Datum::Dcr)),
    ("getstatus", Code::Get(Datum::Status)),
    ("getmwl", Code::Get(Datum::WriteLength)),
    ("getmrl", Code::Get(Datum::ReadLength)),
    ("getmxds", Code::Get(Datum::Speed)),
    ("getcaps", Code::Get(Datum::Capabilities)),
    ("getacccr", Code::Getacccr),
    ("Enec", Code::Enec),
    ("Disec", Code::Disec),
    ("Rstdaa", Code::Rstdaa),
    ("Entdaa", Code::Entdaa),
    ("Deftgts", Code::Deftgts),
    ("SetLength(Write)", Code::SetLength(Direction::Write)),
    ("SetLength(Read)", Code::SetLength(Direction::Read)),
    ("EnecDirect", Code::EnecDirect),
    ("DisecDirect", Code::DisecDirect),
    ("Setdasa", Code::Setdasa),
    ("Setnewda", Code::Setnewda),
    (
        "SetLengthDirect(Write)",
        Code::SetLengthDirect(Direction::Write),
    ),
    (
        "SetLengthDirect(Read)",
        Code::SetLengthDirect(Direction::Read),
    ),
    ("Get(Pid)", Code::Get(Datum::Pid)),
    ("Get(Bcr)", Code::Get(Datum::Bcr)),
    ("Get(Dcr)", Code::Get(Datum::Dcr)),
    ("Get(Status)", Code::Get(Datum::Status)),
    ("Get(WriteLength)", Code::Get(Datum::WriteLength)),
    ("Get(ReadLength)", Code::Get(Datum::ReadLength)),
    ("Get(Speed)", Code::Get(Datum::Speed)),
    ("Get(Capabilities)", Code::Get(Datum::Capabilities)),
    ("Getacccr", Code::Getacccr),
];

/// What a target is asked for, as lines have it.
pub(crate) const DATA: [(&str, Datum); 8] = [
    ("pid", Datum::Pid),
    ("bcr", Datum::Bcr),
    ("dcr", Datum::Dcr),
    ("status", Datum::Status),
    ("mwl", Datum::WriteLength),
    ("mrl", Datum::ReadLength),
    ("mxds", Datum::Speed),
    ("caps", Datum::Capabilities),
];

/// Which transfers a maximum length is for, as lines have it.
pub(crate) const WAYS: [(&str, Direction); 2] = [
    ("write", Direction::Write),
    ("read", Direction::Read),
];

/// The bits, as words.
pub(crate) const BITS: [(&str, bool); 2] = [("1", true), ("0", false)];

/// The words of a line, which are parted by exactly one space: those that weren't read yet.
#[derive(Clone, Copy)]
pub(crate) struct Words<'a> {
    rest: Option<&'a str>,
}

impl<'a> Words<'a> {
    /// All words of a line.
    pub fn of(line: &'a str) -> Words<'a> {
        Words { rest: Some(line) }
    }

    /// The next word, if there is one.
    pub fn next(&mut self) -> Option<&'a str> {
        let rest = self.rest?;
        match rest.split_once(' ') {
            Some((word, behind)) => {
                self.rest = Some(behind);
                Some(word)
            }
            None => {
                self.rest = None;
                Some(rest)
            }
        }
    }

    /// Whether all words were read.
    pub fn is_done(&self) -> bool {
        self.rest.is_none()
    }

    /// The next word, which has to be there.
    pub fn word(&mut self) -> Result<&'a str, Fault> {
        self.next().ok_or(Fault::Unknown)
    }

    /// All that follows, spaces too, which has to be there.
    pub fn all(&mut self) -> Result<&'a str, Fault> {
        let rest = self.rest.ok_or(Fault::Unknown)?;
        self.rest = None;
        Ok(rest)
    }

    /// What a table has under the next word.
    pub fn named<T: Copy>(&mut self, table: &[(&str, T)]) -> Result<T, Fault> {
        named(table, self.word()?)
    }

    /// A number, in hex digits.
    pub fn number(&mut self) -> Result<u64, Fault> {
        hex_of(self.word()?)
    }

    /// A byte, in hex digits.
    pub fn byte(&mut self) -> Result<u8, Fault> {
        byte_of(self.word()?)
    }

    /// A byte, or none at the end of the line.
    pub fn maybe_byte(&mut self) -> Result<Option<u8>, Fault> {
        match self.next() {
            Some(word) => Ok(Some(byte_of(word)?)),
            None => Ok(None),
        }
    }

    /// The bytes up to the end of the line.
    pub fn bytes(&mut self, alloc: Global) -> Result<Vec<u8>, Fault> {
        let mut bytes = Vec::new(alloc);
        for _ in 0..u64::MAX {
            match self.maybe_byte()? {
                Some(byte) => bytes.push(byte)?,
                None => break,
            }
        }
        Ok(bytes)
    }

    /// A word on a bus.
    pub fn carried_word(&mut self) -> Result<Word, Fault> {
        word_of(self.word()?)
    }

    /// The words on a bus up to the end of the line.
    pub fn carried(&mut self, alloc: Global) -> Result<Vec<Word>, Fault> {
        let mut carried = Vec::new(alloc);
        for _ in 0..u64::MAX {
            match self.next() {
                Some(text) => carried.push(word_of(text)?)?,
                None => break,
            }
        }
        Ok(carried)
    }

    /// A count, in decimal digits.
    pub fn count(&mut self) -> Result<u64, Fault> {
        u64::from_str_radix(self.word()?, 10).or(Err(Fault::Unknown))
    }

    /// A place in a list, in decimal digits.
    pub fn index(&mut self) -> Result<usize, Fault> {
        Ok(self.count()? as usize)
    }

    /// A bit of a frame, in decimal digits.
    pub fn bit(&mut self) -> Result<u16, Fault> {
        u16::from_str_radix(self.word()?, 10).or(Err(Fault::Unknown))
    }

    /// A number of the size of a byte, in decimal digits.
    pub fn small(&mut self) -> Result<u8, Fault> {
        small_of(self.word()?)
    }

    /// A maximum length, in decimal digits.
    pub fn length(&mut self) -> Result<Length, Fault> {
        Length::new(self.small()?).or(Err(Fault::Unknown))
    }

    /// A slot, in decimal digits.
    pub fn slot(&mut self) -> Result<Slot, Fault> {
        slot_of(self.word()?)
    }

    /// A slot, or `-`, none, for what is in hand.
    pub fn place(&mut self) -> Result<Option<Slot>, Fault> {
        match self.word()? {
            "-" => Ok(None),
            word => Ok(Some(slot_of(word)?)),
        }
    }

    /// An address, in hex digits.
    pub fn address(&mut self) -> Result<Addr7, Fault> {
        address_of(self.word()?)
    }

    /// An address, or none at the end of the line.
    pub fn maybe_address(&mut self) -> Result<Option<Addr7>, Fault> {
        match self.next() {
            Some(word) => Ok(Some(address_of(word)?)),
            None => Ok(None),
        }
    }

    /// An address that a device may have.
    pub fn usable(&mut self) -> Result<Addr7, Fault>
        ensures { IfOk result (λ address. 8 ≤ address) }
    {
        let address = self.address()?;
        if address.get() < 8 {
            return Err(Fault::Unknown);
        }
        Ok(address)
    }

    /// An address, or `all`.
    pub fn target(&mut self) -> Result<Option<Addr7>, Fault> {
        match self.word()? {
            "all" => Ok(None),
            word => Ok(Some(address_of(word)?)),
        }
    }

    /// An identity, in hex digits: all of it in sixteen, its PID in twelve and then its BCR and DCR, or its BCR alone.
    pub fn identity(&mut self) -> Result<Identity, Fault> {
        let word = self.word()?;
        let number = hex_of(word)?;
        match word.len() {
            16 => Ok(Identity::from_number(number)),
            12 => {
                let bcr = self.byte()?;
                identity_of(number, bcr, self.byte()?)
            }
            _ => identity_of(PID, byte_of(word)?, DCR),
        }
    }

    /// The code of a command. That of `other` has its byte after it.
    pub fn code(&mut self) -> Result<Code, Fault> {
        match self.word()? {
            "other" | "Other" => Ok(Code::Other(self.byte()?)),
            word => named(&CODES, word),
        }
    }

    /// A request: `join`, or `role` or `interrupt` with its device's address.
    pub fn request(&mut self) -> Result<Request, Fault> {
        let kind = self.word()?;
        if kind == "join" {
            return Ok(Request::Join);
        }
        let address = self.address()?;
        match kind {
            "role" => Ok(Request::Role(address)),
            "interrupt" => Ok(Request::Interrupt(address)),
            _ => Err(Fault::Unknown),
        }
    }
}

/// What a table has under a word.
fn named<T: Copy>(table: &[(&str, T)], word: &str) -> Result<T, Fault> {
    for (name, value) in table {
        if *name == word {
            return Ok(*value);
        }
    }
    Err(Fault::Unknown)
}

/// The number of a word in hex digits.
fn hex_of(word: &str) -> Result<u64, Fault> {
    u64::from_str_radix(word, 16).or(Err(Fault::Unknown))
}

/// The byte of a word in hex digits.
fn byte_of(word: &str) -> Result<u8, Fault> {
    u8::from_str_radix(word, 16).or(Err(Fault::Unknown))
}

/// The number of the size of a byte that a word is, in decimal digits.
fn small_of(word: &str) -> Result<u8, Fault> {
    u8::from_str_radix(word, 10).or(Err(Fault::Unknown))
}

/// The slot of a word.
fn slot_of(word: &str) -> Result<Slot, Fault> {
    Slot::new(small_of(word)?).or(Err(Fault::Unknown))
}

/// The address of a word.
fn address_of(word: &str) -> Result<Addr7, Fault> {
    Addr7::new(byte_of(word)?).or(Err(Fault::Unknown))
}

/// The identity of its three parts.
fn identity_of(pid: u64, bcr: u8, dcr: u8) -> Result<Identity, Fault> {
    Ok(Identity {
        pid: Pid::new(pid)?,
        bcr: Bcr(bcr),
        dcr: Dcr(dcr),
    })
}

/// A word on a bus: a byte, and a point with a T bit where it may not be that of the byte's parity.
fn word_of(text: &str) -> Result<Word, Fault> {
    match text.split_once('.') {
        None => Ok(write_word(byte_of(text)?)),
        Some((byte, t)) => Ok(Word {
            byte: byte_of(byte)?,
            t: named(&BITS, t)?,
        }),
    }
}
