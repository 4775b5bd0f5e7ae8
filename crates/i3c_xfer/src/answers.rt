ghost use Rattle.std.specs.Prelude.{◌≡◌, ◌≤◌, ℕ, Option, length};
ghost use Rattle.i3c_base.specs.State.{Entry};
ghost use Rattle.i3c_base.specs.declared.datum.Datum.{Datum as DatumValue};
ghost use Rattle.i3c_base.specs.declared.device.TheConstants.{REGISTERS as REGISTER_COUNT};
ghost use Rattle.i3c_base.specs.Frames.{get_bits, told_length, write_bits};

use i3c_base::{Addr7, Answer, Bytes, REGISTERS};
use i3c_word::{HEADER_BITS, WORD_BITS};

/// How many bits a private transfer has up to its target's acknowledgement: a header.
pub(crate) const ACK_BITS: u16 = HEADER_BITS;

/// How many bits the code of a datum has up to its target's acknowledgement: a word and a header.
pub(crate) const ASKED_BITS: u16 = WORD_BITS + HEADER_BITS;

/// What a private read came to (I3C Basic 5.1.2.2).
#[derive(Clone, Copy, Debug, PartialEq, Eq)]
pub enum Read {
    /// Nobody acknowledged the header.
    Nobody,
    /// The registers of a legacy target.
    Legacy([u8; REGISTERS]),
    /// The first registers of the devices at the address. They ended: the last T was read as 0.
    Ended(Bytes),
    /// These bytes were read, and nobody was left to end them: the last T was read as 1.
    Torn(Bytes),
}

/// What asking the devices at an address for a datum came to (I3C Basic 5.1.9.3).
#[derive(Clone, Copy, Debug, PartialEq, Eq)]
pub enum Get {
    /// Nobody acknowledged the header.
    Nobody,
    /// The bytes of the datum. They ended: the last T was read as 0.
    Ended(Bytes),
    /// These bytes were read, and nobody was left to end them: the last T was read as 1.
    Torn(Bytes),
}

/// What a private write came to (I3C Basic 5.1.2.2).
#[derive(Clone, Copy, Debug, PartialEq, Eq)]
pub enum Write {
    /// Nobody acknowledged the header.
    Nobody,
    /// A legacy target acknowledged it.
    Legacy,
    /// The devices at the address acknowledged it.
    Devices,
}

impl Read {
    ghost use Rattle.std.specs.Prelude.{◌≡◌};
    ghost use Rattle.i3c_xfer.specs.Transfers.{bits_of_read, read_answer};

    /// The answer of a read from this address.
    pub fn answer(&self, to: Addr7) -> Answer
        ensures { result ≡ read_answer to self.now }
    {
        match self {
            Read::Nobody => Answer::NoAnswer(to),
            Read::Legacy(bytes) => Answer::Bytes(Bytes::new(bytes)),
            Read::Ended(bytes) => Answer::Bytes(*bytes),
            Read::Torn(_) => Answer::NoEnd,
        }
    }

    /// The bits of a read: a header, and after its ACK a word for each byte.
    pub fn bits(&self) -> u16
        ensures { result ≡ bits_of_read self.now }
    {
        match self {
            Read::Nobody => ACK_BITS,
            Read::Legacy(_) => ACK_BITS + WORD_BITS * REGISTERS as u16,
            Read::Ended(bytes) | Read::Torn(bytes) => {
                ACK_BITS + WORD_BITS * bytes.as_slice().len() as u16
            }
        }
    }
}

impl Get {
    ghost use Rattle.std.specs.Prelude.{◌≡◌};
    ghost use Rattle.i3c_xfer.specs.Getting.{get_answer};

    /// The answer of asking this address.
    pub fn answer(&self, to: Addr7) -> Answer
        ensures { result ≡ get_answer to self.now }
    {
        match self {
            Get::Nobody => Answer::NoAnswer(to),
            Get::Ended(bytes) => Answer::Bytes(*bytes),
            Get::Torn(_) => Answer::NoEnd,
        }
    }
}

impl Write {
    ghost use Rattle.std.specs.Prelude.{◌≡◌};
    ghost use Rattle.i3c_xfer.specs.Transfers.{is_write_acknowledged, write_answer};

    /// The answer of a write to this address.
    pub fn answer(&self, to: Addr7) -> Answer
        ensures { result ≡ write_answer to self.now }
    {
        match self {
            Write::Nobody => Answer::NoAnswer(to),
            Write::Legacy | Write::Devices => Answer::Done,
        }
    }

    /// Whether somebody acknowledged the header.
    pub(crate) fn is_acknowledged(&self) -> bool
        ensures { result ≡ is_write_acknowledged self.now }
    {
        match self {
            Write::Nobody => false,
            Write::Legacy | Write::Devices => true,
        }
    }
}

/// The bits of a read of `count` bytes of a datum with this answer: the code's word and a header, and after its ACK a
/// word for each byte.
pub fn get_bits(count: usize, answer: &Answer) -> u16
    requires { count ≤ 6 }
    ensures { (what : DatumValue) (entry : Option Entry) → count ≡ told_length what entry → result ≡ get_bits what entry answer.now }
{
    match answer {
        Answer::NoAnswer(_) => ASKED_BITS,
        Answer::Done | Answer::Bytes(_) | Answer::NoEnd => ASKED_BITS + WORD_BITS * count as u16,
    }
}

/// The bits of a private write of these bytes with this answer: a header, and after its ACK a word for each byte.
pub fn write_bits(bytes: &[u8], answer: &Answer) -> u16
    requires { length bytes.now ≤ REGISTER_COUNT }
    ensures { result ≡ write_bits bytes.now answer.now }
{
    match answer {
        Answer::NoAnswer(_) => ACK_BITS,
        Answer::Done | Answer::Bytes(_) | Answer::NoEnd => {
            ACK_BITS + WORD_BITS * bytes.len() as u16
        }
    }
}
