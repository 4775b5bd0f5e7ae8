ghost use Rattle.std.specs.Prelude.{◌≡◌, ◌↔◌, IsTrue};

use crate::names::Name;
use crate::policies::{is_first, is_kind};
use crate::sent::begins_sent;
use crate::tokens::{self, is_token};

/// The last token of a device that doesn't take the controller role.
const DECLINE: &[u8] = b"decline";

/// The last token of a line that shows all of the bus.
const ALL: &[u8] = b"all";

/// A place of a line behind its command, by what is expected there.
#[derive(Clone, Copy)]
pub enum Field {
    /// The name of a device or a legacy target.
    Name,
    /// A provisioned ID.
    Pid,
    /// A bus characteristics register.
    Bcr,
    /// A device characteristics register.
    Dcr,
    /// A legacy virtual register.
    Lvr,
    /// A 7-bit address.
    Addr,
    /// The dynamic address that a device has.
    Old,
    /// The dynamic address that a device gets.
    New,
    /// A byte.
    Byte,
    /// The bytes of a private write.
    Bytes,
    /// A bit of a frame.
    Bit,
    /// How many frames.
    Count,
    /// How many bytes a transfer may have.
    Length,
    /// The part of the bus that is shown: all of it, or its records from a number on.
    Shown,
    /// The number of a record.
    Place,
    /// The first token of a policy.
    Policy,
    /// A kind of request, which a policy accepts.
    Kind,
    /// The token of a device that doesn't take the controller role.
    Decline,
    /// The first token of a line that a controller sends.
    Sent,
}

impl Field {
    ghost use Rattle.i3c_lines.specs.Faults.{IsField, expected, is_hexadecimal, label};

    /// Whether a token has this field's form.
    pub fn fits(self, token: &[u8]) -> bool
        ensures { IsTrue result ↔ IsField self token.now }
    {
        match self {
            Field::Name => Name::parse(token).is_some(),
            Field::Pid => tokens::pid(token).is_some(),
            Field::Bcr | Field::Dcr | Field::Lvr | Field::Byte => tokens::byte(token).is_some(),
            Field::Addr | Field::Old | Field::New => tokens::address(token).is_some(),
            Field::Bytes => !token.is_empty() && tokens::bytes(token).is_some(),
            Field::Bit => tokens::bit(token).is_some(),
            Field::Count => tokens::count(token).is_some(),
            Field::Length => tokens::length(token).is_some(),
            Field::Place => tokens::place(token).is_some(),
            Field::Policy => is_first(token),
            Field::Kind => is_kind(token),
            Field::Decline => is_token(token, DECLINE),
            Field::Shown => is_token(token, ALL) || tokens::place(token).is_some(),
            Field::Sent => begins_sent(token),
        }
    }

    /// What the documents call it. A token that can only be one or be left out is called nothing.
    pub(crate) fn label(self) -> &'static str
        ensures { result.now ≡ label self }
    {
        match self {
            Field::Name => "NAME",
            Field::Pid => "PID",
            Field::Bcr => "BCR",
            Field::Dcr => "DCR",
            Field::Lvr => "LVR",
            Field::Addr => "ADDR",
            Field::Old => "OLD",
            Field::New => "NEW",
            Field::Byte => "BYTE",
            Field::Bytes => "BYTES",
            Field::Bit => "BIT",
            Field::Count | Field::Length | Field::Place => "N",
            Field::Policy => "POLICY",
            Field::Kind => "KIND",
            Field::Sent => "LINE",
            Field::Decline | Field::Shown => "",
        }
    }

    /// What is expected there.
    pub(crate) fn expected(self) -> &'static str
        ensures { result.now ≡ expected self }
    {
        match self {
            Field::Name => "1 to 16 small letters and digits",
            Field::Pid => "12 hexadecimal digits in capitals",
            Field::Bcr | Field::Dcr | Field::Lvr | Field::Byte => {
                "two hexadecimal digits in capitals"
            }
            Field::Addr | Field::Old | Field::New => "two hexadecimal digits in capitals, up to 7F",
            Field::Bytes => "two hexadecimal digits in capitals for each byte",
            Field::Bit => "decimal digits, up to 65535",
            Field::Count => "decimal digits, 1 to 65535",
            Field::Length => "decimal digits, 1 to 16",
            Field::Place => "a record's number from 1 on",
            Field::Policy => "all, none, joins, roles or interrupts",
            Field::Kind => "joins, roles, interrupts or but",
            Field::Decline => "'decline' or nothing",
            Field::Shown => "'all', a record's number from 1 on, or nothing",
            Field::Sent => "a line that a controller sends, such as serve, write or daa",
        }
    }

    /// Whether its numbers are hexadecimal.
    pub(crate) fn is_hexadecimal(self) -> bool
        ensures { result ≡ is_hexadecimal self }
    {
        match self {
            Field::Pid
            | Field::Bcr
            | Field::Dcr
            | Field::Lvr
            | Field::Addr
            | Field::Old
            | Field::New
            | Field::Byte
            | Field::Bytes => true,
            Field::Name
            | Field::Bit
            | Field::Count
            | Field::Length
            | Field::Place
            | Field::Policy
            | Field::Kind
            | Field::Decline
            | Field::Shown
            | Field::Sent => false,
        }
    }
}
