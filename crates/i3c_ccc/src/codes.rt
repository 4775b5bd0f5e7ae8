ghost use Rattle.std.specs.Prelude.{◌≡◌, not};
ghost use Rattle.i3c_ccc.specs.Codes.{byte_of_code, byte_of_datum, code_among, extended, is_among, is_other, table};

use i3c_base::{Datum, Direction};

/// A common command code (I3C Basic 5.1.9.3).
#[derive(Clone, Copy, Debug, PartialEq, Eq)]
pub enum Code {
    /// Enable events, broadcast: `00`.
    Enec,
    /// Disable events, broadcast: `01`.
    Disec,
    /// Reset dynamic address assignment: `06`.
    Rstdaa,
    /// Enter dynamic address assignment: `07`.
    Entdaa,
    /// Define list of targets: `08`.
    Deftgts,
    /// Set the maximum length of writes (SETMWL) or of reads (SETMRL), broadcast: `09`, `0A`.
    SetLength(Direction),
    /// Enable events, direct: `80`.
    EnecDirect,
    /// Disable events, direct: `81`.
    DisecDirect,
    /// Set dynamic address from static address, direct: `87`.
    Setdasa,
    /// Set new dynamic address, direct: `88`.
    Setnewda,
    /// Set the maximum length of writes (SETMWL) or of reads (SETMRL), direct: `89`, `8A`.
    SetLengthDirect(Direction),
    /// A target is asked for a datum: `8B` to `90`, `94` and `95`.
    Get(Datum),
    /// Get accept controller role: `91`.
    Getacccr,
    /// A code that isn't known by name.
    Other(u8),
}

/// Which codes are known by name. Each other code is `Code::Other`.
#[derive(Clone, Copy, Debug, PartialEq, Eq)]
pub enum CodeSet {
    /// The table of codes, which a trace knows.
    Table,
    /// The table, and the codes that this engine knows beyond it (own).
    Extended,
}

impl CodeSet {
    ghost use Rattle.std.specs.Prelude.{◌≡◌};
    ghost use Rattle.i3c_ccc.specs.Codes.{code_among, codes_of};

    /// The code of a byte, where these codes are known by name.
    pub fn code_of(self, byte: u8) -> Code
        ensures { result ≡ code_among (codes_of self) byte }
    {
        match self {
            CodeSet::Table => code_of(byte),
            CodeSet::Extended => extended_code_of(byte),
        }
    }
}

/// The code of a byte by the table of codes: `Other` exactly where the table has none with this byte.
pub fn code_of(byte: u8) -> Code
    ensures code { result ≡ code_among table byte }
    ensures byte { byte_of_code result ≡ byte }
    ensures other { is_other result ≡ not (is_among byte table) }
{
    match byte {
        0x00 => Code::Enec,
        0x01 => Code::Disec,
        0x06 => Code::Rstdaa,
        0x07 => Code::Entdaa,
        0x08 => Code::Deftgts,
        0x80 => Code::EnecDirect,
        0x81 => Code::DisecDirect,
        0x87 => Code::Setdasa,
        0x88 => Code::Setnewda,
        0x91 => Code::Getacccr,
        other => Code::Other(other),
    }
}

/// An extension of this engine (own): the code of a byte where SETMWL, SETMRL, GETPID and its like are known beside the table.
pub fn extended_code_of(byte: u8) -> Code
    ensures code { result ≡ code_among extended byte }
    ensures byte { byte_of_code result ≡ byte }
    ensures other { is_other result ≡ not (is_among byte extended) }
{
    match byte {
        0x09 => Code::SetLength(Direction::Write),
        0x0A => Code::SetLength(Direction::Read),
        0x89 => Code::SetLengthDirect(Direction::Write),
        0x8A => Code::SetLengthDirect(Direction::Read),
        0x8B => Code::Get(Datum::WriteLength),
        0x8C => Code::Get(Datum::ReadLength),
        0x8D => Code::Get(Datum::Pid),
        0x8E => Code::Get(Datum::Bcr),
        0x8F => Code::Get(Datum::Dcr),
        0x90 => Code::Get(Datum::Status),
        0x94 => Code::Get(Datum::Speed),
        0x95 => Code::Get(Datum::Capabilities),
        other => code_of(other),
    }
}

/// The byte of a code.
pub fn byte_of(code: Code) -> u8
    ensures { result ≡ byte_of_code code }
{
    match code {
        Code::Enec => 0x00,
        Code::Disec => 0x01,
        Code::Rstdaa => 0x06,
        Code::Entdaa => 0x07,
        Code::Deftgts => 0x08,
        Code::SetLength(Direction::Write) => 0x09,
        Code::SetLength(Direction::Read) => 0x0A,
        Code::EnecDirect => 0x80,
        Code::DisecDirect => 0x81,
        Code::Setdasa => 0x87,
        Code::Setnewda => 0x88,
        Code::SetLengthDirect(Direction::Write) => 0x89,
        Code::SetLengthDirect(Direction::Read) => 0x8A,
        Code::Get(what) => byte_of_datum(what),
        Code::Getacccr => 0x91,
        Code::Other(byte) => byte,
    }
}

/// The byte of the code that asks for a datum.
fn byte_of_datum(what: Datum) -> u8
    ensures { result ≡ byte_of_datum what }
{
    match what {
        Datum::WriteLength => 0x8B,
        Datum::ReadLength => 0x8C,
        Datum::Pid => 0x8D,
        Datum::Bcr => 0x8E,
        Datum::Dcr => 0x8F,
        Datum::Status => 0x90,
        Datum::Speed => 0x94,
        Datum::Capabilities => 0x95,
    }
}
