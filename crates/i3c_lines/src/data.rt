ghost use Rattle.std.specs.Prelude.{◌≡◌, MatchOption};
ghost use Rattle.i3c_lines.specs.Data.{length_token, datum_name};
ghost use Rattle.i3c_base.specs.declared.datum.Datum.{Datum};

use i3c_base::{Datum, Direction};

/// The first token of the line that tells a datum (I3C Basic 5.1.9.3). Behind `get` it is the first token of the line that
/// asks for it.
pub fn datum_name(datum: Datum) -> &'static str
    ensures { result.now ≡ datum_name datum }
{
    match datum {
        Datum::Pid => "pid",
        Datum::Bcr => "bcr",
        Datum::Dcr => "dcr",
        Datum::Status => "status",
        Datum::WriteLength => "mwl",
        Datum::ReadLength => "mrl",
        Datum::Speed => "mxds",
        Datum::Capabilities => "caps",
    }
}

/// The datum that has this token, if one has.
pub fn datum(token: &[u8]) -> Option<Datum>
    ensures { MatchOption result ((datum : Datum) → token.now ≡ datum_name datum → ⊥) (λ datum. token.now ≡ datum_name datum) }
{
    match token {
        b"pid" => Some(Datum::Pid),
        b"bcr" => Some(Datum::Bcr),
        b"dcr" => Some(Datum::Dcr),
        b"status" => Some(Datum::Status),
        b"mwl" => Some(Datum::WriteLength),
        b"mrl" => Some(Datum::ReadLength),
        b"mxds" => Some(Datum::Speed),
        b"caps" => Some(Datum::Capabilities),
        _ => None,
    }
}

/// The first token of the line that sets the maximum length of writes or of reads (I3C Basic 5.1.9.3.5, 5.1.9.3.6).
pub fn length_token(way: Direction) -> &'static str
    ensures { result.now ≡ length_token way }
{
    match way {
        Direction::Write => "setmwl",
        Direction::Read => "setmrl",
    }
}
