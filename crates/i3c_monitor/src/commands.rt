ghost use Rattle.std.specs.Prelude.{◌+◌, ◌<◌, length};
ghost use Rattle.i3c_monitor.specs.Due.{Comes};
ghost use Rattle.i3c_monitor.specs.Told.{code_of as code_told, command_of};

use crate::decoded::{Decoded, Direct, Fault};
use crate::header::{Mode, Told};
use crate::words::{read_entries, written_byte, written_length};
use i3c_ccc::{Code, CodeSet};
use i3c_frame::Symbol;
use i3c_text::LineError;
use std::alloc::Global;

/// What follows `7E`/W: the code of a command, and what is read with it, where these codes are known by name (I3C Basic
/// 5.1.9.1). No symbol is no command. `before` counts the symbols of the trace before them.
#[inline(always)]
pub(crate) fn read_code(
    alloc: Global,
    codes: CodeSet,
    symbols: &[Symbol],
    before: usize,
) -> Result<Told, LineError<Fault>>
    requires { before + length symbols.now < usize.MAX }
    ensures { Comes (code_told codes symbols.now before) result }
{
    let [_, rest @ ..] = symbols else {
        return Ok(Told::nothing(Mode::Plain));
    };
    let code = codes.code_of(written_byte(symbols, before)?);
    read_command(alloc, code, rest, before + 1)
}

/// A command with this code, by the symbols behind it.
#[inline(always)]
fn read_command(
    alloc: Global,
    code: Code,
    symbols: &[Symbol],
    before: usize,
) -> Result<Told, LineError<Fault>>
    requires { before + length symbols.now < usize.MAX }
    ensures { Comes (command_of code symbols.now before) result }
{
    let (decoded, mode) = match code {
        Code::Enec => (Decoded::Enec(written_byte(symbols, before)?), Mode::Plain),
        Code::Disec => (Decoded::Disec(written_byte(symbols, before)?), Mode::Plain),
        Code::Rstdaa => (Decoded::Rstdaa, Mode::Plain),
        Code::Entdaa => (Decoded::Entdaa, Mode::Rounds),
        Code::Deftgts => (
            Decoded::Deftgts(read_entries(alloc, symbols, before)?),
            Mode::Plain,
        ),
        Code::SetLength(way) => (
            Decoded::SetLength(way, written_length(symbols, before)?),
            Mode::Plain,
        ),
        Code::EnecDirect => return Ok(Told::nothing(Mode::Single(Direct::Enec))),
        Code::DisecDirect => return Ok(Told::nothing(Mode::Single(Direct::Disec))),
        Code::Setdasa => return Ok(Told::nothing(Mode::Single(Direct::Setdasa))),
        Code::Setnewda => return Ok(Told::nothing(Mode::Single(Direct::Setnewda))),
        Code::Getacccr => return Ok(Told::nothing(Mode::Single(Direct::Getacccr))),
        Code::SetLengthDirect(way) => return Ok(Told::nothing(Mode::Length(way))),
        Code::Get(what) => return Ok(Told::nothing(Mode::Get(what))),
        Code::Other(byte) => (Decoded::Other(byte), Mode::Skipped),
    };
    Ok(Told {
        decoded: Some(decoded),
        mode,
    })
}
