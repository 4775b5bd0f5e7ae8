ghost use Rattle.std.specs.Prelude.{◌≡◌, ◌*◌, ◌∷◌, []};
ghost use Rattle.i3c_base.specs.Numbers.{kind_set};
ghost use Rattle.i3c_word.specs.Parity.{HasOddParity};
ghost use Rattle.i3c_device.specs.Hearing.{named_kinds};
ghost use Rattle.i3c_events.specs.Words.{code_byte, command, kinds_byte, length_code_byte, setting_byte};

use crate::setting::Setting;
use bitflags::Flags;
use i3c_base::{Addr7, Change, Direction, Kinds, Length};
use i3c_ccc::{Code, byte_of};
use i3c_word::{Word, write_word};

/// The bits that stand for kinds: interrupts, role requests and Hot-Join.
const NAMED: u8 = 0b1011;

/// The command's code: broadcast, or direct to one address.
pub(crate) fn code_for(change: Change, to: Option<Addr7>) -> Code
    ensures { result ≡ command change to }
{
    match (change, to) {
        (Change::Enable, None) => Code::Enec,
        (Change::Disable, None) => Code::Disec,
        (Change::Enable, Some(_)) => Code::EnecDirect,
        (Change::Disable, Some(_)) => Code::DisecDirect,
    }
}

/// The word of the command's code: broadcast `00` (ENEC) or `01` (DISEC), to one address `80` or `81`
/// (I3C Basic 5.1.9.3.1).
pub fn code_word(change: Change, to: Option<Addr7>) -> Word
    ensures byte { result.byte ≡ code_byte change to }
    ensures odd { HasOddParity result }
{
    write_word(byte_of(code_for(change, to)))
}

/// The word that names kinds: bit 0 interrupts, bit 1 role requests, bit 3 Hot-Join; all other bits are 0
/// (I3C Basic 5.1.9.3.1).
pub fn kinds_word(kinds: Kinds) -> Word
    ensures byte { result.byte ≡ kinds_byte (kind_set kinds) }
    ensures named { named_kinds (result ∷ []) ≡ kind_set kinds }
    ensures odd { HasOddParity result }
{
    write_word(kinds.bits() & NAMED)
}

/// The word of the code of a command that sets an address: `87` (SETDASA) or `88` (SETNEWDA) (I3C Basic 5.1.9.3).
pub fn setting_word(setting: Setting) -> Word
    ensures byte { result.byte ≡ setting_byte setting }
    ensures odd { HasOddParity result }
{
    match setting {
        Setting::Static => write_word(byte_of(Code::Setdasa)),
        Setting::New => write_word(byte_of(Code::Setnewda)),
    }
}

/// The word that gives a device its new dynamic address, in bits 7:1; bit 0 is 0 (I3C Basic 5.1.9.3.10).
pub fn address_word(address: Addr7) -> Word
    ensures byte { result.byte ≡ 2 * address }
    ensures odd { HasOddParity result }
{
    write_word(2 * address.get())
}

/// The word of the code that sets a maximum length: broadcast `09` (SETMWL) or `0A` (SETMRL), to one address `89` or `8A`
/// (I3C Basic 5.1.9.3).
pub fn length_code(way: Direction, to: Option<Addr7>) -> Word
    ensures byte { result.byte ≡ length_code_byte way to }
    ensures odd { HasOddParity result }
{
    match to {
        None => write_word(byte_of(Code::SetLength(way))),
        Some(_) => write_word(byte_of(Code::SetLengthDirect(way))),
    }
}

/// The lower word of a maximum length; the upper one is `00` (I3C Basic 5.1.9.3.5, 5.1.9.3.6).
pub fn length_word(most: Length) -> Word
    ensures byte { result.byte ≡ most }
    ensures odd { HasOddParity result }
{
    write_word(most.get())
}
