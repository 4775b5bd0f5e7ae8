ghost use Rattle.std.specs.Prelude.{◌≡◌, ◌∷◌, ◌++◌, [], false, map, option_to_list};
ghost use Rattle.i3c_events.specs.Hearing.{answer_of};
ghost use Rattle.i3c_events.specs.Wire.{IsKindsWire, IsLengthWire, IsSettingWire, command_wire};
ghost use Rattle.i3c_events.specs.Words.{setting_byte};
ghost use Rattle.i3c_frame.specs.Taps.{Tells};
ghost use Rattle.i3c_frame.specs.declared.symbols.Symbol.{Symbol as SymbolValue};

use crate::hearing::NoAnswer;
use crate::setting::Setting;
use crate::words::{address_word, code_word, kinds_word, length_code, length_word, setting_word};
use i3c_base::{Addr7, Change, Direction, Kinds, Length};
use i3c_frame::{Symbol, Tap};
use i3c_word::{Word, write_word};

/// Tells ENEC or DISEC as it was heard, up to its STOP (I3C Basic 5.1.9.3.1).
pub fn tell_kinds<T: Tap>(
    tap: &mut T,
    change: Change,
    to: &Option<Addr7>,
    kinds: Kinds,
    heard: &Result<(), NoAnswer>,
)
    ensures { Tells T.note_gives tap.old tap.new (IsKindsWire change to.now kinds (answer_of heard.now)) }
{
    tell_command(
        tap,
        code_word(change, *to),
        to,
        None,
        kinds_word(kinds),
        heard,
    );
}

/// Tells SETDASA or SETNEWDA to a target as it was heard, up to its STOP (I3C Basic 5.1.9.3.10 and 5.1.9.3.11).
pub fn tell_setting<T: Tap>(
    tap: &mut T,
    setting: Setting,
    target: Addr7,
    new: Addr7,
    heard: &Result<(), NoAnswer>,
)
    ensures { Tells T.note_gives tap.old tap.new (IsSettingWire (setting_byte setting) target new (answer_of heard.now)) }
{
    tell_command(
        tap,
        setting_word(setting),
        &Some(target),
        None,
        address_word(new),
        heard,
    );
}

/// Tells SETMWL or SETMRL as it was heard, up to its STOP (I3C Basic 5.1.9.3.5 and 5.1.9.3.6).
pub fn tell_length<T: Tap>(
    tap: &mut T,
    way: Direction,
    to: &Option<Addr7>,
    most: Length,
    heard: &Result<(), NoAnswer>,
)
    ensures { Tells T.note_gives tap.old tap.new (IsLengthWire way to.now most (answer_of heard.now)) }
{
    let upper = Some(write_word(0));
    tell_command(
        tap,
        length_code(way, *to),
        to,
        upper,
        length_word(most),
        heard,
    );
}

/// Tells a command as it was heard, up to its STOP: its code, the header of its target if it has one, and its data, unless
/// nobody acknowledges that header. The data are one word, or two.
#[inline(always)]
fn tell_command<T: Tap>(
    tap: &mut T,
    code: Word,
    to: &Option<Addr7>,
    upper: Option<Word>,
    lower: Word,
    heard: &Result<(), NoAnswer>,
)
    ensures { Tells T.note_gives tap.old tap.new (λ wire. wire ≡ command_wire code to.now (option_to_list upper ++ lower ∷ []) (answer_of heard.now)) }
{
    tap.note(Symbol::Word(code));
    let Some(address) = to else {
        tell_data(tap, upper, lower);
        return;
    };
    tap.note(Symbol::Repeated);
    match heard {
        Ok(()) => {
            tap.note(write_header(*address, true));
            tell_data(tap, upper, lower);
        }
        Err(NoAnswer(_)) => {
            tap.note(write_header(*address, false));
            tap.note(Symbol::Stop);
        }
    }
}

/// The header of a command's target, with its ACK.
#[inline(always)]
fn write_header(address: Addr7, ack: bool) -> Symbol
    ensures { result ≡ SymbolValue.Header address false ack }
{
    Symbol::Header {
        address,
        read: false,
        ack,
    }
}

/// Tells the data of a command, and STOP.
#[inline(always)]
fn tell_data<T: Tap>(tap: &mut T, upper: Option<Word>, lower: Word)
    ensures { Tells T.note_gives tap.old tap.new (λ wire. wire ≡ map SymbolValue.Word (option_to_list upper ++ lower ∷ []) ++ SymbolValue.Stop ∷ []) }
{
    if let Some(word) = upper {
        tap.note(Symbol::Word(word));
    }
    tap.note(Symbol::Word(lower));
    tap.note(Symbol::Stop);
}
