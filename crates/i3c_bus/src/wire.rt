ghost use Rattle.std.specs.Prelude.{◌≡◌};
ghost use Rattle.i3c_frame.specs.Taps.{Tells};
ghost use Rattle.std.specs.List.{flat_map};
ghost use Rattle.i3c_deftgts.specs.Layout.{bytes_of};
ghost use Rattle.i3c_bus.specs.Wire.{AreWordsOf, IsOpenWire, IsResetWire, IsWireOfList};

use i3c_ccc::{Code, byte_of};
use i3c_deftgts::{Entry, List};
use i3c_frame::{Symbol, Tap};
use i3c_word::write_word;

/// Tells the code of ENTDAA.
pub(crate) fn tell_open<T: Tap>(tap: &mut T)
    ensures { Tells T.note_gives tap.old tap.new IsOpenWire }
{
    tap.note(Symbol::Word(write_word(byte_of(Code::Entdaa))));
}

/// Tells the code of RSTDAA, and STOP.
pub(crate) fn tell_reset<T: Tap>(tap: &mut T)
    ensures { Tells T.note_gives tap.old tap.new IsResetWire }
{
    tap.note(Symbol::Word(write_word(byte_of(Code::Rstdaa))));
    tap.note(Symbol::Stop);
}

/// Tells the code of DEFTGTS, the words of a list, and STOP.
pub(crate) fn tell_list<T: Tap>(tap: &mut T, list: &List)
    ensures { Tells T.note_gives tap.old tap.new (IsWireOfList list.now) }
{
    tap.note(Symbol::Word(write_word(byte_of(Code::Deftgts))));
    tap.note(Symbol::Word(list.count_word()));
    tell_entries(tap, list.entries());
    tap.note(Symbol::Stop);
}

/// Tells the words of entries.
fn tell_entries<T: Tap>(tap: &mut T, entries: &[Entry])
    ensures { Tells T.note_gives tap.old tap.new (AreWordsOf (flat_map bytes_of entries.now)) }
{
    for entry in entries {
        tell_entry(tap, entry);
    }
}

/// Tells the four words of an entry.
fn tell_entry<T: Tap>(tap: &mut T, entry: &Entry)
    ensures { Tells T.note_gives tap.old tap.new (AreWordsOf (bytes_of entry.now)) }
{
    let [first, second, third, fourth] = entry.words();
    tap.note(Symbol::Word(first));
    tap.note(Symbol::Word(second));
    tap.note(Symbol::Word(third));
    tap.note(Symbol::Word(fourth));
}
