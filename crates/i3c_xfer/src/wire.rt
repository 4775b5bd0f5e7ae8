ghost use Rattle.std.specs.Prelude.{◌≡◌, true};
ghost use Rattle.i3c_frame.specs.Taps.{Tells};
ghost use Rattle.i3c_xfer.specs.Wire.{IsGetWire, IsReadWire, IsUnansweredWire, IsWriteWire, IsWrittenWire, IsWrittenWord, answered_wire, read_words, word_of};

use crate::answers::{Get, Read, Write};
use i3c_base::{Addr7, Datum};
use i3c_ccc::{Code, byte_of};
use i3c_frame::{Symbol, Tap};
use i3c_word::{Word, write_word};

/// The party whose bytes pass.
pub(crate) enum Side {
    /// Those of devices: each is a word, with a T.
    Devices,
    /// Those of a legacy target: each has an ACK or a NACK.
    Legacy,
}

/// Tells a private read as it came out on the lines: a repeated START, its header, where that is acknowledged the words,
/// and STOP (I3C Basic 5.1.2.2, 5.1.2.3.4).
pub fn tell_read<T: Tap>(tap: &mut T, to: Addr7, read: &Read)
    ensures { Tells T.note_gives tap.old tap.new (IsReadWire to read.now) }
{
    match read {
        Read::Nobody => tell_unanswered(tap, to, true),
        Read::Legacy(bytes) => tell_answered(tap, to, &Side::Legacy, bytes, false),
        Read::Ended(bytes) => tell_answered(tap, to, &Side::Devices, bytes.as_slice(), false),
        Read::Torn(bytes) => tell_answered(tap, to, &Side::Devices, bytes.as_slice(), true),
    }
}

/// Tells a datum's code and the answer as they came out on the lines: the code, a repeated START, the header, the words
/// if it is acknowledged, and STOP (I3C Basic 5.1.9.3).
pub fn tell_get<T: Tap>(tap: &mut T, what: Datum, to: Addr7, get: &Get)
    ensures { Tells T.note_gives tap.old tap.new (IsGetWire what to get.now) }
{
    tap.note(Symbol::Word(write_word(byte_of(Code::Get(what)))));
    match get {
        Get::Nobody => tell_unanswered(tap, to, true),
        Get::Ended(bytes) => tell_answered(tap, to, &Side::Devices, bytes.as_slice(), false),
        Get::Torn(bytes) => tell_answered(tap, to, &Side::Devices, bytes.as_slice(), true),
    }
}

/// Tells a private write of these bytes as it came out on the lines: a repeated START, its header, where that is
/// acknowledged the words, and STOP (I3C Basic 5.1.2.2, 5.1.2.3.1).
pub fn tell_write<T: Tap>(tap: &mut T, to: Addr7, bytes: &[u8], write: &Write)
    ensures { Tells T.note_gives tap.old tap.new (IsWriteWire to bytes.now write.now) }
{
    match write {
        Write::Nobody => tell_unanswered(tap, to, false),
        Write::Legacy => tell_written(tap, to, &Side::Legacy, bytes),
        Write::Devices => tell_written(tap, to, &Side::Devices, bytes),
    }
}

/// Tells a header that nobody acknowledges, up to STOP.
fn tell_unanswered<T: Tap>(tap: &mut T, to: Addr7, read: bool)
    ensures { Tells T.note_gives tap.old tap.new (IsUnansweredWire to read) }
{
    tap.note(Symbol::Repeated);
    tap.note(Symbol::Header {
        address: to,
        read,
        ack: false,
    });
    tap.note(Symbol::Stop);
}

/// Tells a read that is acknowledged, up to STOP. `last` is the ninth bit of the last word, and all others have a 1
/// there: of a device it is T, of a legacy target whether the controller acknowledges.
fn tell_answered<T: Tap>(tap: &mut T, to: Addr7, side: &Side, bytes: &[u8], last: bool)
    ensures { Tells T.note_gives tap.old tap.new (λ wire. wire ≡ answered_wire to true (read_words side.now last bytes.now)) }
{
    tap.note(Symbol::Repeated);
    tap.note(Symbol::Header {
        address: to,
        read: true,
        ack: true,
    });
    tell_words(tap, side, bytes, last);
    tap.note(Symbol::Stop);
}

/// Tells the words of a read. `last` is the ninth bit of the last one, and all others have a 1 there.
fn tell_words<T: Tap>(tap: &mut T, side: &Side, bytes: &[u8], last: bool)
    ensures { Tells T.note_gives tap.old tap.new (λ wire. wire ≡ read_words side.now last bytes.now) }
{
    let Some((end, others)) = bytes.split_last() else {
        return;
    };
    for byte in others {
        tap.note(word_of(side, *byte, true));
    }
    tap.note(word_of(side, *end, last));
}

/// Tells a write that is acknowledged, up to STOP.
fn tell_written<T: Tap>(tap: &mut T, to: Addr7, side: &Side, bytes: &[u8])
    ensures { Tells T.note_gives tap.old tap.new (IsWrittenWire to side.now bytes.now) }
{
    tap.note(Symbol::Repeated);
    tap.note(Symbol::Header {
        address: to,
        read: false,
        ack: true,
    });
    for byte in bytes {
        tap.note(written_word(side, *byte));
    }
    tap.note(Symbol::Stop);
}

/// A byte that is read, with its ninth bit: T of a device, or whether the controller acknowledges a legacy target.
fn word_of(side: &Side, byte: u8, ninth: bool) -> Symbol
    ensures { result ≡ word_of side.now ninth byte }
{
    match side {
        Side::Devices => Symbol::Word(Word { byte, t: ninth }),
        Side::Legacy => Symbol::LegacyWord { byte, ack: ninth },
    }
}

/// A byte that is written: with odd parity, or acknowledged by a legacy target.
fn written_word(side: &Side, byte: u8) -> Symbol
    ensures { IsWrittenWord side.now byte result }
{
    match side {
        Side::Devices => Symbol::Word(write_word(byte)),
        Side::Legacy => Symbol::LegacyWord { byte, ack: true },
    }
}
