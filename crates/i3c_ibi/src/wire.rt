ghost use Rattle.std.specs.Prelude.{◌≡◌, true, false, [], ◌∷◌};
ghost use Rattle.i3c_frame.specs.Taps.{NotesAll};
ghost use Rattle.i3c_frame.specs.declared.symbols.Symbol.{Symbol as SymbolValue};
ghost use Rattle.i3c_ibi.specs.Wire.{begun, request_header};

use crate::serving::Reading;
use i3c_base::Request;
use i3c_frame::{Symbol, Tap};
use i3c_header::header;
use i3c_word::Word;

/// The header of a request, with the controller's answer (I3C Basic 5.1.6.2).
fn request_header(request: Request, ack: bool) -> Symbol
    ensures { result ≡ request_header request ack }
{
    let (address, read) = header(request);
    Symbol::Header { address, read, ack }
}

/// Tells START and the header of the request that won it (I3C Basic 5.1.6.2).
pub fn tell_request<T: Tap>(tap: &mut T, request: Request, ack: bool)
    ensures { NotesAll T.note_gives tap.old (SymbolValue.Start ∷ request_header request ack ∷ []) tap.new }
{
    tap.note(Symbol::Start);
    tap.note(request_header(request, ack));
}

/// Tells START and the broadcast header (I3C Basic 5.1.2.2).
pub fn tell_broadcast<T: Tap>(tap: &mut T, ack: bool)
    ensures { NotesAll T.note_gives tap.old (SymbolValue.Start ∷ SymbolValue.Header 0x7E false ack ∷ []) tap.new }
{
    tap.note(Symbol::Start);
    tap.note(Symbol::broadcast(false, ack));
}

/// Tells the mandatory byte that was read, with the T that ended it or didn't.
fn tell_byte<T: Tap>(tap: &mut T, byte: u8, t: bool)
    ensures { NotesAll T.note_gives tap.old (SymbolValue.Word (record { byte = byte; t = t }) ∷ []) tap.new }
{
    tap.note(Symbol::Word(Word { byte, t }));
}

/// Tells the beginning of a frame: its first request and the answer, or the broadcast header if there is no request (I3C
/// Basic 5.1.6.2).
// in line, since as a rule nobody asks
#[inline(always)]
pub fn tell_reading<T: Tap>(tap: &mut T, reading: &Reading, ack: bool)
    ensures { NotesAll T.note_gives tap.old (begun reading.now ack) tap.new }
{
    match reading {
        Reading::Quiet => tell_broadcast(tap, ack),
        _ => tell_asked(tap, reading, ack),
    }
}

/// Tells the beginning of a frame in which somebody may ask.
#[inline(never)]
fn tell_asked<T: Tap>(tap: &mut T, reading: &Reading, ack: bool)
    ensures { NotesAll T.note_gives tap.old (begun reading.now ack) tap.new }
{
    match *reading {
        Reading::Quiet => tell_broadcast(tap, ack),
        Reading::Refused(request) => tell_request(tap, request, false),
        Reading::Joined => tell_request(tap, Request::Join, true),
        Reading::WantsRole(at) => tell_request(tap, Request::Role(at), true),
        Reading::Due(record) => {
            tell_request(tap, Request::Interrupt(record.at), true);
            if let Some(byte) = record.byte {
                tell_byte(tap, byte, false);
            }
        }
        Reading::Torn(at, byte) => {
            tell_request(tap, Request::Interrupt(at), true);
            tell_byte(tap, byte, true);
        }
    }
}

/// Tells a repeated START and the broadcast header (I3C Basic 5.1.2.2).
pub fn tell_repeated<T: Tap>(tap: &mut T, ack: bool)
    ensures { NotesAll T.note_gives tap.old (SymbolValue.Repeated ∷ SymbolValue.Header 0x7E false ack ∷ []) tap.new }
{
    tap.note(Symbol::Repeated);
    tap.note(Symbol::broadcast(false, ack));
}
