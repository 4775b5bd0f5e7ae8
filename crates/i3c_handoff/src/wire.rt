ghost use Rattle.std.specs.Prelude.{◌≡◌, ◌∷◌, [], ℕ, Bool, true, false};
ghost use Rattle.i3c_frame.specs.Taps.{Tells};
ghost use Rattle.i3c_handoff.specs.declared.outcome.Offer.{Offer as OfferValue};
ghost use Rattle.i3c_handoff.specs.Wire.{IsAnsweredWire, IsOfferWire};

use crate::outcome::Offer;
use i3c_base::Addr7;
use i3c_ccc::{Code, byte_of};
use i3c_frame::{Symbol, Tap};
use i3c_word::{Word, address_byte, write_word};

/// Tells an offer of the role as it came out on the lines, up to its STOP (GETACCCR, I3C Basic 5.1.9.3.16).
pub fn tell_offer<T: Tap>(tap: &mut T, to: Addr7, offer: &Offer)
    ensures { Tells T.note_gives tap.old tap.new (IsOfferWire to offer.now) }
{
    match *offer {
        Offer::Nobody => tell_unanswered(tap, to),
        Offer::Torn(byte) => tell_answered(tap, to, byte, true),
        Offer::Taken(_) => tell_answered(tap, to, address_byte(to), false),
    }
}

/// Tells an offer whose header nobody acknowledges, up to its STOP.
fn tell_unanswered<T: Tap>(tap: &mut T, to: Addr7)
    ensures { Tells T.note_gives tap.old tap.new (IsOfferWire to OfferValue.Nobody) }
{
    tap.note(Symbol::Word(write_word(byte_of(Code::Getacccr))));
    tap.note(Symbol::Repeated);
    tap.note(Symbol::Header {
        address: to,
        read: true,
        ack: false,
    });
    tap.note(Symbol::Stop);
}

/// Tells an offer whose header is acknowledged, and the target's byte with the T that was read, up to its STOP.
fn tell_answered<T: Tap>(tap: &mut T, to: Addr7, byte: u8, t: bool)
    ensures { Tells T.note_gives tap.old tap.new (IsAnsweredWire to byte t) }
{
    tap.note(Symbol::Word(write_word(byte_of(Code::Getacccr))));
    tap.note(Symbol::Repeated);
    tap.note(Symbol::Header {
        address: to,
        read: true,
        ack: true,
    });
    tap.note(Symbol::Word(Word { byte, t }));
    tap.note(Symbol::Stop);
}
