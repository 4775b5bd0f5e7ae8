ghost use Rattle.std.specs.Prelude.{◌≡◌, ℕ, true, [], ◌∷◌};
ghost use Rattle.i3c_word.specs.Parity.{IsAddressByte};
ghost use Rattle.i3c_frame.specs.Taps.{Tells};
ghost use Rattle.i3c_frame.specs.declared.symbols.Symbol.{Symbol as SymbolValue};
ghost use Rattle.i3c_entdaa.specs.Wire.{IsRoundWire};

use crate::outcome::Round;
use i3c_base::Addr7;
use i3c_frame::{Symbol, Tap};
use i3c_word::address_byte;

/// Tells a round as it came out on the lines (I3C Basic 5.1.4.2).
pub fn tell_round<T: Tap>(tap: &mut T, round: &Round)
    ensures { Tells T.note_gives tap.old tap.new (IsRoundWire round.now) }
{
    match *round {
        Round::NoAddress => {}
        Round::Done => {
            tap.note(Symbol::Repeated);
            tap.note(Symbol::broadcast(true, false));
        }
        Round::Nobody { bits, address } => tell_identity(tap, bits, address, false),
        Round::Assigned { bits, address, .. } => tell_identity(tap, bits, address, true),
    }
}

/// Tells a round that somebody heard: its header, the bits of the identity as they were read, and the address byte.
fn tell_identity<T: Tap>(tap: &mut T, bits: u64, address: Addr7, ack: bool)
    ensures { Tells T.note_gives tap.old tap.new (λ wire. (byte : ℕ) × IsAddressByte address byte
        × (wire ≡ SymbolValue.Repeated ∷ SymbolValue.Header 0x7E true true ∷ SymbolValue.Identity bits ∷ SymbolValue.AddressByte byte ack ∷ [])) }
{
    tap.note(Symbol::Repeated);
    tap.note(Symbol::broadcast(true, true));
    tap.note(Symbol::Identity(bits));
    let byte = address_byte(address);
    tap.note(Symbol::AddressByte { byte, ack });
}
