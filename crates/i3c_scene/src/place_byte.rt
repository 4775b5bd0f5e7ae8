use i3c_base::{Addr7, SLOTS, Slot};
use i3c_lines::Place;
use std::marker::Model;

// stands for a device that is gone; bytes below it are slots
const GONE: u8 = SLOTS as u8;

// bytes from here on are static addresses
const LEGACY: u8 = 128;

/// What a name stands for, in one byte, so that two are compared at once.
///
/// Clauses see the place.
#[derive(Clone, Copy)]
pub struct PlaceByte {
    code: u8,
}

impl Model for PlaceByte {
    ghost use Rattle.i3c_lines.specs.declared.names.Place.{Place as PlaceValue};
    ghost use Rattle.i3c_scene.specs.PlaceCodes.{IsCode, code_back, code_of, place_of};

    ghost Value = { PlaceValue };

    ghost view = { λ p. place_of p.code };

    ghost invariant = { λ p. IsCode p.code };

    ghost inverse = { λ place. record { code = code_of place } };

    ghost inverse_ok = { λ p h i. record { code = code_back p.code h i } };
}

impl PlaceByte {
    ghost use Rattle.std.specs.Prelude.{◌≡◌, ◌↔◌, IsTrue};

    /// This place.
    pub fn of(place: Place) -> PlaceByte
        ensures { result ≡ place }
    {
        let code = match place {
            Place::Slot(slot) => slot.index() as u8,
            Place::Gone => GONE,
            Place::Legacy(address) => LEGACY + address.get(),
        };
        PlaceByte { code }
    }

    /// The place.
    pub fn get(self) -> Place
        ensures { result ≡ self }
    {
        if self.code < GONE {
            Place::Slot(Slot::from_index(usize::from(self.code)))
        } else if self.code < LEGACY {
            Place::Gone
        } else {
            let Ok(address) = Addr7::new(self.code - LEGACY) else {
                unreachable!()
            };
            Place::Legacy(address)
        }
    }

    /// Whether both are the same place.
    #[inline(always)]
    pub fn is_same(self, other: PlaceByte) -> bool
        ensures { IsTrue result ↔ (self ≡ other) }
    {
        self.code == other.code
    }
}
