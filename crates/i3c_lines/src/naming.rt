ghost use Rattle.std.specs.Prelude.{◌≡◌, OnOk};
ghost use Rattle.i3c_lines.specs.Keeping.{NamesKept, slot_meant};

use crate::names::{Name, Names, Place};
use crate::refusals::Refusal;
use i3c_base::{Addr7, Slot};
use i3c_step::Refusal as BusRefusal;
use std::alloc::AllocError;

/// Names that were given, and what each stands for.
pub trait Naming {
    /// How they are kept.
    ghost kept: { NamesKept Self };

    /// What a name stands for, if it was given.
    fn place_of(&self, name: &Name) -> Option<Place>
        ensures { result ≡ kept.place self.now name.now };

    /// The name that was last given to a slot.
    fn in_slot(&self, slot: Slot) -> Option<Name>
        ensures { result ≡ kept.in_slot self.now slot };

    /// The name of the legacy target at a static address.
    fn at_address(&self, address: Addr7) -> Option<Name>
        ensures { result ≡ kept.at_address self.now address };

    /// Gives a name to a slot. The name that the slot had before is that of a device that is gone.
    ///
    /// # Errors
    ///
    /// There is no memory for it.
    fn give_slot(&mut self, name: &Name, slot: Slot) -> Result<(), AllocError>
        ensures { OnOk result (kept.gives self.old self.new name.now slot) };
}

impl Naming for Names {
    ghost use Rattle.i3c_lines.specs.Keeping.{names_kept};

    ghost kept = { names_kept };

    fn place_of(&self, name: &Name) -> Option<Place> {
        self.place_of(name)
    }

    fn in_slot(&self, slot: Slot) -> Option<Name> {
        self.in_slot(slot).copied()
    }

    fn at_address(&self, address: Addr7) -> Option<Name> {
        self.at_address(address).copied()
    }

    fn give_slot(&mut self, name: &Name, slot: Slot) -> Result<(), AllocError> {
        self.give_slot(name, slot)
    }
}

/// The slot that a name stands for. Its device may be gone. It answers `NoName` where the name was not given, and
/// `NoDevice` where it is a legacy target's, or another device has taken the slot since.
pub fn slot_meant<N: Naming>(names: &N, name: &Name) -> Result<Slot, Refusal>
    ensures { result ≡ slot_meant N.kept names.now name.now }
{
    let Some(place) = names.place_of(name) else {
        return Err(Refusal::NoName);
    };
    match place {
        Place::Slot(slot) => Ok(slot),
        Place::Legacy(_) | Place::Gone => Err(Refusal::Bus(BusRefusal::NoDevice)),
    }
}
