use crate::named::{Named, are_same, give, place_in, standing_at, standing_in};
use i3c_base::{Addr7, Slot};
use i3c_lines::{Name, Naming, Place};
use std::alloc::AllocError;
use std::marker::Model;

/// The names that were given, in the order in which they first were, and what each stands for.
#[derive(Drop)]
pub(crate) struct SceneNames {
    names: Vec<Named>,
}

impl Model for SceneNames {
    ghost use Rattle.std.specs.Prelude.{List};
    ghost use Rattle.i3c_scene.specs.declared.named.Named.{Named as NamedValue};

    ghost Value = { List NamedValue };

    ghost view = { λ k. k.names.items };
}

impl SceneNames {
    ghost use Rattle.std.specs.Prelude.{◌≡◌, IfOk, IsTrue, OnOk};

    /// These names.
    pub(crate) fn new(names: Vec<Named>) -> SceneNames
        ensures { result ≡ names.items }
    {
        SceneNames { names }
    }

    /// The same names once more.
    pub(crate) fn copied(&self) -> Result<SceneNames, AllocError>
        ensures { IfOk result (λ copy. copy ≡ self.now) }
    {
        let names = self.names.clone()?;
        Ok(SceneNames { names })
    }

    /// They become the same names as others.
    pub(crate) fn copy_from(&mut self, others: &SceneNames) -> Result<(), AllocError>
        ensures { OnOk result (self.new ≡ others.now) }
    {
        self.names.clear();
        self.names.extend_from_slice(others.names.as_slice())?;
        Ok(())
    }

    /// Whether others are the same names, for the same places.
    pub(crate) fn is_same(&self, other: &SceneNames) -> bool
        ensures { IsTrue result → self.now ≡ other.now }
    {
        are_same(self.names.as_slice(), other.names.as_slice())
    }
}

impl Naming for SceneNames {
    ghost use Rattle.i3c_scene.specs.Scenes.{known_kept};

    ghost kept = { known_kept };

    fn place_of(&self, name: &Name) -> Option<Place> {
        place_in(self.names.as_slice(), name)
    }

    fn in_slot(&self, slot: Slot) -> Option<Name> {
        standing_in(self.names.as_slice(), slot)
    }

    fn at_address(&self, address: Addr7) -> Option<Name> {
        standing_at(self.names.as_slice(), address)
    }

    /// A slot is given a name; the name that had the slot is gone.
    fn give_slot(&mut self, name: &Name, slot: Slot) -> Result<(), AllocError> {
        give(&mut self.names, name, slot)
    }
}
