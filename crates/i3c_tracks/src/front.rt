ghost use Rattle.std.specs.Prelude.{◌≡◌, is_some};
ghost use Rattle.i3c_scene.specs.Scenes.{place_in};

use i3c_base::{Addr7, Identity, Lvr, Setup, Slot};
use i3c_legacy::Legacies;
use i3c_lines::{Command, Name, Place};
use i3c_scene::{Named, Scene, place_in};
use std::alloc::{AllocError, Global};
use std::mem;

/// What the lines in front of `main` declare: what has a static address, and the names that were given.
#[derive(Drop)]
pub(crate) struct Front {
    alloc: Global,
    legacies: Legacies,
    names: Vec<Named>,
    /// The numbers of the commands that were refused.
    pub refused: Vec<u64>,
}

/// Whether a name was given.
fn is_given(names: &[Named], name: &Name) -> bool
    ensures { result ≡ is_some (place_in names.now name.now) }
{
    place_in(names, name).is_some()
}

impl Front {
    ghost use Rattle.std.specs.Prelude.{◌≡◌, ◌∷◌, ◌++◌, [], IfOk, MatchOption, OnOk};
    ghost use Rattle.i3c_base.specs.State.{no_board};
    ghost use Rattle.i3c_lines.specs.declared.command.Command.{Command as CommandValue};
    ghost use Rattle.i3c_tracks.specs.Drafting.{Begins, Declares};

    /// The state before the first line.
    pub(crate) fn new(alloc: Global) -> Front
        ensures legacies { result.legacies ≡ no_board }
        ensures names { result.names.items ≡ [] }
        ensures refused { result.refused.items ≡ [] }
    {
        Front {
            alloc,
            legacies: Legacies::new(),
            names: Vec::new(alloc),
            refused: Vec::new(alloc),
        }
    }

    /// Obeys a command as a script does, and answers the bus if the command makes one. A command that is refused does
    /// nothing, and its number is kept.
    pub(crate) fn obey(
        &mut self,
        number: u64,
        command: &Command,
    ) -> Result<Option<Scene>, AllocError>
        ensures { IfOk result (λ made. MatchOption made (Declares self.old number command.now self.new) (Begins self.old number command.now self.new)) }
    {
        match command {
            Command::Legacy { name, address, lvr } => {
                self.add_legacy(number, name, *address, *lvr)?;
                Ok(None)
            }
            Command::Declare { address, identity } => {
                self.declare(number, *address, *identity)?;
                Ok(None)
            }
            Command::Main { name, setup } => self.begin(number, name, *setup),
            _ => {
                self.refuse(number)?;
                Ok(None)
            }
        }
    }

    /// The command of this number is refused.
    fn refuse(&mut self, number: u64) -> Result<(), AllocError>
        ensures legacies { self.new.legacies ≡ self.old.legacies }
        ensures names { self.new.names ≡ self.old.names }
        ensures refused { OnOk result (self.new.refused.items ≡ self.old.refused.items ++ number ∷ []) }
    {
        self.refused.push(number)?;
        Ok(())
    }

    /// `legacy`: declares a legacy target, unless its name was given or its address is refused.
    fn add_legacy(
        &mut self,
        number: u64,
        name: &Name,
        address: Addr7,
        lvr: Lvr,
    ) -> Result<(), AllocError>
        ensures { OnOk result (Declares self.old number (CommandValue.Legacy name.now address lvr) self.new) }
    {
        if is_given(&self.names, name) {
            return self.refuse(number);
        }
        match self.legacies.add(address, lvr) {
            Ok(()) => {
                self.names.push(Named::new(*name, Place::Legacy(address)))?;
                Ok(())
            }
            Err(_) => self.refuse(number),
        }
    }

    /// `declare`: declares an identity, unless its address or the identity is refused.
    fn declare(&mut self, number: u64, address: Addr7, identity: Identity) -> Result<(), AllocError>
        ensures { OnOk result (Declares self.old number (CommandValue.Declare address identity) self.new) }
    {
        match self.legacies.declare(address, identity) {
            Ok(()) => Ok(()),
            Err(_) => self.refuse(number),
        }
    }

    /// `main`: makes the bus, unless the name was given or the device isn't capable of the role.
    fn begin(&mut self, number: u64, name: &Name, setup: Setup) -> Result<Option<Scene>, AllocError>
        ensures { IfOk result (λ made. MatchOption made (Declares self.old number (CommandValue.Main name.now setup) self.new) (Begins self.old number (CommandValue.Main name.now setup) self.new)) }
    {
        if is_given(&self.names, name) || !setup.identity.bcr.capable() {
            self.refuse(number)?;
            return Ok(None);
        }
        self.names
            .push(Named::new(*name, Place::Slot(Slot::default())))?;
        let legacies = mem::replace(&mut self.legacies, Legacies::new());
        let names = mem::replace(&mut self.names, Vec::new(self.alloc));
        match Scene::begin(self.alloc, setup, legacies, names) {
            Ok(scene) => Ok(Some(scene)),
            Err(_) => Err(AllocError),
        }
    }
}
