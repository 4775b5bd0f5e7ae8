ghost use Rattle.std.specs.Prelude.{◌≡◌};
ghost use Rattle.i3c_lines.specs.declared.command.Command.{Command as CommandValue};
ghost use Rattle.i3c_lines.specs.declared.names.Names.{Names as NamesValue};
ghost use Rattle.i3c_script.specs.Hearing.{Hears};
ghost use Rattle.i3c_script.specs.Obeying.{IsHeard, IsObeyed, ObeysBefore, main_refusal, script};

use crate::journal::Journal;
use crate::piece::{Listener, Piece};
use crate::script_bus::ScriptBus;
use i3c_base::{Addr7, Bcr, Identity, Lvr, Setup, Slot};
use i3c_bus::Refusal as BusRefusal;
use i3c_frame::Symbol;
use i3c_legacy::Legacies;
use i3c_lines::{Command, Name, Names, Refusal};
use i3c_text::{LineError, Text};
use std::alloc::{AllocError, Global};
use std::mem;

/// How far a script has come. It holds the bus, so lines are run on a stage that is lent, and it is retired at the script's
/// end.
pub enum Stage {
    /// Before the bus is made, legacy targets and identities are declared at static addresses.
    Before(Legacies),
    /// The bus runs.
    Running(ScriptBus<Journal>),
}

impl Stage {
    ghost use Rattle.std.specs.Prelude.{OnOk};
    ghost use Rattle.i3c_base.specs.State.{no_board};
    ghost use Rattle.i3c_script.specs.Obeying.{wire_on};
    ghost use Rattle.i3c_script.specs.Situations.{IsEnd};

    /// A script's start: no bus, and nothing declared.
    pub fn new() -> Stage
        ensures { result ≡ Stage.Before no_board }
    {
        Stage::Before(Legacies::new())
    }

    /// Obeys a line, and prints the result. `K` names the caller, so that each caller has it in line.
    pub fn obey<K>(
        &mut self,
        alloc: Global,
        names: &mut Names,
        command: &Command,
        text: &mut Text,
    ) -> Result<(), LineError<Refusal>>
        ensures obeys { IsObeyed (script self.old names.old) command.now text.old text.new result (script self.new names.new) }
    {
        self.obey_heard::<K, Text>(alloc, names, command, text)
    }

    /// Obeys a line, and lets a listener hear what it comes to.
    pub fn obey_heard<K, L: Listener>(
        &mut self,
        alloc: Global,
        names: &mut Names,
        command: &Command,
        listener: &mut L,
    ) -> Result<(), LineError<Refusal>>
        ensures obeys { IsHeard L.heard (script self.old names.old) command.now listener.old listener.new result (script self.new names.new) }
    {
        match self {
            Stage::Running(running) => running.obey::<K, Names, L>(names, command, listener),
            Stage::Before(legacies) => match command {
                Command::Legacy { name, address, lvr } => {
                    add_legacy(legacies, names, name, *address, *lvr, listener)
                }
                Command::Declare { address, identity } => declare(
                    legacies, *address, *identity, listener,
                ),
                Command::Main { name, setup } => self.begin(alloc, names, name, *setup, listener),
                _ => Err(Refusal::NoBus.into()),
            },
        }
    }

    /// `main`: the bus runs from now on.
    // kept apart, so that no other line pays for the room that a bus takes on the stack
    #[cold]
    #[inline(never)]
    fn begin<L: Listener>(
        &mut self,
        alloc: Global,
        names: &mut Names,
        name: &Name,
        setup: Setup,
        listener: &mut L,
    ) -> Result<(), LineError<Refusal>>
        ensures { IsHeard L.heard (script self.old names.old) (CommandValue.Main name.now setup) listener.old listener.new result (script self.new names.new) }
    {
        let Stage::Before(legacies) = self else {
            return Err(Refusal::BusMade.into());
        };
        match main_refusal(names, name, setup.identity.bcr) {
            Some(why) => return Err(LineError::Refused(why)),
            None => {}
        }
        let journal = Journal::new(alloc)?;
        names.give_slot(name, Slot::default())?;
        let declared = mem::replace(legacies, Legacies::new());
        let running = ScriptBus::new(alloc, setup, declared, journal);
        let address = running.bus().address(Slot::default());
        mem::replace(self, Stage::Running(running)).retire();
        listener.hear(Piece::Main(*name, address))?;
        Ok(())
    }

    /// Copies the last symbols of the wire, the oldest first, at most 256. From now on `copy_later` copies those that come.
    pub fn copy_wire(&mut self, symbols: &mut Vec<Symbol>) -> Result<(), AllocError>
        ensures same { self.new ≡ self.old }
        ensures copied { OnOk result (symbols.new.items ≡ wire_on self.old) }
    {
        match self {
            Stage::Before(_) => {
                symbols.clear();
                Ok(())
            }
            Stage::Running(running) => running.copy_wire(symbols),
        }
    }

    /// Copies the symbols that came since `copy_wire`.
    pub fn copy_later(&self, symbols: &mut Vec<Symbol>) -> Result<(), AllocError>
        ensures { OnOk result (IsEnd (wire_on self.now) symbols.new.items) }
    {
        match self {
            Stage::Before(_) => {
                symbols.clear();
                Ok(())
            }
            Stage::Running(running) => running.copy_later(symbols),
        }
    }

    /// Takes the bus apart, if there is one. A session that is open ends so.
    #[inline(always)]
    pub fn retire(self) {
        match self {
            Stage::Before(_) => {}
            Stage::Running(running) => running.retire(),
        }
    }
}

/// `legacy`: declares a legacy target.
fn add_legacy<L: Listener>(
    legacies: &mut Legacies,
    names: &mut Names,
    name: &Name,
    address: Addr7,
    lvr: Lvr,
    listener: &mut L,
) -> Result<(), LineError<Refusal>>
    ensures { Hears L.heard (λ pieces refused. ObeysBefore legacies.old names.old (CommandValue.Legacy name.now address lvr) pieces refused (script (Stage.Before legacies.new) names.new)) listener.old listener.new result }
{
    if names.place_of(name).is_some() {
        return Err(Refusal::NameTaken.into());
    }
    if let Err(fault) = legacies.add(address, lvr) {
        return Err(LineError::Refused(Refusal::Legacy(fault)));
    }
    names.give_address(name, address)?;
    listener.hear(Piece::Legacy(*name, address))?;
    Ok(())
}

/// `declare`: declares an identity at a static address.
fn declare<L: Listener>(
    legacies: &mut Legacies,
    address: Addr7,
    identity: Identity,
    listener: &mut L,
) -> Result<(), LineError<Refusal>>
    ensures { (names : NamesValue) → Hears L.heard (λ pieces refused. ObeysBefore legacies.old names (CommandValue.Declare address identity) pieces refused (script (Stage.Before legacies.new) names)) listener.old listener.new result }
{
    if let Err(fault) = legacies.declare(address, identity) {
        return Err(LineError::Refused(Refusal::Declare(fault)));
    }
    listener.hear(Piece::Declared(address))?;
    Ok(())
}

/// Why a device isn't made the main controller, if it isn't.
fn main_refusal(names: &Names, name: &Name, bcr: Bcr) -> Option<Refusal>
    ensures { result ≡ main_refusal names.now name.now bcr }
{
    if names.place_of(name).is_some() {
        return Some(Refusal::NameTaken);
    }
    if !bcr.capable() {
        return Some(Refusal::Bus(BusRefusal::NotCapable));
    }
    None
}
