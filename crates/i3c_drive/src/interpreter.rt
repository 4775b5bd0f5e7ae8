ghost use Rattle.std.specs.Prelude.{◌≡◌, ℕ, ◌+◌, ◌≤◌, List, ◌++◌, drop, length, suc, OnOk};
ghost use Rattle.i3c_drive.specs.Answers.{AsksAt, forgotten_of, log_of};
ghost use Rattle.i3c_drive.specs.Steps.{Reads, position};
ghost use Rattle.i3c_lines.specs.declared.names.Name.{Name as NameValue};
ghost use Rattle.i3c_lines.specs.Forms.{HasNoForm};
ghost use Rattle.i3c_script.specs.Obeying.{IsBegun};
ghost use Rattle.i3c_script.specs.Printed.{numbered_text};

use i3c_base::Record;
use i3c_lines::{Command, Name, Names, Refusal, is_skipped, push_capitals};
use i3c_script::{Listener, Stage, push_askers, show_records_behind};
use i3c_text::{LineError, Text};
use std::alloc::{AllocError, Global};

/// Names the lines of a driven bus.
struct Driven;

/// Names those that are read in capitals.
struct Capitals;

/// Obeys the lines of a driven bus: its stage and names, and the command of the current line.
pub(crate) struct Interpreter {
    alloc: Global,
    stage: Stage,
    names: Names,
    // the last that was read
    command: Command,
    // a line without a form, in capitals
    capitals: Text,
}

impl Interpreter {
    /// An interpreter before its first line.
    pub(crate) fn new(alloc: Global) -> Interpreter
        ensures { IsBegun (position result) }
    {
        Interpreter {
            alloc,
            stage: Stage::new(),
            names: Names::new(alloc),
            command: Command::Show,
            capitals: Text::new(alloc),
        }
    }

    /// Obeys a line, if it has a command, and lets a listener hear what it comes to.
    pub(crate) fn obey<L: Listener>(
        &mut self,
        line: &[u8],
        listener: &mut L,
    ) -> Result<(), LineError<Refusal>>
        ensures { Reads L.heard (position self.old) line.now listener.old listener.new result (position self.new) }
    {
        match is_skipped(line) {
            Ok(true) => return Ok(()),
            Ok(false) => {}
            Err(refusal) => return Err(LineError::Refused(refusal)),
        }
        match self.command.read::<Driven>(line) {
            Some(()) => self
                .stage
                .obey_heard::<Driven, L>(self.alloc, &mut self.names, &self.command, listener),
            None => self.obey_in_capitals(line, listener),
        }
    }

    /// Obeys a line without a form by its form in capitals, if it has one.
    #[cold]
    #[inline(never)]
    fn obey_in_capitals<L: Listener>(
        &mut self,
        line: &[u8],
        listener: &mut L,
    ) -> Result<(), LineError<Refusal>>
        requires short { length line.now ≤ 256 }
        requires formless { HasNoForm line.now }
        ensures { Reads L.heard (position self.old) line.now listener.old listener.new result (position self.new) }
    {
        self.capitals.clear();
        match push_capitals(line, &mut self.capitals) {
            Ok(()) => {}
            Err(_) => return Err(LineError::Memory),
        }
        match self.command.read::<Capitals>(self.capitals.as_bytes()) {
            Some(()) => self
                .stage
                .obey_heard::<Capitals, L>(self.alloc, &mut self.names, &self.command, listener),
            None => Err(LineError::Refused(Refusal::BadLine)),
        }
    }

    /// The log of the bus. Before the bus it is empty.
    pub(crate) fn log(&self) -> &[Record]
        ensures { result.now ≡ log_of (position self.now) }
    {
        match &self.stage {
            Stage::Before(_) => &[],
            Stage::Running(running) => running.bus().records(),
        }
    }

    /// How many records have left the log.
    pub(crate) fn forgotten(&self) -> usize
        ensures { result ≡ forgotten_of (position self.now) }
    {
        match &self.stage {
            Stage::Before(_) => 0,
            Stage::Running(running) => running.forgotten(),
        }
    }

    /// Appends the records behind the first `count` to a text.
    pub(crate) fn push_added(&self, count: usize, text: &mut Text) -> Result<(), AllocError>
        ensures { OnOk result (text.new ≡ text.old ++ numbered_text (suc (forgotten_of (position self.now) + count)) (drop count (log_of (position self.now)))) }
    {
        match &self.stage {
            Stage::Before(_) => Ok(()),
            Stage::Running(running) => {
                show_records_behind(running.bus().records(), count, running.forgotten(), text)
            }
        }
    }

    /// Appends the names of those whose requests the next frame would meet. Before the bus there are none.
    pub(crate) fn push_asking(&self, asking: &mut Vec<Name>) -> Result<(), AllocError>
        ensures { OnOk result ((found : List NameValue) × AsksAt self.now.stage self.now.names found × (asking.new.items ≡ asking.old.items ++ found)) }
    {
        match &self.stage {
            Stage::Before(_) => return Ok(()),
            Stage::Running(running) => return push_askers(running.bus(), &self.names, asking),
        }
    }

    /// Takes the interpreter apart, with its bus.
    pub(crate) fn retire(self) {
        let Interpreter {
            alloc: _,
            stage,
            names: _,
            command: _,
            capitals: _,
        } = self;
        stage.retire();
    }
}
