ghost use Rattle.std.specs.Prelude.{◌≡◌};
ghost use Rattle.i3c_wave.specs.Dumps.{joined, joined_to, nothing, value_of, vector_value};

use crate::capture::Value;
use crate::capture_fault::CaptureFault;
use crate::dump_word::{
    Code, Command, Lead, bit_in, code_of, command_of, digits_in, is_word, lead_of, number_of,
};
use crate::signals::LineSource;
use crate::timescale::{Magnitude, Timescale, Unit, magnitude_of, unit_of};

/// The place of a dump between two words.
#[derive(Clone, Copy)]
pub(crate) enum DumpPosition {
    /// Between commands.
    Between,
    /// In a command that is passed over.
    Passed,
    /// In a timescale, behind its number or before it.
    Scale(Option<Magnitude>),
    /// In a timescale, behind its unit.
    Scaled,
    /// Before the kind of a signal.
    Kind,
    /// Before its width.
    Width,
    /// Before its code. It has this width.
    Code(Option<u64>),
    /// Before its name. It has this code and this width.
    Name(Option<Code>, Option<u64>),
    /// Behind its name.
    Named(Option<Code>, Option<u64>),
    /// Before the kind of a scope, and before its name.
    ScopeKind,
    ScopeName,
    /// Before the code of a vector's signal. SCL and SDA have these values if they are bits of it.
    Vector(Value, Value),
}

/// Where the level of a line is, as far as signals were declared.
#[derive(Clone, Copy)]
pub(crate) enum LineSearch {
    /// No signal has the line's name.
    Missing,
    /// One signal has it.
    Found(LineSource),
    /// Several have it.
    Several,
}

/// What a dump has said so far: its place, the signals of the two lines, its timescale, and whether its declarations have
/// ended.
#[derive(Clone, Copy, Drop)]
pub(crate) struct Dump {
    place: DumpPosition,
    scl: LineSearch,
    sda: LineSearch,
    scale: Timescale,
    is_defined: bool,
}

/// What a word says.
#[derive(Clone, Copy)]
pub(crate) enum Item {
    /// Nothing of the two lines.
    Nothing,
    /// The time.
    Time(u64),
    /// The values of SCL and SDA from now on, of those that are given.
    Values(Option<Value>, Option<Value>),
    /// A declaration.
    Declared(Declaration),
}

/// What a word declares.
#[derive(Clone, Copy)]
pub(crate) enum Declaration {
    /// A scope begins.
    Scope,
    /// The word is its name.
    ScopeName,
    /// It ends.
    ScopeEnd,
    /// The word is a signal's name, or goes on with it.
    SignalName,
    /// A signal of this code and this width, whose name is whole.
    Signal(Option<Code>, Option<u64>),
    /// There are no more signals.
    End,
}

/// A dump behind a word, and what the word says.
#[derive(Clone, Copy, Drop)]
pub(crate) struct DumpStep {
    pub dump: Dump,
    pub item: Item,
}

impl Dump {
    ghost use Rattle.std.specs.Prelude.{◌≡◌, bytes_eq, codes, true, if◌then◌else◌};
    ghost use Rattle.i3c_wave.specs.DumpWords.{code_of};
    ghost use Rattle.i3c_wave.specs.Timescales.{unit_of};
    ghost use Rattle.i3c_wave.specs.Dumps.{Says, at_place, begun_word, coded, command_said, declared_in, declaring_from, ended, inside, is_ended, new_dump, scale_word, scaled_by, scaled_unit, value_said, vector_place, word_said};

    /// A dump before the first word.
    pub fn new() -> Dump
        ensures { result ≡ new_dump }
    {
        Dump {
            place: DumpPosition::Between,
            scl: LineSearch::Missing,
            sda: LineSearch::Missing,
            scale: Timescale {
                magnitude: Magnitude::One,
                unit: Unit::Nanoseconds,
            },
            is_defined: false,
        }
    }

    /// Its timescale: without one its unit is 1 ns.
    pub fn timescale(&self) -> Timescale
        ensures { result ≡ self.now.scale }
    {
        self.scale
    }

    /// Takes the next word, at this line of the text, and gives what it says.
    pub fn take(&mut self, at: u64, word: &[u8]) -> Result<Item, CaptureFault>
        ensures { Says (word_said self.old at word.now) self.new result }
    {
        match self.place {
            DumpPosition::Between => self.begin(at, word),
            DumpPosition::Vector(scl, sda) => {
                self.place = DumpPosition::Between;
                Ok(self.value(scl, sda, word))
            }
            _ => self.take_inside(at, word),
        }
    }

    /// Takes a word of a command, or its end.
    #[inline(never)]
    fn take_inside(&mut self, at: u64, word: &[u8]) -> Result<Item, CaptureFault>
        ensures { Says (if bytes_eq word.now (codes "$end") then ended self.old at else inside self.old at word.now) self.new result }
    {
        if is_word(word, b"$end") {
            let said = self.end(at);
            self.keep(said)
        } else {
            let said = self.inside(at, word);
            self.keep(said)
        }
    }

    /// Keeps the dump behind a word.
    fn keep(&mut self, said: Result<DumpStep, CaptureFault>) -> Result<Item, CaptureFault>
        ensures { Says said self.new result }
    {
        match said {
            Ok(said) => {
                *self = said.dump;
                Ok(said.item)
            }
            Err(fault) => Err(fault),
        }
    }

    /// Where SCL is, and SDA.
    pub fn lines(&self) -> (LineSearch, LineSearch)
        ensures { result ≡ (self.now.scl, self.now.sda) }
    {
        (self.scl, self.sda)
    }

    /// A signal was declared that may be the source of a line.
    pub fn declare(&mut self, scl: Option<LineSource>, sda: Option<LineSource>)
        ensures { self.new ≡ declared_in self.old scl sda }
    {
        self.scl = joined(self.scl, scl);
        self.sda = joined(self.sda, sda);
    }

    /// The declarations have ended.
    pub fn define(&mut self)
        ensures { self.new ≡ record self.old { is_defined = true } }
    {
        self.is_defined = true;
    }

    /// Ends the text: no command is open, and the declarations have ended.
    pub fn end_text(&self, at: u64) -> Result<(), CaptureFault>
        ensures { result ≡ is_ended self.now at }
    {
        match self.place {
            DumpPosition::Between if self.is_defined => Ok(()),
            _ => Err(CaptureFault::BadWord(at)),
        }
    }

    /// Takes a word between commands.
    fn begin(&mut self, at: u64, word: &[u8]) -> Result<Item, CaptureFault>
        ensures { Says (begun_word self.old at word.now) self.new result }
    {
        let [first, rest @ ..] = word else {
            return Err(CaptureFault::BadWord(at));
        };
        match lead_of(*first) {
            Lead::Command => self.begin_command(command_of(word)),
            Lead::Time => match number_of(rest) {
                Some(time) => Ok(Item::Time(time)),
                None => Err(CaptureFault::BadTime(at)),
            },
            Lead::Low => self.coded(Value::Low, at, rest),
            Lead::High => self.coded(Value::High, at, rest),
            Lead::NoLevel => self.coded(Value::Unknown, at, rest),
            Lead::Vector => {
                self.place = self.vector_place(rest);
                Ok(Item::Nothing)
            }
            Lead::Number => {
                self.place = DumpPosition::Vector(Value::Unknown, Value::Unknown);
                Ok(Item::Nothing)
            }
            Lead::Other => Err(CaptureFault::BadWord(at)),
        }
    }

    /// The place behind a vector of these digits.
    fn vector_place(&self, digits: &[u8]) -> DumpPosition
        ensures { result ≡ vector_place self.now digits.now }
    {
        DumpPosition::Vector(
            vector_value(self.scl, digits),
            vector_value(self.sda, digits),
        )
    }

    /// Goes to the place behind a command's first word.
    #[inline(never)]
    fn begin_command(&mut self, command: Command) -> Result<Item, CaptureFault>
        ensures { Says (command_said self.old command) self.new result }
    {
        let said = self.command(command);
        self.keep(said)
    }

    /// The dump behind the word that begins a command.
    fn command(self, command: Command) -> Result<DumpStep, CaptureFault>
        ensures { result ≡ command_said self command }
    {
        match command {
            Command::End | Command::Values => Ok(nothing(self)),
            Command::Timescale => Ok(nothing(self.at_place(DumpPosition::Scale(None)))),
            Command::Var => Ok(nothing(self.at_place(DumpPosition::Kind))),
            Command::Other => Ok(nothing(self.at_place(DumpPosition::Passed))),
            Command::Scope => Ok(saying(
                self.at_place(DumpPosition::ScopeKind),
                Item::Declared(Declaration::Scope),
            )),
            Command::UpScope => Ok(saying(
                self.at_place(DumpPosition::Passed),
                Item::Declared(Declaration::ScopeEnd),
            )),
            Command::EndDefinitions => Ok(saying(
                self.at_place(DumpPosition::Passed),
                Item::Declared(Declaration::End),
            )),
        }
    }

    /// What the value of a signal says, if it has a code.
    fn coded(&self, value: Value, at: u64, code: &[u8]) -> Result<Item, CaptureFault>
        ensures { Says (coded self.now value at code.now) self.now result }
    {
        if code.is_empty() {
            return Err(CaptureFault::BadWord(at));
        }
        Ok(self.value(value, value, code))
    }

    /// What the value of a signal says: SCL and SDA have these values if they are in it.
    fn value(&self, scl: Value, sda: Value, code: &[u8]) -> Item
        ensures { value_said self.now scl sda (code_of code.now) ≡ record { dump = self.now; item = result } }
    {
        match code_of(code) {
            Some(code) => Item::Values(
                value_of(self.scl, code, scl),
                value_of(self.sda, code, sda),
            ),
            None => Item::Nothing,
        }
    }

    /// Ends a command.
    fn end(self, at: u64) -> Result<DumpStep, CaptureFault>
        ensures { result ≡ ended self at }
    {
        match self.place {
            DumpPosition::Passed | DumpPosition::Scaled => Ok(nothing(self.at_place(
                DumpPosition::Between,
            ))),
            DumpPosition::ScopeKind | DumpPosition::ScopeName => Ok(nothing(self.at_place(
                DumpPosition::Between,
            ))),
            DumpPosition::Named(code, width) => Ok(saying(
                self.at_place(DumpPosition::Between),
                Item::Declared(Declaration::Signal(code, width)),
            )),
            DumpPosition::Scale(_) => Err(CaptureFault::BadTimescale(at)),
            _ => Err(CaptureFault::BadWord(at)),
        }
    }

    /// Takes a word inside a command.
    fn inside(self, at: u64, word: &[u8]) -> Result<DumpStep, CaptureFault>
        ensures { result ≡ inside self at word.now }
    {
        match self.place {
            DumpPosition::Scale(magnitude) => self.scale(magnitude, at, word),
            DumpPosition::Scaled => Err(CaptureFault::BadTimescale(at)),
            DumpPosition::Between | DumpPosition::Passed | DumpPosition::Vector(..) => {
                Ok(nothing(self))
            }
            DumpPosition::Kind | DumpPosition::Width | DumpPosition::Code(_) => {
                Ok(self.declaring(word))
            }
            DumpPosition::Name(..) | DumpPosition::Named(..) => Ok(self.declaring(word)),
            DumpPosition::ScopeKind | DumpPosition::ScopeName => Ok(self.declaring(word)),
        }
    }

    /// Takes a word of a declaration.
    fn declaring(self, word: &[u8]) -> DumpStep
        ensures { result ≡ declaring_from self.place self word.now }
    {
        match self.place {
            DumpPosition::Kind => nothing(self.at_place(DumpPosition::Width)),
            DumpPosition::Width => nothing(self.at_place(DumpPosition::Code(number_of(word)))),
            DumpPosition::Code(width) => nothing(self.at_place(DumpPosition::Name(
                code_of(word),
                width,
            ))),
            DumpPosition::Name(code, width) | DumpPosition::Named(code, width) => saying(
                self.at_place(DumpPosition::Named(code, width)),
                Item::Declared(Declaration::SignalName),
            ),
            DumpPosition::ScopeKind => nothing(self.at_place(DumpPosition::ScopeName)),
            DumpPosition::ScopeName => saying(
                self.at_place(DumpPosition::Passed),
                Item::Declared(Declaration::ScopeName),
            ),
            _ => nothing(self),
        }
    }

    /// Takes a word of a timescale, behind a number or not.
    fn scale(
        self,
        magnitude: Option<Magnitude>,
        at: u64,
        word: &[u8],
    ) -> Result<DumpStep, CaptureFault>
        ensures { result ≡ scale_word self magnitude at word.now }
    {
        let count = digits_in(word);
        match magnitude {
            None => self.scale_by(magnitude_of(&word[..count]), at, &word[count..]),
            Some(magnitude) if count == 0 => self.scale_unit(magnitude, at, word),
            Some(_) => Err(CaptureFault::BadTimescale(at)),
        }
    }

    /// Takes the unit of a timescale behind its number, if it is there.
    fn scale_by(
        self,
        magnitude: Option<Magnitude>,
        at: u64,
        unit: &[u8],
    ) -> Result<DumpStep, CaptureFault>
        ensures { result ≡ scaled_by self magnitude at unit.now }
    {
        match magnitude {
            Some(magnitude) if unit.is_empty() => {
                Ok(nothing(self.at_place(DumpPosition::Scale(Some(magnitude)))))
            }
            Some(magnitude) => self.scale_unit(magnitude, at, unit),
            None => Err(CaptureFault::BadTimescale(at)),
        }
    }

    /// Takes the unit of a timescale.
    fn scale_unit(
        self,
        magnitude: Magnitude,
        at: u64,
        unit: &[u8],
    ) -> Result<DumpStep, CaptureFault>
        ensures { result ≡ scaled_unit self magnitude at (unit_of unit.now) }
    {
        match unit_of(unit) {
            Some(unit) => Ok(nothing(Dump {
                place: DumpPosition::Scaled,
                scale: Timescale { magnitude, unit },
                ..self
            })),
            None => Err(CaptureFault::BadTimescale(at)),
        }
    }

    /// The dump at another place.
    fn at_place(self, place: DumpPosition) -> Dump
        ensures { result ≡ at_place self place }
    {
        Dump { place, ..self }
    }
}

/// A dump behind a word that says this.
fn saying(dump: Dump, item: Item) -> DumpStep
    ensures { result ≡ record { dump = dump; item = item } }
{
    DumpStep { dump, item }
}

/// A dump behind a word that says nothing of the lines.
fn nothing(dump: Dump) -> DumpStep
    ensures { result ≡ nothing dump }
{
    saying(dump, Item::Nothing)
}

/// The value of a line, if it has the code for which the value is given.
fn value_of(line: LineSearch, code: Code, value: Value) -> Option<Value>
    ensures { result ≡ value_of line code value }
{
    match line {
        LineSearch::Found(source) if source.code.is(code) => Some(value),
        _ => None,
    }
}

/// The value of a line in a vector, if it is a bit of it.
fn vector_value(line: LineSearch, digits: &[u8]) -> Value
    ensures { result ≡ vector_value line digits.now }
{
    match line {
        LineSearch::Found(source) => bit_in(digits, source.bit),
        _ => Value::Unknown,
    }
}

/// A line, behind the declaration of a signal that may be its source.
fn joined(line: LineSearch, source: Option<LineSource>) -> LineSearch
    ensures { result ≡ joined line source }
{
    match (line, source) {
        (line, None) => line,
        (LineSearch::Missing, Some(source)) => LineSearch::Found(source),
        (LineSearch::Found(first), Some(source)) => joined_to(first, source),
        (LineSearch::Several, Some(_)) => LineSearch::Several,
    }
}

/// A line that was found, behind the declaration of another source: one signal may have several names.
fn joined_to(first: LineSource, source: LineSource) -> LineSearch
    ensures { result ≡ joined_to first source }
{
    if first.code.is(source.code) && first.bit == source.bit {
        LineSearch::Found(first)
    } else {
        LineSearch::Several
    }
}
