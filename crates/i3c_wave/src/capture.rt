ghost use Rattle.std.specs.Prelude.{◌≡◌};
ghost use Rattle.i3c_wave.specs.Captures.{bit_of, is_same_lines, is_same_value, level_of, new_value, with_values};

use crate::edges::{Edges, Mark};
use crate::levels::Level;
use crate::reader::{Reader, Reading};
use crate::stamped::Stamped;
use i3c_base::Addresses;

/// The value of one line in a capture.
#[derive(Clone, Copy)]
pub(crate) enum Value {
    Low,
    High,
    /// Neither low nor high, as `x` and `z` are.
    Unknown,
}

/// The values of both lines.
#[derive(Clone, Copy)]
pub(crate) struct Lines {
    pub scl: Value,
    pub sda: Value,
}

/// What is heard in a capture.
#[derive(Clone, Copy)]
pub(crate) enum CaptureEvent {
    /// A symbol.
    Symbol(Stamped),
    /// A frame can't be read: no symbol ends at this time.
    Misread(u64),
    /// A frame can't be read: a line has no level from this time on.
    Cut(u64),
    /// A line has no level from this time on, outside a frame.
    Gap(u64),
}

/// A capture that is being read: its time in units of its timescale, the values of the lines, since when they have them, and
/// what is heard and read of the values before.
#[derive(Clone, Copy, Drop)]
pub(crate) struct Capture {
    time: u64,
    since: u64,
    lines: Lines,
    /// The watcher of the lines, from the first level on that lasts.
    edges: Option<Edges>,
    reader: Reader,
    /// Whether frames are read: a START was read, and since then nothing that can't be read.
    started: bool,
}

impl Capture {
    ghost use Rattle.std.specs.Prelude.{◌≡◌, Some, None, if◌then◌else◌};
    ghost use Rattle.i3c_wave.specs.Captures.{Hears, at_time, changed, heard, level_heard, mark_read, new_capture, read_as, settled, unlevelled, watched, with_values};

    /// A capture before the first change. Legacy targets have these addresses. A line without a value is high.
    pub fn new(legacies: Addresses) -> Capture
        ensures { result ≡ new_capture legacies }
    {
        let lines = Lines {
            scl: Value::High,
            sda: Value::High,
        };
        Capture {
            time: 0,
            since: 0,
            lines,
            edges: None,
            reader: Reader::new(legacies),
            started: false,
        }
    }

    /// Goes on to a time, unless it is before the present one.
    pub fn advance(&mut self, time: u64) -> bool
        ensures { at_time self.old time ≡ if result then Some self.new else None }
    {
        if time < self.time {
            return false;
        }
        self.time = time;
        true
    }

    /// The lines have these values from now on, where one is given: the event that is whole by it. Values of the lines that
    /// lasted for less than a setup time are left out.
    pub fn change(
        &mut self,
        scl: Option<Value>,
        sda: Option<Value>,
        setup: u64,
    ) -> Option<CaptureEvent>
        ensures { Hears (changed setup self.old (with_values self.old.lines scl sda)) self.new result }
    {
        let lines = with_values(self.lines, scl, sda);
        if is_same_lines(self.lines, lines) {
            return None;
        }
        let event = self.settle(setup);
        self.lines = lines;
        self.since = self.time;
        event
    }

    /// What is heard of the values so far, if they lasted.
    fn settle(&mut self, setup: u64) -> Option<CaptureEvent>
        ensures { Hears (settled setup self.old) self.new result }
    {
        if self.time.saturating_sub(self.since) < setup {
            None
        } else {
            self.hear()
        }
    }

    /// What is heard of the values so far. The last ones of a capture last.
    pub fn hear(&mut self) -> Option<CaptureEvent>
        ensures { Hears (heard self.old) self.new result }
    {
        match level_of(self.lines) {
            Some(level) => self.hear_level(level),
            None => Some(self.lose_level()),
        }
    }

    /// What is heard where a line has no level. The lines are watched anew from their next level on.
    #[cold]
    #[inline(never)]
    fn lose_level(&mut self) -> CaptureEvent
        ensures { Hears (unlevelled self.old) self.new (Some result) }
    {
        let was_open = self.reader.is_open();
        self.edges = None;
        self.reader.wait();
        self.started = false;
        if was_open {
            CaptureEvent::Cut(self.since)
        } else {
            CaptureEvent::Gap(self.since)
        }
    }

    /// What is heard of a level of the lines.
    fn hear_level(&mut self, level: Level) -> Option<CaptureEvent>
        ensures { Hears (level_heard self.old level) self.new result }
    {
        match self.edges {
            None => {
                self.edges = Some(Edges { level, bit: None });
                None
            }
            Some(edges) => self.hear_edges(edges, level),
        }
    }

    /// What a watcher of the lines hears of it.
    fn hear_edges(&mut self, edges: Edges, level: Level) -> Option<CaptureEvent>
        ensures { Hears (watched self.old edges level) self.new result }
    {
        let mut next = edges;
        let mark = next.hear(level);
        self.edges = Some(next);
        match mark {
            None => None,
            Some(mark) => self.read(mark),
        }
    }

    /// What is read of a mark.
    fn read(&mut self, mark: Mark) -> Option<CaptureEvent>
        ensures { Hears (mark_read self.old mark) self.new result }
    {
        let reading = self.reader.read(mark);
        self.read_as(reading)
    }

    /// Handles a reading: a symbol gets its time. Behind what can't be read nothing is told up to the next START.
    fn read_as(&mut self, reading: Reading) -> Option<CaptureEvent>
        ensures { Hears (read_as self.old reading) self.new result }
    {
        match reading {
            Reading::Partial => None,
            Reading::Symbol(symbol) => {
                self.started = true;
                Some(CaptureEvent::Symbol(Stamped {
                    symbol,
                    time: self.since,
                }))
            }
            Reading::Misread if self.started => {
                self.started = false;
                Some(CaptureEvent::Misread(self.since))
            }
            Reading::Misread => None,
        }
    }
}

/// The values of the lines, some of which are given anew.
fn with_values(lines: Lines, scl: Option<Value>, sda: Option<Value>) -> Lines
    ensures { result ≡ with_values lines scl sda }
{
    Lines {
        scl: new_value(lines.scl, scl),
        sda: new_value(lines.sda, sda),
    }
}

/// A value, or the one that is given anew.
fn new_value(old: Value, given: Option<Value>) -> Value
    ensures { result ≡ new_value old given }
{
    match given {
        Some(value) => value,
        None => old,
    }
}

/// Whether both lines have equal values.
fn is_same_lines(one: Lines, other: Lines) -> bool
    ensures { result ≡ is_same_lines one other }
{
    is_same_value(one.scl, other.scl) && is_same_value(one.sda, other.sda)
}

/// Whether two values are equal.
fn is_same_value(one: Value, other: Value) -> bool
    ensures { result ≡ is_same_value one other }
{
    match one {
        Value::Low => matches!(other, Value::Low),
        Value::High => matches!(other, Value::High),
        Value::Unknown => matches!(other, Value::Unknown),
    }
}

/// The level of the lines, if both have one.
fn level_of(lines: Lines) -> Option<Level>
    ensures { result ≡ level_of lines }
{
    match (bit_of(lines.scl), bit_of(lines.sda)) {
        (Some(scl), Some(sda)) => Some(Level { scl, sda }),
        _ => None,
    }
}

/// Whether a value is high, if it is a level.
fn bit_of(value: Value) -> Option<bool>
    ensures { result ≡ bit_of value }
{
    match value {
        Value::Low => Some(false),
        Value::High => Some(true),
        Value::Unknown => None,
    }
}
