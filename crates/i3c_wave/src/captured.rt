ghost use Rattle.std.specs.Prelude.{◌≡◌, map, IfOk};
ghost use Rattle.i3c_wave.specs.Found.{first_time, unread_text, without_time};

use crate::capture::CaptureEvent;
use crate::capture_fault::CaptureFault;
use crate::stamped::Stamped;
use crate::timescale::{Instant, Timescale};
use i3c_frame::Symbol;
use i3c_text::Text;
use std::alloc::{AllocError, Global};

/// Why a frame of a capture can't be read.
#[derive(Clone, Copy, Debug, PartialEq, Eq)]
pub enum Unread {
    /// The bits up to a level are no symbol that is allowed there.
    NoSymbol,
    /// A line has no level.
    NoLevel,
}

/// A frame of a capture that can't be read: why, and since when.
#[derive(Clone, Copy, Debug, PartialEq, Eq)]
pub struct Loss {
    pub why: Unread,
    pub at: Instant,
}

/// What is told of a frame behind its number.
#[derive(Clone, Copy, Debug, PartialEq, Eq)]
pub enum FrameMark {
    /// Nothing.
    Bare,
    /// The time of its START, in units of its capture's timescale.
    At(u64),
    /// It can't be read, and has no symbols to tell.
    Lost(Loss),
}

/// What is read of a capture: its frames, with a mark for each that ended, and the first time at which a line had no level.
/// In place of a frame that can't be read there are a START and a STOP alone.
#[derive(Drop)]
pub struct Captured {
    pub symbols: Vec<Symbol>,
    pub marks: Vec<FrameMark>,
    pub gap: Option<Instant>,
    /// How many of the symbols are those of frames that ended.
    pub(crate) whole: usize,
    /// When the open frame began.
    pub(crate) begun: u64,
}

impl Loss {
    ghost use Rattle.std.specs.Prelude.{◌≡◌, ◌++◌, OnOk};
    ghost use Rattle.i3c_wave.specs.Found.{loss_text};

    /// Appends what is told of the frame behind its number.
    pub fn push(&self, text: &mut Text) -> Result<(), AllocError>
        ensures { OnOk result (text.new ≡ text.old ++ loss_text self.now) }
    {
        text.push(unread_text(self.why))?;
        self.at.push(text)
    }
}

impl Captured {
    ghost use Rattle.std.specs.Prelude.{◌≡◌};
    ghost use Rattle.i3c_wave.specs.declared.captured.Unread.{Unread};
    ghost use Rattle.i3c_wave.specs.Found.{Finds, ended, found_in, marked, nothing_found, with_any, with_event, with_gap, with_loss, with_next, with_symbol};

    /// Nothing yet.
    pub(crate) fn new(alloc: Global) -> Captured
        ensures { found_in result ≡ nothing_found }
    {
        Captured {
            symbols: Vec::new(alloc),
            marks: Vec::new(alloc),
            gap: None,
            whole: 0,
            begun: 0,
        }
    }

    /// Keeps an event, if there is one. Its time is counted in this timescale.
    // in line, since most tokens of a dump complete none
    #[inline(always)]
    pub(crate) fn keep(
        &mut self,
        event: Option<CaptureEvent>,
        scale: Timescale,
    ) -> Result<(), CaptureFault>
        ensures { Finds (with_any scale (found_in self.old) event) self.new result }
    {
        match event {
            None => Ok(()),
            Some(event) => self.keep_event(event, scale),
        }
    }

    /// Keeps an event.
    fn keep_event(&mut self, event: CaptureEvent, scale: Timescale) -> Result<(), CaptureFault>
        ensures { Finds (with_event scale (found_in self.old) event) self.new result }
    {
        match event {
            CaptureEvent::Symbol(Stamped { symbol, time }) => self.keep_symbol(symbol, time),
            CaptureEvent::Misread(time) => {
                let at = Instant { time, scale };
                self.lose_frame(Loss {
                    why: Unread::NoSymbol,
                    at,
                })
            }
            CaptureEvent::Cut(time) => self.cut_frame(Instant { time, scale }),
            CaptureEvent::Gap(time) => {
                self.note_gap(Instant { time, scale });
                Ok(())
            }
        }
    }

    /// Keeps a symbol at its time: a frame begins with a START, and a STOP ends it.
    fn keep_symbol(&mut self, symbol: Symbol, time: u64) -> Result<(), CaptureFault>
        ensures { Finds (with_symbol (found_in self.old) symbol time) self.new result }
    {
        match symbol {
            Symbol::Start => {
                self.begun = time;
                self.push_symbol(symbol)
            }
            Symbol::Stop => self.end_frame(FrameMark::At(self.begun)),
            _ => self.push_symbol(symbol),
        }
    }

    /// Appends a symbol.
    fn push_symbol(&mut self, symbol: Symbol) -> Result<(), CaptureFault>
        ensures { Finds (with_next (found_in self.old) symbol) self.new result }
    {
        match self.symbols.push(symbol) {
            Ok(()) => Ok(()),
            Err(_) => Err(CaptureFault::Memory),
        }
    }

    /// Ends the open frame, which has this mark.
    fn end_frame(&mut self, mark: FrameMark) -> Result<(), CaptureFault>
        ensures { Finds (ended (found_in self.old) mark) self.new result }
    {
        match self.push_symbol(Symbol::Stop) {
            Ok(()) => self.push_mark(mark),
            Err(fault) => Err(fault),
        }
    }

    /// Appends the mark of a frame that has ended.
    fn push_mark(&mut self, mark: FrameMark) -> Result<(), CaptureFault>
        ensures { Finds (marked (found_in self.old) mark) self.new result }
    {
        self.whole = self.symbols.len();
        match self.marks.push(mark) {
            Ok(()) => Ok(()),
            Err(_) => Err(CaptureFault::Memory),
        }
    }

    /// Leaves out the symbols of the open frame, which can't be read.
    #[cold]
    #[inline(never)]
    fn lose_frame(&mut self, loss: Loss) -> Result<(), CaptureFault>
        ensures { Finds (with_loss (found_in self.old) loss) self.new result }
    {
        self.symbols.truncate(self.whole);
        match self.push_symbol(Symbol::Start) {
            Ok(()) => self.end_frame(FrameMark::Lost(loss)),
            Err(fault) => Err(fault),
        }
    }

    /// Loses the open frame, since a line has no level.
    fn cut_frame(&mut self, at: Instant) -> Result<(), CaptureFault>
        ensures { Finds (with_gap (with_loss (found_in self.old) (record { why = Unread.NoLevel; at = at })) at) self.new result }
    {
        let why = Unread::NoLevel;
        match self.lose_frame(Loss { why, at }) {
            Ok(()) => {
                self.note_gap(at);
                Ok(())
            }
            Err(fault) => Err(fault),
        }
    }

    /// Notes that a line has no level. The first time counts.
    fn note_gap(&mut self, at: Instant)
        ensures { found_in self.new ≡ with_gap (found_in self.old) at }
    {
        self.gap = first_time(self.gap, at);
    }
}

/// The first of two times, if there was one before.
fn first_time(first: Option<Instant>, next: Instant) -> Option<Instant>
    ensures { result ≡ first_time first next }
{
    match first {
        Some(first) => Some(first),
        None => Some(next),
    }
}

/// Why a frame can't be read.
fn unread_text(why: Unread) -> &'static [u8]
    ensures { result.now ≡ unread_text why }
{
    match why {
        Unread::NoSymbol => b": no symbol ends at ",
        Unread::NoLevel => b": a line has no level at ",
    }
}

/// These marks without their times.
pub fn without_times(alloc: Global, marks: &[FrameMark]) -> Result<Vec<FrameMark>, AllocError>
    ensures { IfOk result (λ bare. bare.items ≡ map without_time marks.now) }
{
    let mut bare = Vec::with_capacity(alloc, marks.len())?;
    for mark in marks {
        bare.push(without_time(*mark))?;
    }
    Ok(bare)
}

/// A mark without its time.
fn without_time(mark: FrameMark) -> FrameMark
    ensures { result ≡ without_time mark }
{
    match mark {
        FrameMark::At(_) => FrameMark::Bare,
        mark => mark,
    }
}
