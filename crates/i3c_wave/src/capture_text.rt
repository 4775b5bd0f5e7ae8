ghost use Rattle.std.specs.Prelude.{◌≡◌, position};
ghost use Rattle.i3c_wave.specs.CaptureTexts.{is_space, letters_in};

use crate::capture::{Capture, CaptureEvent};
use crate::capture_fault::CaptureFault;
use crate::captured::Captured;
use crate::dump::{Declaration, Dump, Item, LineSearch};
use crate::dump_word::Code;
use crate::signals::Signals;
use crate::timescale::Timescale;
use i3c_base::Addresses;
use i3c_text::Text;
use std::alloc::Global;

/// How many bytes a word of a dump may have.
const MOST_LETTERS: usize = 65_536;

/// What is read of the whole words of a capture's text: what they say, the lines, and the number of the text's line.
#[derive(Drop)]
pub(crate) struct CaptureWords {
    dump: Dump,
    signals: Signals,
    capture: Capture,
    line: u64,
}

impl CaptureWords {
    ghost use Rattle.std.specs.Prelude.{◌≡◌, [], IfNone, Ok};
    ghost use Rattle.i3c_wave.specs.Found.{Found, found_in};
    ghost use Rattle.i3c_wave.specs.CaptureTexts.{Declares, Reads, Takes, behind, closed, declared, defined, fault_of_lines, input, item_heard, letters_kept, new_reached, part_read, parted, with_signal, with_signals, word_ended, word_taken};
    ghost use Rattle.i3c_wave.specs.Signals.{listed};

    /// The words of a capture before the first one. Legacy targets have these addresses.
    pub fn new(alloc: Global, legacies: Addresses) -> CaptureWords
        ensures { result ≡ new_reached legacies }
    {
        CaptureWords {
            dump: Dump::new(),
            signals: Signals::new(alloc),
            capture: Capture::new(legacies),
            line: 1,
        }
    }

    /// Takes letters, which go on with the word that is open, and the space behind them. As a rule they are a whole word.
    pub fn take_part(
        &mut self,
        scl: &[u8],
        sda: &[u8],
        letters: &[u8],
        space: u8,
        word: &mut Text,
        captured: &mut Captured,
    ) -> Result<(), CaptureFault>
        ensures { Reads (part_read scl.now sda.now (input self.old word.old (found_in captured.old)) letters.now space) self.new word.new (found_in captured.new) result }
    {
        if word.as_bytes().is_empty() && letters.len() <= MOST_LETTERS {
            return self.take_whole(scl, sda, letters, space, captured);
        }
        match self.keep_letters(letters, word) {
            Ok(()) => {}
            Err(fault) => return Err(fault),
        }
        match self.end_word(scl, sda, word, captured) {
            Ok(()) => {
                self.pass(space);
                Ok(())
            }
            Err(fault) => Err(fault),
        }
    }

    /// Takes a whole word, and the space behind it.
    fn take_whole(
        &mut self,
        scl: &[u8],
        sda: &[u8],
        word: &[u8],
        space: u8,
        captured: &mut Captured,
    ) -> Result<(), CaptureFault>
        ensures { Reads (parted space (word_ended scl.now sda.now (input self.old word.now (found_in captured.old)))) self.new [] (found_in captured.new) result }
    {
        match self.end_letters(scl, sda, word, captured) {
            Ok(()) => {
                self.pass(space);
                Ok(())
            }
            Err(fault) => Err(fault),
        }
    }

    /// Keeps letters of a word that is open.
    pub fn keep_letters(&self, letters: &[u8], word: &mut Text) -> Result<(), CaptureFault>
        ensures { (found : Found) → Reads (letters_kept (input self.now word.old found) letters.now) self.now word.new found result }
    {
        if !letters.is_empty() && word.as_bytes().len() + letters.len() > MOST_LETTERS {
            return Err(CaptureFault::BadWord(self.line));
        }
        match word.push(letters) {
            Ok(()) => Ok(()),
            Err(_) => Err(CaptureFault::Memory),
        }
    }

    /// Ends a word, if it has letters.
    pub fn end_word(
        &mut self,
        scl: &[u8],
        sda: &[u8],
        word: &mut Text,
        captured: &mut Captured,
    ) -> Result<(), CaptureFault>
        ensures { Reads (word_ended scl.now sda.now (input self.old word.old (found_in captured.old))) self.new word.new (found_in captured.new) result }
    {
        match self.end_letters(scl, sda, word.as_bytes(), captured) {
            Ok(()) => {
                word.clear();
                Ok(())
            }
            Err(fault) => Err(fault),
        }
    }

    /// Takes the letters of a whole word, if there are any.
    fn end_letters(
        &mut self,
        scl: &[u8],
        sda: &[u8],
        letters: &[u8],
        captured: &mut Captured,
    ) -> Result<(), CaptureFault>
        ensures { Reads (word_ended scl.now sda.now (input self.old letters.now (found_in captured.old))) self.new [] (found_in captured.new) result }
    {
        if letters.is_empty() {
            return Ok(());
        }
        match self.take(scl, sda, letters) {
            Ok(event) => captured.keep(event, self.timescale()),
            Err(fault) => Err(fault),
        }
    }

    /// Takes the next word, and gives the event that is whole by it.
    fn take(
        &mut self,
        scl: &[u8],
        sda: &[u8],
        word: &[u8],
    ) -> Result<Option<CaptureEvent>, CaptureFault>
        ensures { Takes (word_taken scl.now sda.now self.old word.now) self.new result }
    {
        match self.dump.take(self.line, word) {
            Ok(item) => self.take_item(scl, sda, word, item),
            Err(fault) => Err(fault),
        }
    }

    /// Takes what a word says.
    fn take_item(
        &mut self,
        scl: &[u8],
        sda: &[u8],
        word: &[u8],
        item: Item,
    ) -> Result<Option<CaptureEvent>, CaptureFault>
        ensures { Takes (item_heard scl.now sda.now self.old word.now item) self.new result }
    {
        match item {
            Item::Nothing => Ok(None),
            Item::Time(time) => {
                if self.capture.advance(time) {
                    Ok(None)
                } else {
                    Err(CaptureFault::BadTime(self.line))
                }
            }
            Item::Values(clock, data) => {
                Ok(
                    self.capture
                        .change(clock, data, self.dump.timescale().setup()),
                )
            }
            Item::Declared(declaration) => self.take_declaration(scl, sda, word, declaration),
        }
    }

    /// Takes what a word declares.
    #[cold]
    #[inline(never)]
    fn take_declaration(
        &mut self,
        scl: &[u8],
        sda: &[u8],
        word: &[u8],
        declaration: Declaration,
    ) -> Result<Option<CaptureEvent>, CaptureFault>
        ensures { Takes (declared scl.now sda.now self.old word.now declaration) self.new result }
    {
        match self.declare(scl, sda, word, declaration) {
            Ok(()) => Ok(None),
            Err(fault) => Err(fault),
        }
    }

    /// The same, which is no event.
    fn declare(
        &mut self,
        scl: &[u8],
        sda: &[u8],
        word: &[u8],
        declaration: Declaration,
    ) -> Result<(), CaptureFault>
        ensures { Declares (declared scl.now sda.now self.old word.now declaration) self.new result }
    {
        match declaration {
            Declaration::Scope => self.signals.enter(),
            Declaration::ScopeName => self.signals.name_scope(word),
            Declaration::ScopeEnd => {
                self.signals.leave();
                Ok(())
            }
            Declaration::SignalName => self.signals.push_name(word),
            Declaration::Signal(code, width) => self.declare_signal(scl, sda, code, width),
            Declaration::End => self.define(),
        }
    }

    /// A signal of this code and this width was declared, and may be a line.
    fn declare_signal(
        &mut self,
        scl: &[u8],
        sda: &[u8],
        code: Option<Code>,
        width: Option<u64>,
    ) -> Result<(), CaptureFault>
        ensures { Declares (Ok (with_signals (with_signal scl.now sda.now self.old code width) (listed self.old.signals))) self.new result }
    {
        let clock = self.signals.source(scl, code, width);
        let data = self.signals.source(sda, code, width);
        self.dump.declare(clock, data);
        self.signals.list()
    }

    /// The declarations end, if both lines have one signal.
    fn define(&mut self) -> Result<(), CaptureFault>
        ensures { Declares (defined self.old (fault_of_lines self.old)) self.new result }
    {
        match self.line_fault() {
            Some(fault) => Err(fault),
            None => {
                self.dump.define();
                Ok(())
            }
        }
    }

    /// The fault of the first line that hasn't one signal.
    fn line_fault(&mut self) -> Option<CaptureFault>
        ensures fault { result ≡ fault_of_lines self.old }
        ensures same { IfNone result (self.new ≡ self.old) }
    {
        match self.dump.lines() {
            (LineSearch::Found(_), LineSearch::Found(_)) => None,
            (LineSearch::Missing, _) => Some(CaptureFault::NoScl(self.signals.take_names())),
            (LineSearch::Several, _) => Some(CaptureFault::SeveralScl(self.signals.take_names())),
            (LineSearch::Found(_), LineSearch::Missing) => {
                Some(CaptureFault::NoSda(self.signals.take_names()))
            }
            (LineSearch::Found(_), LineSearch::Several) => {
                Some(CaptureFault::SeveralSda(self.signals.take_names()))
            }
        }
    }

    /// Passes over a space. A line feed ends a line.
    fn pass(&mut self, space: u8)
        ensures { self.new ≡ behind self.old space }
    {
        if space == b'\n' && self.line < u64::MAX {
            self.line += 1;
        }
    }

    /// What times are counted in.
    pub fn timescale(&self) -> Timescale
        ensures { result ≡ self.now.dump.scale }
    {
        self.dump.timescale()
    }

    /// What is heard at the end of the text.
    pub fn close(&mut self) -> Result<Option<CaptureEvent>, CaptureFault>
        ensures { Takes (closed self.old) self.new result }
    {
        if let Some(fault) = self.line_fault() {
            return Err(fault);
        }
        match self.dump.end_text(self.line) {
            Ok(()) => Ok(self.capture.hear()),
            Err(fault) => Err(fault),
        }
    }
}

/// How many letters of a word are before the first space, or before the end.
pub(crate) fn letters_in(bytes: &[u8]) -> usize
    ensures { result ≡ letters_in bytes.now }
{
    first_space(bytes).unwrap_or(bytes.len())
}

/// Where the first space is.
fn first_space(bytes: &[u8]) -> Option<usize>
    ensures { result ≡ position is_space bytes.now }
{
    bytes.iter().position(|byte| is_space(*byte))
}

/// Whether a byte parts words: a space, or a control byte.
fn is_space(byte: u8) -> bool
    ensures { result ≡ is_space byte }
{
    byte <= b' '
}
