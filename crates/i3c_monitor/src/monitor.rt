ghost use Rattle.std.specs.Prelude.{◌+◌, ◌^◌, ◌<◌, ◌≤◌, length};

use crate::behind::count_behind;
use crate::decoded::Decoded;
use crate::header::{Header, Mode, read_header};
use i3c_ccc::CodeSet;
use i3c_frame::Symbol;
use i3c_text::LineError;
use std::alloc::{AllocError, Global};

/// A monitor goes through the symbols of a trace and tells what they are.
#[derive(Drop)]
pub struct Monitor<'a> {
    alloc: Global,
    /// The codes that are known by name.
    codes: CodeSet,
    /// The symbols that aren't told yet.
    rest: &'a [Symbol],
    /// How many symbols come before the rest.
    before: usize,
    /// How many frames have begun.
    frames: usize,
    mode: Mode,
    ghost in_range: { before + length rest.now + 1 < 2 ^ 64 },
    ghost counted: { frames ≤ before },
}

impl<'a> Monitor<'a> {
    ghost use Rattle.std.specs.Prelude.{◌≡◌, ◌≤◌, [], ◌∷◌, ◌++◌, length, IfOk, None};
    ghost use Rattle.std.specs.Option.{option_to_list};
    ghost use Rattle.i3c_ccc.specs.declared.codes.CodeSet.{CodeSet};
    ghost use Rattle.i3c_monitor.specs.Trace.{header_told, to_come, trace_told};

    /// At the beginning of these symbols. The codes of the table are told by name.
    pub fn new(alloc: Global, symbols: &'a [Symbol]) -> Monitor<'a>
        ensures { to_come result ≡ trace_told CodeSet.Table symbols.now }
    {
        Monitor::knowing(alloc, CodeSet::Table, symbols)
    }

    /// At the beginning of these symbols. These codes are told by name.
    pub fn knowing(alloc: Global, codes: CodeSet, symbols: &'a [Symbol]) -> Monitor<'a>
        ensures { to_come result ≡ trace_told codes symbols.now }
    {
        Monitor {
            alloc,
            codes,
            rest: symbols,
            before: 0,
            frames: 0,
            mode: Mode::Skipped,
        }
    }

    /// What comes next, or `None` at the end. After a fault it is the end. Symbols that don't follow one another as
    /// those of a trace do are passed over.
    // in line with all that is taken, since it is asked for each symbol
    #[inline(always)]
    pub fn next(&mut self) -> Result<Option<Decoded>, AllocError>
        ensures told { IfOk result (λ decoded. to_come self.old ≡ option_to_list decoded ++ to_come self.new) }
        ensures ended { result ≡ Ok None → to_come self.old ≡ [] }
    {
        while let [symbol, rest @ ..] = self.rest {
            let decoded = self.take(symbol, rest)?;
            if decoded.is_some() {
                return Ok(decoded);
            }
        }
        Ok(None)
    }

    /// Takes the next symbol, with all behind it if it is a header, and tells what it is.
    #[inline(always)]
    fn take(&mut self, symbol: &Symbol, rest: &'a [Symbol]) -> Result<Option<Decoded>, AllocError>
        requires { self.old.rest.now ≡ symbol.now ∷ rest.now }
        ensures told { IfOk result (λ decoded. to_come self.old ≡ option_to_list decoded ++ to_come self.new) }
        ensures shorter { length self.new.rest.now ≤ length rest.now }
    {
        self.rest = rest;
        self.before += 1;
        if let Symbol::Start = symbol {
            self.frames += 1;
            self.mode = Mode::First;
            return Ok(Some(Decoded::FrameStart(self.frames)));
        }
        match Header::of(symbol) {
            Some(header) => self.take_behind(&header),
            None => Ok(None),
        }
    }

    /// Takes the symbols behind a header, and tells what they are.
    #[inline(always)]
    fn take_behind(&mut self, header: &Header) -> Result<Option<Decoded>, AllocError>
        ensures told { IfOk result (λ decoded. header_told self.old header.now ≡ option_to_list decoded ++ to_come self.new) }
        ensures shorter { length self.new.rest.now ≤ length self.old.rest.now }
    {
        let (symbols, after) = self.rest.split_at(count_behind(self.rest));
        let before = self.before;
        self.rest = after;
        self.before += symbols.len();
        match read_header(self.alloc, self.codes, &self.mode, header, symbols, before) {
            Ok(told) => {
                self.mode = told.mode;
                Ok(told.decoded)
            }
            Err(LineError::Refused(fault)) => {
                self.rest = &[];
                Ok(Some(Decoded::Refused(fault)))
            }
            Err(LineError::Memory) => Err(AllocError),
        }
    }
}
