ghost use Rattle.std.specs.Prelude.{◌+◌, ◌^◌, ◌<◌, ◌≤◌, length};

use crate::address_statuses::AddressStatuses;
use crate::behind::count_behind;
use crate::checks::{checks, push_found};
use crate::decoded::Decoded;
use crate::header::{Header, Mode, settled_header};
use crate::lint::{Spot, ends_at_once, mode_at};
use crate::lint_fault::LintFault;
use crate::report::Report;
use i3c_base::Addresses;
use i3c_frame::Symbol;
use std::alloc::{AllocError, Global};
use std::mem;

/// A monitor that also checks: it decodes a trace, and tells each frame's faults at the frame's end.
#[derive(Drop)]
pub struct Linter<'a> {
    alloc: Global,
    /// The addresses that are known to be legacy targets'.
    legacies: Addresses,
    /// The symbols that aren't told yet.
    rest: &'a [Symbol],
    /// How many symbols come before the rest.
    before: usize,
    /// How many frames have begun.
    frames: usize,
    mode: Mode,
    known: AddressStatuses,
    /// The faults of the frame so far.
    faults: Vec<LintFault>,
    ghost in_range: { before + length rest.now + 1 < 2 ^ 64 },
    ghost counted: { frames ≤ before },
}

impl<'a> Linter<'a> {
    ghost use Rattle.std.specs.Prelude.{◌≡◌, ◌≤◌, [], ◌∷◌, ◌++◌, ◌<◌, length, IfOk, IsSome, None};
    ghost use Rattle.i3c_monitor.specs.Lint.{trace_linted};
    ghost use Rattle.i3c_monitor.specs.Linting.{header_to_come, left, reported, to_come};

    /// At the beginning of these symbols. A frame that begins with one of these addresses is a private transfer.
    pub fn new(alloc: Global, legacies: Addresses, symbols: &'a [Symbol]) -> Linter<'a>
        ensures { to_come result ≡ trace_linted legacies.0 symbols.now }
    {
        Linter {
            alloc,
            legacies,
            rest: symbols,
            before: 0,
            frames: 0,
            mode: Mode::Skipped,
            known: AddressStatuses::new(),
            faults: Vec::new(alloc),
        }
    }

    /// What comes next, or `None` at the end. After a refusal the next frame comes. Symbols that don't follow one another
    /// as those of a trace do are passed over.
    pub fn next(&mut self) -> Result<Option<Report>, AllocError>
        ensures told { IfOk result (λ report. to_come self.old ≡ reported report ++ to_come self.new) }
        ensures ended { result ≡ Ok None → to_come self.old ≡ [] }
        // a report may have no line: that of a frame without a fault
        ensures further { IfOk result (λ report. IsSome report → left self.new < left self.old) }
    {
        while let [symbol, rest @ ..] = self.rest {
            if let Some(report) = self.take(symbol, rest)? {
                return Ok(Some(report));
            }
        }
        Ok(None)
    }

    /// Takes the next symbol, with all behind it if it is a header, and tells what it is.
    fn take(&mut self, symbol: &Symbol, rest: &'a [Symbol]) -> Result<Option<Report>, AllocError>
        requires { self.old.rest.now ≡ symbol.now ∷ rest.now }
        ensures told { IfOk result (λ report. to_come self.old ≡ reported report ++ to_come self.new) }
        ensures shorter { length self.new.rest.now ≤ length rest.now }
    {
        self.rest = rest;
        self.before += 1;
        if let Symbol::Start = symbol {
            self.frames += 1;
            self.mode = Mode::First;
            self.known.forget_if(ends_at_once(rest));
            return Ok(Some(Report::Decoded(Decoded::FrameStart(self.frames))));
        }
        if let Symbol::Stop = symbol {
            let faults = mem::replace(&mut self.faults, Vec::new(self.alloc));
            return Ok(Some(Report::Faults(faults)));
        }
        match Header::of(symbol) {
            Some(header) => self.take_behind(&header),
            None => Ok(None),
        }
    }

    /// Takes the symbols behind a header, and tells what they are.
    fn take_behind(&mut self, header: &Header) -> Result<Option<Report>, AllocError>
        ensures told { IfOk result (λ report. header_to_come self.old header.now ≡ reported report ++ to_come self.new) }
        ensures shorter { length self.new.rest.now ≤ length self.old.rest.now }
    {
        let (symbols, after) = self.rest.split_at(count_behind(self.rest));
        let spot = Spot {
            frame: self.frames,
            symbol: self.before,
        };
        self.rest = after;
        self.before += symbols.len();
        let mode = mode_at(self.legacies, &self.mode, header, symbols);
        let told = settled_header(self.alloc, &mode, header, symbols, spot.symbol)?;
        let found = checks(
            self.legacies,
            &self.known,
            spot,
            &mode,
            header,
            symbols,
            &told.decoded,
        );
        push_found(&found, &mut self.faults)?;
        self.known
            .learn(self.alloc, spot.symbol, symbols, &told.decoded)?;
        self.mode = told.mode;
        Ok(Report::of(&told.decoded))
    }
}
