ghost use Rattle.std.specs.Prelude.{◌≡◌, OnOk};
ghost use Rattle.i3c_frame.specs.declared.symbols.Symbol.{Symbol as SymbolValue};
ghost use Rattle.i3c_script.specs.Hearing.{all_heard};
ghost use Rattle.i3c_script.specs.Pieces.{frames_pieces, symbols_pieces, tenures_pieces};
ghost use Rattle.i3c_script.specs.Situations.{PastKept};

use crate::frames::hear_frames;
use crate::piece::Listener;
use crate::symbols::hear_line;
use crate::tenures::hear_tenures;
use i3c_base::Slot;
use i3c_frame::{Symbol, Tap};
use std::alloc::AllocError;

/// What is kept of the past of a bus. As a tap it is told the symbols of each frame.
pub trait Past: Tap {
    /// How it is kept.
    ghost kept: { PastKept Self };

    /// The tenure of the active controller in this slot ended when so many interrupts were recorded.
    ///
    /// # Errors
    ///
    /// There is no memory for it.
    fn end_tenure(&mut self, slot: Slot, records: usize) -> Result<(), AllocError>
        ensures { OnOk result (self.new ≡ kept.ends self.old slot records) };

    /// A line of the last symbols, the oldest first.
    ///
    /// # Errors
    ///
    /// There is no memory for it.
    fn hear_symbols<L: Listener>(&mut self, listener: &mut L) -> Result<(), AllocError>
        ensures same { self.new ≡ self.old }
        ensures heard { OnOk result (listener.new ≡ all_heard L.heard listener.old (symbols_pieces (kept.symbols self.old))) };

    /// The last `count` whole frames of these symbols, the oldest first, a line for each.
    ///
    /// # Errors
    ///
    /// There is no memory for it.
    fn hear_frames<L: Listener>(&mut self, count: u16, listener: &mut L) -> Result<(), AllocError>
        ensures same { self.new ≡ self.old }
        ensures heard { OnOk result (listener.new ≡ all_heard L.heard listener.old (frames_pieces count (kept.symbols self.old))) };

    /// The active controllers with the numbers of their records: those whose tenures ended, and the present one.
    ///
    /// # Errors
    ///
    /// There is no memory for it.
    fn hear_tenures<L: Listener>(
        &self,
        active: Slot,
        records: usize,
        listener: &mut L,
    ) -> Result<(), AllocError>
        ensures { OnOk result (listener.new ≡ all_heard L.heard listener.old (tenures_pieces (kept.ended self.now) active records)) };

    /// It keeps what it is told as a tap.
    ghost noted: { (old : Self) (symbol : SymbolValue) (new : Self) → Self.Tap.note_gives old symbol new → kept.notes old symbol new };
}

/// Keeps nothing of the past.
#[derive(Clone, Copy)]
pub struct Unkept;

impl Tap for Unkept {
    ghost note_gives = { λ old _ new. new ≡ old };

    fn note(&mut self, _symbol: Symbol) {}
}

impl Past for Unkept {
    ghost use Rattle.i3c_script.specs.Unkept.{no_past};

    ghost kept = { no_past };

    ghost noted = { λ _ _ _ _. tt };

    fn end_tenure(&mut self, _slot: Slot, _records: usize) -> Result<(), AllocError> {
        Ok(())
    }

    fn hear_symbols<L: Listener>(&mut self, listener: &mut L) -> Result<(), AllocError> {
        hear_line(&[], listener)
    }

    fn hear_frames<L: Listener>(&mut self, count: u16, listener: &mut L) -> Result<(), AllocError> {
        hear_frames(&[], usize::from(count), listener)
    }

    fn hear_tenures<L: Listener>(
        &self,
        active: Slot,
        records: usize,
        listener: &mut L,
    ) -> Result<(), AllocError> {
        hear_tenures(&[], active, records, listener)
    }
}
