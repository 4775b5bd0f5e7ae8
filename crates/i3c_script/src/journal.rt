use crate::past::Past;
use crate::piece::Listener;
use crate::tenures::{Tenure, hear_tenures};
use crate::wires::Wires;
use i3c_base::Slot;
use i3c_frame::{Symbol, Tap};
use std::alloc::{AllocError, Global};
use std::marker::Model;

/// What a script keeps of the past of its bus: the last symbols of the wire, and the tenures of controllers that ended.
#[derive(Drop)]
pub struct Journal {
    wires: Wires,
    ended: Vec<Tenure>,
}

impl Model for Journal {
    ghost use Rattle.i3c_script.specs.Situations.{Told};

    ghost Value = { Told };

    ghost view = { λ j. record { wire = j.wires; ended = j.ended.items } };
}

impl Journal {
    ghost use Rattle.std.specs.Prelude.{◌≡◌, [], IfOk, OnOk};
    ghost use Rattle.i3c_script.specs.Situations.{IsEnd, last_symbols};

    /// Before the first frame.
    ///
    /// # Errors
    ///
    /// There is no memory for the symbols.
    pub(crate) fn new(alloc: Global) -> Result<Journal, AllocError>
        ensures { IfOk result (λ journal. journal ≡ record { wire = []; ended = [] }) }
    {
        let wires = Wires::new(alloc)?;
        let ended = Vec::new(alloc);
        Ok(Journal { wires, ended })
    }

    /// Copies the last symbols of the wire, the oldest first, at most 256. From now on `copy_later` copies those that
    /// come.
    pub(crate) fn copy_wire(&mut self, symbols: &mut Vec<Symbol>) -> Result<(), AllocError>
        ensures same { self.new ≡ self.old }
        ensures copied { OnOk result (symbols.new.items ≡ last_symbols self.old) }
    {
        self.wires.copy_all(symbols)
    }

    /// Copies the symbols that came since `copy_wire`.
    pub(crate) fn copy_later(&self, symbols: &mut Vec<Symbol>) -> Result<(), AllocError>
        ensures { OnOk result (IsEnd (last_symbols self.now) symbols.new.items) }
    {
        self.wires.copy_later(symbols)
    }
}

impl Tap for Journal {
    ghost use Rattle.i3c_script.specs.Situations.{notes};

    ghost note_gives = { notes };

    #[inline(always)]
    fn note(&mut self, symbol: Symbol) {
        self.wires.note(symbol);
    }
}

impl Past for Journal {
    ghost use Rattle.i3c_script.specs.Situations.{told_past};

    ghost kept = { told_past };

    ghost noted = { λ _ _ _ noted. noted };

    fn end_tenure(&mut self, slot: Slot, records: usize) -> Result<(), AllocError> {
        self.ended.push(Tenure { slot, records })?;
        Ok(())
    }

    fn hear_symbols<L: Listener>(&mut self, listener: &mut L) -> Result<(), AllocError> {
        self.wires.hear(listener)
    }

    fn hear_frames<L: Listener>(&mut self, count: u16, listener: &mut L) -> Result<(), AllocError> {
        self.wires.hear_frames(count, listener)
    }

    fn hear_tenures<L: Listener>(
        &self,
        active: Slot,
        records: usize,
        listener: &mut L,
    ) -> Result<(), AllocError> {
        hear_tenures(self.ended.as_slice(), active, records, listener)
    }
}
