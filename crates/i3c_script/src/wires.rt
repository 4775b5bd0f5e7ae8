ghost use Rattle.std.specs.Prelude.{◌≡◌, [], ◌∷◌, ◌++◌, vec_capacity, vec_len, IfOk, OnOk};
ghost use Rattle.circular_buffer.specs.Buffer.{buffer, keep_last};
ghost use Rattle.i3c_script.specs.Hearing.{all_heard};
ghost use Rattle.i3c_script.specs.Pieces.{frames_pieces, symbols_pieces};
ghost use Rattle.i3c_script.specs.Situations.{IsEnd};
ghost use Rattle.i3c_script.specs.declared.wires.TheConstants.{SYMBOLS};

use crate::frames::hear_frames;
use crate::piece::Listener;
use crate::symbols::hear_line;
use circular_buffer::HeapCircularBuffer;
use i3c_frame::{Symbol, Tap};
use std::alloc::{AllocError, Global};
use std::marker::Model;

/// How many symbols are kept.
const SYMBOLS: usize = 256;

/// The number of symbols that may wait; only the last of them are kept.
const FRESH: usize = 4096;

/// The last symbols of the wire, at most 256 of them.
///
/// Clauses see these symbols.
#[derive(Drop)]
pub(crate) struct Wires {
    kept: HeapCircularBuffer<Symbol>,
    // the later symbols; the last of them are kept when there is no more room
    fresh: Vec<Symbol>,
}

impl Model for Wires {
    ghost use Rattle.std.specs.Prelude.{◌≡◌, ◌≤◌, ◌++◌, length, vec_capacity, List};
    ghost use Rattle.circular_buffer.specs.Buffer.{keep_last};
    ghost use Rattle.i3c_frame.specs.declared.symbols.Symbol.{Symbol as SymbolValue};
    ghost use Rattle.i3c_script.specs.declared.wires.TheConstants.{FRESH, SYMBOLS};

    ghost Value = { List SymbolValue };

    ghost view = { λ w. keep_last SYMBOLS (w.kept.items ++ w.fresh.items) };

    ghost invariant = { λ w. (w.kept.capacity ≡ SYMBOLS) × (FRESH ≤ vec_capacity w.fresh) × (length w.fresh.items ≤ FRESH) };
}

impl Wires {
    /// Before the first frame.
    pub fn new(alloc: Global) -> Result<Wires, AllocError>
        ensures { IfOk result (λ wires. wires ≡ []) }
    {
        let kept = HeapCircularBuffer::with_capacity(alloc, SYMBOLS)?;
        let fresh = Vec::with_capacity(alloc, FRESH)?;
        Ok(Wires { kept, fresh })
    }

    /// A line of the symbols, the oldest first.
    pub fn hear<L: Listener>(&mut self, listener: &mut L) -> Result<(), AllocError>
        ensures same { self.new ≡ self.old }
        ensures told { OnOk result (listener.new ≡ all_heard L.heard listener.old (symbols_pieces (keep_last SYMBOLS self.old))) }
    {
        keep(&mut self.kept, &mut self.fresh);
        hear_line(self.kept.make_contiguous(), listener)
    }

    /// Copies the symbols, the oldest first. From now on `copy_later` copies those that come behind them.
    pub fn copy_all(&mut self, symbols: &mut Vec<Symbol>) -> Result<(), AllocError>
        ensures same { self.new ≡ self.old }
        ensures copied { OnOk result (symbols.new.items ≡ keep_last SYMBOLS self.old) }
    {
        keep(&mut self.kept, &mut self.fresh);
        symbols.clear();
        symbols.extend_from_slice(self.kept.make_contiguous())
    }

    /// Copies the symbols that came since `copy_all`, of more than 4,096 the last ones.
    pub fn copy_later(&self, symbols: &mut Vec<Symbol>) -> Result<(), AllocError>
        ensures { OnOk result (IsEnd self.now symbols.new.items) }
    {
        symbols.clear();
        symbols.extend_from_slice(&self.fresh)
    }

    /// The last `count` whole frames of the symbols, the oldest first, a line for each.
    pub fn hear_frames<L: Listener>(
        &mut self,
        count: u16,
        listener: &mut L,
    ) -> Result<(), AllocError>
        ensures same { self.new ≡ self.old }
        ensures told { OnOk result (listener.new ≡ all_heard L.heard listener.old (frames_pieces count (keep_last SYMBOLS self.old))) }
    {
        keep(&mut self.kept, &mut self.fresh);
        hear_frames(self.kept.make_contiguous(), usize::from(count), listener)
    }
}

impl Tap for Wires {
    ghost note_gives = { λ old symbol new. new ≡ keep_last SYMBOLS (old ++ symbol ∷ []) };

    fn note(&mut self, symbol: Symbol) {
        if self.fresh.len() == FRESH {
            keep(&mut self.kept, &mut self.fresh);
        }
        self.fresh.push_reserved(symbol);
    }
}

/// Keeps the symbols that came since.
// kept apart, since it comes once for many symbols
#[cold]
#[inline(never)]
fn keep(kept: &mut HeapCircularBuffer<Symbol>, fresh: &mut Vec<Symbol>)
    ensures kept { kept.new ≡ buffer (keep_last kept.old.capacity (kept.old.items ++ fresh.old.items)) kept.old.capacity }
    ensures none { fresh.new.items ≡ [] }
    ensures len { vec_len fresh.new ≡ 0 }
    ensures room { vec_capacity fresh.new ≡ vec_capacity fresh.old }
{
    kept.extend_from_slice(fresh);
    fresh.clear();
}
