ghost use Rattle.std.specs.Prelude.{◌≡◌, ◌<◌, ◌≤◌, ◌↔◌, ℕ, List, length, IfSome, IsTrue, MatchResult, OnOk};
ghost use Rattle.std.specs.Io.KnownBytes.{IsAtEnd};
ghost use Rattle.i3c_frame.specs.declared.symbols.Symbol.{Symbol as SymbolValue};
ghost use Rattle.i3c_streams.specs.declared.faults.ScriptFault.{ScriptFault as FaultValue};
ghost use Rattle.i3c_runner.specs.Viewed.{ViewedGoes, kept};

use crate::script::Script;
use i3c_frame::Symbol;
use i3c_streams::{CHUNK, MOST_BYTES, ScriptFault, ScriptLines, Tally};
use std::alloc::Global;
use std::io::Read;

/// How many symbols of a wire are kept.
const KEPT: usize = 256;

/// A viewer is shown each line of a script that runs.
pub trait Viewer {
    /// A viewer after it was shown a line, the line's output, and the symbols that it sent.
    ghost view_gives: { Self → List ℕ → List ℕ → List SymbolValue → Self → Type 0 };

    /// What a viewer may be where it fails at a line.
    ghost view_fails: { Self → List ℕ → List ℕ → List SymbolValue → FaultValue → Self → Type 0 };

    /// Is shown the next line, without its line feed, with what it printed and the symbols that it sent. With a fault the
    /// run ends.
    fn view(&mut self, line: &[u8], printed: &[u8], wire: &[Symbol]) -> Result<(), ScriptFault>
        ensures { MatchResult result (λ _. view_gives self.old line.now printed.now wire.now self.new) (λ fault. view_fails self.old line.now printed.now wire.now fault self.new) };
}

/// Runs a script as `run_script` does, and shows each of its lines to a viewer. Nothing is written.
pub fn run_viewed<R: Read, V: Viewer>(
    alloc: Global,
    reader: &mut R,
    viewer: &mut V,
) -> Result<Tally, ScriptFault>
    ensures whole { OnOk result (IsAtEnd (R.remaining reader.new)) }
    ensures fits { OnOk result (IfSome (R.remaining reader.old) (λ bytes. length bytes ≤ MOST_BYTES)) }
    // each line of the script was run, its last one too, and shown, in their order. The tally counts the refused ones and
    // the expectations that weren't met. A fault comes after the first lines, which were run and shown, or the viewer
    // failed at the last one that was run
    ensures lines { ViewedGoes V.view_gives V.view_fails (R.remaining reader.old) viewer.old viewer.new result }
{
    let mut run = ViewedRun::new(alloc);
    let Ok(mut chunk) = vec![in alloc; 0u8; CHUNK] else {
        let _none = run.retire();
        return Err(ScriptFault::Memory);
    };
    let outcome = run.run_all(reader, &mut chunk, viewer);
    let tally = run.retire();
    match outcome {
        Ok(()) => Ok(tally),
        Err(fault) => Err(fault),
    }
}

/// Names the run of a script that is viewed.
struct Viewed;

/// The state of a viewed run: the script, the wire that was kept before the current line, the symbols that this line
/// sent, and the wire that is kept after it.
struct ViewedRun {
    script: Script,
    before: Vec<Symbol>,
    wire: Vec<Symbol>,
    behind: Vec<Symbol>,
}

impl ViewedRun {
    ghost use Rattle.i3c_runner.specs.ScriptSteps.{progress, state};
    ghost use Rattle.i3c_runner.specs.Viewed.{LineEnds, LineRan, RunsViewed, kept};
    ghost use Rattle.std.specs.Prelude.{◌++◌};
    ghost use Rattle.i3c_runner.specs.Expecting.{HasBegun};
    ghost use Rattle.i3c_script.specs.Obeying.{wire_on};

    /// A run before its first line.
    fn new(alloc: Global) -> ViewedRun
        ensures begun { HasBegun (state result.script) }
        ensures refused { result.script.refused ≡ 0 }
    {
        ViewedRun {
            script: Script::new(alloc),
            before: Vec::new(alloc),
            wire: Vec::new(alloc),
            behind: Vec::new(alloc),
        }
    }

    /// Runs each line of a script.
    fn run_all<R: Read, V: Viewer>(
        &mut self,
        reader: &mut R,
        chunk: &mut [u8],
        viewer: &mut V,
    ) -> Result<(), ScriptFault>
        requires { 0 < length chunk.old }
        ensures whole { OnOk result (IsAtEnd (R.remaining reader.new)) }
        ensures fits { OnOk result (IfSome (R.remaining reader.old) (λ bytes. length bytes ≤ MOST_BYTES)) }
        ensures runs { RunsViewed V.view_gives V.view_fails (R.remaining reader.old) viewer.old viewer.new (progress self.old.script) (progress self.new.script) result }
    {
        let mut lines = ScriptLines::new(self.script.alloc);
        for _ in 0..u64::MAX {
            match lines.advance(reader, chunk) {
                Ok(true) => {}
                Ok(false) => return Ok(()),
                Err(fault) => return Err(fault),
            }
            match self.run_line(lines.line(), viewer) {
                Ok(()) => {}
                Err(fault) => return Err(fault),
            }
        }
        // a script has fewer lines
        Err(ScriptFault::Memory)
    }

    /// Runs a line and shows it.
    fn run_line<V: Viewer>(&mut self, line: &[u8], viewer: &mut V) -> Result<(), ScriptFault>
        ensures { LineEnds V.view_gives V.view_fails line.now viewer.old viewer.new (progress self.old.script) (progress self.new.script) result }
    {
        match self.obey(line) {
            Ok(()) => {}
            Err(fault) => return Err(fault),
        }
        match viewer.view(line, self.script.said.text.as_bytes(), &self.wire) {
            Ok(()) => Ok(()),
            Err(failed) => Err(failed),
        }
    }

    /// Runs a line. Its output is in `script.said.text` then, and its symbols are in `wire`.
    fn obey(&mut self, line: &[u8]) -> Result<(), ScriptFault>
        ensures { OnOk result (LineRan line.now self.new.script.said.text self.new.wire.items (progress self.old.script) (progress self.new.script)) }
    {
        self.script.said.text.clear();
        match self.script.stage.copy_wire(&mut self.before) {
            Ok(()) => {}
            Err(_) => return Err(ScriptFault::Memory),
        }
        let outcome = self.script.obey::<Viewed>(line);
        match self.script.settle::<Viewed>(outcome) {
            Ok(()) => self.take_sent(),
            Err(fault) => Err(fault),
        }
    }

    /// Copies the symbols that the line sent. What is kept after it is the end of the wire before it with these symbols.
    fn take_sent(&mut self) -> Result<(), ScriptFault>
        ensures sent { OnOk result (wire_on self.old.script.stage ≡ kept (self.old.before.items ++ self.new.wire.items)) }
        ensures state { progress self.new.script ≡ progress self.old.script }
        ensures text { self.new.script.said.text ≡ self.old.script.said.text }
    {
        match self.script.stage.copy_later(&mut self.wire) {
            Ok(()) => {}
            Err(_) => return Err(ScriptFault::Memory),
        }
        match self.script.stage.copy_wire(&mut self.behind) {
            Ok(()) => {}
            Err(_) => return Err(ScriptFault::Memory),
        }
        match self.before.extend_from_slice(&self.wire) {
            Ok(()) => {}
            Err(_) => return Err(ScriptFault::Memory),
        }
        if are_same(&self.behind, last_of(&self.before)) {
            Ok(())
        } else {
            // not reached, though no clause says so: both are the last 256 symbols, also where a line sends more than the 4,096
            // that are copied
            Err(ScriptFault::TooLarge)
        }
    }

    /// Ends the run, and answers how many lines were refused and how many expectations weren't met.
    fn retire(self) -> Tally
        ensures refused { result.refused ≡ self.script.refused }
        ensures unmet { result.unmet ≡ self.script.unmet }
    {
        let ViewedRun {
            script,
            before: _,
            wire: _,
            behind: _,
        } = self;
        script.retire()
    }
}

/// The last symbols of these, as many as a wire keeps.
fn last_of(symbols: &[Symbol]) -> &[Symbol]
    ensures { result.now ≡ kept symbols.now }
{
    &symbols[symbols.len().saturating_sub(KEPT)..]
}

/// Whether both are the same symbols, in the same order.
fn are_same(symbols: &[Symbol], others: &[Symbol]) -> bool
    ensures { IsTrue result ↔ (symbols.now ≡ others.now) }
{
    symbols == others
}
