ghost use Rattle.std.specs.Prelude.{◌≡◌, ◌+◌, ◌<◌, ◌≤◌, ◌++◌, ◌∷◌, [], ℕ, List, Ok, Err, codes, length, min, true, IfSome, OnOk, MatchOption, MatchResult};
ghost use Rattle.std.specs.Fmt.{decimal};
ghost use Rattle.std.specs.Io.KnownBytes.{Appends, IsAtEnd};
ghost use Rattle.i3c_lines.specs.Faults.{IsFaultText};
ghost use Rattle.i3c_runner.specs.Reasons.{IsReadOf};
ghost use Rattle.i3c_streams.specs.Watching.{is_telling};
ghost use Rattle.i3c_runner.specs.Watched.{HeardIf, IsExplainedIf, KnowsCuts, WatchedGoesOut, counts_of, numbered};

use crate::expecting::line_fault;
use crate::reasons::{Explainer, judge};
use crate::script::Script;
use i3c_lines::{FormFault, Refusal};
use i3c_streams::{CHUNK, MOST_BYTES, ScriptFault, ScriptLines, Tally, Watching, write_out};
use i3c_text::{LineError, Text};
use std::alloc::{AllocError, Global};
use std::io::{Read, Write};

/// What ends a line.
const LINE_FEED: u8 = b'\n';

/// A witness is told why lines are refused.
pub trait Witness {
    /// What a witness may be after it was told this.
    ghost hears: { Self → List ℕ → Self → Type 0 };

    /// Is told all that there is to tell of a line that was run: lines with their line feeds, or nothing.
    fn tell(&mut self, told: &[u8])
        ensures { hears self.old told.now self.new };
}

/// Why a watched run ended early.
#[derive(Drop)]
pub enum WatchFault {
    /// As any run may end.
    Script(ScriptFault),
    /// A line has no form. This is its number, and why.
    NoForm(Text),
}

/// Runs a script as `run_script` does, and shows more of it. What its lines print is the same.
///
/// A strict run ends at the first line without a form, and doesn't run it.
pub fn run_watched<R: Read, W: Write, T: Witness>(
    alloc: Global,
    reader: &mut R,
    writer: &mut W,
    witness: &mut T,
    watching: Watching,
) -> Result<Tally, WatchFault>
    ensures whole { OnOk result (IsAtEnd (R.remaining reader.new)) }
    ensures fits { OnOk result (IfSome (R.remaining reader.old) (λ bytes. length bytes ≤ MOST_BYTES)) }
    // what its lines print goes out, and the witness is told of them in their order, if explanations are asked for
    ensures lines { WatchedGoesOut T.hears watching (R.remaining reader.old) (W.contents writer.old) (W.contents writer.new) witness.old witness.new result }
{
    let mut run = WatchedRun::new(alloc, watching);
    let Ok(mut chunk) = vec![in alloc; 0u8; CHUNK] else {
        let _none = run.retire();
        return Err(WatchFault::Script(ScriptFault::Memory));
    };
    let outcome = run.run_all(reader, &mut chunk, writer, witness);
    let tally = run.retire();
    match outcome {
        Ok(()) => Ok(tally),
        Err(fault) => Err(fault),
    }
}

/// Names the run of a script that is watched.
struct Watched;

/// The state of a watched run: the script, what explanations need, and of the current line its output, the same with its
/// number, and what the witness is told.
struct WatchedRun {
    script: Script,
    watching: Watching,
    known: Explainer,
    plain: Text,
    shown: Text,
    told: Text,
}

impl WatchedRun {
    ghost use Rattle.i3c_runner.specs.ScriptSteps.{progress, state};
    ghost use Rattle.i3c_runner.specs.Watched.{EndsAt, IsFormed, LineEndsWatched, LineRan, RunsWatched, echoed, numbered_by};
    ghost use Rattle.i3c_runner.specs.Expecting.{HasBegun};

    /// A run before its first line.
    fn new(alloc: Global, watching: Watching) -> WatchedRun
        ensures begun { HasBegun (state result.script) }
        ensures refused { result.script.refused ≡ 0 }
        ensures watching { result.watching ≡ watching }
        ensures knows { KnowsCuts watching result.known.cuts result.script.stage }
    {
        WatchedRun {
            script: Script::new(alloc),
            watching,
            known: Explainer::new(),
            plain: Text::new(alloc),
            shown: Text::new(alloc),
            told: Text::new(alloc),
        }
    }

    /// Runs each line of a script.
    fn run_all<R: Read, W: Write, T: Witness>(
        &mut self,
        reader: &mut R,
        chunk: &mut [u8],
        out: &mut W,
        witness: &mut T,
    ) -> Result<(), WatchFault>
        requires room { 0 < length chunk.old }
        requires knows { KnowsCuts self.old.watching self.old.known.cuts self.old.script.stage }
        ensures whole { OnOk result (IsAtEnd (R.remaining reader.new)) }
        ensures fits { OnOk result (IfSome (R.remaining reader.old) (λ bytes. length bytes ≤ MOST_BYTES)) }
        ensures runs { RunsWatched T.hears self.old.watching (R.remaining reader.old) (W.contents out.old) (W.contents out.new) witness.old witness.new (progress self.old.script) (progress self.new.script) result }
        ensures watching { self.new.watching ≡ self.old.watching }
    {
        let mut lines = ScriptLines::new(self.script.alloc);
        for number in 1..u64::MAX {
            match lines.advance(reader, chunk) {
                Ok(true) => {}
                Ok(false) => return Ok(()),
                Err(fault) => return Err(WatchFault::Script(fault)),
            }
            match self.run_line(number, lines.line(), out, witness) {
                Ok(()) => {}
                Err(fault) => return Err(fault),
            }
        }
        // a script has fewer lines
        Err(WatchFault::Script(ScriptFault::Memory))
    }

    /// Runs a line and shows it, unless the run is strict and the line has no form.
    fn run_line<W: Write, T: Witness>(
        &mut self,
        number: u64,
        line: &[u8],
        out: &mut W,
        witness: &mut T,
    ) -> Result<(), WatchFault>
        ensures ends { LineEndsWatched T.hears self.old.watching number line.now self.old.known.cuts (W.contents out.old) (W.contents out.new) witness.old witness.new (progress self.old.script) (progress self.new.script) result }
        ensures knows { OnOk result (KnowsCuts self.old.watching self.new.known.cuts self.new.script.stage) }
        ensures watching { self.new.watching ≡ self.old.watching }
    {
        match self.formless(number, line) {
            Some(fault) => return Err(fault),
            None => {}
        }
        match self.obey(number, line) {
            Ok(()) => {}
            Err(fault) => return Err(WatchFault::Script(fault)),
        }
        match write_out(self.shown.as_bytes(), out) {
            Ok(()) => {}
            Err(fault) => return Err(WatchFault::Script(fault)),
        }
        self.tell(witness);
        Ok(())
    }

    /// Tells the witness of the line, if that is asked for.
    fn tell<T: Witness>(&self, witness: &mut T)
        ensures { HeardIf T.hears (is_telling self.now.watching) witness.old (self.now.told ∷ []) witness.new }
    {
        if self.watching.is_telling() {
            witness.tell(self.told.as_bytes());
        }
    }

    /// Why a strict run ends at a line, if the line has no form: its number, and why.
    fn formless(&self, number: u64, line: &[u8]) -> Option<WatchFault>
        ensures { MatchOption result (IsFormed self.now.watching line.now) (λ fault. EndsAt self.now.watching number line.now fault) }
    {
        if !self.watching.strict {
            return None;
        }
        let fault = match line_fault(self.script.alloc, line) {
            Ok(fault) => fault?,
            Err(_) => return Some(WatchFault::Script(ScriptFault::Memory)),
        };
        let mut reason = Text::new(self.script.alloc);
        match push_formless(self.script.alloc, number, &fault, &mut reason) {
            Ok(()) => Some(WatchFault::NoForm(reason)),
            Err(_) => Some(WatchFault::Script(ScriptFault::Memory)),
        }
    }

    /// Obeys a line. What is to be shown and told of it waits.
    fn obey(&mut self, number: u64, line: &[u8]) -> Result<(), ScriptFault>
        ensures ran { OnOk result (LineRan self.old.watching number line.now self.old.known.cuts self.new.shown self.new.told (progress self.old.script) (progress self.new.script)) }
        ensures knows { OnOk result (KnowsCuts self.old.watching self.new.known.cuts self.new.script.stage) }
        ensures watching { self.new.watching ≡ self.old.watching }
    {
        self.script.said.text.clear();
        let outcome = self.script.obey::<Watched>(line);
        match self.explain(number, line, &outcome) {
            Ok(()) => {}
            Err(_) => return Err(ScriptFault::Memory),
        }
        match self.script.settle::<Watched>(outcome) {
            Ok(()) => {}
            Err(fault) => return Err(fault),
        }
        match self.show(number, line) {
            Ok(()) => Ok(()),
            Err(_) => Err(ScriptFault::Memory),
        }
    }

    /// Explains the result of a line, or says in a test why it has no form, if that is asked for.
    fn explain(
        &mut self,
        number: u64,
        line: &[u8],
        outcome: &Result<(), LineError<Refusal>>,
    ) -> Result<(), AllocError>
        requires { IsReadOf line.now outcome.now self.old.script.command }
        ensures told { OnOk result (IsExplainedIf self.old.watching number line.now outcome.now self.old.known.cuts (state self.old.script).script self.new.told) }
        ensures knows { OnOk result (KnowsCuts self.old.watching self.new.known.cuts self.old.script.stage) }
        ensures script { self.new.script ≡ self.old.script }
        ensures watching { self.new.watching ≡ self.old.watching }
    {
        self.told.clear();
        if self.watching.explain {
            self.known
                .explain(&self.script, number, line, outcome, &mut self.told)
        } else if self.watching.test {
            judge(self.script.alloc, number, line, outcome, &mut self.told)
        } else {
            Ok(())
        }
    }

    /// Shows the line that was obeyed.
    fn show(&mut self, number: u64, line: &[u8]) -> Result<(), AllocError>
        ensures shown { OnOk result (self.new.shown ≡ numbered_by self.old.watching number (echoed self.old.watching line.now ++ self.old.script.said.text)) }
        ensures script { self.new.script ≡ self.old.script }
        ensures told { self.new.told ≡ self.old.told }
        ensures known { self.new.known ≡ self.old.known }
        ensures watching { self.new.watching ≡ self.old.watching }
    {
        self.echo(line)?;
        self.plain.push(self.script.said.text.as_bytes())?;
        self.number(number)
    }

    /// Begins what is shown with the line itself, if that is asked for.
    fn echo(&mut self, line: &[u8]) -> Result<(), AllocError>
        ensures plain { OnOk result (self.new.plain ≡ echoed self.old.watching line.now) }
        ensures script { self.new.script ≡ self.old.script }
        ensures told { self.new.told ≡ self.old.told }
        ensures known { self.new.known ≡ self.old.known }
        ensures watching { self.new.watching ≡ self.old.watching }
    {
        self.plain.clear();
        if self.watching.echo && !line.is_empty() {
            self.plain.push(b"> ")?;
            self.plain.push(line)?;
            self.plain.end()?;
        }
        Ok(())
    }

    /// Moves the pending output to `shown`, with the number of the script's line in front of each of its lines if numbers
    /// are asked for.
    fn number(&mut self, number: u64) -> Result<(), AllocError>
        ensures shown { OnOk result (self.new.shown ≡ numbered_by self.old.watching number self.old.plain) }
        ensures script { self.new.script ≡ self.old.script }
        ensures told { self.new.told ≡ self.old.told }
        ensures known { self.new.known ≡ self.old.known }
        ensures watching { self.new.watching ≡ self.old.watching }
    {
        self.shown.clear();
        if self.watching.numbers {
            let mut start = Text::new(self.script.alloc);
            start.push_decimal(number)?;
            start.push(b": ")?;
            push_numbered(&mut self.shown, start.as_bytes(), self.plain.as_bytes())
        } else {
            self.shown.push(self.plain.as_bytes())
        }
    }

    /// Ends the run, and answers what it counts.
    fn retire(self) -> Tally
        ensures { result ≡ counts_of self.watching (progress self.script) }
    {
        let WatchedRun {
            script,
            watching,
            known: _,
            plain: _,
            shown: _,
            told: _,
        } = self;
        let formless = script.formless;
        let Tally { refused, unmet } = script.retire();
        if watching.test {
            return Tally {
                refused: 0,
                unmet: unmet.saturating_add(formless),
            };
        }
        Tally { refused, unmet }
    }
}

/// Appends a line's number, and why it can't be parsed.
fn push_formless(
    alloc: Global,
    number: u64,
    fault: &FormFault<'_>,
    text: &mut Text,
) -> Result<(), AllocError>
    ensures { OnOk result ((reason : List ℕ) × IsFaultText fault.now reason × (text.new ≡ text.old ++ (decimal number ++ (codes ": " ++ reason)))) }
{
    text.push_decimal(number)?;
    text.push(b": ")?;
    fault.push(alloc, text)
}

/// Appends a text, with this prefix in front of each of its lines.
fn push_numbered(text: &mut Text, start: &[u8], plain: &[u8]) -> Result<(), AllocError>
    ensures { OnOk result (text.new ≡ text.old ++ numbered start.now true plain.now) }
{
    let mut begins = true;
    for byte in plain {
        if begins {
            text.push(start)?;
        }
        text.push(&[*byte])?;
        begins = *byte == LINE_FEED;
    }
    Ok(())
}
