ghost use Rattle.std.specs.Prelude.{◌≡◌, ℕ, List, ◌+◌, ◌<◌, ◌≤◌, [], ◌∷◌, ◌++◌, length, min, take, IfErr, IfSome, MatchResult, OnOk, Some};
ghost use Rattle.std.specs.Io.KnownBytes.{IsAtEnd};
ghost use Rattle.i3c_lines.specs.Gathering.{gathered};
ghost use Rattle.i3c_streams.specs.Outcomes.{HasNoFeed, output, written};
ghost use Rattle.i3c_script.specs.Printed.{end_text};
ghost use Rattle.i3c_text.specs.declared.line_error.LineError.{LineError as StopValue};
ghost use Rattle.i3c_runner.specs.Scripts.{LinesGoOut, refused_text};
ghost use Rattle.i3c_lines.specs.Forms.{HasNoForm, IsCommand};
ghost use Rattle.i3c_runner.specs.Expecting.{AlwaysAt, HasBegun, MarkDoes, TestsAt};
ghost use Rattle.i3c_runner.specs.Reasons.{IsReadOf};
ghost use Rattle.i3c_script.specs.Telling.{Prints};
ghost use Rattle.i3c_runner.specs.ScriptSteps.{HaveLasted, LineEnds, Outlasts, Reads, ReadsAll, ReadsCounted, Runs, Takes, noted, progress, refused_so, state};
ghost use Rattle.i3c_streams.specs.Faults.{IsLineFault};
ghost use Rattle.i3c_script.specs.Stops.{refusals};

use crate::expecting::{push_met, push_unmet};
use crate::lasting::{Lasting, keep, test_all, test_one};
use crate::output::show_refusal;
use crate::said::Said;
use i3c_base::Served;
use i3c_facts::{Before, Facts, Heard, LineResult, Mark, read_mark};
use i3c_lines::{Command, Line, Names, Refusal, is_skipped};
use i3c_script::Stage;
use i3c_streams::{
    CHUNK, MOST_BYTES, Piece, ScriptFault, Tally, gather, position_of_feed, read_piece, write_last,
};
use i3c_text::{LineError, Text};
use std::alloc::{AllocError, Global};
use std::io::{Read, Write};
use std::mem;

/// Runs a script: its lines in order, as they are read; each prints its output. After a refused line the next is run.
///
/// A script has at most 1,048,576 bytes. If more come, or if the reader fails, the lines that were whole by then are run. At
/// the end an open session is ended, and the bus retired.
pub fn run_script<R: Read, W: Write>(
    alloc: Global,
    reader: &mut R,
    writer: &mut W,
) -> Result<Tally, ScriptFault>
    // an `Ok` comes after the whole of a script that isn't too large
    ensures whole { OnOk result (IsAtEnd (R.remaining reader.new)) }
    ensures fits { OnOk result (IfSome (R.remaining reader.old) (λ bytes. length bytes ≤ MOST_BYTES)) }
    ensures large { result ≡ Err ScriptFault.TooLarge → IfSome (R.remaining reader.old) (λ bytes. MOST_BYTES < length bytes) }
    // a script starts with no bus, no legacy target and no name. Each line changes the state, prints and is refused as its
    // command says. All that they print goes out with `Ok`, and before a fault as much as that fault says
    ensures lines { LinesGoOut (R.remaining reader.old) (R.remaining reader.new) (W.contents writer.old) (W.contents writer.new) result }
{
    // made before the script: with a script there to give up, the compiler would clear its room on the stack twice
    let Ok(mut chunk) = vec![in alloc; 0u8; CHUNK] else {
        // with no name given, as each script begins
        let _none = Names::new(alloc);
        return Err(ScriptFault::Memory);
    };
    let mut script = Script::new(alloc);
    let outcome = script.read_all(reader, &mut chunk, writer);
    let tally = script.retire();
    match outcome {
        Ok(()) => Ok(tally),
        Err(fault) => Err(fault),
    }
}

/// Names the lines of a script that isn't watched.
struct Plain;

/// Names those of its lines that began in a chunk before.
struct Held;

/// Names the lines behind which expectations are tested that last.
struct Tested;

/// The state of a running script: its bus and names, the partial line, the current command, that command's output, and output
/// not yet written. For expectations it has the number of the line, how the last command ended, the lasting ones, and how many lines had no form.
pub(crate) struct Script {
    pub(crate) alloc: Global,
    pub(crate) stage: Stage,
    pub(crate) names: Names,
    line: Line,
    // the last that was read
    pub(crate) command: Command,
    pub(crate) said: Said,
    gathered: Text,
    refused: u64,
    lines: u64,
    ended: LineResult,
    unmet: u64,
    lasting: Vec<Lasting>,
    pub(crate) formless: u64,
}

impl Script {
    /// A script before its first line.
    pub(crate) fn new(alloc: Global) -> Script
        ensures held { gathered result.line ≡ [] }
        ensures refused { result.refused ≡ 0 }
        ensures begun { HasBegun (state result) }
    {
        Script {
            alloc,
            stage: Stage::new(),
            names: Names::new(alloc),
            line: Line::new(),
            command: Command::Show,
            said: Said::new(alloc),
            gathered: Text::new(alloc),
            refused: 0,
            lines: 0,
            ended: LineResult::Nothing,
            unmet: 0,
            lasting: Vec::new(alloc),
            formless: 0,
        }
    }

    /// Reads the script to its end, by chunks, and runs its lines.
    fn read_all<R: Read, W: Write>(
        &mut self,
        reader: &mut R,
        chunk: &mut [u8],
        out: &mut W,
    ) -> Result<(), ScriptFault>
        requires { 0 < length chunk.old }
        ensures whole { OnOk result (IsAtEnd (R.remaining reader.new)) }
        ensures fits { OnOk result (IfSome (R.remaining reader.old) (λ bytes. length bytes ≤ MOST_BYTES)) }
        ensures large { result ≡ Err ScriptFault.TooLarge → IfSome (R.remaining reader.old) (λ bytes. MOST_BYTES < length bytes) }
        ensures runs { gathered self.old.line ≡ [] → ReadsAll (R.remaining reader.old) (R.remaining reader.new) (W.contents out.old) (W.contents out.new) (progress self.old) (progress self.new) result }
    {
        let mut left = MOST_BYTES;
        for _ in 0..u64::MAX {
            let piece = match read_piece(reader, chunk, left) {
                Ok(piece) => piece,
                Err(fault) => return Err(fault),
            };
            match piece {
                // the last line may lack its line feed
                Piece::End => return self.end(out),
                Piece::Within(count) => match self.take(&chunk[..count], out) {
                    Ok(()) => left -= count,
                    Err(fault) => return Err(fault),
                },
                Piece::Beyond(count) => match self.take(&chunk[..count], out) {
                    Ok(()) => return Err(ScriptFault::TooLarge),
                    Err(fault) => return Err(fault),
                },
            }
        }
        unreachable!()
    }

    /// Takes bytes as they were read, and runs each line that they end. The first of them may have begun before. All that
    /// they print is written then.
    fn take<W: Write>(&mut self, bytes: &[u8], out: &mut W) -> Result<(), ScriptFault>
        ensures fault { IfErr result IsLineFault }
        ensures runs { (begun : List ℕ) → gathered self.old.line ≡ take 257 begun → HasNoFeed begun →
            Takes (begun ++ bytes.now) (gathered self.new.line) (written (W.contents out.old)) (written (W.contents out.new)) (progress self.old) (progress self.new) result }
    {
        self.gathered.clear();
        let outcome = self.take_lines(bytes, out);
        write_last(outcome, self.gathered.as_bytes(), out)
    }

    /// The script ends, and with it the line that was begun, which may lack its line feed.
    fn end<W: Write>(&mut self, out: &mut W) -> Result<(), ScriptFault>
        ensures fault { IfErr result IsLineFault }
        ensures runs { (begun : List ℕ) → gathered self.old.line ≡ take 257 begun → HasNoFeed begun →
            Runs (begun ++ 10 ∷ []) [] (written (W.contents out.old)) (written (W.contents out.new)) (progress self.old) (progress self.new) result }
    {
        self.gathered.clear();
        let outcome = self.end_held_line(&[], out);
        write_last(outcome, self.gathered.as_bytes(), out)
    }

    /// Runs each line that these bytes end, and begins the one that they don't. The first of them may have begun before.
    fn take_lines<W: Write>(&mut self, bytes: &[u8], out: &mut W) -> Result<(), ScriptFault>
        ensures fault { IfErr result IsLineFault }
        ensures runs { (begun : List ℕ) → gathered self.old.line ≡ take 257 begun → HasNoFeed begun →
            Takes (begun ++ bytes.now) (gathered self.new.line) (output (W.contents out.old) self.old.gathered) (output (W.contents out.new) self.new.gathered) (progress self.old) (progress self.new) result }
    {
        match position_of_feed(bytes) {
            None => {
                self.line.extend(bytes);
                Ok(())
            }
            Some(end) => {
                match self.end_held_line(&bytes[..end], out) {
                    Ok(()) => self.run_lines(&bytes[end + 1..], out),
                    Err(fault) => Err(fault),
                }
            }
        }
    }

    /// Runs the line that was begun, whose last bytes these are.
    fn end_held_line<W: Write>(&mut self, bytes: &[u8], out: &mut W) -> Result<(), ScriptFault>
        ensures fault { IfErr result IsLineFault }
        ensures held { gathered self.new.line ≡ [] }
        ensures runs { (begun : List ℕ) → gathered self.old.line ≡ take 257 begun → HasNoFeed begun → HasNoFeed bytes.now →
            Runs (begun ++ (bytes.now ++ 10 ∷ [])) [] (output (W.contents out.old) self.old.gathered) (output (W.contents out.new) self.new.gathered) (progress self.old) (progress self.new) result }
    {
        let mut line = mem::replace(&mut self.line, Line::new());
        line.extend(bytes);
        self.run_line::<Held, W>(line.as_slice(), out)
    }

    /// Runs the lines that end in these bytes, and begins the one that doesn't.
    fn run_lines<W: Write>(&mut self, bytes: &[u8], out: &mut W) -> Result<(), ScriptFault>
        ensures fault { IfErr result IsLineFault }
        ensures runs { gathered self.old.line ≡ [] →
            Takes bytes.now (gathered self.new.line) (output (W.contents out.old) self.old.gathered) (output (W.contents out.new) self.new.gathered) (progress self.old) (progress self.new) result }
    {
        let mut rest = bytes;
        while let Some(end) = position_of_feed(rest) {
            let (line, after) = rest.split_at(end);
            match self.run_line::<Plain, W>(line, out) {
                Ok(()) => {}
                Err(fault) => return Err(fault),
            }
            // after its line feed
            rest = &after[1..];
        }
        self.line.extend(rest);
        Ok(())
    }

    /// Runs a line, and gathers what it prints. `K` names the caller, so that each caller has it in line.
    fn run_line<K, W: Write>(&mut self, line: &[u8], out: &mut W) -> Result<(), ScriptFault>
        ensures fault { IfErr result IsLineFault }
        ensures held { self.new.line ≡ self.old.line }
        ensures ends { LineEnds line.now (output (W.contents out.old) self.old.gathered) (output (W.contents out.new) self.new.gathered) (progress self.old) (progress self.new) result }
    {
        self.said.text.clear();
        let outcome = self.obey::<K>(line);
        self.settle::<K>(outcome)?;
        gather(self.said.text.as_bytes(), &mut self.gathered, out)
    }

    /// Obeys a line, if it has a command or is a mark. `settle` notes a refusal. `K` names the caller, so that each caller
    /// has it in line.
    pub(crate) fn obey<K>(&mut self, line: &[u8]) -> Result<(), LineError<Refusal>>
        ensures held { self.new.line ≡ self.old.line }
        ensures gathered { self.new.gathered ≡ self.old.gathered }
        ensures refused { self.new.refused ≡ self.old.refused }
        ensures reads { Reads (state self.old) line.now self.old.said.text self.new.said.text result (noted (state self.new) result) }
        ensures meant { IsReadOf line.now result self.new.command }
    {
        self.lines = self.lines.saturating_add(1);
        match is_skipped(line) {
            Ok(true) => return Ok(()),
            Ok(false) => {}
            // it is too long
            Err(_) => return self.obey_mark(line),
        }
        match self.command.read::<K>(line) {
            Some(()) => {
                if !self.lasting.is_empty() {
                    return self.obey_and_test();
                }
                // unless it is refused, which `settle` notes
                self.ended = LineResult::Done;
                // field by field: a whole value would be made and then copied
                self.said.heard.served = Served::Quiet;
                self.said.heard.read = None;
                self.stage
                    .obey_heard::<K, Said>(
                        self.alloc,
                        &mut self.names,
                        &self.command,
                        &mut self.said,
                    )
            }
            None => self.obey_mark(line),
        }
    }

    /// Obeys the command that was read, and tests the expectations that last.
    #[cold]
    #[inline(never)]
    fn obey_and_test(&mut self) -> Result<(), LineError<Refusal>>
        ensures held { self.new.line ≡ self.old.line }
        ensures gathered { self.new.gathered ≡ self.old.gathered }
        ensures refused { self.new.refused ≡ self.old.refused }
        ensures command { self.new.command ≡ self.old.command }
        ensures reads { (line : List ℕ) → IsCommand line self.old.command → ReadsCounted (state self.old) line self.old.said.text self.new.said.text result (noted (state self.new) result) }
    {
        self.ended = LineResult::Done;
        self.said.heard = Heard::nothing();
        let outcome = self
            .stage
            .obey_heard::<Tested, Said>(self.alloc, &mut self.names, &self.command, &mut self.said);
        self.outlast(outcome)
    }

    /// Obeys a line without a command, which may be a mark.
    #[cold]
    #[inline(never)]
    fn obey_mark(&mut self, line: &[u8]) -> Result<(), LineError<Refusal>>
        requires { HasNoForm line.now }
        ensures held { self.new.line ≡ self.old.line }
        ensures gathered { self.new.gathered ≡ self.old.gathered }
        ensures refused { self.new.refused ≡ self.old.refused }
        ensures reads { ReadsCounted (state self.old) line.now self.old.said.text self.new.said.text result (noted (state self.new) result) }
    {
        match read_mark(self.alloc, line) {
            Ok(Some(mark)) => self.obey_read(mark),
            Ok(None) => {
                self.formless = self.formless.saturating_add(1);
                self.said.heard = Heard::nothing();
                Err(LineError::Refused(Refusal::BadLine))
            }
            Err(_) => Err(LineError::Memory),
        }
    }

    /// Obeys a mark that was read.
    fn obey_read(&mut self, mark: Mark) -> Result<(), LineError<Refusal>>
        ensures held { self.new.line ≡ self.old.line }
        ensures gathered { self.new.gathered ≡ self.old.gathered }
        ensures refused { self.new.refused ≡ self.old.refused }
        ensures does { Prints (λ said refused. MarkDoes (state self.old) mark said refused (noted (state self.new) result)) self.old.said.text self.new.said.text result }
    {
        match mark {
            Mark::Expect(facts) => self.test(&facts),
            Mark::Always(facts) => self.last(facts),
            Mark::Close => {
                self.lasting = Vec::new(self.alloc);
                Ok(())
            }
            Mark::Any | Mark::Anywhere(_) | Mark::Track => Ok(()),
        }
    }

    /// What facts know of the previous line.
    fn before(&self) -> Before
        ensures { result ≡ (state self.now).before }
    {
        Before {
            result: self.ended,
            heard: self.said.heard,
        }
    }

    /// Tests an expectation that is to last. It lasts if it holds.
    fn last(&mut self, facts: Facts) -> Result<(), LineError<Refusal>>
        ensures held { self.new.line ≡ self.old.line }
        ensures gathered { self.new.gathered ≡ self.old.gathered }
        ensures refused { self.new.refused ≡ self.old.refused }
        ensures begins { Prints (λ said refused. AlwaysAt (state self.old) self.old.stage facts said refused (noted (state self.new) result)) self.old.said.text self.new.said.text result }
    {
        let before = self.before();
        let Stage::Running(running) = &self.stage else {
            self.said.heard = Heard::nothing();
            return Err(LineError::Refused(Refusal::NoBus));
        };
        let number = self.lines;
        let one = Lasting { number, facts };
        if test_one(
            running.bus(),
            &self.names,
            &before,
            &one,
            &mut self.unmet,
            &mut self.said.text,
        )? {
            keep(&mut self.lasting, one)?;
        }
        Ok(())
    }

    /// Tests the lasting expectations, behind a command with this result.
    #[cold]
    #[inline(never)]
    fn outlast(&mut self, outcome: Result<(), LineError<Refusal>>) -> Result<(), LineError<Refusal>>
        ensures held { self.new.line ≡ self.old.line }
        ensures gathered { self.new.gathered ≡ self.old.gathered }
        ensures refused { self.new.refused ≡ self.old.refused }
        ensures command { self.new.command ≡ self.old.command }
        ensures lasts { Outlasts (state self.old) self.old.said.text self.new.said.text outcome result (state self.new) }
    {
        match outcome {
            Ok(()) => {
                self.retest()?;
                Ok(())
            }
            Err(LineError::Refused(why)) => self.outlast_refused(&why),
            Err(LineError::Memory) => Err(LineError::Memory),
        }
    }

    /// Tests the expectations that last, behind a command that was refused, and passes the refusal on.
    fn outlast_refused(&mut self, why: &Refusal) -> Result<(), LineError<Refusal>>
        ensures held { self.new.line ≡ self.old.line }
        ensures gathered { self.new.gathered ≡ self.old.gathered }
        ensures refused { self.new.refused ≡ self.old.refused }
        ensures command { self.new.command ≡ self.old.command }
        ensures lasts { Outlasts (state self.old) self.old.said.text self.new.said.text (Err (StopValue.Refused why.now)) result (state self.new) }
    {
        self.ended = LineResult::Refused(*why);
        self.retest()?;
        Err(LineError::Refused(*why))
    }

    /// Tests the expectations that last: those that don't hold are told, and last no longer.
    fn retest(&mut self) -> Result<(), AllocError>
        ensures held { self.new.line ≡ self.old.line }
        ensures gathered { self.new.gathered ≡ self.old.gathered }
        ensures refused { self.new.refused ≡ self.old.refused }
        ensures command { self.new.command ≡ self.old.command }
        ensures lasts { OnOk result (HaveLasted (state self.old) self.old.said.text self.new.said.text (state self.new)) }
    {
        let before = self.before();
        let Stage::Running(running) = &self.stage else {
            return Ok(());
        };
        let lasting = mem::replace(&mut self.lasting, Vec::new(self.alloc));
        self.lasting = test_all(
            self.alloc,
            running.bus(),
            &self.names,
            &before,
            lasting,
            &mut self.unmet,
            &mut self.said.text,
        )?;
        Ok(())
    }

    /// Tests what is expected, and prints whether it is met.
    fn test(&mut self, facts: &Facts) -> Result<(), LineError<Refusal>>
        ensures held { self.new.line ≡ self.old.line }
        ensures gathered { self.new.gathered ≡ self.old.gathered }
        ensures refused { self.new.refused ≡ self.old.refused }
        ensures tests { Prints (λ said refused. TestsAt (state self.old) self.old.stage facts.now said refused (noted (state self.new) result)) self.old.said.text self.new.said.text result }
    {
        let before = self.before();
        let Stage::Running(running) = &self.stage else {
            self.said.heard = Heard::nothing();
            return Err(LineError::Refused(Refusal::NoBus));
        };
        let bus = running.bus();
        if facts.hold(bus, &self.names, &before) {
            push_met(&mut self.said.text)?;
            return Ok(());
        }
        self.unmet = self.unmet.saturating_add(1);
        let number = self.lines;
        push_unmet(
            bus,
            &self.names,
            &before,
            number,
            facts,
            &mut self.said.text,
        )?;
        Ok(())
    }

    /// What a line comes to: a refusal is printed, counted and noted, and want of memory ends the run.
    pub(crate) fn settle<K>(
        &mut self,
        outcome: Result<(), LineError<Refusal>>,
    ) -> Result<(), ScriptFault>
        ensures fault { IfErr result (λ fault. fault ≡ ScriptFault.Memory) }
        ensures memory { outcome ≡ Err LineError.Memory → result ≡ Err ScriptFault.Memory }
        ensures told { OnOk result (self.new.said.text ≡ self.old.said.text ++ end_text outcome) }
        ensures counted { self.new.refused ≡ min (self.old.refused + refusals outcome) u64.MAX }
        ensures held { self.new.line ≡ self.old.line }
        ensures gathered { self.new.gathered ≡ self.old.gathered }
        ensures state { state self.new ≡ noted (state self.old) outcome }
    {
        // a count has 64 bits
        let _counted = self.refused;
        match outcome {
            Ok(()) => Ok(()),
            Err(LineError::Memory) => Err(ScriptFault::Memory),
            Err(LineError::Refused(refusal)) => self.refuse(&refusal),
        }
    }

    /// Prints a refusal, counts it, and notes it for the facts behind it.
    fn refuse(&mut self, refusal: &Refusal) -> Result<(), ScriptFault>
        ensures fault { IfErr result (λ fault. fault ≡ ScriptFault.Memory) }
        ensures told { OnOk result (self.new.said.text ≡ self.old.said.text ++ refused_text (Some refusal.now)) }
        ensures counted { self.new.refused ≡ min (self.old.refused + 1) u64.MAX }
        ensures held { self.new.line ≡ self.old.line }
        ensures gathered { self.new.gathered ≡ self.old.gathered }
        ensures state { state self.new ≡ refused_so (state self.old) refusal.now }
    {
        self.refused = self.refused.saturating_add(1);
        self.ended = LineResult::Refused(*refusal);
        match show_refusal(refusal, &mut self.said.text) {
            Ok(()) => Ok(()),
            Err(_) => Err(ScriptFault::Memory),
        }
    }

    /// Takes the script apart, with its bus, and tells how many lines were refused, and how many expectations weren't met.
    pub(crate) fn retire(self) -> Tally
        ensures refused { result.refused ≡ self.refused }
        ensures unmet { result.unmet ≡ self.unmet }
    {
        let Script {
            alloc: _,
            stage,
            names: _,
            line: _,
            command: _,
            said: _,
            gathered: _,
            refused,
            lines: _,
            ended: _,
            unmet,
            lasting: _,
            formless: _,
        } = self;
        stage.retire();
        Tally { refused, unmet }
    }
}
