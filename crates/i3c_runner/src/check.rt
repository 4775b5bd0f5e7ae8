ghost use Rattle.std.specs.Prelude.{◌≡◌, ◌+◌, ◌<◌, ◌≤◌, ℕ, List, Option, Ok, Err, length, min, IfOk, IfSome, OnOk, MatchResult};
ghost use Rattle.std.specs.Io.KnownBytes.{Appends, IsAtEnd};
ghost use Rattle.i3c_runner.specs.Checks.{ChecksGoOut};

use crate::expecting::line_fault;
use i3c_base::Addr7;
use i3c_lines::{FormFault, Name, Names, push_quoted, read_line};
use i3c_streams::{CHUNK, MOST_BYTES, ScriptFault, ScriptLines, Tally, write_out};
use i3c_text::Text;
use std::alloc::{AllocError, Global};
use std::io::{Read, Write};

/// Checks a script without running it. It tells each line that has no form and is no mark, with its number and the reason. It
/// also tells each line with a name that no line before it gives, and the first of these names. It counts the lines that are
/// told.
///
/// If a script is too large, or the reader fails, the lines that were whole by then are checked.
pub fn check_script<R: Read, W: Write>(
    alloc: Global,
    reader: &mut R,
    writer: &mut W,
) -> Result<Tally, ScriptFault>
    ensures whole { OnOk result (IsAtEnd (R.remaining reader.new)) }
    ensures fits { OnOk result (IfSome (R.remaining reader.old) (λ bytes. length bytes ≤ MOST_BYTES)) }
    ensures large { result ≡ Err ScriptFault.TooLarge → IfSome (R.remaining reader.old) (λ bytes. MOST_BYTES < length bytes) }
    ensures lines { ChecksGoOut (R.remaining reader.old) (W.contents writer.old) (W.contents writer.new) result }
    ensures unmet { IfOk result (λ tally. tally.unmet ≡ 0) }
{
    let mut check = Check::new(alloc);
    let Ok(mut chunk) = vec![in alloc; 0u8; CHUNK] else {
        return Err(ScriptFault::Memory);
    };
    match check.check_all(reader, &mut chunk, writer) {
        Ok(()) => Ok(Tally {
            refused: check.told,
            unmet: 0,
        }),
        Err(fault) => Err(fault),
    }
}

/// A check that goes on: the names that lines gave so far, what is told of the line in hand, and how many lines were told.
#[derive(Drop)]
struct Check {
    alloc: Global,
    names: Names,
    reason: Text,
    text: Text,
    told: u64,
}

impl Check {
    ghost use Rattle.std.specs.Prelude.{[]};
    ghost use Rattle.i3c_lines.specs.Forms.{HasNoForm};
    ghost use Rattle.i3c_runner.specs.Expecting.{IsMarked};
    ghost use Rattle.i3c_lines.specs.Faults.{IsSo};
    ghost use Rattle.i3c_runner.specs.Checks.{ChecksAll, Gives, IsFaultTold, IsStart, LineChecked, NameTold, name_reason, tells, told_line};

    /// The check before the first line.
    fn new(alloc: Global) -> Check
        ensures start { IsStart result.names }
        ensures told { result.told ≡ 0 }
    {
        Check {
            alloc,
            names: Names::new(alloc),
            reason: Text::new(alloc),
            text: Text::new(alloc),
            told: 0,
        }
    }

    /// Checks each line of a script.
    fn check_all<R: Read, W: Write>(
        &mut self,
        reader: &mut R,
        chunk: &mut [u8],
        out: &mut W,
    ) -> Result<(), ScriptFault>
        requires { 0 < length chunk.old }
        ensures whole { OnOk result (IsAtEnd (R.remaining reader.new)) }
        ensures fits { OnOk result (IfSome (R.remaining reader.old) (λ bytes. length bytes ≤ MOST_BYTES)) }
        ensures large { result ≡ Err ScriptFault.TooLarge → IfSome (R.remaining reader.old) (λ bytes. MOST_BYTES < length bytes) }
        ensures checks { ChecksAll (R.remaining reader.old) (W.contents out.old) (W.contents out.new) self.old.names self.new.names self.old.told self.new.told result }
    {
        let mut lines = ScriptLines::new(self.alloc);
        for number in 1..u64::MAX {
            match lines.advance(reader, chunk) {
                Ok(true) => {}
                Ok(false) => return Ok(()),
                Err(fault) => return Err(fault),
            }
            match self.check_line(number, lines.line()) {
                Ok(()) => {}
                Err(_) => return Err(ScriptFault::Memory),
            }
            match write_out(self.text.as_bytes(), out) {
                Ok(()) => {}
                Err(fault) => return Err(fault),
            }
        }
        // a script has fewer lines
        Err(ScriptFault::Memory)
    }

    /// Checks a line, and prints what is to be told of it.
    fn check_line(&mut self, number: u64, line: &[u8]) -> Result<(), AllocError>
        ensures { OnOk result (LineChecked self.old.names number line.now self.new.text self.new.names × (min self.new.told u64.MAX ≡ min (self.old.told + tells self.new.text) u64.MAX)) }
    {
        self.text.clear();
        self.reason.clear();
        match line_fault(self.alloc, line)? {
            Some(fault) => self.print_fault(number, line, &fault),
            None => self.check_formed(number, line),
        }
    }

    /// Tells why a line has no form.
    fn print_fault(
        &mut self,
        number: u64,
        line: &[u8],
        fault: &FormFault<'_>,
    ) -> Result<(), AllocError>
        requires fresh { self.old.text ≡ [] }
        requires silent { self.old.reason ≡ [] }
        requires so { IsSo line.now fault.now }
        ensures { OnOk result (IsFaultTold number line.now self.new.text × (self.new.names ≡ self.old.names) × (min self.new.told u64.MAX ≡ min (self.old.told + 1) u64.MAX)) }
    {
        fault.push(self.alloc, &mut self.reason)?;
        self.tell(number)
    }

    /// Checks the names of a line that has a form. A mark means no device: a name may be that of one that is gone.
    fn check_formed(&mut self, number: u64, line: &[u8]) -> Result<(), AllocError>
        requires fresh { self.old.text ≡ [] }
        requires silent { self.old.reason ≡ [] }
        requires formed { HasNoForm line.now → IsMarked line.now }
        ensures { OnOk result (LineChecked self.old.names number line.now self.new.text self.new.names × (min self.new.told u64.MAX ≡ min (self.old.told + tells self.new.text) u64.MAX)) }
    {
        match read_line(line) {
            Ok(Some(command)) => {
                self.check_meant(number, command.names_meant())?;
                self.give(command.name_given())
            }
            Ok(None) => Ok(()),
            // a mark
            Err(_) => Ok(()),
        }
    }

    /// Tells the first of these names that no line before gives, if there is one.
    fn check_meant(&mut self, number: u64, meant: &[Name]) -> Result<(), AllocError>
        requires fresh { self.old.text ≡ [] }
        requires silent { self.old.reason ≡ [] }
        ensures told { OnOk result (NameTold self.old.names number meant.now self.new.text × (min self.new.told u64.MAX ≡ min (self.old.told + tells self.new.text) u64.MAX)) }
        ensures names { self.new.names ≡ self.old.names }
    {
        let Some((name, rest)) = meant.split_first() else {
            return Ok(());
        };
        match self.names.place_of(name) {
            Some(_) => self.check_meant(number, rest),
            None => self.print_name(number, name),
        }
    }

    /// Tells a name that no line before gives.
    fn print_name(&mut self, number: u64, name: &Name) -> Result<(), AllocError>
        requires fresh { self.old.text ≡ [] }
        requires silent { self.old.reason ≡ [] }
        ensures told { OnOk result ((self.new.text ≡ told_line number (name_reason name.now)) × (min self.new.told u64.MAX ≡ min (self.old.told + 1) u64.MAX)) }
        ensures names { self.new.names ≡ self.old.names }
    {
        push_quoted(name.as_bytes(), &mut self.reason)?;
        self.reason.push(b": no line before it gives this name")?;
        self.tell(number)
    }

    /// A line gives this name, if it gives one.
    fn give(&mut self, given: Option<Name>) -> Result<(), AllocError>
        ensures given { OnOk result (Gives self.old.names self.new.names given) }
        ensures text { self.new.text ≡ self.old.text }
        ensures told { self.new.told ≡ self.old.told }
    {
        match given {
            // that it is known is all that matters
            Some(name) => self.names.give_address(&name, Addr7::default()),
            None => Ok(()),
        }
    }

    /// Prints the line that tells the reason in hand, and counts it.
    fn tell(&mut self, number: u64) -> Result<(), AllocError>
        requires { self.old.text ≡ [] }
        ensures told { OnOk result ((self.new.text ≡ told_line number self.old.reason) × (min self.new.told u64.MAX ≡ min (self.old.told + 1) u64.MAX)) }
        ensures names { self.new.names ≡ self.old.names }
    {
        self.told = self.told.saturating_add(1);
        self.text.push_decimal(number)?;
        self.text.push(b": ")?;
        self.text.push(self.reason.as_bytes())?;
        self.text.end()
    }
}
