ghost use Rattle.std.specs.Prelude.{◌≡◌, ◌<◌, ◌≤◌, ◌++◌, ℕ, List, Option, Ok, Err, drop, length, take, IfSome, OnOk};

use crate::faults::ScriptFault;
use crate::output::position_of_feed;
use crate::reading::{MOST_BYTES, Piece, read_piece};
use std::alloc::Global;
use std::io::Read;

/// How far a script was read.
#[derive(Clone, Copy)]
pub(crate) enum Reading {
    /// More of it may come.
    Open,
    /// It was read to its end.
    Ended,
    /// More came than a script may have.
    TooLarge,
}

/// The lines of a script, one after another, each as soon as it was read.
#[derive(Drop)]
pub struct ScriptLines {
    // what was read, and behind the script's end one more line feed, since its last line may lack its own
    bytes: Vec<u8>,
    // where the line in hand begins, where its line feed is, and where the next line begins
    start: usize,
    end: usize,
    next: usize,
    reading: Reading,
    ghost ordered: { start ≤ end },
    ghost feed: { end ≤ next },
    ghost within: { next ≤ length bytes.items },
}

impl ScriptLines {
    ghost use Rattle.std.specs.Prelude.{[], IfErr, true, false};
    ghost use Rattle.i3c_streams.specs.Outcomes.{HasNoFeed};
    ghost use Rattle.i3c_streams.specs.Lines.{GivesLine, IsGivenOut, IsReadFrom, StaysAt, given, line_in_hand};
    ghost use Rattle.i3c_streams.specs.declared.script_lines.Reading.{Reading as HowFar};

    /// The lines of a script before its first byte.
    pub fn new(alloc: Global) -> ScriptLines
        ensures bytes { result.bytes.items ≡ [] }
        ensures given { given result ≡ [] }
        ensures reading { result.reading ≡ HowFar.Open }
    {
        ScriptLines {
            bytes: Vec::new(alloc),
            start: 0,
            end: 0,
            next: 0,
            reading: Reading::Open,
        }
    }

    /// The line in hand, without its line feed.
    pub fn line(&self) -> &[u8]
        ensures { result.now ≡ line_in_hand self.now }
    {
        &self.bytes[self.start..self.end]
    }

    /// Takes the next line in hand, for which the script is read as far as need be. After the last line it answers `false`.
    pub fn advance<R: Read>(
        &mut self,
        reader: &mut R,
        chunk: &mut [u8],
    ) -> Result<bool, ScriptFault>
        requires { 0 < length chunk.old }
        ensures read { OnOk result ((known : Option (List ℕ)) → IsReadFrom known (R.remaining reader.old) self.old → IsReadFrom known (R.remaining reader.new) self.new) }
        ensures line { result ≡ Ok true → GivesLine self.old self.new }
        ensures ended { result ≡ Ok false → (given self.new ≡ given self.old) × IsGivenOut self.new }
        ensures large { result ≡ Err ScriptFault.TooLarge → (known : Option (List ℕ)) → IsReadFrom known (R.remaining reader.old) self.old → IfSome known (λ script. MOST_BYTES < length script) }
    {
        for _ in 0..u64::MAX {
            if self.take_line() {
                return Ok(true);
            }
            match self.reading {
                Reading::Open => match self.read_more(reader, chunk) {
                    Ok(()) => {}
                    Err(fault) => return Err(fault),
                },
                Reading::Ended => return Ok(false),
                Reading::TooLarge => return Err(ScriptFault::TooLarge),
            }
        }
        // a script has fewer pieces
        Err(ScriptFault::Memory)
    }

    /// Takes the next line in hand, if its line feed was read.
    fn take_line(&mut self) -> bool
        ensures bytes { self.new.bytes ≡ self.old.bytes }
        ensures reading { self.new.reading ≡ self.old.reading }
        ensures line { result ≡ true → GivesLine self.old self.new }
        ensures none { result ≡ false → (self.new ≡ self.old) × HasNoFeed (drop self.new.next self.new.bytes.items) }
    {
        let Some(length) = position_of_feed(&self.bytes[self.next..]) else {
            return false;
        };
        self.start = self.next;
        self.end = self.start + length;
        self.next = self.end + 1;
        true
    }

    /// Reads more of a script.
    fn read_more<R: Read>(&mut self, reader: &mut R, chunk: &mut [u8]) -> Result<(), ScriptFault>
        requires some { 0 < length chunk.old }
        requires open { self.old.reading ≡ HowFar.Open }
        ensures read { OnOk result ((known : Option (List ℕ)) → IsReadFrom known (R.remaining reader.old) self.old → IsReadFrom known (R.remaining reader.new) self.new) }
        ensures stays { StaysAt self.old self.new }
        ensures small { result ≡ Err ScriptFault.TooLarge → ⊥ }
    {
        let left = MOST_BYTES.saturating_sub(self.bytes.len());
        match read_piece(reader, chunk, left) {
            Ok(Piece::End) => self.append(b"\n", Reading::Ended),
            Ok(Piece::Within(count)) => self.append(&chunk[..count], Reading::Open),
            Ok(Piece::Beyond(count)) => self.append(&chunk[..count], Reading::TooLarge),
            Err(fault) => Err(fault),
        }
    }

    /// Appends bytes to what was read.
    fn append(&mut self, bytes: &[u8], reading: Reading) -> Result<(), ScriptFault>
        ensures read { OnOk result ((self.new.bytes.items ≡ self.old.bytes.items ++ bytes.now) × (self.new.reading ≡ reading)) }
        ensures stays { StaysAt self.old self.new }
        ensures small { result ≡ Err ScriptFault.TooLarge → ⊥ }
    {
        match self.bytes.extend_from_slice(bytes) {
            Ok(()) => {
                self.reading = reading;
                Ok(())
            }
            Err(_) => Err(ScriptFault::Memory),
        }
    }
}
