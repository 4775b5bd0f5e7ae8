ghost use Rattle.std.specs.Prelude.{◌≡◌, ◌≤◌, ◌<◌, Err, false, true, length, IfOk, IfSome, MatchResult};
ghost use Rattle.std.specs.Io.{ReadsAtMost};
ghost use Rattle.std.specs.Io.KnownBytes.{ReadConsumes};
ghost use Rattle.i3c_streams.specs.Reading.{TellsRead};

use i3c_streams::{MOST_BYTES, ScriptFault, read_noted, read_whole};
use std::alloc::Global;
use std::io::Read;

/// A reader, and whether a read of it failed. So it can be told which fault came of reading, and which of want of memory.
#[derive(Drop)]
pub struct Source<R> {
    reader: R,
    has_failed: bool,
}

impl<R: Read> Source<R> {
    /// A reader before its first read.
    pub fn new(reader: R) -> Source<R>
        ensures reader { result.reader ≡ reader }
        ensures failed { result.has_failed ≡ false }
    {
        Source {
            reader,
            has_failed: false,
        }
    }

    /// Reads the next bytes.
    pub(crate) fn read(&mut self, chunk: &mut [u8]) -> Result<usize, ScriptFault>
        ensures bound { ReadsAtMost result chunk.new }
        ensures bytes { ReadConsumes (R.remaining self.old.reader) (R.remaining self.new.reader) result chunk.new }
        ensures failed { MatchResult result (λ _. self.new.has_failed ≡ self.old.has_failed) (λ _. self.new.has_failed ≡ true) }
    {
        read_noted(&mut self.reader, chunk, &mut self.has_failed)
    }

    /// Reads a trace to its end.
    pub(crate) fn read_text(&mut self, alloc: Global) -> Result<Vec<u8>, ScriptFault>
        ensures text { IfOk result (λ text. IfSome (R.remaining self.old.reader) (λ bytes. text.items ≡ bytes)) }
        ensures fits { IfOk result (λ text. length text.items ≤ MOST_BYTES) }
        ensures large { result ≡ Err ScriptFault.TooLarge → IfSome (R.remaining self.old.reader) (λ bytes. MOST_BYTES < length bytes) }
        ensures read { TellsRead self.old.has_failed self.new.has_failed result }
    {
        read_whole(alloc, &mut self.reader, MOST_BYTES, &mut self.has_failed)
    }
}
