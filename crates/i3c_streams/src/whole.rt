ghost use Rattle.std.specs.Prelude.{◌≡◌, ◌<◌, ◌≤◌, length, IfOk, IfSome, MatchResult, OnOk, true};
ghost use Rattle.std.specs.Io.{ReadsAtMost};
ghost use Rattle.std.specs.Io.KnownBytes.{Consumes, IsAtEnd, ReadConsumes};
ghost use Rattle.i3c_streams.specs.Reading.{TellsRead};

use crate::faults::ScriptFault;
use crate::reading::CHUNK;
use std::alloc::Global;
use std::io::Read;

/// Reads an input to its end, of which `most` bytes are allowed. `has_failed` becomes true where a read fails.
///
/// # Errors
///
/// A read fails, more bytes come than are allowed, or there is no memory for them.
pub fn read_whole<R: Read>(
    alloc: Global,
    reader: &mut R,
    most: usize,
    has_failed: &mut bool,
) -> Result<Vec<u8>, ScriptFault>
    ensures whole { OnOk result (IsAtEnd (R.remaining reader.new)) }
    ensures bytes { IfOk result (λ whole. Consumes (R.remaining reader.old) (R.remaining reader.new) whole.items) }
    ensures fits { IfOk result (λ whole. length whole.items ≤ most) }
    ensures large { result ≡ Err ScriptFault.TooLarge → IfSome (R.remaining reader.old) (λ bytes. most < length bytes) }
    ensures read { TellsRead has_failed.old has_failed.new result }
{
    let Ok(mut chunk) = vec![in alloc; 0u8; CHUNK] else {
        return Err(ScriptFault::Memory);
    };
    read_chunks(alloc, reader, most, &mut chunk, has_failed)
}

/// Reads an input to its end, by chunks.
fn read_chunks<R: Read>(
    alloc: Global,
    reader: &mut R,
    most: usize,
    chunk: &mut [u8],
    has_failed: &mut bool,
) -> Result<Vec<u8>, ScriptFault>
    requires { 0 < length chunk.old }
    ensures whole { OnOk result (IsAtEnd (R.remaining reader.new)) }
    ensures bytes { IfOk result (λ whole. Consumes (R.remaining reader.old) (R.remaining reader.new) whole.items) }
    ensures fits { IfOk result (λ whole. length whole.items ≤ most) }
    ensures large { result ≡ Err ScriptFault.TooLarge → IfSome (R.remaining reader.old) (λ bytes. most < length bytes) }
    ensures read { TellsRead has_failed.old has_failed.new result }
{
    let Ok(mut whole) = Vec::with_capacity(alloc, most) else {
        return Err(ScriptFault::Memory);
    };
    for _ in 0..u64::MAX {
        let Ok(count) = read_noted(reader, chunk, has_failed) else {
            return Err(ScriptFault::Read);
        };
        if count == 0 {
            return Ok(whole);
        }
        if count > most - whole.len() {
            return Err(ScriptFault::TooLarge);
        }
        match whole.extend_from_slice(&chunk[..count]) {
            Ok(()) => {}
            Err(_) => return Err(ScriptFault::Memory),
        }
    }
    // an input has fewer chunks
    Err(ScriptFault::Memory)
}

/// Reads the next bytes of an input. `has_failed` becomes true if that fails.
///
/// # Errors
///
/// The reader fails.
pub fn read_noted<R: Read>(
    reader: &mut R,
    chunk: &mut [u8],
    has_failed: &mut bool,
) -> Result<usize, ScriptFault>
    ensures bound { ReadsAtMost result chunk.new }
    ensures bytes { ReadConsumes (R.remaining reader.old) (R.remaining reader.new) result chunk.new }
    ensures failed { MatchResult result (λ _. has_failed.new ≡ has_failed.old)
        (λ fault. (fault ≡ ScriptFault.Read) × (has_failed.new ≡ true)) }
{
    match reader.read(chunk) {
        Ok(count) => Ok(count),
        Err(_) => {
            *has_failed = true;
            Err(ScriptFault::Read)
        }
    }
}
