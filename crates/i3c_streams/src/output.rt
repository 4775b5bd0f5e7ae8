ghost use Rattle.std.specs.Prelude.{◌≡◌, ◌<◌, ◌+◌, length, take, MatchOption, MatchResult, OnOk, slice_get, Some};
ghost use Rattle.std.specs.Io.KnownBytes.{Appends};
ghost use Rattle.memchr.specs.Find.{IsFirstByte, is_byte};
ghost use Rattle.i3c_streams.specs.declared.output.TheConstants.{GATHERED};
ghost use Rattle.i3c_streams.specs.Outcomes.{AppendsSome, GoesLast, HasNoFeed, PutsOrFails, WritesFront, output};

use crate::faults::ScriptFault;
use i3c_text::Text;
use memchr::memchr_iter;
use std::io::{ErrorKind, Write};

/// The output of lines is written out once this many bytes of it are gathered.
const GATHERED: usize = 1024;

/// What ends a line.
const LINE_FEED: u8 = b'\n';

/// Where the first line ends that ends in these bytes.
pub fn position_of_feed(bytes: &[u8]) -> Option<usize>
    ensures { MatchOption result (HasNoFeed bytes.now) (λ end. (end < length bytes.now) × (slice_get bytes.now end ≡ Some LINE_FEED) × HasNoFeed (take end bytes.now)) }
{
    first_feed(bytes)
}

/// The place of the first line feed. As a rule it is near; a search for all of them begins the same way.
fn first_feed(bytes: &[u8]) -> Option<usize>
    ensures { IsFirstByte (is_byte LINE_FEED) bytes.now result }
{
    memchr_iter(LINE_FEED, bytes).next()
}

/// Gathers what a line printed behind what waits to go out, once that has gone out if it was long enough.
///
/// # Errors
///
/// The writer fails, or there is no memory for the text.
#[inline(always)]
pub fn gather<W: Write>(text: &[u8], gathered: &mut Text, out: &mut W) -> Result<(), ScriptFault>
    ensures put { PutsOrFails (output (W.contents out.old) gathered.old) (output (W.contents out.new) gathered.new) text.now result }
    ensures short { OnOk result (length gathered.new < GATHERED + length text.now) }
{
    match write_gathered(gathered, out) {
        Ok(()) => match gathered.push(text) {
            Ok(()) => Ok(()),
            Err(_) => Err(ScriptFault::Memory),
        },
        Err(fault) => Err(fault),
    }
}

/// Writes out what is gathered, once it is long enough.
///
/// # Errors
///
/// The writer fails.
#[inline(always)]
pub fn write_gathered<W: Write>(gathered: &mut Text, out: &mut W) -> Result<(), ScriptFault>
    ensures written { MatchResult result (λ _. WritesFront (W.contents out.old) (W.contents out.new) gathered.old gathered.new)
        (λ fault. (fault ≡ ScriptFault.Write) × AppendsSome (W.contents out.old) (W.contents out.new) gathered.old) }
    ensures short { OnOk result (length gathered.new < GATHERED) }
{
    if gathered.as_bytes().len() >= GATHERED {
        write_out(gathered.as_bytes(), out)?;
        gathered.clear();
    }
    Ok(())
}

/// Writes out the gathered output at the end, whatever the result of the lines. But it writes nothing to a writer that
/// failed.
///
/// # Errors
///
/// That of the lines, if they failed; otherwise the writer fails.
pub fn write_last<W: Write>(
    outcome: Result<(), ScriptFault>,
    gathered: &[u8],
    out: &mut W,
) -> Result<(), ScriptFault>
    ensures { GoesLast (W.contents out.old) (W.contents out.new) gathered.now outcome result }
{
    match outcome {
        Err(ScriptFault::Write) => Err(ScriptFault::Write),
        Ok(()) | Err(ScriptFault::Memory | ScriptFault::Read | ScriptFault::TooLarge) => {
            match write_out(gathered, out) {
                Ok(()) => outcome,
                Err(fault) => Err(fault),
            }
        }
    }
}

/// Writes a text, or, where the writer fails or takes nothing, a part of it from its beginning.
///
/// # Errors
///
/// The writer fails.
#[inline(always)]
pub fn write_out<W: Write>(text: &[u8], out: &mut W) -> Result<(), ScriptFault>
    ensures { MatchResult result (λ _. Appends (W.contents out.old) (W.contents out.new) text.now)
        (λ fault. (fault ≡ ScriptFault.Write) × AppendsSome (W.contents out.old) (W.contents out.new) text.now) }
{
    let mut written = 0;
    for _ in 0..u64::MAX {
        if written == text.len() {
            return Ok(());
        }
        match out.write(&text[written..]) {
            Ok(0) => return Err(ScriptFault::Write),
            Ok(count) => written += count,
            Err(error) if error.kind() == ErrorKind::Interrupted => {}
            Err(_) => return Err(ScriptFault::Write),
        }
    }
    Err(ScriptFault::Write)
}
