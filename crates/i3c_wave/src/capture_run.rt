ghost use Rattle.std.specs.Prelude.{◌≡◌, ◌⊎◌, ◌<◌, Err, Ok, IfSome, length, MatchResult};
ghost use Rattle.i3c_wave.specs.Found.{found_in};
ghost use Rattle.i3c_wave.specs.CaptureTexts.{Closed, Ended, IsFound, IsOfReading, Reads, TellsRead, bytes_read, closed, input, text_ended, text_read};

use crate::capture_fault::CaptureFault;
use crate::capture_text::{CaptureWords, letters_in};
use crate::captured::Captured;
use crate::source::Source;
use i3c_base::Addresses;
use i3c_streams::CHUNK;
use i3c_text::Text;
use std::alloc::Global;
use std::io::Read;

/// The frames of a capture: a value change dump (IEEE 1364) in which the signals of these names are SCL and SDA. Legacy
/// targets have these addresses. A frame that can't be read is marked as lost, and reading goes on at the next START. Fails
/// with the text's first fault. Beside what it finds it keeps one word of the text. `Read` is told exactly where a read failed.
pub fn read_capture<R: Read>(
    alloc: Global,
    legacies: Addresses,
    scl: &[u8],
    sda: &[u8],
    source: &mut Source<R>,
) -> Result<Captured, CaptureFault>
    ensures found { MatchResult result
        (λ captured. IfSome (R.remaining source.old.reader) (λ text. IsFound legacies scl.now sda.now text captured))
        (λ fault. IsOfReading fault ⊎ IfSome (R.remaining source.old.reader) (λ text. text_read legacies scl.now sda.now text ≡ Err fault)) }
    ensures read { TellsRead source.old.has_failed source.new.has_failed result }
{
    let Ok(mut chunk) = vec![in alloc; 0u8; CHUNK] else {
        return Err(CaptureFault::Memory);
    };
    read_chunks(alloc, legacies, scl, sda, source, &mut chunk)
}

/// The frames of a capture, which is read by chunks.
fn read_chunks<R: Read>(
    alloc: Global,
    legacies: Addresses,
    scl: &[u8],
    sda: &[u8],
    source: &mut Source<R>,
    chunk: &mut [u8],
) -> Result<Captured, CaptureFault>
    requires { 0 < length chunk.old }
    ensures found { MatchResult result
        (λ captured. IfSome (R.remaining source.old.reader) (λ text. IsFound legacies scl.now sda.now text captured))
        (λ fault. IsOfReading fault ⊎ IfSome (R.remaining source.old.reader) (λ text. text_read legacies scl.now sda.now text ≡ Err fault)) }
    ensures read { TellsRead source.old.has_failed source.new.has_failed result }
{
    let mut word = Text::new(alloc);
    let mut captured = Captured::new(alloc);
    let mut reached = CaptureWords::new(alloc, legacies);
    for _ in 0..u64::MAX {
        let Ok(count) = source.read(chunk) else {
            return Err(CaptureFault::Read);
        };
        if count == 0 {
            return match end_text(&mut reached, scl, sda, &mut word, &mut captured) {
                Ok(()) => Ok(captured),
                Err(fault) => Err(fault),
            };
        }
        let bytes = &chunk[..count];
        match take_bytes(&mut reached, scl, sda, bytes, &mut word, &mut captured) {
            Ok(()) => {}
            Err(fault) => return Err(fault),
        }
    }
    // a capture has fewer chunks
    Err(CaptureFault::Memory)
}

/// Takes the next bytes of a text: words with the spaces behind them, and the letters of a word that is open at their end.
fn take_bytes(
    reached: &mut CaptureWords,
    scl: &[u8],
    sda: &[u8],
    bytes: &[u8],
    word: &mut Text,
    captured: &mut Captured,
) -> Result<(), CaptureFault>
    ensures { Reads (bytes_read scl.now sda.now (input reached.old word.old (found_in captured.old)) bytes.now) reached.new word.new (found_in captured.new) result }
{
    let mut rest = bytes;
    let mut count = letters_in(rest);
    while count < rest.len() {
        match reached.take_part(scl, sda, &rest[..count], rest[count], word, captured) {
            Ok(()) => {}
            Err(fault) => return Err(fault),
        }
        rest = &rest[count + 1..];
        count = letters_in(rest);
    }
    reached.keep_letters(rest, word)
}

/// Ends a text: takes its last word, and the level that lasts.
fn end_text(
    reached: &mut CaptureWords,
    scl: &[u8],
    sda: &[u8],
    word: &mut Text,
    captured: &mut Captured,
) -> Result<(), CaptureFault>
    ensures { MatchResult result
        (λ _. Ended scl.now sda.now (input reached.old word.old (found_in captured.old)) (found_in captured.new))
        (λ fault. (fault ≡ CaptureFault.Memory) ⊎ (text_ended scl.now sda.now (input reached.old word.old (found_in captured.old)) ≡ Err fault)) }
{
    match reached.end_word(scl, sda, word, captured) {
        Ok(()) => close(reached, captured),
        Err(fault) => Err(fault),
    }
}

/// Takes the level that lasts to the end of a text.
fn close(reached: &mut CaptureWords, captured: &mut Captured) -> Result<(), CaptureFault>
    ensures { MatchResult result
        (λ _. Closed (closed reached.old) (found_in captured.old) (found_in captured.new))
        (λ fault. (fault ≡ CaptureFault.Memory) ⊎ (closed reached.old ≡ Err fault)) }
{
    match reached.close() {
        Ok(event) => captured.keep(event, reached.timescale()),
        Err(fault) => Err(fault),
    }
}
