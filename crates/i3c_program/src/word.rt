ghost use Rattle.std.specs.Char.{is_ascii_hexdigit};
ghost use Rattle.std.specs.List.{list_all};
ghost use Rattle.std.specs.Prelude.{◌≡◌, ◌≤◌, IfOk, IsTrue, length};
ghost use Rattle.i3c_lines.specs.Forms.{HasNoForm, IsCommand};
ghost use Rattle.i3c_program.specs.Words.{AreDigits, IsMark, IsSaid, IsWord};

use crate::reason::Reason;
use i3c_every::{Mark, Sent};
use i3c_lines::{Command, is_skipped, push_capitals};
use i3c_scene::{ProgramLine, sends_many};
use i3c_text::Text;
use std::alloc::{AllocError, Global};

// how many digits a mark has at most
const MARK_LENGTH: usize = 64;

/// What a line says that a program sends.
#[derive(Drop)]
pub enum Word {
    /// Nothing: it is empty, or a comment.
    Nothing,
    /// The program sends a line to the bus, waits, or says by a mark what it does next.
    Sends(Sent<ProgramLine>),
    /// Its run is over.
    Again,
    /// It asks for the lines of its run.
    Script,
    /// It asks which answers these took.
    Choices,
    /// It asks how many of its next lines are answered as in the run before.
    Same,
    /// It says nothing that can be done.
    Refused(Reason),
}

/// What a line of a program says.
///
/// # Errors
///
/// There is no memory for it.
pub fn read_word(alloc: Global, line: &[u8]) -> Result<Word, AllocError>
    ensures { IfOk result (IsWord line.now) }
{
    match is_skipped(line) {
        Ok(true) => return Ok(Word::Nothing),
        Ok(false) => {}
        Err(_) => return Ok(Word::Refused(Reason::BadLine)),
    }
    if line == b"wait".as_slice() {
        return Ok(Word::Sends(Sent::Waits));
    }
    if line == b"again".as_slice() {
        return Ok(Word::Again);
    }
    if line == b"script".as_slice() {
        return Ok(Word::Script);
    }
    if line == b"choices".as_slice() {
        return Ok(Word::Choices);
    }
    if line == b"same".as_slice() {
        return Ok(Word::Same);
    }
    if is_mark(line) {
        return Ok(Word::Sends(Sent::Marks(mark_of(alloc, line)?)));
    }
    match Command::parse(line) {
        Some(command) => read_command(alloc, line, &command),
        None => read_in_capitals(alloc, line),
    }
}

/// Whether a line is a mark.
fn is_mark(line: &[u8]) -> bool
    ensures { IsTrue result → IsMark line.now }
{
    match line.strip_prefix(b"mark ".as_slice()) {
        Some(digits) => are_digits(digits),
        None => false,
    }
}

/// Whether these are 1 to 64 hexadecimal digits.
fn are_digits(digits: &[u8]) -> bool
    ensures { IsTrue result → AreDigits digits.now }
{
    !digits.is_empty() && digits.len() <= MARK_LENGTH && are_hexadecimal(digits)
}

/// Whether each digit is hexadecimal.
fn are_hexadecimal(digits: &[u8]) -> bool
    ensures { result ≡ list_all is_ascii_hexdigit digits.now }
{
    digits.iter().all(|digit| digit.is_ascii_hexdigit())
}

/// A line as a mark.
fn mark_of(alloc: Global, line: &[u8]) -> Result<Mark, AllocError>
    ensures { IfOk result (λ mark. mark ≡ line.now) }
{
    let mut bytes = Vec::new(alloc);
    bytes.extend_from_slice(line)?;
    Ok(Mark::new(bytes))
}

/// What a line without a form says by its form in capitals.
fn read_in_capitals(alloc: Global, line: &[u8]) -> Result<Word, AllocError>
    requires short { length line.now ≤ 256 }
    requires formless { HasNoForm line.now }
    ensures { IfOk result (IsWord line.now) }
{
    let mut capitals = Text::new(alloc);
    push_capitals(line, &mut capitals)?;
    match Command::parse(capitals.as_bytes()) {
        Some(command) => read_command(alloc, capitals.as_bytes(), &command),
        None => Ok(Word::Refused(Reason::BadLine)),
    }
}

/// What a line with this command says.
fn read_command(alloc: Global, line: &[u8], command: &Command) -> Result<Word, AllocError>
    requires { IsCommand line.now command.now }
    ensures { IfOk result (IsSaid line.now) }
{
    match ProgramLine::read(alloc, line)? {
        Some(said) => Ok(Word::Sends(said.sent())),
        None if sends_many(command) => Ok(Word::Refused(Reason::ManyFrames)),
        None => Ok(Word::Refused(Reason::NoPast)),
    }
}
