ghost use Rattle.std.specs.Prelude.{◌≡◌, ◌<◌, ◌≤◌, ◌↔◌, IfErr, IfOk, IsTrue, MatchOption, length};
ghost use Rattle.i3c_lines.specs.Forms.{HasNoForm, IsCommand, IsSkipped};

use crate::command::Command;
use crate::refusals::Refusal;
use arrayvec::ArrayVec;

/// How many bytes a line may have, without its line feed.
pub(crate) const LINE_LENGTH: usize = 256;

/// How many of a line's first bytes tell what it is: one more than a line may have, since a longer one has no form.
pub const TELLING_LENGTH: usize = LINE_LENGTH + 1;

/// A comment begins with this.
const COMMENT: u8 = b'#';

/// Whether a line is skipped: it is an empty one or a comment, whatever bytes follow its `#`. A line that is too long has
/// no form, even if it begins as a comment does.
pub fn is_skipped(line: &[u8]) -> Result<bool, Refusal>
    ensures long { 256 < length line.now → result ≡ Err Refusal.BadLine }
    ensures short { IfOk result (λ _. length line.now ≤ 256) }
    ensures longer { IfErr result (λ _. 256 < length line.now) }
    ensures skipped { IfOk result (λ is_skipped. IsTrue is_skipped ↔ IsSkipped line.now) }
    ensures refused { IfErr result (λ why. (why ≡ Refusal.BadLine) × HasNoForm line.now) }
{
    if line.len() > LINE_LENGTH {
        return Err(Refusal::BadLine);
    }
    match line.first() {
        None | Some(&COMMENT) => Ok(true),
        Some(_) => Ok(false),
    }
}

/// The command of a line, if it isn't one that is skipped.
pub fn read_line(line: &[u8]) -> Result<Option<Command>, Refusal>
    ensures read { IfOk result (λ read. MatchOption read (IsSkipped line.now) (λ command. IsCommand line.now command)) }
    ensures refused { IfErr result (λ why. (why ≡ Refusal.BadLine) × HasNoForm line.now) }
{
    if is_skipped(line)? {
        return Ok(None);
    }
    match Command::parse(line) {
        Some(command) => Ok(Some(command)),
        None => Err(Refusal::BadLine),
    }
}

/// A line that is read in pieces: its first bytes, as many as tell what it is.
#[derive(Drop)]
pub struct Line {
    bytes: ArrayVec<u8, TELLING_LENGTH>,
}

impl Line {
    ghost use Rattle.std.specs.Prelude.{◌≡◌, [], ◌++◌, take};
    ghost use Rattle.i3c_lines.specs.Gathering.{gathered};
    ghost use Rattle.i3c_lines.specs.declared.line.TheConstants.{TELLING_LENGTH};

    /// An empty line.
    pub fn new() -> Line
        ensures { gathered result ≡ [] }
    {
        Line {
            bytes: ArrayVec::new(),
        }
    }

    /// The line's next bytes.
    pub fn extend(&mut self, more: &[u8])
        ensures { gathered self.new ≡ take TELLING_LENGTH (gathered self.old ++ more.now) }
    {
        let room = TELLING_LENGTH - self.bytes.len();
        let told = if more.len() <= room {
            more
        } else {
            &more[..room]
        };
        match self.bytes.try_extend_from_slice(told) {
            Ok(()) => {}
            Err(_) => unreachable!(),
        }
    }

    /// What was read of it.
    pub fn as_slice(&self) -> &[u8]
        ensures { result.now ≡ gathered self.now }
    {
        self.bytes.as_slice()
    }
}
