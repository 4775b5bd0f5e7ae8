ghost use Rattle.std.specs.Prelude.{IfOk};
ghost use Rattle.i3c_tracks.specs.Saying.{IsFileLine};

use i3c_facts::{Mark, read_mark};
use i3c_lines::{Command, read_line};
use std::alloc::{AllocError, Global};

/// What a line of a file says.
#[derive(Drop)]
pub(crate) enum FileLine {
    /// Nothing: it is empty, or a comment.
    Nothing,
    /// A command.
    Does(Command),
    /// A mark.
    Marks(Mark),
    /// It has no form.
    Formless,
}

/// What a line says.
pub(crate) fn read_file_line(alloc: Global, line: &[u8]) -> Result<FileLine, AllocError>
    ensures { IfOk result (IsFileLine line.now) }
{
    match read_line(line) {
        Ok(Some(command)) => Ok(FileLine::Does(command)),
        Ok(None) => Ok(FileLine::Nothing),
        Err(_) => match read_mark(alloc, line)? {
            Some(mark) => Ok(FileLine::Marks(mark)),
            None => Ok(FileLine::Formless),
        },
    }
}
