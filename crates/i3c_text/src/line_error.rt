ghost use Rattle.std.specs.Prelude.{◌≡◌};
ghost use Rattle.i3c_text.specs.declared.line_error.LineError.TheVariants.{Memory};

use std::alloc::AllocError;
use std::fmt;

/// Why a line, or a part of a trace, wasn't done to its end.
#[derive(Clone, Copy, Drop)]
pub enum LineError<R> {
    /// It was refused, for this reason.
    Refused(R),
    /// There was no memory for it.
    Memory,
}

impl<R> From<AllocError> for LineError<R> {
    ghost from_gives = { λ _ stop. stop ≡ Memory };

    fn from(_error: AllocError) -> LineError<R> {
        LineError::Memory
    }
}

// The errors of formatting are those of a line's text.
impl<R> From<fmt::Error> for LineError<R> {
    ghost from_gives = { λ _ stop. stop ≡ Memory };

    fn from(_error: fmt::Error) -> LineError<R> {
        LineError::Memory
    }
}
