use i3c_base::{Bytes, Served};
use i3c_lines::Refusal;
use i3c_script::{Listener, Piece};
use std::alloc::AllocError;

/// How the previous line ended.
#[derive(Clone, Copy)]
pub enum LineResult {
    /// There is no previous line.
    Nothing,
    /// It was done.
    Done,
    /// It was refused, for this reason.
    Refused(Refusal),
}

/// What facts know of the pieces of a line, which it hears.
#[derive(Clone, Copy)]
pub struct Heard {
    /// What the first request of the line's frame came to: `Quiet` where no piece tells of a request.
    pub served: Served,
    /// The bytes that the line read, if it read some.
    pub read: Option<Bytes>,
}

/// What facts know of the previous line.
#[derive(Clone, Copy)]
pub struct Before {
    /// How it ended.
    pub result: LineResult,
    /// What its pieces told.
    pub heard: Heard,
}

impl Heard {
    ghost use Rattle.std.specs.Prelude.{◌≡◌};
    ghost use Rattle.i3c_facts.specs.Hearing.{heard_with, nothing_heard};

    /// No piece was heard.
    #[inline(always)]
    pub fn nothing() -> Heard
        ensures { result ≡ nothing_heard }
    {
        Heard {
            served: Served::Quiet,
            read: None,
        }
    }

    /// Notes one more piece: what a frame's first request came to, or which bytes were read.
    // in line, where it is known which piece is heard
    #[inline(always)]
    pub fn note(&mut self, piece: &Piece)
        ensures { self.new ≡ heard_with self.old piece.now }
    {
        match piece {
            Piece::Served(served) => self.served = *served,
            Piece::Bytes(bytes) => self.read = Some(*bytes),
            Piece::Told(_, bytes) => self.read = Some(*bytes),
            _ => {}
        }
    }
}

impl Before {
    ghost use Rattle.std.specs.Prelude.{◌≡◌};
    ghost use Rattle.i3c_facts.specs.Hearing.{no_line};

    /// No previous line.
    pub fn nothing() -> Before
        ensures { result ≡ no_line }
    {
        Before {
            result: LineResult::Nothing,
            heard: Heard::nothing(),
        }
    }
}

impl Listener for Heard {
    ghost use Rattle.i3c_facts.specs.Hearing.{heard_with};

    ghost heard = { heard_with };

    #[inline(always)]
    fn hear(&mut self, piece: Piece) -> Result<(), AllocError> {
        self.note(&piece);
        Ok(())
    }
}
