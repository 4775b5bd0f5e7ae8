use i3c_text::Text;
use std::alloc::AllocError;

/// Why a file isn't explored. It is printed by this name.
#[derive(Clone, Copy)]
pub enum Reason {
    /// The line has no form, or is too long.
    BadLine,
    /// No line before it makes a bus.
    NoBus,
    /// No block is open.
    NoBlock,
    /// A block is open, in which this line has no place.
    BlockOpen,
    /// The block has no track yet.
    NoTrack,
    /// An expectation has no line before it.
    NoLine,
    /// The line sends several frames, in a block whose devices may lose power in each frame.
    ManyFrames,
    /// There are more tracks, lines or names than a block may have, or more lines were run than were allowed.
    Most,
    /// A block isn't closed.
    NoClose,
}

impl Reason {
    ghost use Rattle.std.specs.Prelude.{◌≡◌};
    ghost use Rattle.i3c_tracks.specs.Telling.{reason_token};

    /// The reason's name, as it is printed.
    fn token(self) -> &'static str
        ensures { result.now ≡ reason_token self }
    {
        match self {
            Reason::BadLine => "BadLine",
            Reason::NoBus => "NoBus",
            Reason::NoBlock => "NoBlock",
            Reason::BlockOpen => "BlockOpen",
            Reason::NoTrack => "NoTrack",
            Reason::NoLine => "NoLine",
            Reason::ManyFrames => "ManyFrames",
            Reason::Most => "Most",
            Reason::NoClose => "NoClose",
        }
    }
}

/// That a file isn't explored.
#[derive(Clone, Copy)]
pub struct Refusal {
    /// Why.
    pub reason: Reason,
    /// The number of the line that is refused, from 1 on: none if it is the whole file.
    pub line: Option<u64>,
}

impl Refusal {
    ghost use Rattle.std.specs.Prelude.{◌≡◌, ◌++◌, OnOk};
    ghost use Rattle.i3c_tracks.specs.Telling.{refusal_line};

    /// Appends the line that tells it.
    pub fn push(&self, text: &mut Text) -> Result<(), AllocError>
        ensures { OnOk result (text.new ≡ text.old ++ refusal_line self.now) }
    {
        text.push(b"refused ")?;
        text.push(self.reason.token().as_bytes())?;
        match self.line {
            Some(number) => text.push_numbered(b" ", number),
            None => text.end(),
        }
    }
}
