use i3c_facts::Heard;
use i3c_script::{Listener, Piece};
use i3c_text::Text;
use std::alloc::{AllocError, Global};

/// What a line prints, and what facts know of its pieces. It hears these.
#[derive(Drop)]
pub(crate) struct Said {
    pub text: Text,
    pub heard: Heard,
}

impl Said {
    ghost use Rattle.i3c_facts.specs.Hearing.{nothing_heard};
    ghost use Rattle.std.specs.Prelude.{◌≡◌, []};

    /// Nothing was said or heard.
    pub(crate) fn new(alloc: Global) -> Said
        ensures text { result.text ≡ [] }
        ensures heard { result.heard ≡ nothing_heard }
    {
        Said {
            text: Text::new(alloc),
            heard: Heard::nothing(),
        }
    }
}

impl Listener for Said {
    ghost use Rattle.i3c_runner.specs.Saying.{said_with};

    ghost heard = { said_with };

    // in line, where it is known which piece is heard
    #[inline(always)]
    fn hear(&mut self, piece: Piece) -> Result<(), AllocError> {
        self.heard.note(&piece);
        self.text.hear(piece)
    }
}
