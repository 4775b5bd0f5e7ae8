/// Why a line of a program isn't done, whatever the bus says. It is printed by this name.
#[derive(Clone, Copy, Debug, PartialEq, Eq)]
pub enum Reason {
    /// The line has no form, or is too long.
    BadLine,
    /// The line sends several frames, between which lines of the tracks would run.
    ManyFrames,
    /// The line asks for what isn't kept here: symbols, frames, or who was active at which records.
    NoPast,
    /// An expectation doesn't hold.
    Unmet,
    /// A run that began as this one sent another line here, or went on.
    Differs,
    /// A limit is exceeded.
    Most,
    /// The line has no answer of the number that the order to be tried has there.
    NoOrder,
    /// Every order was tried, or no other one will be.
    Over,
}

impl Reason {
    ghost use Rattle.std.specs.Prelude.{◌≡◌};
    ghost use Rattle.i3c_program.specs.Answers.{reason_name};

    /// Its name.
    pub fn name(self) -> &'static [u8]
        ensures { result.now ≡ reason_name self }
    {
        match self {
            Reason::BadLine => b"BadLine",
            Reason::ManyFrames => b"ManyFrames",
            Reason::NoPast => b"NoPast",
            Reason::Unmet => b"Unmet",
            Reason::Differs => b"Differs",
            Reason::Most => b"Most",
            Reason::NoOrder => b"NoOrder",
            Reason::Over => b"Over",
        }
    }
}
