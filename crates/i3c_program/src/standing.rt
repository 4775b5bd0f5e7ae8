use i3c_explore::Turn;
use i3c_text::Text;

/// Where a program's session is.
#[derive(Drop)]
pub enum Standing {
    /// Orders are tried.
    Going,
    /// The run is left behind a mark that was taken before: the next order is.
    Left,
    /// Every order was tried.
    Tried,
    /// No other order is tried: a limit is exceeded, or the program isn't determined by its answers.
    Stopped,
    /// An order breaks an expectation.
    Broken(Broken),
}

impl Standing {
    ghost use Rattle.std.specs.Prelude.{◌≡◌, ◌↔◌, IsTrue};
    ghost use Rattle.i3c_program.specs.declared.standing.Standing.{Standing as StandingValue};

    /// Whether orders are tried.
    pub(crate) fn is_going(&self) -> bool
        ensures { IsTrue result ↔ (self.now ≡ StandingValue.Going) }
    {
        match self {
            Standing::Going => true,
            Standing::Left | Standing::Tried | Standing::Stopped | Standing::Broken(_) => false,
        }
    }
}

/// How an order breaks an expectation.
#[derive(Drop)]
pub struct Broken {
    /// The turns that ran behind the program's last line, the oldest first: the last one breaks it, or that line does if there
    /// is none.
    pub behind: Vec<Turn>,
    /// The number of the expectation's line in the scene's file.
    pub number: u64,
    /// What is there instead.
    pub there: Text,
}
