use crate::turn::Turn;
use std::alloc::AllocError;

/// Why an exploration ended before every order was tried.
#[derive(Debug, Drop)]
pub enum Stop {
    /// There was no memory.
    Memory,
    /// A limit was reached. Nothing is said of orders that were not tried.
    Most,
    /// This order, the oldest turn first, breaks an expectation at its last line.
    Breaks(Vec<Turn>),
}

impl From<AllocError> for Stop {
    ghost use Rattle.std.specs.Prelude.{◌≡◌};
    ghost use Rattle.i3c_explore.specs.declared.stop.Stop.{Stop};

    ghost from_gives = { λ why stop. stop ≡ Stop.Memory };

    fn from(_why: AllocError) -> Stop {
        Stop::Memory
    }
}
