use i3c_streams::ScriptFault;
use std::alloc::AllocError;

/// Why a file isn't explored.
#[derive(Clone, Copy)]
pub enum ExploreFault {
    /// It wasn't read to its end, the output wasn't taken, or there is no memory.
    Script(ScriptFault),
    /// The question of this place has a name that no line of the file gives.
    NoName(usize),
}

impl From<AllocError> for ExploreFault {
    ghost use Rattle.std.specs.Prelude.{◌≡◌};
    ghost use Rattle.i3c_streams.specs.declared.faults.ScriptFault.{ScriptFault};
    ghost use Rattle.i3c_tracks.specs.declared.explore_fault.ExploreFault.{ExploreFault};

    ghost from_gives = { λ why fault. fault ≡ ExploreFault.Script ScriptFault.Memory };

    fn from(_why: AllocError) -> ExploreFault {
        ExploreFault::Script(ScriptFault::Memory)
    }
}
