ghost use Rattle.std.specs.Prelude.{MatchResult};
ghost use Rattle.i3c_tracks.specs.Planning.{HasNoPlan, IsPlan};

use crate::draft::Draft;
use crate::refusal::{Reason, Refusal};
use i3c_scene::{Line, Rules, Scene};
use std::alloc::{AllocError, Global};

/// What a file asks to be explored.
#[derive(Drop)]
pub struct Plan {
    /// The bus at its start, with its main controller.
    pub start: Scene,
    /// The numbers of the commands before the bus, and of the one that made it, from 1 on.
    pub before: Vec<u64>,
    /// The numbers of those that are refused.
    pub refused: Vec<u64>,
    /// The blocks, one after another. A line outside of blocks is a block of one track.
    pub blocks: Vec<Vec<Vec<Line>>>,
    /// Which of the blocks were opened by a line.
    pub opened: Vec<bool>,
    /// The rules of each block that a line opened, in their order.
    pub rules: Vec<Rules>,
    /// Whether a device may lose power in one of them.
    pub risky: bool,
}

/// Why there is no plan of a file.
#[derive(Clone, Copy)]
pub enum PlanFault {
    /// There was no memory.
    Memory,
    /// The file is refused.
    Refused(Refusal),
}

impl PlanFault {
    ghost use Rattle.std.specs.Prelude.{◌≡◌};
    ghost use Rattle.i3c_tracks.specs.Refusing.{at_end};
    ghost use Rattle.i3c_tracks.specs.declared.plan.PlanFault.{PlanFault as PlanFaultValue};

    /// The whole file is refused.
    pub(crate) fn of_file(reason: Reason) -> PlanFault
        ensures { result ≡ PlanFaultValue.Refused (at_end reason) }
    {
        PlanFault::Refused(Refusal { reason, line: None })
    }
}

impl From<AllocError> for PlanFault {
    ghost use Rattle.std.specs.Prelude.{◌≡◌};
    ghost use Rattle.i3c_tracks.specs.declared.plan.PlanFault.{PlanFault};

    ghost from_gives = { λ why fault. fault ≡ PlanFault.Memory };

    fn from(_why: AllocError) -> PlanFault {
        PlanFault::Memory
    }
}

/// The plan of a file's lines.
///
/// # Errors
///
/// `Refused` has the first line that is refused, and its reason; or why the file is refused at its end.
pub fn read_plan(alloc: Global, lines: &[Vec<u8>]) -> Result<Plan, PlanFault>
    ensures { MatchResult result (IsPlan lines.now) (HasNoPlan lines.now) }
{
    let mut draft = Draft::new(alloc);
    for index in 0..lines.len() {
        match draft.take(index as u64 + 1, lines[index].as_slice()) {
            Ok(()) => {}
            Err(fault) => return Err(fault),
        }
    }
    draft.finish()
}
