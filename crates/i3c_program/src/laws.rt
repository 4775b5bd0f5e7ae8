ghost use Rattle.i3c_program.specs.Laws.{MarkedProgramsMeetEveryOrder, ProgramsMeetEveryOrder};

use i3c_every::{marked_programs_meet_every_order, programs_meet_every_order};
use i3c_scene::Scene;

/// A program that is determined by what it is told in a run, and sends no mark, has met every order of a scene, where its session
/// says that all were tried. Each of its lines met each order of the tracks' lines that may run before it, each cut of its frame
/// among them, and whatever goes on from there was tried. No expectation broke: none behind a line of the tracks or of the
/// program, and none of those behind the block, in any order of what was left where a run was over.
pub fn programs_meet_every_order_of_a_scene()
    ensures { ProgramsMeetEveryOrder }
{
    programs_meet_every_order::<Scene>();
}

/// The same of a program whose marks decide what it does next. Behind the beginning of each run that was tried the run is over,
/// or the program's line met each order of the tracks' lines that may run before it. It met them there, or where the program sent
/// the same mark in the same state at the same places, and so goes on alike. No expectation broke in a run that was tried.
pub fn marked_programs_meet_every_order_of_a_scene()
    ensures { MarkedProgramsMeetEveryOrder }
{
    marked_programs_meet_every_order::<Scene>();
}
