ghost use Rattle.std.specs.Prelude.{◌≡◌};
ghost use Rattle.i3cbus.specs.Endings.{exit_status, explore_ending, lines_ending, meeting_ending};

use i3c_cli::{BREAKS, DONE, FAULT, Fault, REFUSED, tally_status};
use i3c_program::Ending as ProgramEnding;
use i3c_streams::Tally;
use i3c_tracks::Answer;

/// How a run of the program ended.
#[derive(Clone, Copy)]
pub(crate) enum Ending {
    /// Lines were run, checked or told; the tally counts the refused ones, and the expectations not met.
    Ran(Tally),
    /// Orders of lines were explored.
    Explored(Answer),
    /// A program met orders of lines.
    Met(ProgramEnding),
}

/// The ending of an exploration: its answer, and whether its output was taken whole.
pub(crate) fn explore_ending(outcome: Result<Answer, Fault>, flushed: bool) -> Result<Ending, Fault>
    ensures { result ≡ explore_ending outcome flushed }
{
    let answer = outcome?;
    if flushed {
        Ok(Ending::Explored(answer))
    } else {
        Err(Fault::Write)
    }
}

/// The ending of a program's orders.
pub(crate) fn meeting_ending(outcome: Result<ProgramEnding, Fault>) -> Result<Ending, Fault>
    ensures { result ≡ meeting_ending outcome }
{
    match outcome {
        Ok(ending) => Ok(Ending::Met(ending)),
        Err(fault) => Err(fault),
    }
}

/// The ending of a run of lines.
pub(crate) fn lines_ending(outcome: Result<Tally, Fault>) -> Result<Ending, Fault>
    ensures { result ≡ lines_ending outcome }
{
    match outcome {
        Ok(tally) => Ok(Ending::Ran(tally)),
        Err(fault) => Err(fault),
    }
}

/// The exit status of an ending.
pub(crate) fn status_of(outcome: &Result<Ending, Fault>) -> u8
    ensures { result ≡ exit_status outcome.now }
{
    match outcome {
        Ok(Ending::Ran(tally)) => tally_status(tally),
        Ok(Ending::Explored(Answer::Holds)) => DONE,
        Ok(Ending::Explored(Answer::Refused)) => REFUSED,
        Ok(Ending::Explored(Answer::Breaks)) => BREAKS,
        Ok(Ending::Met(ProgramEnding::Tried)) => DONE,
        Ok(Ending::Met(ProgramEnding::Wanting)) => REFUSED,
        Ok(Ending::Met(ProgramEnding::Unmet)) => BREAKS,
        Err(_) => FAULT,
    }
}
