ghost use Rattle.std.specs.Prelude.{◌≡◌};
ghost use Rattle.i3c_cli.specs.Endings.{ending, flushed_ending, tally_status, wave_ending};

use crate::fault::Fault;
use i3c_frame::TraceFault;
use i3c_streams::{ScriptFault, Tally};

/// The exit status where all is well: a script ran to its end, no line was refused and each expectation was met, or what an
/// exploration expects holds in every order.
pub const DONE: u8 = 0;

/// The exit status where something was refused: a line of a script that ran to its end and met its expectations, or an
/// exploration.
pub const REFUSED: u8 = 1;

/// The exit status if a file wasn't read to its end, or what came of it wasn't written whole.
pub const FAULT: u8 = 2;

/// The exit status if an expectation wasn't met, or an order of lines breaks one.
pub const BREAKS: u8 = 3;

/// The tally of a run, or its fault: the fault of its script, or that its output wasn't taken whole.
pub(crate) fn tally_of(outcome: Result<Tally, ScriptFault>, flushed: bool) -> Result<Tally, Fault>
    ensures { result ≡ ending outcome flushed }
{
    let tally = outcome?;
    if flushed {
        Ok(tally)
    } else {
        Err(Fault::Write)
    }
}

/// The same of a run whose fault is the program's already.
pub(crate) fn flushed_tally(outcome: Result<Tally, Fault>, flushed: bool) -> Result<Tally, Fault>
    ensures { result ≡ flushed_ending outcome flushed }
{
    let tally = outcome?;
    if flushed {
        Ok(tally)
    } else {
        Err(Fault::Write)
    }
}

/// The ending of a waveform: whether its trace had a fault, and whether its output was taken whole.
pub(crate) fn wave_ending(
    outcome: Result<Option<TraceFault>, ScriptFault>,
    flushed: bool,
) -> Result<Tally, Fault>
    ensures { result ≡ wave_ending outcome flushed }
{
    let fault = outcome?;
    if !flushed {
        return Err(Fault::Write);
    }
    match fault {
        Some(_) => Ok(Tally {
            refused: 1,
            unmet: 0,
        }),
        None => Ok(Tally {
            refused: 0,
            unmet: 0,
        }),
    }
}

/// The exit status of lines that were run: an expectation that wasn't met goes before a refused line.
pub fn tally_status(tally: &Tally) -> u8
    ensures { result ≡ tally_status tally.now }
{
    if tally.unmet > 0 {
        BREAKS
    } else if tally.refused > 0 {
        REFUSED
    } else {
        DONE
    }
}
