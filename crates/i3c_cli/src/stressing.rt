use crate::fault::Fault;
use crate::output::Output;
use i3c_base::{Fixed, Slot, Verdict};
use i3c_streams::Tally;
use i3c_stress::{Gate, MOST_DEVICES, MOST_POSTS, StressFault, StressReport, stress};
use i3c_task::Stress;
use std::io::{self, Write};
use std::rt::Files;
use std::sync::Wait;
use std::thread::Threads;

// the parser's limits are those of a stress run
const _: () = prove!(i3c_task::MOST_DEVICES == MOST_DEVICES && i3c_task::MOST_POSTS == MOST_POSTS);

/// A watcher is told once the device in slot 1 has made this many tries.
const TOLD_EVERY: u64 = 10_000;

/// A gate that lets each device go on at once, and tells a watcher the progress of the one in slot 1.
#[derive(Drop)]
struct Progress<'a, R> {
    rt: &'a R,
    is_watched: bool,
    posts: u64,
}

impl<R: Eprint> Gate for Progress<'_, R> {
    fn answered(&self, slot: Slot, n: u64) {
        if self.is_watched && slot.index() == 1 && n % TOLD_EVERY == 0 {
            let posts = self.posts;
            // what can't be told isn't missed
            let _ = eprintln!(self.rt; "{n} of {posts}");
        }
    }
}

/// Lets devices post from threads of their own, and prints that each post is accounted for. Tells its progress if standard
/// error is a terminal.
pub fn run_stress<R: Files + Threads + Wait + Sync + Print + Eprint + AllocGlobal>(
    rt: &R,
    asked: &Stress,
    is_watched: bool,
) -> Result<Tally, Fault> {
    let Stress {
        devices,
        posts,
        totals,
    } = *asked;
    // the parser's limits
    if devices < 1 || devices > MOST_DEVICES || posts < 1 || posts > u64::from(MOST_POSTS) {
        return Err(Fault::NotBalanced);
    }
    let mut policy = Fixed {
        join: Verdict::Accept,
        role: Verdict::Accept,
        interrupt: Verdict::Accept,
    };
    let gate = Progress {
        rt,
        is_watched,
        posts,
    };
    let report = stress(rt, rt.alloc(), devices, posts, &mut policy, &gate)?;
    match print_report(&mut Output::new(rt)?, devices, &report, totals) {
        Ok(()) => Ok(Tally {
            refused: 0,
            unmet: 0,
        }),
        Err(_) => Err(Fault::Write),
    }
}

/// Prints a report, and the totals of the posts if they are asked for.
fn print_report<W: Write>(
    printed: &mut W,
    devices: u8,
    report: &StressReport,
    totals: bool,
) -> io::Result<()> {
    let tried = report.tried;
    writeln!(printed, "devices {devices}\ntried {tried}\nbalanced")?;
    if totals {
        let turned_away = report.turned_away;
        let recorded = report.recorded;
        let waiting = report.waiting;
        writeln!(
            printed,
            "turned away {turned_away}\nrecorded {recorded}\nwaiting {waiting}"
        )?;
    }
    Ok(())
}

impl From<StressFault> for Fault {
    ghost use Rattle.std.specs.Prelude.{◌≡◌};
    ghost use Rattle.i3c_cli.specs.Endings.{stress_told_as};

    ghost from_gives = { λ fault told. told ≡ stress_told_as fault };

    fn from(fault: StressFault) -> Fault {
        match fault {
            StressFault::Memory => Fault::Memory,
            StressFault::NotBalanced => Fault::NotBalanced,
        }
    }
}
