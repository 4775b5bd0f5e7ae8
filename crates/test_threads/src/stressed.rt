use super::setting::{NONE, entry, reached};
use crate::checks::same;
use i3c_base::{Cuts, Served, Slot};
use i3c_scenario::{StressFault, StressReport, Watch, stress_watched};
use i3c_shared::{Closed, Entry};
use i3c_step::{Event, Refusal, Reply};
use std::alloc::Global;
use std::sync::Wait;
use std::sync::atomic::{AtomicU64, Ordering};
use std::thread::Threads;
use std::time::Clock;

/// How often the one device posts, and so how often is served.
const POSTS: u64 = 12;

/// The entries before the first raise: an attachment, and a session that gives one address.
const FIRST: usize = 5;

/// Watches one device that posts twelve times while each request is turned down. The first serve waits for eight answers,
/// the ninth post for the second serve, and that one for the last answer. So the first serve takes up eight posts, which
/// then wait, and the second one four, for which there is no room.
#[derive(Drop)]
struct Watched<'a, R> {
    rt: &'a R,
    answers: AtomicU64,
    serves: AtomicU64,
    late: AtomicU64,
    wrong: AtomicU64,
    unread: AtomicU64,
}

impl<'a, R: Clock> Watched<'a, R> {
    /// Counts one call more, which has to be the nth.
    fn counted(&self, calls: &AtomicU64, n: u64) {
        let before = calls.fetch_add(1, Ordering::SeqCst);
        if n.checked_sub(1) != Some(before) {
            self.wrong.fetch_add(1, Ordering::SeqCst);
        }
    }

    /// Waits until `least` calls were counted.
    fn wait_for(&self, calls: &AtomicU64, least: u64) {
        if !reached(self.rt, calls, least) {
            self.late.fetch_add(1, Ordering::SeqCst);
        }
    }
}

impl<'a, R: Clock> Watch for Watched<'a, R> {
    fn answered(&self, _slot: Slot, n: u64) {
        self.counted(&self.answers, n);
        if n == 8 {
            self.wait_for(&self.serves, 2);
        }
    }

    fn serving(&self, n: u64) {
        self.counted(&self.serves, n);
        match n {
            1 => self.wait_for(&self.answers, 8),
            2 => self.wait_for(&self.answers, POSTS),
            _ => {}
        }
    }

    fn closed(&self, closed: &Closed) {
        for place in FIRST..29 {
            match closed.run.get(place) {
                Ok(Some(found)) if found == due(place) => {}
                Ok(_) => {
                    self.wrong.fetch_add(1, Ordering::SeqCst);
                }
                Err(_) => {
                    self.unread.fetch_add(1, Ordering::SeqCst);
                }
            }
        }
    }
}

/// A raise of the device with this byte, and its reply.
fn raised(byte: u8, reply: Reply) -> Entry {
    entry(Event::Raise(Slot::from_index(1), Some(byte)), reply)
}

/// The expected entry at a place of the run: eight accepted raises, a serve, four refused raises, and eleven serves.
fn due(place: usize) -> Entry {
    match place {
        5..=12 => raised(place as u8 - 5, Reply::Raised(place as u64 - 4)),
        14..=17 => raised(place as u8 - 6, Reply::Refused(Refusal::Full)),
        _ => entry(
            Event::Serve(NONE, Cuts::new()),
            Reply::Served(Served::Refused),
        ),
    }
}

/// The result of a watched run: its report, whether it had all the memory that it asked for, how often a thread waited for
/// too long, and how often something was wrong.
#[derive(Drop)]
struct Outcome {
    report: Result<StressReport, StressFault>,
    has_memory: bool,
    late: u64,
    wrong: u64,
}

fn run_watched<R: Threads + Wait + Clock + Sync>(rt: &R, alloc: Global) -> Outcome {
    let watch = Watched {
        rt,
        answers: AtomicU64::new(0),
        serves: AtomicU64::new(0),
        late: AtomicU64::new(0),
        wrong: AtomicU64::new(0),
        unread: AtomicU64::new(0),
    };
    let mut policy = NONE;
    let report = stress_watched(rt, alloc, 1, POSTS, &mut policy, &watch);
    let is_short = report == Err(StressFault::Memory) || watch.unread.load(Ordering::SeqCst) > 0;
    Outcome {
        report,
        has_memory: !is_short,
        late: watch.late.load(Ordering::SeqCst),
        wrong: watch.wrong.load(Ordering::SeqCst),
    }
}

// A device posts bytes that count from 0, and is answered with numbers from 1. As often as it tries is served. The raises
// that find no room are turned away, and the others wait.
#[test]
fn posts_without_room_are_turned_away(rt: HostRuntime) {
    let first = run_watched(&rt, rt.alloc());
    let outcome = if first.has_memory {
        first
    } else {
        run_watched(&rt, rt.alloc())
    };
    let due = StressReport {
        tried: 12,
        posted: 12,
        turned_away: 4,
        recorded: 0,
        waiting: 8,
    };
    same(&rt, outcome.report, Ok(due));
    same(&rt, outcome.late, 0);
    same(&rt, outcome.wrong, 0);
}
