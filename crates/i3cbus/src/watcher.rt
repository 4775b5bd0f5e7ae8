use i3c_explore::{Progress, Watch};
use std::cell::Cell;

/// A watcher is told the progress of an exploration each time this many lines were run: every quarter of a second to a
/// second.
const TOLD_EVERY: u64 = 200_000;

/// Takes the cursor to the beginning of a terminal's line, and clears the line.
const CLEAR: &str = "\r\x1b[K";

/// Tells the progress of an exploration on standard error, if that is a terminal: on one line, which is cleared at the end.
#[derive(Drop)]
pub(crate) struct Watcher<'a, R> {
    rt: &'a R,
    is_watched: bool,
    // how many lines had run when the watcher was told last, or 0
    told: Cell<u64>,
}

impl<'a, R> Watcher<'a, R> {
    /// A watcher on standard error of this runtime, if somebody watches it.
    pub(crate) fn new(rt: &'a R, is_watched: bool) -> Watcher<'a, R> {
        Watcher {
            rt,
            is_watched,
            told: Cell::new(0),
        }
    }
}

impl<R: Eprint> Watch for Watcher<'_, R> {
    fn told(&self, progress: Progress) {
        let Progress {
            line,
            lines,
            states,
            steps,
        } = progress;
        if self.is_watched && steps.saturating_sub(self.told.get()) >= TOLD_EVERY {
            self.told.set(steps);
            // what can't be told isn't missed
            let _ = eprint!(self.rt;
                "{CLEAR}line {line} of {lines}, {states} states, {steps} steps"
            );
        }
    }

    fn ended(&self) {
        if self.told.get() > 0 {
            let _ = self.rt.eprint(CLEAR);
        }
    }
}
