use crate::limits::Limits;
use crate::node::Node;

/// How far an exploration is.
#[derive(Clone, Copy, Debug, PartialEq, Eq)]
pub struct Progress {
    /// The number of the line that is run now, of those of an order, counted from 1.
    pub line: usize,
    /// The number of lines of an order.
    pub lines: usize,
    /// The number of states that were found behind this line so far.
    pub states: usize,
    /// The number of lines that were run so far, in all orders.
    pub steps: u64,
}

/// A watcher of an exploration. It has no effect on the exploration.
pub trait Watch {
    /// Is told how far the exploration is, often.
    fn told(&self, progress: Progress);

    /// The exploration is over, in whatever way.
    fn ended(&self);
}

/// Nobody watches.
#[derive(Clone, Copy)]
pub(crate) struct Unwatched;

impl Watch for Unwatched {
    fn told(&self, _progress: Progress) {}

    fn ended(&self) {}
}

/// A watcher of one exploration, with what its numbers are counted by.
#[derive(Drop)]
pub(crate) struct View<'a, W> {
    /// The watcher.
    pub watch: &'a W,
    /// The number of lines of an order.
    pub lines: usize,
    /// The limits with which the exploration began.
    pub limits: Limits,
}

impl<W: Watch> View<'_, W> {
    /// Tells how far the exploration is: a next line runs from the nodes of a layer, and has led to the nodes `next` so
    /// far. `left` is left of the limits.
    pub(crate) fn tell<M>(&self, layer: &[Node<M>], next: &[Node<M>], left: Limits) {
        // behind the last line of a block no line runs
        if next.is_empty() {
            return;
        }
        let ran = match layer.first() {
            Some(node) => node.order.len(),
            None => 0,
        };
        self.watch.told(Progress {
            line: ran.saturating_add(1),
            lines: self.lines,
            states: next.len(),
            steps: self.limits.steps.saturating_sub(left.steps),
        });
    }
}

/// The number of lines of an order of some blocks.
pub(crate) fn lines_of<L>(blocks: &[Vec<Vec<L>>]) -> usize {
    let mut lines = 0usize;
    for block in blocks {
        lines = lines.saturating_add(lines_in(block));
    }
    lines
}

/// The number of lines of a block's tracks.
fn lines_in<L>(tracks: &[Vec<L>]) -> usize {
    let mut lines = 0usize;
    for track in tracks {
        lines = lines.saturating_add(track.len());
    }
    lines
}
