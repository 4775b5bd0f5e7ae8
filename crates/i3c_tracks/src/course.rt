ghost use Rattle.std.specs.Prelude.{◌≡◌, ◌++◌, ◌∷◌, List, None, Some, IfOk, OnOk, MatchOption, drop, false, min, reverse, slice_get, slice_index_or, take};
ghost use Rattle.i3c_explore.specs.declared.turn.Turn.{Turn as TurnValue};
ghost use Rattle.i3c_explore.specs.Orders.{track, turns_of};
ghost use Rattle.i3c_tracks.specs.declared.course.Run.{Run as RunValue};
ghost use Rattle.i3c_tracks.specs.Courses.{ArePlaces, AreRuns, AreRunsOf, RunsOne, count_lines};

use i3c_explore::Turn;
use i3c_scene::Line;
use std::alloc::{AllocError, Global};

/// A line that runs in an order.
#[derive(Clone, Copy)]
pub struct Run<'a> {
    /// The line.
    pub line: &'a Line,
    /// The way that it goes.
    pub way: usize,
    /// Whether it is a line of a block that was opened.
    pub opened: bool,
}

/// The lines of an order of blocks, one after another, the oldest turn first. `opened` says which blocks a line opened.
pub fn runs_of<'a>(
    alloc: Global,
    blocks: &'a [Vec<Vec<Line>>],
    opened: &[bool],
    order: &[Turn],
) -> Result<Vec<Run<'a>>, AllocError>
    ensures { IfOk result (λ runs. AreRunsOf blocks.now opened.now order.now runs.items) }
{
    let mut runs = Vec::new(alloc);
    let mut rest = order;
    for index in 0..blocks.len() {
        let block = blocks[index].as_slice();
        let (turns, later) = turns_of(block, rest);
        let opened = is_opened(opened, index);
        add_block(alloc, block, opened, turns, &mut runs)?;
        rest = later;
    }
    Ok(runs)
}

/// The turns of an order that a block takes, one for each of its lines, and those that it leaves.
pub fn turns_of<'a>(block: &[Vec<Line>], order: &'a [Turn]) -> (&'a [Turn], &'a [Turn])
    ensures taken { result.0.now ≡ take (count_lines block.now) order.now }
    ensures left { result.1.now ≡ drop (count_lines block.now) order.now }
{
    order.split_at(length_of(block).min(order.len()))
}

/// Whether the block of this index was opened by a line.
fn is_opened(opened: &[bool], index: usize) -> bool
    ensures { result ≡ slice_index_or opened.now index false }
{
    match opened.get(index) {
        Some(is_opened) => *is_opened,
        None => false,
    }
}

/// How many lines the tracks of a block have.
fn length_of(block: &[Vec<Line>]) -> usize
    ensures { result ≡ min (count_lines block.now) usize.MAX }
{
    let mut length = 0usize;
    for track in block {
        length = length.saturating_add(track.len());
    }
    length
}

/// Appends the lines of a block that some turns run, the oldest first.
pub fn add_block<'a>(
    alloc: Global,
    block: &'a [Vec<Line>],
    opened: bool,
    turns: &[Turn],
    runs: &mut Vec<Run<'a>>,
) -> Result<(), AllocError>
    ensures { OnOk result ((own : List RunValue) × AreRuns block.now opened (reverse turns.now) own × (runs.new.items ≡ runs.old.items ++ own)) }
{
    let mut places = vec![in alloc; 0usize; block.len()]?;
    for turn in turns {
        add_turn(block, opened, *turn, &mut places, runs)?;
    }
    Ok(())
}

/// Appends the line of a block that a turn runs; `places` has the number of lines of each track that have run.
fn add_turn<'a>(
    block: &'a [Vec<Line>],
    opened: bool,
    turn: Turn,
    places: &mut Vec<usize>,
    runs: &mut Vec<Run<'a>>,
) -> Result<(), AllocError>
    ensures places { (before : List TurnValue) → ArePlaces block.now before places.old.items → ArePlaces block.now (turn ∷ before) places.new.items }
    ensures runs { (before : List TurnValue) → ArePlaces block.now before places.old.items → OnOk result (RunsOne block.now opened before turn runs.old.items runs.new.items) }
{
    match next_line(block, turn, places) {
        Some(line) => {
            runs.push(Run {
                line,
                way: turn.way,
                opened,
            })?;
            Ok(())
        }
        None => Ok(()),
    }
}

/// The line of a block that a turn runs; `places` has the number of lines of each track that have run, and counts this one.
fn next_line<'a>(block: &'a [Vec<Line>], turn: Turn, places: &mut Vec<usize>) -> Option<&'a Line>
    ensures places { (before : List TurnValue) → ArePlaces block.now before places.old.items → ArePlaces block.now (turn ∷ before) places.new.items }
    ensures line { (before : List TurnValue) → ArePlaces block.now before places.old.items
        → MatchOption result (slice_get (track block.now turn.track) (turns_of turn.track before) ≡ None) (λ line. slice_get (track block.now turn.track) (turns_of turn.track before) ≡ Some line.now) }
{
    let track = block.get(turn.track)?;
    let place = *places.get(turn.track)?;
    let line = track.get(place)?;
    places[turn.track] = place + 1;
    Some(line)
}
