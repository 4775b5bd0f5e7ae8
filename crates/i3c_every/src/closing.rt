ghost use Rattle.std.specs.Prelude.{◌≡◌, ◌++◌, ◌↔◌, [], Contains, IfErr, IfOk, IsTrue, MatchOption, false, slice_get, slice_index, true};
ghost use Rattle.i3c_explore.specs.declared.node.Node.{Node as NodeValue};
ghost use Rattle.i3c_every.specs.Closing.{AllLeadOn, AreDone, ClosesAll, IsBehind, StopsClosing, StopsThere};

use crate::answering::Answering;
use crate::met::Met;
use crate::tracks::{Tracks, copied, reached_from};
use i3c_explore::{Limits, Node, Stop, Turn, explore};
use std::alloc::{AllocError, Global};

/// Runs the lines that are left in the tracks where a program's run is over, in every order, and behind them these blocks.
///
/// # Errors
///
/// `Breaks` has an order that breaks an expectation at its last line: of lines that are left in the tracks; or of all of these,
/// and then of the blocks. `Most` comes where a limit is exceeded, in the tracks or behind one order of them.
pub fn close<M: Answering>(
    alloc: Global,
    tracks: &Tracks<M>,
    rest: &[Vec<Vec<M::Line>>],
    met: &Met<M>,
    runner: &mut M::Runner,
) -> Result<(), Stop>
    ensures closed { IfOk result (λ _. ClosesAll M.steps tracks.now.lines.items rest.now met.now) }
    ensures stopped { IfErr result (StopsClosing M.steps M.last M.breaks tracks.now.lines.items rest.now tracks.now.limits met.now) }
{
    let nodes = match reached_from(alloc, &tracks.lines, tracks.limits, met, runner) {
        Ok(nodes) => nodes,
        Err(stop) => return Err(stop),
    };
    close_all(alloc, &tracks.lines, tracks.limits, rest, &nodes, runner)
}

/// Runs these blocks from each node at which no line is left in the tracks.
fn close_all<M: Answering>(
    alloc: Global,
    tracks: &[Vec<M::Line>],
    limits: Limits,
    rest: &[Vec<Vec<M::Line>>],
    nodes: &[Node<M>],
    runner: &mut M::Runner,
) -> Result<(), Stop>
    ensures closed { IfOk result (λ _. (node : NodeValue M) → Contains nodes.now node → AreDone tracks.now node.places.items → AllLeadOn M.steps rest.now node.state) }
    ensures stopped { IfErr result (λ stop. (node : NodeValue M) × Contains nodes.now node × StopsThere M.steps M.last M.breaks tracks.now rest.now limits node stop) }
{
    for index in 0..nodes.len() {
        match close_at(alloc, tracks, limits, rest, &nodes[index], runner) {
            Ok(()) => {}
            Err(stop) => return Err(stop),
        }
    }
    Ok(())
}

/// Runs these blocks from a node, if no line is left in the tracks there.
fn close_at<M: Answering>(
    alloc: Global,
    tracks: &[Vec<M::Line>],
    limits: Limits,
    rest: &[Vec<Vec<M::Line>>],
    node: &Node<M>,
    runner: &mut M::Runner,
) -> Result<(), Stop>
    ensures closed { IfOk result (λ _. AreDone tracks.now node.now.places.items → AllLeadOn M.steps rest.now node.now.state) }
    ensures stopped { IfErr result (StopsThere M.steps M.last M.breaks tracks.now rest.now limits node.now) }
{
    if has_none(rest) {
        return Ok(());
    }
    if !are_done(tracks, &node.places) {
        return Ok(());
    }
    let start = copied(alloc, &node.state, runner)?;
    match explore(alloc, start, rest, limits) {
        Ok(_) => Ok(()),
        Err(stop) => Err(behind(node, stop)),
    }
}

/// Whether there is no block.
fn has_none<B>(blocks: &[B]) -> bool
    ensures { IsTrue result ↔ (blocks.now ≡ []) }
{
    blocks.is_empty()
}

/// Why an exploration from a node stopped, told from where the node's own order begins.
fn behind<M>(node: &Node<M>, stop: Stop) -> Stop
    ensures { IsBehind node.now.order.items stop result }
{
    match stop {
        Stop::Breaks(order) => match put_behind(&node.order, &order) {
            Ok(whole) => Stop::Breaks(whole),
            Err(_) => Stop::Memory,
        },
        Stop::Most => Stop::Most,
        Stop::Memory => Stop::Memory,
    }
}

/// Some turns, and then others.
fn put_behind(first: &Vec<Turn>, later: &Vec<Turn>) -> Result<Vec<Turn>, AllocError>
    ensures { IfOk result (λ all. all.items ≡ first.now.items ++ later.now.items) }
{
    let mut all = first.clone()?;
    all.extend_from_slice(later.as_slice())?;
    Ok(all)
}

/// Whether no line is left in the tracks at these places.
fn are_done<L>(tracks: &[Vec<L>], places: &[usize]) -> bool
    ensures all { result ≡ true → AreDone tracks.now places.now }
    ensures some { result ≡ false → AreDone tracks.now places.now → ⊥ }
{
    for t in 0..tracks.len() {
        if has_next(&tracks[t], places, t) {
            return false;
        }
    }
    true
}

/// Whether a line is left in the track of this number.
fn has_next<L>(lines: &[L], places: &[usize], t: usize) -> bool
    ensures { MatchOption (slice_get lines.now (slice_index places.now t)) (result ≡ false) (λ line. result ≡ true) }
{
    let place = match places.get(t) {
        Some(place) => *place,
        None => 0,
    };
    lines.get(place).is_some()
}
