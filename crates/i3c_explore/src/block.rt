ghost use Rattle.std.specs.Prelude.{◌≡◌, ◌<◌, ◌≤◌, ◌⊎◌, ◌↔◌, ℕ, IfOk, IsTrue, OnOk, Some, length, slice_get};
ghost use Rattle.i3c_explore.specs.declared.node.Node.{Node as NodeValue};
ghost use Rattle.i3c_explore.specs.Explorations.{ExploresBlock, MakesNext};
ghost use Rattle.i3c_explore.specs.Layers.{AreRestarted, IsRestarted};
ghost use Rattle.i3c_explore.specs.Nexts.{ArePlaced};
ghost use Rattle.i3c_explore.specs.Notes.{BlockIsNoted, HasShape, IsNotedBehind, IsQuietBehind, IsUnmarked, Marks};
ghost use Rattle.i3c_explore.specs.Parts.{HasLine, opening as opening_of, whole};

use crate::layer::{Handed, Layer};
use crate::limits::Limits;
use crate::machine::Machine;
use crate::node::Node;
use crate::notes::unmarked;
use crate::part::Part;
use crate::stop::Stop;
use std::alloc::{AllocError, Global};
use std::mem;

/// Puts a node back to the first line of each of `count` tracks.
fn restart<M>(alloc: Global, node: &mut Node<M>, count: usize) -> Result<(), AllocError>
    ensures { OnOk result (IsRestarted count node.old node.new) }
{
    node.places = vec![in alloc; 0usize; count]?;
    Ok(())
}

/// Puts each node of a layer back to the first line of each of `count` tracks.
fn restart_all<M>(alloc: Global, nodes: &mut Vec<Node<M>>, count: usize) -> Result<(), AllocError>
    ensures restarted { OnOk result ((n : NodeValue M) (k : ℕ) → slice_get nodes.new.items k ≡ Some n → (old : NodeValue M) × (slice_get nodes.old.items k ≡ Some old) × IsRestarted count old n) }
    ensures length { OnOk result (length nodes.new.items ≡ length nodes.old.items) }
{
    for node in nodes.iter_mut() {
        restart(alloc, node, count)?;
    }
    Ok(())
}

/// Nodes of two lists. Those of the shorter one move; where there is no memory to keep them, they are let go.
fn together<M: Machine>(one: Vec<Node<M>>, other: Vec<Node<M>>) -> Vec<Node<M>> {
    let (mut more, mut fewer) = if one.len() < other.len() {
        (other, one)
    } else {
        (one, other)
    };
    let _ = more.append(&mut fewer);
    more
}

/// Whether a layer ends a block after `ran` lines: none follows it. A part that begins with no line has an empty layer
/// behind the first line.
fn is_over<M>(next: &Vec<Node<M>>, part: Part, ran: u64) -> bool
    ensures { IsTrue result ↔ ((length next.now.items ≡ 0) × ((0 < ran) ⊎ (part ≡ whole))) }
{
    next.is_empty() && (ran > 0 || part.is_whole())
}

/// A layer that begins a block of these tracks, from the nodes of a layer. No line is marked.
fn begun<M: Machine>(
    alloc: Global,
    starts: Layer<M>,
    tracks: &[Vec<M::Line>],
) -> Result<Layer<M>, AllocError>
    ensures restarted { IfOk result (λ layer. AreRestarted (length tracks.now) starts.nodes.items layer.nodes.items) }
    ensures length { IfOk result (λ layer. length layer.nodes.items ≡ length starts.nodes.items) }
    ensures limits { IfOk result (λ layer. layer.limits ≡ starts.limits) }
    ensures shape { IfOk result (λ layer. HasShape tracks.now layer.noted.items) }
    ensures unmarked { IfOk result (λ layer. IsUnmarked layer.noted.items) }
{
    let mut layer = starts;
    restart_all(alloc, &mut layer.nodes, tracks.len())?;
    layer.codes.clear();
    layer.noted = unmarked(alloc, tracks)?;
    Ok(layer)
}

/// What a layer hands on to the next one. It keeps its nodes.
fn handed_on<M: Machine>(alloc: Global, layer: &mut Layer<M>) -> Handed<M>
    ensures nodes { layer.new.nodes ≡ layer.old.nodes }
    ensures limits { layer.new.limits ≡ layer.old.limits }
    ensures noted { result.noted ≡ layer.old.noted }
{
    Handed {
        spares: mem::replace(&mut layer.spares, Vec::new(alloc)),
        codes: mem::replace(&mut layer.codes, Vec::new(alloc)),
        noted: mem::replace(&mut layer.noted, Vec::new(alloc)),
    }
}

/// A layer to which the nodes of the one before are left, since that is done.
fn behind<M: Machine>(alloc: Global, layer: Layer<M>, done: Layer<M>) -> Layer<M>
    ensures nodes { result.nodes ≡ layer.nodes }
    ensures limits { result.limits ≡ layer.limits }
    ensures noted { result.noted ≡ layer.noted }
{
    let mut layer = layer;
    let mut done = done;
    let spares = mem::replace(&mut layer.spares, Vec::new(alloc));
    let nodes = mem::replace(&mut done.nodes, Vec::new(alloc));
    layer.spares = together(spares, nodes);
    layer
}

/// Tries a part's orders of the tracks' lines from each state of a layer, each line in every way. Answers what they lead
/// to, with the lines that are noted.
pub(crate) fn explore_block<
    M: Machine,
    F: Fn(
        &[Node<M>],
        Limits,
        &[Vec<M::Line>],
        Part,
        &mut M::Runner,
        Handed<M>,
    ) -> Result<Layer<M>, Stop>,
>(
    alloc: Global,
    starts: Layer<M>,
    tracks: &[Vec<M::Line>],
    part: Part,
    runner: &mut M::Runner,
    next_layer: &F,
) -> Result<Layer<M>, Stop>
    requires accepts { (layer : _) (limits : _) (lines : _) (opening : _) (runner : _) (handed : _) → ArePlaced layer.now lines.now → F.pre next_layer.now layer limits lines opening runner handed }
    requires makes { (layer : _) (limits : _) (lines : _) (opening : _) (runner : _) (handed : _) (made : _) (after : _) → F.post next_layer.now layer limits lines opening runner handed made after
        → MakesNext M.steps M.last M.breaks lines.now opening layer.now limits made }
    requires marks { (layer : _) (limits : _) (lines : _) (opening : _) (runner : _) (handed : _) (made : _) (after : _) → F.post next_layer.now layer limits lines opening runner handed made after
        → IfOk made (λ next. Marks (IsNotedBehind M.notes (λ _. opening_of opening lines.now) layer.now (length layer.now)) (IsQuietBehind M.quiet (λ _. opening_of opening lines.now) layer.now (length layer.now)) handed.noted.items next.noted.items) }
    requires begins { (part ≡ whole) ⊎ HasLine tracks.now }
    requires narrow { length starts.nodes.items ≤ starts.limits.states }
    ensures explored { ExploresBlock M.steps M.last M.breaks part tracks.now starts result }
    ensures noted { IfOk result (λ layer. BlockIsNoted M.steps M.notes M.quiet part tracks.now starts.nodes.items layer.noted.items) }
{
    let mut layer = begun(alloc, starts, tracks)?;
    for ran in 0..u64::MAX {
        let opening = part.only_if(ran == 0);
        let handed = handed_on(alloc, &mut layer);
        let limits = layer.limits;
        let next = match next_layer(&layer.nodes, limits, tracks, opening, runner, handed) {
            Ok(next) => next,
            Err(stop) => return Err(stop),
        };
        if is_over(&next.nodes, part, ran) {
            layer.limits = next.limits;
            layer.spares = next.spares;
            layer.noted = next.noted;
            return Ok(layer);
        }
        layer = behind(alloc, next, layer);
    }
    // an order of so many turns has no room in memory
    Err(Stop::Memory)
}
