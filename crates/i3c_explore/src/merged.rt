ghost use Rattle.std.specs.Prelude.{◌≡◌, ◌≤◌, ◌++◌, ◌∷◌, List, Contains, IfOk, IfSome, OnOk, Some, [], length, slice_get};
ghost use Rattle.i3c_explore.specs.declared.node.Node.{Node as NodeValue};
ghost use Rattle.i3c_explore.specs.declared.twin_pair.TwinPair.{TwinPair as TwinValue};
ghost use Rattle.i3c_explore.specs.Queues.{nodes_left};
ghost use Rattle.i3c_explore.specs.Layers.{ArePut, IsAlikeAt, IsPut};
ghost use Rattle.i3c_explore.specs.Jobs.{AreJoined, AreTaken};
ghost use Rattle.i3c_explore.specs.Moves.{AreMoved};
ghost use Rattle.i3c_explore.specs.Runs.{IsCharged, IsWithin};
ghost use Rattle.i3c_explore.specs.Twins.{AllTwins};

use crate::gathered::{Gathered, gather};
use crate::job_layers::{JobLayers, layers_of_jobs};
use crate::layer::{Layer, merge};
use crate::limits::Limits;
use crate::machine::Machine;
use crate::node::Node;
use crate::node_queue::{OrderedNodes, in_order};
use crate::ordered::order;
use crate::stop::Stop;
use crate::twin_pair::{JobSpan, TwinPair, all_twins, twins_of};
use std::alloc::{AllocError, Global};
use std::thread::{Threads, map_indices};

/// Where the node before went that is like the next node, if one is. The nodes so far went to these places.
fn place_before(twins: &[TwinPair], next: usize, places: &[usize]) -> Option<usize>
    ensures { IfSome result (λ place. (twin : TwinValue) × Contains twins.now twin × (twin.later ≡ length places.now) × (slice_get places.now twin.before ≡ Some place)) }
{
    let twin = twins.get(next)?;
    if twin.later != places.len() {
        return None;
    }
    let place = places.get(twin.before)?;
    Some(*place)
}

/// Adds a node behind the others, with its rank.
fn push_behind<M: Machine>(
    layer: &mut Layer<M>,
    node: Node<M>,
    rank: usize,
) -> Result<(), AllocError>
    ensures nodes { OnOk result (layer.new.nodes.items ≡ layer.old.nodes.items ++ node ∷ []) }
    ensures limits { OnOk result (layer.new.limits ≡ layer.old.limits) }
{
    layer.ranks.push(rank)?;
    layer.nodes.push(node)?;
    Ok(())
}

/// Notes where the next node went.
fn note(places: &mut Vec<usize>, place: usize) -> Result<(), AllocError>
    ensures { OnOk result (places.new.items ≡ places.old.items ++ place ∷ []) }
{
    places.push(place)?;
    Ok(())
}

/// The rank of a node that a job found.
fn rank_of(ranks: &[usize], node: usize) -> usize {
    match ranks.get(node) {
        Some(rank) => *rank,
        None => node,
    }
}

/// Puts a node that a job found: behind the others, or merged with the one at a place, which is alike. Answers where it
/// is.
fn put_at<M: Machine>(
    layer: &mut Layer<M>,
    node: Node<M>,
    rank: usize,
    place: Option<usize>,
) -> Result<usize, Stop>
    requires { IfSome place (λ place. IsAlikeAt layer.old.nodes.items place node.places.items node.state) }
    ensures put { OnOk result (IsPut layer.old.nodes.items node layer.new.nodes.items) }
    ensures charged { OnOk result (IsCharged layer.old layer.new 0) }
    ensures at { IfOk result (λ place. IsAlikeAt layer.new.nodes.items place node.places.items node.state) }
{
    if let Some(place) = place {
        merge(&mut layer.nodes, place, node.orders);
        let _ = layer.spares.push(node);
        return Ok(place);
    }
    let place = layer.nodes.len();
    if place >= layer.limits.states {
        return Err(Stop::Most);
    }
    push_behind(layer, node, rank)?;
    Ok(place)
}

/// The nodes that all jobs found, as one layer in their order: twins are one node. Nothing is found in its table.
fn merged<M: Machine>(
    alloc: Global,
    nodes: Vec<Node<M>>,
    ranks: &[usize],
    twins: &[TwinPair],
    spares: Vec<Node<M>>,
    limits: Limits,
) -> Result<Layer<M>, Stop>
    requires { AllTwins nodes.items twins.now }
    ensures put { IfOk result (λ layer. ArePut [] nodes.items layer.nodes.items) }
    ensures within { IfOk result (λ layer. IsWithin limits layer 0) }
{
    let mut layer = Layer::new(alloc, limits);
    layer.spares = spares;
    let mut places = Vec::new(alloc);
    let mut next = 0usize;
    for node in nodes {
        let before = place_before(twins, next, &places);
        if before.is_some() {
            next = next.saturating_add(1);
        }
        let rank = rank_of(ranks, places.len());
        let place = match put_at(&mut layer, node, rank, before) {
            Ok(place) => place,
            Err(stop) => return Err(stop),
        };
        note(&mut places, place)?;
    }
    Ok(layer)
}

/// The layers of all jobs as one, in the order in which one thread finds the nodes. Where jobs' layers overlap, they can
/// have found the same node, which then is one.
pub(crate) fn joined_by_jobs<R: Threads + Sync, M: Machine + Send + Sync>(
    rt: &R,
    alloc: Global,
    layers: Vec<Result<Layer<M>, Stop>>,
    overlap: bool,
    limits: Limits,
) -> Result<Layer<M>, Stop>
where
    M::Line: Sync,
    M::Runner: Send,
    ensures joined { IfOk result (λ both. (joined : List (NodeValue M)) × AreJoined [] layers.items joined × AreMoved joined both.nodes.items) }
    ensures taken { IfOk result (λ both. AreTaken limits both.limits layers.items) }
    ensures narrow { IfOk result (λ both. length both.nodes.items ≤ limits.states) }
{
    let all = match layers_of_jobs(alloc, layers, limits) {
        Ok(all) => all,
        Err(stop) => return Err(stop),
    };
    if overlap {
        overlapping(rt, alloc, all)
    } else {
        joined(alloc, all)
    }
}

/// What all jobs found, as one layer, where no lines of two jobs lead to the same places.
fn joined<M: Machine>(alloc: Global, all: JobLayers<M>) -> Result<Layer<M>, Stop>
    ensures put { IfOk result (λ both. (put : List (NodeValue M)) × ArePut [] (nodes_left all.queues.items) put × AreMoved put both.nodes.items) }
    ensures within { IfOk result (λ both. IsWithin all.limits both 0) }
{
    let JobLayers {
        queues,
        count,
        spares,
        limits,
    } = all;
    if count > limits.states {
        return Err(Stop::Most);
    }
    let OrderedNodes { nodes, codes } = in_order(alloc, queues, count)?;
    // none is left uncounted
    if nodes.len() > limits.states {
        return Err(Stop::Most);
    }
    let mut layer = Layer::new(alloc, limits);
    layer.nodes = nodes;
    layer.codes = codes;
    layer.spares = spares;
    Ok(layer)
}

/// What all jobs found, as one layer, where some of their nodes can be like one another.
fn overlapping<R: Threads + Sync, M: Machine + Send + Sync>(
    rt: &R,
    alloc: Global,
    all: JobLayers<M>,
) -> Result<Layer<M>, Stop>
where
    M::Line: Sync,
    M::Runner: Send,
    ensures put { IfOk result (λ both. (put : List (NodeValue M)) × ArePut [] (nodes_left all.queues.items) put × AreMoved put both.nodes.items) }
    ensures within { IfOk result (λ both. IsWithin all.limits both 0) }
{
    let gathered = gather(alloc, all)?;
    let mut layer = match without_twins(rt, alloc, gathered) {
        Ok(layer) => layer,
        Err(stop) => return Err(stop),
    };
    order(alloc, &mut layer.nodes, &layer.ranks)?;
    Ok(layer)
}

/// The nodes that all jobs found, as one layer: each once. Which nodes are twins is found by a thread for each job.
fn without_twins<R: Threads + Sync, M: Machine + Send + Sync>(
    rt: &R,
    alloc: Global,
    all: Gathered<M>,
) -> Result<Layer<M>, Stop>
where
    M::Line: Sync,
    M::Runner: Send,
    ensures put { IfOk result (λ layer. ArePut [] all.nodes.items layer.nodes.items) }
    ensures within { IfOk result (λ layer. IsWithin all.limits layer 0) }
{
    let Gathered {
        nodes,
        spans,
        ranks,
        spares,
        limits,
    } = all;
    let twins = found_by_jobs(rt, alloc, &nodes, &spans)?;
    match merged(alloc, nodes, &ranks, &twins, spares, limits) {
        Ok(layer) => Ok(layer),
        Err(stop) => Err(stop),
    }
}

/// The node at which a job begins to look for twins, among `jobs` jobs. They look from the second span on, since nothing
/// was found before the first one.
fn search_from(spans: &[JobSpan], nodes: usize, job: usize) -> usize {
    let jobs = spans.len();
    match spans.get(1) {
        Some(second) if job < jobs => {
            let each = nodes.saturating_sub(second.first) / jobs;
            second.first.saturating_add(each.saturating_mul(job))
        }
        _ => nodes,
    }
}

/// The twins of some spans of nodes, by as many jobs.
fn found_by_jobs<R: Threads + Sync, M: Machine + Send + Sync>(
    rt: &R,
    alloc: Global,
    nodes: &[Node<M>],
    spans: &[JobSpan],
) -> Result<Vec<TwinPair>, AllocError>
where
    M::Line: Sync,
    M::Runner: Send,
    ensures { IfOk result (λ twins. AllTwins nodes.now twins.items) }
{
    let search = |job: usize| -> Result<Vec<TwinPair>, AllocError>
        ensures { IfOk result (λ twins. AllTwins nodes.entry.now twins.items) }
    {
        let from = search_from(spans, nodes.len(), job);
        let to = search_from(spans, nodes.len(), job.saturating_add(1));
        twins_of(alloc, nodes, spans, from, to)
    };
    let found = map_indices(rt, alloc, spans.len(), &search)?;
    match all_twins(alloc, found) {
        Ok(twins) => Ok(twins),
        Err(why) => Err(why),
    }
}
