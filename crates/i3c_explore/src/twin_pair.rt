ghost use Rattle.std.specs.Prelude.{IfOk, IfSome, IsTrue};
ghost use Rattle.i3c_explore.specs.Twins.{AllTwins, AreFound, AreTwins};

use crate::index::Index;
use crate::machine::Machine;
use crate::node::{Node, is_like};
use std::alloc::{AllocError, Global};

/// A pair of nodes of two jobs, which are at the same places, in the same state. Each is an index among the nodes of all
/// jobs.
#[derive(Clone, Copy)]
pub(crate) struct TwinPair {
    /// The node of the earlier job.
    pub before: usize,
    /// The node of the later job.
    pub later: usize,
}

/// The nodes of one job, among those of all jobs.
#[derive(Drop)]
pub(crate) struct JobSpan {
    /// The index of its first node.
    pub first: usize,
    /// The hash table by which its nodes are found.
    pub index: Index,
}

/// Whether the nodes at two indices are equal.
fn are_alike<M: Machine>(nodes: &[Node<M>], before: usize, later: usize) -> bool
    ensures { IsTrue result → AreTwins nodes.now before later }
{
    let Some(one) = nodes.get(before) else {
        return false;
    };
    match nodes.get(later) {
        Some(other) => is_like(one, other),
        None => false,
    }
}

/// The index of a node in a span that equals a later node. The later node has this key.
fn twin_in<M: Machine>(nodes: &[Node<M>], span: &JobSpan, key: u64, later: usize) -> Option<usize>
    ensures { IfSome result (λ before. AreTwins nodes.now before later) }
{
    for distance in 0..span.index.slots() {
        let Some((has_key, index)) = span.index.at(key, distance) else {
            return None;
        };
        let before = span.first.saturating_add(index);
        if has_key && are_alike(nodes, before, later) {
            return Some(before);
        }
    }
    None
}

/// The index of a node that equals a later node, in the first span that has one. The later node has this key.
fn twin_of<M: Machine>(
    nodes: &[Node<M>],
    spans: &[JobSpan],
    key: u64,
    later: usize,
) -> Option<usize>
    ensures { IfSome result (λ before. AreTwins nodes.now before later) }
{
    for span in spans {
        if let Some(before) = twin_in(nodes, span, key, later) {
            return Some(before);
        }
    }
    None
}

/// The number of the span that a node is in.
fn span_of(spans: &[JobSpan], node: usize) -> usize {
    let mut begun = 0usize;
    for span in spans {
        if span.first <= node {
            begun = begun.saturating_add(1);
        }
    }
    begun.saturating_sub(1)
}

/// The index of an equal node that an earlier job found, of the first such job.
fn twin_before<M: Machine>(nodes: &[Node<M>], spans: &[JobSpan], later: usize) -> Option<usize>
    ensures { IfSome result (λ before. AreTwins nodes.now before later) }
{
    let number = span_of(spans, later).min(spans.len());
    let (earlier, rest) = spans.split_at(number);
    let span = rest.first()?;
    let key = span.index.key(later.saturating_sub(span.first));
    twin_of(nodes, earlier, key, later)
}

/// The pairs of the nodes `from..to`. Each node that an earlier job found too is in one, with that job's node.
pub(crate) fn twins_of<M: Machine>(
    alloc: Global,
    nodes: &[Node<M>],
    spans: &[JobSpan],
    from: usize,
    to: usize,
) -> Result<Vec<TwinPair>, AllocError>
    ensures { IfOk result (λ twins. AllTwins nodes.now twins.items) }
{
    let mut twins = Vec::new(alloc);
    for later in from..to {
        if let Some(before) = twin_before(nodes, spans, later) {
            twins.push(TwinPair { before, later })?;
        }
    }
    Ok(twins)
}

/// The pairs that all jobs found, in the order of the jobs.
pub(crate) fn all_twins(
    alloc: Global,
    found: Vec<Result<Vec<TwinPair>, AllocError>>,
) -> Result<Vec<TwinPair>, AllocError>
    ensures { IfOk result (λ all. AreFound found.items all.items) }
{
    let mut all = Vec::new(alloc);
    for made in found {
        let mut twins = match made {
            Ok(twins) => twins,
            Err(why) => return Err(why),
        };
        all.append(&mut twins)?;
    }
    Ok(all)
}
