ghost use Rattle.std.specs.Prelude.{◌≡◌, ◌+◌, ◌-◌, ◌++◌, [], IfOk, OnOk};
ghost use Rattle.i3c_explore.specs.Queues.{nodes_left};
ghost use Rattle.i3c_explore.specs.Jobs.{AreNodesOf, AreTaken};

use crate::layer::{Found, Layer};
use crate::limits::Limits;
use crate::machine::Machine;
use crate::node::Node;
use crate::node_queue::NodeQueue;
use crate::stop::Stop;
use std::alloc::{AllocError, Global};

/// The layers that the jobs made, before they are merged.
#[derive(Drop)]
pub(crate) struct JobLayers<M> {
    /// The nodes of each job, in a queue.
    pub queues: Vec<NodeQueue<M>>,
    /// The number of nodes of all jobs.
    pub count: usize,
    /// Nodes whose memory can be used again.
    pub spares: Vec<Node<M>>,
    /// What is left of the limits.
    pub limits: Limits,
}

/// Subtracts the steps that a job took from the limits. The job began with the limits `begun`, and has `left` of them.
fn take_steps(limits: &mut Limits, begun: Limits, left: Limits) -> Result<(), Stop>
    ensures steps { OnOk result (limits.new.steps + (begun.steps - left.steps) ≡ limits.old.steps) }
    ensures states { OnOk result (limits.new.states ≡ limits.old.states) }
{
    let steps = begun.steps.saturating_sub(left.steps);
    match limits.steps.checked_sub(steps) {
        Some(left) => {
            limits.steps = left;
            Ok(())
        }
        None => Err(Stop::Most),
    }
}

impl<M: Machine> JobLayers<M> {
    /// Adds the layer of the next job. The job began with these limits.
    fn add(&mut self, layer: Layer<M>, limits: Limits) -> Result<(), Stop>
        ensures nodes { OnOk result (nodes_left self.new.queues.items ≡ nodes_left self.old.queues.items ++ layer.nodes.items) }
        ensures steps { OnOk result (self.new.limits.steps + (limits.steps - layer.limits.steps) ≡ self.old.limits.steps) }
        ensures states { OnOk result (self.new.limits.states ≡ self.old.limits.states) }
    {
        let Found {
            nodes,
            limits: left,
            mut spares,
            index,
            ranks,
            codes,
        } = layer.taken_apart();
        take_steps(&mut self.limits, limits, left)?;
        self.count = self.count.saturating_add(nodes.len());
        self.spares.append(&mut spares)?;
        match self.queues.push(NodeQueue::new(nodes, index, ranks, codes)) {
            Ok(()) => Ok(()),
            Err(_) => Err(Stop::Memory),
        }
    }
}

/// The number of spare nodes of some layers.
fn spare_count<M: Machine>(layers: &[Result<Layer<M>, Stop>]) -> usize {
    let mut spares = 0usize;
    for made in layers {
        if let Ok(layer) = made {
            spares = spares.saturating_add(layer.spares.len());
        }
    }
    spares
}

/// No layer yet, with memory reserved for the spare nodes of these layers.
fn room_for<M: Machine>(
    alloc: Global,
    layers: &[Result<Layer<M>, Stop>],
    limits: Limits,
) -> Result<JobLayers<M>, AllocError>
    ensures queues { IfOk result (λ all. all.queues.items ≡ []) }
    ensures limits { IfOk result (λ all. all.limits ≡ limits) }
{
    Ok(JobLayers {
        queues: Vec::with_capacity(alloc, layers.len())?,
        count: 0,
        spares: Vec::with_capacity(alloc, spare_count(layers))?,
        limits,
    })
}

/// The layers of all jobs. The steps that the jobs took are subtracted from the limits.
pub(crate) fn layers_of_jobs<M: Machine>(
    alloc: Global,
    layers: Vec<Result<Layer<M>, Stop>>,
    limits: Limits,
) -> Result<JobLayers<M>, Stop>
    ensures nodes { IfOk result (λ all. AreNodesOf layers.items (nodes_left all.queues.items)) }
    ensures taken { IfOk result (λ all. AreTaken limits all.limits layers.items) }
{
    let mut all = room_for(alloc, &layers, limits)?;
    for made in layers {
        let layer = match made {
            Ok(layer) => layer,
            Err(stop) => return Err(stop),
        };
        match all.add(layer, limits) {
            Ok(()) => {}
            Err(stop) => return Err(stop),
        }
    }
    Ok(all)
}
