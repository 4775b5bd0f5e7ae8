ghost use Rattle.std.specs.Prelude.{◌≡◌, ◌++◌, IfOk, OnOk};
ghost use Rattle.i3c_explore.specs.Queues.{nodes_left};

use crate::job_layers::JobLayers;
use crate::limits::Limits;
use crate::machine::Machine;
use crate::node::Node;
use crate::node_queue::NodeQueue;
use crate::twin_pair::JobSpan;
use std::alloc::{AllocError, Global};

/// What all jobs found.
#[derive(Drop)]
pub(crate) struct Gathered<M> {
    /// The nodes of all jobs, one job's behind the other's. Jobs can have found the same one.
    pub nodes: Vec<Node<M>>,
    /// Each job's span of them.
    pub spans: Vec<JobSpan>,
    /// The rank of each node: its place in the order in which one thread finds them.
    pub ranks: Vec<usize>,
    /// Nodes whose room is free to be taken.
    pub spares: Vec<Node<M>>,
    /// What is left of the limits.
    pub limits: Limits,
}

impl<M: Machine> Gathered<M> {
    /// Adds the nodes of a job, none of which was taken yet.
    fn add(&mut self, queue: NodeQueue<M>) -> Result<(), AllocError>
        ensures nodes { OnOk result (self.new.nodes.items ≡ self.old.nodes.items ++ queue.nodes.items) }
        ensures limits { OnOk result (self.new.limits ≡ self.old.limits) }
    {
        let NodeQueue {
            nodes,
            index,
            mut ranks,
            ..
        } = queue;
        let first = self.nodes.len();
        let mut nodes = Vec::from(nodes);
        self.nodes.append(&mut nodes)?;
        self.ranks.append(&mut ranks)?;
        self.spans.push(JobSpan { first, index })?;
        Ok(())
    }
}

/// The nodes of all jobs, one job's behind the other's.
pub(crate) fn gather<M: Machine>(
    alloc: Global,
    all: JobLayers<M>,
) -> Result<Gathered<M>, AllocError>
    ensures nodes { IfOk result (λ gathered. gathered.nodes.items ≡ nodes_left all.queues.items) }
    ensures limits { IfOk result (λ gathered. gathered.limits ≡ all.limits) }
{
    let JobLayers {
        queues,
        count,
        spares,
        limits,
    } = all;
    let mut gathered = Gathered {
        nodes: Vec::with_capacity(alloc, count)?,
        spans: Vec::with_capacity(alloc, queues.len())?,
        ranks: Vec::with_capacity(alloc, count)?,
        spares,
        limits,
    };
    for queue in queues {
        gathered.add(queue)?;
    }
    Ok(gathered)
}
