ghost use Rattle.std.specs.Prelude.{◌≡◌, ◌<◌, ◌+◌, ◌^◌, ◌++◌, ◌∷◌, [], IfErr, IfOk, IfSome, IsTrue, OnOk, length, slice_index};
ghost use Rattle.i3c_explore.specs.declared.node.Node.{Node as NodeValue};
ghost use Rattle.i3c_explore.specs.Layers.{by_way, IsAlikeAt, IsMerged, IsPutBehind};
ghost use Rattle.i3c_explore.specs.Runs.{IsCharged};
ghost use Rattle.i3c_explore.specs.Stops.{IsFull};

use crate::codes::code_of;
use crate::index::Index;
use crate::limits::Limits;
use crate::machine::Machine;
use crate::node::{Node, counted, is_alike, moved_on, placed_in, sum};
use crate::stop::Stop;
use crate::turn::{Turn, extended_in};
use std::alloc::{AllocError, Global};
use std::mem;

/// The states after a number of lines, and what the exploration may still cost.
#[derive(Drop)]
pub(crate) struct Layer<M> {
    /// The states, each with the orders that lead there.
    pub nodes: Vec<Node<M>>,
    /// What is left of the limits.
    pub limits: Limits,
    /// Nodes whose room is free to be taken.
    pub spares: Vec<Node<M>>,
    // the room of the places of the node that is put
    room: Vec<usize>,
    index: Index,
    /// The rank of each node among those of all jobs.
    pub ranks: Vec<usize>,
    rank: usize,
    /// What one more line of each track adds to the number of places, or none where nobody asks for these numbers.
    pub weights: Vec<u64>,
    /// The numbers of the nodes' places, or none.
    pub codes: Vec<u64>,
    /// Whether each line of the block was noted so far, by tracks.
    pub noted: Vec<Vec<bool>>,
}

/// What a layer hands on to the next one.
#[derive(Drop)]
pub(crate) struct Handed<M> {
    /// Nodes whose room is free to be taken.
    pub spares: Vec<Node<M>>,
    /// The numbers of the layer's places, or none.
    pub codes: Vec<u64>,
    /// Whether each line of the block was noted so far, by tracks.
    pub noted: Vec<Vec<bool>>,
}

/// What a job found.
#[derive(Drop)]
pub(crate) struct Found<M> {
    /// The nodes, in the order in which they were found.
    pub nodes: Vec<Node<M>>,
    /// What is left of the limits.
    pub limits: Limits,
    /// Nodes whose room is free to be taken.
    pub spares: Vec<Node<M>>,
    /// The table by which the nodes are found.
    pub index: Index,
    /// The rank of each node among those of all jobs.
    pub ranks: Vec<usize>,
    /// The numbers of the nodes' places.
    pub codes: Vec<u64>,
}

/// The hash of places and of the state that a runner is in.
fn key_of<M: Machine>(places: &Vec<usize>, runner: &M::Runner) -> u64 {
    let mut key = M::hash(runner);
    for place in places {
        key = (key ^ *place as u64).wrapping_mul(0x9E37_79B9_7F4A_7C15);
    }
    key ^ (key >> 32)
}

/// Adds orders to those of a node.
pub(crate) fn merge<M: Machine>(nodes: &mut Vec<Node<M>>, index: usize, orders: Option<u64>)
    requires { index < length nodes.old.items }
    ensures { (made : NodeValue M) → IsAlikeAt nodes.old.items index made.places.items made.state → made.orders ≡ orders → IsMerged nodes.old.items made nodes.new.items }
{
    let held = &mut nodes[index];
    held.orders = sum(held.orders, orders);
}

/// The room of a node: of its state, its places and its order.
fn room_of<M: Machine>(
    alloc: Global,
    spare: Option<Node<M>>,
) -> (Option<M>, Vec<usize>, Vec<Turn>) {
    match spare {
        Some(
            Node {
                state,
                places,
                order,
                orders: _,
            },
        ) => (Some(state), places, order),
        None => (None, Vec::new(alloc), Vec::new(alloc)),
    }
}

/// The node that one more turn leads to, with the state that a runner is in. It takes the room of a spare node, if there
/// is one.
fn successor<M: Machine>(
    alloc: Global,
    node: &Node<M>,
    turn: Turn,
    places: &Vec<usize>,
    runner: &M::Runner,
    spare: Option<Node<M>>,
) -> Result<Node<M>, AllocError>
    ensures state { IfOk result (λ new. new.state ≡ M.shown runner.now) }
    ensures places { IfOk result (λ new. new.places.items ≡ places.now.items) }
    ensures order { IfOk result (λ new. new.order.items ≡ node.now.order.items ++ turn ∷ []) }
    ensures orders { IfOk result (λ new. new.orders ≡ by_way turn.way node.now.orders) }
{
    let (state, room, order) = room_of(alloc, spare);
    let state = M::kept(alloc, runner, state)?;
    let places = placed_in(room, places)?;
    let order = extended_in(order, &node.order, turn)?;
    let orders = counted(node.orders, turn.way);
    Ok(Node {
        state,
        places,
        order,
        orders,
    })
}

impl<M: Machine> Layer<M> {
    /// A layer without a state.
    pub(crate) fn new(alloc: Global, limits: Limits) -> Layer<M>
        ensures nodes { result.nodes.items ≡ [] }
        ensures limits { result.limits ≡ limits }
    {
        Layer {
            nodes: Vec::new(alloc),
            limits,
            spares: Vec::new(alloc),
            room: Vec::new(alloc),
            index: Index::new(alloc),
            ranks: Vec::new(alloc),
            rank: 0,
            weights: Vec::new(alloc),
            codes: Vec::new(alloc),
            noted: Vec::new(alloc),
        }
    }

    /// It makes room for this many nodes more.
    pub(crate) fn make_room(&mut self, alloc: Global, count: usize) -> Result<(), AllocError>
        ensures nodes { self.new.nodes.items ≡ self.old.nodes.items }
        ensures limits { self.new.limits ≡ self.old.limits }
    {
        self.index.make_room(alloc, count)?;
        self.nodes.reserve(count)?;
        Ok(())
    }

    /// New nodes have this rank among those of all jobs, from now on.
    pub(crate) fn turn_to(&mut self, rank: usize)
        ensures nodes { self.new.nodes ≡ self.old.nodes }
        ensures limits { self.new.limits ≡ self.old.limits }
        ensures noted { self.new.noted ≡ self.old.noted }
    {
        self.rank = rank;
    }

    /// The index of a node at these places, with the state that a runner is in.
    fn find(&self, key: u64, places: &Vec<usize>, runner: &M::Runner) -> Option<usize>
        ensures { IfSome result (λ index. IsAlikeAt self.now.nodes.items index places.now.items (M.shown runner.now)) }
    {
        for distance in 0..self.index.slots() {
            let Some((has_key, index)) = self.index.at(key, distance) else {
                return None;
            };
            if has_key && self.is_alike_at(index, places, runner) {
                return Some(index);
            }
        }
        None
    }

    /// Whether the node at an index is at these places, with the state that a runner is in.
    fn is_alike_at(&self, index: usize, places: &Vec<usize>, runner: &M::Runner) -> bool
        ensures { IsTrue result → IsAlikeAt self.now.nodes.items index places.now.items (M.shown runner.now) }
    {
        match self.nodes.get(index) {
            Some(held) => is_alike(held, places, runner),
            None => false,
        }
    }

    /// Notes the rank and the number of places of the next node, where they are asked for.
    fn note(&mut self, places: &Vec<usize>) -> Result<(), AllocError>
        ensures nodes { OnOk result (self.new.nodes ≡ self.old.nodes) }
        ensures limits { OnOk result (self.new.limits ≡ self.old.limits) }
        ensures noted { OnOk result (self.new.noted ≡ self.old.noted) }
    {
        if self.weights.is_empty() {
            return Ok(());
        }
        self.ranks.push(self.rank)?;
        self.codes.push(code_of(places, &self.weights))?;
        Ok(())
    }

    /// Adds a node behind the others.
    fn push(&mut self, alloc: Global, key: u64, node: Node<M>) -> Result<(), AllocError>
        ensures nodes { OnOk result (self.new.nodes.items ≡ self.old.nodes.items ++ node ∷ []) }
        ensures limits { OnOk result (self.new.limits ≡ self.old.limits) }
        ensures noted { OnOk result (self.new.noted ≡ self.old.noted) }
    {
        self.index.add(alloc, key)?;
        self.note(&node.places)?;
        self.nodes.push(node)?;
        Ok(())
    }

    /// Puts the state that a runner is in, to which one more turn of a node leads: as a node, or merged with a node that
    /// is alike.
    pub(crate) fn put(
        &mut self,
        alloc: Global,
        node: &Node<M>,
        turn: Turn,
        runner: &M::Runner,
    ) -> Result<(), Stop>
        requires within { turn.track < length node.now.places.items }
        requires fits { slice_index node.now.places.items turn.track + 1 < 2 ^ 64 }
        ensures put { OnOk result (IsPutBehind self.old.nodes.items node.now turn (M.shown runner.now) self.new.nodes.items) }
        ensures charged { OnOk result (IsCharged self.old self.new 0) }
        ensures noted { OnOk result (self.new.noted ≡ self.old.noted) }
        ensures full { IfErr result (IsFull self.old) }
    {
        let room = mem::replace(&mut self.room, Vec::new(alloc));
        let places = moved_on(room, &node.places, turn.track)?;
        let key = key_of::<M>(&places, runner);
        if let Some(index) = self.find(key, &places, runner) {
            merge(&mut self.nodes, index, counted(node.orders, turn.way));
            self.room = places;
            return Ok(());
        }
        if self.nodes.len() >= self.limits.states {
            return Err(Stop::Most);
        }
        let new = successor(alloc, node, turn, &places, runner, self.spares.pop())?;
        self.room = places;
        self.push(alloc, key, new)?;
        Ok(())
    }

    /// What it found.
    pub(crate) fn taken_apart(self) -> Found<M>
        ensures nodes { result.nodes ≡ self.nodes }
        ensures limits { result.limits ≡ self.limits }
    {
        let Layer {
            nodes,
            limits,
            spares,
            room: _,
            index,
            ranks,
            rank: _,
            weights: _,
            codes,
            noted: _,
        } = self;
        Found {
            nodes,
            limits,
            spares,
            index,
            ranks,
            codes,
        }
    }
}
