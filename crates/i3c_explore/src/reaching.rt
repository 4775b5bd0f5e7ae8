ghost use Rattle.std.specs.Prelude.{◌≡◌, ◌∷◌, ◌↔◌, [], IfOk, IsTrue, length};
ghost use Rattle.i3c_explore.specs.Explorations.{MakesNext};
ghost use Rattle.i3c_explore.specs.Nexts.{ArePlaced};
ghost use Rattle.i3c_explore.specs.Parts.{whole};
ghost use Rattle.i3c_explore.specs.Reached.{Reaches};

use crate::expand::expand_all;
use crate::layer::Layer;
use crate::limits::Limits;
use crate::machine::Machine;
use crate::node::Node;
use crate::part::Part;
use crate::stop::Stop;
use crate::watch::{Unwatched, View};
use std::alloc::{AllocError, Global};

/// A layer that has this node alone.
fn layer_of<M: Machine>(
    alloc: Global,
    node: Node<M>,
    limits: Limits,
) -> Result<Layer<M>, AllocError>
    ensures nodes { IfOk result (λ layer. layer.nodes.items ≡ node ∷ []) }
    ensures limits { IfOk result (λ layer. layer.limits ≡ limits) }
{
    let mut layer = Layer::new(alloc, limits);
    layer.nodes.push(node)?;
    Ok(layer)
}

/// The layer behind another one.
fn next_of<M: Machine>(
    alloc: Global,
    layer: &Layer<M>,
    tracks: &[Vec<M::Line>],
    runner: &mut M::Runner,
) -> Result<Layer<M>, Stop>
    requires { ArePlaced layer.now.nodes.items tracks.now }
    ensures { MakesNext M.steps M.last M.breaks tracks.now whole layer.now.nodes.items layer.now.limits result }
{
    let view = View {
        watch: &Unwatched,
        lines: 0,
        limits: layer.limits,
    };
    expand_all(
        alloc,
        &layer.nodes,
        layer.limits,
        tracks,
        Part::whole(),
        runner,
        Vec::new(alloc),
        Vec::new(alloc),
        &view,
    )
}

/// Whether a layer has no node.
fn is_empty<M>(layer: &Layer<M>) -> bool
    ensures { IsTrue result ↔ (length layer.now.nodes.items ≡ 0) }
{
    layer.nodes.is_empty()
}

/// Runs the lines that are left in some tracks at a node's places, from its state, in every order and as many of them as
/// there are, each in every way, on a runner that may be in any state. Answers the nodes to which these orders and their
/// beginnings lead: the node itself is one.
///
/// # Errors
///
/// `Breaks` has an order that breaks an expectation, behind that of the node. `Most` comes where a limit is exceeded.
pub fn reach<M: Machine>(
    alloc: Global,
    start: Node<M>,
    tracks: &[Vec<M::Line>],
    limits: Limits,
    runner: &mut M::Runner,
) -> Result<Vec<Node<M>>, Stop>
    requires { length start.places.items ≡ length tracks.now }
    ensures { Reaches M.steps M.last M.breaks tracks.now start limits result }
{
    let mut layer = layer_of(alloc, start, limits)?;
    let mut found = Vec::new(alloc);
    for _ in 0..u64::MAX {
        let next = match next_of(alloc, &layer, tracks, runner) {
            Ok(next) => next,
            Err(stop) => return Err(stop),
        };
        found.append(&mut layer.nodes)?;
        if is_empty(&next) {
            return Ok(found);
        }
        layer = next;
    }
    // an order of so many turns has no room in memory
    Err(Stop::Memory)
}
