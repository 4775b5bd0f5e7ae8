ghost use Rattle.std.specs.Prelude.{◌≡◌, ◌++◌, ◌∷◌, [], ℕ, IfOk, List, OnOk, Some, length};
ghost use Rattle.i3c_explore.specs.Blocks.{block};
ghost use Rattle.i3c_explore.specs.Counts.{IsShared};
ghost use Rattle.i3c_explore.specs.Explorations.{Explores, MakesNext};
ghost use Rattle.i3c_explore.specs.Layers.{IsAlone};
ghost use Rattle.i3c_explore.specs.Nexts.{ArePlaced};
ghost use Rattle.i3c_explore.specs.Notes.{HasShape, IsNotedBehind, IsQuietBehind, IsUnmarked, Marks};
ghost use Rattle.i3c_explore.specs.Numbers.{IsNumber};
ghost use Rattle.i3c_explore.specs.Parts.{opening as opening_of, whole};
ghost use Rattle.i3c_explore.specs.Shares.{all_below};

use crate::block::explore_block;
use crate::expand::expand_all;
use crate::fork::fork;
use crate::jobs::next_by_jobs;
use crate::layer::{Handed, Layer};
use crate::limits::Limits;
use crate::machine::Machine;
use crate::node::{Node, sum};
use crate::notes::all_unmarked;
use crate::part::Part;
use crate::stop::Stop;
use crate::watch::{Unwatched, View, Watch, lines_of};
use std::alloc::{AllocError, Global};
use std::mem;
use std::thread::Threads;

/// What all orders lead to.
#[derive(Drop)]
pub struct Explored<M> {
    /// The states that orders lead to, each with the first of them and their number.
    pub ends: Vec<Node<M>>,
    /// The number of interleavings that were tried, or none if it is over 18446744073709551615.
    pub orders: Option<u64>,
    /// The number of lines that were run.
    pub steps: u64,
    /// Whether each line was noted in some order: by blocks, tracks and lines.
    pub noted: Vec<Vec<Vec<bool>>>,
}

/// The number of orders that lead to some nodes.
fn total<M>(nodes: &[Node<M>]) -> Option<u64>
    ensures { (share : ℕ → List (List (List ℕ))) → IsShared nodes.now share → IsNumber result (length (all_below share (length nodes.now))) }
{
    let mut orders = Some(0);
    for node in nodes {
        orders = sum(orders, node.orders);
    }
    orders
}

/// The layer that has the start alone.
fn first_layer<M: Machine>(alloc: Global, start: M, limits: Limits) -> Result<Layer<M>, AllocError>
    ensures alone { IfOk result (λ layer. IsAlone start layer.nodes.items) }
    ensures limits { IfOk result (λ layer. layer.limits ≡ limits) }
{
    let mut layer = Layer::new(alloc, limits);
    layer.nodes.push(Node {
        state: start,
        places: Vec::new(alloc),
        order: Vec::new(alloc),
        orders: Some(1),
    })?;
    Ok(layer)
}

/// Adds the marks of a block behind those of the blocks before it.
fn push_marks(noted: &mut Vec<Vec<Vec<bool>>>, marks: Vec<Vec<bool>>) -> Result<(), AllocError>
    ensures { OnOk result (noted.new.items ≡ noted.old.items ++ marks ∷ []) }
{
    noted.push(marks)?;
    Ok(())
}

/// What no order leads to.
fn nothing<M, L>(alloc: Global, blocks: &[Vec<Vec<L>>]) -> Result<Explored<M>, AllocError>
    ensures ends { IfOk result (λ found. found.ends.items ≡ []) }
    ensures orders { IfOk result (λ found. found.orders ≡ Some 0) }
    ensures steps { IfOk result (λ found. found.steps ≡ 0) }
    ensures sized { IfOk result (λ found. length found.noted.items ≡ length blocks.now) }
    ensures shape { IfOk result (λ found. (b : ℕ) → HasShape (block blocks.now b) (block found.noted.items b)) }
    ensures unmarked { IfOk result (λ found. (b : ℕ) → IsUnmarked (block found.noted.items b)) }
{
    let noted = all_unmarked(alloc, blocks)?;
    Ok(Explored {
        ends: Vec::new(alloc),
        orders: Some(0),
        steps: 0,
        noted,
    })
}

/// Tries every order of the lines of some blocks, which run one after another from a start, each line in every way.
/// Answers what all of them lead to.
///
/// # Errors
///
/// `Breaks` has an order that breaks an expectation, of the shortest ones. `Most` comes where a limit is exceeded. After
/// `Memory` and `Most` nothing is known of orders.
pub fn explore<M: Machine>(
    alloc: Global,
    start: M,
    blocks: &[Vec<Vec<M::Line>>],
    limits: Limits,
) -> Result<Explored<M>, Stop>
    // of the whole, which has every order (`parts_share_all`)
    ensures { Explores M.steps M.last M.breaks M.notes M.quiet whole blocks.now start limits result }
{
    explore_part(alloc, start, blocks, limits, Part::whole())
}

/// Tries every order of a part, as [`explore`] tries all of them.
///
/// # Errors
///
/// As those of [`explore`], of the orders of the part.
pub fn explore_part<M: Machine>(
    alloc: Global,
    start: M,
    blocks: &[Vec<Vec<M::Line>>],
    limits: Limits,
    part: Part,
) -> Result<Explored<M>, Stop>
    ensures { Explores M.steps M.last M.breaks M.notes M.quiet part blocks.now start limits result }
{
    let view = View {
        watch: &Unwatched,
        lines: 0,
        limits,
    };
    let next_layer = |layer: &[Node<M>], limits: Limits, tracks: &[Vec<
        M::Line,
    >], opening: Part, runner: &mut M::Runner, handed: Handed<M>| -> Result<Layer<M>, Stop>
        requires { ArePlaced layer.now tracks.now }
        ensures made { MakesNext M.steps M.last M.breaks tracks.now opening layer.now limits result }
        ensures noted { IfOk result (λ next. Marks (IsNotedBehind M.notes (λ _. opening_of opening tracks.now) layer.now (length layer.now)) (IsQuietBehind M.quiet (λ _. opening_of opening tracks.now) layer.now (length layer.now)) handed.noted.items next.noted.items) }
    {
        let Handed {
            spares,
            codes: _,
            noted,
        } = handed;
        expand_all(
            alloc, layer, limits, tracks, opening, runner, spares, noted, &view,
        )
    };
    explore_by(alloc, start, blocks, limits, part, &next_layer)
}

/// Tries every order of a part by `jobs` jobs. The answer is that of [`explore_part`], with
/// the same nodes, orders and numbers. A watcher is told how far it is, and when it is over.
///
/// # Errors
///
/// As those of [`explore_part`].
pub fn explore_on<R: Threads + Sync, M: Machine + Send + Sync, W: Watch>(
    rt: &R,
    alloc: Global,
    start: M,
    blocks: &[Vec<Vec<M::Line>>],
    limits: Limits,
    part: Part,
    jobs: usize,
    watch: &W,
) -> Result<Explored<M>, Stop>
where
    M::Line: Sync,
    M::Runner: Send,
    ensures { Explores M.steps M.last M.breaks M.notes M.quiet part blocks.now start limits result }
{
    let view = View {
        watch,
        lines: lines_of(blocks),
        limits,
    };
    let next_layer = |layer: &[Node<M>], limits: Limits, tracks: &[Vec<
        M::Line,
    >], opening: Part, runner: &mut M::Runner, handed: Handed<M>| -> Result<Layer<M>, Stop>
        requires { ArePlaced layer.now tracks.now }
        ensures made { MakesNext M.steps M.last M.breaks tracks.now opening layer.now limits result }
        ensures noted { IfOk result (λ next. Marks (IsNotedBehind M.notes (λ _. opening_of opening tracks.now) layer.now (length layer.now)) (IsQuietBehind M.quiet (λ _. opening_of opening tracks.now) layer.now (length layer.now)) handed.noted.items next.noted.items) }
    {
        next_by_jobs(
            rt, alloc, jobs, layer, limits, tracks, opening, runner, handed, &view,
        )
    };
    let outcome = explore_by(alloc, start, blocks, limits, part, &next_layer);
    watch.ended();
    outcome
}

/// Tries every order of a part. Each layer is made of the one before by a function.
fn explore_by<
    M: Machine,
    F: Fn(
        &[Node<M>],
        Limits,
        &[Vec<M::Line>],
        Part,
        &mut M::Runner,
        Handed<M>,
    ) -> Result<Layer<M>, Stop>,
>(
    alloc: Global,
    start: M,
    blocks: &[Vec<Vec<M::Line>>],
    limits: Limits,
    part: Part,
    next_layer: &F,
) -> Result<Explored<M>, Stop>
    requires accepts { (layer : _) (limits : _) (lines : _) (opening : _) (runner : _) (handed : _) → ArePlaced layer.now lines.now → F.pre next_layer.now layer limits lines opening runner handed }
    requires makes { (layer : _) (limits : _) (lines : _) (opening : _) (runner : _) (handed : _) (made : _) (after : _) → F.post next_layer.now layer limits lines opening runner handed made after
        → MakesNext M.steps M.last M.breaks lines.now opening layer.now limits made }
    requires marks { (layer : _) (limits : _) (lines : _) (opening : _) (runner : _) (handed : _) (made : _) (after : _) → F.post next_layer.now layer limits lines opening runner handed made after
        → IfOk made (λ next. Marks (IsNotedBehind M.notes (λ _. opening_of opening lines.now) layer.now (length layer.now)) (IsQuietBehind M.quiet (λ _. opening_of opening lines.now) layer.now (length layer.now)) handed.noted.items next.noted.items) }
    ensures { Explores M.steps M.last M.breaks M.notes M.quiet part blocks.now start limits result }
{
    let split = fork(blocks);
    if !part.has_orders(split, blocks.len()) {
        let none = nothing(alloc, blocks)?;
        return Ok(none);
    }
    if limits.states == 0 {
        return Err(Stop::Most);
    }
    let mut runner = start.runner(alloc)?;
    let mut layer = first_layer(alloc, start, limits)?;
    let mut noted = Vec::new(alloc);
    for index in 0..blocks.len() {
        let opening = part.only_if(index == split);
        layer = match explore_block(
            alloc,
            layer,
            &blocks[index],
            opening,
            &mut runner,
            next_layer,
        ) {
            Ok(layer) => layer,
            Err(stop) => return Err(stop),
        };
        push_marks(&mut noted, mem::replace(&mut layer.noted, Vec::new(alloc)))?;
    }
    let orders = total(&layer.nodes);
    let steps = limits.steps.saturating_sub(layer.limits.steps);
    Ok(Explored {
        ends: layer.nodes,
        orders,
        steps,
        noted,
    })
}
