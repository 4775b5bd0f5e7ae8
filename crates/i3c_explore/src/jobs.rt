ghost use Rattle.std.specs.Prelude.{◌≡◌, ◌<◌, IfOk, length};
ghost use Rattle.i3c_explore.specs.Explorations.{IsMadeBy, MakesNext};
ghost use Rattle.i3c_explore.specs.Nexts.{ArePlaced};
ghost use Rattle.i3c_explore.specs.Notes.{Adds, AreMarks, IsMarked, IsNotedBehind, IsQuietBehind, Marks};
ghost use Rattle.i3c_explore.specs.Parts.{opening};
ghost use Rattle.i3c_explore.specs.Jobs.{AreJobs, IsMarkedByJobs, IsMarkedIn};
ghost use Rattle.i3c_explore.specs.Owners.{own};

use crate::expand::{expand_all, expand_turns};
use crate::layer::{Handed, Layer};
use crate::limits::Limits;
use crate::machine::Machine;
use crate::merged::joined_by_jobs;
use crate::node::Node;
use crate::notes::{add, unmarked};
use crate::owners::{Owners, owners_of};
use crate::part::Part;
use crate::stop::Stop;
use crate::watch::{Unwatched, View, Watch};
use std::alloc::{AllocError, Global};
use std::mem;
use std::thread::{Threads, map_vec};

/// How few nodes are worth a thread of their own.
const FEW: usize = 16;

/// How many words of room a job asks for, before it makes nodes.
const ROOM: usize = 1024 * 1024;

/// How many words of room are asked for before all jobs. The C library then keeps room up to twice as large for later.
const MOST: usize = 4_000_000;

/// Asks for room at once, and lets go of it. The C library keeps it, and needn't ask the system for a page at a time.
fn ask_for_room(alloc: Global, words: usize) {
    let _room: Result<Vec<u64>, AllocError> = Vec::with_capacity(alloc, words);
}

/// One of the jobs that make a layer.
#[derive(Drop)]
struct Job<M> {
    // counted from 0
    number: usize,
    // nodes whose room the job may take
    spares: Vec<Node<M>>,
    // nodes that the job frees
    surplus: Vec<Node<M>>,
}

/// A job's share of some nodes, among `jobs` jobs.
fn share_of<M: Machine>(nodes: &mut Vec<Node<M>>, jobs: usize) -> Result<Vec<Node<M>>, AllocError> {
    match nodes.len().checked_div(jobs) {
        Some(each) => nodes.split_off(nodes.len() - each),
        None => nodes.split_off(0),
    }
}

/// The jobs by their numbers. Each has its share of the spare nodes, and of those that no layer needs.
fn jobs_of<M: Machine>(
    alloc: Global,
    jobs: usize,
    mut spares: Vec<Node<M>>,
    mut surplus: Vec<Node<M>>,
) -> Result<Vec<Job<M>>, AllocError>
    ensures { IfOk result (λ all. AreJobs all.items 0 jobs) }
{
    let mut all = Vec::new(alloc);
    for number in 0..jobs {
        let job = Job {
            number,
            spares: share_of(&mut spares, jobs - number)?,
            surplus: share_of(&mut surplus, jobs - number)?,
        };
        all.push(job)?;
    }
    Ok(all)
}

/// The nodes that a job finds behind a layer, on a runner of its own.
fn expand_job<M: Machine>(
    alloc: Global,
    layer: &[Node<M>],
    owners: &Owners,
    job: Job<M>,
    limits: Limits,
    tracks: &[Vec<M::Line>],
    part: Part,
) -> Result<Layer<M>, Stop>
    requires { ArePlaced layer.now tracks.now }
    ensures made { IfOk result (IsMadeBy M.steps M.last tracks.now part (own owners.now (length tracks.now) job.number (opening part tracks.now)) layer.now limits) }
    ensures noted { IfOk result (λ next. AreMarks tracks.now (IsNotedBehind M.notes (own owners.now (length tracks.now) job.number (opening part tracks.now)) layer.now (length layer.now)) (IsQuietBehind M.quiet (own owners.now (length tracks.now) job.number (opening part tracks.now)) layer.now (length layer.now)) next.noted.items) }
{
    let Job {
        number,
        spares,
        surplus,
    } = job;
    drop(surplus);
    ask_for_room(alloc, ROOM);
    let Some(node) = layer.first() else {
        return Err(Stop::Most);
    };
    let mut runner = node.state.runner(alloc)?;
    let noted = unmarked(alloc, tracks)?;
    let view = View {
        watch: &Unwatched,
        lines: 0,
        limits,
    };
    match expand_turns(
        alloc,
        layer,
        owners,
        number,
        limits,
        tracks,
        part,
        &mut runner,
        spares,
        noted,
        &view,
    ) {
        Ok(next) => Ok(next),
        Err(stop) => Err(stop),
    }
}

/// The spare nodes beyond as many as the layer has.
fn surplus_of<M: Machine>(
    spares: &mut Vec<Node<M>>,
    layer: &[Node<M>],
) -> Result<Vec<Node<M>>, AllocError> {
    spares.split_off(layer.len().min(spares.len()))
}

/// The lines of a block that jobs marked.
fn marked_by_jobs<M: Machine>(
    alloc: Global,
    tracks: &[Vec<M::Line>],
    layers: &[Result<Layer<M>, Stop>],
) -> Result<Vec<Vec<bool>>, AllocError>
    ensures { IfOk result (λ noted. AreMarks tracks.now (IsMarkedByJobs layers.now (length layers.now)) (λ t k. IsMarkedByJobs layers.now (length layers.now) t k → ⊥) noted.items) }
{
    let mut noted = unmarked(alloc, tracks)?;
    for job in 0..layers.len() {
        add_job(&mut noted, &layers[job]);
    }
    Ok(noted)
}

/// Marks the lines that a job marked.
fn add_job<M: Machine>(noted: &mut Vec<Vec<bool>>, made: &Result<Layer<M>, Stop>)
    ensures { Adds (IsMarkedIn made.now) noted.old.items noted.new.items }
{
    if let Ok(layer) = made {
        add(noted, &layer.noted);
    }
}

/// The layer that follows all nodes of a layer. Each job runs the lines that it owns. The marks are those of this layer
/// alone.
fn by_owners<R: Threads + Sync, M: Machine + Send + Sync>(
    rt: &R,
    alloc: Global,
    jobs: usize,
    layer: &[Node<M>],
    limits: Limits,
    tracks: &[Vec<M::Line>],
    part: Part,
    mut spares: Vec<Node<M>>,
    codes: Vec<u64>,
) -> Result<Layer<M>, Stop>
where
    M::Line: Sync,
    M::Runner: Send,
    requires some { 0 < jobs }
    requires sized { ArePlaced layer.now tracks.now }
    ensures made { IfOk result (IsMadeBy M.steps M.last tracks.now part (λ _. opening part tracks.now) layer.now limits) }
    ensures noted { IfOk result (λ next. AreMarks tracks.now (IsNotedBehind M.notes (λ _. opening part tracks.now) layer.now (length layer.now)) (IsQuietBehind M.quiet (λ _. opening part tracks.now) layer.now (length layer.now)) next.noted.items) }
{
    ask_for_room(alloc, MOST);
    let owners = owners_of(alloc, layer, codes, tracks, part, jobs)?;
    let surplus = surplus_of(&mut spares, layer)?;
    let all = jobs_of(alloc, jobs, spares, surplus)?;
    let expand = |job: Job<M>| -> Result<Layer<M>, Stop>
        requires { ArePlaced layer.now tracks.now }
        ensures made { IfOk result (IsMadeBy M.steps M.last tracks.entry.now part (own owners (length tracks.entry.now) job.number (opening part tracks.entry.now)) layer.entry.now limits) }
        ensures noted { IfOk result (λ next. AreMarks tracks.entry.now (IsNotedBehind M.notes (own owners (length tracks.entry.now) job.number (opening part tracks.entry.now)) layer.entry.now (length layer.entry.now)) (IsQuietBehind M.quiet (own owners (length tracks.entry.now) job.number (opening part tracks.entry.now)) layer.entry.now (length layer.entry.now)) next.noted.items) }
    { expand_job(alloc, layer, &owners, job, limits, tracks, part) };
    let layers = map_vec(rt, all, &expand)?;
    let noted = marked_by_jobs(alloc, tracks, &layers)?;
    match joined_by_jobs(rt, alloc, layers, owners.overlap, limits) {
        Ok(mut next) => {
            next.noted = noted;
            Ok(next)
        }
        Err(stop) => Err(stop),
    }
}

/// A layer that jobs made, with the marks of the layers before it.
fn with_marks<M: Machine>(made: Layer<M>, before: Vec<Vec<bool>>) -> Layer<M>
    ensures nodes { result.nodes ≡ made.nodes }
    ensures limits { result.limits ≡ made.limits }
    ensures noted { Adds (IsMarked made.noted.items) before.items result.noted.items }
{
    let mut next = made;
    let mut noted = before;
    add(&mut noted, &next.noted);
    next.noted = noted;
    next
}

/// The layer that follows all nodes of a layer, by up to `jobs` jobs. Where one of them finds a break or reaches a limit,
/// one thread makes the layer again from its first node, so that each number of jobs answers the same.
pub(crate) fn next_by_jobs<R: Threads + Sync, M: Machine + Send + Sync, W: Watch>(
    rt: &R,
    alloc: Global,
    jobs: usize,
    layer: &[Node<M>],
    limits: Limits,
    tracks: &[Vec<M::Line>],
    part: Part,
    runner: &mut M::Runner,
    handed: Handed<M>,
    view: &View<'_, W>,
) -> Result<Layer<M>, Stop>
where
    M::Line: Sync,
    M::Runner: Send,
    requires { ArePlaced layer.now tracks.now }
    ensures made { MakesNext M.steps M.last M.breaks tracks.now part layer.now limits result }
    ensures noted { IfOk result (λ next. Marks (IsNotedBehind M.notes (λ _. opening part tracks.now) layer.now (length layer.now)) (IsQuietBehind M.quiet (λ _. opening part tracks.now) layer.now (length layer.now)) handed.noted.items next.noted.items) }
{
    let Handed {
        mut spares,
        codes,
        noted,
    } = handed;
    let useful = jobs.min(layer.len() / FEW);
    if useful > 1 {
        let lent = mem::replace(&mut spares, Vec::new(alloc));
        if let Ok(made) = by_owners(rt, alloc, useful, layer, limits, tracks, part, lent, codes) {
            let next = with_marks(made, noted);
            view.tell(layer, &next.nodes, next.limits);
            return Ok(next);
        }
    }
    expand_all(
        alloc, layer, limits, tracks, part, runner, spares, noted, view,
    )
}
