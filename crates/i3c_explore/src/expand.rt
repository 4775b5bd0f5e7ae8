ghost use Rattle.std.specs.Prelude.{◌≡◌, ◌<◌, ◌^◌, ◌+◌, ℕ, IfErr, IfOk, IsTrue, MatchOption, None, OnOk, Some, List, length, slice_get, slice_index};
ghost use Rattle.i3c_explore.specs.declared.layer.Layer.{Layer as LayerValue};
ghost use Rattle.i3c_explore.specs.Explorations.{Grows, MakesBy, MakesNext};
ghost use Rattle.i3c_explore.specs.Layers.{Has, IsExpanded, IsNextAt, IsTracked, advanced};
ghost use Rattle.i3c_explore.specs.Nexts.{ArePlaced};
ghost use Rattle.i3c_explore.specs.Notes.{IsNoted, IsNotedBehind, IsQuiet, IsQuietBehind, Marks};
ghost use Rattle.i3c_explore.specs.Orders.{track as lines_of};
ghost use Rattle.i3c_explore.specs.Owners.{own};
ghost use Rattle.i3c_explore.specs.Parts.{opening};
ghost use Rattle.i3c_explore.specs.Runs.{runs_of, ways_of};
ghost use Rattle.i3c_explore.specs.Shares.{by_track, by_tracks, by_turn};
ghost use Rattle.i3c_explore.specs.Stops.{StopsAt};

use crate::layer::Layer;
use crate::limits::Limits;
use crate::machine::Machine;
use crate::node::Node;
use crate::notes::mark;
use crate::owners::Owners;
use crate::part::Part;
use crate::ran::Ran;
use crate::stop::Stop;
use crate::turn::{Turn, extended};
use crate::watch::{View, Watch};
use std::alloc::Global;

/// Runs a track's next line from a node in one way, and marks it if it is noted. `again` says that the runner ran a line
/// from this node last.
fn run_line<M: Machine>(
    alloc: Global,
    node: &Node<M>,
    line: &M::Line,
    turn: Turn,
    again: bool,
    runner: &mut M::Runner,
    noted: &mut Vec<Vec<bool>>,
) -> Result<(), Stop>
    requires within { turn.track < length node.now.places.items }
    requires again { IsTrue again → M.near runner.old node.now.state }
    ensures leads { OnOk result (M.steps node.now.state line.now turn.way (M.shown runner.new)) }
    ensures near { OnOk result (M.near runner.new node.now.state) }
    ensures noted { OnOk result (Marks (λ t k. (t ≡ turn.track) × (slice_index node.now.places.items turn.track ≡ k) × M.notes node.now.state line.now turn.way) (λ t k. t ≡ turn.track → slice_index node.now.places.items turn.track ≡ k → M.quiet node.now.state line.now turn.way) noted.old.items noted.new.items) }
    ensures stopped { IfErr result (λ stop. (lines : ℕ → List M.Line) (next : LayerValue M) → IsNextAt lines node.now.places.items turn.track line.now → StopsAt M.breaks lines node.now next 1 stop) }
{
    match node.state.run(alloc, line, turn.way, again, runner)? {
        Ran::Held => Ok(()),
        Ran::Noted => {
            mark(noted, turn.track, node.places[turn.track]);
            Ok(())
        }
        Ran::Broken => {
            let order = extended(&node.order, turn)?;
            Err(Stop::Breaks(order))
        }
    }
}

/// Runs a track's next line from a node in one way, and adds what it leads to. `again` says that the runner ran a line
/// from this node last.
fn run<M: Machine>(
    alloc: Global,
    node: &Node<M>,
    tracks: &[Vec<M::Line>],
    line: &M::Line,
    turn: Turn,
    again: bool,
    runner: &mut M::Runner,
    next: &mut Layer<M>,
) -> Result<(), Stop>
    requires within { turn.track < length node.now.places.items }
    requires fits { slice_index node.now.places.items turn.track + 1 < 2 ^ 64 }
    requires next { IsNextAt (lines_of tracks.now) node.now.places.items turn.track line.now }
    requires again { IsTrue again → M.near runner.old node.now.state }
    ensures grown { OnOk result ((lines : ℕ → List M.Line) → IsNextAt lines node.now.places.items turn.track line.now → Grows M.steps lines tracks.now node.now next.old next.new (by_turn turn) 1) }
    ensures ran { OnOk result ((new : M) × M.steps node.now.state line.now turn.way new × Has next.new.nodes.items (advanced turn.track node.now.places.items) new) }
    ensures near { OnOk result (M.near runner.new node.now.state) }
    ensures noted { OnOk result (Marks (λ t k. (t ≡ turn.track) × (slice_index node.now.places.items turn.track ≡ k) × M.notes node.now.state line.now turn.way) (λ t k. t ≡ turn.track → slice_index node.now.places.items turn.track ≡ k → M.quiet node.now.state line.now turn.way) next.old.noted.items next.new.noted.items) }
    ensures stopped { IfErr result (λ stop. (lines : ℕ → List M.Line) → IsNextAt lines node.now.places.items turn.track line.now → StopsAt M.breaks lines node.now next.old 1 stop) }
{
    if !next.limits.step() {
        return Err(Stop::Most);
    }
    match run_line(alloc, node, line, turn, again, runner, &mut next.noted) {
        Ok(()) => {}
        Err(stop) => return Err(stop),
    }
    match next.put(alloc, node, turn, runner) {
        Ok(()) => Ok(()),
        Err(stop) => Err(stop),
    }
}

/// The line of a track at a place, if orders of a part begin with the track's.
fn next_line<L>(tracks: &[Vec<L>], part: Part, track: usize, place: usize) -> Option<&L>
    requires { track < length tracks.now }
    ensures { MatchOption result (slice_get (opening part tracks.now track) place ≡ None) (λ line. slice_get (opening part tracks.now track) place ≡ Some line.now) }
{
    if !part.begins(track) {
        return None;
    }
    tracks[track].get(place)
}

/// Runs a track's next line from a node in each way, if orders of a part begin with it. It is told whether the runner ran
/// a line from this node last, and answers that in its turn.
fn run_track<M: Machine>(
    alloc: Global,
    node: &Node<M>,
    tracks: &[Vec<M::Line>],
    part: Part,
    track: usize,
    again: bool,
    runner: &mut M::Runner,
    next: &mut Layer<M>,
) -> Result<bool, Stop>
    requires within { track < length tracks.now }
    requires sized { length node.now.places.items ≡ length tracks.now }
    requires again { IsTrue again → M.near runner.old node.now.state }
    ensures grown { OnOk result (Grows M.steps (opening part tracks.now) tracks.now node.now next.old next.new (by_track (opening part tracks.now) node.now.places.items track) (ways_of M.last node.now.state (slice_get (opening part tracks.now track) (slice_index node.now.places.items track)))) }
    ensures tracked { OnOk result (IsTracked M.steps (opening part tracks.now) track node.now next.new.nodes.items) }
    ensures near { IfOk result (λ near. IsTrue near → M.near runner.new node.now.state) }
    ensures noted { OnOk result (Marks (λ t k. (t ≡ track) × IsNoted M.notes (opening part tracks.now) node.now t k) (λ t k. t ≡ track → IsQuiet M.quiet (opening part tracks.now) node.now t k) next.old.noted.items next.new.noted.items) }
    ensures stopped { IfErr result (StopsAt M.breaks (opening part tracks.now) node.now next.old (ways_of M.last node.now.state (slice_get (opening part tracks.now track) (slice_index node.now.places.items track)))) }
{
    let Some(line) = next_line(tracks, part, track, node.places[track]) else {
        return Ok(again);
    };
    let last = node.state.last_way(line);
    let mut near = again;
    for way in 0..last + 1 {
        let turn = Turn { track, way };
        match run(alloc, node, tracks, line, turn, near, runner, next) {
            Ok(()) => near = true,
            Err(stop) => return Err(stop),
        }
    }
    Ok(near)
}

/// Runs the next line of a track from a node of a layer, if a job takes it. `again` says that the runner's last line
/// began at this node too. Answers whether the runner's last line did.
#[inline(always)]
fn take_turn<M: Machine>(
    alloc: Global,
    node: &Node<M>,
    index: usize,
    owners: &Owners,
    job: usize,
    tracks: &[Vec<M::Line>],
    part: Part,
    track: usize,
    again: bool,
    runner: &mut M::Runner,
    next: &mut Layer<M>,
) -> Result<bool, Stop>
    requires within { track < length tracks.now }
    requires sized { length node.now.places.items ≡ length tracks.now }
    requires again { IsTrue again → M.near runner.old node.now.state }
    ensures grown { OnOk result (Grows M.steps (opening part tracks.now) tracks.now node.now next.old next.new (by_track (own owners.now (length tracks.now) job (opening part tracks.now) index) node.now.places.items track) (ways_of M.last node.now.state (slice_get (own owners.now (length tracks.now) job (opening part tracks.now) index track) (slice_index node.now.places.items track)))) }
    ensures tracked { OnOk result (IsTracked M.steps (own owners.now (length tracks.now) job (opening part tracks.now) index) track node.now next.new.nodes.items) }
    ensures near { IfOk result (λ near. IsTrue near → M.near runner.new node.now.state) }
    ensures noted { OnOk result (Marks (λ t k. (t ≡ track) × IsNoted M.notes (own owners.now (length tracks.now) job (opening part tracks.now) index) node.now t k) (λ t k. t ≡ track → IsQuiet M.quiet (own owners.now (length tracks.now) job (opening part tracks.now) index) node.now t k) next.old.noted.items next.new.noted.items) }
    ensures stopped { IfErr result (StopsAt M.breaks (opening part tracks.now) node.now next.old (ways_of M.last node.now.state (slice_get (own owners.now (length tracks.now) job (opening part tracks.now) index track) (slice_index node.now.places.items track)))) }
{
    if !owners.takes(job, index, track, tracks.len()) {
        return Ok(again);
    }
    next.turn_to(index.wrapping_mul(tracks.len()).wrapping_add(track));
    match run_track(alloc, node, tracks, part, track, again, runner, next) {
        Ok(near) => Ok(near),
        Err(stop) => Err(stop),
    }
}

/// Runs the next line of each track from a node of a layer, if a job takes it and orders of the part begin with the
/// track.
fn expand<M: Machine>(
    alloc: Global,
    node: &Node<M>,
    index: usize,
    owners: &Owners,
    job: usize,
    tracks: &[Vec<M::Line>],
    part: Part,
    runner: &mut M::Runner,
    next: &mut Layer<M>,
) -> Result<(), Stop>
    requires sized { length node.now.places.items ≡ length tracks.now }
    ensures grown { OnOk result (Grows M.steps (opening part tracks.now) tracks.now node.now next.old next.new (by_tracks (own owners.now (length tracks.now) job (opening part tracks.now) index) node.now.places.items (length tracks.now)) (runs_of M.last (own owners.now (length tracks.now) job (opening part tracks.now) index) node.now (length tracks.now))) }
    ensures expanded { OnOk result (IsExpanded M.steps (own owners.now (length tracks.now) job (opening part tracks.now) index) (length tracks.now) node.now next.new.nodes.items) }
    ensures noted { OnOk result (Marks (IsNoted M.notes (own owners.now (length tracks.now) job (opening part tracks.now) index) node.now) (IsQuiet M.quiet (own owners.now (length tracks.now) job (opening part tracks.now) index) node.now) next.old.noted.items next.new.noted.items) }
    ensures stopped { IfErr result (StopsAt M.breaks (opening part tracks.now) node.now next.old (runs_of M.last (own owners.now (length tracks.now) job (opening part tracks.now) index) node.now (length tracks.now))) }
{
    let mut again = false;
    for track in 0..tracks.len() {
        match take_turn(
            alloc, node, index, owners, job, tracks, part, track, again, runner, next,
        ) {
            Ok(near) => again = near,
            Err(stop) => return Err(stop),
        }
    }
    Ok(())
}

/// What a job finds behind a layer: what each node leads to by each line that the job takes, if orders of the part begin
/// with its track. The lines that are noted are marked. A watcher is told after each node.
pub(crate) fn expand_turns<M: Machine, W: Watch>(
    alloc: Global,
    layer: &[Node<M>],
    owners: &Owners,
    job: usize,
    limits: Limits,
    tracks: &[Vec<M::Line>],
    part: Part,
    runner: &mut M::Runner,
    spares: Vec<Node<M>>,
    noted: Vec<Vec<bool>>,
    view: &View<'_, W>,
) -> Result<Layer<M>, Stop>
    requires { ArePlaced layer.now tracks.now }
    ensures made { MakesBy M.steps M.last M.breaks tracks.now part (own owners.now (length tracks.now) job (opening part tracks.now)) layer.now limits result }
    ensures noted { IfOk result (λ next. Marks (IsNotedBehind M.notes (own owners.now (length tracks.now) job (opening part tracks.now)) layer.now (length layer.now)) (IsQuietBehind M.quiet (own owners.now (length tracks.now) job (opening part tracks.now)) layer.now (length layer.now)) noted.items next.noted.items) }
{
    let mut next = Layer::new(alloc, limits);
    // about as many as the layer has, and no more than there were in an earlier one
    next.make_room(alloc, spares.len().min(layer.len()))?;
    next.spares = spares;
    next.noted = noted;
    next.weights = owners.weights(alloc, tracks.len())?;
    for index in 0..layer.len() {
        match expand(
            alloc,
            &layer[index],
            index,
            owners,
            job,
            tracks,
            part,
            runner,
            &mut next,
        ) {
            Ok(()) => {}
            Err(stop) => return Err(stop),
        }
        view.tell(layer, &next.nodes, next.limits);
    }
    Ok(next)
}

/// The layer that follows all nodes of a layer, by one thread.
pub(crate) fn expand_all<M: Machine, W: Watch>(
    alloc: Global,
    layer: &[Node<M>],
    limits: Limits,
    tracks: &[Vec<M::Line>],
    part: Part,
    runner: &mut M::Runner,
    spares: Vec<Node<M>>,
    noted: Vec<Vec<bool>>,
    view: &View<'_, W>,
) -> Result<Layer<M>, Stop>
    requires { ArePlaced layer.now tracks.now }
    ensures made { MakesNext M.steps M.last M.breaks tracks.now part layer.now limits result }
    ensures noted { IfOk result (λ next. Marks (IsNotedBehind M.notes (λ _. opening part tracks.now) layer.now (length layer.now)) (IsQuietBehind M.quiet (λ _. opening part tracks.now) layer.now (length layer.now)) noted.items next.noted.items) }
{
    let owners = Owners::none(alloc);
    expand_turns(
        alloc, layer, &owners, 0, limits, tracks, part, runner, spares, noted, view,
    )
}
