ghost use Rattle.std.specs.Prelude.{◌≡◌, ◌<◌, ◌+◌, ◌*◌, [], IfOk, OnOk, slice_get};
ghost use Rattle.i3c_explore.specs.Owners.{AreOwned, number, takes};

use crate::boundary::{Boundary, boundaries_of, owner_by};
use crate::codes::{codes_of, weights_of};
use crate::machine::Machine;
use crate::node::Node;
use crate::part::Part;
use crate::places::Places;
use std::alloc::{AllocError, Global};

/// The job that runs the next line of a track from a node of a layer.
///
/// Whoever runs it, the same states are found. So it is proved that each line is of one job, and nothing of which job
/// that is.
#[derive(Drop)]
pub(crate) struct Owners {
    // the row of each node
    rows: Vec<usize>,
    // the jobs of the tracks, by rows
    jobs: Vec<usize>,
    /// Whether lines of several jobs lead to the same places.
    pub overlap: bool,
}

impl Owners {
    /// The one job runs all lines.
    pub(crate) fn none(alloc: Global) -> Owners
        ensures { result.jobs.items ≡ [] }
    {
        Owners {
            rows: Vec::new(alloc),
            jobs: Vec::new(alloc),
            overlap: false,
        }
    }

    /// The weights of all tracks, or none if one job runs all lines.
    pub(crate) fn weights(&self, alloc: Global, tracks: usize) -> Result<Vec<u64>, AllocError> {
        if self.jobs.is_empty() {
            return Ok(Vec::new(alloc));
        }
        weights_of(alloc, tracks)
    }

    /// Whether a job runs the next line of a track from a node with `tracks` tracks.
    #[inline(always)]
    pub(crate) fn takes(&self, job: usize, node: usize, track: usize, tracks: usize) -> bool
        ensures { result ≡ takes self.now tracks job node track }
    {
        let row = noted(&self.rows, node);
        let owner = match row.checked_mul(tracks) {
            Some(first) => match first.checked_add(track) {
                Some(index) => noted(&self.jobs, index),
                None => 0,
            },
            None => 0,
        };
        owner == job
    }
}

/// The number that is noted at an index, or else 0.
#[inline(always)]
fn noted(numbers: &Vec<usize>, index: usize) -> usize
    ensures { result ≡ number (slice_get numbers.now.items index) }
{
    match numbers.get(index) {
        Some(number) => *number,
        None => 0,
    }
}

/// Notes the job of one more line.
fn push_owner(owners: &mut Vec<usize>, owner: usize, jobs: usize) -> Result<(), AllocError>
    requires some { 0 < jobs }
    requires owned { AreOwned owners.old.items jobs }
    ensures { OnOk result (AreOwned owners.new.items jobs) }
{
    owners.push(owner.min(jobs.saturating_sub(1)))?;
    Ok(())
}

/// Notes a row: the jobs of a node's tracks.
fn note(
    owners: &mut Vec<usize>,
    boundaries: &[Boundary],
    node: usize,
    code: u64,
    weights: &[u64],
    jobs: usize,
) -> Result<(), AllocError>
    requires some { 0 < jobs }
    requires owned { AreOwned owners.old.items jobs }
    ensures { OnOk result (AreOwned owners.new.items jobs) }
{
    for weight in weights {
        let owner = owner_by(boundaries, code.wrapping_add(*weight), node);
        push_owner(owners, owner, jobs)?;
    }
    Ok(())
}

/// The owners by the nodes' places. All nodes at a place have the same row, since no jobs share places.
fn owners_by_place(
    alloc: Global,
    places: Places,
    boundaries: &[Boundary],
    weights: &[u64],
    jobs: usize,
) -> Result<Owners, AllocError>
    requires { 0 < jobs }
    ensures { IfOk result (λ owners. AreOwned owners.jobs.items jobs) }
{
    let Places { all, of_nodes, .. } = places;
    let mut owners = Vec::with_capacity(alloc, all.len().saturating_mul(weights.len()))?;
    for place in &all {
        note(
            &mut owners,
            boundaries,
            place.first,
            place.code,
            weights,
            jobs,
        )?;
    }
    Ok(Owners {
        rows: of_nodes,
        jobs: owners,
        overlap: false,
    })
}

/// The owners by the nodes themselves. Each has a row of its own.
fn owners_by_node(
    alloc: Global,
    codes: &[u64],
    boundaries: &[Boundary],
    weights: &[u64],
    jobs: usize,
) -> Result<Owners, AllocError>
    requires { 0 < jobs }
    ensures { IfOk result (λ owners. AreOwned owners.jobs.items jobs) }
{
    let mut rows = Vec::with_capacity(alloc, codes.len())?;
    let mut owners = Vec::with_capacity(alloc, codes.len().saturating_mul(weights.len()))?;
    for (node, code) in codes.iter().enumerate() {
        rows.push(node)?;
        note(&mut owners, boundaries, node, *code, weights, jobs)?;
    }
    Ok(Owners {
        rows,
        jobs: owners,
        overlap: true,
    })
}

/// Shares out the lines that run from a layer's nodes among `jobs` jobs, by the places that they lead to. One job then
/// finds equal states, unless `overlap` says that some are shared. The jobs run about as many lines, each counted in the
/// ways of the first node at its places.
pub(crate) fn owners_of<M: Machine>(
    alloc: Global,
    layer: &[Node<M>],
    codes: Vec<u64>,
    tracks: &[Vec<M::Line>],
    part: Part,
    jobs: usize,
) -> Result<Owners, AllocError>
    requires { 0 < jobs }
    ensures { IfOk result (λ owners. AreOwned owners.jobs.items jobs) }
{
    let weights = weights_of(alloc, tracks.len())?;
    let codes = if codes.len() == layer.len() {
        codes
    } else {
        codes_of(alloc, layer, tracks.len())?
    };
    let places = Places::of_codes(alloc, &codes)?;
    let boundaries = boundaries_of(alloc, layer, &places, &weights, tracks, part, jobs)?;
    if boundaries.iter().any(|boundary| boundary.node > 0) {
        owners_by_node(alloc, &codes, &boundaries, &weights, jobs)
    } else {
        owners_by_place(alloc, places, &boundaries, &weights, jobs)
    }
}
