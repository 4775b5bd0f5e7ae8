use crate::codes::BITS;
use crate::machine::Machine;
use crate::node::Node;
use crate::part::Part;
use crate::places::{Codes, NodesAt, Places};
use std::alloc::{AllocError, Global};

/// The lines of a layer are shared out by a sample of at most this many places.
const SAMPLE: usize = 512;

/// Lines that lead to the same places, from a range of nodes.
#[derive(Clone, Copy)]
struct Bundle {
    // the code of the places that they lead to
    target: u64,
    // the first node of the range
    from: usize,
    // the node behind the last one of the range
    to: usize,
    // the number of runs: each line runs once in each of its ways
    runs: usize,
}

/// Bundles of a layer's lines, one for each code of the places that lines lead to.
#[derive(Drop)]
struct Bundles {
    // the code of each bundle's places
    codes: Codes,
    all: Vec<Bundle>,
}

impl Bundles {
    /// Adds a bundle, or extends the one that leads to the same places.
    fn add(&mut self, alloc: Global, more: Bundle) -> Result<(), AllocError> {
        let index = self.codes.index_of(alloc, more.target)?;
        match self.all.get_mut(index) {
            Some(bundle) => {
                bundle.from = bundle.from.min(more.from);
                bundle.to = bundle.to.max(more.to);
                bundle.runs = bundle.runs.saturating_add(more.runs);
            }
            None => {
                self.all.push(more)?;
            }
        }
        Ok(())
    }

    /// Adds the lines that run from the nodes at a place. Their ways are those of the first node there.
    fn add_place<M: Machine>(
        &mut self,
        alloc: Global,
        layer: &[Node<M>],
        place: NodesAt,
        weights: &[u64],
        tracks: &[Vec<M::Line>],
        part: Part,
    ) -> Result<(), AllocError> {
        let Some(node) = layer.get(place.first) else {
            return Ok(());
        };
        for (track, weight) in weights.iter().enumerate() {
            if let Some(ways) = ways_at(node, track, tracks, part) {
                let more = Bundle {
                    target: place.code.wrapping_add(*weight),
                    from: place.first,
                    to: place.last.saturating_add(1),
                    runs: ways.saturating_mul(place.count),
                };
                self.add(alloc, more)?;
            }
        }
        Ok(())
    }
}

/// The number of ways in which a track's next line runs from a node, or none if no order of the part begins with it.
fn ways_at<M: Machine>(
    node: &Node<M>,
    track: usize,
    tracks: &[Vec<M::Line>],
    part: Part,
) -> Option<usize> {
    let place = node.places.get(track)?;
    let line = tracks.get(track)?.get(*place)?;
    if part.begins(track) {
        Some(node.state.last_way(line).saturating_add(1))
    } else {
        None
    }
}

/// The bundles of the lines that run from nodes at a sample of the places.
fn bundles_of<M: Machine>(
    alloc: Global,
    layer: &[Node<M>],
    places: &Places,
    weights: &[u64],
    tracks: &[Vec<M::Line>],
    part: Part,
) -> Result<Vec<Bundle>, AllocError> {
    let step = places.all.len() / SAMPLE + 1;
    let mut bundles = Bundles {
        codes: Codes::new(alloc),
        all: Vec::new(alloc),
    };
    for number in 0..places.all.len() / step + 1 {
        if let Some(place) = places.all.get(number.saturating_mul(step)) {
            bundles.add_place(alloc, layer, *place, weights, tracks, part)?;
        }
    }
    Ok(bundles.all)
}

/// A range of jobs, with the lines that they share.
#[derive(Drop)]
struct JobRange {
    bundles: Vec<Bundle>,
    // the first job
    from: usize,
    // the job behind the last one
    to: usize,
}

/// The code of places, rotated so that a track's place is in the highest bits. Codes then compare by that track first.
fn rotated_to(target: u64, track: u32) -> u64 {
    target.rotate_left(track.wrapping_mul(BITS))
}

/// Where the lines of the later jobs begin. Lines are in the order of the rotated codes of the places that they lead to, and
/// then of the nodes that they run from.
#[derive(Clone, Copy)]
pub(crate) struct Boundary {
    // the track to whose place codes are rotated
    track: u32,
    // the rotated code of the first line's places
    target: u64,
    /// The node that the first line runs from, or 0 unless jobs share these places.
    pub node: usize,
}

impl Boundary {
    /// Whether a line is of the later jobs, by the code of the places that it leads to and the node that it runs from.
    fn is_reached(&self, target: u64, node: usize) -> bool {
        let target = rotated_to(target, self.track);
        (self.target < target) | ((self.target == target) & (self.node <= node))
    }
}

/// The number of runs of all lines in some bundles.
fn runs_of(bundles: &[Bundle]) -> usize {
    let mut runs = 0usize;
    for bundle in bundles {
        runs = runs.saturating_add(bundle.runs);
    }
    runs
}

/// The variance of a track's places in some bundles, times the square of the number of bundles.
fn spread(bundles: &[Bundle], track: u32) -> u64 {
    let mut sum = 0u64;
    let mut squares = 0u64;
    for bundle in bundles {
        let place = rotated_to(bundle.target, track) >> (64 - BITS);
        sum = sum.wrapping_add(place);
        squares = squares.wrapping_add(place.wrapping_mul(place));
    }
    squares
        .wrapping_mul(bundles.len() as u64)
        .wrapping_sub(sum.wrapping_mul(sum))
}

/// The track whose places vary most, of the first eight.
fn widest(bundles: &[Bundle], tracks: usize) -> u32 {
    let mut widest = 0u32;
    let mut most = 0u64;
    for track in 0..tracks.min(8) {
        let apart = spread(bundles, track as u32);
        if apart > most {
            widest = track as u32;
            most = apart;
        }
    }
    widest
}

/// Where a list of sorted bundles is divided in two halves.
#[derive(Clone, Copy)]
struct Division {
    // the bundle in which the later half begins
    index: usize,
    // the number of this bundle's runs that are in the earlier half
    within: usize,
}

/// The division with `due` runs in its earlier half.
fn divided_at(bundles: &[Bundle], due: usize) -> Division {
    let mut left = due;
    for (index, bundle) in bundles.iter().enumerate() {
        if left < bundle.runs {
            return Division {
                index,
                within: left,
            };
        }
        left -= bundle.runs;
    }
    Division {
        index: bundles.len(),
        within: 0,
    }
}

/// The nearest division between two bundles, if at most `few` runs change their half by that, or if the divided bundle is of
/// one node. Otherwise the same division.
fn rounded(bundles: &[Bundle], division: Division, few: usize) -> Division {
    let Some(bundle) = bundles.get(division.index) else {
        return division;
    };
    let behind = bundle.runs.saturating_sub(division.within);
    let nodes = bundle.to.saturating_sub(bundle.from);
    if division.within.min(behind) > few && nodes > 1 {
        return division;
    }
    let index = if division.within <= behind {
        division.index
    } else {
        division.index.saturating_add(1)
    };
    Division { index, within: 0 }
}

/// Divides a bundle at a node, so that about `within` of its runs stay. Answers the bundle of the later nodes.
fn divide(bundle: &mut Bundle, within: usize) -> Bundle {
    let nodes = bundle.to.saturating_sub(bundle.from);
    let earlier = nodes.saturating_mul(within) / bundle.runs.max(1);
    let node = bundle.from.saturating_add(earlier);
    let later = Bundle {
        from: node,
        runs: bundle.runs.saturating_sub(within),
        ..*bundle
    };
    bundle.to = node;
    bundle.runs = within;
    later
}

/// Removes the later half from some bundles, and answers it.
fn later_half(bundles: &mut Vec<Bundle>, division: Division) -> Result<Vec<Bundle>, AllocError> {
    let at = division.index.min(bundles.len());
    let mut later = bundles.split_off(at)?;
    if division.within > 0 {
        if let Some(first) = later.first_mut() {
            let mut earlier = *first;
            *first = divide(&mut earlier, division.within);
            bundles.push(earlier)?;
        }
    }
    Ok(later)
}

/// The boundary at which some sorted bundles begin. `divided` says that the first of them is the later part of a bundle.
fn boundary_before(later: &[Bundle], track: u32, divided: bool) -> Boundary {
    match later.first() {
        Some(first) => Boundary {
            track,
            target: rotated_to(first.target, track),
            node: if divided { first.from } else { 0 },
        },
        None => Boundary {
            track,
            target: u64::MAX,
            node: 0,
        },
    }
}

/// Shares out lines between the halves of some jobs, sorted by the track whose places vary most. Keeps those of the earlier
/// jobs, and answers those of the later jobs, with the boundary at which they begin.
fn split(
    bundles: &mut Vec<Bundle>,
    tracks: usize,
    jobs: usize,
) -> Result<(Vec<Bundle>, Boundary), AllocError> {
    let track = widest(bundles, tracks);
    bundles.sort_unstable_by_key(|bundle| (rotated_to(bundle.target, track), bundle.from));
    let each = runs_of(bundles) / jobs.max(1);
    let about = divided_at(bundles, each.saturating_mul(jobs / 2));
    let at = rounded(bundles, about, each / 8);
    let later = later_half(bundles, at)?;
    let boundary = boundary_before(&later, track, at.within > 0);
    Ok((later, boundary))
}

/// Divides a range of jobs, and its lines, in two ranges, unless it has one job. The boundary is noted at the first job of
/// the later range.
fn share_out(
    range: JobRange,
    tracks: usize,
    boundaries: &mut Vec<Boundary>,
    ranges: &mut Vec<JobRange>,
) -> Result<(), AllocError> {
    let JobRange {
        mut bundles,
        from,
        to,
    } = range;
    let jobs = to.saturating_sub(from);
    if jobs < 2 {
        return Ok(());
    }
    let (later, boundary) = split(&mut bundles, tracks, jobs)?;
    let middle = from.saturating_add(jobs / 2);
    if let Some(held) = boundaries.get_mut(middle) {
        *held = boundary;
    }
    ranges.push(JobRange {
        bundles,
        from,
        to: middle,
    })?;
    ranges.push(JobRange {
        bundles: later,
        from: middle,
        to,
    })?;
    Ok(())
}

/// The boundaries by which the lines of a layer are shared out among jobs. In a range of jobs, the boundary of the middle
/// job divides the lines: the middle job and those behind it run the later ones.
pub(crate) fn boundaries_of<M: Machine>(
    alloc: Global,
    layer: &[Node<M>],
    places: &Places,
    weights: &[u64],
    tracks: &[Vec<M::Line>],
    part: Part,
    jobs: usize,
) -> Result<Vec<Boundary>, AllocError> {
    let nowhere = Boundary {
        track: 0,
        target: u64::MAX,
        node: 0,
    };
    let mut boundaries = vec![in alloc; nowhere; jobs]?;
    let mut ranges = Vec::new(alloc);
    ranges.push(JobRange {
        bundles: bundles_of(alloc, layer, places, weights, tracks, part)?,
        from: 0,
        to: jobs,
    })?;
    for _ in 0..jobs.saturating_mul(2) {
        if let Some(range) = ranges.pop() {
            share_out(range, tracks.len(), &mut boundaries, &mut ranges)?;
        }
    }
    Ok(boundaries)
}

/// The job that runs a line. Each boundary leaves half of a range of jobs.
pub(crate) fn owner_by(boundaries: &[Boundary], target: u64, node: usize) -> usize {
    let mut from = 0usize;
    let mut to = boundaries.len();
    for _ in 0..64 {
        if to.wrapping_sub(from) < 2 {
            return from;
        }
        let mid = from.wrapping_add(to.wrapping_sub(from) / 2);
        match boundaries.get(mid) {
            Some(boundary) if boundary.is_reached(target, node) => from = mid,
            _ => to = mid,
        }
    }
    from
}
