ghost use Rattle.std.specs.Prelude.{◌≡◌, IfOk, length};

use crate::counter::{Counter, Line};
use i3c_explore::{
    Explored, Limits, Machine as _, Node, Part, Progress, Stop, Turn, Watch, explore, explore_on,
    explore_part, reach,
};
use std::alloc::{AllocError, Global};
use std::cell::Cell;
use std::test::Fail;
use std::thread::Threads;

/// Limits that these tests don't reach.
const WIDE: Limits = Limits {
    steps: 100_000,
    states: 16_384,
};

/// Nobody watches.
struct Nobody;

impl Watch for Nobody {
    fn told(&self, _progress: Progress) {}

    fn ended(&self) {}
}

/// A watcher that notes the last progress, and how often an exploration was over.
#[derive(Drop)]
struct Notes {
    last: Cell<Option<Progress>>,
    ends: Cell<u8>,
}

impl Watch for Notes {
    fn told(&self, progress: Progress) {
        self.last.set(Some(progress));
    }

    fn ended(&self) {
        self.ends.set(self.ends.get().wrapping_add(1));
    }
}

/// A track of lines.
fn track(alloc: Global, lines: &[Line]) -> Result<Vec<Line>, AllocError> {
    let mut made = Vec::new(alloc);
    for line in lines {
        made.push(*line)?;
    }
    Ok(made)
}

/// A block of tracks.
fn block(alloc: Global, tracks: &[&[Line]]) -> Result<Vec<Vec<Line>>, AllocError> {
    let mut made = Vec::new(alloc);
    for lines in tracks {
        made.push(track(alloc, lines)?)?;
    }
    Ok(made)
}

/// Blocks of tracks.
fn blocks_of(alloc: Global, blocks: &[&[&[Line]]]) -> Result<Vec<Vec<Vec<Line>>>, AllocError> {
    let mut made = Vec::new(alloc);
    for tracks in blocks {
        made.push(block(alloc, tracks)?)?;
    }
    Ok(made)
}

/// A watcher that compares what it is told with the moments that are expected, one after another.
#[derive(Drop)]
struct Moments {
    expected: Vec<Progress>,
    told: Cell<usize>,
    wrong: Cell<bool>,
}

impl Moments {
    /// Nothing was told yet of these moments.
    fn new(expected: Vec<Progress>) -> Moments {
        Moments {
            expected,
            told: Cell::new(0),
            wrong: Cell::new(false),
        }
    }

    /// Whether each expected moment was told, and no other one.
    fn are_met(&self) -> bool {
        self.told.get() == self.expected.len() && !self.wrong.get()
    }
}

impl Watch for Moments {
    fn told(&self, progress: Progress) {
        let next = self.told.get();
        if self.expected.get(next) != Some(&progress) {
            self.wrong.set(true);
        }
        self.told.set(next.wrapping_add(1));
    }

    fn ended(&self) {}
}

/// Explores blocks from a counter at 1.
fn explored(
    alloc: Global,
    blocks: &[&[&[Line]]],
    limits: Limits,
) -> Result<Explored<Counter>, Stop> {
    let blocks = blocks_of(alloc, blocks)?;
    explore(alloc, Counter { count: 1 }, &blocks, limits)
}

/// Explores the part of this number, out of a number of parts, of blocks from a counter at 1. Without that part it says that
/// a limit was reached.
fn part_explored(
    alloc: Global,
    blocks: &[&[&[Line]]],
    number: usize,
    of: usize,
) -> Result<Explored<Counter>, Stop> {
    let blocks = blocks_of(alloc, blocks)?;
    let Some(part) = Part::new(number, of) else {
        return Err(Stop::Most);
    };
    explore_part(alloc, Counter { count: 1 }, &blocks, WIDE, part)
}

/// Whether an exploration has these numbers of ends, orders and steps.
fn has(found: &Explored<Counter>, ends: usize, orders: Option<u64>, steps: u64) -> bool {
    found.ends.len() == ends && found.orders == orders && found.steps == steps
}

/// Whether an end has this count and this number of orders, and is reached by the turns of these tracks first.
fn ends_at(
    found: &Explored<Counter>,
    end: usize,
    count: u64,
    orders: u64,
    tracks: &[usize],
) -> bool {
    match found.ends.get(end) {
        Some(node) => {
            node.state.count == count
                && node.orders == Some(orders)
                && node
                    .order
                    .iter()
                    .map(|turn| turn.track)
                    .eq(tracks.iter().copied())
        }
        None => false,
    }
}

/// Whether an order that breaks an expectation has turns of these tracks.
fn breaks_by(stop: &Stop, tracks: &[usize]) -> bool {
    match stop {
        Stop::Breaks(order) => order
            .iter()
            .map(|turn| turn.track)
            .eq(tracks.iter().copied()),
        _ => false,
    }
}

// (2 + 1)! / 2! / 1! orders; the places lead on by 2 + 2 + 1 + 1 + 1 turns
#[test]
fn two_tracks_have_three_orders(rt: HostRuntime) -> Result<(), Fail> {
    let found = explored(
        rt.alloc(),
        &[&[&[Line::Add(1), Line::Add(2)], &[Line::Add(4)]]],
        WIDE,
    )?;
    assert!(rt; has(&found, 1, Some(3), 7));
    assert!(rt; ends_at(&found, 0, 8, 3, &[0, 0, 1]));
    Ok(())
}

// 12! / (4! 4! 4!) orders; 125 places, 100 of which have a line left of each track
#[test]
fn three_tracks_of_four_lines_have_34650_orders(rt: HostRuntime) -> Result<(), Fail> {
    let lines = [Line::Add(1), Line::Add(2), Line::Add(3), Line::Add(4)];
    let found = explored(rt.alloc(), &[&[&lines, &lines, &lines]], WIDE)?;
    assert!(rt; has(&found, 1, Some(34_650), 300));
    Ok(())
}

// doubled first 1 becomes 3, doubled last 4, and one more line of each clears the difference
#[test]
fn each_order_leads_to_its_end(rt: HostRuntime) -> Result<(), Fail> {
    let found = explored(
        rt.alloc(),
        &[&[&[Line::Double], &[Line::Add(1)]], &[&[Line::Add(5)]]],
        WIDE,
    )?;
    assert!(rt; has(&found, 2, Some(2), 6));
    assert!(rt; ends_at(&found, 0, 8, 1, &[0, 1, 0]));
    assert!(rt; ends_at(&found, 1, 9, 1, &[1, 0, 0]));
    let cleared = explored(
        rt.alloc(),
        &[&[&[Line::Double], &[Line::Add(1)]], &[&[Line::Clear]]],
        WIDE,
    )?;
    assert!(rt; has(&cleared, 1, Some(2), 6));
    assert!(rt; ends_at(&cleared, 0, 0, 2, &[0, 1, 0]));
    Ok(())
}

// the line leads to 3 in way 0, and to 0 in way 1: one interleaving, which is counted where it leads in way 0
#[test]
fn ways_are_tried_and_interleavings_counted(rt: HostRuntime) -> Result<(), Fail> {
    let found = explored(rt.alloc(), &[&[&[Line::Risk(2)]]], WIDE)?;
    assert!(rt; has(&found, 2, Some(1), 2));
    assert!(rt; ends_at(&found, 0, 3, 1, &[0]));
    assert!(rt; ends_at(&found, 1, 0, 0, &[0]));
    Ok(())
}

// the first block comes to 500, so the double of the second one breaks, first of all as the first line there
#[test]
fn the_shortest_break_is_told(rt: HostRuntime) -> Result<(), Fail> {
    let stop = explored(
        rt.alloc(),
        &[
            &[&[Line::Add(249)], &[Line::Add(250)]],
            &[&[Line::Add(0), Line::Add(0)], &[Line::Double]],
        ],
        WIDE,
    );
    match stop {
        Ok(_found) => assert!(rt; false),
        Err(stop) => assert!(rt; breaks_by(&stop, &[0, 1, 1])),
    }
    Ok(())
}

// seven lines have to run, and the widest layer has two states
#[test]
fn a_limit_that_is_reached_is_no_answer(rt: HostRuntime) -> Result<(), Fail> {
    let tracks: &[&[Line]] = &[&[Line::Add(1), Line::Add(2)], &[Line::Add(4)]];
    let enough = Limits {
        steps: 7,
        states: 2,
    };
    assert!(rt; explored(rt.alloc(), &[tracks], enough).is_ok());
    let short = Limits {
        steps: 6,
        states: 2,
    };
    assert!(rt; matches!(explored(rt.alloc(), &[tracks], short), Err(Stop::Most)));
    let narrow = Limits {
        steps: 7,
        states: 1,
    };
    assert!(rt; matches!(explored(rt.alloc(), &[tracks], narrow), Err(Stop::Most)));
    Ok(())
}

// 48! / (16! 16! 16!) is about 1.36e21; 16 · 17 · 17 places have a line left of each track
#[test]
fn orders_beyond_64_bits_are_told_so(rt: HostRuntime) -> Result<(), Fail> {
    let lines = [Line::Add(1); 16];
    let found = explored(rt.alloc(), &[&[&lines, &lines, &lines]], WIDE)?;
    assert!(rt; has(&found, 1, None, 13_872));
    Ok(())
}

// no block, and a block without a line, have one order, which does nothing
#[test]
fn nothing_has_one_order(rt: HostRuntime) -> Result<(), Fail> {
    let none = explored(rt.alloc(), &[], WIDE)?;
    assert!(rt; has(&none, 1, Some(1), 0));
    let empty = explored(rt.alloc(), &[&[], &[&[], &[]]], WIDE)?;
    assert!(rt; has(&empty, 1, Some(1), 0));
    assert!(rt; ends_at(&empty, 0, 1, 1, &[]));
    Ok(())
}

// of 4! / 2! orders 3! begin with a line of the first track, and 3! / 2! with that of each other one. Part 1 of 2 has the first
// track and the third: 2 + 3 + 2 + 2 + 2 + 2 + 1 + 1 + 1 + 1 turns. Part 2 has the second: 1 + 2 + 2 + 1 + 1 + 1
#[test]
fn a_part_has_the_orders_of_its_tracks(rt: HostRuntime) -> Result<(), Fail> {
    let tracks: &[&[Line]] = &[
        &[Line::Add(1), Line::Add(2)],
        &[Line::Add(4)],
        &[Line::Add(8)],
    ];
    let odd = part_explored(rt.alloc(), &[tracks], 1, 2)?;
    assert!(rt; has(&odd, 1, Some(9), 17));
    assert!(rt; ends_at(&odd, 0, 16, 9, &[0, 0, 1, 2]));
    let even = part_explored(rt.alloc(), &[tracks], 2, 2)?;
    assert!(rt; has(&even, 1, Some(3), 8));
    assert!(rt; ends_at(&even, 0, 16, 3, &[1, 0, 0, 2]));
    Ok(())
}

// the second block is the first in which two tracks have a line: 2 is doubled before 1 is added, or behind it. The third block
// has both of its orders in each part
#[test]
fn the_first_block_that_interleaves_is_parted(rt: HostRuntime) -> Result<(), Fail> {
    let blocks: &[&[&[Line]]] = &[
        &[&[], &[Line::Add(1)]],
        &[&[Line::Double], &[Line::Add(1)]],
        &[&[Line::Add(0)], &[Line::Add(0)]],
    ];
    let doubled = part_explored(rt.alloc(), blocks, 1, 2)?;
    assert!(rt; has(&doubled, 1, Some(2), 7));
    assert!(rt; ends_at(&doubled, 0, 5, 2, &[1, 0, 1, 0, 1]));
    let added = part_explored(rt.alloc(), blocks, 2, 2)?;
    assert!(rt; has(&added, 1, Some(2), 7));
    assert!(rt; ends_at(&added, 0, 6, 2, &[1, 1, 0, 0, 1]));
    Ok(())
}

// the first block comes to 500, so the double of the second one breaks: as the second line there in part 1, and the first in
// part 2
#[test]
fn a_break_is_the_shortest_of_its_part(rt: HostRuntime) -> Result<(), Fail> {
    let blocks: &[&[&[Line]]] = &[
        &[&[Line::Add(250), Line::Add(249)]],
        &[&[Line::Add(0), Line::Add(0)], &[Line::Double]],
    ];
    match part_explored(rt.alloc(), blocks, 1, 2) {
        Ok(_found) => assert!(rt; false),
        Err(stop) => assert!(rt; breaks_by(&stop, &[0, 0, 0, 1])),
    }
    match part_explored(rt.alloc(), blocks, 2, 2) {
        Ok(_found) => assert!(rt; false),
        Err(stop) => assert!(rt; breaks_by(&stop, &[0, 0, 1])),
    }
    Ok(())
}

// two tracks fill two parts, and the third has no order; where nothing interleaves part 1 has the one order
#[test]
fn a_part_without_a_track_has_no_order(rt: HostRuntime) -> Result<(), Fail> {
    let third = part_explored(rt.alloc(), &[&[&[Line::Double], &[Line::Add(1)]]], 3, 3)?;
    assert!(rt; has(&third, 0, Some(0), 0));
    let alone: &[&[&[Line]]] = &[&[&[Line::Add(1), Line::Add(2)], &[]]];
    let first = part_explored(rt.alloc(), alone, 1, 2)?;
    assert!(rt; has(&first, 1, Some(1), 2));
    let second = part_explored(rt.alloc(), alone, 2, 2)?;
    assert!(rt; has(&second, 0, Some(0), 0));
    Ok(())
}

#[test]
fn a_part_is_one_of_as_many_as_there_are(rt: HostRuntime) -> Result<(), Fail> {
    assert!(rt; Part::new(0, 2).is_none());
    assert!(rt; Part::new(3, 2).is_none());
    assert!(rt; Part::new(1, 0).is_none());
    assert!(rt; Part::new(2, 2).is_some());
    assert!(rt; matches!(Part::new(1, 1), Some(part) if part == Part::whole()));
    Ok(())
}

/// Whether two ends are equal, with their orders and their number.
fn is_same_end(one: &Node<Counter>, other: &Node<Counter>) -> bool {
    one.state == other.state
        && one.places.as_slice() == other.places.as_slice()
        && one.order.as_slice() == other.order.as_slice()
        && one.orders == other.orders
}

/// Whether two explorations have the same ends in the same order, the same numbers and the same notes.
fn is_same(one: &Explored<Counter>, other: &Explored<Counter>) -> bool {
    one.orders == other.orders
        && one.steps == other.steps
        && one.noted == other.noted
        && one.ends.len() == other.ends.len()
        && one
            .ends
            .iter()
            .zip(other.ends.iter())
            .all(|(one, other)| is_same_end(one, other))
}

/// Whether two explorations are answered the same.
fn are_same(
    one: &Result<Explored<Counter>, Stop>,
    other: &Result<Explored<Counter>, Stop>,
) -> bool {
    match (one, other) {
        (Ok(one), Ok(other)) => is_same(one, other),
        (Err(Stop::Breaks(one)), Err(Stop::Breaks(other))) => one.as_slice() == other.as_slice(),
        (Err(Stop::Most), Err(Stop::Most)) => true,
        _ => false,
    }
}

/// Whether some numbers of jobs answer a part of some blocks as one thread does.
fn jobs_agree<R: Threads + Sync>(
    rt: &R,
    alloc: Global,
    blocks: &[&[&[Line]]],
    limits: Limits,
    part: Part,
) -> Result<bool, AllocError> {
    let blocks = blocks_of(alloc, blocks)?;
    let start = Counter { count: 1 };
    let alone = explore_part(alloc, start, &blocks, limits, part);
    let mut agree = true;
    for jobs in [0, 1, 2, 3, 4, 9] {
        let found = explore_on(rt, alloc, start, &blocks, limits, part, jobs, &Nobody);
        agree = agree && are_same(&alone, &found);
    }
    Ok(agree)
}

// 381 places are behind 10 of 20 lines, so four jobs have a thread each; each place has the one sum
#[test]
fn four_jobs_answer_as_one(rt: HostRuntime) -> Result<(), Fail> {
    let lines = [Line::Add(1), Line::Add(2), Line::Add(3), Line::Add(4)];
    let tracks: &[&[Line]] = &[&lines, &lines, &lines, &lines, &lines];
    assert!(rt; jobs_agree(&rt, rt.alloc(), &[tracks], WIDE, Part::whole())?);
    let blocks = blocks_of(rt.alloc(), &[tracks])?;
    let start = Counter { count: 1 };
    let found = explore_on(
        &rt,
        rt.alloc(),
        start,
        &blocks,
        WIDE,
        Part::whole(),
        4,
        &Nobody,
    )?;
    assert!(rt; has(&found, 1, Some(305_540_235_000), 12_500));
    Ok(())
}

// states differ by the order of doubles, and by ways; a part has fewer
#[test]
fn jobs_merge_states_as_one_thread_does(rt: HostRuntime) -> Result<(), Fail> {
    let lines = [Line::Add(3), Line::Double, Line::Risk(2), Line::Clear];
    let short = [Line::Risk(1), Line::Add(5)];
    let tracks: &[&[Line]] = &[&lines, &lines, &lines, &short];
    let blocks: &[&[&[Line]]] = &[tracks, &[&short, &short]];
    assert!(rt; jobs_agree(&rt, rt.alloc(), blocks, WIDE, Part::whole())?);
    for number in 1..3usize {
        let Some(part) = Part::new(number, 2) else {
            return Ok(());
        };
        assert!(rt; jobs_agree(&rt, rt.alloc(), blocks, WIDE, part)?);
    }
    Ok(())
}

/// Lines whose count passes 1,000 where four adds come before four doubles.
const GROWING: [Line; 4] = [Line::Add(20), Line::Double, Line::Add(1), Line::Add(2)];

/// Whether some numbers of jobs answer five tracks of these lines as one thread does.
fn growing_agrees<R: Threads + Sync>(
    rt: &R,
    alloc: Global,
    limits: Limits,
) -> Result<bool, AllocError> {
    let tracks: &[&[Line]] = &[&GROWING, &GROWING, &GROWING, &GROWING, &GROWING];
    jobs_agree(rt, alloc, &[tracks], limits, Part::whole())
}

/// How many turns an order has that breaks an expectation of these tracks, if one does.
fn growing_break(alloc: Global) -> Option<usize> {
    let lines = GROWING;
    let tracks: &[&[Line]] = &[&lines, &lines, &lines, &lines, &lines];
    match explored(alloc, &[tracks], WIDE) {
        Err(Stop::Breaks(order)) => Some(order.len()),
        _ => None,
    }
}

// four adds and four doubles come to 81 · 16, so a break is 8 turns long
#[test]
fn jobs_share_the_lines_of_one_track(rt: HostRuntime) -> Result<(), Fail> {
    let lines = [Line::Add(3), Line::Double, Line::Risk(2)];
    let more = [Line::Risk(1), Line::Add(5), Line::Risk(7)];
    let tracks: &[&[Line]] = &[&lines, &lines, &more];
    let one: &[&[Line]] = &[&more];
    assert!(rt; jobs_agree(&rt, rt.alloc(), &[tracks, one], WIDE, Part::whole())?);
    Ok(())
}

#[test]
fn jobs_tell_the_break_that_one_thread_tells(rt: HostRuntime) -> Result<(), Fail> {
    assert!(rt; growing_break(rt.alloc()) == Some(8));
    assert!(rt; growing_agrees(&rt, rt.alloc(), WIDE)?);
    Ok(())
}

// a limit can be reached before the break
#[test]
fn jobs_meet_a_limit_of_lines_as_one_thread_does(rt: HostRuntime) -> Result<(), Fail> {
    for tenth in 1..10u64 {
        let limits = Limits {
            steps: 1000 * tenth,
            states: 16_384,
        };
        assert!(rt; growing_agrees(&rt, rt.alloc(), limits)?);
    }
    Ok(())
}

#[test]
fn jobs_meet_a_limit_of_states_as_one_thread_does(rt: HostRuntime) -> Result<(), Fail> {
    for states in [200, 400, 800] {
        let limits = Limits {
            steps: 100_000,
            states,
        };
        assert!(rt; growing_agrees(&rt, rt.alloc(), limits)?);
    }
    Ok(())
}

// 12,500 lines have to run, and the widest layer has 381 states
#[test]
fn jobs_have_the_limits_of_one_thread(rt: HostRuntime) -> Result<(), Fail> {
    let lines = [Line::Add(1), Line::Add(2), Line::Add(3), Line::Add(4)];
    let tracks: &[&[Line]] = &[&lines, &lines, &lines, &lines, &lines];
    let blocks = blocks_of(rt.alloc(), &[tracks])?;
    let start = Counter { count: 1 };
    for (steps, states, enough) in [
        (12_500, 381, true),
        (12_499, 381, false),
        (12_500, 380, false),
    ] {
        let limits = Limits { steps, states };
        let found = explore_on(
            &rt,
            rt.alloc(),
            start,
            &blocks,
            limits,
            Part::whole(),
            4,
            &Nobody,
        );
        assert!(rt; found.is_ok() == enough);
        assert!(rt; enough || matches!(found, Err(Stop::Most)));
    }
    Ok(())
}

// behind two lines in front there are the four places of a block with two tracks of a line; the last layer has one state
#[test]
fn a_watcher_is_told_how_far_it_is(rt: HostRuntime) -> Result<(), Fail> {
    let lines = [Line::Add(1), Line::Add(2)];
    let one = [Line::Add(3)];
    let other = [Line::Add(4)];
    let front: &[&[Line]] = &[&lines];
    let tracks: &[&[Line]] = &[&one, &other];
    let blocks = blocks_of(rt.alloc(), &[front, tracks])?;
    for jobs in [1, 4] {
        let notes = Notes {
            last: Cell::new(None),
            ends: Cell::new(0),
        };
        let start = Counter { count: 1 };
        let found = explore_on(
            &rt,
            rt.alloc(),
            start,
            &blocks,
            WIDE,
            Part::whole(),
            jobs,
            &notes,
        )?;
        let last = Progress {
            line: 4,
            lines: 4,
            states: 1,
            steps: 6,
        };
        assert!(rt; found.steps == 6 && notes.ends.get() == 1 && notes.last.get() == Some(last));
    }
    Ok(())
}

/// Lines that lead from 1 to 100 states, then to 109 by 1,000 runs, and then to 109 by as many.
const SPREADING: [Line; 3] = [Line::Spread(99), Line::Spread(9), Line::Add(1)];

/// Explores one track of these lines by some jobs.
fn spread_by<R: Threads + Sync, W: Watch>(
    rt: &R,
    alloc: Global,
    limits: Limits,
    jobs: usize,
    watch: &W,
) -> Result<Explored<Counter>, Stop> {
    let lines = SPREADING;
    let blocks = blocks_of(alloc, &[&[&lines]])?;
    let start = Counter { count: 1 };
    explore_on(
        rt,
        alloc,
        start,
        &blocks,
        limits,
        Part::whole(),
        jobs,
        watch,
    )
}

// counts of 1 to 100, and then of 1 to 109. From 100 states each of four jobs has a part of the one line, so that jobs come to
// the same states
#[test]
fn a_layer_has_as_many_states_as_the_limit(rt: HostRuntime) -> Result<(), Fail> {
    for jobs in [1, 2, 4] {
        let exact = Limits {
            steps: 1209,
            states: 109,
        };
        let found = spread_by(&rt, rt.alloc(), exact, jobs, &Nobody)?;
        assert!(rt; has(&found, 109, Some(1), 1209));
        let narrow = Limits {
            steps: 1209,
            states: 108,
        };
        assert!(rt;
            matches!(
                spread_by(&rt, rt.alloc(), narrow, jobs, &Nobody),
                Err(Stop::Most)
            )
        );
        let short = Limits {
            steps: 1208,
            states: 109,
        };
        assert!(rt;
            matches!(
                spread_by(&rt, rt.alloc(), short, jobs, &Nobody),
                Err(Stop::Most)
            )
        );
    }
    Ok(())
}

// counts of 1 to 100 behind the one line, and then each of them behind a line of either track: jobs come to different states
#[test]
fn a_layer_of_two_tracks_has_as_many_states_as_the_limit(rt: HostRuntime) -> Result<(), Fail> {
    let front: &[&[Line]] = &[&[Line::Spread(99)]];
    let tracks: &[&[Line]] = &[&[Line::Add(1)], &[Line::Add(2)]];
    let blocks = blocks_of(rt.alloc(), &[front, tracks])?;
    let start = Counter { count: 1 };
    for jobs in [1, 2, 4] {
        for (steps, states, enough) in [(500, 200, true), (500, 199, false), (499, 200, false)] {
            let limits = Limits { steps, states };
            let found = explore_on(
                &rt,
                rt.alloc(),
                start,
                &blocks,
                limits,
                Part::whole(),
                jobs,
                &Nobody,
            );
            assert!(rt; found.is_ok() == enough);
            assert!(rt; enough || matches!(found, Err(Stop::Most)));
        }
    }
    Ok(())
}

/// The progress at a line of three, with these numbers of states and steps.
fn moment(line: usize, states: usize, steps: u64) -> Progress {
    Progress {
        line,
        lines: 3,
        states,
        steps,
    }
}

// each of the first line's states leads to ten, nine of which the state before it led to as well
#[test]
fn one_thread_tells_its_progress_behind_each_node(rt: HostRuntime) -> Result<(), Fail> {
    let mut expected = Vec::new(rt.alloc());
    expected.push(moment(1, 100, 100))?;
    for node in 1..101usize {
        expected.push(moment(2, 9 + node, 100 + 10 * node as u64))?;
    }
    for node in 1..110usize {
        expected.push(moment(3, node, 1100 + node as u64))?;
    }
    let moments = Moments::new(expected);
    let found = spread_by(&rt, rt.alloc(), WIDE, 1, &moments)?;
    assert!(rt; found.steps == 1209 && moments.are_met());
    Ok(())
}

#[test]
fn jobs_tell_their_progress_behind_each_layer(rt: HostRuntime) -> Result<(), Fail> {
    let mut expected = Vec::new(rt.alloc());
    expected.push(moment(1, 100, 100))?;
    expected.push(moment(2, 109, 1100))?;
    expected.push(moment(3, 109, 1209))?;
    let moments = Moments::new(expected);
    let found = spread_by(&rt, rt.alloc(), WIDE, 4, &moments)?;
    assert!(rt; found.steps == 1209 && moments.are_met());
    Ok(())
}

// a layer may have no state, so it can't have the start
#[test]
fn a_limit_of_no_state_is_reached_at_the_start(rt: HostRuntime) -> Result<(), Fail> {
    let none = Limits {
        steps: 1,
        states: 0,
    };
    assert!(rt; matches!(explored(rt.alloc(), &[], none), Err(Stop::Most)));
    assert!(rt;
        matches!(
            explored(rt.alloc(), &[&[&[Line::Add(1)]]], none),
            Err(Stop::Most)
        )
    );
    let one = Limits {
        steps: 1,
        states: 1,
    };
    assert!(rt; explored(rt.alloc(), &[&[&[Line::Add(1)]]], one).is_ok());
    Ok(())
}

/// Whether these lines of an exploration are noted, by blocks, tracks and lines.
fn are_noted(found: &Explored<Counter>, expected: &[&[&[bool]]]) -> bool {
    found.noted.len() == expected.len()
        && found
            .noted
            .iter()
            .zip(expected)
            .all(|(block, expected)| are_noted_in(block, expected))
}

/// Whether these lines of a block are noted, by tracks and lines.
fn are_noted_in(block: &Vec<Vec<bool>>, expected: &[&[bool]]) -> bool {
    block.len() == expected.len()
        && block
            .iter()
            .zip(expected)
            .all(|(track, expected)| track.as_slice() == *expected)
}

// (1 + 1) * 2 = 4 in the order of tracks 1, 0, 2 alone: doubled first, 1 becomes 3
#[test]
fn a_line_that_one_order_notes_is_told(rt: HostRuntime) -> Result<(), Fail> {
    let found = explored(
        rt.alloc(),
        &[&[&[Line::Double], &[Line::Add(1)], &[Line::Flag(4)]]],
        WIDE,
    )?;
    assert!(rt; are_noted(&found, &[&[&[false], &[false], &[true]]]));
    Ok(())
}

// the counter is 1, 2 and 4 behind 0, 1 and 2 lines of the second track, and never 3
#[test]
fn each_line_of_a_track_is_told_by_itself(rt: HostRuntime) -> Result<(), Fail> {
    let found = explored(
        rt.alloc(),
        &[&[
            &[Line::Flag(2), Line::Flag(3), Line::Flag(4)],
            &[Line::Add(1), Line::Double],
        ]],
        WIDE,
    )?;
    assert!(rt; are_noted(&found, &[&[&[true, false, true], &[false, false]]]));
    Ok(())
}

// the last block begins at 3 or 4, and its one line adds 1
#[test]
fn lines_of_each_block_are_told(rt: HostRuntime) -> Result<(), Fail> {
    let found = explored(
        rt.alloc(),
        &[
            &[&[Line::Double, Line::Flag(4)], &[Line::Add(1)]],
            &[],
            &[
                &[Line::Flag(4), Line::Add(1)],
                &[Line::Flag(5)],
                &[Line::Flag(6)],
            ],
        ],
        WIDE,
    )?;
    assert!(rt;
        are_noted(
            &found,
            &[
                &[&[false, true], &[false]],
                &[],
                &[&[true, false], &[true], &[false]],
            ],
        )
    );
    Ok(())
}

// a risk is noted in way 1 alone
#[test]
fn a_line_that_one_way_notes_is_told(rt: HostRuntime) -> Result<(), Fail> {
    let found = explored(
        rt.alloc(),
        &[&[&[Line::Add(2), Line::Risk(3)], &[Line::Spread(4)]]],
        WIDE,
    )?;
    assert!(rt; are_noted(&found, &[&[&[false, true], &[false]]]));
    Ok(())
}

// the first turn of the one order that comes to 4 is of track 1
#[test]
fn a_part_tells_the_lines_that_its_orders_note(rt: HostRuntime) -> Result<(), Fail> {
    let blocks: &[&[&[Line]]] = &[&[&[Line::Double], &[Line::Add(1)], &[Line::Flag(4)]]];
    let first = part_explored(rt.alloc(), blocks, 1, 3)?;
    let second = part_explored(rt.alloc(), blocks, 2, 3)?;
    let third = part_explored(rt.alloc(), blocks, 3, 3)?;
    assert!(rt; are_noted(&first, &[&[&[false], &[false], &[false]]]));
    assert!(rt; are_noted(&second, &[&[&[false], &[false], &[true]]]));
    assert!(rt; are_noted(&third, &[&[&[false], &[false], &[false]]]));
    Ok(())
}

// one track has one order, which is of the first part
#[test]
fn a_part_without_an_order_notes_no_line(rt: HostRuntime) -> Result<(), Fail> {
    let blocks: &[&[&[Line]]] = &[&[&[Line::Flag(1), Line::Add(1)]], &[]];
    let first = part_explored(rt.alloc(), blocks, 1, 2)?;
    let second = part_explored(rt.alloc(), blocks, 2, 2)?;
    assert!(rt; are_noted(&first, &[&[&[true, false]], &[]]));
    assert!(rt; are_noted(&second, &[&[&[false, false]], &[]]));
    Ok(())
}

/// Explores blocks from a counter at 1, by a number of jobs.
fn explored_by<R: Threads + Sync>(
    rt: &R,
    alloc: Global,
    blocks: &[&[&[Line]]],
    jobs: usize,
) -> Result<Explored<Counter>, Stop> {
    let blocks = blocks_of(alloc, blocks)?;
    explore_on(
        rt,
        alloc,
        Counter { count: 1 },
        &blocks,
        WIDE,
        Part::whole(),
        jobs,
        &Nobody,
    )
}

// two spreads add 0 to 39 each: 25 is 1 and 24, 79 is 1 and 39 and 39, and 80 is too much
#[test]
fn jobs_tell_the_lines_that_any_of_them_notes(rt: HostRuntime) -> Result<(), Fail> {
    for jobs in [1, 2, 3, 4, 9] {
        let found = explored_by(
            &rt,
            rt.alloc(),
            &[&[
                &[Line::Spread(39), Line::Flag(25)],
                &[Line::Spread(39), Line::Flag(80)],
                &[Line::Flag(79)],
            ]],
            jobs,
        )?;
        assert!(rt; are_noted(&found, &[&[&[false, true], &[false, false], &[true]]]));
    }
    Ok(())
}

/// A node of a counter at these places of some tracks, reached by the first line of track 9. Where there are more or fewer
/// tracks it says that a limit was reached.
fn node_at(
    alloc: Global,
    count: u64,
    places: &[usize],
    tracks: &[Vec<Line>],
) -> Result<Node<Counter>, Stop>
    ensures { IfOk result (λ node. length node.places.items ≡ length tracks.now) }
{
    if places.len() != tracks.len() {
        return Err(Stop::Most);
    }
    let mut own = Vec::new(alloc);
    own.extend_from_slice(places)?;
    let order = first_turn(alloc)?;
    Ok(Node {
        state: Counter { count },
        places: own,
        order,
        orders: Some(1),
    })
}

/// An order of the first line of track 9.
fn first_turn(alloc: Global) -> Result<Vec<Turn>, AllocError> {
    let mut order = Vec::new(alloc);
    order.push(Turn { track: 9, way: 0 })?;
    Ok(order)
}

/// What is reached from a counter at these places of some tracks.
fn reached(
    alloc: Global,
    count: u64,
    places: &[usize],
    tracks: &[&[Line]],
    limits: Limits,
) -> Result<Vec<Node<Counter>>, Stop> {
    let tracks = block(alloc, tracks)?;
    let node = node_at(alloc, count, places, &tracks)?;
    let mut runner = node.state.runner(alloc)?;
    reach(alloc, node, &tracks, limits, &mut runner)
}

/// Whether nodes are at these counts and places, in this order, each behind as many turns as it has lines more.
fn are_at(nodes: &[Node<Counter>], expected: &[(u64, &[usize], usize)]) -> bool {
    if nodes.len() != expected.len() {
        return false;
    }
    let mut all = true;
    for index in 0..nodes.len() {
        let node = &nodes[index];
        let (count, places, turns) = expected[index];
        all = all
            && node.state.count == count
            && node.places.as_slice() == places
            && node.order.len() == turns.saturating_add(1);
    }
    all
}

// 5 doubled and 10 more are 20, and the other way round 30
#[test]
fn what_is_left_is_reached_in_each_order(rt: HostRuntime) -> Result<(), Fail> {
    let nodes = reached(
        rt.alloc(),
        5,
        &[1, 0],
        &[&[Line::Add(1), Line::Double], &[Line::Add(10)]],
        WIDE,
    )?;
    let expected: [(u64, &[usize], usize); 5] = [
        (5, &[1, 0], 0),
        (10, &[2, 0], 1),
        (15, &[1, 1], 1),
        (20, &[2, 1], 2),
        (30, &[2, 1], 2),
    ];
    assert!(rt; are_at(&nodes, &expected));
    Ok(())
}

// sums are the same in each order; a risk sets to 0 in its other way
#[test]
fn equal_nodes_are_reached_once_and_each_way_is(rt: HostRuntime) -> Result<(), Fail> {
    let sums = reached(
        rt.alloc(),
        0,
        &[0, 0],
        &[&[Line::Add(1)], &[Line::Add(2)]],
        WIDE,
    )?;
    let expected: [(u64, &[usize], usize); 4] = [
        (0, &[0, 0], 0),
        (1, &[1, 0], 1),
        (2, &[0, 1], 1),
        (3, &[1, 1], 2),
    ];
    assert!(rt; are_at(&sums, &expected));
    let risks = reached(rt.alloc(), 1, &[0], &[&[Line::Risk(3)]], WIDE)?;
    let expected: [(u64, &[usize], usize); 3] = [(1, &[0], 0), (4, &[1], 1), (0, &[1], 1)];
    assert!(rt; are_at(&risks, &expected));
    Ok(())
}

#[test]
fn where_nothing_is_left_the_node_is_reached(rt: HostRuntime) -> Result<(), Fail> {
    let nodes = reached(rt.alloc(), 7, &[1], &[&[Line::Clear]], WIDE)?;
    assert!(rt; are_at(&nodes, &[(7, &[1], 0)]));
    let none = reached(rt.alloc(), 7, &[], &[], WIDE)?;
    assert!(rt; are_at(&none, &[(7, &[], 0)]));
    Ok(())
}

// 999 and one more break, behind the turn of track 9
#[test]
fn a_break_is_told_behind_the_nodes_own_order(rt: HostRuntime) -> Result<(), Fail> {
    let broken = reached(rt.alloc(), 999, &[0, 0], &[&[], &[Line::Add(1)]], WIDE);
    assert!(rt; broken.is_err_and(|stop| breaks_by(&stop, &[9, 1])));
    Ok(())
}

// two lines lead to two states, by two steps, and each of these to one more by one step
#[test]
fn a_limit_is_met_behind_a_node(rt: HostRuntime) -> Result<(), Fail> {
    let lines: [&[Line]; 2] = [&[Line::Add(1)], &[Line::Add(2)]];
    for (steps, states, is_met) in [(4, 2, false), (3, 2, true), (4, 1, true)] {
        let nodes = reached(rt.alloc(), 0, &[0, 0], &lines, Limits { steps, states });
        assert!(rt; matches!(nodes, Err(Stop::Most)) == is_met);
    }
    Ok(())
}
