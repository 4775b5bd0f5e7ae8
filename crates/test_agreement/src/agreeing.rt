use crate::course::{BusRun, PlainRun, on_bus, on_plain, slots};
use crate::cutting::{Bits, PlacedCut, cuts_of};
use crate::faults::Fault;
use crate::script::{KNOWN, Script};
use i3c_base::{Answer, Cuts, Record, RoundReply, Served};
use i3c_bus::{Event, Framed, Reply};
use i3c_model::Choice;
use std::alloc::Global;

/// What drop-offs may leave open, in the order in which it is tried.
const CHOICES: [Choice; 3] = [Choice::Heard, Choice::Lost, Choice::Silent];

/// What was tried, and where the two machines disagree.
#[derive(Debug, Drop)]
pub(crate) struct Verdict {
    pub events: usize,
    pub cuts: usize,
    /// The number of cuts that left two questions open, which the plain machine's one choice can't both answer.
    pub twofold: usize,
    /// The number of events after which a byte differs that the definitions leave open.
    pub open: usize,
    pub disagreements: Vec<Disagreement>,
}

/// Where the machines disagree.
#[derive(Debug, Drop)]
pub(crate) enum Disagreement {
    /// At an event, with the script's own cuts.
    Event(usize),
    /// With this cut and no other.
    Cut(PlacedCut),
}

/// What has to be the same.
#[derive(Clone, Copy, PartialEq, Eq)]
enum Measure {
    /// All.
    Whole,
    /// All but bytes: if devices drive one together and one of them is lost, it may be any.
    ButBytes,
}

/// Whether the plain machine has the results of the bus. If on the bus a byte is torn and its device doesn't answer later in
/// the same frame, the plain machine may have the first alone.
fn agree(ran: &BusRun, plainly: &PlainRun, measure: Measure) -> bool {
    let (records, due) = (ran.records.as_slice(), plainly.plain.records());
    ran.seen == plainly.seen
        && records.len() == due.len()
        && records
            .iter()
            .zip(due)
            .all(|(record, other)| are_same(record, other, measure))
        && ran.replies.len() == plainly.replies.len()
        && ran
            .replies
            .iter()
            .zip(plainly.replies.as_slice())
            .all(|(reply, other)| answer_alike(reply, other, measure))
}

fn are_same(record: &Record, other: &Record, measure: Measure) -> bool {
    match measure {
        Measure::Whole => record == other,
        Measure::ButBytes => {
            record.slot == other.slot
                && record.number == other.number
                && record.at == other.at
                && record.byte.is_some() == other.byte.is_some()
        }
    }
}

fn answer_alike(reply: &Reply, other: &Reply, measure: Measure) -> bool {
    reply == other
        || is_twofold(reply) && is_torn(other)
        || measure == Measure::ButBytes && are_bytes(reply) && are_bytes(other)
}

fn are_bytes(reply: &Reply) -> bool {
    matches!(
        reply,
        Reply::Framed(Framed {
            answer: Answer::Bytes(_),
            ..
        })
    )
}

fn is_twofold(reply: &Reply) -> bool {
    matches!(
        reply,
        Reply::Framed(Framed {
            served: Served::Torn,
            answer: Answer::NoAnswer(_),
        })
    )
}

fn is_torn(reply: &Reply) -> bool {
    matches!(
        reply,
        Reply::Framed(Framed {
            served: Served::Torn,
            ..
        })
    )
}

/// Choices for all events: what is heard, is heard.
fn all_heard(alloc: Global, count: usize) -> Result<Vec<Choice>, Fault> {
    let mut choices = Vec::new(alloc);
    for _ in 0..count {
        choices.push(Choice::Heard)?;
    }
    Ok(choices)
}

/// The choice at an event with which the plain machine has the results of these runs.
fn choice_for(
    alloc: Global,
    script: &Script,
    choices: &mut [Choice],
    at: usize,
    ran: &[BusRun],
    measure: Measure,
) -> Result<Option<Choice>, Fault> {
    let _ = KNOWN;
    for choice in CHOICES {
        if let Some(chosen) = choices.get_mut(at) {
            *chosen = choice;
        }
        if all_agree(alloc, script, choices, ran, measure)? {
            return Ok(Some(choice));
        }
    }
    Ok(None)
}

/// Whether each of these runs, of the first events of the script, is one of the plain machine with these choices.
fn all_agree(
    alloc: Global,
    script: &Script,
    choices: &[Choice],
    ran: &[BusRun],
    measure: Measure,
) -> Result<bool, Fault> {
    for run in ran {
        let plainly = on_plain(alloc, script, choices, run.replies.len())?;
        if !agree(run, &plainly, measure) {
            return Ok(false);
        }
    }
    Ok(true)
}

fn has_cuts(event: &mut Event) -> bool {
    match cuts_of(event) {
        Some(cuts) => !cuts.is_empty(),
        None => false,
    }
}

/// Runs the script unchanged, and then each of its frames with each device cut at these bits.
pub(crate) fn judge(alloc: Global, mut script: Script, bits: Bits) -> Result<Verdict, Fault> {
    let mut verdict = Verdict {
        events: script.own,
        cuts: 0,
        twofold: 0,
        open: 0,
        disagreements: Vec::new(alloc),
    };
    if let Some(at) = as_it_stands(alloc, &mut script)? {
        verdict.disagreements.push(Disagreement::Event(at))?;
    }
    clear(&mut script);
    each_frame(alloc, &mut script, bits, &mut verdict)?;
    Ok(verdict)
}

/// The unchanged script: the first event after which the machines disagree, whatever is chosen at it.
fn as_it_stands(alloc: Global, script: &mut Script) -> Result<Option<usize>, Fault> {
    let _ = KNOWN;
    let count = script.events.len();
    let mut choices = all_heard(alloc, count)?;
    for at in 0..count {
        let is_cut = match script.events.get_mut(at) {
            Some(event) => has_cuts(event),
            None => false,
        };
        // what isn't cut is seen with the next that is, or at the end
        let is_seen = is_cut || at + 1 == count;
        if is_seen && differs_at(alloc, script, &mut choices, at)? {
            return Ok(Some(at));
        }
    }
    Ok(None)
}

/// Whether the machines disagree after an event, whatever is chosen at it.
fn differs_at(
    alloc: Global,
    script: &Script,
    choices: &mut [Choice],
    at: usize,
) -> Result<bool, Fault> {
    let ran = [on_bus(alloc, script, at.saturating_add(1))?];
    let choice = choice_for(alloc, script, choices, at, &ran, Measure::Whole)?;
    Ok(choice.is_none())
}

/// Takes the script's own cuts away.
fn clear(script: &mut Script) {
    for event in script.events.iter_mut() {
        if let Some(cuts) = cuts_of(event) {
            *cuts = Cuts::new();
        }
    }
}

fn each_frame(
    alloc: Global,
    script: &mut Script,
    bits: Bits,
    verdict: &mut Verdict,
) -> Result<(), Fault> {
    let _ = KNOWN;
    let heard = all_heard(alloc, script.events.len())?;
    for at in 0..script.own {
        one_frame(alloc, script, &heard, at, bits, verdict)?;
    }
    Ok(())
}

fn one_frame(
    alloc: Global,
    script: &mut Script,
    heard: &[Choice],
    at: usize,
    bits: Bits,
    verdict: &mut Verdict,
) -> Result<(), Fault> {
    let before = on_plain(alloc, script, heard, at)?;
    match past(script, at, known(script, &before)) {
        Some(last) => each_slot(alloc, script, &before, at, last, bits, verdict),
        None => Ok(()),
    }
}

fn each_slot(
    alloc: Global,
    script: &mut Script,
    before: &PlainRun,
    at: usize,
    last: u16,
    bits: Bits,
    verdict: &mut Verdict,
) -> Result<(), Fault> {
    for slot in slots() {
        if before.plain.present(slot) {
            let shared = before.seen.shares_address(slot);
            let place = PlacedCut {
                at,
                slot,
                bit: 0,
                shared,
            };
            each_bit(alloc, script, place, last, bits, verdict)?;
        }
    }
    Ok(())
}

fn each_bit(
    alloc: Global,
    script: &mut Script,
    place: PlacedCut,
    last: u16,
    bits: Bits,
    verdict: &mut Verdict,
) -> Result<(), Fault> {
    for bit in 0..=last {
        if bits.has(place.slot, bit) {
            one_cut(alloc, script, PlacedCut { bit, ..place }, verdict)?;
        }
    }
    Ok(())
}

/// One cut, which is taken back: with one of the choices both have the same results after its frame, and at the end.
fn one_cut(
    alloc: Global,
    script: &mut Script,
    place: PlacedCut,
    verdict: &mut Verdict,
) -> Result<(), Fault> {
    let _ = KNOWN;
    put(script, place.at, place.cuts());
    let ran = [
        on_bus(alloc, script, place.at.saturating_add(1))?,
        on_bus(alloc, script, script.events.len())?,
    ];
    judge_cut(alloc, script, place, &ran, verdict)?;
    put(script, place.at, Cuts::new());
    Ok(())
}

/// Counts a cut, and what no choice of the plain machine can answer of the runs with it.
fn judge_cut(
    alloc: Global,
    script: &Script,
    place: PlacedCut,
    ran: &[BusRun],
    verdict: &mut Verdict,
) -> Result<(), Fault> {
    let _ = KNOWN;
    verdict.cuts = verdict.cuts.saturating_add(1);
    if ran.first().is_some_and(|run| ends_twofold(run)) {
        verdict.twofold = verdict.twofold.saturating_add(1);
    }
    if is_chosen(alloc, script, place.at, ran, Measure::Whole)? {
        return Ok(());
    }
    if place.shared && is_chosen(alloc, script, place.at, ran, Measure::ButBytes)? {
        verdict.open = verdict.open.saturating_add(1);
        return Ok(());
    }
    verdict.disagreements.push(Disagreement::Cut(place))?;
    Ok(())
}

/// Whether one of the choices at an event makes the plain machine agree with these runs, with the choice `Heard` elsewhere.
fn is_chosen(
    alloc: Global,
    script: &Script,
    at: usize,
    ran: &[BusRun],
    measure: Measure,
) -> Result<bool, Fault> {
    let _ = KNOWN;
    let mut choices = all_heard(alloc, script.events.len())?;
    Ok(choice_for(alloc, script, &mut choices, at, ran, measure)?.is_some())
}

/// Whether the last reply of a run leaves two questions open.
fn ends_twofold(run: &BusRun) -> bool {
    run.replies.last().is_some_and(|reply| is_twofold(reply))
}

/// Gives an event these cuts.
fn put(script: &mut Script, at: usize, cuts: Cuts) {
    if let Some(event) = script.events.get_mut(at) {
        if let Some(place) = cuts_of(event) {
            *place = cuts;
        }
    }
}

/// How many addresses may be known by then: the main device's, the legacy targets', and those that were given.
fn known(script: &Script, before: &PlainRun) -> usize {
    let given = script
        .events
        .iter()
        .zip(before.replies.as_slice())
        .filter(|happened| is_giving(happened.0, happened.1))
        .count();
    given
        .saturating_add(script.legacies.len())
        .saturating_add(1)
}

/// Whether an event may have given an address that wasn't given before.
fn is_giving(event: &Event, reply: &Reply) -> bool {
    matches!(event, Event::SetStatic(..)) || matches!(reply, Reply::Round(RoundReply::Assigned(..)))
}

/// The bit past the last one that the frame of an index may send, if the event is one, where this number of addresses is
/// known.
fn past(script: &Script, at: usize, addresses: usize) -> Option<u16> {
    match script.events.get(at)? {
        Event::Serve(..) => Some(10),
        Event::Enec(None, ..) | Event::Disec(None, ..) | Event::HandOver(..) => Some(37),
        Event::Enec(Some(_), ..)
        | Event::Disec(Some(_), ..)
        | Event::SetStatic(..)
        | Event::SetNew(..) => Some(46),
        Event::SetLength(_, _, None, ..) => Some(46),
        Event::SetLength(_, _, Some(_), ..) => Some(55),
        Event::Reset(..) => Some(28),
        Event::SendList(..) => Some((37 + 36 * addresses.min(108)) as u16),
        Event::ReadFrom(..) => Some(172),
        Event::Get(..) => Some(91),
        Event::WriteTo(_, bytes, ..) => Some((28 + 9 * bytes.len()) as u16),
        Event::OpenDaa(_) => Some(19),
        Event::Round(_) => Some(74),
        _ => None,
    }
}
