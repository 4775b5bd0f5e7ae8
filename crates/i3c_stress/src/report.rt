ghost use Rattle.std.specs.Prelude.{◌≡◌, ◌+◌, ◌^◌, ◌<◌, ◌≤◌, ◌↔◌, ℕ, length, slice_index, sum, IfOk, IsOk, MatchOption};
ghost use Rattle.i3c_base.specs.declared.range.TheConstants.{SLOTS};
ghost use Rattle.i3c_stress.specs.Agreeing.{Agree};
ghost use Rattle.i3c_stress.specs.Counting.{accepted_in, is_accepted, is_raise, is_raised, is_refused, refused_in};
ghost use Rattle.i3c_stress.specs.Devices.{raises_at};

use crate::devices::{count_raise, no_raises, raising};
use i3c_base::SLOTS;
use i3c_shared::{Closed, Entry};
use i3c_step::{Event, Reply};
use thiserror::Error;

/// The raises that were tried: over the slots of the devices, how many were posted, turned away by the bus, recorded, and
/// waited at the end.
#[derive(Clone, Copy, Debug, PartialEq, Eq, Drop)]
pub struct StressReport {
    /// The tries: as many as devices times posts.
    pub tried: u64,
    /// The tries that were taken into a ring.
    pub posted: u64,
    /// The raises that the bus refused.
    pub turned_away: u64,
    /// The records of the devices.
    pub recorded: u64,
    /// The interrupts that wait at the end.
    pub waiting: u64,
}

/// Why there is no report.
#[derive(Clone, Copy, Debug, PartialEq, Eq, Drop, Error)]
pub enum StressFault {
    /// There was no memory, or no thread could be started.
    #[error("out of memory")]
    Memory,
    /// The bus refused a setup, a slot or a call of this run, as no bus without other users does, or its counts disagree.
    #[error("not balanced")]
    NotBalanced,
}

/// What a closed bus says of the devices' raises.
#[derive(Clone, Copy)]
pub(crate) struct Counted {
    accepted: u64,
    refused: u64,
    recorded: u64,
    waiting: u64,
    pub by_slot: [u64; SLOTS],
}

/// The report, where the counts agree.
pub(crate) fn report(tried: u64, posted: u64, counted: Counted) -> Result<StressReport, StressFault>
    ensures agreed { IsOk result ↔ Agree tried posted counted }
    ensures tried { IfOk result (λ r. r.tried ≡ tried) }
    ensures posted { IfOk result (λ r. r.posted ≡ posted) }
    ensures turned_away { IfOk result (λ r. r.turned_away ≡ counted.refused) }
    ensures recorded { IfOk result (λ r. r.recorded ≡ counted.recorded) }
    ensures waiting { IfOk result (λ r. r.waiting ≡ counted.waiting) }
    ensures within { IfOk result (λ r. r.posted ≤ r.tried) }
    ensures balanced { IfOk result (λ r. r.posted ≡ r.turned_away + r.recorded + r.waiting) }
    ensures taken { IfOk result (λ r. r.posted ≡ counted.accepted + counted.refused) }
{
    let Counted {
        accepted,
        refused,
        recorded,
        waiting,
        by_slot: _,
    } = counted;
    let taken = accepted.checked_add(refused);
    let kept = recorded.checked_add(waiting);
    if posted > tried || taken != Some(posted) || kept != Some(accepted) {
        return Err(StressFault::NotBalanced);
    }
    Ok(StressReport {
        tried,
        posted,
        turned_away: refused,
        recorded,
        waiting,
    })
}

/// Counts the raises of a closed bus's run by their replies, its records, and the interrupts that wait.
pub(crate) fn count(closed: &Closed) -> Result<Counted, StressFault>
    ensures accepted { IfOk result (λ c. c.accepted ≡ accepted_in closed.now.run.entries) }
    ensures refused { IfOk result (λ c. c.refused ≡ refused_in closed.now.run.entries) }
    ensures recorded { IfOk result (λ c. c.recorded ≡ length closed.now.records) }
    ensures waiting { IfOk result (λ c. c.waiting ≡ sum closed.now.waiting) }
    ensures by_slot { IfOk result (λ c. (slot : ℕ) → slot < SLOTS → slice_index c.by_slot slot ≡ raises_at slot closed.now.run.entries) }
{
    let mut accepted = 0u64;
    let mut refused = 0u64;
    let mut by_slot = no_raises();
    for place in 0..closed.run.len() {
        let Ok(Some(entry)) = closed.run.get(place) else {
            return Err(StressFault::Memory);
        };
        accepted += u64::from(is_accepted(&entry));
        refused += u64::from(is_refused(&entry));
        count_raise(&mut by_slot, raising(&entry.event));
    }
    let Some(waiting) = total(&closed.waiting) else {
        return Err(StressFault::NotBalanced);
    };
    Ok(Counted {
        accepted,
        refused,
        recorded: closed.records.as_slice().len() as u64,
        waiting,
        by_slot,
    })
}

/// The sum of these numbers, where it fits.
fn total(numbers: &[usize]) -> Option<u64>
    ensures { MatchOption result (2 ^ 64 ≤ sum numbers.now) (λ found. found ≡ sum numbers.now) }
{
    let mut total = 0u64;
    for number in numbers {
        total = total.checked_add(*number as u64)?;
    }
    Some(total)
}

/// Whether an entry is an accepted raise.
fn is_accepted(entry: &Entry) -> bool
    ensures { result ≡ is_accepted entry.now }
{
    is_raise(&entry.event) && is_raised(&entry.reply)
}

/// Whether an entry is a refused raise.
fn is_refused(entry: &Entry) -> bool
    ensures { result ≡ is_refused entry.now }
{
    is_raise(&entry.event) && !is_raised(&entry.reply)
}

/// Whether an event is a raise.
fn is_raise(event: &Event) -> bool
    ensures { result ≡ is_raise event.now }
{
    matches!(event, Event::Raise(_, _))
}

/// Whether a reply accepts a raise.
fn is_raised(reply: &Reply) -> bool
    ensures { result ≡ is_raised reply.now }
{
    matches!(reply, Reply::Raised(_))
}
