ghost use Rattle.std.specs.Prelude.{◌≡◌, ◌≤◌, ◌^◌, ◌↔◌, IfOk, IsTrue, MatchOption};
ghost use Rattle.test_explore.specs.Counters.{IsNotable, counted as counted_as};

use i3c_explore::{Machine, Ran};
use std::alloc::{AllocError, Global};

/// A counter below 1000.
#[derive(Clone, Copy, Debug, PartialEq, Eq)]
pub struct Counter {
    /// What it counts.
    pub count: u64,
}

/// A line, which changes the counter. It breaks an expectation where the counter comes to 1000. A `Risk` is noted in each
/// way but 0.
#[derive(Clone, Copy, Debug, PartialEq, Eq)]
pub enum Line {
    /// Adds a number.
    Add(u8),
    /// Doubles it.
    Double,
    /// Sets it to 0.
    Clear,
    /// Adds a number in way 0, and sets it to 0 in each other way.
    Risk(u8),
    /// Adds the way's number, up to this one.
    Spread(u8),
    /// Changes nothing. It is noted where the counter is at this number.
    Flag(u8),
}

/// The counter after a line.
fn counted(count: u64, line: &Line, way: usize) -> Option<u64>
    ensures { MatchOption result (2 ^ 64 ≤ counted_as count line.now way) (λ n. n ≡ counted_as count line.now way) }
{
    match line {
        Line::Add(more) => count.checked_add(u64::from(*more)),
        Line::Double => count.checked_mul(2),
        Line::Clear => Some(0),
        Line::Risk(more) => {
            if way > 0 {
                Some(0)
            } else {
                count.checked_add(u64::from(*more))
            }
        }
        Line::Spread(most) => count.checked_add(way.min(usize::from(*most)) as u64),
        Line::Flag(_) => Some(count),
    }
}

/// Whether a line is noted.
fn is_noted(count: u64, line: &Line, way: usize) -> bool
    ensures { IsTrue result ↔ IsNotable count line.now way }
{
    match line {
        Line::Risk(_) => way > 0,
        Line::Flag(at) => count == u64::from(*at),
        Line::Add(_) | Line::Double | Line::Clear | Line::Spread(_) => false,
    }
}

impl Machine for Counter {
    ghost use Rattle.std.specs.Prelude.{⊤};
    ghost use Rattle.test_explore.specs.Counters.{Counts, GoesQuietly, IsNotable, Overflows, last_of};

    type Line = Line;

    type Runner = Counter;

    ghost shown = { λ counter. counter };

    ghost steps = { Counts };

    ghost last = { last_of };

    ghost breaks = { Overflows };

    ghost notes = { λ counter line way. IsNotable counter.count line way };

    ghost quiet = { GoesQuietly };

    ghost near = { λ runner counter. ⊤ };

    fn last_way(&self, line: &Line) -> usize {
        match line {
            Line::Risk(_) => 1,
            Line::Spread(most) => usize::from(*most),
            Line::Add(_) | Line::Double | Line::Clear | Line::Flag(_) => 0,
        }
    }

    fn runner(&self, _alloc: Global) -> Result<Counter, AllocError> {
        Ok(*self)
    }

    fn run(
        &self,
        _alloc: Global,
        line: &Line,
        way: usize,
        _again: bool,
        runner: &mut Counter,
    ) -> Result<Ran, AllocError> {
        match counted(self.count, line, way) {
            Some(count) if count < 1000 => {
                runner.count = count;
                Ok(if is_noted(self.count, line, way) {
                    Ran::Noted
                } else {
                    Ran::Held
                })
            }
            _ => Ok(Ran::Broken),
        }
    }

    fn kept(
        _alloc: Global,
        runner: &Counter,
        _spare: Option<Counter>,
    ) -> Result<Counter, AllocError>
        ensures { IfOk result (λ state. state ≡ runner.now) }
    {
        Ok(*runner)
    }

    fn is_of(&self, runner: &Counter) -> bool {
        self.count == runner.count
    }

    fn is_same(&self, other: &Counter) -> bool {
        self.count == other.count
    }

    fn hash(runner: &Counter) -> u64 {
        runner.count
    }
}
