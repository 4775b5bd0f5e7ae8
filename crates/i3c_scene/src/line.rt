ghost use Rattle.std.specs.Prelude.{◌≡◌};
ghost use Rattle.i3c_scene.specs.Trying.{is_expected, is_expected_in};

use crate::risk::Risk;
use i3c_facts::Facts;
use i3c_lines::Command;

/// What is expected behind a line.
#[derive(Drop)]
pub struct Expectation {
    /// The number of its line in the file, from 1 on.
    pub number: u64,
    /// Whether it is expected of each line of a block, and not of this line alone.
    pub lasts: bool,
    /// What has to hold.
    pub facts: Facts,
}

/// A line of an exploration, with what is expected behind it.
#[derive(Drop)]
pub struct Line {
    /// Its number in the file, from 1 on.
    pub number: u64,
    /// Its command. A line without one does nothing: what is expected there is expected of each state.
    pub command: Option<Command>,
    /// The devices that may lose power at any bit of the line's frame.
    pub risk: Risk,
    /// What is expected.
    pub expectations: Vec<Expectation>,
}

impl Expectation {
    ghost use Rattle.std.specs.Prelude.{false, true};

    /// What is expected of one line alone, by the line of this number.
    pub fn of_line(number: u64, facts: Facts) -> Expectation
        ensures { result ≡ record { number = number; lasts = false; facts = facts } }
    {
        Expectation {
            number,
            lasts: false,
            facts,
        }
    }

    /// What is expected of each line of a block, by the line of this number.
    pub fn lasting(number: u64, facts: Facts) -> Expectation
        ensures { result ≡ record { number = number; lasts = true; facts = facts } }
    {
        Expectation {
            number,
            lasts: true,
            facts,
        }
    }
}

impl Line {
    /// Whether something is expected of this line itself, and not only of each line of its block.
    pub(crate) fn is_expected(&self) -> bool
        ensures { result ≡ is_expected self.now }
    {
        is_expected_in(self.expectations.as_slice())
    }
}

/// Whether one of these is expected of one line alone.
fn is_expected_in(expectations: &[Expectation]) -> bool
    ensures { result ≡ is_expected_in expectations.now }
{
    for index in 0..expectations.len() {
        if !expectations[index].lasts {
            return true;
        }
    }
    false
}
