ghost use Rattle.std.specs.Prelude.{◌≡◌, ◌++◌, decimal, OnOk};
ghost use Rattle.i3c_wave.specs.Timescales.{instant_text, magnitude_of, scaled, setup_of, unit_of, unit_setup, unit_text, zeros};

use crate::dump_word::is_word;
use i3c_text::Text;
use std::alloc::AllocError;

/// The setup time of push-pull data, 3 ns (I3C Basic 6.2), in units of 1 fs, 1 ps and 1 ns, and one unit of a longer one.
const FEMTOSECONDS: u64 = 3_000_000;

const PICOSECONDS: u64 = 3_000;

const NANOSECONDS: u64 = 3;

const LONGER: u64 = 1;

/// The number of a timescale's units.
#[derive(Clone, Copy, Debug, PartialEq, Eq)]
pub enum Magnitude {
    One,
    Ten,
    Hundred,
}

/// The unit of a timescale.
#[derive(Clone, Copy, Debug, PartialEq, Eq)]
pub enum Unit {
    Seconds,
    Milliseconds,
    Microseconds,
    Nanoseconds,
    Picoseconds,
    Femtoseconds,
}

/// What a capture counts its times in: 1, 10 or 100 of a unit.
#[derive(Clone, Copy, Debug, PartialEq, Eq)]
pub struct Timescale {
    pub magnitude: Magnitude,
    pub unit: Unit,
}

/// A time of a capture, counted in its timescale.
#[derive(Clone, Copy, Debug, PartialEq, Eq)]
pub struct Instant {
    pub time: u64,
    pub scale: Timescale,
}

impl Timescale {
    ghost use Rattle.std.specs.Prelude.{◌≡◌};
    ghost use Rattle.i3c_wave.specs.Timescales.{setup_of};

    /// The setup time of push-pull data, 3 ns, rounded up to whole units: one at least.
    pub fn setup(self) -> u64
        ensures { result ≡ setup_of self }
    {
        scaled(unit_setup(self.unit), self.magnitude)
    }
}

impl Instant {
    ghost use Rattle.std.specs.Prelude.{◌≡◌, ◌++◌, OnOk};
    ghost use Rattle.i3c_wave.specs.Timescales.{instant_text};

    /// Appends its text, in the timescale's unit: `89660 ns`.
    pub fn push(self, text: &mut Text) -> Result<(), AllocError>
        ensures { OnOk result (text.new ≡ text.old ++ instant_text self) }
    {
        text.push_decimal(self.time)?;
        text.push(zeros(self.scale.magnitude))?;
        text.push(unit_text(self.scale.unit))
    }
}

/// The magnitude of some digits.
pub(crate) fn magnitude_of(digits: &[u8]) -> Option<Magnitude>
    ensures { result ≡ magnitude_of digits.now }
{
    if is_word(digits, b"1") {
        Some(Magnitude::One)
    } else if is_word(digits, b"10") {
        Some(Magnitude::Ten)
    } else if is_word(digits, b"100") {
        Some(Magnitude::Hundred)
    } else {
        None
    }
}

/// The unit of a word.
pub(crate) fn unit_of(word: &[u8]) -> Option<Unit>
    ensures { result ≡ unit_of word.now }
{
    if is_word(word, b"ns") {
        Some(Unit::Nanoseconds)
    } else if is_word(word, b"ps") {
        Some(Unit::Picoseconds)
    } else if is_word(word, b"fs") {
        Some(Unit::Femtoseconds)
    } else if is_word(word, b"us") {
        Some(Unit::Microseconds)
    } else if is_word(word, b"ms") {
        Some(Unit::Milliseconds)
    } else if is_word(word, b"s") {
        Some(Unit::Seconds)
    } else {
        None
    }
}

/// The setup time in a unit, rounded up.
fn unit_setup(unit: Unit) -> u64
    ensures { result ≡ unit_setup unit }
{
    match unit {
        Unit::Femtoseconds => FEMTOSECONDS,
        Unit::Picoseconds => PICOSECONDS,
        Unit::Nanoseconds => NANOSECONDS,
        Unit::Microseconds | Unit::Milliseconds | Unit::Seconds => LONGER,
    }
}

/// The same in one, ten or a hundred of them: one at least.
fn scaled(setup: u64, magnitude: Magnitude) -> u64
    ensures { result ≡ scaled setup magnitude }
{
    match magnitude {
        Magnitude::One => setup,
        Magnitude::Ten => (setup / 10).max(1),
        Magnitude::Hundred => (setup / 100).max(1),
    }
}

/// The zeros that a number of tens or hundreds has behind it.
fn zeros(magnitude: Magnitude) -> &'static [u8]
    ensures { result.now ≡ zeros magnitude }
{
    match magnitude {
        Magnitude::One => b"",
        Magnitude::Ten => b"0",
        Magnitude::Hundred => b"00",
    }
}

/// The name of a unit behind a number.
fn unit_text(unit: Unit) -> &'static [u8]
    ensures { result.now ≡ unit_text unit }
{
    match unit {
        Unit::Seconds => b" s",
        Unit::Milliseconds => b" ms",
        Unit::Microseconds => b" us",
        Unit::Nanoseconds => b" ns",
        Unit::Picoseconds => b" ps",
        Unit::Femtoseconds => b" fs",
    }
}
