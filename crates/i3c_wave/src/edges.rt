ghost use Rattle.std.specs.Prelude.{◌≡◌};
ghost use Rattle.i3c_wave.specs.Edges.{bit_heard, condition};

use crate::levels::Level;

/// What a watcher of the lines hears.
#[derive(Clone, Copy)]
pub enum Mark {
    /// START or repeated START: SDA falls while SCL is high (I3C Basic 5.1.2).
    Start,
    /// STOP: SDA rises while SCL is high.
    Stop,
    /// A bit: SDA keeps it while SCL is high, and SCL falls.
    Bit(bool),
}

/// A watcher of the lines' edges: the level of the lines, and the bit that SDA has kept since SCL rose, if it has.
#[derive(Clone, Copy, Drop)]
pub struct Edges {
    pub level: Level,
    pub bit: Option<bool>,
}

impl Edges {
    ghost use Rattle.std.specs.Prelude.{◌≡◌};
    ghost use Rattle.i3c_wave.specs.Edges.{edges_after, free_lines, kept_bit, mark_at};

    /// On a free bus.
    pub fn new() -> Edges
        ensures { result ≡ free_lines }
    {
        let level = Level {
            scl: true,
            sda: true,
        };
        Edges { level, bit: None }
    }

    /// What is heard where the lines come to a level. A bit is heard where SCL falls, since START and STOP begin as one.
    pub fn hear(&mut self, level: Level) -> Option<Mark>
        ensures mark { result ≡ mark_at self.old level }
        ensures edges { self.new ≡ edges_after self.old level }
    {
        let mark = self.mark_at(level);
        self.bit = self.kept_bit(level);
        self.level = level;
        mark
    }

    /// What is heard there.
    fn mark_at(&self, level: Level) -> Option<Mark>
        ensures { result ≡ mark_at self.now level }
    {
        match (self.level.scl, level.scl) {
            (true, true) => condition(self.level.sda, level.sda),
            (true, false) => bit_heard(self.bit),
            (false, true) | (false, false) => None,
        }
    }

    /// The bit that SDA has kept since SCL rose, if it has.
    fn kept_bit(&self, level: Level) -> Option<bool>
        ensures { result ≡ kept_bit self.now level }
    {
        match (self.level.scl, level.scl) {
            (true, true) if self.level.sda == level.sda => self.bit,
            (false, true) => Some(level.sda),
            (true, true) | (true, false) | (false, false) => None,
        }
    }
}

/// What SDA means that changes while SCL is high.
fn condition(old: bool, new: bool) -> Option<Mark>
    ensures { result ≡ condition old new }
{
    match (old, new) {
        (true, false) => Some(Mark::Start),
        (false, true) => Some(Mark::Stop),
        (true, true) | (false, false) => None,
    }
}

/// A bit that was kept until SCL fell.
fn bit_heard(bit: Option<bool>) -> Option<Mark>
    ensures { result ≡ bit_heard bit }
{
    match bit {
        Some(bit) => Some(Mark::Bit(bit)),
        None => None,
    }
}
