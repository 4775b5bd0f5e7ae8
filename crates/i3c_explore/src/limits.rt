ghost use Rattle.std.specs.Prelude.{◌≡◌, ◌+◌, ◌<◌, IsTrue, ◌↔◌};

/// What an exploration may still cost.
#[derive(Clone, Copy, Debug, PartialEq, Eq)]
pub struct Limits {
    /// The number of lines that may be run.
    pub steps: u64,
    /// The number of states that a layer may have. The first one has the start.
    pub states: usize,
}

impl Limits {
    /// Takes one step, and tells whether one was left.
    pub(crate) fn step(&mut self) -> bool
        ensures left { IsTrue result ↔ 0 < self.old.steps }
        ensures states { self.new.states ≡ self.old.states }
        ensures taken { IsTrue result → self.new.steps + 1 ≡ self.old.steps }
    {
        if self.steps == 0 {
            return false;
        }
        self.steps -= 1;
        true
    }
}
