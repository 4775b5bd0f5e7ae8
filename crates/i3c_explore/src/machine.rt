ghost use Rattle.std.specs.Prelude.{◌≡◌, ◌<◌, ◌≤◌, ◌^◌, ℕ, IfOk, IsTrue, OnOk};
ghost use Rattle.i3c_explore.specs.declared.ran.Ran.{Ran as RanValue};

use crate::ran::Ran;
use std::alloc::{AllocError, Global};

/// A machine that lines run on. A line can go several ways: a frame, for one, in which a device loses power at a bit.
pub trait Machine: Sized + Drop {
    /// A line.
    type Line;

    /// Runs lines, one after another, and is in the state that the last one led to.
    type Runner: Drop;

    /// The state that a runner is in.
    ghost shown: { Self.Runner → Self };

    /// What a line can lead to, in a way.
    ghost steps: { Self → Self.Line → ℕ → Self → Type 0 };

    /// The last way to try of a line.
    ghost last: { Self → Self.Line → ℕ };

    /// A line breaks an expectation, in a way.
    ghost breaks: { Self → Self.Line → ℕ → Type 0 };

    /// A line can be noted, in a way.
    ghost notes: { Self → Self.Line → ℕ → Type 0 };

    /// A line can run without a note, and break nothing, in a way.
    ghost quiet: { Self → Self.Line → ℕ → Type 0 };

    /// What a runner remembers of its last line is true of this state, from which that line was run. A machine whose
    /// runners remember nothing has ⊤.
    ghost near: { Self.Runner → Self → Type 0 };

    /// The last way to try, below 4,294,967,296. A later way leads to whatever some way up to this one leads to, and is
    /// quiet if that one is.
    fn last_way(&self, line: &Self::Line) -> usize
        ensures way { result ≡ last self.now line.now }
        ensures small { result < 2 ^ 32 }
        ensures last { (way : ℕ) → (tried : ℕ) × (tried ≤ result) × ((new : Self) → steps self.now line.now tried new → steps self.now line.now way new) × (quiet self.now line.now tried → quiet self.now line.now way) };

    /// A runner, in this state.
    fn runner(&self, alloc: Global) -> Result<Self::Runner, AllocError>
        ensures { IfOk result (λ runner. shown runner ≡ self.now) };

    /// Runs a line from this state on a runner, whatever state that is in. `again` says that the line before was run from
    /// this state too. Answers what came of it.
    fn run(
        &self,
        alloc: Global,
        line: &Self::Line,
        way: usize,
        again: bool,
        runner: &mut Self::Runner,
    ) -> Result<Ran, AllocError>
        requires again { IsTrue again → near runner.old self.now }
        ensures leads { IfOk result (λ ran. (ran ≡ RanValue.Broken → ⊥) → steps self.now line.now way (shown runner.new)) }
        ensures broken { IfOk result (λ ran. ran ≡ RanValue.Broken → breaks self.now line.now way) }
        ensures noted { IfOk result (λ ran. ran ≡ RanValue.Noted → notes self.now line.now way) }
        ensures quiet { IfOk result (λ ran. ran ≡ RanValue.Held → quiet self.now line.now way) }
        ensures near { OnOk result (near runner.new self.now) };

    /// The state that a runner is in. It takes the room of a spare one, if there is one.
    fn kept(alloc: Global, runner: &Self::Runner, spare: Option<Self>) -> Result<Self, AllocError>
        ensures { IfOk result (λ state. state ≡ shown runner.now) };

    /// Whether a runner is in this state.
    fn is_of(&self, runner: &Self::Runner) -> bool
        ensures { IsTrue result → self.now ≡ shown runner.now };

    /// Whether two states are equal.
    fn is_same(&self, other: &Self) -> bool
        ensures { IsTrue result → self.now ≡ other.now };

    /// A hash of the state that a runner is in. Equal states with different hashes are explored separately, which costs
    /// time and can tell one end as two.
    fn hash(runner: &Self::Runner) -> u64;
}
