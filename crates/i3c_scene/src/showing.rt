ghost use Rattle.std.specs.Prelude.{◌≡◌, ◌++◌, ℕ, List, IfOk, OnOk};
ghost use Rattle.i3c_scene.specs.Shown.{shown_text};
ghost use Rattle.i3c_scene.specs.Unmet.{LineTells};

use crate::line::{Expectation, Line};
use crate::runner::Runner;
use crate::scene::Scene;
use crate::scene_bus::SceneBus;
use crate::ways::Ways;
use i3c_facts::Before;
use i3c_script::show_bus;
use i3c_text::Text;
use std::alloc::{AllocError, Global};

impl Scene {
    /// Appends what `show` prints of it. A runner in any state serves for it.
    ///
    /// # Errors
    ///
    /// There is no memory for it.
    pub fn show(
        &self,
        alloc: Global,
        runner: &mut Runner,
        text: &mut Text,
    ) -> Result<(), AllocError>
        ensures { OnOk result (text.new ≡ text.old ++ shown_text self.now) }
    {
        runner.wake_to(alloc, self, false)?;
        let live = &runner.live;
        show_bus(live.bus(), live.known(), live.forgotten(), text)
    }

    /// Runs a line in a way, as it is tried. Where it breaks an expectation, what is there is appended to the text, and the
    /// number of the expectation's line is answered. Of several that it breaks, that is the first.
    ///
    /// # Errors
    ///
    /// There is no memory for it.
    pub fn unmet(
        &self,
        alloc: Global,
        line: &Line,
        way: usize,
        text: &mut Text,
    ) -> Result<Option<u64>, AllocError>
        ensures { IfOk result (λ told. (said : List ℕ) × LineTells self.now line.now way told said × (text.new ≡ text.old ++ said)) }
    {
        let tried = self.ways_of_line(line, way);
        let mut woken = self.wake(alloc)?;
        let live = &mut *woken;
        live.unmet(line, tried, text)
    }
}

impl SceneBus {
    ghost use Rattle.std.specs.Prelude.{◌≡◌, ◌<◌, ◌++◌, ◌^◌, ℕ, List, IfOk, MatchOption, None, Some};
    ghost use Rattle.i3c_facts.specs.declared.before.Before.{Before as BeforeValue};
    ghost use Rattle.i3c_scene.specs.Trying.{RunsIn};
    ghost use Rattle.i3c_scene.specs.Unmet.{IsTold, first_unmet};

    /// Runs a line in these ways of the devices at risk, and tells the first expectation that it breaks.
    fn unmet(&mut self, line: &Line, ways: Ways, text: &mut Text) -> Result<Option<u64>, AllocError>
        requires one { ways.one < 2 ^ 16 }
        requires other { ways.other < 2 ^ 16 }
        ensures { IfOk result (λ told. (before : BeforeValue) × (said : List ℕ) × RunsIn self.old line.now.command line.now.risk ways before self.new
            × IsTold self.new before line.now.expectations.items told said × (text.new ≡ text.old ++ said)) }
    {
        match self.run(line, ways) {
            Ok(before) => self.print_unmet(&before, line.expectations.as_slice(), text),
            Err(short) => Err(short),
        }
    }

    /// Tells the first expectation that doesn't hold.
    pub(crate) fn print_unmet(
        &self,
        before: &Before,
        expectations: &[Expectation],
        text: &mut Text,
    ) -> Result<Option<u64>, AllocError>
        ensures { IfOk result (λ told. (said : List ℕ) × IsTold self.now before.now expectations.now told said × (text.new ≡ text.old ++ said)) }
    {
        match self.first_unmet(before, expectations) {
            Some(first) => {
                first
                    .facts
                    .push_unmet(self.bus(), self.known(), before, text)?;
                Ok(Some(first.number))
            }
            None => Ok(None),
        }
    }

    /// The first expectation that doesn't hold.
    fn first_unmet<'a>(
        &self,
        before: &Before,
        expectations: &'a [Expectation],
    ) -> Option<&'a Expectation>
        ensures { MatchOption result (first_unmet self.now before.now expectations.now ≡ None) (λ one. first_unmet self.now before.now expectations.now ≡ Some one.now) }
    {
        let (first, rest) = expectations.split_first()?;
        if first.facts.hold(self.bus(), self.known(), before) {
            self.first_unmet(before, rest)
        } else {
            Some(first)
        }
    }
}
