use crate::line::Line;
use crate::scene::Scene;
use crate::scene_bus::{SceneBus, sets_some};
use crate::ways::Ways;
use i3c_base::Slot;
use i3c_explore::Ran;
use std::alloc::{AllocError, Global};

/// A bus awake that lines are run on, one after another.
#[derive(Drop)]
pub struct Runner {
    pub(crate) live: Box<SceneBus>,
    // where the line that ran last changed one slot at most, this slot
    pub(crate) touched: Option<Slot>,
    // whether the line that ran last may have given a name, or set what frames accept or what has left the log
    pub(crate) set: bool,
}

impl Runner {
    ghost use Rattle.std.specs.Prelude.{◌≡◌, ◌<◌, ◌^◌, IfOk, IfSome, IsTrue, OnOk};
    ghost use Rattle.i3c_facts.specs.declared.before.Before.{Before as BeforeValue};
    ghost use Rattle.i3c_scene.specs.Near.{IsCloseTo};
    ghost use Rattle.i3c_scene.specs.Trying.{RunsIn, outcome};

    /// One on which no line ran.
    pub(crate) fn new(live: Box<SceneBus>) -> Runner
        ensures { result.live ≡ live }
    {
        Runner {
            live,
            touched: None,
            set: true,
        }
    }

    /// It comes to a scene: where the line that ran last began there too and changed one slot, by that slot alone, and where
    /// that line set nothing, without settings and names.
    pub(crate) fn wake_to(
        &mut self,
        alloc: Global,
        scene: &Scene,
        again: bool,
    ) -> Result<(), AllocError>
        requires { IsTrue again → IsCloseTo self.old.set self.old.touched scene.now self.old.live.value }
        ensures { OnOk result (self.new.live.value ≡ scene.now) }
    {
        match self.touched {
            Some(slot) if again => {
                self.live.wake_at(scene, slot);
                Ok(())
            }
            _ => self.live.wake_to(alloc, scene, again && !self.set),
        }
    }

    /// Tries a line in these ways of the devices at risk, from the scene that it is in: what comes of it.
    #[tactic(auto, using(crate::proofs::Setting::run_same))]
    pub(crate) fn tried(&mut self, line: &Line, ways: Ways) -> Result<Ran, AllocError>
        requires one { ways.one < 2 ^ 16 }
        requires other { ways.other < 2 ^ 16 }
        ensures tried { IfOk result (λ ran. (before : BeforeValue) × RunsIn self.old.live.value line.now.command line.now.risk ways before self.new.live.value × (ran ≡ outcome self.new.live.value before line.now)) }
        ensures near { OnOk result (IsCloseTo self.new.set self.new.touched self.old.live.value self.new.live.value) }
    {
        self.set = sets_some(&line.command);
        match self.live.raise_in_line(line) {
            Some((slot, byte)) => {
                self.touched = Some(slot);
                self.live.try_raise(line, slot, byte)
            }
            None => {
                self.touched = None;
                self.live.tried(line, ways)
            }
        }
    }
}
