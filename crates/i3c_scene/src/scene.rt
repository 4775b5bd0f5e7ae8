ghost use Rattle.std.specs.Prelude.{◌≡◌, IsTrue};

use crate::named::Named;
use crate::scene_bus::SceneBus;
use crate::scene_names::SceneNames;
use i3c_base::{Cuts, Setup};
use i3c_bus::{Bus, BusSnapshot, Hand};
use i3c_legacy::Legacies;
use i3c_script::Settings;
use std::alloc::{AllocError, Global};
use std::marker::Model;

/// A bus between two lines: at rest, with what its lines have set, the cuts that wait for the next frame, and the names that
/// were given.
///
/// Clauses see these. It is stored out of line, so that a scene is moved as a word.
#[derive(Drop)]
pub struct Scene {
    pub(crate) rest: Box<Rest>,
}

/// What a scene has.
#[derive(Drop)]
pub(crate) struct Rest {
    pub still: Box<BusSnapshot>,
    pub settings: Settings,
    pub cuts: Cuts,
    pub known: SceneNames,
}

impl Model for Scene {
    ghost use Rattle.i3c_scene.specs.Scenes.{Seen, seen};

    ghost Value = { Seen };

    ghost view = { λ s. seen s.rest.value.still.value s.rest.value.settings s.rest.value.cuts s.rest.value.known };
}

/// Why a bus isn't begun.
#[derive(Clone, Copy, Drop)]
pub enum BeginFault {
    /// The main controller's device isn't capable of the controller role (I3C Basic 5.1.1.2.1).
    NotCapable,
    /// There is no memory.
    Memory,
}

impl Scene {
    ghost use Rattle.std.specs.Prelude.{◌≡◌, ◌↔◌, true, false, IfErr, IfOk, IsOk, IsTrue};
    ghost use Rattle.i3c_scene.specs.declared.scene.BeginFault.{BeginFault as BeginFaultValue};
    ghost use Rattle.i3c_base.specs.Cutting.{no_cuts};
    ghost use Rattle.i3c_base.specs.Numbers.{is_capable};
    ghost use Rattle.i3c_base.specs.State.{IsStart};
    ghost use Rattle.i3c_script.specs.Accepting.{at_first};

    /// A bus with this main controller in slot 0, whose frames accept each request, and these names.
    ///
    /// # Errors
    ///
    /// The main controller isn't capable of its role, or there is no memory.
    pub fn begin(
        alloc: Global,
        main: Setup,
        legacies: Legacies,
        names: Vec<Named>,
    ) -> Result<Scene, BeginFault>
        ensures capable { IsOk result → is_capable main.identity.bcr ≡ true }
        ensures fault { IfErr result (λ why. (why ≡ BeginFaultValue.NotCapable) ↔ (is_capable main.identity.bcr ≡ false)) }
        ensures start { IfOk result (λ scene. IsStart main legacies scene.state) }
        ensures settings { IfOk result (λ scene. scene.settings ≡ at_first) }
        ensures cuts { IfOk result (λ scene. scene.cuts ≡ no_cuts) }
        ensures names { IfOk result (λ scene. scene.names ≡ names.items) }
    {
        let Ok((bus, role)) = Bus::new(alloc, main, legacies) else {
            return Err(BeginFault::NotCapable);
        };
        let Ok(still) = bus.rest(alloc, Hand::Role(role)) else {
            return Err(BeginFault::Memory);
        };
        let Ok(still) = Box::new(alloc, still) else {
            return Err(BeginFault::Memory);
        };
        let rest = Rest {
            still,
            settings: Settings::new(),
            cuts: Cuts::new(),
            known: SceneNames::new(names),
        };
        match Box::new(alloc, rest) {
            Ok(rest) => Ok(Scene { rest }),
            Err(_) => Err(BeginFault::Memory),
        }
    }

    /// The same scene once more.
    ///
    /// # Errors
    ///
    /// There is no memory for it.
    pub fn copied(&self, alloc: Global) -> Result<Scene, AllocError>
        ensures { IfOk result (λ copy. copy ≡ self.now) }
    {
        let live = self.wake(alloc)?;
        live.kept(alloc)
    }

    /// Whether a bus that is awake is the same: in the same state, with the same settings, cuts and names.
    pub(crate) fn is_same(&self, live: &SceneBus) -> bool
        ensures { IsTrue result → self.now ≡ live.now }
    {
        let rest = &*self.rest;
        rest.settings.is_same(live.bus.settings())
            && are_same_cuts(&rest.cuts, live.bus.cuts())
            && rest.still.is_of(live.bus())
            && rest.known.is_same(&live.known)
    }

    /// Whether another scene is the same.
    pub(crate) fn is_equal(&self, other: &Scene) -> bool
        ensures { IsTrue result → self.now ≡ other.now }
    {
        let rest = &*self.rest;
        let others = &*other.rest;
        rest.settings.is_same(&others.settings)
            && are_same_cuts(&rest.cuts, &others.cuts)
            && rest.still.is_same(&others.still)
            && rest.known.is_same(&others.known)
    }
}

/// Whether the same slots are cut at the same bits.
fn are_same_cuts(cuts: &Cuts, others: &Cuts) -> bool
    ensures { IsTrue result → cuts.now ≡ others.now }
{
    if cuts.is_empty() {
        return others.is_empty();
    }
    *cuts == *others
}
