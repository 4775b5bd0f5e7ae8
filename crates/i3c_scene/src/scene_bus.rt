ghost use Rattle.std.specs.Prelude.{◌≡◌, IfOk};
ghost use Rattle.i3c_scene.specs.Trying.{IsEndOf, was_refused};
ghost use Rattle.i3c_scene.specs.Near.{sets_some};

use crate::line::{Expectation, Line};
use crate::risk::Risk;
use crate::scene::{Rest, Scene};
use crate::scene_names::SceneNames;
use crate::ways::Ways;
use i3c_base::Slot;
use i3c_bus::{Bus, BusSnapshot};
use i3c_explore::Ran;
use i3c_facts::{Before, Heard, LineResult};
use i3c_lines::{Command, Name, Naming, Place, Refusal, slot_meant};
use i3c_script::{Deaf, Listener, ScriptBus, Unkept};
use i3c_text::LineError;
use std::alloc::{AllocError, Global};
use std::marker::Model;

/// Names the lines of an exploration.
struct Explored;

/// A scene whose bus is awake, so that lines can be obeyed. It has to be put to rest again.
pub struct SceneBus {
    pub(crate) bus: ScriptBus<Unkept>,
    pub(crate) known: SceneNames,
}

impl Model for SceneBus {
    ghost use Rattle.i3c_scene.specs.Scenes.{Seen, seen};

    ghost Value = { Seen };

    ghost view = { λ l. seen l.bus.state l.bus.settings l.bus.cuts l.known };
}

impl Drop for SceneBus {
    fn drop(self) {
        let SceneBus { bus, known } = self;
        drop(known);
        bus.retire();
    }
}

impl Scene {
    ghost use Rattle.std.specs.Prelude.{◌≡◌, IfOk};

    /// The bus awake, with a role or session of its own.
    // in a box, since each place through which it goes by value would cost as much as the bus is large
    pub(crate) fn wake(&self, alloc: Global) -> Result<Box<SceneBus>, AllocError>
        ensures { IfOk result (λ live. live.value ≡ self.now) }
    {
        let rest = &*self.rest;
        let known = rest.known.copied()?;
        let cuts = rest.cuts.clone()?;
        match rest.still.wake(alloc) {
            Ok((bus, hand)) => {
                let live = SceneBus {
                    bus: ScriptBus::of_parts(bus, hand, rest.settings.copied(), cuts, Unkept),
                    known,
                };
                Ok(Box::new(alloc, live)?)
            }
            Err(_) => Err(AllocError),
        }
    }
}

impl SceneBus {
    ghost use Rattle.std.specs.Prelude.{◌≡◌, ◌<◌, ◌^◌, IfOk, IfSome, IsTrue, OnOk};
    ghost use Rattle.i3c_scene.specs.Near.{HasSameSettings, IsBehind, Raises, RaisesIn};
    ghost use Rattle.i3c_script.specs.Hearing.{Hears};
    ghost use Rattle.i3c_facts.specs.declared.before.Before.{Before as BeforeValue};
    ghost use Rattle.i3c_scene.specs.Trying.{DoesIn, RunsIn, all_hold, cut_as, outcome, slot_at_risk, was_refused};
    ghost use Rattle.i3c_scene.specs.declared.ways.Ways.{Ways as WaysValue};
    ghost use Rattle.i3c_scene.specs.Going.{Does, cut_in, is_acting, risked, sends};

    /// It comes to a scene. `is_set` says that it has the scene's settings and names.
    pub(crate) fn wake_to(
        &mut self,
        alloc: Global,
        scene: &Scene,
        is_set: bool,
    ) -> Result<(), AllocError>
        requires { IsTrue is_set → HasSameSettings scene.now self.old }
        ensures { OnOk result (self.new ≡ scene.now) }
    {
        let rest = &*scene.rest;
        self.bus.wake_into(alloc, &rest.still)?;
        self.bus.copy_cuts(&rest.cuts)?;
        if is_set {
            return Ok(());
        }
        self.bus.set_all(rest.settings.copied());
        self.known.copy_from(&rest.known)
    }

    /// It comes back to a scene, from which it differs in one slot at most.
    pub(crate) fn wake_at(&mut self, scene: &Scene, slot: Slot)
        requires { IsBehind slot scene.now self.old }
        ensures { self.new ≡ scene.now }
    {
        self.bus.wake_at(&scene.rest.still, slot);
    }

    /// The raise in a line, if the line is one: the slot of its device, and the byte. The name has to stand for a slot.
    pub(crate) fn raise_in_line(&self, line: &Line) -> Option<(Slot, Option<u8>)>
        ensures { IfSome result (λ raise. RaisesIn self.now line.now.command raise.0 raise.1) }
    {
        let Some(Command::Raise { name, byte }) = &line.command else {
            return None;
        };
        match slot_meant(&self.known, name) {
            Ok(slot) => Some((slot, *byte)),
            Err(_) => None,
        }
    }

    /// Tries a line that raises an interrupt in this slot: what comes of it. It changes no other slot.
    pub(crate) fn try_raise(
        &mut self,
        line: &Line,
        slot: Slot,
        byte: Option<u8>,
    ) -> Result<Ran, AllocError>
        requires { RaisesIn self.old line.now.command slot byte }
        ensures tried { IfOk result (λ ran. (before : BeforeValue) × ((ways : WaysValue) → RunsIn self.old line.now.command line.now.risk ways before self.new) × (ran ≡ outcome self.new before line.now)) }
        ensures behind { OnOk result (IsBehind slot self.old self.new) }
    {
        match self.raise(slot, byte) {
            Ok(raised) => Ok(self.outcome(&raised, line)),
            Err(short) => Err(short),
        }
    }

    /// The device in a slot raises an interrupt: what facts know of that.
    #[inline(always)]
    fn raise(&mut self, slot: Slot, byte: Option<u8>) -> Result<Before, AllocError>
        ensures { IfOk result (λ before. Raises self.old slot byte before self.new) }
    {
        let mut heard = Heard::nothing();
        let ended = end_of(self.bus.raise_in(slot, byte, &mut heard))?;
        Ok(Before {
            result: ended,
            heard,
        })
    }

    /// The bus at rest.
    pub(crate) fn kept(&self, alloc: Global) -> Result<Scene, AllocError>
        ensures { IfOk result (λ scene. scene ≡ self.now) }
    {
        let Ok(still) = BusSnapshot::of(alloc, self.bus.bus()) else {
            return Err(AllocError);
        };
        let rest = Rest {
            still,
            settings: self.bus.settings().copied(),
            cuts: self.bus.cuts().clone()?,
            known: self.known.copied()?,
        };
        let rest = Box::new(alloc, rest)?;
        Ok(Scene { rest })
    }

    /// The bus at rest, in the room of a scene.
    pub(crate) fn keep_in(&self, alloc: Global, scene: &mut Scene) -> Result<(), AllocError>
        ensures { OnOk result (scene.new ≡ self.now) }
    {
        let rest = &mut *scene.rest;
        let Ok(()) = rest.still.copy_from(alloc, self.bus.bus()) else {
            return Err(AllocError);
        };
        rest.settings = self.bus.settings().copied();
        rest.cuts = self.bus.cuts().clone()?;
        rest.known.copy_from(&self.known)?;
        Ok(())
    }

    /// The bus.
    pub(crate) fn bus(&self) -> &Bus
        ensures { result.now.state ≡ self.now.state }
    {
        self.bus.bus()
    }

    /// How many records have left the log.
    pub(crate) fn forgotten(&self) -> usize
        ensures { result ≡ self.now.settings.forgotten }
    {
        self.bus.forgotten()
    }

    /// The names.
    pub(crate) fn known(&self) -> &SceneNames
        ensures { result.now ≡ self.now.names }
    {
        &self.known
    }

    /// Tries a line in these ways of the devices at risk: what comes of it.
    pub(crate) fn tried(&mut self, line: &Line, ways: Ways) -> Result<Ran, AllocError>
        requires one { ways.one < 2 ^ 16 }
        requires other { ways.other < 2 ^ 16 }
        ensures { IfOk result (λ ran. (before : BeforeValue) × RunsIn self.old line.now.command line.now.risk ways before self.new × (ran ≡ outcome self.new before line.now)) }
    {
        if line.expectations.is_empty() {
            return match self.run_unheard(line, ways) {
                Ok(true) => Ok(Ran::Noted),
                Ok(false) => Ok(Ran::Held),
                Err(short) => Err(short),
            };
        }
        match self.run(line, ways) {
            Ok(before) => Ok(self.outcome(&before, line)),
            Err(short) => Err(short),
        }
    }

    /// Runs a line in these ways of the devices at risk, with nobody to hear what it comes to. Answers whether it was refused.
    fn run_unheard(&mut self, line: &Line, ways: Ways) -> Result<bool, AllocError>
        requires one { ways.one < 2 ^ 16 }
        requires other { ways.other < 2 ^ 16 }
        ensures { IfOk result (λ refused. (before : BeforeValue) × RunsIn self.old line.now.command line.now.risk ways before self.new × (refused ≡ was_refused before.result)) }
    {
        let Some(command) = &line.command else {
            return Ok(false);
        };
        match end_of(self.obey_in(command, &line.risk, ways, &mut Deaf)) {
            Ok(ended) => Ok(was_refused(&ended)),
            Err(short) => Err(short),
        }
    }

    /// Runs a line in these ways of the devices at risk, and answers what facts know of it then.
    pub(crate) fn run(&mut self, line: &Line, ways: Ways) -> Result<Before, AllocError>
        requires one { ways.one < 2 ^ 16 }
        requires other { ways.other < 2 ^ 16 }
        ensures { IfOk result (λ before. RunsIn self.old line.now.command line.now.risk ways before self.new) }
    {
        let Some(command) = &line.command else {
            return Ok(Before::nothing());
        };
        let mut heard = Heard::nothing();
        let ended = end_of(self.obey_in(command, &line.risk, ways, &mut heard))?;
        Ok(Before {
            result: ended,
            heard,
        })
    }

    /// Whether a command sends a frame that takes the cuts that wait: behind `as NAME` only that of the active controller does.
    fn sends(&self, command: &Command) -> bool
        ensures { result ≡ sends self.now.state self.now.names command.now }
    {
        match command {
            Command::Frame(_)
            | Command::HandOver { .. }
            | Command::Open
            | Command::Round
            | Command::Daa => true,
            Command::As { name, sent } => {
                self.is_acting(self.known.place_of(name)) && sent.has_frame()
            }
            _ => false,
        }
    }

    /// Whether the active controller's device is at this place.
    fn is_acting(&self, place: Option<Place>) -> bool
        ensures { result ≡ is_acting self.now.state place }
    {
        let Some(place) = place else {
            return false;
        };
        let Place::Slot(slot) = place else {
            return false;
        };
        let bus = self.bus.bus();
        bus.present(slot) && slot == bus.active()
    }

    /// Cuts the devices at risk in these ways, where the line sends a frame.
    fn cut_as(&mut self, sends: bool, risk: &Risk, ways: Ways)
        requires one { ways.one < 2 ^ 16 }
        requires other { ways.other < 2 ^ 16 }
        ensures { self.new ≡ cut_as self.old sends risk.now ways }
    {
        match risk {
            Risk::Nobody => {}
            Risk::One(name) => {
                let slot = self.slot_at_risk(sends, name);
                self.cut_in(slot, ways.one);
            }
            Risk::Two(one, other) => {
                let first = self.slot_at_risk(sends, one);
                let second = self.slot_at_risk(sends, other);
                self.cut_in(first, ways.one);
                self.cut_in(second, ways.other);
            }
        }
    }

    /// The slot of a name's device, where the line sends a frame in which that device may lose power.
    fn slot_at_risk(&self, sends: bool, name: &Name) -> Option<Slot>
        ensures { result ≡ slot_at_risk self.now sends name.now }
    {
        if sends {
            self.risked(self.known.place_of(name))
        } else {
            None
        }
    }

    /// The slot of a present device at this place, unless that device is the active controller.
    fn risked(&self, place: Option<Place>) -> Option<Slot>
        ensures { result ≡ risked self.now.state place }
    {
        let Place::Slot(slot) = place? else {
            return None;
        };
        let bus = self.bus.bus();
        if bus.present(slot) && slot != bus.active() {
            Some(slot)
        } else {
            None
        }
    }

    /// Cuts the slot's device as a way has it.
    fn cut_in(&mut self, slot: Option<Slot>, way: usize)
        requires { way < 2 ^ 16 }
        ensures { self.new ≡ cut_in self.old slot way }
    {
        let Some(slot) = slot else {
            return;
        };
        if way > 0 {
            self.bus.add_cut(slot, (way - 1) as u16);
        }
    }

    /// What comes of a line, behind which facts know this.
    fn outcome(&self, before: &Before, line: &Line) -> Ran
        ensures { result ≡ outcome self.now before.now line.now }
    {
        if !self.all_hold(before, line.expectations.as_slice()) {
            return Ran::Broken;
        }
        if was_refused(&before.result) && !line.is_expected() {
            return Ran::Noted;
        }
        Ran::Held
    }

    /// Whether all that is expected holds.
    pub(crate) fn all_hold(&self, before: &Before, expectations: &[Expectation]) -> bool
        ensures { result ≡ all_hold self.now before.now expectations.now }
    {
        let Some((first, rest)) = expectations.split_first() else {
            return true;
        };
        first.facts.hold(self.bus(), &self.known, before) && self.all_hold(before, rest)
    }

    /// Obeys a command in these ways of the devices at risk, and lets a listener hear what it comes to.
    pub(crate) fn obey_in<L: Listener>(
        &mut self,
        command: &Command,
        risk: &Risk,
        ways: Ways,
        listener: &mut L,
    ) -> Result<(), LineError<Refusal>>
        requires one { ways.one < 2 ^ 16 }
        requires other { ways.other < 2 ^ 16 }
        ensures { Hears L.heard (λ pieces refused. DoesIn self.old command.now risk.now ways pieces refused self.new) listener.old listener.new result }
    {
        let sent = self.sends(command);
        self.cut_as(sent, risk, ways);
        self.obey(command, listener)
    }

    /// Obeys a line's command, and lets a listener hear what it comes to.
    fn obey<L: Listener>(
        &mut self,
        command: &Command,
        listener: &mut L,
    ) -> Result<(), LineError<Refusal>>
        ensures { Hears L.heard (λ pieces refused. Does self.old command.now pieces refused self.new) listener.old listener.new result }
    {
        self.bus
            .obey::<Explored, SceneNames, L>(&mut self.known, command, listener)
    }
}

/// How a line with this outcome ended.
fn end_of(outcome: Result<(), LineError<Refusal>>) -> Result<LineResult, AllocError>
    ensures { IfOk result (IsEndOf outcome) }
{
    match outcome {
        Ok(()) => Ok(LineResult::Done),
        Err(LineError::Refused(why)) => Ok(LineResult::Refused(why)),
        Err(LineError::Memory) => Err(AllocError),
    }
}

/// Whether the line before was refused.
fn was_refused(ended: &LineResult) -> bool
    ensures { result ≡ was_refused ended.now }
{
    matches!(ended, LineResult::Refused(_))
}

/// Whether a command may give a name, or set what frames accept or which records have left the log.
pub(crate) fn sets_some(command: &Option<Command>) -> bool
    ensures { result ≡ sets_some command.now }
{
    matches!(
        command,
        Some(
            Command::Attach { .. }
                | Command::Policy(_)
                | Command::PolicyBut { .. }
                | Command::Forget(_)
        )
    )
}
