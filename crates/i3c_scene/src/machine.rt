use crate::line::Line;
use crate::risk::Risk;
use crate::runner::Runner;
use crate::scene::Scene;
use crate::ways::{Ways, ways_of};
use i3c_base::Slot;
use i3c_explore::{Machine, Ran};
use i3c_lines::{Command, Name, Naming, Place, Sent};
use i3c_step::Command as Frame;
use std::alloc::{AllocError, Global};

impl Machine for Scene {
    ghost use Rattle.std.specs.Prelude.{◌≡◌, IfOk};
    ghost use Rattle.i3c_scene.specs.Latest.{latest};
    ghost use Rattle.i3c_scene.specs.Near.{IsCloseTo};
    ghost use Rattle.i3c_explore.specs.declared.ran.Ran.{Ran as RanValue};
    ghost use Rattle.i3c_scene.specs.Trying.{LineBreaks, LineComesTo, LineSteps};

    type Line = Line;

    type Runner = Runner;

    ghost shown = { λ runner. runner.live.value };

    ghost steps = { LineSteps };

    ghost last = { λ scene line. latest scene line.risk line.command };

    ghost breaks = { LineBreaks };

    ghost notes = { LineComesTo RanValue.Noted };

    ghost quiet = { LineComesTo RanValue.Held };

    ghost near = { λ runner scene. IsCloseTo runner.set runner.touched scene runner.live.value };

    fn last_way(&self, line: &Line) -> usize {
        self.latest_of_line(line)
    }

    fn runner(&self, alloc: Global) -> Result<Runner, AllocError> {
        let live = self.wake(alloc)?;
        Ok(Runner::new(live))
    }

    fn run(
        &self,
        alloc: Global,
        line: &Line,
        way: usize,
        again: bool,
        runner: &mut Runner,
    ) -> Result<Ran, AllocError> {
        let tried = self.ways_of_line(line, way);
        runner.wake_to(alloc, self, again)?;
        runner.tried(line, tried)
    }

    fn kept(alloc: Global, runner: &Runner, spare: Option<Scene>) -> Result<Scene, AllocError>
        ensures { IfOk result (λ scene. scene ≡ runner.now.live.value) }
    {
        match spare {
            Some(mut scene) => {
                runner.live.keep_in(alloc, &mut scene)?;
                Ok(scene)
            }
            None => runner.live.kept(alloc),
        }
    }

    fn is_of(&self, runner: &Runner) -> bool {
        self.is_same(&runner.live)
    }

    fn is_same(&self, other: &Scene) -> bool {
        self.is_equal(other)
    }

    fn hash(runner: &Runner) -> u64 {
        runner.live.bus().key()
    }
}

impl Scene {
    ghost use Rattle.std.specs.Prelude.{◌≡◌, ◌<◌, ◌≤◌, ◌+◌, ◌^◌, None, Some, is_some, IfOk, IfSome};
    ghost use Rattle.i3c_scene.specs.Going.{is_acting, risked, sends};
    ghost use Rattle.i3c_scene.specs.Latest.{last_bit, last_cut, last_of, last_of_frame, last_of_sent, latest, tried_as};
    ghost use Rattle.i3c_scene.specs.Trying.{LineBreaks, LineSteps, slot_at_risk};

    /// The scene after a line in a way, or none if the line breaks an expectation.
    ///
    /// # Errors
    ///
    /// There is no memory for it.
    pub fn after(&self, alloc: Global, line: &Line, way: usize) -> Result<Option<Scene>, AllocError>
        ensures leads { IfOk result (λ next. IfSome next (λ new. LineSteps self.now line.now way new)) }
        ensures broken { IfOk result (λ next. next ≡ None → LineBreaks self.now line.now way) }
    {
        let mut runner = self.runner(alloc)?;
        match self.run(alloc, line, way, false, &mut runner)? {
            Ran::Broken => Ok(None),
            Ran::Held | Ran::Noted => {
                let live = &*runner.live;
                let scene = live.kept(alloc)?;
                Ok(Some(scene))
            }
        }
    }

    /// The last way of a line that has to be tried.
    fn latest_of_line(&self, line: &Line) -> usize
        ensures way { result ≡ latest self.now line.now.risk line.now.command }
        ensures small { result < 2 ^ 32 }
    {
        match &line.command {
            Some(command) => self.latest(&line.risk, command),
            None => 0,
        }
    }

    /// The last way of a command that has to be tried.
    pub(crate) fn latest(&self, risk: &Risk, command: &Command) -> usize
        ensures way { result ≡ latest self.now risk.now (Some command.now) }
        ensures small { result < 2 ^ 32 }
    {
        match risk {
            Risk::Nobody => 0,
            Risk::One(name) => self.last_of(command, name),
            Risk::Two(one, other) => {
                let last = self.last_of(command, one).max(self.last_of(command, other));
                last * last + (last + last)
            }
        }
    }

    /// The last way of a name's device that has to be tried.
    fn last_of(&self, command: &Command, name: &Name) -> usize
        ensures way { result ≡ last_of self.now command.now name.now }
        ensures small { result ≤ 4501 }
    {
        if self.is_at_risk(self.sends(command), name) {
            self.last_cut(command)
        } else {
            0
        }
    }

    /// Whether a command sends a frame that takes the cuts that wait: behind `as NAME` only that of the active controller does.
    fn sends(&self, command: &Command) -> bool
        ensures { result ≡ sends self.now.state self.now.names command.now }
    {
        match command {
            Command::Frame(_)
            | Command::HandOver { .. }
            | Command::Open
            | Command::Round
            | Command::Daa => true,
            Command::As { name, sent } => {
                self.is_acting(self.rest.known.place_of(name)) && sent.has_frame()
            }
            _ => false,
        }
    }

    /// Whether the active controller's device is at this place.
    fn is_acting(&self, place: Option<Place>) -> bool
        ensures { result ≡ is_acting self.now.state place }
    {
        let Some(place) = place else {
            return false;
        };
        let Place::Slot(slot) = place else {
            return false;
        };
        let still = &*self.rest.still;
        still.present(slot) && slot == still.active()
    }

    /// Whether a name's device may lose power in the line's frame.
    fn is_at_risk(&self, sends: bool, name: &Name) -> bool
        ensures { result ≡ is_some (slot_at_risk self.now sends name.now) }
    {
        sends && self.risked(self.rest.known.place_of(name)).is_some()
    }

    /// The slot of a present device at this place, unless that device is the active controller.
    fn risked(&self, place: Option<Place>) -> Option<Slot>
        ensures { result ≡ risked self.now.state place }
    {
        let Place::Slot(slot) = place? else {
            return None;
        };
        let still = &*self.rest.still;
        if still.present(slot) && slot != still.active() {
            Some(slot)
        } else {
            None
        }
    }

    /// The last way in which a device is cut at a bit of the command's frame.
    fn last_cut(&self, command: &Command) -> usize
        ensures way { result ≡ last_cut self.now.state command.now }
        ensures small { result ≤ 4501 }
    {
        self.last_bit(command) + 1
    }

    /// The ways of the devices at risk that are tried for a way of a line.
    pub(crate) fn ways_of_line(&self, line: &Line, way: usize) -> Ways
        ensures ways { result ≡ tried_as self.now.state line.now.risk line.now.command way }
        ensures one { result.one < 2 ^ 16 }
        ensures other { result.other < 2 ^ 16 }
    {
        match &line.command {
            Some(command) => self.ways_tried(&line.risk, command, way),
            None => Ways { one: 0, other: 0 },
        }
    }

    /// The same of a command. A device that would be cut behind the frame's last bit isn't cut, which does the same.
    pub(crate) fn ways_tried(&self, risk: &Risk, command: &Command, way: usize) -> Ways
        ensures ways { result ≡ tried_as self.now.state risk.now (Some command.now) way }
        ensures one { result.one < 2 ^ 16 }
        ensures other { result.other < 2 ^ 16 }
    {
        match risk {
            Risk::Nobody => Ways { one: 0, other: 0 },
            Risk::One(_) | Risk::Two(..) => ways_of(risk, way).within(self.last_cut(command)),
        }
    }

    /// The number of the last bit that a command's frame can have.
    fn last_bit(&self, command: &Command) -> usize
        ensures bit { result ≡ last_bit self.now.state command.now }
        ensures small { result ≤ 4500 }
    {
        match command {
            Command::Frame(frame) => self.last_of_frame(frame),
            Command::HandOver { .. } => 36,
            Command::Open | Command::Daa => 18,
            Command::Round => 73,
            Command::As { sent, .. } => self.last_of_sent(sent),
            _ => 0,
        }
    }

    /// The same of a line that a controller sends.
    fn last_of_sent(&self, sent: &Sent) -> usize
        ensures bit { result ≡ last_of_sent self.now.state sent.now }
        ensures small { result ≤ 4500 }
    {
        match sent {
            Sent::Frame(frame) => self.last_of_frame(frame),
            Sent::HandOver { .. } => 36,
            Sent::Open | Sent::Daa => 18,
            Sent::Round => 73,
            Sent::End => 0,
        }
    }

    /// The number of the last bit that a frame under the role can have.
    fn last_of_frame(&self, frame: &Frame) -> usize
        ensures bit { result ≡ last_of_frame self.now.state frame.now }
        ensures small { result ≤ 4500 }
    {
        match frame {
            Frame::Serve => 9,
            Frame::Enec(None, _) | Frame::Disec(None, _) => 36,
            Frame::Enec(Some(_), _) | Frame::Disec(Some(_), _) => 45,
            Frame::SetStatic(..) | Frame::SetNew(..) => 45,
            Frame::Reset => 27,
            Frame::SendList => 18 + usize::from(self.rest.still.list_bits()),
            Frame::ReadFrom(_) => 171,
            Frame::Get(..) => 90,
            Frame::SetLength(_, _, None) => 45,
            Frame::SetLength(_, _, Some(_)) => 54,
            Frame::WriteTo(_, bytes) => 27 + 9 * bytes.len(),
        }
    }
}
