ghost use Rattle.std.specs.Prelude.{◌≡◌, ◌∷◌, [], OnOk};
ghost use Rattle.i3c_tracks.specs.Refusing.{is_full, is_outer, is_risky, with_more};
ghost use Rattle.i3c_tracks.specs.Drafting.{awaited};
ghost use Rattle.i3c_tracks.specs.Planning.{step_of};

use crate::refusal::Reason;
use i3c_facts::Mark;
use i3c_lines::{Command, Name};
use i3c_scene::{Expectation, Line, Risk, Rules, sends_frame, sends_many};
use std::alloc::{AllocError, Global};
use std::mem;

/// How many tracks a block may have.
const MOST_TRACKS: usize = 8;

/// How many lines the tracks of a block may have.
const MOST_LINES: usize = 64;

/// A block that isn't closed yet.
#[derive(Drop)]
pub(crate) struct OpenBlock {
    /// The devices that may lose power, in any frame of the block.
    risk: Risk,
    /// What has to hold after each line.
    always: Vec<Expectation>,
    /// The tracks before the last.
    tracks: Vec<Vec<Line>>,
    /// The last track, if one has begun.
    last: Option<Vec<Line>>,
    /// How many tracks may still begin.
    tracks_left: usize,
    /// How many lines its tracks may still get.
    lines_left: usize,
}

/// Whether a device is at risk.
fn is_risky(risk: &Risk) -> bool
    ensures { result ≡ is_risky risk.now }
{
    match risk {
        Risk::Nobody => false,
        Risk::One(_) | Risk::Two(..) => true,
    }
}

/// Whether two devices are at risk already.
fn is_full(risk: &Risk) -> bool
    ensures { result ≡ is_full risk.now }
{
    matches!(risk, Risk::Two(..))
}

/// These devices, and one more if there is room for it.
fn with_more(risk: Risk, name: Name) -> Risk
    ensures { result ≡ with_more risk name }
{
    match risk {
        Risk::Nobody => Risk::One(name),
        Risk::One(first) => Risk::Two(first, name),
        Risk::Two(first, second) => Risk::Two(first, second),
    }
}

/// Whether a command has its place outside of blocks alone.
fn is_outer(command: &Command) -> bool
    ensures { result ≡ is_outer command.now }
{
    matches!(
        command,
        Command::Legacy { .. }
            | Command::Declare { .. }
            | Command::Main { .. }
            | Command::Show
            | Command::ShowAll
            | Command::ShowFrom(_)
            | Command::Symbols
            | Command::Frames(_)
    )
}

/// Expects behind a line what has to hold after each line of its block.
fn expect_always(always: &[Expectation], line: &mut Line) -> Result<(), AllocError>
    ensures { OnOk result (step_of line.new ≡ awaited (step_of line.old) always.now) }
{
    for index in 0..always.len() {
        expect_again(&always[index], line)?;
    }
    Ok(())
}

/// Expects behind a line the same once more.
fn expect_again(expectation: &Expectation, line: &mut Line) -> Result<(), AllocError>
    ensures { OnOk result (step_of line.new ≡ awaited (step_of line.old) (expectation.now ∷ [])) }
{
    let facts = expectation.facts.copied()?;
    line.expectations.push(Expectation {
        number: expectation.number,
        lasts: expectation.lasts,
        facts,
    })?;
    Ok(())
}

impl OpenBlock {
    ghost use Rattle.std.specs.Prelude.{◌≡◌, ◌++◌, ◌∷◌, ◌==◌, [], None, Some, IfOk, OnOk, false, is_some, option_map, if◌then◌else◌};
    ghost use Rattle.i3c_tracks.specs.Refusing.{is_full, is_risky, one_line, one_risk, one_track, opened_block, refuses_command, refuses_mark, risk_of, with_more};
    ghost use Rattle.i3c_tracks.specs.Drafting.{all_tracks, awaited, inside_of, open_of, with_line};
    ghost use Rattle.i3c_scene.specs.declared.risk.Risk.{Risk as RiskValue};
    ghost use Rattle.i3c_tracks.specs.Planning.{rules_of, step_of, tracks_of};

    /// A block before its first line.
    pub(crate) fn new(alloc: Global) -> OpenBlock
        ensures empty { open_of result ≡ record { risk = RiskValue.Nobody; always = []; tracks = []; last = None } }
        ensures inside { inside_of result ≡ opened_block }
    {
        OpenBlock {
            risk: Risk::Nobody,
            always: Vec::new(alloc),
            tracks: Vec::new(alloc),
            last: None,
            tracks_left: MOST_TRACKS,
            lines_left: MOST_LINES,
        }
    }

    /// Whether a track has begun.
    pub(crate) fn has_track(&self) -> bool
        ensures { result ≡ is_some self.now.last }
    {
        self.last.is_some()
    }

    /// Why a command is refused here, if it is.
    pub(crate) fn refuses(&self, command: &Command) -> Option<Reason>
        ensures { result ≡ refuses_command (is_some self.now.last) (is_risky self.now.risk) self.now.lines_left command.now }
    {
        if is_outer(command) {
            return Some(Reason::BlockOpen);
        }
        if !self.has_track() {
            return Some(Reason::NoTrack);
        }
        if is_risky(&self.risk) && sends_many(command) {
            return Some(Reason::ManyFrames);
        }
        if self.lines_left == 0 {
            return Some(Reason::Most);
        }
        None
    }

    /// Why a mark is refused here, if it is. Expectations are judged by the line before them besides.
    pub(crate) fn refuses_mark(&self, mark: &Mark) -> Option<Reason>
        ensures { result ≡ refuses_mark (is_some self.now.last) (is_full self.now.risk) self.now.tracks_left mark.now }
    {
        match mark {
            Mark::Any => Some(Reason::BlockOpen),
            Mark::Anywhere(_) | Mark::Always(_) if self.has_track() => Some(Reason::BlockOpen),
            Mark::Anywhere(_) if is_full(&self.risk) => Some(Reason::Most),
            Mark::Track if self.tracks_left == 0 => Some(Reason::Most),
            Mark::Expect(_) if !self.has_track() => Some(Reason::NoTrack),
            _ => None,
        }
    }

    /// One more device may lose power, in any frame of the block.
    pub(crate) fn add_risk(&mut self, name: Name)
        requires { is_full self.old.risk ≡ false }
        ensures added { open_of self.new ≡ record (open_of self.old) { risk = with_more self.old.risk name } }
        ensures inside { inside_of self.new ≡ one_risk name (inside_of self.old) }
    {
        self.risk = with_more(self.risk, name);
    }

    /// One more line has its place in a track: the devices that may lose power in it, if it sends a frame.
    pub(crate) fn take_place(&mut self, command: &Command) -> Risk
        ensures risk { result ≡ risk_of self.old.risk command.now }
        ensures same { open_of self.new ≡ open_of self.old }
        ensures inside { inside_of self.new ≡ one_line (inside_of self.old) }
    {
        self.lines_left = self.lines_left.saturating_sub(1);
        if sends_frame(command) {
            self.risk
        } else {
            Risk::Nobody
        }
    }

    /// From now on this has to hold after each line.
    pub(crate) fn add_always(&mut self, expectation: Expectation) -> Result<(), AllocError>
        ensures added { OnOk result (open_of self.new ≡ record (open_of self.old) { always = self.old.always.items ++ expectation ∷ [] }) }
        ensures inside { inside_of self.new ≡ inside_of self.old }
    {
        self.always.push(expectation)?;
        Ok(())
    }

    /// Puts a line behind the last one of the last track, with what has to hold after each line.
    pub(crate) fn push(&mut self, line: Line) -> Result<(), AllocError>
        ensures pushed { OnOk result (open_of self.new ≡ with_line (step_of line) (open_of self.old)) }
        ensures inside { inside_of self.new ≡ inside_of self.old }
    {
        let mut line = line;
        expect_always(&self.always, &mut line)?;
        match &mut self.last {
            Some(track) => {
                track.push(line)?;
                Ok(())
            }
            None => Ok(()),
        }
    }

    /// Begins the next track.
    pub(crate) fn begin_track(&mut self, alloc: Global) -> Result<(), AllocError>
        ensures begun { OnOk result (open_of self.new ≡ record (open_of self.old) { tracks = all_tracks (open_of self.old).tracks (open_of self.old).last; last = Some [] }) }
        ensures inside { OnOk result (inside_of self.new ≡ one_track (inside_of self.old)) }
    {
        self.end_track()?;
        self.tracks_left = self.tracks_left.saturating_sub(1);
        self.last = Some(Vec::new(alloc));
        Ok(())
    }

    /// Ends the last track, if one has begun.
    fn end_track(&mut self) -> Result<(), AllocError>
        ensures ended { OnOk result (open_of self.new ≡ record (open_of self.old) { tracks = all_tracks (open_of self.old).tracks (open_of self.old).last; last = None }) }
        ensures tracks { self.new.tracks_left ≡ self.old.tracks_left }
        ensures lines { self.new.lines_left ≡ self.old.lines_left }
    {
        match mem::replace(&mut self.last, None) {
            Some(track) => {
                self.tracks.push(track)?;
                Ok(())
            }
            None => Ok(()),
        }
    }

    /// The tracks of the block, which is closed, and what holds of each of its lines.
    pub(crate) fn close(self) -> Result<(Vec<Vec<Line>>, Rules), AllocError>
        ensures tracks { IfOk result (λ closed. tracks_of closed.0.items ≡ all_tracks (open_of self).tracks (open_of self).last) }
        ensures rules { IfOk result (λ closed. rules_of closed.1 ≡ record { risk = self.risk; always = self.always.items }) }
    {
        let mut block = self;
        block.end_track()?;
        let rules = Rules {
            risk: block.risk,
            lasting: block.always,
        };
        Ok((block.tracks, rules))
    }
}
