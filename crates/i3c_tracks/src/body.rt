ghost use Rattle.std.specs.Prelude.{◌≡◌, [], None, IfOk, option_map};
ghost use Rattle.i3c_scene.specs.declared.risk.Risk.{Risk as RiskValue};
ghost use Rattle.i3c_tracks.specs.Planning.{alone, step_of, tracks_of};
ghost use Rattle.i3c_tracks.specs.Drafting.{with_expected};
ghost use Rattle.i3c_tracks.specs.Refusing.{ask_before, is_of_before, refuses_outside};

use crate::open_block::OpenBlock;
use crate::refusal::Reason;
use i3c_facts::{Fact, Facts, Mark};
use i3c_lines::{Command, Name};
use i3c_scene::{Expectation, Line, Risk, Rules, Scene};
use std::alloc::{AllocError, Global};
use std::mem;

/// The blocks of a file, and the bus from whose start they run.
#[derive(Drop)]
pub(crate) struct Blocks {
    /// The bus at its start.
    pub start: Scene,
    /// The blocks, one after another.
    pub blocks: Vec<Vec<Vec<Line>>>,
    /// Which of them were opened by a line.
    pub opened: Vec<bool>,
    /// What holds of each line in these.
    pub rules: Vec<Rules>,
    /// Whether a device may lose power in one of them.
    pub risky: bool,
}

/// The lines behind the bus, as far as they were read.
#[derive(Drop)]
pub(crate) struct Body {
    alloc: Global,
    /// The bus at its start.
    pub start: Scene,
    blocks: Vec<Vec<Vec<Line>>>,
    // which of these were opened by a line
    opened: Vec<bool>,
    // what holds of each line in these
    rules: Vec<Rules>,
    // whether a device may lose power in one of them
    risky: bool,
    // the block that is open
    block: Option<OpenBlock>,
    // the line whose expectations may still come
    held: Option<Line>,
}

/// A block of one line.
fn block_of(alloc: Global, line: Line) -> Result<Vec<Vec<Line>>, AllocError>
    ensures { IfOk result (λ tracks. tracks_of tracks.items ≡ alone (step_of line)) }
{
    let mut track = Vec::new(alloc);
    track.push(line)?;
    let mut tracks = Vec::new(alloc);
    tracks.push(track)?;
    Ok(tracks)
}

/// A line of which one thing more is expected; without a held line, a place.
fn expecting(
    alloc: Global,
    held: Option<Line>,
    expectation: Expectation,
) -> Result<Line, AllocError>
    ensures { IfOk result (λ line. step_of line ≡ with_expected expectation (option_map step_of held)) }
{
    let mut line = match held {
        Some(line) => line,
        None => place_of(alloc, expectation.number),
    };
    line.expectations.push(expectation)?;
    Ok(line)
}

/// A place of this number, where nothing is expected.
fn place_of(alloc: Global, number: u64) -> Line
    ensures { step_of result ≡ record { number = number; command = None; risk = RiskValue.Nobody; expected = [] } }
{
    Line {
        number,
        command: None,
        risk: Risk::Nobody,
        expectations: Vec::new(alloc),
    }
}

/// Whether facts ask for the result of the previous line.
fn asks_before(facts: &Facts) -> bool
    ensures { result ≡ ask_before facts.now }
{
    let claims = facts.claims();
    for index in 0..claims.len() {
        if is_of_before(&claims[index].fact) {
            return true;
        }
    }
    false
}

/// Whether a fact asks for the result of the previous line.
fn is_of_before(fact: &Fact) -> bool
    ensures { result ≡ is_of_before fact.now }
{
    matches!(
        fact,
        Fact::Done | Fact::Refused(_) | Fact::AnyRefused | Fact::Served(_) | Fact::Bytes(_)
    )
}

/// Why a mark outside of blocks is refused, if it is.
fn refused_outside(mark: &Mark) -> Option<Reason>
    ensures { result ≡ refuses_outside mark.now }
{
    match mark {
        Mark::Any | Mark::Expect(_) => None,
        Mark::Anywhere(_) | Mark::Always(_) | Mark::Track | Mark::Close => Some(Reason::NoBlock),
    }
}

impl Body {
    ghost use Rattle.std.specs.Prelude.{◌≡◌, ◌++◌, [], ℕ, List, None, Some, IfOk, MatchOption, OnOk, map, option_map, false};
    ghost use Rattle.i3c_lines.specs.declared.command.Command.{Command as CommandValue};
    ghost use Rattle.i3c_facts.specs.declared.marks.Mark.{Mark as MarkValue};
    ghost use Rattle.i3c_tracks.specs.declared.file_line.FileLine.{FileLine as FileLineValue};
    ghost use Rattle.i3c_tracks.specs.Planning.{blocks_of, rules_of, step_of, tracks_of};
    ghost use Rattle.i3c_tracks.specs.Drafting.{Adds, AddsClosed, Holds, IsUnread, Puts, ReadsOn, Settles, TakesPlace, all_rules, comes_to, here_of, open_of, opens, refusal_left, risks, with_expected};
    ghost use Rattle.i3c_tracks.specs.Refusing.{at_end, begins_track, has_command, is_in_track, misses_line, refuses_here, refuses_mark_there, refuses_there};
    ghost use Rattle.i3c_tracks.specs.declared.refusal.Reason.{Reason as ReasonValue};

    /// Nothing behind this bus was read.
    pub(crate) fn new(alloc: Global, start: Scene) -> Body
        ensures start { result.start ≡ start }
        ensures none { IsUnread result }
    {
        Body {
            alloc,
            start,
            blocks: Vec::new(alloc),
            opened: Vec::new(alloc),
            rules: Vec::new(alloc),
            risky: false,
            block: None,
            held: None,
        }
    }

    /// Why a command is refused here, if it is.
    pub(crate) fn refuses(&self, command: &Command) -> Option<Reason>
        ensures { result ≡ refuses_there (here_of self.now).block command.now }
    {
        match &self.block {
            Some(open) => open.refuses(command),
            None => None,
        }
    }

    /// Why a mark is refused here, if it is.
    pub(crate) fn refuses_mark(&self, mark: &Mark) -> Option<Reason>
        ensures { result ≡ refuses_here (here_of self.now) (FileLineValue.Marks mark.now) }
    {
        let refused = match &self.block {
            Some(open) => open.refuses_mark(mark),
            None => refused_outside(mark),
        };
        match refused {
            Some(reason) => Some(reason),
            None if self.misses_line(mark) => Some(Reason::NoLine),
            None => None,
        }
    }

    /// Whether a mark has no line before it that it needs.
    fn misses_line(&self, mark: &Mark) -> bool
        ensures { result ≡ misses_line (here_of self.now).block (here_of self.now).before mark.now }
    {
        match mark {
            Mark::Expect(facts) => {
                self.begins_track() || asks_before(facts) && !self.has_command()
            }
            Mark::Always(facts) => asks_before(facts) && !self.has_command(),
            _ => false,
        }
    }

    /// Whether the next line begins a track.
    fn begins_track(&self) -> bool
        ensures { result ≡ begins_track (here_of self.now).block (here_of self.now).before }
    {
        self.is_in_track() && self.held.is_none()
    }

    /// Whether the line before is known, and has a command.
    fn has_command(&self) -> bool
        ensures { result ≡ has_command (here_of self.now).before }
    {
        match &self.held {
            Some(line) => line.command.is_some(),
            None => false,
        }
    }

    /// Whether a track has begun in the open block.
    fn is_in_track(&self) -> bool
        ensures { result ≡ is_in_track (here_of self.now).block }
    {
        match &self.block {
            Some(open) => open.has_track(),
            None => false,
        }
    }

    /// Adds a command that isn't refused.
    pub(crate) fn add_command(&mut self, number: u64, command: Command) -> Result<(), AllocError>
        requires { refuses_there (here_of self.old).block command ≡ None }
        ensures { OnOk result (ReadsOn self.old (number, FileLineValue.Does command) self.new) }
    {
        self.settle()?;
        let risk = self.take_place(&command);
        self.held = Some(Line {
            number,
            command: Some(command),
            risk,
            expectations: Vec::new(self.alloc),
        });
        Ok(())
    }

    /// One more line has its place in the open block, if there is one: the devices that may lose power in it.
    fn take_place(&mut self, command: &Command) -> Risk
        ensures { TakesPlace self.old command.now result self.new }
    {
        match &mut self.block {
            Some(open) => open.take_place(command),
            None => Risk::Nobody,
        }
    }

    /// Adds a mark that isn't refused.
    pub(crate) fn add_mark(&mut self, number: u64, mark: Mark) -> Result<(), AllocError>
        requires placed { refuses_mark_there (here_of self.old).block mark ≡ None }
        requires known { misses_line (here_of self.old).block (here_of self.old).before mark ≡ false }
        ensures { OnOk result (ReadsOn self.old (number, FileLineValue.Marks mark) self.new) }
    {
        match mark {
            Mark::Any => {
                self.block = Some(OpenBlock::new(self.alloc));
                Ok(())
            }
            Mark::Anywhere(name) => {
                self.add_risk(name);
                Ok(())
            }
            Mark::Always(facts) => self.add_always(number, facts),
            Mark::Track => self.begin_track(),
            Mark::Close => self.close(),
            Mark::Expect(facts) => self.expect(Expectation::of_line(number, facts)),
        }
    }

    /// `anywhere`: this device may lose power in any frame of the block.
    fn add_risk(&mut self, name: Name)
        requires { refuses_mark_there (here_of self.old).block (MarkValue.Anywhere name) ≡ None }
        ensures { (number : ℕ) → ReadsOn self.old (number, FileLineValue.Marks (MarkValue.Anywhere name)) self.new }
    {
        self.risky = true;
        match &mut self.block {
            Some(open) => {
                open.add_risk(name);
            }
            None => {}
        }
    }

    /// `always`: these facts have to hold at the block's start and after each of its lines.
    fn add_always(&mut self, number: u64, facts: Facts) -> Result<(), AllocError>
        requires { refuses_mark_there (here_of self.old).block (MarkValue.Always facts) ≡ None }
        ensures { OnOk result (ReadsOn self.old (number, FileLineValue.Marks (MarkValue.Always facts)) self.new) }
    {
        let again = facts.copied()?;
        self.expect(Expectation::lasting(number, again))?;
        match &mut self.block {
            Some(open) => open.add_always(Expectation::lasting(number, facts)),
            None => Ok(()),
        }
    }

    /// This is expected behind the previous line, or, if that isn't known, of each state that can be there.
    fn expect(&mut self, expectation: Expectation) -> Result<(), AllocError>
        ensures { OnOk result (Holds self.old (with_expected expectation (option_map step_of self.old.held)) self.new) }
    {
        let held = mem::replace(&mut self.held, None);
        self.held = Some(expecting(self.alloc, held, expectation)?);
        Ok(())
    }

    /// `track`: the next track begins.
    fn begin_track(&mut self) -> Result<(), AllocError>
        requires { refuses_mark_there (here_of self.old).block MarkValue.Track ≡ None }
        ensures { OnOk result ((number : ℕ) → ReadsOn self.old (number, FileLineValue.Marks MarkValue.Track) self.new) }
    {
        self.settle()?;
        match &mut self.block {
            Some(open) => open.begin_track(self.alloc),
            None => Ok(()),
        }
    }

    /// `close`: the block is added.
    #[tactic(auto, using(crate::proofs::Reading::close_rules))]
    fn close(&mut self) -> Result<(), AllocError>
        requires { refuses_mark_there (here_of self.old).block MarkValue.Close ≡ None }
        ensures { OnOk result ((number : ℕ) → ReadsOn self.old (number, FileLineValue.Marks MarkValue.Close) self.new) }
    {
        self.settle()?;
        match mem::replace(&mut self.block, None) {
            Some(open) => self.add_closed(open),
            None => Ok(()),
        }
    }

    /// Adds a block that a line opened, and what holds of each of its lines.
    fn add_closed(&mut self, block: OpenBlock) -> Result<(), AllocError>
        ensures { OnOk result (AddsClosed self.old (open_of block) self.new) }
    {
        let (tracks, rules) = block.close()?;
        self.rules.push(rules)?;
        self.add_block(tracks, true)
    }

    /// Adds a block, which a line opened or which is one line by itself.
    fn add_block(&mut self, tracks: Vec<Vec<Line>>, opened: bool) -> Result<(), AllocError>
        ensures { OnOk result (Adds self.old (tracks_of tracks.items) opened self.new) }
    {
        self.blocks.push(tracks)?;
        self.opened.push(opened)?;
        Ok(())
    }

    /// Puts the line that is held into its place, if one is: no expectation of its own comes any more.
    pub(crate) fn settle(&mut self) -> Result<(), AllocError>
        ensures { OnOk result (Settles self.old self.new) }
    {
        match mem::replace(&mut self.held, None) {
            Some(line) => self.put(line),
            None => Ok(()),
        }
    }

    /// Puts a line into the last track of the open block, or adds it as a block of its own.
    fn put(&mut self, line: Line) -> Result<(), AllocError>
        requires { self.old.held ≡ None }
        ensures { OnOk result (Settles (record self.old { held = Some line }) self.new) }
    {
        if self.is_in_track() {
            return self.put_in_track(line);
        }
        let tracks = block_of(self.alloc, line)?;
        self.add_block(tracks, false)
    }

    /// Puts a line into the last track of the open block.
    fn put_in_track(&mut self, line: Line) -> Result<(), AllocError>
        ensures { OnOk result (Puts self.old (step_of line) self.new) }
    {
        match &mut self.block {
            Some(open) => open.push(line),
            None => Ok(()),
        }
    }

    /// The blocks, after the last line, if none is open.
    pub(crate) fn finish(self) -> Result<Option<Blocks>, AllocError>
        ensures { IfOk result (λ found. MatchOption found (refusal_left self [] ≡ Some (at_end ReasonValue.NoClose))
            (λ blocks. (blocks.start ≡ self.start) × (refusal_left self [] ≡ None) × (blocks_of blocks.blocks.items ≡ comes_to self []) × (blocks.opened.items ≡ opens self []) × (map rules_of blocks.rules.items ≡ all_rules self []) × (blocks.risky ≡ risks self []))) }
    {
        let mut body = self;
        if body.block.is_some() {
            return Ok(None);
        }
        body.settle()?;
        Ok(Some(Blocks {
            start: body.start,
            blocks: body.blocks,
            opened: body.opened,
            rules: body.rules,
            risky: body.risky,
        }))
    }
}
