use crate::body::Body;
use crate::file_line::{FileLine, read_file_line};
use crate::front::Front;
use crate::plan::{Plan, PlanFault};
use crate::refusal::{Reason, Refusal};
use i3c_facts::Mark;
use i3c_lines::Command;
use i3c_scene::Scene;
use std::alloc::{AllocError, Global};
use std::mem;

/// A plan of the lines that were read.
#[derive(Drop)]
pub(crate) struct Draft {
    alloc: Global,
    front: Front,
    // the numbers of the commands before the bus, and of the one that made it
    before: Vec<u64>,
    // the lines behind the bus, if a line made it
    body: Option<Body>,
}

impl Draft {
    ghost use Rattle.std.specs.Prelude.{◌≡◌, ℕ, List, Option, [], None, Some, Ok, MatchResult, OnOk};
    ghost use Rattle.i3c_base.specs.State.{no_board};
    ghost use Rattle.i3c_tracks.specs.Drafting.{IsBegunBy, IsEndFault, IsUnread, Reads, comes, refuses};
    ghost use Rattle.i3c_tracks.specs.Planning.{IsPlanOf, Outline, outline};
    ghost use Rattle.i3c_tracks.specs.Taking.{Takes};
    ghost use Rattle.i3c_tracks.specs.declared.body.Body.{Body as BodyValue};
    ghost use Rattle.i3c_tracks.specs.declared.file_line.FileLine.{FileLine as FileLineValue};

    /// A plan before the first line.
    pub(crate) fn new(alloc: Global) -> Draft
        ensures begun { (first : Option Outline) → IsBegunBy result.body first }
        ensures outline { (first : Option Outline) (rest : List (ℕ × FileLineValue)) → comes result first rest ≡ outline no_board [] [] [] rest }
    {
        Draft {
            alloc,
            front: Front::new(alloc),
            before: Vec::new(alloc),
            body: None,
        }
    }

    /// Takes the file's line of this number.
    pub(crate) fn take(&mut self, number: u64, line: &[u8]) -> Result<(), PlanFault>
        ensures { Takes self.old number line.now self.new result }
    {
        let said = read_file_line(self.alloc, line)?;
        if let Some(reason) = self.refuses(&said) {
            return Err(PlanFault::Refused(Refusal {
                reason,
                line: Some(number),
            }));
        }
        Ok(self.add(number, said)?)
    }

    /// Why a line is refused here, if it is.
    fn refuses(&self, said: &FileLine) -> Option<Reason>
        ensures { result ≡ refuses self.now said.now }
    {
        match said {
            FileLine::Formless => Some(Reason::BadLine),
            FileLine::Nothing => None,
            FileLine::Does(command) => match &self.body {
                Some(body) => body.refuses(command),
                None => None,
            },
            FileLine::Marks(mark) => match &self.body {
                Some(body) => body.refuses_mark(mark),
                None => Some(Reason::NoBus),
            },
        }
    }

    /// Adds a line that isn't refused.
    fn add(&mut self, number: u64, said: FileLine) -> Result<(), AllocError>
        requires { refuses self.old said ≡ None }
        ensures { OnOk result (Reads self.old (number, said) self.new) }
    {
        match said {
            FileLine::Nothing | FileLine::Formless => Ok(()),
            FileLine::Does(command) => self.add_command(number, command),
            FileLine::Marks(mark) => self.add_mark(number, mark),
        }
    }

    /// Adds a command that isn't refused.
    fn add_command(&mut self, number: u64, command: Command) -> Result<(), AllocError>
        requires { refuses self.old (FileLineValue.Does command) ≡ None }
        ensures { OnOk result (Reads self.old (number, FileLineValue.Does command) self.new) }
    {
        match &mut self.body {
            Some(body) => body.add_command(number, command),
            None => self.add_before(number, &command),
        }
    }

    /// Adds a command before the bus.
    fn add_before(&mut self, number: u64, command: &Command) -> Result<(), AllocError>
        requires { self.old.body ≡ None }
        ensures { OnOk result (Reads self.old (number, FileLineValue.Does command.now) self.new) }
    {
        self.before.push(number)?;
        match self.front.obey(number, command)? {
            Some(start) => {
                self.begin(start);
                Ok(())
            }
            None => Ok(()),
        }
    }

    /// The lines behind this bus come now.
    fn begin(&mut self, start: Scene)
        requires { self.old.body ≡ None }
        ensures { (body : BodyValue) × (self.new ≡ record self.old { body = Some body }) × (body.start ≡ start) × IsUnread body }
    {
        let body = Body::new(self.alloc, start);
        match mem::replace(&mut self.body, Some(body)) {
            None => {}
            Some(_) => unreachable!(),
        }
    }

    /// Adds a mark that isn't refused.
    fn add_mark(&mut self, number: u64, mark: Mark) -> Result<(), AllocError>
        requires { refuses self.old (FileLineValue.Marks mark) ≡ None }
        ensures { OnOk result (Reads self.old (number, FileLineValue.Marks mark) self.new) }
    {
        match &mut self.body {
            Some(body) => body.add_mark(number, mark),
            None => Ok(()),
        }
    }

    /// The plan, after the last line.
    pub(crate) fn finish(self) -> Result<Plan, PlanFault>
        ensures { MatchResult result (λ plan. (first : Option Outline) → IsBegunBy self.body first → (out : Outline) × (comes self first [] ≡ Ok out) × IsPlanOf out plan) (IsEndFault self) }
    {
        let Draft {
            alloc: _,
            front,
            before,
            body,
        } = self;
        let Some(body) = body else {
            return Err(PlanFault::of_file(Reason::NoBus));
        };
        match body.finish()? {
            Some(found) => Ok(Plan {
                start: found.start,
                before,
                refused: front.refused,
                blocks: found.blocks,
                opened: found.opened,
                rules: found.rules,
                risky: found.risky,
            }),
            None => Err(PlanFault::of_file(Reason::NoClose)),
        }
    }
}
