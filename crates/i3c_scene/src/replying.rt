ghost use Rattle.std.specs.Prelude.{◌≡◌, drop, IfOk};
ghost use Rattle.i3c_facts.specs.Hearing.{came_to, heard_with, nothing_heard, result_of};
ghost use Rattle.i3c_script.specs.Hearing.{all_heard};
ghost use Rattle.i3c_scene.specs.Trying.{IsEndOf};

use crate::reply::Reply;
use crate::rules::Rules;
use crate::scene_bus::SceneBus;
use crate::ways::Ways;
use i3c_base::Record;
use i3c_facts::{Before, Heard, LineResult};
use i3c_lines::{Command, Name, Refusal};
use i3c_script::{Piece, PieceList, push_askers, sum_of};
use i3c_text::{LineError, Text};
use std::alloc::{AllocError, Global};

impl SceneBus {
    ghost use Rattle.std.specs.Prelude.{◌≡◌, ◌<◌, ◌^◌, [], IfOk, OnOk};
    ghost use Rattle.i3c_script.specs.Pieces.{AreAsking};
    ghost use Rattle.i3c_scene.specs.Replying.{IsReply, IsSight, IsToldBehind};
    ghost use Rattle.i3c_scene.specs.Scenes.{name_in};

    /// What a program's line is answered that goes these ways of the devices at risk.
    pub(crate) fn reply(
        &mut self,
        alloc: Global,
        rules: &Rules,
        command: &Command,
        ways: Ways,
    ) -> Result<Reply, AllocError>
        requires one { ways.one < 2 ^ 16 }
        requires other { ways.other < 2 ^ 16 }
        ensures { IfOk result (λ reply. IsReply rules.now self.old command.now ways reply self.new) }
    {
        let count = self.bus().records().len();
        let behind = sum_of(self.forgotten(), count)?;
        let mut pieces = PieceList::new(alloc);
        let outcome = self.obey_in(command, &rules.risk, ways, &mut pieces);
        let refused = refusal_of(outcome)?;
        let mut reply = Reply::begun(alloc, pieces, refused, behind);
        self.tell(alloc, rules, count, &mut reply)?;
        Ok(reply)
    }

    /// Tells what the bus says behind a line, before which there were so many records: what was recorded, who asks, and which
    /// expectation the line breaks.
    fn tell(
        &self,
        alloc: Global,
        rules: &Rules,
        count: usize,
        reply: &mut Reply,
    ) -> Result<(), AllocError>
        requires { reply.old.there ≡ [] }
        ensures { OnOk result (IsToldBehind rules.now count self.now reply.old reply.new) }
    {
        let before = before_of(reply.pieces.as_slice(), reply.refused);
        reply.unmet = self.print_unmet(&before, rules.lasting.as_slice(), &mut reply.there)?;
        reply.added = records_behind(alloc, self.bus().records(), count)?;
        reply.asking = self.askers(alloc)?;
        Ok(())
    }

    /// What a program that waits is told.
    pub(crate) fn sight(&self, alloc: Global) -> Result<Reply, AllocError>
        ensures { IfOk result (IsSight self.now) }
    {
        let mut reply = Reply::begun(alloc, PieceList::new(alloc), None, 0);
        reply.asking = self.askers(alloc)?;
        Ok(reply)
    }

    /// The names of the devices that ask.
    fn askers(&self, alloc: Global) -> Result<Vec<Name>, AllocError>
        ensures { IfOk result (λ names. AreAsking self.now.state (name_in self.now.names) names.items) }
    {
        let mut names = Vec::new(alloc);
        push_askers(self.bus(), self.known(), &mut names)?;
        Ok(names)
    }
}

/// Why a line was refused that had this outcome, if it was.
fn refusal_of(outcome: Result<(), LineError<Refusal>>) -> Result<Option<Refusal>, AllocError>
    ensures { IfOk result (λ refused. IsEndOf outcome (result_of refused)) }
{
    match outcome {
        Ok(()) => Ok(None),
        Err(LineError::Refused(why)) => Ok(Some(why)),
        Err(LineError::Memory) => Err(AllocError),
    }
}

/// What facts know of a line that came to these pieces, and was refused or not.
fn before_of(pieces: &[Piece], refused: Option<Refusal>) -> Before
    ensures { result ≡ came_to pieces.now refused }
{
    Before {
        result: result_of(refused),
        heard: heard_in(pieces),
    }
}

/// How a line ended that was refused or not.
fn result_of(refused: Option<Refusal>) -> LineResult
    ensures { result ≡ result_of refused }
{
    match refused {
        Some(why) => LineResult::Refused(why),
        None => LineResult::Done,
    }
}

/// What facts know of pieces.
fn heard_in(pieces: &[Piece]) -> Heard
    ensures { result ≡ all_heard heard_with nothing_heard pieces.now }
{
    let mut heard = Heard::nothing();
    for index in 0..pieces.len() {
        heard.note(&pieces[index]);
    }
    heard
}

/// The records behind the first `count`.
fn records_behind(
    alloc: Global,
    records: &[Record],
    count: usize,
) -> Result<Vec<Record>, AllocError>
    ensures { IfOk result (λ behind. behind.items ≡ drop count records.now) }
{
    let mut behind = Vec::new(alloc);
    if let Some(added) = records.get(count..) {
        behind.extend_from_slice(added)?;
    }
    Ok(behind)
}
