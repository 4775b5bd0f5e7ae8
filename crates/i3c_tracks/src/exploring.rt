ghost use Rattle.std.specs.Prelude.{◌≡◌, ◌<◌, ◌≤◌, ◌+◌, ℕ, List, [], ◌∷◌, ◌++◌, Err, IfErr, IfOk, IfSome, MatchOption, OnOk, length};
ghost use Rattle.std.specs.Global.{Vec as VecValue};
ghost use Rattle.std.specs.Io.KnownBytes.{Appends, IsAtEnd};
ghost use Rattle.i3c_tracks.specs.Answering.{IsAnswer, IsExplored, IsPrinted};
ghost use Rattle.i3c_tracks.specs.Planning.{AreLines, IsPlan};
ghost use Rattle.i3c_tracks.specs.Questions.{AreKnown, IsFault, IsFaultOf, IsUnknown};
ghost use Rattle.i3c_tracks.specs.Telling.{refusal_line};
ghost use Rattle.i3c_tracks.specs.declared.answer.Answer.{Answer as AnswerValue};
ghost use Rattle.i3c_tracks.specs.declared.explore_fault.ExploreFault.{ExploreFault as ExploreFaultValue};
ghost use Rattle.i3c_tracks.specs.Refusing.{at_end};
ghost use Rattle.i3c_tracks.specs.declared.refusal.Reason.{Reason as ReasonValue};

use crate::answer::Answer;
use crate::broken::push_broken;
use crate::explore_fault::ExploreFault;
use crate::plan::{Plan, PlanFault, read_plan};
use crate::question::Question;
use crate::refusal::{Reason, Refusal};
use crate::report::push_report;
use crate::showing::Showing;
use i3c_explore::{Limits, Part, Stop, Watch, explore_on};
use i3c_streams::{CHUNK, ScriptFault, ScriptLines, write_out};
use i3c_text::Text;
use std::alloc::{AllocError, Global};
use std::io::{Read, Write};
use std::thread::Threads;

/// Explores every order of a part of a file's orders. It prints the ends that they lead to, or an order that breaks an
/// expectation, or why the file is refused. If questions are asked, the ends are in groups.
///
/// The file is read whole before anything runs. Up to `jobs` threads run lines, and each number of jobs prints the same.
/// A watcher is told the progress while lines run in many orders, and the end before anything is printed.
pub fn run_explore<T: Threads + Sync, R: Read, W: Write, V: Watch>(
    rt: &T,
    alloc: Global,
    reader: &mut R,
    writer: &mut W,
    limits: Limits,
    part: Part,
    jobs: usize,
    showing: Showing,
    questions: &[Question],
    watch: &V,
) -> Result<Answer, ExploreFault>
    // an `Ok` comes after the whole of a file that isn't too large
    ensures whole { OnOk result (IsAtEnd (R.remaining reader.new)) }
    ensures fits { OnOk result (IfSome (R.remaining reader.old) (λ bytes. length bytes ≤ 1048576)) }
    ensures large { result ≡ Err (ExploreFaultValue.Script ScriptFault.TooLarge) → IfSome (R.remaining reader.old) (λ bytes. 1048576 < length bytes) }
    // Every order of the part, by the plan that the file's lines have, leads on and breaks no expectation; or one breaks
    // one, and no shorter one of the part does.
    ensures answer { IfOk result (λ answer. (lines : List (VecValue ℕ)) × AreLines (R.remaining reader.old) lines × IsExplored lines part answer) }
    // What went out is one of three. It is the first refusal of the file's lines, or that a limit was reached. Or it is the
    // shortest order that breaks an expectation, as a script of the file's lines, with the expectation that the last of them
    // breaks. Or it has how many orders the part has, how many lines were run, and to how many ends all orders lead. Behind
    // these numbers are the ends, each with an order that leads there, or their groups, or nothing. If something is asked, a
    // line of the file gives each name in it.
    ensures printed { IfOk result (λ answer. (lines : List (VecValue ℕ)) × (said : List ℕ) × AreLines (R.remaining reader.old) lines × IsPrinted lines limits part showing questions.now answer [] said × Appends (W.contents writer.old) (W.contents writer.new) said) }
    // a name that no line of the file gives is that of the question that is told
    ensures fault { IfErr result (IsFault (R.remaining reader.old) questions.now) }
{
    let lines = match read_lines(alloc, reader) {
        Ok(lines) => lines,
        Err(fault) => return Err(ExploreFault::Script(fault)),
    };
    let mut text = Text::new(alloc);
    match answer_file(
        rt, alloc, &lines, limits, part, jobs, showing, questions, watch, &mut text,
    ) {
        Ok(answer) => match write_out(text.as_bytes(), writer) {
            Ok(()) => Ok(answer),
            Err(fault) => Err(ExploreFault::Script(fault)),
        },
        Err(fault) => Err(fault),
    }
}

/// The lines of a file, without their line feeds. A file has 1,048,576 bytes at most.
///
/// # Errors
///
/// There is no memory for it, the reader fails, or the file is too large.
pub fn read_lines<R: Read>(alloc: Global, reader: &mut R) -> Result<Vec<Vec<u8>>, ScriptFault>
    ensures lines { IfOk result (λ lines. AreLines (R.remaining reader.old) lines.items) }
    ensures whole { OnOk result (IsAtEnd (R.remaining reader.new)) }
    ensures fits { OnOk result (IfSome (R.remaining reader.old) (λ bytes. length bytes ≤ 1048576)) }
    ensures large { result ≡ Err ScriptFault.TooLarge → IfSome (R.remaining reader.old) (λ bytes. 1048576 < length bytes) }
{
    let Ok(mut chunk) = vec![in alloc; 0u8; CHUNK] else {
        return Err(ScriptFault::Memory);
    };
    let mut script = ScriptLines::new(alloc);
    let mut lines = Vec::new(alloc);
    for _ in 0..u64::MAX {
        match script.advance(reader, &mut chunk) {
            Ok(true) => {}
            Ok(false) => return Ok(lines),
            Err(fault) => return Err(fault),
        }
        match add_line(alloc, script.line(), &mut lines) {
            Ok(()) => {}
            Err(_) => return Err(ScriptFault::Memory),
        }
    }
    // a file has fewer lines
    Err(ScriptFault::Memory)
}

/// Appends a copy of a line to the lines of a file.
fn add_line(alloc: Global, line: &[u8], lines: &mut Vec<Vec<u8>>) -> Result<(), AllocError>
    ensures { OnOk result ((added : VecValue ℕ) × (added.items ≡ line.now) × (lines.new.items ≡ lines.old.items ++ added ∷ [])) }
{
    let mut copy = Vec::new(alloc);
    copy.extend_from_slice(line)?;
    lines.push(copy)?;
    Ok(())
}

/// Reads and explores a file, and appends what is printed of it.
fn answer_file<T: Threads + Sync, V: Watch>(
    rt: &T,
    alloc: Global,
    lines: &[Vec<u8>],
    limits: Limits,
    part: Part,
    jobs: usize,
    showing: Showing,
    questions: &[Question],
    watch: &V,
    text: &mut Text,
) -> Result<Answer, ExploreFault>
    ensures answer { IfOk result (IsExplored lines.now part) }
    ensures printed { IfOk result (λ answer. IsPrinted lines.now limits part showing questions.now answer text.old text.new) }
    ensures fault { IfErr result (IsFaultOf lines.now questions.now) }
{
    match read_plan(alloc, lines) {
        Ok(plan) => answer_plan(
            rt, alloc, lines, &plan, limits, part, jobs, showing, questions, watch, text,
        ),
        Err(PlanFault::Memory) => Err(ExploreFault::Script(ScriptFault::Memory)),
        Err(PlanFault::Refused(refusal)) => match refusal.push(text) {
            Ok(()) => Ok(Answer::Refused),
            Err(_) => Err(ExploreFault::Script(ScriptFault::Memory)),
        },
    }
}

/// Explores the plan of a file, unless a question has a name that no line gives, and appends what is printed of it.
fn answer_plan<T: Threads + Sync, V: Watch>(
    rt: &T,
    alloc: Global,
    lines: &[Vec<u8>],
    plan: &Plan,
    limits: Limits,
    part: Part,
    jobs: usize,
    showing: Showing,
    questions: &[Question],
    watch: &V,
    text: &mut Text,
) -> Result<Answer, ExploreFault>
    requires { IsPlan lines.now plan.now }
    ensures answer { IfOk result (IsExplored lines.now part) }
    ensures printed { IfOk result (λ answer. IsPrinted lines.now limits part showing questions.now answer text.old text.new) }
    ensures fault { IfErr result (IsFaultOf lines.now questions.now) }
{
    match first_unknown(lines, questions) {
        Some(place) => Err(ExploreFault::NoName(place)),
        None => match explore_plan(
            rt, alloc, lines, plan, limits, part, jobs, showing, questions, watch, text,
        ) {
            Ok(answer) => Ok(answer),
            Err(_) => Err(ExploreFault::Script(ScriptFault::Memory)),
        },
    }
}

/// The place of the first question with a name that no line of the file gives.
fn first_unknown(lines: &[Vec<u8>], questions: &[Question]) -> Option<usize>
    ensures { MatchOption result (AreKnown lines.now questions.now) (IsUnknown lines.now questions.now) }
{
    for index in 0..questions.len() {
        if !questions[index].is_of(lines) {
            return Some(index);
        }
    }
    None
}

/// What is left of the limits after the lines before the bus.
fn limits_left(limits: Limits, before: usize) -> Option<Limits>
    ensures steps { IfSome result (λ left. left.steps + before ≡ limits.steps) }
    ensures states { IfSome result (λ left. left.states ≡ limits.states) }
{
    let steps = limits.steps.checked_sub(before as u64)?;
    Some(Limits {
        steps,
        states: limits.states,
    })
}

/// Explores a part of a plan's orders, and appends what is printed of it.
fn explore_plan<T: Threads + Sync, V: Watch>(
    rt: &T,
    alloc: Global,
    lines: &[Vec<u8>],
    plan: &Plan,
    limits: Limits,
    part: Part,
    jobs: usize,
    showing: Showing,
    questions: &[Question],
    watch: &V,
    text: &mut Text,
) -> Result<Answer, AllocError>
    ensures answer { IfOk result (IsAnswer plan.now.start plan.now.blocks.items part) }
    ensures printed { IsPlan lines.now plan.now → AreKnown lines.now questions.now → IfOk result (λ answer. IsPrinted lines.now limits part showing questions.now answer text.old text.new) }
{
    let Some(left) = limits_left(limits, plan.before.len()) else {
        return refuse_most(text);
    };
    let start = plan.start.copied(alloc)?;
    match explore_on(rt, alloc, start, &plan.blocks, left, part, jobs, watch) {
        Ok(found) => {
            push_report(alloc, lines, plan, showing, questions, &found, text)?;
            Ok(Answer::Holds)
        }
        Err(Stop::Breaks(order)) => {
            push_broken(alloc, lines, plan, &order, text)?;
            Ok(Answer::Breaks)
        }
        Err(Stop::Most) => refuse_most(text),
        Err(Stop::Memory) => Err(AllocError),
    }
}

/// Appends that a limit was reached.
fn refuse_most(text: &mut Text) -> Result<Answer, AllocError>
    ensures answer { IfOk result (λ answer. answer ≡ AnswerValue.Refused) }
    ensures printed { OnOk result (text.new ≡ text.old ++ refusal_line (at_end ReasonValue.Most)) }
{
    let refusal = Refusal {
        reason: Reason::Most,
        line: None,
    };
    refusal.push(text)?;
    Ok(Answer::Refused)
}
