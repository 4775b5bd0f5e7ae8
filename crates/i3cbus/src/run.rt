ghost use Rattle.std.specs.Prelude.{◌≡◌};
ghost use Rattle.i3cbus.specs.Endings.{showing_of};

use crate::ending::{Ending, explore_ending, lines_ending, meeting_ending, status_of};
use crate::meeting::run_meeting;
use crate::stack::make_stack;
use crate::watcher::Watcher;
use i3c_cli::{
    Fault, Output, owned_text, print_fault, print_version, reading_fault, run_capture, run_file,
    run_stress,
};
use i3c_task::{Exploring, STANDARD_INPUT, Task, task_named};
use i3c_tracks::{Answer, ExploreFault, Question, Showing, run_explore};
use std::alloc::Global;
use std::io::{Read, Write};
use std::rt::{Env, Files};
use std::sync::Wait;
use std::thread::Threads;
use std::{env, fs};

/// Runs the program, tells standard error why it gave up, if it did, and gives its exit status. Somebody may watch
/// standard error on a terminal. Before anything else there is room for its stack.
pub(crate) fn run<R>(rt: &R, is_watched: bool) -> u8
where
    R: Env + Files + Input + Print + Eprint + AllocGlobal + Threads + Wait + Sync,
{
    let outcome = match make_stack(rt.alloc(), u8::from(is_watched)) {
        Ok(()) => run_named(rt, is_watched),
        Err(_) => Err(Fault::Memory),
    };
    if let Err(fault) = &outcome {
        print_fault(rt, fault);
    }
    status_of(&outcome)
}

/// Does what the command line asks for. Its words are judged before its file is opened.
// not in line, since what it calls needs room on the stack as soon as it begins
#[inline(never)]
fn run_named<R>(rt: &R, is_watched: bool) -> Result<Ending, Fault>
where
    R: Env + Files + Input + Print + Eprint + AllocGlobal + Threads + Wait + Sync,
{
    let words = words_given(rt)?;
    match task_named(rt.alloc(), &words)? {
        Task::File(work, file) => lines_ending(run_file(rt, work, file)),
        Task::Capture(capturing, telling, file) => lines_ending(run_capture(
            rt, capturing, telling, file,
        )),
        Task::Explore(exploring, file) => {
            let watcher = Watcher::new(rt, is_watched);
            run_exploration(rt, &exploring, &watcher, file)
        }
        Task::Meet(meeting, scene) => meeting_ending(run_meeting(rt, meeting, scene)),
        Task::Stress(stress) => lines_ending(run_stress(rt, &stress, is_watched)),
        Task::Version => lines_ending(print_version(rt)),
    }
}

/// Explores a file, or standard input. What is asked of its ends is judged before it is opened.
#[inline(never)]
fn run_exploration<R>(
    rt: &R,
    exploring: &Exploring<'_>,
    watcher: &Watcher<'_, R>,
    file: &str,
) -> Result<Ending, Fault>
where
    R: Files + Input + Print + Eprint + AllocGlobal + Threads + Sync,
{
    let questions = questions_of(rt.alloc(), &exploring.by)?;
    if file == STANDARD_INPUT {
        return explore_from(rt, exploring, &questions, watcher, &mut rt.reader());
    }
    match fs::open(rt, file) {
        Ok(mut input) => explore_from(rt, exploring, &questions, watcher, &mut input),
        Err(error) => Err(reading_fault(&error)),
    }
}

/// The words of the command line, without the program's name.
fn words_given<R: Env + AllocGlobal>(rt: &R) -> Result<Vec<String>, Fault> {
    match env::args(rt) {
        Ok(words) => Ok(words.skip(1).collect(rt.alloc())?),
        Err(error) => Err(reading_fault(&error)),
    }
}

/// Explores the file of a reader.
fn explore_from<R: Files + Print + Eprint + AllocGlobal + Threads + Sync, S: Read>(
    rt: &R,
    exploring: &Exploring<'_>,
    questions: &[Question],
    watcher: &Watcher<'_, R>,
    input: &mut S,
) -> Result<Ending, Fault> {
    let mut printed = Output::new(rt)?;
    let alloc = rt.alloc();
    let showing = showing_of(exploring.quiet);
    let outcome = run_explore(
        rt,
        alloc,
        input,
        &mut printed,
        exploring.limits,
        exploring.part,
        exploring.jobs,
        showing,
        questions,
        watcher,
    );
    let flushed = printed.flush().is_ok();
    explore_ending(told(alloc, &exploring.by, outcome), flushed)
}

/// What is asked of each end.
fn questions_of(alloc: Global, texts: &[&str]) -> Result<Vec<Question>, Fault> {
    let mut questions = Vec::new(alloc);
    for index in 0..texts.len() {
        let question = question_of(alloc, texts[index])?;
        if questions.push(question).is_err() {
            return Err(Fault::Memory);
        }
    }
    Ok(questions)
}

/// What a text asks of each end.
fn question_of(alloc: Global, text: &str) -> Result<Question, Fault> {
    match Question::of(alloc, text.as_bytes())? {
        Some(question) => Ok(question),
        None => Err(Fault::NoFact(owned_text(alloc, text.as_bytes())?)),
    }
}

/// The answer, or the program's fault for that of an exploration.
fn told(
    alloc: Global,
    texts: &[&str],
    outcome: Result<Answer, ExploreFault>,
) -> Result<Answer, Fault> {
    match outcome {
        Ok(answer) => Ok(answer),
        Err(ExploreFault::Script(fault)) => Err(fault.into()),
        Err(ExploreFault::NoName(place)) => match texts.get(place) {
            Some(text) => Err(Fault::NoName(owned_text(alloc, text.as_bytes())?)),
            None => Err(Fault::NoName(String::new(alloc))),
        },
    }
}

/// What is printed where all holds.
fn showing_of(quiet: bool) -> Showing
    ensures { result ≡ showing_of quiet }
{
    if quiet {
        Showing::Numbers
    } else {
        Showing::Ends
    }
}
