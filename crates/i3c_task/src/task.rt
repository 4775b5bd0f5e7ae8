ghost use Rattle.std.specs.Prelude.{◌≡◌, ◌∷◌, ◌↔◌, [], IfOk, IsOkAnd, IsTrue, MatchOption, codes, length, map};
ghost use Rattle.std.specs.String.{string_bytes};
ghost use Rattle.clap.specs.Words.{found_of};
ghost use Rattle.i3c_task.specs.Options.{IsNumberOf, IsWhich, most_marks, most_orders};
ghost use Rattle.i3c_task.specs.Tasks.{HasCodes, IsAskedFor, IsCapturing, IsDrive, IsExplore, IsForm, IsNamed, IsRun, IsStress, IsTaskOf, IsTelling, IsTrace, IsWave, IsWaveform, file_of, limits_between};
ghost use Rattle.i3c_task.specs.Parsed.{IsGiven, IsReadFrom, NamesNone};
ghost use Rattle.i3c_task.specs.Words.{RunsInput};

use crate::argument::Bonds;
use crate::options::{
    flag_given, legacies_given, number_given, part_given, text_given, texts_given, which_given,
};
use crate::verb::{
    ALL, BY, DEVICES, ECHO, EVERY, EXPLAIN, FILE, FROM_TRACE, JOBS, JSON, LEGACY, LINT, MOST,
    MOST_DEVICES, MOST_JOBS, MOST_POSTS, NUMBERS, PART, PLAIN, POSTS, QUIET, SCL, SDA, STATES,
    STRICT, TEST, TOTALS, VCD, Verb, parser, usages,
};
use crate::words_fault::WordsFault;
use clap::ArgMatches;
use i3c_base::Addresses;
use i3c_ccc::CodeSet;
use i3c_explore::{Limits, Part};
use i3c_orders::Which;
use i3c_streams::{Form, Watching};
use std::alloc::Global;

/// The file that stands for standard input.
pub const STANDARD_INPUT: &str = "-";

/// The word that asks which program this is.
const VERSION: &str = "--version";

/// How many lines may be run without `--most`, as the help has it.
const MOST_STEPS: u64 = 10_000_000;

/// How many states there may be behind as many lines of a block.
const MOST_STATES: usize = 16_384;

/// What the program does.
#[derive(Drop)]
pub enum Task<'a> {
    /// Reads this file, and does this with it.
    File(Work, &'a str),
    /// Reads this file as a capture, and tells its symbols.
    Capture(Capturing<'a>, Telling, &'a str),
    /// Tries every order of this file's tracks so.
    Explore(Exploring<'a>, &'a str),
    /// Lets another program meet every order of this file's tracks so.
    Meet(Meeting, &'a str),
    /// Lets devices post from threads of their own.
    Stress(Stress),
    /// Prints which program this is.
    Version,
}

/// What the program does with a file.
#[derive(Clone, Copy)]
pub enum Work {
    /// Runs it as a script.
    Run,
    /// Runs it as a script, and shows more of it.
    Watch(Watching),
    /// Runs it as a script, and answers each line in this form before it reads the next.
    Drive(Form),
    /// Checks it as a script, and doesn't run it.
    Check,
    /// Runs it as a script, and prints a picture of its wire.
    Draw,
    /// Tells it as a trace.
    Tell(Telling),
    /// Runs it as a script, and prints its wire as a value change dump.
    WaveScript(Waveform),
    /// Prints it, as a trace, as a value change dump.
    Wave(Waveform),
}

/// How a trace is told.
#[derive(Clone, Copy)]
pub enum Telling {
    /// What it means, where these codes are known by name.
    Plain(CodeSet),
    /// With its faults. Legacy targets have these addresses.
    Lint(Addresses),
    /// The same, or with its faults if there are addresses of legacy targets; and standard error is told why lines are
    /// refused.
    Explain(CodeSet, Option<Addresses>),
}

/// How a capture is to be read.
#[derive(Clone, Copy)]
pub struct Capturing<'a> {
    /// The names of the signals that are SCL and SDA.
    pub scl: &'a str,
    pub sda: &'a str,
    /// Legacy targets have these addresses.
    pub legacies: Addresses,
    /// Whether each frame has its time.
    pub numbers: bool,
}

/// How a wire is printed as a value change dump.
#[derive(Clone, Copy)]
pub struct Waveform {
    /// Legacy targets have these addresses.
    pub legacies: Addresses,
    /// Whether it has SCL and SDA alone.
    pub plain: bool,
}

/// How the orders of a file's tracks are tried.
#[derive(Drop)]
pub struct Exploring<'a> {
    pub limits: Limits,
    /// The part of all orders.
    pub part: Part,
    /// The most threads that run lines.
    pub jobs: usize,
    /// Whether no end is printed where all holds.
    pub quiet: bool,
    /// The texts of the facts by which ends are grouped.
    pub by: Vec<&'a str>,
}

/// How another program meets the orders of a file's tracks.
#[derive(Drop)]
pub struct Meeting {
    /// The form in which its lines are answered.
    pub form: Form,
    /// What is run, and kept, before each of its lines.
    pub limits: Limits,
    /// Which orders are tried.
    pub which: Which,
    /// The most orders that are tried.
    pub most: u64,
    /// The most marks that are kept, each with the state and the places where it was sent.
    pub states: u64,
}

/// How many devices post, and how often each tries to.
#[derive(Clone, Copy)]
pub struct Stress {
    pub devices: u8,
    pub posts: u64,
    /// Whether the totals of the posts are printed too.
    pub totals: bool,
}

/// What the command line's words ask for, which come without the program's. No words at all mean `run -`.
pub fn task_named<'a>(alloc: Global, words: &'a [String]) -> Result<Task<'a>, WordsFault>
    ensures none { length words.now ≡ 0 → IsOkAnd result RunsInput }
    ensures version { map string_bytes words.now ≡ codes "--version" ∷ [] → IsOkAnd result (λ task. task ≡ Task.Version) }
    // the words name a command, and its options have their places in the task
    ensures named { IfOk result (IsNamed (map string_bytes words.now)) }
{
    if words.is_empty() {
        return Ok(Task::File(Work::Run, STANDARD_INPUT));
    }
    if is_version(words) {
        return Ok(Task::Version);
    }
    task_given(alloc, words, &parsed(alloc, words)?)
}

/// Whether the words ask only which program this is.
fn is_version(words: &[String]) -> bool
    ensures { IsTrue result ↔ (map string_bytes words.now ≡ codes "--version" ∷ []) }
{
    match words {
        [only] => only.as_str() == VERSION,
        _ => false,
    }
}

/// What the parser finds in the words. They are read twice. The parser that knows which options go together has to
/// accept them, and writes all errors. Clap's contract says where each word goes only for a parser without groups, and
/// the matches are that one's.
fn parsed<'a>(alloc: Global, words: &'a [String]) -> Result<ArgMatches<'a>, WordsFault>
    ensures { IfOk result (IsReadFrom (map string_bytes words.now)) }
{
    accepted(alloc, words, Bonds::Kept)?;
    accepted(alloc, words, Bonds::Left)
}

/// What this parser finds in the words.
fn accepted<'a>(
    alloc: Global,
    words: &'a [String],
    bonds: Bonds,
) -> Result<ArgMatches<'a>, WordsFault>
    ensures { bonds ≡ Bonds.Left → IfOk result (IsReadFrom (map string_bytes words.now)) }
{
    Ok(parser(alloc, bonds)?.try_get_matches_from(words)?)
}

/// The verb that was given, with its arguments.
fn verb_given<'m, 'a>(matches: &'m ArgMatches<'a>) -> Option<(Verb, &'m ArgMatches<'a>)>
    ensures { MatchOption result (NamesNone matches.now) (λ r. IsGiven matches.now r.0 r.1.now) }
{
    for usage in usages() {
        if let Some(given) = matches.subcommand_matches(usage.name) {
            return Some((usage.verb, given));
        }
    }
    None
}

/// The task that was given by these words. The parser requires a verb, and its arguments.
fn task_given<'a>(
    alloc: Global,
    words: &[String],
    matches: &ArgMatches<'a>,
) -> Result<Task<'a>, WordsFault>
    requires { IsReadFrom (map string_bytes words.now) matches.now }
    ensures { IfOk result (IsAskedFor (map string_bytes words.now)) }
{
    match verb_given(matches) {
        Some((verb, given)) => task_of(alloc, verb, given),
        None => unreachable!(),
    }
}

/// The task of a verb with these arguments.
fn task_of<'a>(alloc: Global, verb: Verb, given: &ArgMatches<'a>) -> Result<Task<'a>, WordsFault>
    ensures { IfOk result (IsTaskOf verb (found_of given.now)) }
{
    match verb {
        Verb::Run => Ok(Task::File(run_given(given), file_given(given))),
        Verb::Drive => drive_given(alloc, given),
        Verb::Check => Ok(Task::File(Work::Check, file_given(given))),
        Verb::Draw => Ok(Task::File(Work::Draw, file_given(given))),
        Verb::Explore => explore_given(alloc, given),
        Verb::Trace => trace_given(given),
        Verb::Wave => wave_given(given),
        Verb::Stress => Ok(Task::Stress(stress_given(given)?)),
    }
}

/// The file that was given.
fn file_given<'a>(given: &ArgMatches<'a>) -> &'a str
    ensures { result.now ≡ file_of (found_of given.now) }
{
    text_given(given, FILE, STANDARD_INPUT)
}

/// How a script is to be run.
fn run_given(given: &ArgMatches<'_>) -> Work
    ensures { IsRun (found_of given.now) result }
{
    let watching = Watching {
        numbers: flag_given(given, NUMBERS),
        echo: flag_given(given, ECHO),
        explain: flag_given(given, EXPLAIN),
        strict: flag_given(given, STRICT),
        test: flag_given(given, TEST),
    };
    if watching.is_plain() {
        Work::Run
    } else {
        Work::Watch(watching)
    }
}

/// How the lines of another program are to be answered: as those of a driven bus, or while it meets every order of a scene.
fn drive_given<'a>(alloc: Global, given: &ArgMatches<'a>) -> Result<Task<'a>, WordsFault>
    ensures { IfOk result (IsDrive (found_of given.now)) }
{
    let form = form_given(given);
    match given.get_str(EVERY) {
        None => Ok(Task::File(Work::Drive(form), STANDARD_INPUT)),
        Some(scene) => Ok(Task::Meet(meeting_given(alloc, given, form)?, scene)),
    }
}

/// The form in which lines are to be answered.
fn form_given(given: &ArgMatches<'_>) -> Form
    ensures { IsForm (found_of given.now) result }
{
    if flag_given(given, JSON) {
        Form::Json
    } else {
        Form::Lines
    }
}

/// How a program is to meet orders, with answers of this form.
fn meeting_given(alloc: Global, given: &ArgMatches<'_>, form: Form) -> Result<Meeting, WordsFault>
    ensures form { IfOk result (λ meeting. meeting.form ≡ form) }
    ensures limits { IfOk result (λ meeting. meeting.limits ≡ limits_between) }
    ensures which { IfOk result (λ meeting. IsWhich (found_of given.now) meeting.which) }
    ensures most { IfOk result (λ meeting. IsNumberOf most_orders (found_of given.now) meeting.most) }
    ensures states { IfOk result (λ meeting. IsNumberOf most_marks (found_of given.now) meeting.states) }
{
    Ok(Meeting {
        form,
        limits: Limits {
            steps: MOST_STEPS,
            states: MOST_STATES,
        },
        which: which_given(alloc, given)?,
        most: number_given(given, MOST, 1, u64::MAX, u64::MAX)?,
        states: number_given(given, STATES, 1, u64::MAX, u64::MAX)?,
    })
}

/// The trace or the capture that was given, and whether its faults are asked for.
fn trace_given<'a>(given: &ArgMatches<'a>) -> Result<Task<'a>, WordsFault>
    ensures { IfOk result (IsTrace (found_of given.now)) }
{
    let legacies = legacies_given(given)?;
    let telling = telling_given(given, legacies);
    if flag_given(given, VCD) {
        let capturing = capturing_given(given, legacies);
        Ok(Task::Capture(capturing, telling, file_given(given)))
    } else {
        Ok(Task::File(Work::Tell(telling), file_given(given)))
    }
}

/// How a capture is to be read. Legacy targets have these addresses.
fn capturing_given<'a>(given: &ArgMatches<'a>, legacies: Addresses) -> Capturing<'a>
    ensures { IsCapturing (found_of given.now) legacies.0 result }
{
    Capturing {
        scl: text_given(given, SCL, SCL),
        sda: text_given(given, SDA, SDA),
        legacies,
        numbers: flag_given(given, NUMBERS),
    }
}

/// How a trace is to be told. Legacy targets have these addresses.
fn telling_given(given: &ArgMatches<'_>, legacies: Addresses) -> Telling
    ensures { IsTelling (found_of given.now) legacies.0 result }
{
    let codes = codes_given(given);
    match (flag_given(given, EXPLAIN), flag_given(given, LINT)) {
        (false, false) => Telling::Plain(codes),
        (false, true) => Telling::Lint(legacies),
        (true, false) => Telling::Explain(codes, None),
        (true, true) => Telling::Explain(codes, Some(legacies)),
    }
}

/// The codes that a trace is to know by name.
fn codes_given(given: &ArgMatches<'_>) -> CodeSet
    ensures { HasCodes (found_of given.now) result }
{
    if flag_given(given, ALL) {
        CodeSet::Extended
    } else {
        CodeSet::Table
    }
}

/// The script, or the trace, that was given to be printed as a waveform.
fn wave_given<'a>(given: &ArgMatches<'a>) -> Result<Task<'a>, WordsFault>
    ensures { IfOk result (IsWave (found_of given.now)) }
{
    let waveform = waveform_given(given)?;
    let work = if flag_given(given, FROM_TRACE) {
        Work::Wave(waveform)
    } else {
        Work::WaveScript(waveform)
    };
    Ok(Task::File(work, file_given(given)))
}

/// How the waveform is to be printed.
fn waveform_given(given: &ArgMatches<'_>) -> Result<Waveform, WordsFault>
    ensures { IfOk result (IsWaveform (found_of given.now)) }
{
    let legacies = legacies_given(given)?;
    let plain = flag_given(given, PLAIN);
    Ok(Waveform { legacies, plain })
}

/// The file that was given to be explored, and how.
fn explore_given<'a>(alloc: Global, given: &ArgMatches<'a>) -> Result<Task<'a>, WordsFault>
    ensures { IfOk result (IsExplore (found_of given.now)) }
{
    let limits = Limits {
        steps: number_given(given, MOST, 0, u64::MAX, MOST_STEPS)?,
        states: MOST_STATES,
    };
    let part = part_given(given.get_str(PART))?;
    let jobs = number_given(given, JOBS, 1, MOST_JOBS, 1)? as usize;
    let exploring = Exploring {
        limits,
        part,
        jobs,
        quiet: flag_given(given, QUIET),
        by: texts_given(alloc, given, BY)?,
    };
    Ok(Task::Explore(exploring, file_given(given)))
}

/// The stress that was given. The parser requires both numbers.
fn stress_given(given: &ArgMatches<'_>) -> Result<Stress, WordsFault>
    ensures { IfOk result (IsStress (found_of given.now)) }
{
    Ok(Stress {
        devices: number_given(given, DEVICES, 1, u64::from(MOST_DEVICES), 1)? as u8,
        posts: number_given(given, POSTS, 1, u64::from(MOST_POSTS), 1)?,
        totals: flag_given(given, TOTALS),
    })
}
