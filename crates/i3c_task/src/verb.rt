ghost use Rattle.std.specs.Prelude.{◌≡◌, [], false, IfOk, map};
ghost use Rattle.clap.specs.Words.{app_of, new_app, shape_of};
ghost use Rattle.clap.specs.declared.builder.command.Command.TheViews.{out-Command};
ghost use Rattle.i3c_task.specs.Commands.{bare, command_of, name_of, program, verbs};
ghost use Rattle.i3c_task.specs.Table.{shape_of_usage};

use crate::argument::{Argument, Bond, Bonds, Takes, parsed_argument};
use crate::help::{Help, text_of};
use clap::builder::ValueParser;
use clap::{ArgGroup, Command};
use std::alloc::{AllocError, Global};

/// The program's name.
const PROGRAM: &str = "i3cbus";

/// The argument of those that read a file.
pub(crate) const FILE: &str = "FILE";

/// Options of `run`: it ends at a line without a form; lines are numbered, echoed, and explained. A capture's frames have
/// their times by the second.
pub(crate) const STRICT: &str = "strict";

/// The option of `run` for tests: refusals are no failures, and lines without a form are.
pub(crate) const TEST: &str = "test";

pub(crate) const NUMBERS: &str = "numbers";

pub(crate) const ECHO: &str = "echo";

pub(crate) const EXPLAIN: &str = "explain";

/// The flag of `drive` for answers as JSON objects, and its option for a scene, every order of which the other program meets.
pub(crate) const JSON: &str = "json";

pub(crate) const EVERY: &str = "every";

/// The option for how many orders `drive` tries, and for how many lines `explore` runs.
pub(crate) const MOST: &str = "most";
/// The option of `drive` that bounds how many marks are kept.
pub(crate) const STATES: &str = "states";

/// The option for the part of all orders that `drive` or `explore` tries.
pub(crate) const PART: &str = "part";

/// The options of `drive` for one order, and for so many that are drawn, from a seed on.
pub(crate) const ORDER: &str = "order";

pub(crate) const RANDOM: &str = "random";

pub(crate) const SEED: &str = "seed";

/// The options of `drive` that say which orders are tried.
const WHICH: &str = "which-orders";

/// The other options of `explore`: how many threads run lines, and the facts by which ends are grouped. Its flag leaves out the
/// ends.
pub(crate) const JOBS: &str = "jobs";

pub(crate) const QUIET: &str = "quiet";

pub(crate) const BY: &str = "by";

/// The flags of `trace` that ask for all codes by name, for faults too, and for a file that is a capture of the lines.
pub(crate) const ALL: &str = "all";

pub(crate) const LINT: &str = "lint";

pub(crate) const VCD: &str = "vcd";

/// The options of `trace` that name the signals of a capture, with their values if they aren't given.
pub(crate) const SCL: &str = "scl";

pub(crate) const SDA: &str = "sda";

/// The option of `trace` and `wave` that names the address of a legacy target.
pub(crate) const LEGACY: &str = "legacy";

/// The flags with which `trace` takes the addresses of legacy targets.
const WITH_LEGACIES: &str = "with-legacies";

/// The flag of `wave` for a file that is a trace, and the one for the two lines alone.
pub(crate) const FROM_TRACE: &str = "trace";

pub(crate) const PLAIN: &str = "plain";

/// The options of `stress` for the number of devices, and of posts of each; and the one that prints the totals of the posts
/// too.
pub(crate) const DEVICES: &str = "devices";

pub(crate) const POSTS: &str = "posts";

pub(crate) const TOTALS: &str = "totals";

/// The most devices that may post, and the most posts of each. A stress run takes as many (`i3c_stress`).
pub const MOST_DEVICES: u8 = 63;

pub const MOST_POSTS: u32 = 100_000;

/// The most threads that may explore.
pub(crate) const MOST_JOBS: u64 = u32::MAX as u64;

/// What the program can be told to do.
#[derive(Clone, Copy)]
pub(crate) enum Verb {
    /// It runs a script.
    Run,
    /// It answers the lines of another program.
    Drive,
    /// It checks a script without running it.
    Check,
    /// It prints a picture of a script.
    Draw,
    /// It tries every order of a file's tracks.
    Explore,
    /// It tells a trace or a capture.
    Trace,
    /// It prints a wire as a waveform.
    Wave,
    /// It lets devices post from threads of their own.
    Stress,
}

/// How a verb is given, and what its help says.
#[derive(Clone, Copy)]
pub(crate) struct Usage {
    pub(crate) verb: Verb,
    pub(crate) name: &'static str,
    about: &'static str,
    // what the help says at its end, or nothing
    more: Option<Help>,
    arguments: &'static [Argument],
    group: Option<Group>,
}

/// A group of arguments.
#[derive(Clone, Copy)]
struct Group {
    name: &'static str,
    // whether one of them is taken at most
    is_single: bool,
    // the argument that each of them needs, if they need one
    needs: Option<&'static str>,
}

/// The file of a script.
const SCRIPT: Argument = Argument {
    name: FILE,
    takes: Takes::File,
    bond: Bond::Free,
    help: "The script, or - for standard input",
};

/// The addresses of legacy targets.
const LEGACIES: Argument = Argument {
    name: LEGACY,
    takes: Takes::Texts("ADDR"),
    bond: Bond::Free,
    help: "An I2C target is at ADDR, 08 to 77; as often as you like",
};

/// The arguments of `run`.
const OF_RUN: &[Argument] = &[
    SCRIPT,
    Argument {
        name: STRICT,
        takes: Takes::Nothing,
        bond: Bond::Free,
        help: "Ends with status 2 at the first line that has no form",
    },
    Argument {
        name: NUMBERS,
        takes: Takes::Nothing,
        bond: Bond::Free,
        help: "Begins each printed line with its line's number",
    },
    Argument {
        name: ECHO,
        takes: Takes::Nothing,
        bond: Bond::Free,
        help: "Prints each line before what it prints",
    },
    Argument {
        name: EXPLAIN,
        takes: Takes::Nothing,
        bond: Bond::Free,
        help: "Tells on standard error why lines are refused",
    },
    Argument {
        name: TEST,
        takes: Takes::Nothing,
        bond: Bond::Free,
        help: "Ends with 0 if each line has a form and each expectation is met, and with 3 if not",
    },
];

/// The arguments of `drive`.
const OF_DRIVE: &[Argument] = &[
    Argument {
        name: JSON,
        takes: Takes::Nothing,
        bond: Bond::Free,
        help: "Answers each line with one JSON object on one line",
    },
    Argument {
        name: EVERY,
        takes: Takes::Text("SCENE"),
        bond: Bond::Free,
        help: "The other program meets every order of this file's tracks, one run after another",
    },
    Argument {
        name: MOST,
        takes: Takes::Number("N", ValueParser::Unsigned(1, u64::MAX)),
        bond: Bond::Needs(EVERY),
        help: "Gives up after N orders; without this it tries all",
    },
    Argument {
        name: PART,
        takes: Takes::Text("K/N"),
        bond: Bond::Joins(WHICH),
        help: "Tries part K of N alone: the N parts have each order among them, by the answers to the first lines",
    },
    Argument {
        name: ORDER,
        takes: Takes::Text("CHOICES"),
        bond: Bond::Joins(WHICH),
        help: "Tries one order alone, by what 'choices' told of it",
    },
    Argument {
        name: RANDOM,
        takes: Takes::Number("N", ValueParser::Unsigned(1, u64::MAX)),
        bond: Bond::Joins(WHICH),
        help: "Tries N orders that are drawn, each line's answer by itself",
    },
    Argument {
        name: SEED,
        takes: Takes::Number("S", ValueParser::Unsigned(0, u64::MAX)),
        bond: Bond::Needs(RANDOM),
        help: "Draws them from the seed S, 0 without this",
    },
    Argument {
        name: STATES,
        takes: Takes::Number("N", ValueParser::Unsigned(1, u64::MAX)),
        bond: Bond::Needs(EVERY),
        help: "Gives up where more than N marks would be kept, each with the state of the bus",
    },
];

/// The argument of `check` and `draw`.
const OF_SCRIPTS: &[Argument] = &[SCRIPT];

/// The arguments of `explore`.
const OF_EXPLORE: &[Argument] = &[
    Argument {
        name: MOST,
        takes: Takes::Number("N", ValueParser::Unsigned(0, u64::MAX)),
        bond: Bond::Free,
        help: "Gives up after N lines that were run, 10000000 without this",
    },
    Argument {
        name: PART,
        takes: Takes::Text("K/N"),
        bond: Bond::Free,
        help: "Tries part K of N alone: the N parts have each order once, by their first turns",
    },
    Argument {
        name: JOBS,
        takes: Takes::Number("N", ValueParser::Unsigned(1, MOST_JOBS)),
        bond: Bond::Free,
        help: "Uses N threads, 1 without this, and prints the same",
    },
    Argument {
        name: BY,
        takes: Takes::Texts("FACT"),
        bond: Bond::Free,
        help: "Groups the ends by whether FACT holds there; as often as you like",
    },
    Argument {
        name: QUIET,
        takes: Takes::Nothing,
        bond: Bond::Free,
        help: "Prints the numbers alone where all holds, and no end",
    },
    Argument {
        name: FILE,
        takes: Takes::File,
        bond: Bond::Free,
        help: "The file, or - for standard input",
    },
];

/// The arguments of `trace`.
const OF_TRACE: &[Argument] = &[
    Argument {
        name: ALL,
        takes: Takes::Nothing,
        bond: Bond::Free,
        help: "Tells SETMWL, SETMRL, GETPID and its like by name too, as --lint does",
    },
    Argument {
        name: LINT,
        takes: Takes::Nothing,
        bond: Bond::Joins(WITH_LEGACIES),
        help: "Tells the faults of each frame too",
    },
    Argument {
        name: EXPLAIN,
        takes: Takes::Nothing,
        bond: Bond::Free,
        help: "Says on standard error why each refused line is, and where",
    },
    Argument {
        bond: Bond::Needs(WITH_LEGACIES),
        ..LEGACIES
    },
    Argument {
        name: VCD,
        takes: Takes::Nothing,
        bond: Bond::Joins(WITH_LEGACIES),
        help: "The file is a capture of SCL and SDA, a value change dump",
    },
    Argument {
        name: SCL,
        takes: Takes::Text("NAME"),
        bond: Bond::Needs(VCD),
        help: "The signal of SCL, scl without this",
    },
    Argument {
        name: SDA,
        takes: Takes::Text("NAME"),
        bond: Bond::Needs(VCD),
        help: "The signal of SDA, sda without this",
    },
    Argument {
        name: NUMBERS,
        takes: Takes::Nothing,
        bond: Bond::Needs(VCD),
        help: "Ends the line of each frame with the time of its START",
    },
    Argument {
        name: FILE,
        takes: Takes::File,
        bond: Bond::Free,
        help: "The trace, or - for standard input",
    },
];

/// The arguments of `wave`.
const OF_WAVE: &[Argument] = &[
    Argument {
        name: FROM_TRACE,
        takes: Takes::Nothing,
        bond: Bond::Free,
        help: "The file is a trace, and no script",
    },
    Argument {
        name: PLAIN,
        takes: Takes::Nothing,
        bond: Bond::Free,
        help: "Prints SCL and SDA alone, without symbols, frames and lines",
    },
    LEGACIES,
    Argument {
        name: FILE,
        takes: Takes::File,
        bond: Bond::Free,
        help: "The script, or the trace, or - for standard input",
    },
];

/// The arguments of `stress`.
const OF_STRESS: &[Argument] = &[
    Argument {
        name: DEVICES,
        takes: Takes::Needed("N", ValueParser::Signed(1, MOST_DEVICES as i64)),
        bond: Bond::Free,
        help: "How many devices post, 1 to 63",
    },
    Argument {
        name: POSTS,
        takes: Takes::Needed("M", ValueParser::Signed(1, MOST_POSTS as i64)),
        bond: Bond::Free,
        help: "How often each tries to, 1 to 100000",
    },
    Argument {
        name: TOTALS,
        takes: Takes::Nothing,
        bond: Bond::Free,
        help: "Prints what became of the posts: turned away, recorded, waiting",
    },
];

/// The verbs, in the order of the help.
static USAGES: [Usage; 8] = [
    Usage {
        verb: Verb::Run,
        name: "run",
        about: "Runs a script",
        more: Some(Help::Script),
        arguments: OF_RUN,
        group: None,
    },
    Usage {
        verb: Verb::Drive,
        name: "drive",
        about: "Answers the lines on standard input, each before it reads the next, for another program",
        more: Some(Help::Driving),
        arguments: OF_DRIVE,
        group: Some(Group {
            name: WHICH,
            is_single: true,
            needs: Some(EVERY),
        }),
    },
    Usage {
        verb: Verb::Check,
        name: "check",
        about: "Tells the lines of a script that have no form, and the names that no line gives, and runs nothing",
        more: None,
        arguments: OF_SCRIPTS,
        group: None,
    },
    Usage {
        verb: Verb::Draw,
        name: "draw",
        about: "Runs a script, and prints a picture of its wire, an SVG for a browser",
        more: Some(Help::Drawing),
        arguments: OF_SCRIPTS,
        group: None,
    },
    Usage {
        verb: Verb::Explore,
        name: "explore",
        about: "Tries every order of a file's tracks, and tells where they end, or one in which something doesn't hold",
        more: Some(Help::Exploring),
        arguments: OF_EXPLORE,
        group: None,
    },
    Usage {
        verb: Verb::Trace,
        name: "trace",
        about: "Tells what a trace says: symbols as the line 'symbols' of a script prints them",
        more: None,
        arguments: OF_TRACE,
        group: Some(Group {
            name: WITH_LEGACIES,
            is_single: false,
            needs: None,
        }),
    },
    Usage {
        verb: Verb::Wave,
        name: "wave",
        about: "Runs a script, and prints SCL and SDA as a value change dump, for a waveform viewer",
        more: None,
        arguments: OF_WAVE,
        group: None,
    },
    Usage {
        verb: Verb::Stress,
        name: "stress",
        about: "Lets devices post from threads of their own, and checks that each post is accounted for",
        more: None,
        arguments: OF_STRESS,
        group: None,
    },
];

/// The verbs, in the order of the help.
pub(crate) fn usages() -> &'static [Usage]
    ensures verbs { map (λ usage. usage.verb) result.now ≡ verbs }
    ensures names { map (λ usage. usage.name.now) result.now ≡ map name_of verbs }
    ensures shapes { map shape_of_usage result.now ≡ map command_of verbs }
{
    &USAGES
}

/// The parser of the command line.
pub(crate) fn parser<'a>(alloc: Global, bonds: Bonds) -> Result<Command<'a>, AllocError>
    ensures { bonds ≡ Bonds.Left → IfOk result (λ r. app_of r ≡ program) }
{
    let mut parser = program(alloc)?;
    for usage in usages() {
        parser = parser.subcommand(command(alloc, usage, bonds)?)?;
    }
    Ok(parser)
}

/// The program, without its commands.
fn program<'a>(alloc: Global) -> Result<Command<'a>, AllocError>
    ensures { IfOk result (λ r. (app_of r ≡ record { top = bare; subs = [] }) × ((out-Command r).has_globals ≡ false)) }
{
    let program = Command::new(alloc, PROGRAM)
        .about("Runs scripts over an I3C bus, and reads traces of one")
        .after_help(text_of(Help::Script))
        .no_binary_name(true)
        .subcommand_required(true);
    program.bin_name(PROGRAM)
}

/// A verb, as the parser takes it.
fn command<'a>(alloc: Global, usage: &Usage, bonds: Bonds) -> Result<Command<'a>, AllocError>
    ensures { bonds ≡ Bonds.Left → IfOk result (λ r. (shape_of r ≡ shape_of_usage usage.now) × ((out-Command r).has_globals ≡ false)) }
{
    let mut command = described(alloc, usage);
    for argument in usage.arguments {
        command = command.arg(parsed_argument(alloc, argument, bonds)?)?;
    }
    grouped(alloc, command, usage.group, bonds)
}

/// A verb with its help, without its arguments.
fn described<'a>(alloc: Global, usage: &Usage) -> Command<'a>
    ensures { (app_of result ≡ new_app usage.now.name.now) × ((out-Command result).has_globals ≡ false) }
{
    let command = Command::new(alloc, usage.name).about(usage.about);
    match usage.more {
        Some(help) => command.after_help(text_of(help)),
        None => command,
    }
}

/// The same command, with a group of its arguments.
fn grouped<'a>(
    alloc: Global,
    command: Command<'a>,
    group: Option<Group>,
    bonds: Bonds,
) -> Result<Command<'a>, AllocError>
    ensures { bonds ≡ Bonds.Left → IfOk result (λ r. r ≡ command.entry) }
{
    match (bonds, group) {
        (Bonds::Kept, Some(group)) => command.group(parsed_group(alloc, group)?),
        _ => Ok(command),
    }
}

/// The group, as the parser takes it.
fn parsed_group<'a>(alloc: Global, group: Group) -> Result<ArgGroup<'a>, AllocError> {
    let parsed = ArgGroup::new(alloc, group.name).multiple(!group.is_single);
    match group.needs {
        Some(other) => parsed.requires_arg(other),
        None => Ok(parsed),
    }
}
