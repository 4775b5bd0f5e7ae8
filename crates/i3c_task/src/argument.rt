ghost use Rattle.std.specs.Prelude.{◌≡◌, false, IfOk};
ghost use Rattle.clap.specs.Words.{rule_of};
ghost use Rattle.clap.specs.Simple.{new_rule};
ghost use Rattle.i3c_task.specs.Table.{rule_of_argument, rule_taking};

use clap::builder::ValueParser;
use clap::{Arg, ArgAction};
use std::alloc::{AllocError, Global};

/// An argument of a command, as its help shows it: an option, or the file that the command reads.
#[derive(Clone, Copy)]
pub(crate) struct Argument {
    pub(crate) name: &'static str,
    pub(crate) takes: Takes,
    pub(crate) bond: Bond,
    pub(crate) help: &'static str,
}

/// What follows an argument's name on the command line. A text and a number have a name in the help.
#[derive(Clone, Copy)]
pub(crate) enum Takes {
    /// It is a file, which has to be given, without a name before it.
    File,
    /// Nothing.
    Nothing,
    /// A text.
    Text(&'static str),
    /// A text, each time that the option is given.
    Texts(&'static str),
    /// A number that this parser reads.
    Number(&'static str, ValueParser<'static>),
    /// The same, and the option has to be given.
    Needed(&'static str, ValueParser<'static>),
}

/// What an argument has to do with others.
#[derive(Clone, Copy)]
pub(crate) enum Bond {
    /// Nothing.
    Free,
    /// It belongs to this group.
    Joins(&'static str),
    /// It needs this other argument, or one of this group.
    Needs(&'static str),
}

/// Whether a parser knows which arguments go together.
#[derive(Clone, Copy)]
pub(crate) enum Bonds {
    /// It refuses an argument without the one that it needs.
    Kept,
    /// It takes each argument with or without the others.
    Left,
}

/// The argument, as the parser takes it.
pub(crate) fn parsed_argument<'a>(
    alloc: Global,
    argument: &Argument,
    bonds: Bonds,
) -> Result<Arg<'a>, AllocError>
    ensures { bonds ≡ Bonds.Left → IfOk result (λ r. (rule_of r ≡ rule_of_argument argument.now) × (r.global ≡ false)) }
{
    let named = Arg::new(alloc, argument.name).help(argument.help);
    let taking = taking(named, argument.name, argument.takes);
    match bonds {
        Bonds::Kept => bound(taking, argument.bond),
        Bonds::Left => Ok(taking),
    }
}

/// The same argument, with what it takes.
fn taking<'a>(named: Arg<'a>, name: &'static str, takes: Takes) -> Arg<'a>
    ensures rule { rule_of named.entry ≡ new_rule name.now → rule_of result ≡ rule_taking name.now takes }
    ensures local { result.global ≡ named.entry.global }
{
    match takes {
        Takes::File => named.required(true),
        Takes::Nothing => named.long(name).action(ArgAction::SetTrue),
        Takes::Text(value) => named.long(name).value_name(value),
        Takes::Texts(value) => named.long(name).value_name(value).action(ArgAction::Append),
        Takes::Number(value, parser) => named.long(name).value_name(value).value_parser(parser),
        Takes::Needed(value, parser) => named
            .long(name)
            .value_name(value)
            .value_parser(parser)
            .required(true),
    }
}

/// The same argument, with what it has to do with others.
fn bound<'a>(argument: Arg<'a>, bond: Bond) -> Result<Arg<'a>, AllocError> {
    match bond {
        Bond::Free => Ok(argument),
        Bond::Joins(group) => argument.group(group),
        Bond::Needs(other) => argument.requires_arg(other),
    }
}
