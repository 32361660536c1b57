//! The usage of a program, as a table: its name, what it is about, and its arguments.
ghost use Rattle.std.specs.Prelude.{◌≡◌, IfErr, IfOk, true};
ghost use Rattle.clap.specs.Words.{FailsBy, app_of, fault_of, found_of, kind_of, matches_of, rows_of, takes};
ghost use Rattle.clap.specs.Walk.{texts};
ghost use Rattle.rv_options.specs.Support.Arguments.{HasRule, IsParseBy};
ghost use Rattle.rv_options.specs.Usage.{argument_rule, bare_app, usage_app, with_arguments};

use crate::args::{choice_arg, flag_arg, number_arg, source_arg, text_arg};
use clap::error::ErrorKind;
use clap::{Arg, ArgMatches, Command, Error};
use std::alloc::{AllocError, Global};

/// An argument of a program.
#[derive(Clone, Copy)]
pub enum Argument<'a> {
    /// SOURCE: the path of a source. It must be given, unless it has a default.
    Source {
        help: &'a str,
        default: Option<&'a str>,
    },
    /// The option `--name`, which takes no value.
    Flag {
        name: &'a str,
        help: &'a str,
    },
    /// The option `--name`, or its letter if it has one, which takes a text. The help calls that `value_name`.
    Text {
        name: &'a str,
        letter: Option<char>,
        value_name: &'a str,
        help: &'a str,
    },
    /// The option `--name`, which takes one of some texts.
    Choice {
        name: &'a str,
        value_name: &'a str,
        help: &'a str,
        choices: &'a [&'a str],
    },
    /// The option `--name`, which takes a number from `least` to `most`, and has a default.
    Number {
        name: &'a str,
        value_name: &'a str,
        help: &'a str,
        default: &'a str,
        least: u32,
        most: u32,
    },
}

/// SOURCE: the path of a source, which must be given.
pub const SOURCE: Argument<'static> = Argument::Source {
    help: "the assembly source",
    default: None,
};

/// The option `--input`: the path of a timed list.
pub const INPUT: Argument<'static> = Argument::Text {
    name: "input",
    letter: None,
    value_name: "F",
    help: "the timed serial bytes and interrupt lines, a file",
};

/// The option `--pages`: a number of pages.
pub const PAGES: Argument<'static> = Argument::Number {
    name: "pages",
    value_name: "P",
    help: "the pages of RAM of 4096 bytes each, 1 to 4096",
    default: "256",
    least: 1,
    most: 4096,
};

/// The option `--slots`: a number of slots.
pub const SLOTS: Argument<'static> = Argument::Number {
    name: "slots",
    value_name: "S",
    help: "the slots of the instruction cache, a power of two from 64 to 4096",
    default: "1024",
    least: 64,
    most: 4096,
};

/// What a program is called, what it is about, and which words it takes.
#[derive(Clone, Copy)]
pub struct Usage<'a> {
    /// The program's name.
    pub name: &'a str,
    /// What it does.
    pub about: &'a str,
    /// Its version, if it tells that.
    pub version: Option<&'a str>,
    /// Its arguments, in their order.
    pub arguments: &'a [Argument<'a>],
}

/// Returns an argument as `clap` takes it.
fn arg_of<'a>(alloc: Global, argument: Argument<'a>) -> Arg<'a>
    ensures { HasRule result (argument_rule argument.entry) }
{
    match argument {
        Argument::Source { help, default } => source_arg(alloc, help, default),
        Argument::Flag { name, help } => flag_arg(alloc, name, help),
        Argument::Text {
            name,
            letter,
            value_name,
            help,
        } => text_arg(alloc, name, letter, value_name, help),
        Argument::Choice {
            name,
            value_name,
            help,
            choices,
        } => choice_arg(alloc, name, value_name, help, choices),
        Argument::Number {
            name,
            value_name,
            help,
            default,
            least,
            most,
        } => number_arg(alloc, name, value_name, help, default, least, most),
    }
}

/// Adds arguments to a command, in their order.
fn add_arguments<'a>(
    alloc: Global,
    command: Command<'a>,
    arguments: &'a [Argument<'a>],
) -> Result<Command<'a>, AllocError>
    ensures { IfOk result (λ c. app_of c ≡ with_arguments (app_of command.entry) arguments.entry.now) }
{
    let [first, rest @ ..] = arguments else {
        return Ok(command);
    };
    let command = command.arg(arg_of(alloc, *first))?;
    add_arguments(alloc, command, rest)
}

/// Returns the command of a usage without its arguments.
fn bare_command<'a>(alloc: Global, usage: Usage<'a>) -> Command<'a>
    ensures { app_of result ≡ bare_app usage.entry }
{
    let command = Command::new(alloc, usage.name).about(usage.about);
    match usage.version {
        Some(version) => command.version(version),
        None => command,
    }
}

/// Returns the command that the words of a usage are parsed by.
#[tactic(auto, unfolding(crate::specs::Usage::usage_app))]
fn command_of<'a>(alloc: Global, usage: Usage<'a>) -> Result<Command<'a>, AllocError>
    ensures { IfOk result (λ c. app_of c ≡ usage_app usage.entry) }
{
    add_arguments(alloc, bare_command(alloc, usage), usage.arguments)
}

/// Parses words, of which the first is the program's name, by a usage.
///
/// They are taken or refused exactly as `clap` does it for the command `usage_app` of `specs/Usage.antt`. Where help
/// or the version was asked for, the error is that text (`ErrorKind::DisplayHelp` or `ErrorKind::DisplayVersion`).
///
/// # Errors
///
/// The error that `clap` gives refused words, or `ErrorKind::OutOfMemory`.
pub fn parse_words<'a>(
    alloc: Global,
    usage: Usage<'a>,
    words: &'a [&'a str],
) -> Result<ArgMatches<'a>, Error>
    ensures matches { IfOk result (λ m. rows_of (found_of m)
        ≡ matches_of (usage_app usage.entry) (texts words.entry.now)) }

    // Words that the usage takes fail only where memory runs out.
    ensures takes { IfErr result (λ e. takes (usage_app usage.entry) (texts words.entry.now) ≡ true
        → kind_of e ≡ ErrorKind.OutOfMemory) }

    // The error of words that it refuses is of a kind that the command gives them.
    ensures faults { FailsBy (fault_of (usage_app usage.entry) (texts words.entry.now)) result }
{
    parse(alloc, usage, words)
}

/// Parses words by a usage, as `parse_words`.
pub(crate) fn parse<'a>(
    alloc: Global,
    usage: Usage<'a>,
    words: &'a [&'a str],
) -> Result<ArgMatches<'a>, Error>
    ensures parsed { IfOk result (IsParseBy (usage_app usage.entry)) }
    ensures matches { IfOk result (λ m. rows_of (found_of m)
        ≡ matches_of (usage_app usage.entry) (texts words.entry.now)) }
    ensures takes { IfErr result (λ e. takes (usage_app usage.entry) (texts words.entry.now) ≡ true
        → kind_of e ≡ ErrorKind.OutOfMemory) }
    ensures faults { FailsBy (fault_of (usage_app usage.entry) (texts words.entry.now)) result }
{
    let command = command_of(alloc, usage)?;
    command.try_get_matches_from(words)
}
