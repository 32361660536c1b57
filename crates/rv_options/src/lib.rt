//! The words of the programs' command lines, read with `clap` by a table of each program's arguments, and what the
//! programs do with their words and files. Of `rvboard` what the words say is proved:
//! `rvboard [SOURCE] [--input F] [--commands F] [--steps N] [--pages P] [--slots S]`.
#![tactic(auto)]

ghost use Rattle.std.specs.Prelude.{◌≡◌, IfErr, IfOk, true};
ghost use Rattle.clap.specs.Words.{FailsBy, fault_of, kind_of, matches_of, takes};
ghost use Rattle.clap.specs.Walk.{texts};
ghost use Rattle.rv_options.specs.Board.{board_app};
ghost use Rattle.rv_options.specs.Support.Parse.{IsBoardParse};
ghost use Rattle.rv_options.specs.Read.{IsReadFrom};
ghost use Rattle.rv_options.specs.Usage.{usage_app};

mod args;
mod laws;
mod opening;
mod origin;
mod program;
mod status;
mod usage;

use clap::error::ErrorKind;
use clap::{ArgMatches, Error};
pub use laws::{help_is_answered, usages_have_a_meaning, words_have_a_meaning};
pub use opening::{Opening, opening_of};
pub use origin::Origin;
pub use program::{
    NO_MEMORY, current_folder, fail, read_file, refuse_lab, refuse_words, run_on_texts,
    run_program, run_with_words,
};
pub use status::{FAILED, REFUSED, refusal_status};
use std::alloc::Global;
use usage::parse;
pub use usage::{Argument, INPUT, PAGES, SLOTS, SOURCE, Usage, parse_words};

/// The limit of a run, and the sizes of its board's memory and decoded cache.
#[derive(Clone, Copy, Debug, PartialEq, Eq)]
pub struct Options {
    /// The most steps that are taken: `read_words` gives 0 to 1,000,000,000.
    pub steps: u32,
    /// The pages of RAM, of 4096 bytes each: `read_words` gives 1 to 4096.
    pub pages: u16,
    /// The slots of the decoded cache: `read_words` gives 64 to 4096, of which a board takes the powers of
    /// two.
    pub slots: u16,
}

/// The run that the words of the command line ask for.
#[derive(Clone, Copy)]
pub struct Words<'a> {
    /// The path of the source, or `-` for the standard input.
    pub source: &'a str,
    /// The path of the timed list, if one is given.
    pub input: Option<&'a str>,
    /// The path of the monitor's commands, if one is given.
    pub commands: Option<&'a str>,
    /// The limit and the sizes.
    pub options: Options,
}

/// The usage of `rvboard`.
const BOARD: Usage<'static> = Usage {
    name: "rvboard",
    about: "assembles a program and runs it on a small RISC-V board",
    version: None,
    arguments: &[
        Argument::Source {
            help: "the assembly source, or - for the standard input",
            default: Some("-"),
        },
        INPUT,
        Argument::Text {
            name: "commands",
            letter: None,
            value_name: "F",
            help: "the monitor's commands, a file",
        },
        Argument::Number {
            name: "steps",
            value_name: "N",
            help: "the most steps, 0 to 1000000000",
            default: "1000000",
            least: 0,
            most: 1_000_000_000,
        },
        PAGES,
        SLOTS,
    ],
};

/// Returns the usage of `rvboard`.
#[tactic(auto, unfolding(crate::specs::Usage::usage_app, crate::specs::Board::board_app))]
fn board_usage() -> Usage<'static>
    ensures { usage_app result ≡ board_app }
{
    BOARD
}

/// Parses the words of `rvboard`.
fn parse_board<'a>(alloc: Global, words: &'a [&'a str]) -> Result<ArgMatches<'a>, Error>
    ensures parsed { IfOk result (IsBoardParse (texts words.entry.now)) }
    ensures takes { IfErr result (λ e. takes board_app (texts words.entry.now) ≡ true
        → kind_of e ≡ ErrorKind.OutOfMemory) }
    ensures faults { FailsBy (fault_of board_app (texts words.entry.now)) result }
{
    parse(alloc, board_usage(), words)
}

/// Reads the words, of which the first is the program's name.
///
/// They are taken or refused exactly as `clap` does it for the command `board_app` of
/// `specs/Board.antt`. Where help was asked for, the error is its text (`ErrorKind::DisplayHelp`).
///
/// # Errors
///
/// The error that `clap` gives refused words, or `ErrorKind::OutOfMemory`.
pub fn read_words<'a>(alloc: Global, words: &'a [&'a str]) -> Result<Words<'a>, Error>
    ensures read { IfOk result (IsReadFrom (matches_of board_app (texts words.entry.now))) }

    // Words that the command takes fail only where memory runs out.
    ensures takes { IfErr result (λ e. takes board_app (texts words.entry.now) ≡ true
        → kind_of e ≡ ErrorKind.OutOfMemory) }

    // The error of words that it refuses is of a kind that the command gives them.
    ensures faults { FailsBy (fault_of board_app (texts words.entry.now)) result }
{
    let matches = parse_board(alloc, words)?;
    let source = matches.get_str("source").unwrap();
    let input = matches.get_str("input");
    let commands = matches.get_str("commands");
    let steps = matches.get_one::<u32>("steps").unwrap();
    let pages = matches.get_one::<u16>("pages").unwrap();
    let slots = matches.get_one::<u16>("slots").unwrap();
    let options = Options {
        steps,
        pages,
        slots,
    };
    Ok(Words {
        source,
        input,
        commands,
        options,
    })
}
