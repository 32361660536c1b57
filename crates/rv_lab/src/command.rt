//! The reading of a command line.
ghost use Rattle.std.specs.Prelude.{◌≡◌, [], slice_get, unwrap_or};
ghost use Rattle.rv_base.specs.Words.{words};
ghost use Rattle.rv_operands.specs.Operands.{operand_text};
ghost use Rattle.rv_lab.specs.Commands.{trail_before};
ghost use Rattle.rv_lab.specs.Words.{line_command, repeated, word_command};

use crate::trail::Trail;
use rv_answers::{Command, command_named};
use rv_base::{LINE_LIMIT, begins_comment, first_word};
use rv_operands::operands_of;

/// Returns what an empty line does after a command, by what it did before: it repeats a step or list command, and
/// takes a step after another that moves the board.
pub(crate) fn repeated(command: Command, before: Command) -> Command
    ensures { result ≡ repeated command before }
{
    match command {
        Command::Step | Command::Over | Command::NextC | Command::List => command,
        Command::Moves(_) => Command::StepOnce,
        _ => before,
    }
}

/// Returns what `why` alone goes on with after a command begins: `why` keeps it.
pub(crate) fn trail_before(command: Command, trail: Option<Trail>) -> Option<Trail>
    ensures { result ≡ trail_before command trail }
{
    match command {
        Command::Why => trail,
        _ => None,
    }
}

/// A command line: its command, its first word, and the text of its operands.
#[derive(Clone, Copy)]
pub(crate) struct CommandLine<'a> {
    pub(crate) command: Command,
    pub(crate) word: &'a [u8],
    pub(crate) operands: &'a [u8],
}

/// Returns the command that the words of a line ask for.
fn word_command(line: &[u8]) -> Command
    ensures { result ≡ word_command (words line.now) }
{
    let Some((word, _)) = first_word(line) else {
        return Command::Again;
    };
    if begins_comment(word) {
        return Command::Nothing;
    }
    command_named(word).unwrap_or(Command::Unknown)
}

/// Returns the first word of a line, or nothing.
fn word_of(line: &[u8]) -> &[u8]
    ensures { result.now ≡ unwrap_or (slice_get (words line.now) 0) [] }
{
    match first_word(line) {
        Some((word, _)) => word,
        None => b"",
    }
}

/// Reads a command line.
pub(crate) fn read_command<'a>(line: &'a [u8]) -> CommandLine<'a>
    ensures command { result.command ≡ line_command line.now }
    ensures word { result.word.now ≡ unwrap_or (slice_get (words line.now) 0) [] }
    ensures operands { result.operands.now ≡ operand_text line.now }
{
    let command = if line.len() > LINE_LIMIT {
        Command::TooLong
    } else {
        word_command(line)
    };
    CommandLine {
        command,
        word: word_of(line),
        operands: operands_of(line),
    }
}
