//! Whole runs of texts, as the program `rvboard` does them.
ghost use Rattle.std.specs.Prelude.{◌≡◌, ◌≤◌, IfSome, false};

use crate::checked::Checked;
use crate::row::{Answers, Appended, Row, append_answers, append_shown, number};
use rv_base::first_word;
use rv_cli::{
    CliFault, Ending, MemoryIn, MemoryOut, Options, TextIn, TextOut, exit_status, fault_line,
    run_text,
};
use std::alloc::Global;

/// The texts of a run.
#[derive(Clone, Copy)]
pub struct Texts<'a> {
    pub source: &'a [u8],
    pub inputs: &'a [u8],
    pub commands: Option<&'a [u8]>,
}

/// What the readers of the source, the inputs and the commands and the writer do: each moves up to `most` bytes a call, and
/// fails after so many good calls.
#[derive(Clone, Copy)]
pub struct Moves {
    pub most: usize,
    pub good: [u64; 4],
}

/// Each text in one call, without a failure.
pub const WHOLE: Moves = Moves {
    most: usize::MAX,
    good: [u64::MAX; 4],
};

/// How a run ended, which of its readers and its writer failed, and what was written.
#[derive(Drop)]
pub struct Ran {
    pub outcome: Result<Ending, CliFault>,
    pub failed: [bool; 4],
    pub out: MemoryOut,
}

/// Returns a reader that gives up to `most` bytes a call, and fails after `good` calls.
fn reader(text: &[u8], most: usize, good: u64) -> MemoryIn<'_>
    requires { 1 ≤ most }
    ensures { result.has_failed ≡ false }
{
    MemoryIn::new(text).with_most(most).with_failure_after(good)
}

/// Returns such a reader of the commands, where there are any.
fn commands_reader(text: Option<&[u8]>, most: usize, good: u64) -> Option<MemoryIn<'_>>
    requires { 1 ≤ most }
    ensures { IfSome result (λ m. m.has_failed ≡ false) }
{
    match text {
        Some(text) => Some(reader(text, most, good)),
        None => None,
    }
}

/// Does a run of texts.
pub fn run(alloc: Global, texts: Texts<'_>, options: Options, moves: Moves) -> Ran {
    let most = moves.most.max(1);
    let [source_good, inputs_good, commands_good, out_good] = moves.good;
    let mut source = reader(texts.source, most, source_good);
    let mut inputs = reader(texts.inputs, most, inputs_good);
    let mut commands = commands_reader(texts.commands, most, commands_good);
    let mut out = MemoryOut::new(alloc)
        .with_most(most)
        .with_failure_after(out_good);
    let outcome = run_text(
        alloc,
        &mut source,
        &mut inputs,
        &mut commands,
        options,
        &mut out,
    );
    let commands_failed = match &commands {
        Some(commands) => commands.failed(),
        None => false,
    };
    let failed = [
        source.failed(),
        inputs.failed(),
        commands_failed,
        out.failed(),
    ];
    Ran {
        outcome,
        failed,
        out,
    }
}

/// Returns the number that a text begins with, or 0 where it has no word, and what follows it.
fn first_number(text: &[u8]) -> (u64, &[u8]) {
    match first_word(text) {
        Some((word, rest)) => (number(word), rest),
        None => (0, b""),
    }
}

/// Returns the options of three numbers: the most steps, the pages of memory and the slots of the cache.
fn options(numbers: &[u8]) -> Options {
    let (steps, rest) = first_number(numbers);
    let (pages, rest) = first_number(rest);
    let (slots, _) = first_number(rest);
    Options {
        steps: u32::try_from(steps).unwrap_or(0),
        pages: u16::try_from(pages).unwrap_or(0),
        slots: u16::try_from(slots).unwrap_or(0),
    }
}

/// Appends what a run printed, the line of its fault, and its status.
fn append_ran(alloc: Global, ran: &Ran, text: &mut Vec<u8>) -> Appended {
    text.extend_from_slice(ran.out.bytes())?;
    if let Err(fault) = &ran.outcome {
        fault_line(fault, text)?;
    }
    let status = exit_status(&ran.outcome);
    Ok(append_shown(format!(in alloc; "status {status}\n"), text)?)
}

impl<'a> Answers for Texts<'a> {
    fn answer(&mut self, alloc: Global, mark: u8, argument: &[u8], text: &mut Vec<u8>) -> Appended {
        if mark != b'$' {
            return Ok(());
        }
        let ran = run(alloc, *self, options(argument), WHOLE);
        append_ran(alloc, &ran, text)
    }
}

/// Appends the row with the answers of its whole runs.
pub fn answer(alloc: Global, row: Row<'_>, text: &mut Vec<u8>) -> Checked<()> {
    let source = row.lines_of(alloc, b' ')?;
    let inputs = row.lines_of(alloc, b'@')?;
    let commands = row.lines_of(alloc, b':')?;
    let given = row.has(b':').then_some(commands.as_slice());
    let mut texts = Texts {
        source: &source,
        inputs: &inputs,
        commands: given,
    };
    Ok(append_answers(alloc, row, b"# @:$", &mut texts, text)?)
}
