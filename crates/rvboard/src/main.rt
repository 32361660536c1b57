//! The program: `rvboard [SOURCE] [--input F] [--commands F] [--steps N] [--pages P] [--slots S]`.
//!
//! Reads the words of the command line, opens the source, the timed list and the commands in this order, runs
//! them, and exits with the status of the run. The lines of faults go to the standard error.
#![tactic(auto)]

ghost use Rattle.std.specs.Prelude.{◌≡◌, IfOk, IfSome, false};

use rv_cli::{
    CliFault, Ending, FileIn, FileOut, MemoryIn, Options, Origin, TextIn, TextName, Words,
    exit_status, fault_line, file_or_fault, read_words, refuse_words, run_text, run_with_words,
};
use std::alloc::AllocError;
use std::fs::File;
use std::io::Write;
use std::process::ExitCode;

/// Writes the line of a fault to the standard error, if there is memory for it.
fn report(rt: &HostRuntime, fault: &CliFault) {
    let mut line = Vec::new(rt.alloc());
    if fault_line(fault, &mut line).is_ok() {
        let _ = rt.stderr().write_all(line.as_slice());
    }
}

/// Opens the file of a text, if one is named.
fn open_named(
    rt: &HostRuntime,
    text: TextName,
    path: Option<&str>,
) -> Result<Option<FileIn<File>>, CliFault>
    ensures { IfOk result (λ file. IfSome file (λ f. f.has_failed ≡ false)) }
{
    let Some(path) = path else {
        return Ok(None);
    };
    let file = file_or_fault(text, File::open(rt, path))?;
    Ok(Some(FileIn::new(file)))
}

/// Runs a source with a timed list and commands, and prints to the standard output.
fn print_run<S: TextIn, I: TextIn>(
    rt: &HostRuntime,
    source: &mut S,
    inputs: &mut I,
    commands: &mut Option<FileIn<File>>,
    options: Options,
) -> Result<Ending, CliFault>
    requires source { S.has_failed source.old ≡ false }
    requires inputs { I.has_failed inputs.old ≡ false }
    requires commands { IfSome commands.old (λ f. f.has_failed ≡ false) }
{
    let mut out = FileOut::new(rt.stdout());
    run_text(rt.alloc(), source, inputs, commands, options, &mut out)
}

/// Opens the files of the timed list and the commands that the words name, and runs the source with them.
fn open_and_run<S: TextIn>(
    rt: &HostRuntime,
    words: &Words<'_>,
    source: &mut S,
) -> Result<Ending, CliFault>
    requires { S.has_failed source.old ≡ false }
{
    let input = open_named(rt, TextName::Input, words.input)?;
    let mut commands = open_named(rt, TextName::Commands, words.commands)?;
    let options = words.options;
    match input {
        Some(mut inputs) => print_run(rt, source, &mut inputs, &mut commands, options),
        None => print_run(rt, source, &mut MemoryIn::new(b""), &mut commands, options),
    }
}

/// Opens the source that the words name, and runs it.
fn run(rt: &HostRuntime, words: &Words<'_>) -> Result<Ending, CliFault> {
    match words.source_origin() {
        Origin::StandardInput => open_and_run(rt, words, &mut FileIn::new(rt.stdin())),
        Origin::File(path) => {
            let file = file_or_fault(TextName::Source, File::open(rt, path))?;
            open_and_run(rt, words, &mut FileIn::new(file))
        }
    }
}

/// Reports the fault of a run, if it has one, and returns the exit status.
fn finish(rt: &HostRuntime, outcome: &Result<Ending, CliFault>) -> u8 {
    if let Err(fault) = outcome {
        report(rt, fault);
    }
    exit_status(outcome)
}

/// Reports that memory ran out, and returns the exit status.
fn no_memory(rt: &HostRuntime) -> u8 {
    finish(rt, &Err(CliFault::OutOfMemory))
}

/// Reads the words, makes the run that they ask for, and returns the exit status.
fn run_words(rt: &HostRuntime, words: &[&str]) -> u8 {
    match read_words(rt.alloc(), words) {
        Ok(words) => finish(rt, &run(rt, &words)),
        Err(error) => refuse_words(rt, &error, || no_memory(rt)),
    }
}

fn main(rt: HostRuntime) -> ExitCode {
    let status = match run_with_words(&rt, |words| run_words(&rt, words)) {
        Ok(status) => status,
        Err(AllocError) => no_memory(&rt),
    };
    ExitCode::from(status)
}
