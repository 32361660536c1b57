//! The program of the lab: `rvlab SOURCE [--input F] [--pages P] [--slots S] [--json]`.
//!
//! Opens a lab of the source, and answers the commands of the standard input on the standard output, one
//! after another. Where the standard input is no terminal, each command is written before its answer. With `--json` each
//! command gets one line of JSON, and nothing else is written.
#![tactic(auto)]

mod displays;
mod json;
mod reload;
mod save;
mod stop;
mod talk;
mod words;

use crate::json::talk_json;
use crate::reload::SourceFile;
use crate::talk::{TalkFault, print, print_answer, talk};
use crate::words::{USAGE, Words, words_of};
use rv_base::TEXT_LIMIT;
use rv_json::source_json;
use rv_lab::{Lab, LabFault, Printer, append_diagnosis};
use rv_options::{FAILED, NO_MEMORY, REFUSED, fail, refuse_lab, run_on_texts};
use std::process::ExitCode;

/// Writes the line of JSON that says what is wrong with a source, and returns the exit status.
fn refuse_by_line(rt: &HostRuntime, source: &[u8]) -> u8 {
    let Ok(line) = source_json(rt.alloc(), source) else {
        return fail(rt, NO_MEMORY);
    };
    let printed = print(rt, line.as_bytes());
    if printed.is_ok() && print(rt, b"\n").is_ok() {
        REFUSED
    } else {
        FAILED
    }
}

/// Reports why there is no lab, and returns the exit status.
fn refuse(rt: &HostRuntime, words: &Words<'_>, source: &[u8], fault: LabFault) -> u8 {
    if words.is_json && matches!(fault, LabFault::Source(_)) {
        return refuse_by_line(rt, source);
    }
    let mut text = Printer::new(rt.alloc());
    append_diagnosis(words.opening.source, source, fault, &mut text);
    refuse_lab(
        &mut rt.stderr(),
        text.bytes(),
        fault == LabFault::OutOfMemory,
    )
}

/// Talks with a lab until no command follows, as the words ask for it.
fn talk_as_asked(rt: &HostRuntime, words: &Words<'_>, lab: &mut Lab) -> Result<(), TalkFault> {
    if words.is_json {
        return talk_json(rt, lab);
    }
    let mut answer = Printer::new(rt.alloc());
    lab.greet(words.opening.source, &mut answer);
    print_answer(rt, &mut answer)?;
    talk(rt, lab, SourceFile::new(rt, *words), &mut answer)
}

/// Talks with a lab until no command follows. Returns the exit status.
fn run_lab(rt: &HostRuntime, words: &Words<'_>, lab: &mut Lab) -> u8 {
    match talk_as_asked(rt, words, lab) {
        Ok(()) => 0,
        Err(TalkFault::Read) => fail(rt, "cannot read commands\n"),
        Err(TalkFault::Write) => FAILED,
    }
}

/// Opens a lab of a source with a timed list, and talks. Returns the exit status.
fn open(rt: &HostRuntime, words: &Words<'_>, source: &[u8], inputs: &[u8]) -> u8 {
    match Lab::open(rt.alloc(), source, inputs, words.sizes()) {
        Ok(mut lab) => run_lab(rt, words, &mut lab),
        Err(fault) => refuse(rt, words, source, fault),
    }
}

fn main(rt: HostRuntime) -> ExitCode {
    run_on_texts(&rt, USAGE, TEXT_LIMIT, |matches, source, inputs| {
        open(&rt, &words_of(matches), source, inputs)
    })
}
