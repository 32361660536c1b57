//! Rows: small sources with timed inputs and commands, and what boards and whole runs have to answer to them; and
//! faulty sources, and what has to be said of them.
//!
//! Each argument names a file of rows; those in `data/` hold them by topic. Three arguments ask for checks that
//! have no rows: `--hostile`, `--isolation` and `--refusals`. The program answers each row anew and compares: it
//! prints the first line of each row that gets another answer, and counts the rows, unless `--refusals` is the
//! only argument. After the argument `--answers` it prints the rows with the answers that they get instead.
//!
//! A blank line separates two rows. The first byte of a line says what it is:
//!
//! - `# `: the title, with which a row begins
//! - two blanks: a line of the source
//! - `@ `: a line of the timed list
//! - `: `: a line of the commands of a whole run
//! - `= N`: the boards may take N steps in all
//! - `> `: a command to the boards: one over flat memory without a cache, and three over pages with 64, 1024
//!   and 4096 slots. They have to answer the same, and to be the same at the end
//! - `^ N`: more calls of many steps are compared: with random inputs, and with a breakpoint at each of the
//!   first N words
//! - `! devices`: asks what the devices of the boards hold
//! - `% N`: asks for the size of the image, and for its bytes as numbers of N bytes each; N is 0 for the size
//!   alone
//! - `& NAME`: asks for the value of a name
//! - `$ STEPS PAGES SLOTS`: asks for a whole run with these options: what it prints, the line of its fault,
//!   its status
//! - `~ diagnoses`, `~ report`: asks for the diagnoses of the source, each with its place (`= LINE:COLUMN+LENGTH`),
//!   its number and its sentence, and its advice after `+ `; or for the lines of their report, each after `> `
//!
//! The answer follows the line that asks.
#![tactic(auto)]

mod boards;
mod calls;
mod check;
mod checked;
mod compare;
mod devices;
mod hostile;
mod image;
mod isolation;
mod refusals;
mod report;
mod row;
mod runs;
mod sentences;

use crate::check::check_rows;
use crate::report::{Count, Report};
use std::io::{self, Write};
use std::process::ExitCode;
use std::{env, fs};

/// Checks the rows of a file, and counts them.
fn check_file(rt: &HostRuntime, name: &str, report: &mut Report) -> io::Result<Count> {
    let Ok(text) = fs::read(rt, name) else {
        report.append_unread(name)?;
        return Ok(Count::UNREAD);
    };
    let count = check_rows(rt.alloc(), name, &text, report)?;
    report.append_count(rt.alloc(), name, count)?;
    Ok(count)
}

/// Does what an argument asks for, and counts the rows.
fn check_argument(rt: &HostRuntime, word: &str, report: &mut Report) -> io::Result<Count> {
    match word.as_bytes() {
        b"--hostile" => hostile::print_answers(rt),
        b"--isolation" => isolation::print_check(rt),
        b"--refusals" => refusals::print_answers(rt),
        _ => return check_file(rt, word, report),
    }
    Ok(Count::NONE)
}

/// Does what the arguments ask for, and counts the rows of all files.
fn check_arguments(rt: &HostRuntime, words: &[String], report: &mut Report) -> io::Result<Count> {
    let mut all = Count::NONE;
    for word in words {
        all = all.plus(check_argument(rt, word.as_str(), report)?);
    }
    report.append_count(rt.alloc(), "all", all)?;
    Ok(all)
}

/// Whether the arguments ask for the rows with the answers that they get.
fn asks_for_answers(words: &[String]) -> bool {
    words.len() > 1 && words[1].as_str() == "--answers"
}

/// Whether the only argument asks for the runs with a refused allocation: then nothing else allocates after them.
fn asks_for_refusals(words: &[String]) -> bool {
    words.len() == 2 && words[1].as_str() == "--refusals"
}

/// Returns the arguments that ask for a check; the first is the program's own.
fn asked(words: &[String]) -> &[String] {
    let first: usize = if asks_for_answers(words) { 2 } else { 1 };
    words.split_at(first.min(words.len())).1
}

/// Does what the arguments say. Returns whether each row has the answers that it got.
fn run(rt: &HostRuntime) -> io::Result<bool> {
    let words: Vec<String> = env::args(rt)?.collect(rt.alloc())?;
    if asks_for_refusals(words.as_slice()) {
        refusals::print_answers(rt);
        return Ok(true);
    }
    let mut report = Report::new(rt.alloc());
    let all = check_arguments(rt, asked(words.as_slice()), &mut report)?;
    let text = report.text(asks_for_answers(words.as_slice()));
    rt.stdout().write_all(text)?;
    Ok(all.differing == 0)
}

fn main(rt: HostRuntime) -> ExitCode {
    match run(&rt) {
        Ok(true) => ExitCode::SUCCESS,
        Ok(false) => ExitCode::from(1),
        Err(_) => ExitCode::from(2),
    }
}
