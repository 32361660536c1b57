//! What the programs do with their words and files.
ghost use Rattle.std.specs.Prelude.{◌≡◌, if◌then◌else◌};

use crate::opening::{Opening, opening_of};
use crate::status::{FAILED, REFUSED, refusal_status};
use crate::usage::{Usage, parse_words};
use clap::error::ErrorKind;
use clap::{ArgMatches, Error};
use std::alloc::AllocError;
use std::env::{self, Env};
use std::fs::{self, Files};
use std::io::{self, Eprint, Print, Write};
use std::process::ExitCode;

/// What programs that open a lab tell where memory ran out.
pub const NO_MEMORY: &str = "out of memory\n";

/// Returns the words of the command line, the program's name first.
fn all_words<R: Env + AllocGlobal>(rt: &R) -> io::Result<Vec<String>> {
    let all = env::args(rt)?.collect(rt.alloc())?;
    Ok(all)
}

/// Runs a program with words, and returns its exit status.
///
/// # Errors
///
/// `AllocError` if memory ran out before the program had its words.
fn run_with<R: AllocGlobal, F: FnOnce(&[&str]) -> u8>(
    rt: &R,
    all: &[String],
    run: F,
) -> Result<u8, AllocError>
    requires { F.IsAlwaysCallable run }
{
    let words: Vec<&str> = all.iter().map(|word| word.as_str()).collect(rt.alloc())?;
    Ok(run(words.as_slice()))
}

/// Runs a program with the words of its command line, and returns its exit status. Words that are not UTF-8 are
/// reported.
///
/// # Errors
///
/// `AllocError` if memory ran out before the program had its words.
pub fn run_with_words<R: Env + AllocGlobal + Eprint, F: FnOnce(&[&str]) -> u8>(
    rt: &R,
    run: F,
) -> Result<u8, AllocError>
    requires { F.IsAlwaysCallable run }
{
    match all_words(rt) {
        Ok(all) => run_with(rt, &all, run),
        Err(error) if error.kind() == io::ErrorKind::OutOfMemory => Err(AllocError),
        Err(_) => {
            let _ = rt.eprint("error: a word is not UTF-8\n");
            Ok(REFUSED)
        }
    }
}

/// Reports why a program can't go on, and returns the exit status.
pub fn fail<R: Eprint>(rt: &R, line: &str) -> u8 {
    let _ = rt.eprint(line);
    FAILED
}

/// Prints the help or the version that was asked for, or why the words are refused, and returns the exit status. Where
/// memory ran out it is that of `no_memory`, which reports it.
pub fn refuse_words<R: Print + Eprint, F: FnOnce() -> u8>(rt: &R, error: &Error, no_memory: F) -> u8
    requires { F.IsAlwaysCallable no_memory }
{
    if error.kind() == ErrorKind::OutOfMemory {
        return no_memory();
    }
    let _ = error.print(rt);
    match error.kind() {
        ErrorKind::DisplayVersion => 0,
        _ => refusal_status(error),
    }
}

/// Parses words by a usage, and hands on what they say. Where they are refused, the help or the refusal is printed.
/// Returns the exit status.
fn run_words<R: AllocGlobal + Print + Eprint, F: FnOnce(&ArgMatches<'_>) -> u8>(
    rt: &R,
    usage: Usage<'_>,
    no_memory: &str,
    words: &[&str],
    run: F,
) -> u8
    requires { F.IsAlwaysCallable run }
{
    match parse_words(rt.alloc(), usage, words) {
        Ok(matches) => run(&matches),
        Err(error) => refuse_words(rt, &error, || fail(rt, no_memory)),
    }
}

/// Runs a program with what the words of its command line say by its usage. Where they are refused, the help or the
/// refusal is printed; where memory runs out, `no_memory` is. Ends with the status that the program returns.
pub fn run_program<R: Env + AllocGlobal + Print + Eprint, F: FnOnce(&ArgMatches<'_>) -> u8>(
    rt: &R,
    usage: Usage<'_>,
    no_memory: &str,
    run: F,
) -> ExitCode
    requires { F.IsAlwaysCallable run }
{
    let status = run_with_words(rt, |words| run_words(rt, usage, no_memory, words, run));
    ExitCode::from(status.unwrap_or(FAILED))
}

/// Returns the folder that relative paths begin at, or an empty one where it isn't known.
pub fn current_folder<R: Env + AllocGlobal>(rt: &R) -> Vec<u8> {
    let Ok(path) = env::current_dir(rt) else {
        return Vec::new(rt.alloc());
    };
    let folder = match path.to_str() {
        Some(text) => text.as_bytes().to_vec(rt.alloc()),
        None => Err(AllocError),
    };
    folder.unwrap_or(Vec::new(rt.alloc()))
}

/// Reads a file of at most `most` bytes.
pub fn read_file<R: Files + AllocGlobal>(rt: &R, path: &str, most: usize) -> Option<Vec<u8>> {
    let text = fs::read(rt, path).ok()?;
    (text.len() <= most).then_some(text)
}

/// Hands on a source with its timed list, as `with_texts`.
fn with_inputs<R: Files + AllocGlobal + Eprint, F: FnOnce(&[u8], &[u8]) -> u8>(
    rt: &R,
    source: &[u8],
    input: Option<&str>,
    most: usize,
    run: F,
) -> u8
    requires { F.IsAlwaysCallable run }
{
    let Some(path) = input else {
        return run(source, b"");
    };
    match read_file(rt, path, most) {
        Some(inputs) => run(source, &inputs),
        None => fail(rt, "cannot read input\n"),
    }
}

/// Hands on the source and the timed list of a lab, each of at most `most` bytes; without a list an empty one. Where a
/// file can't be read, this is reported. Returns the exit status.
fn with_texts<R: Files + AllocGlobal + Eprint, F: FnOnce(&[u8], &[u8]) -> u8>(
    rt: &R,
    opening: &Opening<'_>,
    most: usize,
    run: F,
) -> u8
    requires { F.IsAlwaysCallable run }
{
    match read_file(rt, opening.source, most) {
        Some(source) => with_inputs(rt, &source, opening.input, most, run),
        None => fail(rt, "cannot read source\n"),
    }
}

/// Runs a program that opens a lab, as `run_program`: with what its words say, and the source and the timed list that they
/// name, each of at most `most` bytes. Without a list it gets an empty one.
pub fn run_on_texts<
    R: Env + Files + AllocGlobal + Print + Eprint,
    F: FnOnce(&ArgMatches<'_>, &[u8], &[u8]) -> u8,
>(rt: &R, usage: Usage<'_>, most: usize, run: F) -> ExitCode
    requires { F.IsAlwaysCallable run }
{
    run_program(rt, usage, NO_MEMORY, |matches| {
        with_texts(rt, &opening_of(matches), most, |source, inputs| {
            run(matches, source, inputs)
        })
    })
}

/// Writes why there is no lab, and returns the exit status.
pub fn refuse_lab<W: Write>(out: &mut W, why: &[u8], out_of_memory: bool) -> u8
    ensures { result ≡ (if out_of_memory then 4 else 3) }
{
    let _ = out.write_all(why);
    if out_of_memory { FAILED } else { REFUSED }
}
