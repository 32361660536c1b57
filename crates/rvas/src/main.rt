//! The assembler: `rvas SOURCE [-o FILE] [--form elf|bin|hex] [--listing]`.
//!
//! Writes the image of a source as an ELF executable with symbols and lines, as its bytes alone, or as Intel HEX, and
//! prints its listing. What is wrong with a rejected source goes to the standard error, as rvlab prints it.
#![tactic(auto)]

mod form;
mod words;

use crate::form::{Form, form_of};
use crate::words::{USAGE, Words, words_of};
use rv_asm::{AsmFault, FaultKind, Listing, list};
use rv_base::{NoMemory, TEXT_LIMIT};
use rv_diagnosis::{append_report, diagnose};
use rv_ihex::hex_file;
use rv_object::{ElfFault, elf_file, listing_text};
use rv_options::{FAILED, REFUSED, current_folder, fail, read_file, run_program};
use std::alloc::Global;
use std::fs;
use std::io::Write;
use std::process::ExitCode;

/// What is told where memory ran out.
const NO_MEMORY: &str = "error: out of memory\n";

/// Writes the parts of a line to the standard error.
fn report(rt: &HostRuntime, parts: &[&str]) {
    for part in parts {
        let _ = rt.stderr().write_all(part.as_bytes());
    }
}

/// Says that memory ran out, and returns the exit status.
fn no_memory(rt: &HostRuntime) -> u8 {
    fail(rt, NO_MEMORY)
}

/// Appends what is wrong with each faulty line of a rejected source.
fn append_faults(
    alloc: Global,
    path: &str,
    source: &[u8],
    text: &mut Vec<u8>,
) -> Result<(), NoMemory> {
    let all = diagnose(alloc, source)?;
    append_report(alloc, path, source, &all, text)
}

/// Reports each faulty line of a rejected source, and returns the exit status.
fn refuse_source(rt: &HostRuntime, path: &str, source: &[u8]) -> u8 {
    let mut text = Vec::new(rt.alloc());
    let appended = append_faults(rt.alloc(), path, source, &mut text);
    let _ = rt.stderr().write_all(&text);
    match appended {
        Ok(()) => REFUSED,
        Err(NoMemory) => no_memory(rt),
    }
}

/// Returns the file of a form.
fn file_of(
    rt: &HostRuntime,
    path: &str,
    listing: Listing<'_>,
    form: Form,
) -> Result<Vec<u8>, ElfFault> {
    match form {
        Form::Elf => elf_file(rt.alloc(), listing, path.as_bytes(), &current_folder(rt)),
        Form::Binary => Ok(listing.program.bytes().to_vec(rt.alloc())?),
        Form::Hex => Ok(hex_file(rt.alloc(), listing.program.bytes())?),
    }
}

/// Writes a file of a form, and returns the exit status.
fn write_form(rt: &HostRuntime, words: &Words<'_>, listing: Listing<'_>, output: &str) -> u8 {
    let Some(form) = form_of(output, words.form) else {
        report(
            rt,
            &[
                "error: the form of ",
                output,
                " isn't known: end its name with .elf, .bin or .hex, or give --form\n",
            ],
        );
        return REFUSED;
    };
    match file_of(rt, words.source, listing, form) {
        Ok(bytes) => write_bytes(rt, output, &bytes),
        Err(ElfFault::OutOfMemory) => no_memory(rt),
        Err(ElfFault::TooLarge) => {
            report(rt, &["error: ", output, " may have 4 GiB or more\n"]);
            FAILED
        }
    }
}

/// Writes a file, and returns the exit status.
fn write_bytes(rt: &HostRuntime, output: &str, bytes: &[u8]) -> u8 {
    if fs::write(rt, output, bytes).is_ok() {
        return 0;
    }
    report(
        rt,
        &[
            "error: cannot write ",
            output,
            ": is its folder there, and may it be written?\n",
        ],
    );
    FAILED
}

/// Prints the listing, and returns the exit status.
fn print_listing(rt: &HostRuntime, listing: Listing<'_>, source: &[u8]) -> u8 {
    let Ok(text) = listing_text(rt.alloc(), listing, source) else {
        return no_memory(rt);
    };
    match rt.stdout().write_all(&text) {
        Ok(()) => 0,
        Err(_) => FAILED,
    }
}

/// Does what the words ask for with a listing, and returns the exit status.
fn make(rt: &HostRuntime, words: &Words<'_>, source: &[u8], listing: Listing<'_>) -> u8 {
    if words.wants_listing {
        let status = print_listing(rt, listing, source);
        if status != 0 {
            return status;
        }
    }
    match words.output {
        Some(output) => write_form(rt, words, listing, output),
        None => 0,
    }
}

/// Assembles a source, does what the words ask for, and returns the exit status.
fn assemble(rt: &HostRuntime, words: &Words<'_>, source: &[u8]) -> u8 {
    match list(rt.alloc(), source) {
        Ok((program, places)) => {
            let listing = Listing {
                program: &program,
                places: &places,
            };
            make(rt, words, source, listing)
        }
        Err(
            AsmFault {
                kind: FaultKind::OutOfMemory,
                ..
            },
        ) => no_memory(rt),
        Err(_) => refuse_source(rt, words.source, source),
    }
}

/// Reads the source that the words name, and does what they ask for. Returns the exit status.
fn run(rt: &HostRuntime, words: &Words<'_>) -> u8 {
    if words.output.is_none() && !words.wants_listing {
        report(
            rt,
            &["error: nothing is asked for: name a file with -o, or give --listing\n"],
        );
        return REFUSED;
    }
    match read_file(rt, words.source, TEXT_LIMIT) {
        Some(source) => assemble(rt, words, &source),
        None => {
            report(
                rt,
                &[
                    "error: cannot read ",
                    words.source,
                    ": is the path right, and has it at most 16777216 bytes?\n",
                ],
            );
            FAILED
        }
    }
}

fn main(rt: HostRuntime) -> ExitCode {
    run_program(
        &rt,
        USAGE,
        NO_MEMORY,
        |matches| run(&rt, &words_of(matches)),
    )
}
