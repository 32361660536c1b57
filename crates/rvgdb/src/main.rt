//! The server of gdb's remote protocol: `rvgdb SOURCE [--input F] [--pages P] [--slots S] [--no-questions]`.
//!
//! Opens a lab of the source, and talks with gdb over the standard input and output.
#![tactic(auto)]

mod talk;
mod words;

use crate::talk::{TalkFault, talk};
use crate::words::{USAGE, Words, words_of};
use rv_base::{NoMemory, TEXT_LIMIT};
use rv_gdb::{Server, Target, features, memory_map};
use rv_lab::{Lab, LabFault, Printer, Sizes, append_diagnosis};
use rv_object::{ElfFault, elf_file};
use rv_options::{FAILED, NO_MEMORY, Opening, current_folder, fail, refuse_lab, run_on_texts};
use rv_replies::Files;
use std::process::ExitCode;

/// The path by which gdb knows the program's file.
const PATH: &[u8] = b"/board.elf";

/// What is told where gdb gets no file of the program.
const TOO_LARGE: &str = "the program's ELF file may have 4 GiB or more: gdb gets none\n";

/// Returns the program's ELF file. Where that may be too large, this is told, and it is an empty one.
fn program_file(rt: &HostRuntime, name: &str, lab: &Lab) -> Result<Vec<u8>, NoMemory> {
    match elf_file(
        rt.alloc(),
        lab.listing(),
        name.as_bytes(),
        &current_folder(rt),
    ) {
        Ok(file) => Ok(file),
        Err(ElfFault::TooLarge) => {
            let _told = rt.eprint(TOO_LARGE);
            Ok(Vec::new(rt.alloc()))
        }
        Err(ElfFault::OutOfMemory) => Err(NoMemory),
    }
}

/// Returns a server of a lab.
fn server(rt: &HostRuntime, words: &Words<'_>, lab: Lab) -> Result<Server, NoMemory> {
    let file = program_file(rt, words.opening.source, &lab)?;
    let mut path = Vec::new(rt.alloc());
    path.extend_from_slice(PATH)?;
    let map = memory_map(rt.alloc(), words.opening.pages)?;
    let files = Files::new(features(rt.alloc())?, map, path, file);
    let target = Target::new(rt.alloc(), lab, files)?;
    Ok(Server::new(rt.alloc(), target, words.asks))
}

/// Talks about a lab until gdb is done. Returns the exit status.
fn serve(rt: &HostRuntime, words: &Words<'_>, lab: Lab) -> u8 {
    let Ok(mut server) = server(rt, words, lab) else {
        return fail(rt, NO_MEMORY);
    };
    match talk(rt, &mut server) {
        Ok(()) => 0,
        Err(TalkFault::NoMemory) => fail(rt, NO_MEMORY),
        Err(TalkFault::Closed) => FAILED,
    }
}

/// Reports why there is no lab, and returns the exit status.
fn refuse(rt: &HostRuntime, words: &Words<'_>, source: &[u8], fault: LabFault) -> u8 {
    let mut text = Printer::new(rt.alloc());
    append_diagnosis(words.opening.source, source, fault, &mut text);
    refuse_lab(
        &mut rt.stderr(),
        text.bytes(),
        fault == LabFault::OutOfMemory,
    )
}

/// Opens a lab of a source with a timed list, and talks. Returns the exit status.
fn open(rt: &HostRuntime, words: &Words<'_>, source: &[u8], inputs: &[u8]) -> u8 {
    let Opening { pages, slots, .. } = words.opening;
    match Lab::open(rt.alloc(), source, inputs, Sizes { pages, slots }) {
        Ok(lab) => serve(rt, words, lab),
        Err(fault) => refuse(rt, words, source, fault),
    }
}

fn main(rt: HostRuntime) -> ExitCode {
    run_on_texts(&rt, USAGE, TEXT_LIMIT, |matches, source, inputs| {
        open(&rt, &words_of(matches), source, inputs)
    })
}
