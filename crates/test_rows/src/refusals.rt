//! Runs in which one allocation is refused: each answer has to be the full one, or out of memory as it is defined.
//!
//! `.ci/run` has the allocation of one number refused, and gives this program on standard input as many bytes
//! as it has to make allocations before its runs. So each allocation of the runs is the refused one in turn.
//! The program prints the same whichever it is, unless an answer is wrong.

mod empty;
mod guarded;
mod hello;
mod session;

use crate::checked::{Checked, Wrong, print_result};
use std::alloc::Global;
use std::io::Read;

/// Whether a check passes, or memory ran out.
fn is_right(checked: Checked<()>) -> bool {
    matches!(checked, Ok(()) | Err(Wrong::OutOfMemory))
}

/// Returns how many bytes there are on standard input, up to 4096.
fn input_length(rt: &HostRuntime) -> usize {
    let mut buffer = [0u8; 4096];
    rt.stdin().read(&mut buffer).unwrap_or(0)
}

/// Makes `count` allocations, or those before the refused one.
fn allocate(alloc: Global, count: usize, kept: &mut Vec<Vec<u8>>) -> Option<()> {
    kept.reserve(count).ok()?;
    for _ in 0..count {
        kept.push(Vec::from_slice(alloc, b"1").ok()?).ok()?;
    }
    Some(())
}

/// Whether each of these allocations has its byte.
fn have_bytes(kept: &[Vec<u8>]) -> bool {
    for one in kept {
        if one.as_slice() != b"1".as_slice() {
            return false;
        }
    }
    true
}

/// Does the runs, and returns how they were answered. These allocations were made before.
fn answer(alloc: Global, kept: &[Vec<u8>]) -> &'static str {
    if !hello::answers_right(alloc) {
        "a wrong answer of the run of a text"
    } else if !is_right(guarded::check_run(alloc)) {
        "a wrong answer of the assembler or the board"
    } else if !session::answers_right(alloc) {
        "a wrong answer of a session"
    } else if !is_right(empty::check_boot(alloc)) {
        "a wrong answer of a board with an empty source"
    } else if !have_bytes(kept) {
        "a lost byte"
    } else {
        "as defined"
    }
}

/// Makes the allocations that standard input asks for, does the runs, and prints how they were answered.
pub fn print_answers(rt: &HostRuntime) {
    let mut kept = Vec::new(rt.alloc());
    let _ = allocate(rt.alloc(), input_length(rt), &mut kept);
    print_result(rt, "refusals: ", answer(rt.alloc(), &kept));
}
