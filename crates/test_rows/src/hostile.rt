//! Texts that nobody meant: each beginning of a source, a timed list and commands, and a thousand
//! changes of each. And readers and writers that fail at each of their calls in turn.
//!
//! Each text has to give a run of up to a thousand steps, or a fault that its kind may have.

mod answers;
mod changes;
mod streams;
mod texts;

use crate::checked::print_result;
use crate::hostile::answers::{Text, is_answered};
use crate::hostile::changes::{Dice, change};
pub use crate::hostile::streams::OPTIONS;
use crate::hostile::streams::are_answered;
use crate::hostile::texts::{COMMANDS, INPUTS, SOURCE, TIMER};
use rv_base::NoMemory;
use std::alloc::Global;
use std::io::Write;

/// The number of changes of each text.
const CHANGES: usize = 1000;

/// Whether texts are answered right, if there is memory for them.
type Answered = Result<bool, NoMemory>;

// Each tried text is in a place that is lent, where the one that is answered wrongly is left.

/// Whether each beginning of a text is answered right.
fn beginnings_are_right(alloc: Global, kind: Text, text: &[u8], tried: &mut Vec<u8>) -> Answered {
    for count in 0..text.len() {
        tried.clear();
        tried.extend_from_slice(text.split_at(count).0)?;
        if !is_answered(alloc, kind, tried) {
            return Ok(false);
        }
    }
    Ok(true)
}

/// Whether each change of a text is answered right.
fn changes_are_right(alloc: Global, kind: Text, text: &[u8], tried: &mut Vec<u8>) -> Answered {
    let mut dice = Dice::NEW;
    for _ in 0..CHANGES {
        change(text, &mut dice, tried)?;
        if !is_answered(alloc, kind, tried) {
            return Ok(false);
        }
    }
    Ok(true)
}

/// Whether each beginning and each change of a text is answered right.
fn are_right(alloc: Global, kind: Text, text: &[u8], tried: &mut Vec<u8>) -> Answered {
    Ok(
        beginnings_are_right(alloc, kind, text, tried)?
            && changes_are_right(alloc, kind, text, tried)?,
    )
}

/// Returns how the texts of a kind are answered. Of a text that is answered wrongly the line that follows has it.
fn result(alloc: Global, kind: Text, text: &[u8], tried: &mut Vec<u8>) -> &'static [u8] {
    let line = match are_right(alloc, kind, text, tried) {
        Ok(false) => return b" a wrong answer to:\n",
        Ok(true) => b" as defined\n".as_slice(),
        Err(NoMemory) => b" no memory\n".as_slice(),
    };
    tried.clear();
    line
}

/// Prints how the texts of a kind are answered, with the first one that is answered wrongly.
fn print(rt: &HostRuntime, name: &[u8], kind: Text, text: &[u8]) {
    let mut tried = Vec::new(rt.alloc());
    let result = result(rt.alloc(), kind, text, &mut tried);
    let _ = rt.stdout().write_all(name);
    let _ = rt.stdout().write_all(result);
    let _ = rt.stdout().write_all(&tried);
}

/// Prints a line for each kind of text, with the first one that is answered wrongly.
pub fn print_answers(rt: &HostRuntime) {
    print(rt, b"sources:", Text::Source, SOURCE);
    print(rt, b"more sources:", Text::Source, TIMER);
    print(rt, b"timed lists:", Text::Inputs, INPUTS);
    print(rt, b"commands:", Text::Commands, COMMANDS);
    let result = if are_answered(rt.alloc()) {
        "as defined"
    } else {
        "a wrong answer"
    };
    print_result(rt, "readers and writers: ", result);
}
