//! The words of the command line: those that are accepted, and those that are refused.
mod rows;

use crate::checks::check_of;
use crate::cli::runs::DEFAULTS;
use crate::cli::words::rows::{Gives, READ, REFUSED};
use clap::error::ErrorKind;
use rv_cli::{Options, Words, read_words, refusal_status};
use std::alloc::Global;
use std::process::Abort;

/// Returns the program's name and the words of a line, in which a blank separates two.
fn words_of<'a>(rt: &impl Abort, alloc: Global, line: &'a str) -> Vec<&'a str> {
    let mut words = Vec::new(alloc);
    words.push("rvboard").expect(rt, "no memory");
    words.extend(line.split(' ')).expect(rt, "no memory");
    words
}

/// What is read where no word gives anything.
const NOTHING: Words<'static> = Words {
    source: "-",
    input: None,
    commands: None,
    options: DEFAULTS,
};

/// What is read where words give all fields.
const ALL: Words<'static> = Words {
    source: "a.s",
    input: Some("b"),
    commands: Some("c"),
    options: Options {
        steps: 5,
        pages: 6,
        slots: 64,
    },
};

/// What is read of words that give this.
fn wanted(gives: Gives) -> Words<'static> {
    let mut words = NOTHING;
    match gives {
        Gives::Source(path) => words.source = path,
        Gives::Input(path) => words.input = Some(path),
        Gives::Commands(path) => words.commands = Some(path),
        Gives::Steps(n) => words.options.steps = n,
        Gives::Pages(n) => words.options.pages = n,
        Gives::Slots(n) => words.options.slots = n,
        Gives::FiveSteps(path) => {
            words.source = path;
            words.options.steps = 5;
        }
        Gives::All => return ALL,
    }
    words
}

/// Whether what is read is what is wanted.
fn is_same(read: Words<'_>, wanted: Words<'_>) -> bool {
    read.source == wanted.source
        && read.input == wanted.input
        && read.commands == wanted.commands
        && read.options == wanted.options
}

/// Whether words, with the program's name, are read so.
fn reads(alloc: Global, words: &[&str], wanted: Words<'_>) -> bool {
    match read_words(alloc, words) {
        Ok(read) => is_same(read, wanted),
        Err(_) => false,
    }
}

/// Checks what the words of a line give.
fn check_read(rt: &impl Abort, alloc: Global, line: &str, gives: Gives) {
    let words = words_of(rt, alloc, line);
    check_of(rt, reads(alloc, words.as_slice(), wanted(gives)), line);
}

#[test]
fn reads_the_words(rt: HostRuntime) {
    for &(line, gives) in READ.iter() {
        check_read(&rt, rt.alloc(), line, gives);
    }
}

// The first word, the program's name, is no argument, whatever it is.
#[test]
fn the_first_word_is_no_argument(rt: HostRuntime) {
    for words in [[].as_slice(), &["rvboard"], &["--stop"]] {
        assert!(rt; reads(rt.alloc(), words, NOTHING));
    }
}

/// Whether words are refused with this kind of error and this exit status.
fn is_refused(alloc: Global, words: &[&str], kind: ErrorKind, status: u8) -> bool {
    match read_words(alloc, words) {
        Ok(_) => false,
        Err(e) => e.kind() == kind && refusal_status(&e) == status,
    }
}

/// Checks how the words of a line are refused.
fn check_refused(rt: &impl Abort, alloc: Global, line: &str, kind: ErrorKind, status: u8) {
    let words = words_of(rt, alloc, line);
    check_of(rt, is_refused(alloc, words.as_slice(), kind, status), line);
}

#[test]
fn refuses_by_kind(rt: HostRuntime) {
    for &(line, kind, status) in REFUSED.iter() {
        check_refused(&rt, rt.alloc(), line, kind, status);
    }
}

/// Words with a blank that are refused, and the kind of the error.
static BLANKS: [(&[&str], ErrorKind); 3] = [
    (&["rvboard", "--steps", " 5"], ErrorKind::ValueValidation),
    (&["rvboard", "--pages=5 "], ErrorKind::ValueValidation),
    (&["rvboard", "--steps ", "5"], ErrorKind::UnknownArgument),
];

// A blank is a part of its word.
#[test]
fn words_may_have_blanks(rt: HostRuntime) {
    let spaced = Words {
        input: Some(" "),
        ..wanted(Gives::FiveSteps("a b.s"))
    };
    let words = ["rvboard", "--input", " ", "a b.s", "--steps=5"];
    assert!(rt; reads(rt.alloc(), &words, spaced));
    for &(words, kind) in BLANKS.iter() {
        assert!(rt; is_refused(rt.alloc(), words, kind, 3));
    }
}
