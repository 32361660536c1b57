//! The labels and the statements of lines. What each mnemonic is assembled to, and the faults of lines, are rows of
//! test_rows.
use rv_base::decimal;
use rv_source::{Label, Line, Statement, read_line};
use std::alloc::Global;
use std::process::Abort;

/// Reads a line that has no fault. It has no contract, so that the proofs of tests don't carry that of `read_line`.
fn line<'a>(rt: &impl Abort, alloc: Global, text: &'a [u8]) -> Line<'a> {
    read_line(alloc, text).expect(rt, "the line is refused")
}

/// Whether a label is spelled so.
fn is_spelled(label: &Label, text: &[u8]) -> bool {
    match label {
        Label::Name(name) => name.bytes() == text,
        Label::Local(number) => decimal(9999, text) == Some(u64::from(*number)),
    }
}

/// Whether labels are spelled so.
fn are_spelled(labels: &[Label], texts: &[&[u8]]) -> bool {
    for (label, text) in labels.iter().zip(texts) {
        if !is_spelled(label, text) {
            return false;
        }
    }
    labels.len() == texts.len()
}

/// What a line states.
#[derive(Clone, Copy, PartialEq, Eq)]
enum Stated {
    Instruction,
    Marker,
    SomethingElse,
    Nothing,
}

/// Returns what a line states.
fn states(line: &Line<'_>) -> Stated {
    match line.statement() {
        Some(Statement::Instruction(_)) => Stated::Instruction,
        Some(Statement::Marker) => Stated::Marker,
        Some(_) => Stated::SomethingElse,
        None => Stated::Nothing,
    }
}

/// A line without a fault, its labels, and what it states.
type Row = (&'static [u8], &'static [&'static [u8]], Stated);

static ROWS: [Row; 5] = [
    (
        b"main : 0: .text: 9999: nop",
        &[b"main", b"0", b".text", b"9999"],
        Stated::Instruction,
    ),
    (b" \t# nothing", &[], Stated::Nothing),
    (b"x: 1:", &[b"x", b"1"], Stated::Nothing),
    (b"x: .globl 5,(", &[b"x"], Stated::Marker),
    (b"1: .word 5", &[b"1"], Stated::SomethingElse),
];

/// Checks the labels of a line, and what it states.
fn check(rt: &impl Abort, alloc: Global, (text, labels, what): Row) {
    let read = line(rt, alloc, text);
    assert!(rt; are_spelled(read.labels(), labels) && states(&read) == what);
}

#[test]
fn lines_have_labels_and_a_statement(rt: HostRuntime) {
    for &row in ROWS.iter() {
        check(&rt, rt.alloc(), row);
    }
}
