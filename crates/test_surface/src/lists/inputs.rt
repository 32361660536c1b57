//! Timed lists that are read, and written again.
use rv_base::NoMemory;
use rv_timeline::{TimedInput, Timeline, list_text};
use std::alloc::Global;
use std::process::Abort;

/// Texts, each with the list that is written of its inputs: texts that are empty, comments, bytes of both
/// cases, the first and the last source, equal and repeated steps, steps of up to ten digits, and words
/// between spaces and tabs.
static LISTS: [(&[u8], &[u8]); 8] = [
    (b"", b""),
    (b"\n\r\n \t \n", b""),
    (b"# 0 rx 41\n  #1 line 99\n#\n3 rx 42\n", b"3 rx 42\n"),
    (b"7 rx 00 5A a5 fF", b"7 rx 00\n7 rx 5a\n7 rx a5\n7 rx ff\n"),
    (
        b"0 line 1 1\n0 line 31 1\n9 line 00031 0",
        b"0 line 1 1\n0 line 31 1\n9 line 31 0\n",
    ),
    (
        b"4 rx 02\n4 line 3 1\n04 rx 01\n5 rx 01\n",
        b"4 rx 02\n4 line 3 1\n4 rx 01\n5 rx 01\n",
    ),
    (
        b"0000000012 rx 01\n9999999999 rx 02",
        b"12 rx 01\n9999999999 rx 02\n",
    ),
    (
        b"\t1\t rx  0a\t0b \r\n 2\tline\t3 \t1\r\n",
        b"1 rx 0a\n1 rx 0b\n2 line 3 1\n",
    ),
];

/// Reads a text that has no fault. It has no contract, so that the proofs of tests don't carry that of `read`.
fn read(rt: &impl Abort, alloc: Global, text: &[u8]) -> Timeline {
    Timeline::read(alloc, text).expect(rt, "the text is refused")
}

/// Whether this list is written of inputs.
fn is_written(alloc: Global, inputs: &[TimedInput], list: &[u8]) -> bool {
    match list_text(alloc, inputs) {
        Ok(text) => text.as_slice() == list,
        Err(NoMemory) => false,
    }
}

/// Checks the list that is written of the inputs of a text.
fn check(rt: &impl Abort, alloc: Global, text: &[u8], list: &[u8]) {
    let timeline = read(rt, alloc, text);
    assert!(rt; is_written(alloc, timeline.inputs(), list));
}

#[test]
fn lists_are_read(rt: HostRuntime) {
    for &(text, list) in LISTS.iter() {
        check(&rt, rt.alloc(), text, list);
    }
}
