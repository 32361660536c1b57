//! How a source is cut into lines.
use rv_base::{Cut, cut_lines};
use std::process::Abort;

/// Whether this is the next line, or there is none. It has no contract, so that the proof of `check` carries nothing of
/// the lines.
fn is_next(left: &mut Cut<'_>, line: Option<&[u8]>) -> bool {
    left.next() == line
}

/// Checks that the source has these lines, and no more however often it is asked.
fn check(rt: &impl Abort, source: &[u8], lines: &[&[u8]]) {
    let mut left = cut_lines(source);
    for line in lines {
        assert!(rt; is_next(&mut left, Some(*line)));
    }
    assert!(rt; is_next(&mut left, None) && is_next(&mut left, None));
}

/// Sources with their lines: each ends at a feed, and without one return that stands before that, or at the end.
static ROWS: [(&[u8], &[&[u8]]); 13] = [
    (b"", &[]),
    (b"a", &[b"a"]),
    (b"a\n", &[b"a"]),
    (b"\n", &[b""]),
    (b"\n\n", &[b"", b""]),
    (b"a\nb", &[b"a", b"b"]),
    (b"a\n\nb\n", &[b"a", b"", b"b"]),
    (b"a\r\nb\r", &[b"a", b"b"]),
    (b"a\r\r\n", &[b"a\r"]),
    (b"a\rb\n", &[b"a\rb"]),
    (b"\r", &[b""]),
    (b"a\n\r", &[b"a", b""]),
    (b"\n\ra\n", &[b"", b"\ra"]),
];

#[test]
fn a_line_ends_at_a_feed(rt: HostRuntime) {
    for &(source, lines) in ROWS.iter() {
        check(&rt, source, lines);
    }
}
