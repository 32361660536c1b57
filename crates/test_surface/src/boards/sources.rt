//! A source that can't be a row of test_rows, for its line ends and its bytes. Rows there have the image of each
//! mnemonic and directive, and each fault.
use super::programs::program;
use std::alloc::Global;
use std::process::Abort;

/// Checks the image of a source.
fn check_image(rt: &impl Abort, alloc: Global, source: &[u8], image: &[u8]) {
    let program = program(rt, alloc, source);
    assert!(rt; program.bytes() == image);
}

/// Blanks, comments, CR LF, a label alone, a last line without LF, and numbers in each base.
const LINES: &[u8] =
    b"x: jal x0,x # \xff\r\n\r\n\ty :\n// z\n addi x1 , x2 , -0x10\nlui x1,0B11\nsw x3,017(x4)";

/// The image of `LINES`.
const IMAGE: &[u8] = b"\x6f\x00\x00\x00\x93\x00\x01\xff\xb7\x30\x00\x00\xa3\x27\x32\x00";

#[test]
fn lines_end_in_several_ways(rt: HostRuntime) {
    check_image(&rt, rt.alloc(), LINES, IMAGE);
}
