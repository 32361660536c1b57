//! Timed lists that are refused.
use rv_timeline::{Timeline, TimelineFault};
use std::alloc::Global;

/// Texts, each with the number of its first refused line: steps that fall, steps that are not one to ten
/// digits, sources other than 1 to 31, levels other than 0 and 1, bytes that are not two digits each, and
/// other words.
static REFUSALS: [(&[u8], usize); 26] = [
    (b"5 line 3 1\n4 rx 00", 2),
    (b"1 rx 00\n5 rx 00\n\n# 0\n4 rx 00\nx", 5),
    (b"99999999999 rx 00", 1),
    (b"00000000001 rx 00", 1),
    (b"-1 rx 00", 1),
    (b"+1 rx 00", 1),
    (b"1a rx 00", 1),
    (b"// 1", 1),
    (b"1 line 32 0", 1),
    (b"1 line 0 0", 1),
    (b"1 line 4294967297 0", 1),
    (b"1 line 0x1 0", 1),
    (b"1 line 3 2", 1),
    (b"1 line 3 01", 1),
    (b"1 line 3", 1),
    (b"1 line 3 1 1", 1),
    (b"0 rx 5", 1),
    (b"0 rx", 1),
    (b"0 rx \t", 1),
    (b"0 rx 123", 1),
    (b"0 rx 00 0g", 1),
    (b"0 rx 00 # 01", 1),
    (b"1", 1),
    (b"1 RX 00", 1),
    (b"rx 00", 1),
    (b"0 rx 00\n1 rxx 00\n0 rx 00", 2),
];

/// Returns the fault of a text. It has no contract, so that the proofs of tests don't carry that of `read`.
fn fault_of(alloc: Global, text: &[u8]) -> Option<TimelineFault> {
    Timeline::read(alloc, text).err()
}

/// Whether this is the number of the first refused line of a text.
fn is_refused_at(alloc: Global, text: &[u8], line: usize) -> bool {
    fault_of(alloc, text) == Some(TimelineFault::BadLine(line))
}

#[test]
fn lines_are_refused(rt: HostRuntime) {
    for &(text, line) in REFUSALS.iter() {
        assert!(rt; is_refused_at(rt.alloc(), text, line));
    }
}
