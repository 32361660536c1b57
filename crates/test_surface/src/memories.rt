//! Both memories, by the calls of their trait.
use crate::checks::check_at;
use rv_isa::Width;
use rv_ram::{ByteMemory, FlatMemory, PagedRam};
use std::alloc::Global;
use std::process::Abort;

/// A write: its offset, its width and its value.
type Write = (u32, Width, u32);

/// Does a write, after a check that it is in range and aligned.
fn put<M: ByteMemory>(rt: &impl Abort, memory: &mut M, write: Write) {
    let (off, width, value) = write;
    let size = memory.size();
    assert!(rt; off < size && width.bytes() <= size - off && width.is_aligned(off));
    memory.write(off, width, value).expect(rt, "no memory");
}

/// Returns a byte, after a check that the offset is in range.
fn byte<M: ByteMemory>(rt: &impl Abort, memory: &M, off: u32) -> u8 {
    assert!(rt; off < memory.size());
    memory.read(off)
}

/// Returns a word, after a check that it is in range and aligned.
fn word<M: ByteMemory>(rt: &impl Abort, memory: &M, off: u32) -> u32 {
    assert!(rt; off <= memory.size() - 4 && off % 4 == 0);
    memory.read_word(off)
}

/// Writes to new memories, with bytes and words that these hold afterwards.
#[derive(Drop)]
struct Case<'a> {
    pages: u32,
    writes: &'a [Write],
    bytes: &'a [(u32, u8)],
    words: &'a [(u32, u32)],
}

/// The last bytes of 4096 pages, before and after a write; a byte on each side of the end of a page, and
/// bytes near it that don't change; values of each width at the ends and in the middle of pages, some of them
/// zeros; pages that are written in another order than that of their offsets, at both ends of each.
static CASES: [Case<'static>; 5] = [
    Case {
        pages: 4096,
        writes: &[],
        bytes: &[(16_777_215, 0)],
        words: &[(16_777_212, 0)],
    },
    Case {
        pages: 4096,
        writes: &[(16_777_215, Width::One, 0x7f)],
        bytes: &[],
        words: &[(16_777_212, 0x7f00_0000)],
    },
    Case {
        pages: 2,
        writes: &[(4095, Width::One, 0xab), (4096, Width::One, 0xcd)],
        bytes: &[
            (4094, 0),
            (4095, 0xab),
            (4096, 0xcd),
            (4097, 0),
            (0, 0),
            (8191, 0),
        ],
        words: &[],
    },
    Case {
        pages: 4,
        writes: &[
            (4092, Width::Four, 0x0403_0201),
            (4090, Width::Two, 0xffff_6655),
            (4089, Width::One, 0x1234_5677),
            (8192, Width::Two, 0xabcd_0000),
            (8194, Width::Two, 0x8000_00ff),
            (4093, Width::One, 0),
            (12_284, Width::Four, 0),
            (12_287, Width::One, 0xff00),
            (16_380, Width::Four, 0x8000_0000),
        ],
        bytes: &[(16_383, 0x80)],
        words: &[
            (4088, 0x6655_7700),
            (4092, 0x0403_0001),
            (8192, 0x00ff_0000),
        ],
    },
    Case {
        pages: 4,
        writes: &[
            (16_380, Width::Four, 0x1111_1111),
            (8192, Width::Four, 0x2222_2222),
            (4092, Width::Four, 0x3333_3333),
            (12_288, Width::Four, 0x4444_4444),
            (0, Width::Four, 0x5555_5555),
            (12_284, Width::Four, 0x6666_6666),
        ],
        bytes: &[(4096, 0), (8191, 0)],
        words: &[
            (0, 0x5555_5555),
            (4092, 0x3333_3333),
            (4096, 0),
            (8188, 0),
            (8192, 0x2222_2222),
            (12_284, 0x6666_6666),
            (12_288, 0x4444_4444),
            (16_380, 0x1111_1111),
        ],
    },
];

/// Does the writes, in order.
fn put_all<M: ByteMemory>(rt: &impl Abort, memory: &mut M, writes: &[Write]) {
    for &write in writes {
        put(rt, memory, write);
    }
}

fn check_bytes<M: ByteMemory>(rt: &impl Abort, memory: &M, bytes: &[(u32, u8)]) {
    for &(off, value) in bytes {
        check_at(rt, byte(rt, memory, off) == value, off);
    }
}

fn check_words<M: ByteMemory>(rt: &impl Abort, memory: &M, words: &[(u32, u32)]) {
    for &(off, value) in words {
        check_at(rt, word(rt, memory, off) == value, off);
    }
}

/// Checks the size of a new memory, and what it holds after the writes.
fn check<M: ByteMemory>(rt: &impl Abort, memory: &mut M, case: &Case<'_>) {
    assert!(rt; case.pages.checked_mul(4096) == Some(memory.size()));
    put_all(rt, memory, case.writes);
    check_bytes(rt, memory, case.bytes);
    check_words(rt, memory, case.words);
}

/// Checks that two memories hold the same in their first four pages.
fn check_same<M: ByteMemory, N: ByteMemory>(rt: &impl Abort, one: &M, other: &N) {
    for off in 0..one.size().min(16_384) {
        check_at(rt, byte(rt, one, off) == byte(rt, other, off), off);
    }
}

// These have no contracts, so that the proof of a test carries nothing of what a memory holds.

/// Returns flat memory of so many pages.
fn flat(rt: &impl Abort, alloc: Global, pages: u32) -> FlatMemory {
    assert!(rt; 1 <= pages && pages <= 4096);
    FlatMemory::new(alloc, pages).expect(rt, "no memory")
}

/// Returns paged memory of so many pages.
fn paged(rt: &impl Abort, alloc: Global, pages: u32) -> PagedRam {
    assert!(rt; 1 <= pages && pages <= 4096);
    PagedRam::new(alloc, pages).expect(rt, "no memory")
}

/// Checks a case with each memory, and that both hold the same.
fn check_both(rt: &impl Abort, alloc: Global, case: &Case<'_>) {
    let mut flat = flat(rt, alloc, case.pages);
    let mut paged = paged(rt, alloc, case.pages);
    check(rt, &mut flat, case);
    check(rt, &mut paged, case);
    check_same(rt, &flat, &paged);
}

#[test]
fn writes_are_read(rt: HostRuntime) {
    for case in CASES.iter() {
        check_both(&rt, rt.alloc(), case);
    }
}
