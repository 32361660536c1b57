//! User code on two boards that differ in what it may not see.
use crate::checked::{Checked, Wrong};
use crate::isolation::cases::{Case, End, USER_CODE, check_case};
use rv_board::TrapRecord;
use std::alloc::{AllocError, Global};

/// The front of a source whose user code may neither read nor execute the word `secret`: entry 0 is NA4 there,
/// and grants nothing.
const WORD: &[u8] =
    b"\nla t0,secret\nsrli t0,t0,2\ncsrw pmpaddr0,t0\nli t0,-1\ncsrw pmpaddr1,t0\nli t0,0x1F10\ncsrw pmpcfg0,t0\nla t0,user\ncsrw mepc,t0\nla t1,secret\nmret\nuser:\n";

/// The same front with the entries 8 and 9 in place of 0 and 1.
const WORD_BY_HIGH_ENTRIES: &[u8] =
    b"\nla t0,secret\nsrli t0,t0,2\ncsrw pmpaddr8,t0\nli t0,-1\ncsrw pmpaddr9,t0\nli t0,0x1F10\ncsrw pmpcfg2,t0\nla t0,user\ncsrw mepc,t0\nla t1,secret\nmret\nuser:\n";

/// A source of that kind without a configuration of these entries, so that none matches.
const NO_ENTRY: &[u8] =
    b"la t0,secret\nsrli t0,t0,2\ncsrw pmpaddr8,t0\nli t0,-1\ncsrw pmpaddr9,t0\nli t0,0x1F10\nla t0,user\ncsrw mepc,t0\nla t1,secret\nmret\nuser: lw a0,0(t1)\nsecret: .word 1";

/// The user code after these fronts, and the end of the source.
const LOAD: &[u8] = b"lw a0,0(t1)";

const WORD_END: &[u8] = b"\nsecret: .word FILL";

/// The front of a source whose user code may read and execute all from `user` to `end` (TOR), read and write
/// the word `word` (NA4) and the 16 bytes of `area` (NAPOT), and nothing else. It begins with its own address
/// in t0.
const BORDERS: &[u8] =
    b"\nla t0,user\nsrli t0,t0,2\ncsrw pmpaddr0,t0\nla t0,end\nsrli t0,t0,2\ncsrw pmpaddr1,t0\nla t0,word\nsrli t0,t0,2\ncsrw pmpaddr2,t0\nla t0,area\nsrli t0,t0,2\nori t0,t0,1\ncsrw pmpaddr3,t0\nli t0,0x1B130D00\ncsrw pmpcfg0,t0\nla t0,user\ncsrw mepc,t0\nmret\n.space 64,FILL\nuser:\n";

/// The end of that source. The bytes around the word and the area, up to the end of memory, differ between
/// the boards.
const BORDERS_END: &[u8] =
    b"\n.align 4\nend: .space 32,FILL\nword: .word 5\n.space 12,FILL\narea: .space 16,7\n.space 0x80001000-.,FILL";

/// User code, after two digits: how many of its events are done, and the cause of the trap that ends them.
static ROWS: [&[u8]; 13] = [
    b"45la t1,word\nlw a0,0(t1)\nlw a1,4(t1)",
    b"47la t1,word\nsb t1,3(t1)\nsb t1,-1(t1)",
    b"45la t1,area\nlh a0,14(t1)\nlbu a1,16(t1)",
    b"45la t1,area\nsw t1,12(t1)\nlw a0,-4(t1)",
    b"25lw a0,0(t0)\nlw a0,-4(t0)",
    b"27lw a0,0(t0)\nsw a0,0(t0)",
    b"41la t1,end\njr t1",
    b"41la t1,area\njr t1",
    b"31addi t1,t0,-4\njr t1",
    b"18ecall",
    b"22wfi\nmret",
    b"12csrr a0,mstatus",
    b"12.word 0",
];

/// Returns a source of these pieces, with the value `fill` in all places that user code may not see.
fn filled(alloc: Global, fill: &[u8], pieces: [&[u8]; 3]) -> Result<Vec<u8>, AllocError> {
    let [front, code, end] = pieces;
    [b".equ FILL,".as_slice(), fill, front, code, end].concat(alloc)
}

/// Checks a run of two sources of these pieces, with different values in all places that user code may not see.
fn check_filled(alloc: Global, pieces: [&[u8]; 3], case: &Case) -> Checked<()> {
    let one = filled(alloc, b"0x5a", pieces)?;
    let other = filled(alloc, b"0xa5", pieces)?;
    check_case(alloc, &one, &other, case)
}

/// The refused load of the word, which differs between the boards.
const LOADS: Case = Case {
    events: 8,
    done: 1,
    end: End::Trap(TrapRecord {
        cause: 5,
        epc: 0x8000_003c,
        tval: 0x8000_0040,
    }),
    steps: 16,
    bytes: &[(0x8000_0040, [0x5a, 0xa5])],
    differ: true,
    ..USER_CODE
};

/// The refused fetch of the first instruction of user code.
const FETCHES: Case = Case {
    events: 2,
    done: 1,
    end: End::Trap(TrapRecord {
        cause: 1,
        epc: 0x8000_0038,
        tval: 0x8000_0038,
    }),
    steps: 15,
    ..USER_CODE
};

/// Checks that the two boards of a row do its events, end with its cause, and differ only where user code may
/// not see.
fn check_row(alloc: Global, row: &[u8]) -> Checked<()> {
    let [done, cause, code @ ..] = row else {
        return Err(Wrong::What("a row is too short"));
    };
    let case = Case {
        done: (*done % 16) as usize,
        end: End::Cause((*cause % 16) as u32),
        bytes: &[],
        ..LOADS
    };
    check_filled(alloc, [BORDERS, code, BORDERS_END], &case)
}

/// Checks that no access at the borders of a region tells what lies beside it.
fn check_borders(alloc: Global) -> Checked<()> {
    for row in ROWS.iter() {
        check_row(alloc, row)?;
    }
    Ok(())
}

/// Checks that user code learns nothing of what it may not see: a word, whichever entries keep it, what no entry
/// has, which isn't even fetched, and what lies beside a region.
pub fn check_secrets(alloc: Global) -> Checked<()> {
    check_filled(alloc, [WORD, LOAD, WORD_END], &LOADS)?;
    check_filled(alloc, [WORD_BY_HIGH_ENTRIES, LOAD, WORD_END], &LOADS)?;
    check_case(alloc, NO_ENTRY, NO_ENTRY, &FETCHES)?;
    check_borders(alloc)
}
