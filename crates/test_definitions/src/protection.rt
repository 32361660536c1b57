//! Accesses that physical memory protection grants.
ghost use Rattle.std.specs.Prelude.{◌≡◌, true};
ghost use Rattle.std.specs.List.{list_all};
ghost use Rattle.test_definitions.specs.Support.Registers.{is_granted};

use Access::{Execute, Read, Write};
use Mode::{Machine, User};
use Width::{Four, One, Two};
use rv_isa::Width;
use rv_pmp::{Access, Mode};

// pmpaddr0 to pmpaddr3: the words at 0x80000010 and at 0x80000000 (NA4), the 8 bytes at 0x80000018, the page at
// 0x80001000 and all bytes (NAPOT); those up to 0x80001000, and from there to 0x80002000 (TOR); and entries beside
// each other.

const WORD: [u32; 4] = [0x2000_0004, 0, 0, 0];

const FIRST: [u32; 4] = [0x2000_0000, 0, 0, 0];

const DOUBLE: [u32; 4] = [0x2000_0006, 0, 0, 0];

const PAGE: [u32; 4] = [0x2000_05ff, 0, 0, 0];

const ALL: [u32; 4] = [0xffff_ffff, 0, 0, 0];

const UP_TO: [u32; 4] = [0x2000_0400, 0, 0, 0];

const BETWEEN: [u32; 4] = [0x2000_0400, 0x2000_0800, 0, 0];

const EMPTY: [u32; 4] = [0x2000_0800, 0x2000_0800, 0, 0];

const WORD_AND_ALL: [u32; 4] = [0x2000_0004, 0xffff_ffff, 0, 0];

const ALL_AND_WORD: [u32; 4] = [0xffff_ffff, 0x2000_0004, 0, 0];

const THIRD: [u32; 4] = [0, 0, 0x2000_0004, 0];

const FOURTH: [u32; 4] = [0, 0, 0, 0x2000_0004];

/// Whether accesses are granted (Privileged Architecture 20211203, section 3.7.1). A row has pmpaddr0 to pmpaddr3,
/// which are written first, then pmpcfg0; the mode and the access with its address and width; and the answer.
///
/// The configurations: 08 TOR, 10 NA4, 18 NAPOT, with 1 for R, 2 for W, 4 for X, and 80 for a locked entry. NAPOT
/// with k ones at the end of its address has 2^(k+3) bytes.
pub const ACCESSES: [([u32; 4], u32, Mode, Access, u32, Width, bool); 43] = [
    // without a matching entry machine mode may do all, user mode nothing
    ([0, 0, 0, 0], 0, Machine, Execute, 0x8000_0000, Four, true),
    ([0, 0, 0, 0], 0, User, Read, 0x8000_0000, Four, false),
    // NA4 at 0x80000010
    (WORD, 0x11, User, Read, 0x8000_0010, Four, true),
    (WORD, 0x11, User, Read, 0x8000_0013, One, true),
    (WORD, 0x11, User, Read, 0x8000_000f, One, false),
    (WORD, 0x11, User, Read, 0x8000_0014, One, false),
    (WORD, 0x11, User, Write, 0x8000_0010, Four, false),
    // NAPOT of 8 bytes, 0x80000018 to 0x8000001f
    (DOUBLE, 0x1b, User, Write, 0x8000_0018, Four, true),
    (DOUBLE, 0x1b, User, Write, 0x8000_001f, One, true),
    (DOUBLE, 0x1b, User, Write, 0x8000_0020, One, false),
    (DOUBLE, 0x1b, User, Write, 0x8000_0017, One, false),
    // NAPOT of 4096 bytes, 0x80001000 to 0x80001fff
    (PAGE, 0x1c, User, Execute, 0x8000_1000, Four, true),
    (PAGE, 0x1c, User, Execute, 0x8000_1ffc, Four, true),
    (PAGE, 0x1c, User, Execute, 0x8000_2000, Four, false),
    (PAGE, 0x1c, User, Execute, 0x8000_0ffc, Four, false),
    // NAPOT of all ones: every byte
    (ALL, 0x19, User, Read, 0, One, true),
    (ALL, 0x19, User, Read, 0xffff_fffc, Four, true),
    // TOR of entry 0 begins at 0, of entry 1 at the address of entry 0
    (UP_TO, 0x09, User, Read, 0, One, true),
    (UP_TO, 0x09, User, Read, 0x8000_0fff, One, true),
    (UP_TO, 0x09, User, Read, 0x8000_1000, One, false),
    (BETWEEN, 0x0900, User, Read, 0x8000_1000, Four, true),
    (BETWEEN, 0x0900, User, Read, 0x8000_1ffe, Two, true),
    (BETWEEN, 0x0900, User, Read, 0x8000_2000, Two, false),
    (BETWEEN, 0x0900, User, Read, 0x8000_0fff, One, false),
    // TOR whose end isn't above its begin has no byte
    (EMPTY, 0x0900, User, Read, 0x8000_2000, One, false),
    // the lowest entry that matches any byte decides
    (WORD_AND_ALL, 0x1f10, User, Read, 0x8000_0010, Four, false),
    (WORD_AND_ALL, 0x1f10, User, Read, 0x8000_0014, Four, true),
    (ALL_AND_WORD, 0x101f, User, Read, 0x8000_0010, Four, true),
    // and has to match all of them
    (WORD_AND_ALL, 0x1f17, User, Read, 0x8000_0012, Four, false),
    (WORD, 0x17, User, Read, 0x8000_000e, Four, false),
    (FIRST, 0x11, Machine, Read, 0x8000_0002, Four, false),
    (FIRST, 0x11, Machine, Write, 0x8000_0000, Four, true),
    (FIRST, 0x11, User, Read, 0x8000_0000, Four, true),
    // W without R is kept as neither
    (ALL, 0x1a, User, Write, 0x8000_0000, Four, false),
    // an entry binds machine mode only where it is locked
    (WORD, 0x10, Machine, Write, 0x8000_0010, Four, true),
    (WORD, 0x90, Machine, Write, 0x8000_0010, Four, false),
    (WORD, 0x91, Machine, Read, 0x8000_0010, Four, true),
    (WORD, 0x91, Machine, Execute, 0x8000_0010, Four, false),
    (WORD, 0x91, Machine, Execute, 0x8000_0014, Four, true),
    // entries 2 and 3, and one that is off
    (THIRD, 0x0013_0000, User, Write, 0x8000_0010, Four, true),
    (FOURTH, 0x1400_0000, User, Execute, 0x8000_0010, Four, true),
    (FOURTH, 0x1400_0000, User, Read, 0x8000_0010, Four, false),
    (ALL, 0x07, User, Read, 0x8000_0010, Four, false),
];

/// Law: the definition of protection gives each row of `ACCESSES`.
#[tactic(auto, using(crate::proofs::Machine::each_access))]
pub fn accesses_are_defined()
    ensures { list_all is_granted ACCESSES ≡ true }
{}
