//! Traps, returns from them, and interrupts.
ghost use Rattle.std.specs.Prelude.{◌≡◌, true};
ghost use Rattle.std.specs.List.{list_all};
ghost use Rattle.test_definitions.specs.Support.Traps.{is_trap, is_interrupt};

use Mode::{Machine, User};
use rv_pmp::Mode;

/// Traps: mstatus and mtvec as machine mode writes them after a reset, and the mode, the cause and the pc of the
/// trap; then mstatus, mepc and the pc of the handler; then mstatus and the mode after MRET (Privileged Architecture
/// 20211203, sections 3.1.6, 3.1.7 and 3.3.2).
///
/// In mstatus MIE is 8, MPIE 80, MPP 1800 for machine and 0 for user mode, MPRV 20000, and TW 200000. An interrupt
/// with mtvec in vectored mode (bit 0) goes to its base plus 4 times its code, everything else to the base.
pub const TRAPS: [([u32; 2], Mode, u32, u32, [u32; 3], u32, Mode); 10] = [
    // an ECALL from each mode
    (
        [0, 0x8000_0100],
        User,
        8,
        0x8000_0040,
        [0, 0x8000_0040, 0x8000_0100],
        0x80,
        User,
    ),
    (
        [8, 0x8000_0100],
        User,
        8,
        0x8000_0040,
        [0x80, 0x8000_0040, 0x8000_0100],
        0x88,
        User,
    ),
    (
        [0, 0x8000_0100],
        Machine,
        11,
        0x8000_0040,
        [0x1800, 0x8000_0040, 0x8000_0100],
        0x80,
        Machine,
    ),
    (
        [8, 0x8000_0100],
        Machine,
        11,
        0x8000_0040,
        [0x1880, 0x8000_0040, 0x8000_0100],
        0x88,
        Machine,
    ),
    // an exception takes no vector; an interrupt takes that of its code
    (
        [8, 0x8000_0101],
        Machine,
        2,
        0x8000_0044,
        [0x1880, 0x8000_0044, 0x8000_0100],
        0x88,
        Machine,
    ),
    (
        [8, 0x8000_0101],
        Machine,
        0x8000_0003,
        0x8000_0044,
        [0x1880, 0x8000_0044, 0x8000_010c],
        0x88,
        Machine,
    ),
    (
        [8, 0x8000_0101],
        User,
        0x8000_0007,
        0x8000_0044,
        [0x80, 0x8000_0044, 0x8000_011c],
        0x88,
        User,
    ),
    (
        [8, 0x8000_0101],
        User,
        0x8000_000b,
        0x8000_0044,
        [0x80, 0x8000_0044, 0x8000_012c],
        0x88,
        User,
    ),
    // MPRV stays over a trap, and over a return to machine mode alone; TW stays
    (
        [0x22_0000, 0x8000_0100],
        Machine,
        3,
        0x8000_0048,
        [0x22_1800, 0x8000_0048, 0x8000_0100],
        0x22_0080,
        Machine,
    ),
    (
        [0x22_0000, 0x8000_0100],
        User,
        3,
        0x8000_0048,
        [0x22_0000, 0x8000_0048, 0x8000_0100],
        0x20_0080,
        User,
    ),
];

/// Law: the definitions of traps give each row of `TRAPS`.
#[tactic(auto, using(crate::proofs::Machine::each_trap))]
pub fn traps_are_defined()
    ensures { list_all is_trap TRAPS ≡ true }
{}

/// Interrupts: mstatus, mie and the mode; the levels of the software, the timer and the external line; and the cause
/// that is taken, or 0 for none (section 3.1.9). The external one goes first, then the software one.
pub const INTERRUPTS: [([u32; 2], Mode, [bool; 3], u32); 12] = [
    ([8, 0x888], Machine, [true, true, true], 0x8000_000b),
    ([8, 0x088], Machine, [true, true, true], 0x8000_0003),
    ([8, 0x080], Machine, [true, true, true], 0x8000_0007),
    ([8, 0x000], Machine, [true, true, true], 0),
    ([8, 0x888], Machine, [false, true, false], 0x8000_0007),
    ([8, 0x888], Machine, [true, true, false], 0x8000_0003),
    ([8, 0x888], Machine, [false, false, false], 0),
    ([8, 0x800], Machine, [true, true, false], 0),
    // machine mode takes none unless MIE is set; user mode takes them always
    ([0, 0x888], Machine, [true, true, true], 0),
    ([0x80, 0x888], Machine, [true, true, true], 0),
    ([0, 0x888], User, [true, true, true], 0x8000_000b),
    ([0, 0x080], User, [false, true, true], 0x8000_0007),
];

/// Law: the definition of the interrupt that is taken gives each row of `INTERRUPTS`.
#[tactic(auto, using(crate::proofs::Machine::each_interrupt))]
pub fn interrupts_are_defined()
    ensures { list_all is_interrupt INTERRUPTS ≡ true }
{}
