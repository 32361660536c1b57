//! Control registers: what they keep of a write, and who may access them.
ghost use Rattle.std.specs.Prelude.{◌≡◌, true};
ghost use Rattle.std.specs.List.{list_all};
ghost use Rattle.test_definitions.specs.Support.Registers.{is_kept, is_right};

use rv_pmp::Mode;

const ONES: u32 = 0xffff_ffff;

/// Control registers, each with a word that machine mode writes to it after a reset, and the word that a read gives
/// then, with all interrupt lines low (Privileged Architecture 20211203, section 3.1).
///
/// Of mstatus this board keeps MIE, MPIE, MPP, MPRV and TW, and MPP only where it is a mode. Of mtvec bit 1 is 0, of
/// mepc bits 1 and 0, and of a configuration of protection bits 6 and 5, and W without R (section 3.7.1). Registers
/// that the board has but doesn't need are 0.
pub const KEPT: [(u16, u32, u32); 34] = [
    (0x300, ONES, 0x0022_1888),
    (0x300, 0x0000_0800, 0),
    (0x300, 0x0000_1000, 0),
    (0x300, 0x0000_1800, 0x0000_1800),
    (0x301, 0, 0x4010_1100),
    (0x304, ONES, 0x0000_0888),
    (0x305, ONES, 0xffff_fffd),
    (0x305, 0x8000_0002, 0x8000_0000),
    (0x305, 0x8000_0101, 0x8000_0101),
    (0x306, ONES, 0),
    (0x30a, ONES, 0),
    (0x310, ONES, 0),
    (0x31a, ONES, 0),
    (0x320, ONES, 0),
    (0x323, ONES, 0),
    (0x33f, ONES, 0),
    (0x340, ONES, ONES),
    (0x341, ONES, 0xffff_fffc),
    (0x342, ONES, ONES),
    (0x343, ONES, ONES),
    (0x344, ONES, 0),
    (0x3a0, ONES, 0x9f9f_9f9f),
    (0x3a0, 0x0201_0604, 0x0001_0404),
    (0x3a3, 0x6000_0000, 0),
    (0x3b0, ONES, ONES),
    (0x3bf, 0x1234_5678, 0x1234_5678),
    (0xb00, ONES, ONES),
    (0xb02, 7, 7),
    (0xb80, ONES, ONES),
    (0xb82, 7, 7),
    (0xb03, ONES, 0),
    (0xb1f, ONES, 0),
    (0xb83, ONES, 0),
    (0xb9f, ONES, 0),
];

/// Law: the definitions of the control registers give each row of `KEPT`.
#[tactic(auto, using(crate::proofs::Machine::each_kept))]
pub fn registers_are_defined()
    ensures { list_all is_kept KEPT ≡ true }
{}

/// Addresses of control registers, each with a mode, and whether it may read and write there (section 2.1): bits 11
/// and 10 are 3 where a register is read-only, and bits 9 and 8 are the lowest mode that may access it.
pub const RIGHTS: [(u16, Mode, bool, bool); 18] = [
    (0x300, Mode::Machine, true, true),
    (0x300, Mode::User, false, false),
    (0x340, Mode::User, false, false),
    (0xf11, Mode::Machine, true, false),
    (0xf14, Mode::Machine, true, false),
    (0xf15, Mode::Machine, true, false),
    (0xf14, Mode::User, false, false),
    (0xf16, Mode::Machine, false, false),
    (0x3a3, Mode::Machine, true, true),
    (0x3a4, Mode::Machine, false, false),
    (0x3bf, Mode::Machine, true, true),
    (0x3c0, Mode::Machine, false, false),
    (0xb01, Mode::Machine, false, false),
    (0xb9f, Mode::Machine, true, true),
    (0xba0, Mode::Machine, false, false),
    (0xc00, Mode::Machine, false, false),
    (0xc00, Mode::User, false, false),
    (0x000, Mode::Machine, false, false),
];

/// Law: the definitions give each row of `RIGHTS`, in the state after a reset.
#[tactic(auto, using(crate::proofs::Machine::each_right))]
pub fn rights_are_defined()
    ensures { list_all is_right RIGHTS ≡ true }
{}
