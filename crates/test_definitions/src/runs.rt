//! Whole runs: programs by their words, and what they leave.
ghost use Rattle.std.specs.Prelude.{◌≡◌, true};
ghost use Rattle.std.specs.List.{list_all};
ghost use Rattle.test_definitions.specs.Support.Runs.{ends};

use rv_isa::{Operation, one_meaning};

/// A word of a program: its operation, its rd, rs1 and rs2, its immediate, and the word, which is that of GNU's
/// assembler. The first one of a program is at 0x80000000.
pub type Word = (Operation, [u8; 3], i32, u32);

/// Sends `H`, and halts the board with code 0.
pub const HELLO: [Word; 7] = [
    // lui x5,0x10000
    (Operation::Lui, [5, 0, 0], 65536, 0x100002b7),
    // addi x10,x0,72
    (Operation::Addi, [10, 0, 0], 72, 0x04800513),
    // sw x10,0(x5)
    (Operation::Sw, [0, 5, 10], 0, 0x00a2a023),
    // lui x6,0x100
    (Operation::Lui, [6, 0, 0], 256, 0x00100337),
    // lui x7,0x5
    (Operation::Lui, [7, 0, 0], 5, 0x000053b7),
    // addi x7,x7,1365
    (Operation::Addi, [7, 7, 0], 1365, 0x55538393),
    // sw x7,0(x6)
    (Operation::Sw, [0, 6, 7], 0, 0x00732023),
];

/// Registers after 7 steps of it, each with its value.
pub const HELLO_ENDS: [(u8, u32); 2] = [(10, 72), (7, 0x5555)];

/// A handler that keeps mcause in x10 and goes on behind the instruction that trapped: once behind an ECALL of
/// machine mode, whose cause is 11, and once behind an EBREAK, whose cause is 3.
pub const TRAP: [Word; 12] = [
    // auipc x5,0x0
    (Operation::Auipc, [5, 0, 0], 0, 0x00000297),
    // addi x5,x5,28
    (Operation::Addi, [5, 5, 0], 28, 0x01c28293),
    // csrrw x0,mtvec,x5
    (Operation::Csrrw, [0, 5, 0], 773, 0x30529073),
    // ecall
    (Operation::Ecall, [0, 0, 0], 0, 0x00000073),
    // addi x11,x0,5
    (Operation::Addi, [11, 0, 0], 5, 0x00500593),
    // ebreak
    (Operation::Ebreak, [0, 0, 0], 0, 0x00100073),
    // jal x0,18
    (Operation::Jal, [0, 0, 0], 0, 0x0000006f),
    // csrrs x10,mcause,x0
    (Operation::Csrrs, [10, 0, 0], 834, 0x34202573),
    // csrrs x6,mepc,x0
    (Operation::Csrrs, [6, 0, 0], 833, 0x34102373),
    // addi x6,x6,4
    (Operation::Addi, [6, 6, 0], 4, 0x00430313),
    // csrrw x0,mepc,x6
    (Operation::Csrrw, [0, 6, 0], 833, 0x34131073),
    // mret
    (Operation::Mret, [0, 0, 0], 0, 0x30200073),
];

/// Registers after 16 steps of it, each with its value.
pub const TRAP_ENDS: [(u8, u32); 3] = [(10, 3), (11, 5), (6, 0x80000018)];

/// A user task that may read and execute the 32 bytes from 0x80000040 on (NAPOT with two ones at its end). Its load
/// gives the second word there, and its store to the third is refused: cause 7, with the address in mtval.
pub const USER: [Word; 20] = [
    // auipc x5,0x0
    (Operation::Auipc, [5, 0, 0], 0, 0x00000297),
    // addi x6,x5,52
    (Operation::Addi, [6, 5, 0], 52, 0x03428313),
    // csrrw x0,mtvec,x6
    (Operation::Csrrw, [0, 6, 0], 773, 0x30531073),
    // lui x7,0x20000
    (Operation::Lui, [7, 0, 0], 131072, 0x200003b7),
    // addi x7,x7,19
    (Operation::Addi, [7, 7, 0], 19, 0x01338393),
    // csrrw x0,pmpaddr0,x7
    (Operation::Csrrw, [0, 7, 0], 944, 0x3b039073),
    // addi x7,x0,29
    (Operation::Addi, [7, 0, 0], 29, 0x01d00393),
    // csrrw x0,pmpcfg0,x7
    (Operation::Csrrw, [0, 7, 0], 928, 0x3a039073),
    // addi x6,x5,64
    (Operation::Addi, [6, 5, 0], 64, 0x04028313),
    // csrrw x0,mepc,x6
    (Operation::Csrrw, [0, 6, 0], 833, 0x34131073),
    // mret
    (Operation::Mret, [0, 0, 0], 0, 0x30200073),
    // addi x0,x0,0
    (Operation::Addi, [0, 0, 0], 0, 0x00000013),
    // addi x0,x0,0
    (Operation::Addi, [0, 0, 0], 0, 0x00000013),
    // csrrs x10,mcause,x0
    (Operation::Csrrs, [10, 0, 0], 834, 0x34202573),
    // csrrs x11,mtval,x0
    (Operation::Csrrs, [11, 0, 0], 835, 0x343025f3),
    // jal x0,3c
    (Operation::Jal, [0, 0, 0], 0, 0x0000006f),
    // lw x12,4(x6)
    (Operation::Lw, [12, 6, 0], 4, 0x00432603),
    // addi x13,x0,7
    (Operation::Addi, [13, 0, 0], 7, 0x00700693),
    // sw x13,8(x6)
    (Operation::Sw, [0, 6, 13], 8, 0x00d32423),
    // addi x13,x0,9
    (Operation::Addi, [13, 0, 0], 9, 0x00900693),
];

/// Registers after 16 steps of it, each with its value.
pub const USER_ENDS: [(u8, u32); 4] = [(10, 7), (11, 0x80000048), (12, 0x700693), (13, 7)];

/// A timer interrupt: the time to compare with is 14, so step 14 takes it in place of the second jump, where x11 was
/// counted up twice. The handler reads mcause and the time, which is 17 in step 17.
pub const TIMER: [Word; 16] = [
    // auipc x5,0x0
    (Operation::Auipc, [5, 0, 0], 0, 0x00000297),
    // addi x5,x5,48
    (Operation::Addi, [5, 5, 0], 48, 0x03028293),
    // csrrw x0,mtvec,x5
    (Operation::Csrrw, [0, 5, 0], 773, 0x30529073),
    // lui x6,0x2004
    (Operation::Lui, [6, 0, 0], 8196, 0x02004337),
    // addi x7,x0,14
    (Operation::Addi, [7, 0, 0], 14, 0x00e00393),
    // sw x7,0(x6)
    (Operation::Sw, [0, 6, 7], 0, 0x00732023),
    // sw x0,4(x6)
    (Operation::Sw, [0, 6, 0], 4, 0x00032223),
    // addi x7,x0,128
    (Operation::Addi, [7, 0, 0], 128, 0x08000393),
    // csrrw x0,mie,x7
    (Operation::Csrrw, [0, 7, 0], 772, 0x30439073),
    // csrrsi x0,mstatus,8
    (Operation::Csrrsi, [0, 8, 0], 768, 0x30046073),
    // addi x11,x11,1
    (Operation::Addi, [11, 11, 0], 1, 0x00158593),
    // jal x0,28
    (Operation::Jal, [0, 0, 0], -4, 0xffdff06f),
    // csrrs x10,mcause,x0
    (Operation::Csrrs, [10, 0, 0], 834, 0x34202573),
    // lui x7,0x200c
    (Operation::Lui, [7, 0, 0], 8204, 0x0200c3b7),
    // lw x12,-8(x7)
    (Operation::Lw, [12, 7, 0], -8, 0xff83a603),
    // jal x0,3c
    (Operation::Jal, [0, 0, 0], 0, 0x0000006f),
];

/// Registers after 17 steps of it, each with its value.
pub const TIMER_ENDS: [(u8, u32); 3] = [(10, 0x80000007), (11, 2), (12, 17)];

/// Code that changes itself: it stores the last word over the fifth before that is executed, so x10 gets 40 more
/// than 1, and not 2.
pub const CHANGES: [Word; 7] = [
    // auipc x5,0x0
    (Operation::Auipc, [5, 0, 0], 0, 0x00000297),
    // lw x6,24(x5)
    (Operation::Lw, [6, 5, 0], 24, 0x0182a303),
    // addi x10,x0,1
    (Operation::Addi, [10, 0, 0], 1, 0x00100513),
    // sw x6,16(x5)
    (Operation::Sw, [0, 5, 6], 16, 0x0062a823),
    // addi x10,x0,2
    (Operation::Addi, [10, 0, 0], 2, 0x00200513),
    // jal x0,14
    (Operation::Jal, [0, 0, 0], 0, 0x0000006f),
    // addi x10,x10,40
    (Operation::Addi, [10, 10, 0], 40, 0x02850513),
];

/// Registers after 5 steps of it, each with its value.
pub const CHANGES_ENDS: [(u8, u32); 2] = [(10, 41), (6, 0x2850513)];

/// A call of user mode: machine mode lets it access every byte (NAPOT of all ones), goes to it by an MRET, and takes
/// its ECALL. The handler keeps mcause and mepc, and returns behind the call. docs/MAP.md goes through it.
pub const CALL: [Word; 18] = [
    // auipc x5,0x0
    (Operation::Auipc, [5, 0, 0], 0, 0x00000297),
    // addi x6,x5,40
    (Operation::Addi, [6, 5, 0], 40, 0x02828313),
    // csrrw x0,mtvec,x6
    (Operation::Csrrw, [0, 6, 0], 773, 0x30531073),
    // addi x7,x0,-1
    (Operation::Addi, [7, 0, 0], -1, 0xfff00393),
    // csrrw x0,pmpaddr0,x7
    (Operation::Csrrw, [0, 7, 0], 944, 0x3b039073),
    // addi x7,x0,31
    (Operation::Addi, [7, 0, 0], 31, 0x01f00393),
    // csrrw x0,pmpcfg0,x7
    (Operation::Csrrw, [0, 7, 0], 928, 0x3a039073),
    // addi x6,x5,60
    (Operation::Addi, [6, 5, 0], 60, 0x03c28313),
    // csrrw x0,mepc,x6
    (Operation::Csrrw, [0, 6, 0], 833, 0x34131073),
    // mret
    (Operation::Mret, [0, 0, 0], 0, 0x30200073),
    // csrrs x10,mcause,x0
    (Operation::Csrrs, [10, 0, 0], 834, 0x34202573),
    // csrrs x11,mepc,x0
    (Operation::Csrrs, [11, 0, 0], 833, 0x341025f3),
    // addi x12,x11,4
    (Operation::Addi, [12, 11, 0], 4, 0x00458613),
    // csrrw x0,mepc,x12
    (Operation::Csrrw, [0, 12, 0], 833, 0x34161073),
    // mret
    (Operation::Mret, [0, 0, 0], 0, 0x30200073),
    // ecall
    (Operation::Ecall, [0, 0, 0], 0, 0x00000073),
    // addi x13,x0,1
    (Operation::Addi, [13, 0, 0], 1, 0x00100693),
    // jal x0,44
    (Operation::Jal, [0, 0, 0], 0, 0x0000006f),
];

/// Registers after 17 steps of it, each with its value.
pub const CALL_ENDS: [(u8, u32); 4] = [(10, 8), (11, 0x8000003c), (12, 0x80000040), (13, 1)];

/// Control registers right after the ECALL, its step 11: mstatus, mepc, mcause, mtval, mcycle and minstret.
pub const CALL_INSIDE: [(u16, u32); 6] = [
    (0x300, 0),
    (0x341, 0x8000003c),
    (0x342, 8),
    (0x343, 0),
    (0xb00, 11),
    (0xb02, 10),
];

/// External interrupts, one within the handler of another. Sources 3 and 5 have priorities 2 and 5. The handler of 3
/// claims it into x10, keeps mepc and mstatus, raises the threshold to 1 and enables interrupts again, so that 5 comes
/// in before x21 becomes 1. The handler of 5 claims it into x13, reads mepc and mcause, and completes it.
pub const EXTERNAL: [Word; 37] = [
    // lui x5,0xc200
    (Operation::Lui, [5, 0, 0], 49664, 0x0c2002b7),
    // lui x6,0xc000
    (Operation::Lui, [6, 0, 0], 49152, 0x0c000337),
    // addi x7,x0,2
    (Operation::Addi, [7, 0, 0], 2, 0x00200393),
    // sw x7,12(x6)
    (Operation::Sw, [0, 6, 7], 12, 0x00732623),
    // addi x7,x0,5
    (Operation::Addi, [7, 0, 0], 5, 0x00500393),
    // sw x7,20(x6)
    (Operation::Sw, [0, 6, 7], 20, 0x00732a23),
    // lui x8,0xc002
    (Operation::Lui, [8, 0, 0], 49154, 0x0c002437),
    // addi x7,x0,40
    (Operation::Addi, [7, 0, 0], 40, 0x02800393),
    // sw x7,0(x8)
    (Operation::Sw, [0, 8, 7], 0, 0x00742023),
    // auipc x9,0x0
    (Operation::Auipc, [9, 0, 0], 0, 0x00000497),
    // addi x9,x9,36
    (Operation::Addi, [9, 9, 0], 36, 0x02448493),
    // csrrw x0,mtvec,x9
    (Operation::Csrrw, [0, 9, 0], 773, 0x30549073),
    // lui x7,0x1
    (Operation::Lui, [7, 0, 0], 1, 0x000013b7),
    // addi x7,x7,-2048
    (Operation::Addi, [7, 7, 0], -2048, 0x80038393),
    // csrrw x0,mie,x7
    (Operation::Csrrw, [0, 7, 0], 772, 0x30439073),
    // csrrsi x0,mstatus,8
    (Operation::Csrrsi, [0, 8, 0], 768, 0x30046073),
    // addi x20,x0,1
    (Operation::Addi, [20, 0, 0], 1, 0x00100a13),
    // jal x0,.+0
    (Operation::Jal, [0, 0, 0], 0, 0x0000006f),
    // lw x10,4(x5)
    (Operation::Lw, [10, 5, 0], 4, 0x0042a503),
    // csrrs x11,mepc,x0
    (Operation::Csrrs, [11, 0, 0], 833, 0x341025f3),
    // csrrs x16,mstatus,x0
    (Operation::Csrrs, [16, 0, 0], 768, 0x30002873),
    // addi x7,x0,1
    (Operation::Addi, [7, 0, 0], 1, 0x00100393),
    // sw x7,0(x5)
    (Operation::Sw, [0, 5, 7], 0, 0x0072a023),
    // auipc x9,0x0
    (Operation::Auipc, [9, 0, 0], 0, 0x00000497),
    // addi x9,x9,36
    (Operation::Addi, [9, 9, 0], 36, 0x02448493),
    // csrrw x0,mtvec,x9
    (Operation::Csrrw, [0, 9, 0], 773, 0x30549073),
    // csrrsi x0,mstatus,8
    (Operation::Csrrsi, [0, 8, 0], 768, 0x30046073),
    // addi x21,x0,1
    (Operation::Addi, [21, 0, 0], 1, 0x00100a93),
    // sw x10,4(x5)
    (Operation::Sw, [0, 5, 10], 4, 0x00a2a223),
    // csrrw x0,mstatus,x16
    (Operation::Csrrw, [0, 16, 0], 768, 0x30081073),
    // csrrw x0,mepc,x11
    (Operation::Csrrw, [0, 11, 0], 833, 0x34159073),
    // mret
    (Operation::Mret, [0, 0, 0], 0, 0x30200073),
    // lw x13,4(x5)
    (Operation::Lw, [13, 5, 0], 4, 0x0042a683),
    // csrrs x14,mepc,x0
    (Operation::Csrrs, [14, 0, 0], 833, 0x34102773),
    // csrrs x15,mcause,x0
    (Operation::Csrrs, [15, 0, 0], 834, 0x342027f3),
    // sw x13,4(x5)
    (Operation::Sw, [0, 5, 13], 4, 0x00d2a223),
    // mret
    (Operation::Mret, [0, 0, 0], 0, 0x30200073),
];

/// The levels of its lines, each with the steps before it, the source and the level. A line falls before the
/// completion, so that its gateway forwards no other request.
pub const EXTERNAL_LINES: [(u32, u8, u8); 4] = [(17, 3, 1), (10, 5, 1), (4, 5, 0), (2, 3, 0)];

/// Registers after 6 steps more, each with its value: mstatus had MPIE set, and MPP was machine mode.
pub const EXTERNAL_ENDS: [(u8, u32); 8] = [
    (10, 3),
    (11, 0x80000044),
    (13, 5),
    (14, 0x8000006c),
    (15, 0x8000000b),
    (16, 0x1880),
    (20, 1),
    (21, 1),
];

/// A run of a program from its reset on: its words; the levels of its lines, each with the steps before it, the source
/// and the level; how many steps follow; and what these leave: the pc, registers with their values, control registers
/// with their words, and what was sent.
pub type Run = (
    &'static [Word],
    &'static [(u32, u8, u8)],
    u32,
    u32,
    &'static [(u8, u32)],
    &'static [(u16, u32)],
    &'static [u8],
);

/// The runs of these programs, and the one of `CALL` up to its ECALL.
pub const RUNS: [Run; 8] = [
    (&HELLO, &[], 7, 0x8000001c, &HELLO_ENDS, &[], b"H"),
    (&TRAP, &[], 16, 0x80000018, &TRAP_ENDS, &[], b""),
    (&USER, &[], 16, 0x8000003c, &USER_ENDS, &[], b""),
    (&TIMER, &[], 17, 0x8000003c, &TIMER_ENDS, &[], b""),
    (&CHANGES, &[], 5, 0x80000014, &CHANGES_ENDS, &[], b""),
    (&CALL, &[], 11, 0x80000028, &[], &CALL_INSIDE, b""),
    (&CALL, &[], 17, 0x80000044, &CALL_ENDS, &[], b""),
    (
        &EXTERNAL,
        &EXTERNAL_LINES,
        6,
        0x80000044,
        &EXTERNAL_ENDS,
        &[],
        b"",
    ),
];

/// Law: on the definition of a run, each program leaves this pc, these registers and this console after these events,
/// and each of its words is that of its fields.
#[tactic(auto, using(crate::proofs::Programs::each_run))]
pub fn runs_are_defined()
    ensures { list_all ends RUNS ≡ true }
{
    one_meaning();
}
