//! Words of instructions and their texts.
ghost use Rattle.std.specs.Prelude.{◌≡◌, true};
ghost use Rattle.std.specs.List.{list_all};
ghost use Rattle.test_definitions.specs.Support.Instructions.{is_word};

use Operation::*;
use rv_isa::Operation;

/// Each operation with fields: its rd, rs1 and rs2, its immediate, its word, and its text, filled up with blanks.
/// Words and texts are those of LLVM's assembler, but for the numbers of control registers and the targets of
/// jumps, which this project writes in its own way.
pub const WORDS: [(Operation, [u8; 3], i32, u32, [u8; 19]); 63] = [
    (Lui, [5, 0, 0], 65536, 0x100002b7, *b"lui x5,0x10000     "),
    (Lui, [31, 0, 0], 0, 0x00000fb7, *b"lui x31,0x0        "),
    (
        Auipc,
        [10, 0, 0],
        1048575,
        0xfffff517,
        *b"auipc x10,0xfffff  ",
    ),
    (
        Jal,
        [1, 0, 0],
        -1048576,
        0x800000ef,
        *b"jal x1,.-1048576   ",
    ),
    (Jal, [0, 0, 0], 1048574, 0x7ffff06f, *b"jal x0,.+1048574   "),
    (Jalr, [0, 1, 0], 0, 0x00008067, *b"jalr x0,0(x1)      "),
    (
        Jalr,
        [31, 30, 0],
        -2048,
        0x800f0fe7,
        *b"jalr x31,-2048(x30)",
    ),
    (Beq, [0, 0, 0], -4, 0xfe000ee3, *b"beq x0,x0,.-4      "),
    (Bne, [0, 1, 2], 4094, 0x7e209fe3, *b"bne x1,x2,.+4094   "),
    (Blt, [0, 3, 4], -4096, 0x8041c063, *b"blt x3,x4,.-4096   "),
    (Bge, [0, 5, 6], 2048, 0x0062d0e3, *b"bge x5,x6,.+2048   "),
    (Bltu, [0, 7, 8], 30, 0x0083ef63, *b"bltu x7,x8,.+30    "),
    (Bgeu, [0, 9, 10], 2, 0x00a4f163, *b"bgeu x9,x10,.+2    "),
    (Lb, [1, 2, 0], -1, 0xfff10083, *b"lb x1,-1(x2)       "),
    (Lh, [3, 4, 0], 2047, 0x7ff21183, *b"lh x3,2047(x4)     "),
    (Lw, [10, 5, 0], 4, 0x0042a503, *b"lw x10,4(x5)       "),
    (Lbu, [5, 6, 0], -2048, 0x80034283, *b"lbu x5,-2048(x6)   "),
    (Lhu, [7, 8, 0], 0, 0x00045383, *b"lhu x7,0(x8)       "),
    (Sb, [0, 2, 10], 31, 0x00a10fa3, *b"sb x10,31(x2)      "),
    (Sh, [0, 3, 11], -32, 0xfeb19023, *b"sh x11,-32(x3)     "),
    (Sw, [0, 2, 10], -4, 0xfea12e23, *b"sw x10,-4(x2)      "),
    (Addi, [7, 7, 0], 1365, 0x55538393, *b"addi x7,x7,1365    "),
    (Slti, [1, 2, 0], -2048, 0x80012093, *b"slti x1,x2,-2048   "),
    (Sltiu, [3, 4, 0], 2047, 0x7ff23193, *b"sltiu x3,x4,2047   "),
    (Xori, [5, 6, 0], -1, 0xfff34293, *b"xori x5,x6,-1      "),
    (Ori, [7, 8, 0], 256, 0x10046393, *b"ori x7,x8,256      "),
    (Andi, [9, 10, 0], 0, 0x00057493, *b"andi x9,x10,0      "),
    (Slli, [11, 12, 0], 1, 0x00161593, *b"slli x11,x12,1     "),
    (Srli, [13, 14, 0], 16, 0x01075693, *b"srli x13,x14,16    "),
    (Srai, [5, 5, 0], 31, 0x41f2d293, *b"srai x5,x5,31      "),
    (Add, [1, 2, 3], 0, 0x003100b3, *b"add x1,x2,x3       "),
    (Sub, [5, 6, 7], 0, 0x407302b3, *b"sub x5,x6,x7       "),
    (Sll, [4, 5, 6], 0, 0x00629233, *b"sll x4,x5,x6       "),
    (Slt, [7, 8, 9], 0, 0x009423b3, *b"slt x7,x8,x9       "),
    (Sltu, [10, 11, 12], 0, 0x00c5b533, *b"sltu x10,x11,x12   "),
    (Xor, [13, 14, 15], 0, 0x00f746b3, *b"xor x13,x14,x15    "),
    (Srl, [16, 17, 18], 0, 0x0128d833, *b"srl x16,x17,x18    "),
    (Sra, [19, 20, 21], 0, 0x415a59b3, *b"sra x19,x20,x21    "),
    (Or, [22, 23, 24], 0, 0x018beb33, *b"or x22,x23,x24     "),
    (And, [25, 26, 27], 0, 0x01bd7cb3, *b"and x25,x26,x27    "),
    (Mul, [5, 6, 7], 0, 0x027302b3, *b"mul x5,x6,x7       "),
    (Mulh, [8, 9, 10], 0, 0x02a49433, *b"mulh x8,x9,x10     "),
    (Mulhsu, [11, 12, 13], 0, 0x02d625b3, *b"mulhsu x11,x12,x13 "),
    (Mulhu, [14, 15, 16], 0, 0x0307b733, *b"mulhu x14,x15,x16  "),
    (Div, [17, 18, 19], 0, 0x033948b3, *b"div x17,x18,x19    "),
    (Divu, [20, 21, 22], 0, 0x036ada33, *b"divu x20,x21,x22   "),
    (Rem, [23, 24, 25], 0, 0x039c6bb3, *b"rem x23,x24,x25    "),
    (Remu, [26, 27, 28], 0, 0x03cdfd33, *b"remu x26,x27,x28   "),
    (Fence, [0, 0, 0], 255, 0x0ff0000f, *b"fence              "),
    (FenceI, [0, 0, 0], 0, 0x0000100f, *b"fence.i            "),
    (Csrrw, [0, 5, 0], 3857, 0xf1129073, *b"csrrw x0,0xf11,x5  "),
    (Csrrs, [6, 0, 0], 768, 0x30002373, *b"csrrs x6,0x300,x0  "),
    (Csrrc, [7, 8, 0], 2816, 0xb00433f3, *b"csrrc x7,0xb00,x8  "),
    (Csrrwi, [0, 8, 0], 768, 0x30045073, *b"csrrwi x0,0x300,8  "),
    (Csrrsi, [1, 31, 0], 833, 0x341fe0f3, *b"csrrsi x1,0x341,31 "),
    (Csrrci, [2, 0, 0], 4095, 0xfff07173, *b"csrrci x2,0xfff,0  "),
    (Ecall, [0, 0, 0], 0, 0x00000073, *b"ecall              "),
    (Ebreak, [0, 0, 0], 0, 0x00100073, *b"ebreak             "),
    (Mret, [0, 0, 0], 0, 0x30200073, *b"mret               "),
    (Wfi, [0, 0, 0], 0, 0x10500073, *b"wfi                "),
    (Fence, [0, 0, 0], 2099, 0x8330000f, *b"fence              "),
    (Fence, [0, 0, 0], 18, 0x0120000f, *b"fence              "),
    (
        Fence,
        [31, 31, 0],
        4095,
        0xffff8f8f,
        *b"fence              ",
    ),
];

/// Law: the definitions give the word and the text of each row of `WORDS`.
#[tactic(auto, using(crate::proofs::Instructions::each_word))]
pub fn words_are_defined()
    ensures { list_all is_word WORDS ≡ true }
{}
