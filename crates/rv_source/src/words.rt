//! The pseudo-instructions and the directives, in the order of docs/ASSEMBLER.md.
use crate::row::Given::{Call, One, Ones, Return, Tail, Zeros};
use crate::row::Role::{self, Both, Csr, Rd, Rs1, Rs2, Second, Symbol, Value};
use crate::row::Row::{self, Each, These};
use crate::row::Template::{Align, Balign, Constant, Data, Far, Li, Near, Space, Text};
use rv_isa::Operation::{
    Addi, Beq, Bge, Bgeu, Blt, Bltu, Bne, Csrrc, Csrrci, Csrrs, Csrrsi, Csrrw, Csrrwi, Jal, Jalr,
    Slt, Sltiu, Sltu, Sub, Xori,
};
use rv_isa::Width;

/// The pseudo-instructions.
pub static PSEUDO_INSTRUCTIONS: [(&str, Row); 33] = [
    ("nop", These(&[], Near(Addi), Zeros)),
    ("mv", These(&[Rd, Rs1], Near(Addi), Zeros)),
    ("not", These(&[Rd, Rs1], Near(Xori), Ones)),
    ("neg", These(&[Rd, Rs2], Near(Sub), Zeros)),
    ("seqz", These(&[Rd, Rs1], Near(Sltiu), One)),
    ("snez", These(&[Rd, Rs2], Near(Sltu), Zeros)),
    ("sltz", These(&[Rd, Rs1], Near(Slt), Zeros)),
    ("sgtz", These(&[Rd, Rs2], Near(Slt), Zeros)),
    ("beqz", These(&[Rs1, Value], Near(Beq), Zeros)),
    ("bnez", These(&[Rs1, Value], Near(Bne), Zeros)),
    ("blez", These(&[Rs2, Value], Near(Bge), Zeros)),
    ("bgez", These(&[Rs1, Value], Near(Bge), Zeros)),
    ("bltz", These(&[Rs1, Value], Near(Blt), Zeros)),
    ("bgtz", These(&[Rs2, Value], Near(Blt), Zeros)),
    ("bgt", These(&[Rs2, Rs1, Value], Near(Blt), Zeros)),
    ("ble", These(&[Rs2, Rs1, Value], Near(Bge), Zeros)),
    ("bgtu", These(&[Rs2, Rs1, Value], Near(Bltu), Zeros)),
    ("bleu", These(&[Rs2, Rs1, Value], Near(Bgeu), Zeros)),
    ("j", These(&[Value], Near(Jal), Zeros)),
    ("jr", These(&[Rs1], Near(Jalr), Zeros)),
    ("ret", These(&[], Near(Jalr), Return)),
    ("csrr", These(&[Rd, Csr], Near(Csrrs), Zeros)),
    ("csrw", These(&[Csr, Rs1], Near(Csrrw), Zeros)),
    ("csrs", These(&[Csr, Rs1], Near(Csrrs), Zeros)),
    ("csrc", These(&[Csr, Rs1], Near(Csrrc), Zeros)),
    ("csrwi", These(&[Csr, Value], Near(Csrrwi), Zeros)),
    ("csrsi", These(&[Csr, Value], Near(Csrrsi), Zeros)),
    ("csrci", These(&[Csr, Value], Near(Csrrci), Zeros)),
    ("li", These(&[Rd, Value], Li, Zeros)),
    ("call", These(&[Value], Far(Jalr), Call)),
    ("tail", These(&[Value], Far(Jalr), Tail)),
    ("la", These(&[Both, Value], Far(Addi), Zeros)),
    ("lla", These(&[Both, Value], Far(Addi), Zeros)),
];

/// The directives that take operands.
pub static DIRECTIVES: [(&str, Row); 21] = [
    (".word", Each(Value, Data(Width::Four))),
    (".long", Each(Value, Data(Width::Four))),
    (".4byte", Each(Value, Data(Width::Four))),
    (".half", Each(Value, Data(Width::Two))),
    (".short", Each(Value, Data(Width::Two))),
    (".2byte", Each(Value, Data(Width::Two))),
    (".byte", Each(Value, Data(Width::One))),
    (".ascii", Each(Role::Text, Text { terminated: false })),
    (".asciz", Each(Role::Text, Text { terminated: true })),
    (".string", Each(Role::Text, Text { terminated: true })),
    (".space", These(&[Value], Space, Zeros)),
    (".skip", These(&[Value], Space, Zeros)),
    (".zero", These(&[Value], Space, Zeros)),
    (".space", These(&[Value, Second], Space, Zeros)),
    (".skip", These(&[Value, Second], Space, Zeros)),
    (".zero", These(&[Value, Second], Space, Zeros)),
    (".align", These(&[Value], Align, Zeros)),
    (".p2align", These(&[Value], Align, Zeros)),
    (".balign", These(&[Value], Balign, Zeros)),
    (".equ", These(&[Symbol, Second], Constant, Zeros)),
    (".set", These(&[Symbol, Second], Constant, Zeros)),
];

/// The directives without effect.
pub static MARKERS: [&str; 14] = [
    ".text",
    ".data",
    ".rodata",
    ".bss",
    ".section",
    ".globl",
    ".global",
    ".local",
    ".option",
    ".type",
    ".size",
    ".file",
    ".ident",
    ".attribute",
];
