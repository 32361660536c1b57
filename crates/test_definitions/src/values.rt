//! Values of operations and conditions of branches.
ghost use Rattle.std.specs.Prelude.{◌≡◌, true};
ghost use Rattle.std.specs.List.{list_all};
ghost use Rattle.test_definitions.specs.Support.Instructions.{is_value, is_condition};

use rv_isa::{AluOp, Cond};

const ONES: u32 = 0xffff_ffff;

const LEAST: u32 = 0x8000_0000;

const MOST: u32 = 0x7fff_ffff;

/// Operations, each with two words and the word that it makes of them (RISC-V Unprivileged ISA 20191213, section
/// 2.4). Division by zero and the overflow of a signed division are those of table 7.1.
pub const VALUES: [(AluOp, u32, u32, u32); 52] = [
    (AluOp::Add, ONES, 1, 0),
    (AluOp::Add, MOST, 1, LEAST),
    (AluOp::Sub, 0, 1, ONES),
    (AluOp::Sub, LEAST, 1, MOST),
    (AluOp::Sll, 1, 31, LEAST),
    (AluOp::Sll, 3, 32, 3),
    (AluOp::Sll, 3, 63, LEAST),
    (AluOp::Slt, ONES, 0, 1),
    (AluOp::Slt, LEAST, MOST, 1),
    (AluOp::Slt, 5, 5, 0),
    (AluOp::Sltu, ONES, 0, 0),
    (AluOp::Sltu, 0, 1, 1),
    (AluOp::Sltu, MOST, LEAST, 1),
    (AluOp::Xor, 0xff00_ff00, 0x0ff0_0ff0, 0xf0f0_f0f0),
    (AluOp::Xor, ONES, ONES, 0),
    (AluOp::Srl, LEAST, 31, 1),
    (AluOp::Srl, ONES, 33, MOST),
    (AluOp::Sra, LEAST, 31, ONES),
    (AluOp::Sra, LEAST, 63, ONES),
    (AluOp::Sra, MOST, 30, 1),
    (AluOp::Sra, 0xffff_fff5, 1, 0xffff_fffa),
    (AluOp::Or, 0xff00_ff00, 0x0ff0_0ff0, 0xfff0_fff0),
    (AluOp::And, 0xff00_ff00, 0x0ff0_0ff0, 0x0f00_0f00),
    (AluOp::Mul, ONES, ONES, 1),
    (AluOp::Mul, 0x0001_0000, 0x0001_0000, 0),
    (AluOp::Mul, LEAST, 3, LEAST),
    (AluOp::Mulh, ONES, ONES, 0),
    (AluOp::Mulh, LEAST, LEAST, 0x4000_0000),
    (AluOp::Mulh, LEAST, MOST, 0xc000_0000),
    (AluOp::Mulhsu, ONES, ONES, ONES),
    (AluOp::Mulhsu, LEAST, ONES, LEAST),
    (AluOp::Mulhsu, MOST, ONES, 0x7fff_fffe),
    (AluOp::Mulhu, ONES, ONES, 0xffff_fffe),
    (AluOp::Mulhu, LEAST, 2, 1),
    (AluOp::Div, 20, 6, 3),
    (AluOp::Div, 0xffff_ffec, 6, 0xffff_fffd),
    (AluOp::Div, 20, 0xffff_fffa, 0xffff_fffd),
    (AluOp::Div, LEAST, ONES, LEAST),
    (AluOp::Div, 5, 0, ONES),
    (AluOp::Div, LEAST, 0, ONES),
    (AluOp::Divu, 20, 6, 3),
    (AluOp::Divu, LEAST, ONES, 0),
    (AluOp::Divu, 5, 0, ONES),
    (AluOp::Rem, 20, 6, 2),
    (AluOp::Rem, 0xffff_ffec, 6, 0xffff_fffe),
    (AluOp::Rem, 20, 0xffff_fffa, 2),
    (AluOp::Rem, LEAST, ONES, 0),
    (AluOp::Rem, 0xffff_fffb, 0, 0xffff_fffb),
    (AluOp::Remu, 20, 6, 2),
    (AluOp::Remu, ONES, LEAST, MOST),
    (AluOp::Remu, LEAST, ONES, LEAST),
    (AluOp::Remu, 5, 0, 5),
];

/// Law: the definition of an operation gives each row of `VALUES`.
#[tactic(auto, using(crate::proofs::Instructions::each_value))]
pub fn values_are_defined()
    ensures { list_all is_value VALUES ≡ true }
{}

/// Conditions of branches, each with two words and whether it holds of them (section 2.5).
pub const BRANCHES: [(Cond, u32, u32, bool); 14] = [
    (Cond::Eq, 7, 7, true),
    (Cond::Eq, 0, LEAST, false),
    (Cond::Ne, 7, 7, false),
    (Cond::Ne, 0, LEAST, true),
    (Cond::Lt, ONES, 0, true),
    (Cond::Lt, MOST, LEAST, false),
    (Cond::Lt, 5, 5, false),
    (Cond::Ge, 0, ONES, true),
    (Cond::Ge, LEAST, MOST, false),
    (Cond::Ge, 5, 5, true),
    (Cond::Ltu, ONES, 0, false),
    (Cond::Ltu, MOST, LEAST, true),
    (Cond::Geu, ONES, 0, true),
    (Cond::Geu, 5, 5, true),
];

/// Law: the definition of a condition gives each row of `BRANCHES`.
#[tactic(auto, using(crate::proofs::Instructions::each_condition))]
pub fn branches_are_defined()
    ensures { list_all is_condition BRANCHES ≡ true }
{}
