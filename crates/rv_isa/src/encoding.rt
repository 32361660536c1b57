//! Encodes instructions.
//!
//! Each format has a function that puts the fields in their places. RISC-V Unprivileged ISA 20191213,
//! sections 2.2 and 2.3 and chapter 24.
ghost use Rattle.std.specs.Prelude.{◌≡◌, ◌<◌, ◌^◌, ◌+◌, ◌*◌, ◌/◌, ◌%◌, Some};
ghost use Rattle.rv_isa.specs.Support.Kinds as spec;
ghost use Rattle.rv_isa.specs.Laws.{OneWord};
ghost use Rattle.rv_isa.specs.Support.Codes as places;
ghost use Rattle.rv_isa.specs.Support.Codes.{CodesFit};
ghost use Rattle.rv_isa.specs.Word.{Means, OneMeaning};
ghost use Rattle.rv_isa.specs.Support.Kinds.{IsInRange};
ghost use Rattle.rv_isa.specs.declared.kind.Kind.{Kind};

use crate::format::{Codes, Format};
use crate::{Fields, Instr, Reg};

/// Returns the word of an instruction: the sum of its fields, each times the power of two of its lowest bit.
///
/// RISC-V Unprivileged ISA 20191213, sections 2.2 and 2.3 and chapter 24.
#[tactic(auto, using(crate::proofs::Encodings::word_means, crate::proofs::Encodings::kind_encoded, crate::proofs::Codes::codes_fit))]
pub fn encode(instr: Instr) -> u32
    ensures value { result ≡ spec.word instr }
    ensures means { Means result (Some instr) }
{
    let fields = instr.fields();
    placed(fields.operation.codes(), fields)
}

/// Returns the word with these codes and fields.
#[inline(always)]
fn placed(codes: Codes, fields: &Fields) -> u32
    requires { CodesFit codes }
    ensures { result ≡ places.placed codes fields.now }
{
    let Codes {
        format,
        opcode,
        funct3,
        funct7,
    } = codes;
    let Fields {
        rd,
        rs1,
        rs2,
        imm,
        ..
    } = *fields;
    let imm = imm.cast_unsigned();
    match format {
        Format::R => six(opcode, number(rd), funct3, rs1, number(rs2), funct7),
        Format::Amount => six(opcode, number(rd), funct3, rs1, imm % 32, funct7),
        Format::I | Format::Number => i_type(opcode, rd, funct3, rs1, imm),
        Format::S => six(opcode, imm % 32, funct3, rs1, number(rs2), (imm >> 5) % 128),
        Format::B => b_type(opcode, funct3, rs1, rs2, imm),
        Format::U => opcode + (number(rd) << 7) + (imm % (1 << 20) << 12),
        Format::J => j_type(opcode, rd, imm),
        Format::Whole => opcode,
    }
}

/// Returns the number of a register as a word.
fn number(register: Reg) -> u32
    ensures value { result ≡ register }
    ensures below { result < 32 }
{
    u32::from(register.number())
}

/// Returns a word of the R, S or B format: `low` is in bits 11:7 and `high` in 31:25, where the formats
/// differ.
fn six(opcode: u32, low: u32, funct3: u32, rs1: Reg, rs2: u32, high: u32) -> u32
    requires { (opcode < 2 ^ 7) × (low < 2 ^ 5) × (funct3 < 2 ^ 3) × (rs2 < 2 ^ 5) × (high < 2 ^ 7) }
    ensures { result ≡ places.six opcode low funct3 rs1 rs2 high }
{
    opcode + (low << 7) + (funct3 << 12) + (number(rs1) << 15) + (rs2 << 20) + (high << 25)
}

/// Returns a word of the I format.
fn i_type(opcode: u32, rd: Reg, funct3: u32, rs1: Reg, imm: u32) -> u32
    requires { (opcode < 2 ^ 7) × (funct3 < 2 ^ 3) }
    ensures { result ≡ opcode + rd * 2 ^ 7 + funct3 * 2 ^ 12 + rs1 * 2 ^ 15 + imm % 2 ^ 12 * 2 ^ 20 }
{
    opcode + (number(rd) << 7) + (funct3 << 12) + (number(rs1) << 15) + (imm % (1 << 12) << 20)
}

/// Returns a word of the B format. The lowest bit of the distance is 0 and isn't encoded.
fn b_type(opcode: u32, funct3: u32, rs1: Reg, rs2: Reg, imm: u32) -> u32
    requires { (opcode < 2 ^ 7) × (funct3 < 2 ^ 3) }
    ensures { result ≡ places.six opcode (imm / 2 ^ 11 % 2 + imm / 2 % 2 ^ 4 * 2) funct3 rs1 rs2
        (imm / 2 ^ 5 % 2 ^ 6 + imm / 2 ^ 12 % 2 * 2 ^ 6) }
{
    let low = (imm >> 11) % 2 + ((imm >> 1) % 16 << 1);
    let high = (imm >> 5) % 64 + ((imm >> 12) % 2 << 6);
    six(opcode, low, funct3, rs1, number(rs2), high)
}

/// Returns a word of the J format. The lowest bit of the distance is 0 and isn't encoded.
fn j_type(opcode: u32, rd: Reg, imm: u32) -> u32
    requires { opcode < 2 ^ 7 }
    ensures { result ≡ opcode + rd * 2 ^ 7 + imm / 2 ^ 12 % 2 ^ 8 * 2 ^ 12 + imm / 2 ^ 11 % 2 * 2 ^ 20
        + imm / 2 % 2 ^ 10 * 2 ^ 21 + imm / 2 ^ 20 % 2 * 2 ^ 31 }
{
    opcode
        + (number(rd) << 7)
        + ((imm >> 12) % 256 << 12)
        + ((imm >> 11) % 2 << 20)
        + ((imm >> 1) % 1024 << 21)
        + ((imm >> 20) % 2 << 31)
}

/// A law: no two instructions have the same word.
pub fn words_differ()
    ensures { (a b : Kind) → IsInRange a → IsInRange b → spec.word a ≡ spec.word b → a ≡ b }
{}

/// A law: an instruction has one word, and is a kind in range.
#[tactic(auto, using(crate::proofs::Encodings::means_kind))]
pub fn one_word()
    ensures { OneWord }
{}

/// A law: a word means one instruction or none, so `decode` could return nothing else.
#[tactic(auto, using(crate::proofs::Meaning::one_meaning))]
pub fn one_meaning()
    ensures { OneMeaning }
{}
