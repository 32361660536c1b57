//! Decodes words.
//!
//! A word's codes say its operation (`Operation::in_word`), whose format says where its fields are. RISC-V
//! Unprivileged ISA 20191213, sections 2.2 and 2.3 and chapter 24.
ghost use Rattle.std.specs.Prelude.{◌≡◌, ◌≢◌, ◌<◌, ◌≤◌, ◌*◌, ◌/◌, ◌%◌, ◌^◌};
ghost use Rattle.rv_isa.specs.Word.{Means};
ghost use Rattle.rv_isa.specs.Fields.{kind_of};
ghost use Rattle.rv_isa.specs.Laws.{HasMeaning};
ghost use Rattle.rv_isa.specs.Support.Codes as spec;
ghost use Rattle.rv_isa.specs.declared.format.Format.TheVariants as format;
ghost use Rattle.rv_isa.specs.Support.Meaning.{means};

use crate::format::Format;
use crate::layout::with;
use crate::{Fields, Instr, Operation, Reg};

/// Returns the instruction that has a word, or `None` where no instruction has it.
///
/// An instruction has one word, and a word at most one instruction (`words_differ`): so this is the inverse
/// of `encode`. RISC-V Unprivileged ISA 20191213, chapter 24.
#[tactic(auto, using(crate::proofs::Meaning::no_meaning, crate::proofs::Meaning::some_meaning, crate::proofs::Meaning::is_meant))]
pub fn decode(word: u32) -> Option<Instr>
    ensures means { result ≡ means word }
    ensures inverse { Means word result }
{
    let operation = Operation::in_word(word)?;
    Some(read(operation, word))
}

/// A law: the definition `means` is the inverse of the table of words.
#[tactic(auto, using(crate::proofs::Meaning::means_inverts))]
pub fn meaning_inverts()
    ensures { HasMeaning }
{}

/// Returns the instruction of an operation with the fields at their places in a word.
#[tactic(auto, using(crate::proofs::Meaning::read_kind, crate::proofs::Meaning::read_range, crate::proofs::Meaning::read_laid))]
fn read(operation: Operation, word: u32) -> Instr
    ensures { result ≡ kind_of (spec.read operation word) }
{
    Instr::laid(fields_in(operation.codes().format, operation, word))
}

/// Returns the fields of an operation with this format, at their places in a word. Those that the format doesn't
/// have are 0.
fn fields_in(format: Format, operation: Operation, word: u32) -> Fields
    ensures { result ≡ spec.normal format (spec.read_in format operation word) }
{
    let x0 = Reg::of(0);
    match format {
        Format::R => with(operation, rd(word), rs1(word), rs2(word), 0),
        Format::Amount => with(
            operation,
            rd(word),
            rs1(word),
            x0,
            i32::from(rs2(word).number()),
        ),
        Format::I => with(
            operation,
            rd(word),
            rs1(word),
            x0,
            extended(word >> 20, 1 << 11),
        ),
        Format::Number => with(operation, rd(word), rs1(word), x0, (word >> 20) as i32),
        Format::S => with(operation, x0, rs1(word), rs2(word), s_imm(word)),
        Format::B => with(operation, x0, rs1(word), rs2(word), b_imm(word)),
        Format::U => with(operation, rd(word), x0, x0, (word >> 12) as i32),
        Format::J => with(operation, rd(word), x0, x0, j_imm(word)),
        Format::Whole => with(operation, x0, x0, x0, 0),
    }
}

// ---- the fields of a word

fn rd(word: u32) -> Reg
    ensures value { result ≡ word / 2 ^ 7 % 2 ^ 5 }
    ensures below { result < 32 }
{
    Reg::from_low_bits(word >> 7)
}

fn rs1(word: u32) -> Reg
    ensures value { result ≡ word / 2 ^ 15 % 2 ^ 5 }
    ensures below { result < 32 }
{
    Reg::from_low_bits(word >> 15)
}

fn rs2(word: u32) -> Reg
    ensures value { result ≡ word / 2 ^ 20 % 2 ^ 5 }
    ensures below { result < 32 }
{
    Reg::from_low_bits(word >> 20)
}

// ---- the immediates

fn s_imm(word: u32) -> i32
    ensures { result ≡ spec.immediate format.S word }
{
    extended((word >> 25 << 5) + (word >> 7) % 32, 1 << 11)
}

fn b_imm(word: u32) -> i32
    ensures { result ≡ spec.immediate format.B word }
{
    let bits = (word >> 31 << 12)
        + ((word >> 7) % 2 << 11)
        + ((word >> 25) % 64 << 5)
        + ((word >> 8) % 16 << 1);
    extended(bits, 1 << 12)
}

fn j_imm(word: u32) -> i32
    ensures { result ≡ spec.immediate format.J word }
{
    let bits = (word >> 31 << 20)
        + ((word >> 12) % 256 << 12)
        + ((word >> 20) % 2 << 11)
        + ((word >> 21) % 1024 << 1);
    extended(bits, 1 << 20)
}

/// Returns the number with these bits in two's complement, where the value of the sign bit is `-sign`.
fn extended(bits: u32, sign: u32) -> i32
    requires bits { bits < 2 * sign }
    requires sign { sign ≤ 2 ^ 20 }
    ensures { result ≡ spec.extended sign bits }
{
    if bits < sign {
        bits as i32
    } else {
        bits as i32 - (2 * sign) as i32
    }
}
