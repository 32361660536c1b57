//! Fixups: instructions and data that wait for a value.
ghost use Rattle.std.specs.Prelude.{◌≡◌, ◌++◌};
ghost use Rattle.std.specs.Option.{option_map};
ghost use Rattle.rv_asm.specs.Listing.{bytes, filled};
ghost use Rattle.rv_asm.specs.Support.Statements.{kinds, near, pair};

use crate::FaultKind;
use crate::data::{self, write_fitting};
use crate::instructions::{Instructions, auipc};
use crate::values::{
    branch_distance, byte, far, five_bits, hi, immediate, jump_distance, lo, part_value,
    upper_immediate,
};
use rv_isa::{Instr, Kind, Reg, Width};
use rv_source::{Form, Operand, Part};

/// Fills the fixup of an instruction: returns it with a value in the field of its immediate, or None if the
/// value isn't in the range of the field, or there is no such field.
#[tactic(auto, unfolding(crate::specs::Listing::filled))]
fn fill(here: u32, instr: Instr, value: i64) -> Option<Instr>
    ensures { result ≡ filled here instr value }
{
    let mut kind = instr.kind();
    match &mut kind {
        Kind::Lui { imm, .. } => *imm = upper_immediate(value)?,
        Kind::Auipc { imm, .. } => *imm = upper_immediate(value)?,
        Kind::Jal { offset, .. } => *offset = jump_distance(here, value)?,
        Kind::Jalr { offset, .. } => *offset = immediate(value)?,
        Kind::Branch { offset, .. } => *offset = branch_distance(here, value)?,
        Kind::Load { offset, .. } => *offset = immediate(value)?,
        Kind::Store { offset, .. } => *offset = immediate(value)?,
        Kind::OpImm { imm, .. } => *imm = immediate(value)?,
        Kind::Shift { amount, .. } => *amount = five_bits(value)?,
        Kind::CsrImm { imm, .. } => *imm = five_bits(value)?,
        _ => return None,
    }
    Some(Instr::of(kind))
}

/// Returns an instruction that takes a part of a value.
fn near(here: u32, instr: Instr, part: Part, value: i64) -> Option<Instructions>
    ensures { option_map (λ i. bytes (kinds i)) result ≡ near here instr part value }
{
    let part = part_value(part, value)?;
    Some(Instructions::One(fill(here, instr, part)?))
}

/// Returns AUIPC with the high part of the distance to a target, and the instruction that takes the low part.
fn pair(here: u32, scratch: Reg, instr: Instr, target: i64) -> Option<Instructions>
    ensures { option_map (λ i. bytes (kinds i)) result ≡ pair here scratch instr target }
{
    let distance = far(here, target)?;
    let second = fill(here, instr, i64::from(lo(distance)))?;
    Some(Instructions::Two(auipc(scratch, hi(distance)), second))
}

/// Instructions or data that wait for one value.
#[derive(Clone, Copy)]
pub enum Waiting {
    /// An instruction that takes a part of the value.
    Near { instr: Instr, part: Part },
    /// AUIPC into `scratch` with the high part of the distance to the value, and an instruction that takes
    /// the low part.
    Far { scratch: Reg, instr: Instr },
    /// The value itself, in a width.
    Data { width: Width },
    /// The value itself, in a byte, so many times.
    Fill { count: u32 },
}

impl Waiting {
    ghost use Rattle.std.specs.Prelude.{◌≡◌};
    ghost use Rattle.rv_source.specs.Support.Partial.{part_of};
    ghost use Rattle.rv_asm.specs.Support.Statements.{KindBecomes};
    ghost use Rattle.rv_asm.specs.Support.Steps.{appended, waiting_bytes};
    ghost use Rattle.rv_asm.specs.declared.fixup.Waiting.TheVariants as w;

    /// Makes an instruction that waits for the part of a value that an operand stands for.
    pub fn near(instr: Instr, operand: &Operand) -> Waiting
        ensures { result ≡ w.Near instr (part_of operand.now) }
    {
        let part = match &operand.form {
            Form::Value { part, .. } => *part,
            Form::Text(_) => Part::Whole,
        };
        Waiting::Near { instr, part }
    }

    /// Appends the bytes at the address `here`, with the value.
    ///
    /// # Errors
    ///
    /// `Undefined` if there is no value, and `OutOfRange` if it doesn't fit into its fields.
    pub fn write(self, here: u32, value: Option<i64>, out: &mut Vec<u8>) -> Result<(), FaultKind>
        ensures { KindBecomes out.new.items result (appended out.old.items (waiting_bytes here self value)) }
    {
        let value = value.ok_or(FaultKind::Undefined)?;
        let instructions = match self {
            Waiting::Near { instr, part } => near(here, instr, part, value),
            Waiting::Far { scratch, instr } => pair(here, scratch, instr, value),
            Waiting::Data { width } => return write_fitting(width, value, out),
            Waiting::Fill { count } => {
                let byte = byte(value).ok_or(FaultKind::OutOfRange)?;
                return Ok(data::fill(count, byte, out)?);
            }
        };
        Ok(instructions.ok_or(FaultKind::OutOfRange)?.write(out)?)
    }
}
