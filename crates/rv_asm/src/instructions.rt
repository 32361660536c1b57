//! The instructions that a statement is assembled to.
ghost use Rattle.std.specs.Prelude.{◌≡◌, ◌<◌, ◌^◌, ◌++◌, [], ◌∷◌, OnOk};
ghost use Rattle.rv_isa.specs.Number.{IsWithin};
ghost use Rattle.rv_isa.specs.declared.kind.Kind.TheVariants.{Lui, Auipc, OpImm};
ghost use Rattle.rv_isa.specs.declared.op.ImmOp.TheVariants.{Addi};
ghost use Rattle.rv_asm.specs.Support.Statements.{kinds};
ghost use Rattle.rv_asm.specs.Listing.{bytes};
ghost use Rattle.rv_asm.specs.Values.{loading};

use crate::values::{hi, immediate, lo};
use rv_isa::{ImmOp, Instr, Kind, Reg, encode};
use std::alloc::AllocError;

/// The instructions of a statement: one or two.
#[derive(Clone, Copy)]
pub enum Instructions {
    One(Instr),
    Two(Instr, Instr),
}

impl Instructions {
    ghost use Rattle.std.specs.Prelude.{◌≡◌, ◌++◌, ◌*◌, length, OnOk};
    ghost use Rattle.rv_asm.specs.Support.Statements.{kinds};
    ghost use Rattle.rv_asm.specs.Listing.{bytes};

    /// Returns the size of the instructions in bytes.
    pub fn size(self) -> u32
        ensures { result ≡ 4 * length (kinds self) }
    {
        match self {
            Instructions::One(_) => 4,
            Instructions::Two(..) => 8,
        }
    }

    /// Appends the words of the instructions, each with its lowest byte first.
    pub fn write(self, out: &mut Vec<u8>) -> Result<(), AllocError>
        ensures { OnOk result (out.new.items ≡ out.old.items ++ bytes (kinds self)) }
    {
        match self {
            Instructions::One(only) => write_instr(only, out),
            Instructions::Two(first, second) => {
                write_instr(first, out)?;
                write_instr(second, out)
            }
        }
    }
}

/// Appends the word of an instruction, its lowest byte first.
pub fn write_instr(instr: Instr, out: &mut Vec<u8>) -> Result<(), AllocError>
    ensures { OnOk result (out.new.items ≡ out.old.items ++ bytes (instr ∷ [])) }
{
    Ok(out.extend_from_slice(&encode(instr).to_le_bytes())?)
}

// `number()` is called for its postcondition, `< 32`.

fn lui(rd: Reg, imm: u32) -> Instr
    requires { imm < 2 ^ 20 }
    ensures { result ≡ Lui rd imm }
{
    let _ = rd.number();
    Instr::of(Kind::Lui { rd, imm })
}

pub fn auipc(rd: Reg, imm: u32) -> Instr
    requires { imm < 2 ^ 20 }
    ensures { result ≡ Auipc rd imm }
{
    let _ = rd.number();
    Instr::of(Kind::Auipc { rd, imm })
}

pub fn addi(rd: Reg, rs1: Reg, imm: i32) -> Instr
    requires { IsWithin (2 ^ 11) imm }
    ensures { result ≡ OpImm Addi rd rs1 imm }
{
    let _ = (rd.number(), rs1.number());
    let op = ImmOp::Addi;
    Instr::of(Kind::OpImm { op, rd, rs1, imm })
}

/// Returns the one or two instructions that load a word into a register.
#[tactic(auto, unfolding(crate::specs::Values::loading))]
pub fn loading(rd: Reg, word: u32) -> Instructions
    ensures { kinds result ≡ loading rd word }
{
    if let Some(imm) = immediate(i64::from(word)) {
        return Instructions::One(addi(rd, Reg::of(0), imm));
    }
    let upper = lui(rd, hi(word));
    if word % 4096 == 0 {
        Instructions::One(upper)
    } else {
        Instructions::Two(upper, addi(rd, rd, lo(word)))
    }
}
