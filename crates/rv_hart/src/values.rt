//! The values that instructions compute, other than by the operations of `rv_isa`: addresses, loaded values,
//! values of control registers, and traps.
ghost use Rattle.std.specs.Prelude.{◌≡◌, ◌+◌, ◌%◌, ◌^◌};
ghost use Rattle.rv_isa.specs.Number.{modulo};
ghost use Rattle.rv_isa.specs.Word as spec;
ghost use Rattle.rv_csr.specs.Registers.{level};
ghost use Rattle.rv_isa.specs.Support.Loads.{load_value};
ghost use Rattle.rv_hart.specs.Effect.{plus};
ghost use Rattle.rv_hart.specs.Support.EffectParts.{is_write, csr_value};

use crate::trap::Trap;
use rv_isa::{AluOp, CsrOp, Instr, LoadOp, alu, encode};
use rv_pmp::Mode;

/// Returns the address `offset` bytes from `base`, modulo 2^32.
pub(crate) fn offset_by(base: u32, offset: i32) -> u32
    ensures value { result ≡ plus base offset }
    ensures sum { result ≡ (base + modulo offset (2 ^ 32)) % 2 ^ 32 }
{
    base.wrapping_add(offset.cast_unsigned())
}

/// Whether an instruction on a control register writes it: the set and clear forms don't if their source
/// field is 0.
pub(crate) fn is_write(op: CsrOp, field: u8) -> bool
    ensures { result ≡ is_write op field }
{
    match op {
        CsrOp::Write => true,
        CsrOp::Set | CsrOp::Clear => field != 0,
    }
}

/// Returns the value to write to a control register that held `old`.
pub(crate) fn csr_value(op: CsrOp, old: u32, operand: u32) -> u32
    ensures { result ≡ csr_value op old operand }
{
    match op {
        CsrOp::Write => operand,
        CsrOp::Set => alu(AluOp::Or, old, operand),
        CsrOp::Clear => alu(AluOp::And, old, u32::MAX - operand),
    }
}

/// Returns the exception of an illegal instruction, whose tval is the word.
pub(crate) fn illegal_instruction(instr: Instr) -> Trap
    ensures { result ≡ record { cause = 2; tval = spec.word instr } }
{
    Trap {
        cause: 2,
        tval: encode(instr),
    }
}

/// Returns the exception of an environment call from a mode.
pub(crate) fn call_from(mode: Mode) -> Trap
    ensures { result ≡ record { cause = 8 + level mode; tval = 0 } }
{
    match mode {
        Mode::User => Trap { cause: 8, tval: 0 },
        Mode::Machine => Trap { cause: 11, tval: 0 },
    }
}

/// Returns the value that a load leaves in its register, by the bytes that it read.
pub(crate) fn load_value(op: LoadOp, value: u32) -> u32
    ensures { result ≡ load_value op value }
{
    match op {
        LoadOp::Lb if value >= 0x80 => value.wrapping_add(0xffff_ff00),
        LoadOp::Lh if value >= 0x8000 => value.wrapping_add(0xffff_0000),
        _ => value,
    }
}
