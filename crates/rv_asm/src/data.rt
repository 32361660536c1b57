//! The bytes of data, spaces and alignments.
ghost use Rattle.std.specs.Prelude.{◌≡◌, ◌++◌, ◌<◌, ◌^◌, take, replicate, Ok, OnOk};
ghost use Rattle.std.specs.Option.{ok_or};
ghost use Rattle.rv_isa.specs.declared.kind.Kind.TheVariants.{OpImm};
ghost use Rattle.rv_isa.specs.declared.op.ImmOp.TheVariants.{Addi};
ghost use Rattle.rv_asm.specs.Support.Statements.{KindBecomes, nops};
ghost use Rattle.std.specs.Int.{to_le_bytes, w32};
ghost use Rattle.rv_isa.specs.Number.{modulo};
ghost use Rattle.rv_isa.specs.Width.{bytes_of};
ghost use Rattle.rv_asm.specs.Listing.{padding, bytes, bytes_in};
ghost use Rattle.rv_asm.specs.Support.Steps.{appended};
ghost use Rattle.rv_asm.specs.Values.{fits, gap};
ghost use Rattle.rv_program.specs.declared.fault.FaultKind.TheVariants.{OutOfRange};

use crate::FaultKind;
use crate::instructions::{addi, write_instr};
use crate::values::{bits, fits};
use rv_isa::{Reg, Width};
use std::alloc::AllocError;

/// Appends the low bytes of a value, as many as the width has, lowest first, if it fits.
#[tactic(auto, using(crate::proofs::Rows::width_within))]
pub fn write_fitting(width: Width, value: i64, out: &mut Vec<u8>) -> Result<(), FaultKind>
    ensures { KindBecomes out.new.items result (appended out.old.items (ok_or (bytes_in width value) OutOfRange)) }
{
    if !fits(width, value) {
        return Err(FaultKind::OutOfRange);
    }
    let bytes = bits(value).to_le_bytes();
    Ok(out.extend_from_slice(&bytes[..width.bytes() as usize])?)
}

/// Appends `count` copies of a byte.
pub fn fill(count: u32, byte: u8, out: &mut Vec<u8>) -> Result<(), AllocError>
    ensures { OnOk result (out.new.items ≡ out.old.items ++ replicate count byte) }
{
    Ok(out.resize(out.len() + count as usize, byte)?)
}

/// Appends the words of `count` instructions `nop`.
fn write_nops(count: u32, out: &mut Vec<u8>) -> Result<(), AllocError>
    ensures { OnOk result (out.new.items ≡ out.old.items ++ bytes (nops count)) }
{
    let nop = addi(Reg::of(0), Reg::of(0), 0);
    for _ in 0..count {
        write_instr(nop, out)?;
    }
    Ok(())
}

/// Appends `count` bytes of padding: zeros, and then `nop` instructions.
#[tactic(auto, unfolding(crate::specs::Listing::padding))]
pub fn pad(count: u32, out: &mut Vec<u8>) -> Result<(), AllocError>
    ensures { OnOk result (out.new.items ≡ out.old.items ++ padding count) }
{
    fill(count % 4, 0, out)?;
    write_nops(count / 4, out)
}
