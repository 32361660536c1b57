//! The line table: which line of the source has its bytes where.
ghost use Rattle.std.specs.Prelude.{◌≡◌, ◌++◌, ◌+◌, ◌*◌, ◌^◌, ◌<◌, ◌≤◌, ◌∷◌, [], IfOk, IfErr, OnOk, Some, SomeIff, length};
ghost use Rattle.rv_elf.specs.declared.fault.ElfFault.TheVariants.{OutOfMemory, TooLarge};
ghost use Rattle.rv_elf.specs.Support.LineBytes.{end_bytes, header_bytes, leb_bytes, program_bytes, row_bytes, rows_bytes, set_address, table_bytes, unit_bytes, AreSmall};
ghost use Rattle.rv_elf.specs.LineNumbers as spec;
ghost use Rattle.rv_elf.specs.LineNumbers.{rows_after, Rises};
ghost use Rattle.rv_elf.specs.Size.{lines_size};

use crate::bytes::{append_halves, append_words};
use crate::fault::ElfFault;
use rv_base::NoMemory;
use std::alloc::Global;

/// A header from the size of an instruction to the folders: a special opcode advances the line by -5 to 8, the first of
/// them is 13, and the numbers of operands are the standard's (DWARF 4, section 6.2.4).
const OPCODES: &[u8] = &[1, 1, 1, 0xfb, 14, 13, 0, 1, 1, 1, 1, 0, 0, 0, 1, 0, 0, 1, 0];

/// A line of a source, counted from 1, and the address of its first byte.
#[derive(Clone, Copy)]
pub struct PlacedLine {
    pub line: u32,
    pub address: u32,
}

/// Appends a number in base 128, the lowest digit first, whose last byte is below a limit.
#[tactic(auto, using(crate::proofs::Leb::leb_one, crate::proofs::Leb::leb_after))]
fn append_leb(out: &mut Vec<u8>, limit: u32, number: u32) -> Result<(), NoMemory>
    requires low { 64 ≤ limit }
    requires high { limit ≤ 128 }
    ensures { OnOk result (out.new.items ≡ out.old.items ++ leb_bytes 4 limit number) }
{
    if number < limit {
        out.extend_from_slice(&[number as u8])?;
        return Ok(());
    }
    out.extend_from_slice(&[(number % 128 + 128) as u8])?;
    append_leb(out, limit, number / 128)?;
    Ok(())
}

/// Appends the opcode that sets the address.
fn append_address(out: &mut Vec<u8>, address: u32) -> Result<(), NoMemory>
    ensures { OnOk result (out.new.items ≡ out.old.items ++ set_address address) }
{
    out.extend_from_slice(&[0, 5, 2])?;
    append_words(out, &[address])
}

/// Appends a row after one of another line.
fn append_row(out: &mut Vec<u8>, from: u32, placed: PlacedLine) -> Result<(), NoMemory>
    requires { from ≤ placed.line }
    ensures bytes { OnOk result (out.new.items ≡ out.old.items ++ row_bytes from placed) }
    ensures small { OnOk result ((placed.line < 2 ^ 32) × (placed.address < 2 ^ 32)) }
{
    append_address(out, placed.address)?;
    out.extend_from_slice(&[3])?;
    append_leb(out, 64, placed.line - from)?;
    out.extend_from_slice(&[1])?;
    Ok(())
}

/// Returns the opcodes of lines, and of the end of the last one's bytes.
fn program_of(alloc: Global, lines: &[PlacedLine], end: u32) -> Result<Vec<u8>, NoMemory>
    requires { Rises 1 lines.now }
    ensures bytes { IfOk result (λ p. p.items ≡ program_bytes end lines.now) }
    ensures small { OnOk result (AreSmall lines.now) }
    ensures end { OnOk result (end < 2 ^ 32) }
{
    let mut out = Vec::new(alloc);
    let mut from = 1;
    for placed in lines {
        append_row(&mut out, from, *placed)?;
        from = placed.line;
    }
    append_address(&mut out, end)?;
    out.extend_from_slice(&[0, 1, 1])?;
    Ok(out)
}

/// Returns what follows the sizes in a header that has one file.
fn header_of(alloc: Global, name: &[u8]) -> Result<Vec<u8>, NoMemory>
    ensures { IfOk result (λ h. h.items ≡ header_bytes name.now) }
{
    let mut out = Vec::new(alloc);
    out.extend_from_slice(OPCODES)?;
    out.extend_from_slice(name)?;
    out.extend_from_slice(&[0, 0, 0, 0, 0])?;
    Ok(out)
}

/// Returns the sum of two sizes, if it is below 4 GiB.
fn joined_size(size: u32, bytes: &[u8]) -> Option<u32>
    ensures { SomeIff result (size + length bytes.now < 2 ^ 32) (size + length bytes.now) }
{
    let more = u32::try_from(bytes.len()).ok()?;
    size.checked_add(more)
}

/// Returns the sizes of a header and of a unit.
fn sizes_of(header: &[u8], program: &[u8]) -> Option<(u32, u32)>
    ensures { SomeIff result (6 + length header.now + length program.now < 2 ^ 32)
        (length header.now, 6 + length header.now + length program.now) }
{
    let size = joined_size(0, header)?;
    let with_version = joined_size(6, header)?;
    let unit = joined_size(with_version, program)?;
    Some((size, unit))
}

/// Appends a unit, of version 4, with its sizes.
fn append_unit(out: &mut Vec<u8>, header: &[u8], program: &[u8]) -> Result<(), ElfFault>
    ensures bytes { OnOk result (out.new.items ≡ out.old.items ++ unit_bytes header.now program.now) }
    ensures within { OnOk result (6 + length header.now + length program.now < 2 ^ 32) }
    ensures large { IfErr result (λ e. e ≡ TooLarge → 2 ^ 32 ≤ 6 + length header.now + length program.now) }
{
    let Some((header_size, unit_size)) = sizes_of(header, program) else {
        return Err(ElfFault::TooLarge);
    };
    append_words(out, &[unit_size])?;
    append_halves(out, &[4])?;
    append_words(out, &[header_size])?;
    out.extend_from_slice(header)?;
    out.extend_from_slice(program)?;
    Ok(())
}

/// Returns the table of lines.
#[tactic(auto, unfolding(crate::specs::Support::LineBytes::table_bytes))]
fn table_of(alloc: Global, name: &[u8], lines: &[PlacedLine], end: u32) -> Result<Vec<u8>, ElfFault>
    requires { Rises 1 lines.now }
    ensures bytes { IfOk result (λ t. t.items ≡ table_bytes name.now end lines.now) }
    ensures small { OnOk result (AreSmall lines.now) }
    ensures end { OnOk result (end < 2 ^ 32) }
    ensures within { OnOk result (length (table_bytes name.now end lines.now) < 4 + 2 ^ 32) }
    ensures large { IfErr result (λ e. e ≡ TooLarge → 4 + 2 ^ 32 ≤ length (table_bytes name.now end lines.now)) }
{
    let program = program_of(alloc, lines, end)?;
    let header = header_of(alloc, name)?;
    let mut out = Vec::new(alloc);
    append_unit(&mut out, &header, &program)?;
    Ok(out)
}

/// Returns the table of lines, which are in order, of a source of this name; behind the last one's bytes is the address
/// `end`.
///
/// # Errors
///
/// - `TooLarge` if the table would have 4 bytes more than 4 GiB, or more than that.
/// - `OutOfMemory` if memory runs out.
#[tactic(auto, using(crate::proofs::Rows::table_read, crate::proofs::Sizes::table_has))]
pub fn write_lines(
    alloc: Global,
    name: &[u8],
    lines: &[PlacedLine],
    end: u32,
) -> Result<Vec<u8>, ElfFault>
    requires { Rises 1 lines.now }
    ensures rows { IfOk result (λ t. spec.rows t.items ≡ Some (rows_after 1 lines.now end)) }
    ensures size { IfOk result (λ t. length t.items ≡ lines_size name.now lines.now) }
    ensures within { IfOk result (λ t. length t.items < 4 + 2 ^ 32) }
    ensures large { IfErr result (λ e. e ≡ TooLarge → 4 + 2 ^ 32 ≤ lines_size name.now lines.now) }
{
    let table = table_of(alloc, name, lines, end)?;
    Ok(table)
}
