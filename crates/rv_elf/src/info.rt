//! What debuggers ask of a file beside its lines: the compilation unit, its range of addresses, and the extensions that
//! the machine has. No contract says what these bytes mean.
ghost use Rattle.std.specs.Prelude.{◌≡◌, ◌≢◌, ◌+◌, ◌^◌, ◌≤◌, IfErr, IfOk, OnOk, length};
ghost use Rattle.rv_elf.specs.Size.{function_size, functions_size, info_size};
ghost use Rattle.rv_elf.specs.declared.fault.ElfFault.TheVariants.{TooLarge};

use crate::bytes::{append_halves, append_words};
use crate::fault::ElfFault;
use crate::symbols::Symbol;
use rv_base::{NoMemory, RAM_BASE};
use std::alloc::Global;

/// The compilation unit's attributes with their forms: DW_AT_stmt_list, low_pc, high_pc, name, comp_dir, producer,
/// language and GNU_macros; those of a function: name, low_pc and high_pc; and those of a unit without functions, which
/// has no children, but DW_AT_identifier_case (DWARF 4, section 7.5.4).
pub const ABBREVIATIONS: &[u8] = &[
    1, 0x11, 1, 0x10, 0x17, 0x11, 0x01, 0x12, 0x06, 0x03, 0x08, 0x1b, 0x08, 0x25, 0x08, 0x13, 0x05,
    0x99, 0x42, 0x17, 0, 0, 2, 0x2e, 0, 0x03, 0x08, 0x11, 0x01, 0x12, 0x06, 0, 0, 3, 0x11, 0, 0x10,
    0x17, 0x11, 0x01, 0x12, 0x06, 0x03, 0x08, 0x1b, 0x08, 0x25, 0x08, 0x13, 0x05, 0x99, 0x42, 0x17,
    0x42, 0x0b, 0, 0, 0,
];

/// The abbreviations of a unit with functions and of one without.
const WITH_FUNCTIONS: u8 = 1;

const WITHOUT_FUNCTIONS: u8 = 3;

/// The extensions that the board has, for disassemblers (RISC-V ELF psABI, section 9.4).
pub const ATTRIBUTES: &[u8] =
    b"A\x33\0\0\0riscv\0\x01\x29\0\0\0\x05rv32i2p1_m2p0_zicsr2p0_zifencei2p0\0";

/// DW_LANG_Mips_Assembler, which debuggers take for any assembler.
const ASSEMBLER: u16 = 0x8001;

/// Returns a unit of a section: its size, and its bytes.
fn unit_of(alloc: Global, bytes: &[u8]) -> Result<Vec<u8>, ElfFault>
    ensures size { IfOk result (λ v. length v.items ≡ 4 + length bytes.now) }
    ensures large { IfErr result (λ e. e ≡ TooLarge → 2 ^ 32 ≤ length bytes.now) }
{
    let Ok(size) = u32::try_from(bytes.len()) else {
        return Err(ElfFault::TooLarge);
    };
    let mut out = Vec::new(alloc);
    append_words(&mut out, &[size])?;
    out.extend_from_slice(bytes)?;
    Ok(out)
}

/// Appends a text with its null byte.
fn append_text(out: &mut Vec<u8>, text: &[u8]) -> Result<(), NoMemory>
    ensures { OnOk result (length out.new.items ≡ length out.old.items + length text.now + 1) }
{
    out.extend_from_slice(text)?;
    out.extend_from_slice(&[0])?;
    Ok(())
}

/// Appends the entry of a symbol, if it has a size, as functions do (DWARF 4, section 3.3).
fn append_function(out: &mut Vec<u8>, symbol: &Symbol<'_>) -> Result<(), NoMemory>
    ensures { OnOk result (length out.new.items ≡ length out.old.items + function_size symbol.now) }
{
    if symbol.size > 0 {
        out.extend_from_slice(&[2])?;
        append_text(out, symbol.name)?;
        let fields = [symbol.value, symbol.size];
        append_words(out, &fields)?;
    }
    Ok(())
}

/// Returns the abbreviation of a unit, by whether one of its symbols has a size.
fn unit_code(symbols: &[Symbol<'_>]) -> u8 {
    for symbol in symbols {
        if symbol.size > 0 {
            return WITH_FUNCTIONS;
        }
    }
    WITHOUT_FUNCTIONS
}

/// Appends the entries of those of some symbols that have a size, and their end. A unit without such symbols has a byte
/// of the same value there: DW_ID_case_sensitive.
fn append_functions(out: &mut Vec<u8>, symbols: &[Symbol<'_>]) -> Result<(), NoMemory>
    ensures { OnOk result (length out.new.items ≡ length out.old.items + functions_size symbols.now + 1) }
{
    for symbol in symbols {
        append_function(out, symbol)?;
    }
    out.extend_from_slice(&[0])?;
    Ok(())
}

/// Appends a compilation unit without its size.
fn append_unit(
    out: &mut Vec<u8>,
    name: &[u8],
    folder: &[u8],
    size: u32,
    symbols: &[Symbol<'_>],
) -> Result<(), NoMemory>
    ensures { OnOk result (length out.new.items + 4 ≡ length out.old.items + info_size name.now folder.now symbols.now) }
{
    // Version 4, the offset of the abbreviations, the size of an address, and the unit's abbreviation.
    out.extend_from_slice(&[4, 0, 0, 0, 0, 0, 4, unit_code(symbols)])?;
    append_words(out, &[0, RAM_BASE, size])?;
    append_text(out, name)?;
    append_text(out, folder)?;
    append_text(out, b"Solartansy rvas")?;
    append_halves(out, &[ASSEMBLER])?;
    append_words(out, &[0])?;
    append_functions(out, symbols)
}

/// Returns the compilation unit of a source of this name in a folder, with an image of this size, and its functions: the
/// symbols that have a size (DWARF 4, sections 3.1 and 3.3).
pub fn write_info(
    alloc: Global,
    name: &[u8],
    folder: &[u8],
    size: u32,
    symbols: &[Symbol<'_>],
) -> Result<Vec<u8>, ElfFault>
    ensures size { IfOk result (λ v. length v.items ≡ info_size name.now folder.now symbols.now) }
    ensures large { IfErr result (λ e. e ≡ TooLarge → 2 ^ 32 ≤ info_size name.now folder.now symbols.now) }
{
    let mut out = Vec::new(alloc);
    append_unit(&mut out, name, folder, size, symbols)?;
    unit_of(alloc, &out)
}

/// Returns the range of addresses of the compilation unit (DWARF 4, section 6.1.2).
pub fn write_ranges(alloc: Global, size: u32) -> Result<Vec<u8>, ElfFault>
    ensures size { IfOk result (λ v. length v.items ≡ 32) }
    ensures large { IfErr result (λ e. e ≢ TooLarge) }
{
    let mut out = Vec::new(alloc);
    // Version 2, the offset of the unit, the sizes of an address and of a segment, and what brings these to 16 bytes.
    out.extend_from_slice(&[2, 0, 0, 0, 0, 0, 4, 0, 0, 0, 0, 0])?;
    append_words(&mut out, &[RAM_BASE, size, 0, 0])?;
    unit_of(alloc, &out)
}
