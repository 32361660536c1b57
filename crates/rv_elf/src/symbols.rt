//! The symbol table, and its strings.
ghost use Rattle.std.specs.Prelude.{◌≡◌, ◌++◌, ◌+◌, ◌^◌, ◌<◌, ◌≤◌, ◌∷◌, [], IfOk, IfErr, OnOk, length, map, replicate};
ghost use Rattle.rv_elf.specs.declared.fault.ElfFault.TheVariants.{OutOfMemory, TooLarge};
ghost use Rattle.rv_elf.specs.Symbols.{named, null_symbol};
ghost use Rattle.std.specs.List.{flat_map};
ghost use Rattle.rv_elf.specs.Symbols as spec;
ghost use Rattle.rv_elf.specs.Size.{symbols_size};
ghost use Rattle.rv_elf.specs.Support.Tables.{entry, table_of, strings_of, names, AreSmall, IsSmall, Within};

use crate::bytes::{append_halves, append_words};
use crate::fault::ElfFault;
use std::alloc::Global;
use std::marker::Model;

/// A symbol (System V ABI, chapter 4, "Symbol Table"). All symbols are local to their file.
#[derive(Drop)]
pub struct Symbol<'a> {
    /// Its name: up to its first null byte, if it has one.
    pub name: &'a [u8],
    pub value: u32,
    pub size: u32,
    /// Its binding and its type: 16 for each binding, and the type.
    pub info: u8,
    /// The index of its section.
    pub section: u16,
}

impl<'a> Model for Symbol<'a> {
    ghost use Rattle.rv_elf.specs.Symbols.{Symbol};

    ghost Value = { Symbol };

    ghost view = { λ s. record {
      name = s.name.now;
      value = s.value;
      size = s.size;
      info = s.info;
      section = s.section;
    } };
}

/// A symbol table, and the strings that it is linked to.
#[derive(Drop)]
pub struct SymbolTable {
    pub table: Vec<u8>,
    pub strings: Vec<u8>,
}

/// Appends the entry of a symbol whose name is at an offset.
#[tactic(auto, unfolding(crate::specs::Support::Tables::entry))]
fn append_entry(out: &mut Vec<u8>, at: u32, symbol: &Symbol<'_>) -> Result<(), ElfFault>
    ensures entry { OnOk result (out.new.items ≡ out.old.items ++ entry at symbol.now) }
    ensures small { OnOk result (IsSmall symbol.now) }
    ensures err { IfErr result (λ e. e ≡ OutOfMemory) }
{
    let fields = [at, symbol.value, symbol.size];
    append_words(out, &fields)?;
    out.extend_from_slice(&[symbol.info, 0])?;
    append_halves(out, &[symbol.section])?;
    Ok(())
}

/// Appends a symbol, with its name.
fn append_symbol(out: &mut SymbolTable, symbol: &Symbol<'_>) -> Result<(), ElfFault>
    ensures strings { OnOk result (out.new.strings.items ≡ out.old.strings.items ++ (symbol.now.name ++ 0 ∷ [])) }
    ensures table { OnOk result (out.new.table.items ≡ out.old.table.items ++ entry (length out.old.strings.items) symbol.now) }
    ensures small { OnOk result (IsSmall symbol.now) }
    ensures within { OnOk result (length out.old.strings.items < 2 ^ 32) }
    ensures large { IfErr result (λ e. e ≡ TooLarge → 2 ^ 32 ≤ length out.old.strings.items) }
{
    let Ok(at) = u32::try_from(out.strings.len()) else {
        return Err(ElfFault::TooLarge);
    };
    append_entry(&mut out.table, at, symbol)?;
    out.strings.extend_from_slice(symbol.name)?;
    out.strings.extend_from_slice(&[0])?;
    Ok(())
}

/// Returns the table that names nothing.
fn empty_table(alloc: Global) -> Result<SymbolTable, ElfFault>
    ensures table { IfOk result (λ t. t.table.items ≡ replicate 16 0) }
    ensures strings { IfOk result (λ t. t.strings.items ≡ 0 ∷ []) }
    ensures err { IfErr result (λ e. e ≡ OutOfMemory) }
{
    let mut table = Vec::new(alloc);
    table.extend_from_slice(&[0u8; 16])?;
    let mut strings = Vec::new(alloc);
    strings.extend_from_slice(&[0])?;
    Ok(SymbolTable { table, strings })
}

/// Returns the table of symbols, after the one that names nothing, and its strings.
fn tables_of(alloc: Global, symbols: &[Symbol<'_>]) -> Result<SymbolTable, ElfFault>
    ensures strings { IfOk result (λ t. t.strings.items ≡ strings_of symbols.now) }
    ensures table { IfOk result (λ t. t.table.items ≡ table_of symbols.now) }
    ensures small { OnOk result (AreSmall symbols.now) }
    ensures within { OnOk result (Within 1 symbols.now) }
    ensures large { IfErr result (λ e. e ≡ TooLarge → 2 ^ 32 ≤ length (strings_of symbols.now)) }
{
    let mut out = empty_table(alloc)?;
    for symbol in symbols {
        append_symbol(&mut out, symbol)?;
    }
    Ok(out)
}

/// Returns the table of symbols, after the one that names nothing, and its strings.
///
/// # Errors
///
/// - `TooLarge` if the strings have 4 GiB or more.
/// - `OutOfMemory` if memory runs out.
#[tactic(auto, using(crate::proofs::Named::tables_read, crate::proofs::Sizes::tables_have))]
pub fn write_symbols(alloc: Global, symbols: &[Symbol<'_>]) -> Result<SymbolTable, ElfFault>
    ensures symbols { IfOk result (λ t. spec.symbols t.strings.items t.table.items ≡ null_symbol ∷ map named symbols.now) }
    ensures size { IfOk result (λ t. length t.table.items + length t.strings.items ≡ 17 + symbols_size (map (λ s. s.name) symbols.now)) }
    ensures large { IfErr result (λ e. e ≡ TooLarge
        → 2 ^ 32 ≤ 1 + length (flat_map (λ s. s.name ++ 0 ∷ []) symbols.now)) }
{
    let tables = tables_of(alloc, symbols)?;
    Ok(tables)
}
