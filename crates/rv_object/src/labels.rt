//! The symbols of a source.
ghost use Rattle.std.specs.Prelude.{◌≡◌, ◌++◌, ◌∷◌, [], IfOk, OnOk, map};
ghost use Rattle.rv_asm.specs.Seen.{seen};
ghost use Rattle.rv_object.specs.Placed.{all_labels, lacks_start, name_and_value, starts_named};

use rv_asm::{Listing, PlacedName};
use rv_base::{NoMemory, RAM_BASE};
use rv_elf::{ABSOLUTE, Function, Symbol, TEXT};
use std::alloc::Global;

/// The type of a symbol that names the source: STT_FILE.
const FILE: u8 = 4;

/// The type of a symbol that names a function: STT_FUNC.
const FUNCTION: u8 = 2;

/// The name of the place where a program begins that has no label there.
const START: &[u8] = b"_start";

/// Returns the functions, which are in order, that begin at an address or after it.
fn functions_from<'a>(functions: &'a [Function], address: u32) -> &'a [Function] {
    let mut rest = functions;
    while let [first, more @ ..] = rest {
        if first.start >= address {
            break;
        }
        rest = more;
    }
    rest
}

/// Returns the symbol of a name at an address: with a size if the first of some functions begins there, and else without
/// one and without a type.
fn symbol_of<'a>(name: &'a [u8], address: u32, functions: &[Function]) -> Symbol<'a>
    ensures { name_and_value result ≡ (name.entry.now, address) }
{
    let mut symbol = Symbol {
        name,
        value: address,
        size: 0,
        info: 0,
        section: TEXT,
    };
    if let [first, ..] = functions {
        if first.start == address {
            symbol.size = first.size;
            symbol.info = FUNCTION;
        }
    }
    symbol
}

/// Returns the symbol of the source.
fn source_symbol(name: &[u8]) -> Symbol<'_>
    ensures { name_and_value result ≡ (name.entry.now, 0) }
{
    Symbol {
        name,
        value: 0,
        size: 0,
        info: FILE,
        section: ABSOLUTE,
    }
}

/// Appends a symbol.
#[tactic(auto, using(crate::proofs::Labelled::put))]
fn append<'a>(symbols: &mut Vec<Symbol<'a>>, symbol: Symbol<'a>) -> Result<(), NoMemory>
    ensures { OnOk result (map name_and_value symbols.new.items
        ≡ map name_and_value symbols.old.items ++ name_and_value symbol.entry ∷ []) }
{
    match symbols.push(symbol) {
        Ok(()) => Ok(()),
        Err(_) => Err(NoMemory),
    }
}

/// Appends the symbols of labels. Of those at a function's first address the first one has its size and its type.
fn append_labels<'a>(
    symbols: &mut Vec<Symbol<'a>>,
    labels: &'a [PlacedName],
    functions: &[Function],
) -> Result<(), NoMemory>
    ensures { OnOk result (map name_and_value symbols.new.items ≡ map name_and_value symbols.old.items ++ labels.entry.now) }
{
    let mut rest = functions;
    for label in labels {
        rest = functions_from(rest, label.address);
        let symbol = symbol_of(label.name.as_slice(), label.address, rest);
        append(symbols, symbol)?;
        rest = functions_from(rest, label.address.saturating_add(1));
    }
    Ok(())
}

/// Returns whether the first label is where the program begins.
fn starts_named(labels: &[PlacedName]) -> bool
    ensures { result ≡ starts_named labels.now }
{
    match labels {
        [first, ..] => first.address == RAM_BASE,
        [] => false,
    }
}

/// Returns whether no label is where the program begins, and no name is `_start`.
pub fn lacks_start(listing: Listing<'_>) -> bool
    ensures { result ≡ lacks_start (seen listing.entry) }
{
    !starts_named(listing.labels()) && listing.program.symbol(START).is_none()
}

/// Returns the symbols of a source of this name: the source's, and one for each label in order of definition; last
/// `_start`, if the program begins without a label, and nothing else has that name.
pub fn symbols_of<'a>(
    alloc: Global,
    listing: Listing<'a>,
    name: &'a [u8],
    functions: &[Function],
) -> Result<Vec<Symbol<'a>>, NoMemory>
    ensures { IfOk result (λ v. map name_and_value v.items ≡ (name.entry.now, 0) ∷ all_labels (seen listing.entry)) }
{
    let mut symbols = Vec::new(alloc);
    append(&mut symbols, source_symbol(name))?;
    append_labels(&mut symbols, listing.labels(), functions)?;
    if lacks_start(listing) {
        append(&mut symbols, symbol_of(START, RAM_BASE, functions))?;
    }
    Ok(symbols)
}
