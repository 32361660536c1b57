//! The ELF file of a source.
ghost use Rattle.std.specs.Prelude.{◌≡◌, ◌+◌, ◌-◌, ◌^◌, ◌<◌, ◌≤◌, ◌∷◌, IfErr, IfOk, OnOk, Some, codes, length, map};
ghost use Rattle.std.specs.Option.{option_map};
ghost use Rattle.rv_asm.specs.Seen.{seen};
ghost use Rattle.rv_base.specs.Limits.{ram_base};
ghost use Rattle.rv_elf.specs.Elf.{contents, image_at, loaded};
ghost use Rattle.rv_elf.specs.Frames.{description_of, descriptions};
ghost use Rattle.rv_elf.specs.LineNumbers.{rows_after, Rises};
ghost use Rattle.rv_elf.specs.Object.{lines_of, symbols_of};
ghost use Rattle.rv_elf.specs.Size.{file_size, frames_size, info_size};
ghost use Rattle.rv_elf.specs.Symbols.{named, null_symbol};
ghost use Rattle.rv_elf.specs.declared.fault.ElfFault.TheVariants.{OutOfMemory, TooLarge};
ghost use Rattle.rv_object.specs.Placed.{all_labels, most_of, names_and_values, placed_from, size_of, tables_size, texts, AreFrames, Fits};

use crate::constants::macros_of;
use crate::labels::symbols_of;
use crate::placed::placed_lines;
use crate::size::most_size;
use rv_asm::Listing;
use rv_elf::{
    ElfFault, Function, Object, PlacedLine, Symbol, write_frames, write_macros, write_object,
};
use rv_frames::functions_of;
use std::alloc::Global;

/// The tables of a source's functions and constants.
#[derive(Drop)]
struct Tables {
    frames: Vec<u8>,
    macros: Vec<u8>,
}

/// Returns the tables of a source's functions and constants.
fn tables_of(
    alloc: Global,
    listing: Listing<'_>,
    functions: &[Function],
) -> Result<Tables, ElfFault>
    ensures frames { IfOk result (λ t. descriptions t.frames.items ≡ map description_of functions.now) }
    ensures size { IfOk result (λ t. length t.frames.items ≡ frames_size functions.now) }
    ensures macros { IfOk result (λ t. length t.macros.items ≤ 12 + 2 ^ 28) }
    ensures large { IfErr result (λ e. e ≡ TooLarge → 2 ^ 32 ≤ frames_size functions.now) }
{
    let constants = macros_of(alloc, listing)?;
    let frames = write_frames(alloc, functions)?;
    let macros = write_macros(alloc, constants.as_slice())?;
    Ok(Tables { frames, macros })
}

/// Writes the file of a source, of what is made of it.
fn write(
    alloc: Global,
    listing: Listing<'_>,
    name: &[u8],
    folder: &[u8],
    symbols: &[Symbol<'_>],
    lines: &[PlacedLine],
    tables: &Tables,
) -> Result<Vec<u8>, ElfFault>
    requires { Rises 1 lines.now }
    ensures image { IfOk result (λ f. loaded f.items ≡ Some (image_at (seen listing.entry).assembly.bytes)) }
    ensures symbols { IfOk result (λ f. symbols_of f.items ≡ Some (null_symbol ∷ map named symbols.now)) }
    ensures lines { IfOk result (λ f. lines_of f.items
        ≡ Some (rows_after 1 lines.now (ram_base + length (seen listing.entry).assembly.bytes))) }
    ensures frames { IfOk result (λ f. contents f.items (codes ".debug_frame") ≡ Some tables.now.frames.items) }
    ensures macros { IfOk result (λ f. contents f.items (codes ".debug_macro") ≡ Some tables.now.macros.items) }
    ensures info { IfOk result (λ f. option_map length (contents f.items (codes ".debug_info"))
        ≡ Some (info_size name.now folder.now symbols.now)) }
    ensures size { IfOk result (λ f. length f.items ≡ file_size (seen listing.entry).assembly.bytes
        (map (λ s. s.name) symbols.now) lines.now name.now + info_size name.now folder.now symbols.now
        + length tables.now.frames.items + length tables.now.macros.items) }
    ensures end { OnOk result (ram_base + length (seen listing.entry).assembly.bytes < 2 ^ 32) }
    ensures within { IfOk result (λ f. length f.items < 2 ^ 32) }
    ensures large { IfErr result (λ e. e ≡ TooLarge → 2 ^ 32 ≤ file_size (seen listing.entry).assembly.bytes
        (map (λ s. s.name) symbols.now) lines.now name.now + info_size name.now folder.now symbols.now
        + length tables.now.frames.items + length tables.now.macros.items) }
{
    let object = Object {
        image: listing.program.bytes(),
        symbols,
        lines,
        name,
        folder,
        frames: tables.frames.as_slice(),
        macros: tables.macros.as_slice(),
    };
    write_object(alloc, &object)
}

/// Returns the ELF file of a source of this name, which is relative to a folder: its image is loaded at 0x80000000 and
/// begins there, each label is a symbol of its address, and each line that has bytes has its address. It also has the
/// frames of functions, as `rv_frames` finds them, and the constants as macros; what these say isn't promised.
///
/// # Errors
///
/// - `TooLarge` if the source has 2 ^ 32 lines or more, or if the file may have 4 GiB or more, by the most bytes of its
///   functions, frames and macros.
/// - `OutOfMemory` if memory runs out.
#[tactic(auto, using(std::proofs::lemmas::Result::err_from_is_err_and))]
pub fn elf_file(
    alloc: Global,
    listing: Listing<'_>,
    name: &[u8],
    folder: &[u8],
) -> Result<Vec<u8>, ElfFault>
    ensures image { IfOk result (λ f. loaded f.items ≡ Some (image_at (seen listing.entry).assembly.bytes)) }
    ensures labels { IfOk result (λ f.
        option_map names_and_values (symbols_of f.items) ≡ Some (texts (all_labels (seen listing.entry)))) }
    ensures lines { IfOk result (λ f. lines_of f.items
        ≡ Some (rows_after 1 (placed_from (seen listing.entry) 1 (length (seen listing.entry).addresses - 1))
        (ram_base + length (seen listing.entry).assembly.bytes))) }
    ensures frames { IfOk result (λ f. AreFrames (contents f.items (codes ".debug_frame"))) }
    ensures size { IfOk result (λ f. length f.items ≡ size_of (seen listing.entry) name.now + tables_size f.items) }
    ensures most { IfOk result (λ f. tables_size f.items ≤ most_of (seen listing.entry) name.now folder.now) }
    ensures within { IfOk result (λ f. length f.items < 2 ^ 32) }
    ensures end { OnOk result (ram_base + length (seen listing.entry).assembly.bytes < 2 ^ 32) }
    ensures count { OnOk result (length (seen listing.entry).addresses - 1 < 2 ^ 32) }
    ensures fits { OnOk result (Fits (seen listing.entry) name.now folder.now) }
    ensures large { IfErr result (λ e. e ≡ TooLarge → Fits (seen listing.entry) name.now folder.now → ⊥) }
    ensures memory { IfErr result (λ e. e ≡ OutOfMemory → Fits (seen listing.entry) name.now folder.now) }
{
    let Some(_) = most_size(listing, name, folder) else {
        return Err(ElfFault::TooLarge);
    };
    let functions = functions_of(alloc, listing)?;
    let lines = placed_lines(alloc, listing)?;
    let tables = tables_of(alloc, listing, functions.as_slice())?;
    let symbols = symbols_of(alloc, listing, name, functions.as_slice())?;
    let file = write(
        alloc,
        listing,
        name,
        folder,
        symbols.as_slice(),
        lines.as_slice(),
        &tables,
    )?;
    Ok(file)
}
