//! The file of an assembled source: its image, its symbols and its lines.
ghost use Rattle.std.specs.Prelude.{◌≡◌, ◌+◌, ◌*◌, ◌^◌, ◌<◌, ◌≤◌, ◌∷◌, IfErr, IfOk, OnOk, Some, SomeIff, codes, length, map};
ghost use Rattle.rv_elf.specs.declared.fault.ElfFault.TheVariants.{TooLarge};
ghost use Rattle.rv_base.specs.Limits.{ram_base};
ghost use Rattle.rv_elf.specs.Elf.{contents, image_at};
ghost use Rattle.rv_elf.specs.Elf as elf;
ghost use Rattle.rv_elf.specs.LineNumbers.{rows, rows_after, Rises};
ghost use Rattle.rv_elf.specs.Object.{lines_of, symbols_of};
ghost use Rattle.rv_elf.specs.Size.{file_size, info_size, lines_size, symbols_size};
ghost use Rattle.std.specs.Option.{option_map};
ghost use Rattle.rv_elf.specs.Symbols.{named, null_symbol, symbols};
ghost use Rattle.rv_elf.specs.Support.Sections.{parts, sections_of, AreFound};
ghost use Rattle.rv_elf.specs.Support.Written.{bodies};
ghost use Rattle.rv_elf.specs.Support.Sections as spec;

use crate::fault::ElfFault;
use crate::file::{Section, write_file};
use crate::info::{ABBREVIATIONS, ATTRIBUTES, write_info, write_ranges};
use crate::lines::{PlacedLine, write_lines};
use crate::symbols::{Symbol, SymbolTable, write_symbols};
use rv_base::RAM_BASE;
use std::alloc::Global;

/// The names of the sections.
const SECTION_NAMES: &[u8] =
    b"\0.symtab\0.text\0.strtab\0.riscv.attributes\0.debug_abbrev\0.debug_info\0.debug_line\0.debug_aranges\0.debug_frame\0.debug_macro\0.shstrtab\0";

/// The index of the section with the image.
pub const TEXT: u16 = 2;

/// The index that says that a symbol's value is no address of a section.
pub const ABSOLUTE: u16 = 0xfff1;

/// An assembled source.
#[derive(Clone, Copy)]
pub struct Object<'a> {
    /// The bytes from 0x80000000 on: at most 16,777,216.
    pub image: &'a [u8],
    pub symbols: &'a [Symbol<'a>],
    /// The lines that have bytes, in order.
    pub lines: &'a [PlacedLine],
    /// The name of the source.
    pub name: &'a [u8],
    /// The folder that the name is relative to.
    pub folder: &'a [u8],
    /// The tables of its frames and of its macros.
    pub frames: &'a [u8],
    pub macros: &'a [u8],
}

/// Returns a section that isn't loaded, by the offset of its name, its kind and its bytes.
fn plain(name: u32, kind: u32, contents: &[u8]) -> Section<'_>
    ensures { result ≡ spec.plain name kind contents.now }
{
    Section {
        name,
        kind,
        flags: 0,
        address: 0,
        link: 0,
        info: 0,
        alignment: 1,
        entry_size: 0,
        contents,
    }
}

/// What the sections of a file have that is made of an assembled source.
#[derive(Drop)]
struct Tables {
    symbols: SymbolTable,
    info: Vec<u8>,
    lines: Vec<u8>,
    ranges: Vec<u8>,
}

/// Returns the sections of an object and its tables, among them that many symbols.
fn sections_of<'a>(object: &Object<'a>, tables: &'a Tables, count: u32) -> [Section<'a>; 12]
    ensures { result ≡ sections_of (parts ATTRIBUTES.now ABBREVIATIONS.now object.now.image.now tables.now object.now.frames.now object.now.macros.now) count }
{
    [
        Section {
            alignment: 0,
            ..plain(0, 0, &[])
        },
        Section {
            link: 3,
            info: count,
            alignment: 4,
            entry_size: 16,
            ..plain(1, 2, &tables.symbols.table)
        },
        Section {
            flags: 7,
            address: RAM_BASE,
            alignment: 4,
            ..plain(9, 1, object.image)
        },
        plain(15, 3, &tables.symbols.strings),
        plain(23, 0x7000_0003, ATTRIBUTES),
        plain(41, 1, ABBREVIATIONS),
        plain(55, 1, &tables.info),
        plain(67, 1, &tables.lines),
        plain(79, 1, &tables.ranges),
        plain(94, 1, object.frames),
        plain(107, 1, object.macros),
        plain(120, 3, SECTION_NAMES),
    ]
}

/// Writes the file of an object and its tables, among them that many symbols.
fn write_sections(
    alloc: Global,
    object: &Object<'_>,
    tables: &Tables,
    count: u32,
) -> Result<Vec<u8>, ElfFault>
    ensures found { IfOk result (λ f. AreFound (parts ATTRIBUTES.now ABBREVIATIONS.now object.now.image.now tables.now
        object.now.frames.now object.now.macros.now) f.items) }
    ensures loaded { IfOk result (λ f. elf.loaded f.items ≡ Some (image_at object.now.image.now)) }
    ensures size { IfOk result (λ f. length f.items ≡ 564 + length (bodies (sections_of (parts ATTRIBUTES.now
        ABBREVIATIONS.now object.now.image.now tables.now object.now.frames.now object.now.macros.now) count))) }
    ensures within { IfOk result (λ f. length f.items < 2 ^ 32) }
    ensures large { IfErr result (λ e. e ≡ TooLarge → 2 ^ 32 ≤ 564 + length (bodies (sections_of (parts ATTRIBUTES.now ABBREVIATIONS.now object.now.image.now tables.now object.now.frames.now object.now.macros.now) count))) }
{
    let sections = sections_of(object, tables, count);
    let bytes = write_file(alloc, &sections, 2)?;
    Ok(bytes)
}

/// Returns the address following an image, if it has 32 bits.
fn end_of(image: &[u8]) -> Option<u32>
    ensures { SomeIff result (ram_base + length image.now < 2 ^ 32) (ram_base + length image.now) }
{
    let size = u32::try_from(image.len()).ok()?;
    RAM_BASE.checked_add(size)
}

/// Returns the number of entries of a symbol table, if it has 32 bits: the first names nothing.
fn entries_of(symbols: &[Symbol<'_>]) -> Option<u32>
    ensures { SomeIff result (1 + length symbols.now < 2 ^ 32) (1 + length symbols.now) }
{
    let count = u32::try_from(symbols.len()).ok()?;
    count.checked_add(1)
}

/// Returns the tables of an object whose image ends at an address.
#[tactic(auto, using(crate::proofs::Sizes::strings_exceed))]
fn tables_of(alloc: Global, object: &Object<'_>, end: u32) -> Result<Tables, ElfFault>
    requires rises { Rises 1 object.now.lines.now }
    requires end { ram_base ≤ end }
    ensures symbols { IfOk result (λ t. symbols t.symbols.strings.items t.symbols.table.items
        ≡ null_symbol ∷ map named object.now.symbols.now) }
    ensures lines { IfOk result (λ t. rows t.lines.items ≡ Some (rows_after 1 object.now.lines.now end)) }
    ensures info { IfOk result (λ t. length t.info.items
        ≡ info_size object.now.name.now object.now.folder.now object.now.symbols.now) }
    ensures names { IfOk result (λ t. length t.symbols.table.items + length t.symbols.strings.items
        ≡ 17 + symbols_size (map (λ s. s.name) object.now.symbols.now)) }
    ensures rows { IfOk result (λ t. length t.lines.items ≡ lines_size object.now.name.now object.now.lines.now) }
    ensures ranges { IfOk result (λ t. length t.ranges.items ≡ 32) }
    ensures large { IfErr result (λ e. e ≡ TooLarge → 2 ^ 32
        ≤ file_size object.now.image.now (map (λ s. s.name) object.now.symbols.now) object.now.lines.now object.now.name.now
        + info_size object.now.name.now object.now.folder.now object.now.symbols.now) }
{
    let size = end - RAM_BASE;
    let symbols = write_symbols(alloc, object.symbols)?;
    let info = write_info(alloc, object.name, object.folder, size, object.symbols)?;
    let lines = write_lines(alloc, object.name, object.lines, end)?;
    let ranges = write_ranges(alloc, size)?;
    Ok(Tables {
        symbols,
        info,
        lines,
        ranges,
    })
}

/// Writes the file of an assembled source: its image is loaded at 0x80000000, where it begins.
///
/// # Errors
///
/// - `TooLarge` if the address following the image has more than 32 bits, or if the file would have 4 GiB or more.
/// - `OutOfMemory` if memory runs out.
#[tactic(auto, using(crate::proofs::Sizes::symbols_exceed))]
pub fn write_object(alloc: Global, object: &Object<'_>) -> Result<Vec<u8>, ElfFault>
    requires { Rises 1 object.now.lines.now }
    ensures image { IfOk result (λ f. elf.loaded f.items ≡ Some (image_at object.now.image.now)) }
    ensures symbols { IfOk result (λ f. symbols_of f.items ≡ Some (null_symbol ∷ map named object.now.symbols.now)) }
    ensures lines { IfOk result (λ f. lines_of f.items
        ≡ Some (rows_after 1 object.now.lines.now (ram_base + length object.now.image.now))) }
    ensures info { IfOk result (λ f. option_map length (contents f.items (codes ".debug_info"))
        ≡ Some (info_size object.now.name.now object.now.folder.now object.now.symbols.now)) }
    ensures frames { IfOk result (λ f. contents f.items (codes ".debug_frame") ≡ Some object.now.frames.now) }
    ensures macros { IfOk result (λ f. contents f.items (codes ".debug_macro") ≡ Some object.now.macros.now) }
    ensures size { IfOk result (λ f. length f.items ≡ file_size object.now.image.now
        (map (λ s. s.name) object.now.symbols.now) object.now.lines.now object.now.name.now
        + info_size object.now.name.now object.now.folder.now object.now.symbols.now + length object.now.frames.now + length object.now.macros.now) }
    ensures end { OnOk result (ram_base + length object.now.image.now < 2 ^ 32) }
    ensures within { IfOk result (λ f. length f.items < 2 ^ 32) }
    ensures large { IfErr result (λ e. e ≡ TooLarge → ram_base + length object.now.image.now < 2 ^ 32 →
        2 ^ 32 ≤ file_size object.now.image.now (map (λ s. s.name) object.now.symbols.now) object.now.lines.now
        object.now.name.now + info_size object.now.name.now object.now.folder.now object.now.symbols.now
        + length object.now.frames.now + length object.now.macros.now) }
{
    let Some(end) = end_of(object.image) else {
        return Err(ElfFault::TooLarge);
    };
    let Some(count) = entries_of(object.symbols) else {
        return Err(ElfFault::TooLarge);
    };
    let tables = tables_of(alloc, object, end)?;
    let file = write_sections(alloc, object, &tables, count)?;
    Ok(file)
}
