//! The file: its headers, and the bytes of its sections.
ghost use Rattle.std.specs.Prelude.{◌≡◌, ◌++◌, ◌+◌, ◌<◌, ◌≤◌, ◌*◌, ◌^◌, IfOk, IfErr, OnOk, length, take, get_or, Some, SomeIff, ◌-◌};
ghost use Rattle.std.specs.List.{flat_map};
ghost use Rattle.rv_elf.specs.Elf as spec;
ghost use Rattle.rv_elf.specs.Elf.{half_at, image_at, no_section};
ghost use Rattle.rv_elf.specs.declared.fault.ElfFault.TheVariants.{TooLarge};
ghost use Rattle.rv_elf.specs.Support.Written.{bodies_from, section_header, section_headers, bodies, file_header, program_header, file_of, offset_of, AreSmall, IsSmall};

use crate::bytes::{append_halves, append_words};
use crate::fault::ElfFault;
use rv_base::{NoMemory, RAM_BASE};
use std::alloc::Global;
use std::marker::Model;

/// The type of a file that can be executed.
const EXECUTABLE: u16 = 2;

/// The machine RISC-V.
const RISC_V: u16 = 243;

/// A section: the fields of its header (System V ABI, chapter 4, "Sections"), and its bytes.
#[derive(Drop)]
pub struct Section<'a> {
    /// The offset of its name among the names of the sections.
    pub name: u32,
    pub kind: u32,
    pub flags: u32,
    pub address: u32,
    pub link: u32,
    pub info: u32,
    pub alignment: u32,
    pub entry_size: u32,
    pub contents: &'a [u8],
}

impl<'a> Model for Section<'a> {
    ghost use Rattle.rv_elf.specs.Elf.{Section};

    ghost Value = { Section };

    ghost view = { λ s. record {
      name = s.name;
      kind = s.kind;
      flags = s.flags;
      address = s.address;
      link = s.link;
      info = s.info;
      alignment = s.alignment;
      entry_size = s.entry_size;
      contents = s.contents.now;
    } };
}

/// Returns the offset that follows some bytes, if it is below 4 GiB.
fn offset_after(at: u32, bytes: &[u8]) -> Option<u32>
    ensures { SomeIff result (at + length bytes.now < 2 ^ 32) (at + length bytes.now) }
{
    let size = u32::try_from(bytes.len()).ok()?;
    at.checked_add(size)
}

/// Appends the header of a section whose bytes begin at an offset, and returns the offset of what follows them.
#[tactic(auto, unfolding(crate::specs::Support::Written::section_header))]
fn append_section_header(out: &mut Vec<u8>, at: u32, section: &Section<'_>) -> Result<u32, ElfFault>
    ensures header { OnOk result (out.new.items ≡ out.old.items ++ section_header at section.now) }
    ensures end { IfOk result (λ end. end ≡ at + length section.now.contents) }
    ensures small { OnOk result (IsSmall section.now) }
    ensures large { IfErr result (λ e. e ≡ TooLarge → 2 ^ 32 ≤ at + length section.now.contents) }
{
    let bytes = section.contents;
    let Some(end) = offset_after(at, bytes) else {
        return Err(ElfFault::TooLarge);
    };
    let fields = [
        section.name,
        section.kind,
        section.flags,
        section.address,
        at,
        end - at,
        section.link,
        section.info,
        section.alignment,
        section.entry_size,
    ];
    append_words(out, &fields)?;
    Ok(end)
}

/// Appends the headers of sections whose bytes follow one another from an offset on, and returns the offset of what
/// follows them.
fn append_section_headers(
    out: &mut Vec<u8>,
    start: u32,
    sections: &[Section<'_>],
) -> Result<u32, ElfFault>
    ensures headers { OnOk result (out.new.items ≡ out.old.items ++ section_headers start sections.now) }
    ensures end { IfOk result (λ end. end ≡ start + length (bodies sections.now)) }
    ensures small { OnOk result (AreSmall sections.now) }
    ensures large { IfErr result (λ e. e ≡ TooLarge → 2 ^ 32 ≤ start + length (bodies sections.now)) }
{
    let mut at = start;
    for section in sections {
        at = append_section_header(out, at, section)?;
    }
    Ok(at)
}

/// Appends the bytes of sections.
fn append_bodies(out: &mut Vec<u8>, sections: &[Section<'_>]) -> Result<(), NoMemory>
    ensures { OnOk result (out.new.items ≡ out.old.items ++ bodies sections.now) }
{
    for section in sections {
        out.extend_from_slice(section.contents)?;
    }
    Ok(())
}

/// Appends the header of a file with that many sections, the last of which has their names.
#[tactic(auto, unfolding(crate::specs::Support::Written::file_header))]
fn append_file_header(out: &mut Vec<u8>, count: u16) -> Result<(), NoMemory>
    requires { 0 < count }
    ensures { OnOk result (out.new.items ≡ out.old.items ++ file_header count) }
{
    out.extend_from_slice(b"\x7fELF\x01\x01\x01\0\0\0\0\0\0\0\0\0")?;
    append_halves(out, &[EXECUTABLE, RISC_V])?;
    append_words(out, &[1, RAM_BASE, 52, 84, 0])?;
    let sizes = [52, 32, 1, 40, count, count - 1];
    append_halves(out, &sizes)
}

/// Appends the header of the segment, the bytes from an offset on.
#[tactic(auto, unfolding(crate::specs::Support::Written::program_header))]
fn append_program_header(out: &mut Vec<u8>, at: u32, size: u32) -> Result<(), NoMemory>
    ensures { OnOk result (out.new.items ≡ out.old.items ++ program_header at size) }
{
    let fields = [1, at, RAM_BASE, RAM_BASE, size, size, 7, 4];
    append_words(out, &fields)
}

/// Returns the offset of the bytes that follow those of some sections, if it is below 4 GiB.
fn offset_past(start: u32, sections: &[Section<'_>]) -> Option<u32>
    ensures { SomeIff result (start + length (bodies sections.now) < 2 ^ 32) (start + length (bodies sections.now)) }
{
    let mut at = start;
    for section in sections {
        at = offset_after(at, section.contents)?;
    }
    Some(at)
}

/// Returns the offset of the bytes of the first of that many sections.
fn bodies_from(count: u16) -> u32
    ensures { result ≡ bodies_from count }
{
    84 + 40 * u32::from(count)
}

/// Returns the offset and the size of the bytes of a section, if all offsets are below 4 GiB.
#[tactic(auto, using(crate::proofs::Places::part_fits))]
fn place_of(sections: &[Section<'_>], loaded: usize, start: u32) -> Option<(u32, u32)>
    requires { loaded < length sections.now }
    ensures { SomeIff result (start + length (bodies sections.now) < 2 ^ 32)
        (start + length (bodies (take loaded sections.now)), length (get_or sections.now loaded no_section).contents) }
{
    let _ = offset_past(start, sections)?;
    let at = offset_past(start, &sections[..loaded])?;
    let section = &sections[loaded];
    let size = u32::try_from(section.contents.len()).ok()?;
    Some((at, size))
}

/// Writes a file of sections, the last of which has their names, with one of them as its segment.
#[tactic(auto, unfolding(crate::specs::Support::Written::file_of))]
fn write_parts(alloc: Global, sections: &[Section<'_>], loaded: usize) -> Result<Vec<u8>, ElfFault>
    requires some { loaded < length sections.now }
    requires few { length sections.now < 0xff00 }
    ensures value { IfOk result (λ f. f.items ≡ file_of loaded sections.now) }
    ensures small { OnOk result (AreSmall sections.now) }
    ensures within { OnOk result (bodies_from (length sections.now) + length (bodies sections.now) < 2 ^ 32) }
    ensures large { IfErr result (λ e. e ≡ TooLarge → 2 ^ 32 ≤ bodies_from (length sections.now) + length (bodies sections.now)) }
{
    let count = sections.len() as u16;
    let start = bodies_from(count);
    let Some((at, size)) = place_of(sections, loaded, start) else {
        return Err(ElfFault::TooLarge);
    };
    let mut out = Vec::new(alloc);
    append_file_header(&mut out, count)?;
    append_program_header(&mut out, at, size)?;
    append_section_headers(&mut out, start, sections)?;
    append_bodies(&mut out, sections)?;
    Ok(out)
}

/// Writes a file of sections, the last of which has their names, with one of them as its segment from 0x80000000 on.
///
/// # Errors
///
/// - `TooLarge` if the headers and the sections together have 4 GiB or more.
/// - `OutOfMemory` if memory runs out.
#[tactic(auto, using(crate::proofs::Reading::file_sections, crate::proofs::Reading::file_loaded, crate::proofs::Reading::names_back, crate::proofs::Sizes::file_has, crate::proofs::Sizes::file_within))]
pub fn write_file(
    alloc: Global,
    sections: &[Section<'_>],
    loaded: usize,
) -> Result<Vec<u8>, ElfFault>
    requires some { loaded < length sections.now }
    requires few { length sections.now < 0xff00 }
    ensures sections { IfOk result (λ f. spec.sections f.items ≡ sections.now) }
    ensures loaded { IfOk result (λ f. spec.loaded f.items ≡ Some (image_at (get_or sections.now loaded no_section).contents)) }
    ensures names { IfOk result (λ f. half_at f.items 50 ≡ length sections.now - 1) }
    ensures size { IfOk result (λ f. length f.items
        ≡ 84 + 40 * length (spec.sections f.items) + length (flat_map (λ s. s.contents) (spec.sections f.items))) }
    ensures within { IfOk result (λ f. length f.items < 2 ^ 32) }
    ensures large { IfErr result (λ e. e ≡ TooLarge →
        2 ^ 32 ≤ 84 + 40 * length sections.now + length (flat_map (λ s. s.contents) sections.now)) }
{
    write_parts(alloc, sections, loaded)
}
