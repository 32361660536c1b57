//! The table of frames: how the caller of each function goes on, and where its registers are.
ghost use Rattle.std.specs.Prelude.{◌≡◌, ◌++◌, ◌+◌, ◌-◌, ◌%◌, ◌^◌, ◌<◌, ◌≤◌, IfErr, IfOk, OnOk, SomeIff, length, map};
ghost use Rattle.rv_elf.specs.Frames as spec;
ghost use Rattle.rv_elf.specs.Frames.{description_of};
ghost use Rattle.rv_elf.specs.Size.{frames_size};
ghost use Rattle.rv_elf.specs.Support.FrameBytes.{body_bytes, common_bytes, entry_bytes, frames_bytes, padding, AreShort, IsShort};
ghost use Rattle.rv_elf.specs.declared.fault.ElfFault.TheVariants.{OutOfMemory, TooLarge};

use crate::bytes::append_words;
use crate::fault::ElfFault;
use rv_base::NoMemory;
use std::alloc::Global;

/// A function, with the instructions of its frames (DWARF 4, section 6.4.2).
#[derive(Drop)]
pub struct Function {
    pub start: u32,
    /// The number of its bytes.
    pub size: u32,
    /// Whether it handles traps: its caller goes on at mepc, and that of others at ra.
    pub is_handler: bool,
    pub instructions: Vec<u8>,
}

/// What functions have in common, and trap handlers: a common information entry each (DWARF 4, section 6.4.1). The
/// caller's sp is the frame's address; numbers of words go downwards.
const COMMON: &[u8] = &[
    16, 0, 0, 0, 0xff, 0xff, 0xff, 0xff, 4, 0, 4, 0, 1, 0x7c, 1, 0x0c, 2, 0, 0, 0, 16, 0, 0, 0,
    0xff, 0xff, 0xff, 0xff, 4, 0, 4, 0, 1, 0x7c, 0xc1, 0x26, 0x0c, 2, 0, 0,
];

/// Returns how many bytes bring a size to a multiple of 4.
fn padding_of(size: usize) -> usize
    ensures { result ≡ (4 - size % 4) % 4 }
{
    (4 - size % 4) % 4
}

/// Appends as many bytes of 0, each of which is an instruction that changes nothing, as bring a size to a multiple of 4.
fn append_padding(out: &mut Vec<u8>, size: usize) -> Result<(), NoMemory>
    ensures { OnOk result (out.new.items ≡ out.old.items ++ padding size) }
{
    match padding_of(size) {
        0 => {}
        1 => out.extend_from_slice(&[0])?,
        2 => out.extend_from_slice(&[0, 0])?,
        _ => out.extend_from_slice(&[0, 0, 0])?,
    }
    Ok(())
}

/// Returns the size of a function's entry, if it has 32 bits.
#[tactic(auto, using(crate::proofs::Described::body_has))]
fn entry_size(function: &Function) -> Option<u32>
    ensures { SomeIff result (length (body_bytes function.now) < 2 ^ 32) (length (body_bytes function.now)) }
{
    let size = u32::try_from(function.instructions.len()).ok()?;
    let padding = padding_of(function.instructions.len()) as u32;
    size.checked_add(padding)?.checked_add(12)
}

/// Appends the frame description entry of a function (DWARF 4, section 6.4.1).
#[tactic(auto, unfolding(crate::specs::Support::FrameBytes::body_bytes))]
fn append_entry(out: &mut Vec<u8>, function: &Function) -> Result<(), ElfFault>
    ensures bytes { OnOk result (out.new.items ≡ out.old.items ++ entry_bytes function.now) }
    ensures short { OnOk result (IsShort function.now) }
    ensures large { IfErr result (λ e. e ≡ TooLarge → 2 ^ 32 ≤ length (body_bytes function.now)) }
{
    let Some(size) = entry_size(function) else {
        return Err(ElfFault::TooLarge);
    };
    let common = if function.is_handler { 20 } else { 0 };
    let (start, covered) = (function.start, function.size);
    let fields = [size, common, start, covered];
    append_words(out, &fields)?;
    out.extend_from_slice(&function.instructions)?;
    append_padding(out, function.instructions.len())?;
    Ok(())
}

/// Returns the table of the frames of functions.
fn table_of(alloc: Global, functions: &[Function]) -> Result<Vec<u8>, ElfFault>
    ensures bytes { IfOk result (λ t. t.items ≡ frames_bytes functions.now) }
    ensures short { OnOk result (AreShort functions.now) }
    ensures large { IfErr result (λ e. e ≡ TooLarge → 2 ^ 32 ≤ length (frames_bytes functions.now)) }
{
    let mut out = Vec::new(alloc);
    out.extend_from_slice(COMMON)?;
    for function in functions {
        append_entry(&mut out, function)?;
    }
    Ok(out)
}

/// Returns the table of the frames of functions: what they have in common, and an entry for each.
///
/// # Errors
///
/// - `TooLarge` if an entry would have 4 GiB or more.
/// - `OutOfMemory` if memory runs out.
#[tactic(auto, using(crate::proofs::Described::frames_read, crate::proofs::Described::table_has))]
pub fn write_frames(alloc: Global, functions: &[Function]) -> Result<Vec<u8>, ElfFault>
    ensures frames { IfOk result (λ t. spec.descriptions t.items ≡ map description_of functions.now) }
    ensures size { IfOk result (λ t. length t.items ≡ frames_size functions.now) }
    ensures large { IfErr result (λ e. e ≡ TooLarge → 2 ^ 32 ≤ frames_size functions.now) }
{
    let table = table_of(alloc, functions)?;
    Ok(table)
}
