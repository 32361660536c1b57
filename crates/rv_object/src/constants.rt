//! The constants of a source, as macros.
ghost use Rattle.std.specs.Prelude.{◌≡◌, ◌++◌, ◌+◌, ◌^◌, ◌≤◌, ◌∷◌, [], IfOk, IfSome, OnOk, length};
ghost use Rattle.rv_elf.specs.Size.{macros_size};

use rv_asm::{Listing, PlacedName};
use rv_base::{NoMemory, word_digits};
use rv_elf::Macro;
use std::alloc::Global;

/// Returns whether a byte may stand in a macro's name, after the first one.
fn is_in_name(byte: u8) -> bool {
    byte == b'_' || byte.is_ascii_alphanumeric()
}

/// Returns whether a name is one that debuggers take for a macro's: of letters, digits and `_`, and no digit first.
fn can_name(name: &[u8]) -> bool {
    match name {
        [first, ..] => !first.is_ascii_digit() && name.iter().all(|byte| is_in_name(*byte)),
        [] => false,
    }
}

/// Returns the number of a constant without its sign.
fn digits_of(value: i64) -> [u8; 8] {
    word_digits(u32::try_from(value.unsigned_abs()).unwrap_or(0))
}

/// Returns the macro of a constant.
fn macro_of(alloc: Global, name: &[u8], value: i64) -> Result<Macro, NoMemory>
    ensures { IfOk result (λ m. length m.text.items ≤ length name.now + 14) }
{
    let mut text = Vec::new(alloc);
    text.extend_from_slice(name)?;
    let digits = digits_of(value);
    if value < 0 {
        text.extend_from_slice(b" (-0x")?;
        text.extend_from_slice(&digits)?;
        text.extend_from_slice(b")")?;
    } else {
        text.extend_from_slice(b" 0x")?;
        text.extend_from_slice(&digits)?;
    }
    Ok(Macro { text })
}

/// The most bytes that the macros of a source have together. Constants that have no room are left out.
const ROOM: usize = 1 << 28;

/// Returns what is left of some room after a constant, if it has room.
fn room_after(room: usize, name: &[u8]) -> Option<usize>
    ensures { IfSome result (λ left. left + length name.now + 17 ≡ room) }
{
    room.checked_sub(17)?.checked_sub(name.len())
}

/// Appends a macro.
fn append_macro(out: &mut Vec<Macro>, constant: Macro) -> Result<(), NoMemory>
    ensures { OnOk result (out.new.items ≡ out.old.items ++ constant ∷ []) }
{
    match out.push(constant) {
        Ok(()) => Ok(()),
        Err(_) => Err(NoMemory),
    }
}

/// Appends the macro of a constant, if its name can be one's and it has room, and returns the room that is left.
#[tactic(auto, using(crate::proofs::Texts::appended))]
fn append_constant(
    alloc: Global,
    out: &mut Vec<Macro>,
    room: usize,
    name: &[u8],
    value: i64,
) -> Result<usize, NoMemory>
    ensures { IfOk result (λ left. macros_size out.new.items + left ≤ macros_size out.old.items + room) }
{
    if !can_name(name) {
        return Ok(room);
    }
    let Some(left) = room_after(room, name) else {
        return Ok(room);
    };
    let constant = macro_of(alloc, name, value)?;
    append_macro(out, constant)?;
    Ok(left)
}

/// Returns whether the label with an index has a name.
fn is_label(labels: &[PlacedName], index: usize, name: &[u8]) -> bool {
    match labels.get(index) {
        Some(label) => label.name.as_slice() == name,
        None => false,
    }
}

/// Returns the macros of the constants of a source: of the names that aren't labels.
pub fn macros_of(alloc: Global, listing: Listing<'_>) -> Result<Vec<Macro>, NoMemory>
    ensures { IfOk result (λ v. macros_size v.items ≤ 12 + 2 ^ 28) }
{
    let labels = listing.labels();
    let mut out = Vec::new(alloc);
    let mut room = ROOM;
    // Labels are in order of definition, as all names are.
    let mut next: usize = 0;
    for (name, value) in listing.program.symbols() {
        if is_label(labels, next, name.as_slice()) {
            next = next.saturating_add(1);
        } else {
            room = append_constant(alloc, &mut out, room, name.as_slice(), *value)?;
        }
    }
    Ok(out)
}
