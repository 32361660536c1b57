//! What lies where in an image: a place for each of its words.
ghost use Rattle.std.specs.Prelude.{◌≡◌, ◌/◌, IfOk, length};
ghost use Rattle.rv_asm.specs.Seen.{seen};

use crate::code::{index_of, word_at};
use rv_asm::{Listing, PlacedName};
use rv_isa::decode;
use std::alloc::{AllocError, Global};

/// Why a function begins somewhere.
#[derive(Clone, Copy)]
pub enum Entry {
    /// The program begins there.
    Start,
    /// It is called, a word of data has its address, or it follows data.
    Called,
    /// mtvec gets its address.
    Handler,
    /// mepc gets its address.
    Resumed,
}

/// What is known of a word of an image.
#[derive(Clone, Copy)]
pub struct Place {
    /// Whether a line of the source has an instruction there.
    pub is_code: bool,
    /// Whether a label has an address of the word.
    pub is_label: bool,
    /// Why a function begins there, if one does.
    pub entry: Option<Entry>,
}

/// A word of which nothing is known.
const NOTHING: Place = Place {
    is_code: false,
    is_label: false,
    entry: None,
};

/// Returns the place of a word.
pub fn place_at(places: &[Place], index: usize) -> Place {
    places.get(index).copied().unwrap_or(NOTHING)
}

/// Returns whether what comes before a word ends there: a function begins, or data with a label.
pub fn is_boundary(place: Place) -> bool {
    place.entry.is_some() || (place.is_label && !place.is_code)
}

/// Returns whether the four bytes at an offset are an instruction.
fn is_instruction(bytes: &[u8], offset: usize) -> bool {
    word_at(bytes, offset)
        .and_then(|word| decode(word))
        .is_some()
}

/// Returns whether the bytes of a line can be one instruction, or two for one mnemonic.
fn are_instructions(bytes: &[u8]) -> bool {
    match bytes.len() {
        4 => is_instruction(bytes, 0),
        8 => is_instruction(bytes, 0) && is_instruction(bytes, 4),
        _ => false,
    }
}

/// Marks a word as code.
fn mark_code(places: &mut [Place], index: usize) {
    if index < places.len() {
        places[index].is_code = true;
    }
}

/// Marks the words of a line, if it has instructions.
fn mark_line(places: &mut [Place], listing: Listing<'_>, line: usize) {
    let bytes = listing.bytes(line);
    let Some(address) = listing.address(line) else {
        return;
    };
    if let Some(first) = index_of(address) {
        if are_instructions(bytes) {
            for index in first..first.saturating_add(bytes.len() / 4) {
                mark_code(places, index);
            }
        }
    }
}

/// Marks the words that have an address of a label.
fn mark_labels(places: &mut [Place], labels: &[PlacedName]) {
    for label in labels {
        let aligned = label.address - label.address % 4;
        let index = index_of(aligned).unwrap_or(usize::MAX);
        if index < places.len() {
            places[index].is_label = true;
        }
    }
}

/// Returns what lies where in an image: the instructions and the labels.
pub fn places_of(alloc: Global, listing: Listing<'_>) -> Result<Vec<Place>, AllocError>
    ensures { IfOk result (λ v. length v.items ≡ length (seen listing.entry).assembly.bytes / 4) }
{
    let count = listing.program.bytes().len() / 4;
    let mut places = vec![in alloc; NOTHING; count]?;
    let lines = listing.len();
    for line in 0..lines {
        mark_line(places.as_mut_slice(), listing, line + 1);
    }
    mark_labels(places.as_mut_slice(), listing.labels());
    Ok(places)
}
