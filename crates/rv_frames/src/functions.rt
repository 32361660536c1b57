//! The functions of an image.
ghost use Rattle.std.specs.Prelude.{◌≡◌, ◌+◌, ◌*◌, ◌/◌, ◌<◌, ◌≤◌, IfOk, length};
ghost use Rattle.rv_asm.specs.Seen.{seen};
ghost use Rattle.rv_elf.specs.Size.{frames_size};

use crate::code::{Code, address_of, bytes_of};
use crate::entries::{mark_entries, mark_labelled};
use crate::instructions::instructions_of;
use crate::places::{Entry, Place, is_boundary, place_at, places_of};
use crate::walk::follow;
use rv_asm::Listing;
use rv_elf::Function;
use std::alloc::{AllocError, Global};

/// Returns the index of the word before which what begins at another ends.
pub(crate) fn end_of(code: Code<'_>, start: usize) -> usize
    requires { start < length code.places.now }
    ensures after { start < result }
    ensures within { result ≤ length code.entry.places.now }
{
    for index in start + 1..code.places.len() {
        if is_boundary(place_at(code.places, index)) {
            return index;
        }
    }
    code.places.len()
}

/// Returns the function of the words from one up to another, with its frames.
fn function_of(
    alloc: Global,
    code: Code<'_>,
    entry: Entry,
    start: usize,
    count: usize,
) -> Result<Function, AllocError>
    ensures { IfOk result (λ f. length f.instructions.items ≤ 20 + 140 * count) }
{
    let walk = follow(alloc, code, start, count)?;
    let instructions = instructions_of(alloc, entry, &walk)?;
    let is_handler = match entry {
        Entry::Handler => true,
        _ => false,
    };
    Ok(Function {
        start: address_of(start),
        size: bytes_of(count),
        is_handler,
        instructions,
    })
}

/// Returns the functions of an image of which it is known what lies where, by address.
#[tactic(auto, using(crate::proofs::Bounds::one_more))]
fn functions_in(alloc: Global, code: Code<'_>) -> Result<Vec<Function>, AllocError>
    ensures { IfOk result (λ v. frames_size v.items ≤ 40 + 192 * length code.entry.places.now) }
{
    let mut out = Vec::new(alloc);
    let mut start = 0;
    while start < code.places.len() {
        let end = end_of(code, start);
        if let Some(entry) = place_at(code.places, start).entry {
            let function = function_of(alloc, code, entry, start, end - start)?;
            out.push(function)?;
        }
        start = end;
    }
    Ok(out)
}

/// Returns what lies where in the image of a source, with where functions begin.
pub(crate) fn marked_places(alloc: Global, listing: Listing<'_>) -> Result<Vec<Place>, AllocError>
    ensures { IfOk result (λ v. length v.items ≡ length (seen listing.entry).assembly.bytes / 4) }
{
    let image = listing.program.bytes();
    let mut places = places_of(alloc, listing)?;
    if places.len() > 0 {
        places[0].entry = Some(Entry::Start);
    }
    mark_entries(image, places.as_mut_slice());
    mark_labelled(image, places.as_mut_slice());
    Ok(places)
}

/// Returns the functions of a source by address, with their frames: of a function the words up to where the next one
/// or labelled data begins.
///
/// A function begins where the program does, where code is called, where mtvec or mepc is made to point, and where a
/// label follows data or is a word of data.
pub fn functions_of(alloc: Global, listing: Listing<'_>) -> Result<Vec<Function>, AllocError>
    ensures { IfOk result (λ v. frames_size v.items ≤ 40 + 48 * length (seen listing.entry).assembly.bytes) }
{
    let places = marked_places(alloc, listing)?;
    let code = Code {
        image: listing.program.bytes(),
        places: places.as_slice(),
    };
    functions_in(alloc, code)
}
