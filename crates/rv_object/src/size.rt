//! The most bytes that the ELF file of a source has.
ghost use Rattle.std.specs.Prelude.{◌≡◌, ◌++◌, ◌+◌, ◌-◌, ◌*◌, ◌^◌, ◌<◌, ◌≤◌, ◌∷◌, List, IfNone, IfSome, SomeIff, length, map};
ghost use Rattle.rv_asm.specs.Seen.{seen};
ghost use Rattle.rv_elf.specs.Size.{rows_size, step_size, symbols_size};
ghost use Rattle.rv_elf.specs.declared.lines.PlacedLine.{PlacedLine};
ghost use Rattle.rv_object.specs.Placed.{all_labels, most_of, placed_from, placed_line, size_of, Fits};

use crate::labels::lacks_start;
use crate::placed::placed_line;
use rv_asm::{Listing, PlacedName};

/// Returns a size and that of more bytes together, if they are below 4 GiB.
fn sum(size: u32, more: usize) -> Option<u32>
    ensures { SomeIff result (size + more < 2 ^ 32) (size + more) }
{
    size.checked_add(u32::try_from(more).ok()?)
}

/// Returns the size of the symbol of a name after others, if they are together below 4 GiB.
fn with_symbol(size: u32, name: &[u8]) -> Option<u32>
    ensures { SomeIff result (size + (17 + length name.now) < 2 ^ 32) (size + (17 + length name.now)) }
{
    sum(sum(size, 17)?, name.len())
}

/// Returns the size of the symbols of labels, if it is below 4 GiB.
fn labels_size(labels: &[PlacedName]) -> Option<u32>
    ensures { let size = symbols_size (map (λ p. p.0) labels.now) in SomeIff result (size < 2 ^ 32) size }
{
    let mut size = 0;
    for label in labels {
        size = with_symbol(size, label.name.as_slice())?;
    }
    Some(size)
}

/// Returns the size of the symbol of where a program begins, if a source lacks it.
#[tactic(auto, using(crate::proofs::Most::appended))]
fn start_size(listing: Listing<'_>) -> usize
    ensures { symbols_size (map (λ p. p.0) (all_labels (seen listing.entry)))
        ≡ symbols_size (map (λ p. p.0) (seen listing.entry).labels) + result }
{
    if lacks_start(listing) { 23 } else { 0 }
}

/// Returns the size of the symbols of a source of this name, if it is below 4 GiB.
fn names_size(listing: Listing<'_>, name: &[u8]) -> Option<u32>
    ensures { let size = symbols_size (name.now ∷ map (λ p. p.0) (all_labels (seen listing.entry))) in
        SomeIff result (size < 2 ^ 32) size }
{
    let start = start_size(listing);
    let labels = sum(labels_size(listing.labels())?, start)?;
    with_symbol(labels, name)
}

/// The size of the rows of some lines, and the last line that has one, or 1.
#[derive(Clone, Copy)]
struct Rows {
    size: u32,
    last: u32,
}

/// Returns the size of a step from a line to one that follows it.
fn step_size(lines: u32) -> usize
    ensures { result ≡ step_size lines }
{
    if lines < 64 {
        1
    } else if lines < 8192 {
        2
    } else if lines < 1_048_576 {
        3
    } else if lines < 134_217_728 {
        4
    } else {
        5
    }
}

/// Returns the rows of lines and of one more, if they are below 4 GiB.
#[tactic(auto, using(crate::proofs::Most::row_exceeds, crate::proofs::Most::row_added, crate::proofs::Most::no_row))]
fn with_line(rows: Rows, listing: Listing<'_>, line: u32) -> Option<Rows>
    requires { rows.last ≤ line }
    ensures none { IfNone result ((ls : List PlacedLine) →
        2 ^ 32 ≤ rows.size + rows_size rows.last (placed_line (seen listing.entry) line ++ ls)) }
    ensures some { IfSome result (λ r. (ls : List PlacedLine) →
        rows.size + rows_size rows.last (placed_line (seen listing.entry) line ++ ls) ≡ r.size + rows_size r.last ls) }
    ensures last { IfSome result (λ r. r.last ≤ line) }
    ensures fits { IfSome result (λ r. r.size < 2 ^ 32) }
{
    let Some(placed) = placed_line(listing, line) else {
        return Some(rows);
    };
    let size = sum(rows.size, 9 + step_size(placed.line - rows.last))?;
    Some(Rows {
        size,
        last: placed.line,
    })
}

/// Returns the size of the rows of that many lines, if it is below 4 GiB.
#[tactic(auto, using(crate::proofs::Rising::next_line, crate::proofs::Rising::no_line))]
fn rows_size(listing: Listing<'_>, count: u32) -> Option<u32>
    ensures { let size = rows_size 1 (placed_from (seen listing.entry) 1 count) in SomeIff result (size < 2 ^ 32) size }
{
    let mut rows = Rows { size: 0, last: 1 };
    let mut line = 0;
    while line < count {
        line += 1;
        rows = with_line(rows, listing, line)?;
    }
    Some(rows.size)
}

/// Returns the most bytes of what has neither rows nor symbols, if they are below 4 GiB.
fn rest_size(listing: Listing<'_>, name: &[u8], folder: &[u8]) -> Option<u32>
    ensures { let size = 998 + 2 ^ 28 + 49 * length (seen listing.entry).assembly.bytes + 2 * length name.now
        + length folder.now in SomeIff result (size < 2 ^ 32) size }
{
    let size = 268_436_454 + 49 * listing.program.bytes().len() as u32;
    sum(sum(sum(size, name.len())?, name.len())?, folder.len())
}

/// Returns the most bytes that the ELF file of a source of this name has, which is relative to a folder, if it fits.
pub fn most_size(listing: Listing<'_>, name: &[u8], folder: &[u8]) -> Option<u32>
    ensures { SomeIff result (Fits (seen listing.entry) name.now folder.now)
        (size_of (seen listing.entry) name.now + most_of (seen listing.entry) name.now folder.now) }
{
    let count = u32::try_from(listing.len()).ok()?;
    let rows = rows_size(listing, count)?;
    let names = names_size(listing, name)?;
    let rest = rest_size(listing, name, folder)?;
    rest.checked_add(rows)?
        .checked_add(names)?
        .checked_add(names)
}
