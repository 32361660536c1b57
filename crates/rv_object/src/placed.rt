//! The lines of a source that have bytes.
ghost use Rattle.std.specs.Prelude.{◌≡◌, ◌++◌, ◌-◌, ◌^◌, ◌<◌, ◌≤◌, IfErr, IfOk, IfSome, OnOk, SomeIff, length, option_to_list};
ghost use Rattle.rv_asm.specs.Seen.{seen};
ghost use Rattle.rv_elf.specs.LineNumbers.{Rises};
ghost use Rattle.rv_elf.specs.declared.fault.ElfFault.TheVariants.{OutOfMemory, TooLarge};
ghost use Rattle.rv_object.specs.Placed.{placed_from, placed_line};

use rv_asm::Listing;
use rv_elf::{ElfFault, PlacedLine};
use std::alloc::{AllocError, Global};

/// Returns a line with its address, if it has bytes.
pub fn placed_line(listing: Listing<'_>, line: u32) -> Option<PlacedLine>
    ensures row { option_to_list result ≡ placed_line (seen listing.entry) line }
    ensures line { IfSome result (λ p. p.line ≡ line) }
{
    if listing.bytes(line as usize).is_empty() {
        return None;
    }
    let address = listing.address(line as usize).unwrap_or(0);
    Some(PlacedLine { line, address })
}

/// Appends a line with its address, if it has bytes.
fn append_line(listing: Listing<'_>, line: u32, out: &mut Vec<PlacedLine>) -> Result<(), ElfFault>
    ensures ok { OnOk result (out.new.items ≡ out.old.items ++ placed_line (seen listing.entry) line) }
    ensures err { IfErr result (λ e. e ≡ OutOfMemory) }
{
    if let Some(placed) = placed_line(listing, line) {
        if out.push(placed).is_err() {
            return Err(ElfFault::OutOfMemory);
        }
    }
    Ok(())
}

/// Returns the number of lines, if it has 32 bits.
fn count_of(listing: Listing<'_>) -> Option<u32>
    ensures { SomeIff result (length (seen listing.entry).addresses - 1 < 2 ^ 32) (length (seen listing.entry).addresses - 1) }
{
    u32::try_from(listing.len()).ok()
}

/// Returns the lines that have bytes, in order.
#[tactic(auto, using(crate::proofs::Rising::next_line, crate::proofs::Rising::no_line, std::proofs::lemmas::List::append_assoc, std::proofs::lemmas::Bool::Decides::nat_tests))]
pub fn placed_lines(alloc: Global, listing: Listing<'_>) -> Result<Vec<PlacedLine>, ElfFault>
    ensures value { IfOk result (λ v. v.items ≡ placed_from (seen listing.entry) 1 (length (seen listing.entry).addresses - 1)) }
    ensures rises { IfOk result (λ v. Rises 1 v.items) }
    ensures within { OnOk result (length (seen listing.entry).addresses - 1 < 2 ^ 32) }
    ensures large { IfErr result (λ e. e ≡ TooLarge → 2 ^ 32 ≤ length (seen listing.entry).addresses - 1) }
{
    let Some(count) = count_of(listing) else {
        return Err(ElfFault::TooLarge);
    };
    let mut out = Vec::new(alloc);
    let mut line = 0;
    while line < count {
        line += 1;
        append_line(listing, line, &mut out)?;
    }
    Ok(out)
}
