//! Addresses as places in the source: the line there, and the label before it.
ghost use Rattle.std.specs.Prelude.{◌≡◌};
ghost use Rattle.rv_asm.specs.Seen.{seen};
ghost use Rattle.rv_lab.specs.Lines.{line_at};
ghost use Rattle.rv_lab.specs.Answers.{distance_at};

use rv_asm::Listing;

/// Returns the line that has a byte at an address, if there is one.
#[tactic(auto, using(crate::proofs::Values::line_is))]
pub(crate) fn line_at(listing: Listing, address: u32) -> Option<usize>
    ensures { result ≡ line_at (seen listing.entry) address }
{
    listing.line_at(address)
}

/// Returns how far the last label at an address of the image or before it lies before it.
#[tactic(auto, unfolding(crate::specs::Answers::distance_at))]
pub(crate) fn distance_at(listing: Listing, address: u32) -> Option<u32>
    ensures { result ≡ distance_at (seen listing.entry) address }
{
    let _line = line_at(listing, address)?;
    Some(listing.label_before(address)?.distance)
}
