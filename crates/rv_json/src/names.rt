//! The names of places.
ghost use Rattle.std.specs.Prelude.{◌≡◌};
ghost use Rattle.rv_json.specs.Json.{label_of};
ghost use Rattle.rv_json.specs.Support.Labels.{labels};

use rv_answers::Place;
use rv_asm::Listing;
use rv_source::Name;
use std::alloc::Global;

/// The lines and labels of a source, and what allocates texts.
#[derive(Clone, Copy)]
pub(crate) struct Names<'a> {
    pub(crate) listing: Listing<'a>,
    pub(crate) alloc: Global,
}

impl<'a> Names<'a> {
    ghost use Rattle.std.specs.Prelude.{◌≡◌};
    ghost use Rattle.rv_json.specs.Json.{label_of};
    ghost use Rattle.rv_json.specs.Support.Labels.{labels};

    /// Returns the label before a place, if it lies in the image.
    #[tactic(auto, using(crate::proofs::Near::name_of), unfolding(crate::specs::Json::label_of))]
    pub(crate) fn label(&self, place: &Place) -> Option<Name<'a>>
        ensures { result ≡ label_of (labels self.now) place.now }
    {
        place.distance?;
        Some(self.listing.label_before(place.address)?.name)
    }
}
