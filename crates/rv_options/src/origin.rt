//! Where the source of a run comes from.
ghost use Rattle.std.specs.Prelude.{◌≡◌, ◌≢◌, codes};
ghost use Rattle.rv_options.specs.declared.origin.Origin.TheVariants.{File, StandardInput};

use crate::Words;

/// The origin of a text: the standard input or a file.
#[derive(Clone, Copy, Debug, PartialEq, Eq)]
pub enum Origin<'a> {
    /// The standard input.
    StandardInput,
    /// The file of this path.
    File(&'a str),
}

impl<'a> Words<'a> {
    /// Returns the origin of the source: the standard input for `-`, or else the file of that path.
    pub fn source_origin(self) -> Origin<'a>
        ensures input { self.entry.source.now ≡ codes "-" → result ≡ StandardInput }
        ensures file { self.entry.source.now ≢ codes "-" → result ≡ File self.entry.source }
    {
        if self.source == "-" {
            Origin::StandardInput
        } else {
            Origin::File(self.source)
        }
    }
}
