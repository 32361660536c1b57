//! Names.
use std::marker::Model;

/// A name of a source, borrowed from its text. Its view is its bytes.
#[derive(Drop)]
pub struct Name<'a> {
    bytes: &'a [u8],
}

impl<'a> Model for Name<'a> {
    ghost use Rattle.std.specs.Prelude.{List, ℕ};

    ghost Value = { List ℕ };

    ghost view = { λ name. name.bytes.now };
}

impl<'a> Name<'a> {
    ghost use Rattle.std.specs.Prelude.{◌≡◌};

    /// Makes the name with these bytes.
    pub fn new(bytes: &'a [u8]) -> Self
        ensures { result ≡ bytes.now }
    {
        Name { bytes }
    }

    /// Returns a copy of the name: a struct with a `Model` and a lifetime can't be `Copy`.
    pub fn again(&self) -> Name<'a>
        ensures { result ≡ self.now }
    {
        Name { bytes: self.bytes }
    }

    /// Returns the bytes of the name.
    pub fn bytes(&self) -> &'a [u8]
        ensures { result.now ≡ self.now }
    {
        self.bytes
    }
}
