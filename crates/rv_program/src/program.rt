//! Programs.
ghost use Rattle.std.specs.Prelude.{◌≡◌};

use crate::names::Names;
use indexmap::IndexMap;
use std::convert::AsSlice;
use std::marker::Model;

/// A program: an image of at most 16,777,216 bytes, with the names of its source. Its view is the `Assembly`.
pub struct Program {
    bytes: Vec<u8>,
    names: Names,
}

// Hand-written: a derived `Drop` would be proved anew at each exit (docs/PROVING.md).
impl Drop for Program {
    fn drop(self) {
        let Program { bytes: _, names: _ } = self;
    }
}

impl Model for Program {
    ghost use Rattle.std.specs.Prelude.{◌≤◌, length};
    ghost use Rattle.rv_base.specs.Limits.{image_limit};
    ghost use Rattle.rv_program.specs.Program.{Assembly};

    ghost Value = { Assembly };

    ghost view = { λ p. record { bytes = p.bytes.items; symbols = p.names } };

    ghost invariant = { λ p. length p.bytes.items ≤ image_limit };
}

impl Program {
    ghost use Rattle.std.specs.Prelude.{◌≡◌, ◌≤◌, length, map};
    ghost use Rattle.rv_base.specs.Limits.{image_limit};
    ghost use Rattle.rv_program.specs.Program.{value_of};

    /// Makes a program of an image and names.
    pub fn new(bytes: Vec<u8>, names: Names) -> Self
        requires { length bytes.items ≤ image_limit }
        ensures { result ≡ record { bytes = bytes.items; symbols = names } }
    {
        Program { bytes, names }
    }

    /// Returns the image, whose first byte has the address 0x80000000.
    pub fn bytes(&self) -> &[u8]
        ensures value { result.now ≡ self.now.bytes }
        ensures size { length result.now ≤ image_limit }
    {
        self.bytes.as_slice()
    }

    /// Returns the names that the source defines, labels and constants, with their values, in order of
    /// definition.
    pub fn symbols(&self) -> &IndexMap<Vec<u8>, i64>
        ensures { map (λ e. (e.0.items, e.1)) result.now.entries ≡ self.now.symbols }
    {
        self.names.map()
    }

    /// Returns the value of a name, if the source defines it.
    #[tactic(auto, unfolding(crate::specs::Program::value_of))]
    pub fn symbol(&self, name: &[u8]) -> Option<i64>
        ensures { result ≡ value_of self.now.symbols name.now }
    {
        self.names.value(name)
    }
}

/// Lends the image, so that a board can boot it.
impl AsSlice<u8> for Program {
    ghost items = { λ p. p.bytes };

    fn as_slice(&self) -> &[u8] {
        self.bytes()
    }
}
