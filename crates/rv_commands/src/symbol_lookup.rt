//! The values of names.
ghost use Rattle.std.specs.Prelude.{◌≡◌};

/// A source of the values of the names in commands.
pub trait SymbolLookup {
    ghost use Rattle.std.specs.Prelude.{List, ℕ, ℤ, Option};

    /// The value of each name that has one.
    ghost symbols: { Self → List ℕ → Option ℤ };

    /// Returns the value of a name, if it has one.
    fn symbol(&self, name: &[u8]) -> Option<i64>
        ensures { result ≡ symbols self.now name.now };
}
