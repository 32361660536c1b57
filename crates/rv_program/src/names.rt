//! The names of a source.
ghost use Rattle.std.specs.Prelude.{◌≡◌, true, List, [], ◌∷◌, ◌++◌, None, IfSome, OnOk, OnErr, map};
ghost use Rattle.rv_base.specs.Tables.{lookup};
ghost use Rattle.rv_program.specs.Program.{is_word};

use indexmap::IndexMap;
use std::alloc::{AllocError, Global};
use std::marker::Model;

/// The names of a source with their values, in order of definition. Each value fits into 32 bits, signed or
/// unsigned. The view is the list of them.
pub struct Names {
    map: IndexMap<Vec<u8>, i64>,
}

// Hand-written: a derived `Drop` would be proved anew at each exit (docs/PROVING.md).
impl Drop for Names {
    fn drop(self) {
        let Names { map: _ } = self;
    }
}

impl Model for Names {
    ghost use Rattle.std.specs.Prelude.{List, ℕ, ℤ};
    ghost use Rattle.rv_program.specs.Support.Kept.{AreWords, definitions_of};

    ghost Value = { List (List ℕ × ℤ) };

    ghost view = { λ s. definitions_of s.map.entries };

    ghost invariant = { λ s. AreWords (definitions_of s.map.entries) };
}

impl Names {
    /// Makes an empty map, without allocating.
    pub fn new(alloc: Global) -> Self
        ensures { result ≡ [] }
    {
        Names {
            map: IndexMap::new(alloc),
        }
    }

    /// Returns the value of a name, if it is defined.
    pub fn value(&self, name: &[u8]) -> Option<i64>
        ensures value { result ≡ lookup name.now self.now }
        ensures word { IfSome result (λ v. is_word v ≡ true) }
    {
        self.map.get(name).copied()
    }

    /// Returns the names with their values as a map.
    pub fn map(&self) -> &IndexMap<Vec<u8>, i64>
        ensures { map (λ e. (e.0.items, e.1)) result.now.entries ≡ self.now }
    {
        &self.map
    }

    /// Defines a new name. Its value fits into 32 bits, signed or unsigned.
    ///
    /// # Errors
    ///
    /// `AllocError` if the allocator refuses; nothing changes then.
    pub fn define(&mut self, alloc: Global, name: &[u8], value: i64) -> Result<(), AllocError>
        requires absent { lookup name.now self.old ≡ None }
        requires word { is_word value ≡ true }
        ensures ok { OnOk result (self.new ≡ self.old ++ (name.now, value) ∷ []) }
        ensures err { OnErr result (self.new ≡ self.old) }
    {
        let key = name.to_vec(alloc)?;
        self.map.insert(key, value)?;
        Ok(())
    }
}
