//! Copies of a hart.
ghost use Rattle.std.specs.Prelude.{◌≡◌, ℕ, None, IfOk};

use super::Hart;
use crate::known::Known;
use rv_base::NoMemory;
use rv_cache::Decoded;
use rv_ram::PagedRam;
use std::alloc::Global;

impl<C: Decoded> Hart<PagedRam, C> {
    /// Returns a copy of the hart, with its memory and devices, over a decoded cache that is empty, which
    /// becomes the copy's.
    ///
    /// # Errors
    ///
    /// `NoMemory` if memory runs out.
    pub fn try_clone<D: Decoded>(
        &self,
        alloc: Global,
        cache: D,
    ) -> Result<Hart<PagedRam, D>, NoMemory>
        requires { (a : ℕ) → D.noted cache a ≡ None }
        ensures machine { IfOk result (λ hart. hart.machine ≡ self.now.machine) }
        ensures cache { IfOk result (λ hart. hart.cache ≡ cache) }
    {
        Ok(Hart {
            registers: self.registers,
            pc: self.pc,
            mode: self.mode,
            csrs: self.csrs.copy(),
            bus: self.bus.try_clone(alloc)?,
            known: Known::new(cache),
            shortcuts: self.shortcuts,
        })
    }
}
