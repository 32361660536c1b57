//! A memory in one block.
ghost use Rattle.std.specs.Prelude.{◌≡◌, ◌+◌, ◌*◌, ◌%◌, ◌^◌, ◌<◌, ◌≤◌, length, slice_index, IfOk, IsOk, OnOk, OnErr};
ghost use Rattle.rv_isa.specs.Width.{bytes_of};
ghost use Rattle.rv_ram.specs.Bytes.{value_at, put, zeros};

use crate::values::{put_value, word_of};
use crate::{ByteMemory, PAGE_BYTES};
use rv_base::NoMemory;
use rv_isa::Width;
use std::alloc::Global;
use std::marker::Model;

/// A memory that allocates all its bytes at once, so that no write is ever refused.
#[derive(Drop)]
pub struct FlatMemory {
    bytes: Vec<u8>,
}

impl Model for FlatMemory {
    ghost use Rattle.std.specs.Prelude.{◌≡◌, List, ℕ, length, ◌≤◌, ◌^◌, ◌%◌};
    ghost use Rattle.rv_ram.specs.Support.Table.{HasPages};

    ghost Value = { List ℕ };

    ghost view = { λ m. m.bytes.items };

    ghost invariant = { λ m. HasPages m.bytes.items };
}

impl FlatMemory {
    /// Returns a memory of `pages` pages, all zero.
    #[tactic(auto, using(crate::proofs::Zeros::length_zeros), unfolding(crate::specs::Bytes::zeros))]
    pub fn new(alloc: Global, pages: u32) -> Result<FlatMemory, NoMemory>
        requires some { 1 ≤ pages }
        requires most { pages ≤ 4096 }
        ensures zeros { IfOk result (λ m. m ≡ zeros (4096 * pages)) }
        ensures size { IfOk result (λ m. length m ≡ 4096 * pages) }
    {
        let bytes = vec![in alloc; 0u8; (PAGE_BYTES * pages) as usize]?;
        Ok(FlatMemory { bytes })
    }
}

impl ByteMemory for FlatMemory {
    ghost use Rattle.std.specs.Prelude.{false};

    ghost bytes = { λ m. m };

    ghost wants_room = { λ bytes off width value. false };

    fn size(&self) -> u32 {
        self.bytes.len() as u32
    }

    fn read(&self, off: u32) -> u8 {
        self.bytes[off as usize]
    }

    fn read_word(&self, off: u32) -> u32 {
        word_of(&self.bytes, off as usize)
    }

    #[tactic(auto, using(crate::proofs::Put::length_put))]
    fn write(&mut self, off: u32, width: Width, value: u32) -> Result<(), NoMemory>
        requires in_range { off + bytes_of width ≤ length self.old }
        requires aligned { off % bytes_of width ≡ 0 }
        ensures succeeds { IsOk result }
        ensures ok { OnOk result (self.new ≡ put self.old off (bytes_of width) value) }
    {
        put_value(&mut self.bytes, off as usize, width, value);
        Ok(())
    }

    #[inline(always)]
    fn has_overwrite(&self) -> bool {
        true
    }

    #[tactic(auto, using(crate::proofs::Put::length_put))]
    fn overwrite(&mut self, off: u32, width: Width, value: u32) -> bool {
        put_value(&mut self.bytes, off as usize, width, value);
        true
    }
}
