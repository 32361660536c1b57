//! A memory whose pages are allocated as they are written.
ghost use Rattle.std.specs.Prelude.{◌≡◌, ◌+◌, ◌*◌, ◌/◌, ◌%◌, ◌^◌, ◌<◌, ◌≤◌, ◌++◌, true, false, length, slice_index, slice_set, IfOk, IsOk, OnOk, OnErr};
ghost use Rattle.std.specs.Vec.{vec_len};
ghost use Rattle.rv_isa.specs.Width.{bytes_of};
ghost use Rattle.rv_ram.specs.Bytes.{value_at, put, zeros};
ghost use Rattle.rv_ram.specs.Pages.{is_made, is_zero_page, none_made, wants_page, makes_page, made_after};
ghost use Rattle.rv_ram.specs.Support.Table.{place_of};

use crate::biases::Biases;
use crate::values::{byte_of, put_value, stores_zeros, word_of};
use crate::{ByteMemory, PAGE_BYTES};
use rv_base::NoMemory;
use rv_isa::Width;
use std::alloc::Global;
use std::marker::Model;

/// A memory whose pages exist once something other than zeros is stored in them.
///
/// The biases of the pages are allocated with the memory. So a write may be refused only where it is the
/// first to store something other than zeros in its page; reads, and all other writes, allocate nothing.
pub struct PagedRam {
    /// A page of zeros, and then the pages that exist, in the order in which they were made.
    block: Vec<u8>,
    /// For each page what is added to an offset in it for the place in the block, modulo 2^32. A page that
    /// doesn't exist lies at the zeros. So an access tests for no page.
    biases: Biases,
}

// Hand-written: a derived `Drop` would be proved anew at each exit (docs/PROVING.md).
impl Drop for PagedRam {
    fn drop(self) {
        let PagedRam {
            block: _,
            biases: _,
        } = self;
    }
}

impl Model for PagedRam {
    ghost use Rattle.rv_ram.specs.Pages.{PagedBytes};
    ghost use Rattle.rv_ram.specs.Support.Table.{bytes_in, made_in, IsPaged};

    ghost Value = { PagedBytes };

    ghost view = { λ m. record {
      bytes = bytes_in m.block.items m.biases;
      made = made_in m.biases;
    } };

    ghost invariant = { λ m. IsPaged m.block.items m.biases };
}

/// Returns where the byte at an offset lies in the block.
#[inline(always)]
fn place_of(biases: &Biases, off: u32) -> usize
    requires { off / 4096 < length biases.now }
    ensures { result ≡ place_of biases.now off }
{
    off.wrapping_add(biases.get(off / PAGE_BYTES)) as usize
}

/// Appends a page of zeros. Out of line, so that a write to a page that exists stays short.
#[cold]
#[inline(never)]
#[tactic(auto, using(crate::proofs::Blocks::page_more))]
fn append_page(block: &mut Vec<u8>) -> Result<(), NoMemory>
    requires { vec_len block.old < 2 ^ 32 }
    ensures ok { OnOk result (block.new.items ≡ block.old.items ++ zeros 4096) }
    ensures err { OnErr result (block.new.items ≡ block.old.items) }
{
    block.resize(block.len() + PAGE_BYTES as usize, 0)?;
    Ok(())
}

/// Writes the low bytes of a value at a place of the block.
#[inline(always)]
#[tactic(auto, using(crate::proofs::Put::length_put))]
fn put_at(block: &mut Vec<u8>, place: usize, width: Width, value: u32)
    requires { place + bytes_of width ≤ vec_len block.old }
    ensures { block.new.items ≡ put block.old.items place (bytes_of width) value }
{
    put_value(block, place, width, value);
}

impl PagedRam {
    /// Returns a memory of `pages` pages, all zero, of which none exists yet.
    #[tactic(auto, using(crate::proofs::Blocks::bytes_new, crate::proofs::Blocks::made_new, crate::proofs::Blocks::paged_new, crate::proofs::Zeros::length_zeros))]
    pub fn new(alloc: Global, pages: u32) -> Result<PagedRam, NoMemory>
        requires some { 1 ≤ pages }
        requires most { pages ≤ 4096 }
        ensures zeros { IfOk result (λ m. m.bytes ≡ zeros (4096 * pages)) }
        ensures pages { IfOk result (λ m. m.made ≡ none_made pages) }
        ensures size { IfOk result (λ m. length m.bytes ≡ 4096 * pages) }
    {
        let mut block = Vec::new(alloc);
        append_page(&mut block)?;
        Ok(PagedRam {
            block,
            biases: Biases::new(pages),
        })
    }

    /// Returns a copy, of which the same pages exist.
    ///
    /// # Errors
    ///
    /// `NoMemory` if memory runs out.
    pub fn try_clone(&self, alloc: Global) -> Result<PagedRam, NoMemory>
        ensures { IfOk result (λ m. m ≡ self.now) }
    {
        let block = Vec::from_slice(alloc, &self.block)?;
        Ok(PagedRam {
            block,
            biases: self.biases.copy(),
        })
    }

    /// Whether the page at an offset exists: it doesn't lie at the zeros.
    #[inline(always)]
    #[tactic(auto, using(crate::proofs::Blocks::index_in, crate::proofs::Blocks::made_place, crate::proofs::Blocks::blank))]
    fn has_page(&self, off: u32) -> bool
        requires { off < length self.now.bytes }
        ensures made { result ≡ is_made self.now.made off }
        ensures blank { result ≡ false → is_zero_page self.now.bytes off ≡ true }
    {
        place_of(&self.biases, off) >= self.biases.first()
    }

    /// Makes the page at an offset. A refused page changes nothing.
    #[cold]
    #[inline(never)]
    #[tactic(auto, using(crate::proofs::Blocks::index_in, crate::proofs::Blocks::block_small, crate::proofs::Blocks::bias_leads, crate::proofs::Blocks::bytes_made, crate::proofs::Blocks::made_made, crate::proofs::Blocks::made_there, crate::proofs::Blocks::paged_made))]
    fn make_page(&mut self, off: u32) -> Result<(), NoMemory>
        requires in_range { off < length self.old.bytes }
        requires unmade { is_made self.old.made off ≡ false }
        ensures bytes { self.new.bytes ≡ self.old.bytes }
        ensures ok { OnOk result (self.new.made ≡ slice_set self.old.made (off / 4096) true) }
        ensures made { OnOk result (is_made self.new.made off ≡ true) }
        ensures err { OnErr result (self.new.made ≡ self.old.made) }
    {
        let start = self.block.len() as u32;
        append_page(&mut self.block)?;
        let page = off / PAGE_BYTES;
        self.biases.set(page, start.wrapping_sub(PAGE_BYTES * page));
        Ok(())
    }

    /// Writes the low bytes of a value in a page that exists.
    #[inline(always)]
    #[tactic(auto, using(crate::proofs::Put::length_put, crate::proofs::Blocks::index_in, crate::proofs::Blocks::range_in, crate::proofs::Blocks::range_at, crate::proofs::Blocks::bytes_put, crate::proofs::Blocks::paged_put))]
    fn put(&mut self, off: u32, width: Width, value: u32)
        requires in_range { off + bytes_of width ≤ length self.old.bytes }
        requires aligned { off % bytes_of width ≡ 0 }
        requires made { is_made self.old.made off ≡ true }
        ensures bytes { self.new.bytes ≡ put self.old.bytes off (bytes_of width) value }
        ensures made { self.new.made ≡ self.old.made }
    {
        let place = place_of(&self.biases, off);
        put_at(&mut self.block, place, width, value);
    }
}

impl ByteMemory for PagedRam {
    ghost use Rattle.rv_ram.specs.Pages.{wants_page};

    ghost bytes = { λ m. m.bytes };

    ghost wants_room = { wants_page };

    #[tactic(auto, using(crate::proofs::Blocks::length_paged), unfolding(crate::specs::Support::Table::IsPaged))]
    fn size(&self) -> u32 {
        PAGE_BYTES * self.biases.len()
    }

    #[tactic(auto, using(crate::proofs::Blocks::index_in, crate::proofs::Blocks::byte_in, crate::proofs::Blocks::byte_of))]
    fn read(&self, off: u32) -> u8 {
        byte_of(&self.block, place_of(&self.biases, off))
    }

    #[tactic(auto, using(crate::proofs::Blocks::index_in, crate::proofs::Blocks::word_in, crate::proofs::Blocks::word_of))]
    fn read_word(&self, off: u32) -> u32 {
        word_of(&self.block, place_of(&self.biases, off))
    }

    #[tactic(auto, using(crate::proofs::Put::length_put, crate::proofs::Blocks::zeros_put, crate::proofs::Blocks::range_in, crate::proofs::Blocks::made_after_put, crate::proofs::Blocks::made_after_zeros, crate::proofs::Blocks::made_after_page))]
    fn write(&mut self, off: u32, width: Width, value: u32) -> Result<(), NoMemory>
        requires in_range { off + bytes_of width ≤ length self.old.bytes }
        requires aligned { off % bytes_of width ≡ 0 }
        ensures ok { OnOk result (self.new.bytes ≡ put self.old.bytes off (bytes_of width) value) }
        ensures err { OnErr result (self.new.bytes ≡ self.old.bytes) }
        ensures pages { OnOk result (self.new.made ≡ made_after self.old.made off width value) }
        ensures same_pages { OnErr result (self.new.made ≡ self.old.made) }
        ensures succeeds { makes_page self.old.made off width value ≡ false → IsOk result }
        ensures room { OnErr result (wants_page self.old.bytes off width value ≡ true) }
    {
        if self.has_page(off) {
            self.put(off, width, value);
            return Ok(());
        }
        if stores_zeros(width, value) {
            return Ok(());
        }
        self.make_page(off)?;
        self.put(off, width, value);
        Ok(())
    }

    #[inline(always)]
    fn has_overwrite(&self) -> bool {
        true
    }

    #[inline(always)]
    #[tactic(auto, using(crate::proofs::Put::length_put, crate::proofs::Blocks::range_in, crate::proofs::Blocks::zeros_put))]
    fn overwrite(&mut self, off: u32, width: Width, value: u32) -> bool {
        if self.has_page(off) {
            self.put(off, width, value);
            return true;
        }
        stores_zeros(width, value)
    }
}
