//! A number for each page of a memory.
ghost use Rattle.std.specs.Prelude.{◌≡◌, ◌<◌, ◌≤◌, length, slice_index, slice_set};
ghost use Rattle.rv_ram.specs.Support.Table.{blank_biases};

use crate::PAGE_BYTES;
use std::marker::Model;

/// A number for each of up to 4096 pages.
///
/// They are an array in the memory itself: of a `Vec` each access would first read where it is.
#[derive(Drop)]
pub struct Biases {
    items: [u32; 4096],
    pages: u32,
    /// Where the pages that exist begin in the block: behind the zeros. It is a number in memory since the compiler
    /// would compare a constant in 32 bits, and then extend the place once more for a store.
    first: usize,
}

impl Model for Biases {
    ghost use Rattle.std.specs.Prelude.{◌≡◌, ◌≤◌, ◌*◌, List, ℕ, take};

    ghost Value = { List ℕ };

    ghost view = { λ b. take b.pages b.items };

    ghost invariant = { λ b. (b.pages ≤ 4096) × (b.first ≡ 4096) };
}

impl Biases {
    /// Returns the biases of pages of which none exists yet.
    #[tactic(auto, using(crate::proofs::Blocks::biases_zero))]
    pub fn new(pages: u32) -> Biases
        requires { pages ≤ 4096 }
        ensures { result ≡ blank_biases pages }
    {
        let mut items = [0; 4096];
        for page in 0..pages {
            items[page as usize] = 0u32.wrapping_sub(PAGE_BYTES * page);
        }
        Biases {
            items,
            pages,
            first: PAGE_BYTES as usize,
        }
    }

    /// Returns a copy.
    pub fn copy(&self) -> Biases
        ensures { result ≡ self.now }
    {
        Biases {
            items: self.items,
            pages: self.pages,
            first: self.first,
        }
    }

    /// Returns the number of pages.
    pub fn len(&self) -> u32
        ensures { result ≡ length self.now }
    {
        self.pages
    }

    /// Returns the number of bytes before the first page that exists: those of a page of zeros.
    #[inline(always)]
    pub fn first(&self) -> usize
        ensures { result ≡ 4096 }
    {
        self.first
    }

    /// Returns the number of a page.
    #[inline(always)]
    pub fn get(&self, page: u32) -> u32
        requires { page < length self.now }
        ensures { result ≡ slice_index self.now page }
    {
        self.items[page as usize]
    }

    /// Sets the number of a page.
    pub fn set(&mut self, page: u32, bias: u32)
        requires { page < length self.old }
        ensures { self.new ≡ slice_set self.old page bias }
    {
        self.items[page as usize] = bias;
    }
}
