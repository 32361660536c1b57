//! The words of an image, counted from 0 on, and the instructions among them.
use crate::places::{Place, place_at};
use rv_base::RAM_BASE;
use rv_isa::{Instr, decode};

/// Returns the word at an offset of some bytes, lowest byte first.
pub fn word_at(bytes: &[u8], offset: usize) -> Option<u32> {
    match bytes.get(offset..) {
        Some([a, b, c, d, ..]) => {
            let word = [*a, *b, *c, *d];
            Some(u32::from_le_bytes(word))
        }
        _ => None,
    }
}

/// Returns the index of the word at an address, if that is a multiple of 4.
pub fn index_of(address: u32) -> Option<usize> {
    let offset = address.wrapping_sub(RAM_BASE);
    if offset % 4 == 0 {
        Some((offset / 4) as usize)
    } else {
        None
    }
}

/// Returns the number of bytes of that many words, of which an image has fewer than 2 ^ 30.
pub fn bytes_of(words: usize) -> u32 {
    u32::try_from(words).unwrap_or(0).wrapping_mul(4)
}

/// Returns the address of a word.
pub fn address_of(index: usize) -> u32 {
    RAM_BASE.wrapping_add(bytes_of(index))
}

/// An image, and what lies where in it.
#[derive(Clone, Copy)]
pub struct Code<'a> {
    pub image: &'a [u8],
    pub places: &'a [Place],
}

impl<'a> Code<'a> {
    /// Returns the word with an index.
    pub fn word(&self, index: usize) -> Option<u32> {
        word_at(self.image, index.checked_mul(4)?)
    }

    /// Returns the instruction at a word, if it is code.
    pub fn instruction(&self, index: usize) -> Option<Instr> {
        if place_at(self.places, index).is_code {
            self.word(index).and_then(|word| decode(word))
        } else {
            None
        }
    }
}
