//! A user's own memory.
use rv_isa::{NoMemory, Width};
use rv_ram::{ByteMemory, FlatMemory};

/// A user's own memory, with the four calls of the surface alone: so each store is one call of `write`. After
/// `good` writes it refuses the next `refusals` ones.
#[derive(Drop)]
pub struct OwnMemory {
    /// What it keeps its bytes in.
    pub memory: FlatMemory,
    /// How many writes are still done.
    pub good: u32,
    /// How many writes are refused after these.
    pub refusals: u32,
}

impl ByteMemory for OwnMemory {
    ghost bytes = { λ s. s.memory };

    fn size(&self) -> u32 {
        self.memory.size()
    }

    fn read(&self, off: u32) -> u8 {
        self.memory.read(off)
    }

    fn read_word(&self, off: u32) -> u32 {
        self.memory.read_word(off)
    }

    fn write(&mut self, off: u32, width: Width, value: u32) -> Result<(), NoMemory> {
        if self.good > 0 {
            self.good -= 1;
        } else if self.refusals > 0 {
            self.refusals -= 1;
            return Err(NoMemory);
        }
        self.memory.write(off, width, value)
    }
}
