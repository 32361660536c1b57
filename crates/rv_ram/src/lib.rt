//! Memories, seen as lists of bytes.
//!
//! - `ByteMemory` is the trait that the layers above use a memory by.
//! - `FlatMemory` allocates all its bytes at once, and `PagedRam` each page at the first write that needs it.
#![tactic(auto)]

mod biases;
mod flat;
mod paged;
mod values;

ghost use Rattle.std.specs.Prelude.{◌≡◌, ◌+◌, ◌*◌, ◌%◌, ◌^◌, ◌<◌, ◌≤◌, true, false, length, slice_index, OnOk, OnErr};
ghost use Rattle.rv_isa.specs.Width.{bytes_of};
ghost use Rattle.rv_ram.specs.Bytes.{value_at, put};

pub use flat::FlatMemory;
pub use paged::PagedRam;
use rv_base::NoMemory;
use rv_isa::Width;

/// The bytes of a page. A memory has 1 to 4096 pages.
pub const PAGE_BYTES: u32 = 4096;

/// A memory, seen as its bytes by their offsets from its first byte.
///
/// The bytes of a word stand low byte first (RISC-V Unprivileged ISA 20191213, section 1.4). A write may have
/// to make room: it is refused where the allocator has none, and then leaves every byte as it was. Each
/// memory says itself which writes those are.
///
/// A memory gives `bytes`, `size`, `read`, `read_word` and `write`. The rest makes a hart faster, or says more
/// of refused writes, and its defaults are right for any memory.
pub trait ByteMemory: Drop {
    ghost use Rattle.std.specs.Prelude.{List, ℕ, true};
    ghost use Rattle.rv_ram.specs.Room.{RoomRule};

    /// The bytes, from offset 0 on.
    ghost bytes: { Self → List ℕ };

    /// Which writes may have to make room, by the bytes before them: by default any.
    ghost wants_room: { RoomRule } = { λ bytes off width value. true };

    /// Returns the number of bytes: 4096 for each of 1 to 4096 pages. It never changes.
    fn size(&self) -> u32
        ensures size { result ≡ length (bytes self.now) }
        ensures least { 4096 ≤ result }
        ensures most { result ≤ 2 ^ 24 }
        ensures pages { result % 4096 ≡ 0 };

    /// Returns the byte at an offset.
    fn read(&self, off: u32) -> u8
        requires { off < length (bytes self.now) }
        ensures { result ≡ slice_index (bytes self.now) off };

    /// Returns the word at an offset that is a multiple of 4.
    fn read_word(&self, off: u32) -> u32
        requires in_range { off + 4 ≤ length (bytes self.now) }
        requires aligned { off % 4 ≡ 0 }
        ensures { result ≡ value_at (bytes self.now) off 4 };

    /// Writes the low bytes of a value, as many as `width` has, at an offset that is a multiple of their
    /// number.
    fn write(&mut self, off: u32, width: Width, value: u32) -> Result<(), NoMemory>
        requires in_range { off + bytes_of width ≤ length (bytes self.old) }
        requires aligned { off % bytes_of width ≡ 0 }
        ensures ok { OnOk result (bytes self.new ≡ put (bytes self.old) off (bytes_of width) value) }
        ensures err { OnErr result (bytes self.new ≡ bytes self.old) }
        ensures room { OnErr result (wants_room (bytes self.old) off width value ≡ true) };

    /// Whether a write may be tried by `overwrite` first. By default it may not: then each store of a program
    /// is one call of `write`, also where that is refused.
    fn has_overwrite(&self) -> bool {
        false
    }

    /// Writes as `write` does where no room has to be made. Returns whether it wrote: where it didn't, it
    /// leaves every byte as it was. A memory that has an `overwrite` never allocates in it.
    fn overwrite(&mut self, off: u32, width: Width, value: u32) -> bool
        requires in_range { off + bytes_of width ≤ length (bytes self.old) }
        requires aligned { off % bytes_of width ≡ 0 }
        ensures written { result ≡ true → bytes self.new ≡ put (bytes self.old) off (bytes_of width) value }
        ensures refused { result ≡ false → bytes self.new ≡ bytes self.old }
        ensures room { result ≡ false → wants_room (bytes self.old) off width value ≡ true }
    {
        self.write(off, width, value).is_ok()
    }
}
