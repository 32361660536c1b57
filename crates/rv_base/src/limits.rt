//! Limits.

/// The address of the first byte of memory, at which an image lies and a hart starts.
pub const RAM_BASE: u32 = 0x8000_0000;

/// The most bytes of an image, and of memory: 16 MiB.
pub const IMAGE_LIMIT: u32 = 16_777_216;

/// The most bytes of a text that the program reads: 16 MiB.
pub const TEXT_LIMIT: usize = 16_777_216;

/// The most bytes of a line of a source, of a timed list and of commands. A longer one is refused unread.
pub const LINE_LIMIT: usize = 1024;
