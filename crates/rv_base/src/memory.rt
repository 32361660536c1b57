//! Out of memory, and text that needs none.
ghost use Rattle.std.specs.Prelude.{◌≡◌, ◌++◌, ◌+◌, length, vec_len, vec_capacity, ◌≤◌};
ghost use Rattle.rv_base.specs.Room.{HasRoom};

use std::alloc::AllocError;

/// The error of a growth that the allocator refused.
#[derive(Clone, Copy, PartialEq, Eq, Debug)]
pub struct NoMemory;

impl From<AllocError> for NoMemory {
    fn from(_: AllocError) -> Self {
        NoMemory
    }
}

/// Appends a piece that the text has room for.
pub fn append_within(text: &mut Vec<u8>, piece: &[u8])
    requires { HasRoom text.old piece.now }
    ensures items { text.new.items ≡ text.old.items ++ piece.now }
    ensures len { vec_len text.new ≡ vec_len text.old + length piece.now }
    ensures capacity { vec_capacity text.old ≤ vec_capacity text.new }
{
    text.extend_from_slice(piece).unwrap();
}
