//! The kinds of access to memory.

/// A kind of access: what is done with the bytes.
#[derive(Clone, Copy)]
pub enum Access {
    /// A load.
    Read,
    /// A store.
    Write,
    /// A fetch of an instruction.
    Execute,
}
