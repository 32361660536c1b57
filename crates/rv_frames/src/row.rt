//! What is known of a frame.
use crate::places::Entry;
use crate::state::Stack;

/// Where the value of ra is with which a function began.
#[derive(Clone, Copy)]
pub enum Kept {
    /// In ra.
    InRa,
    /// In another register, with that number modulo 32.
    In(u8),
    /// In memory, that many bytes from where the frame begins, modulo 2 ^ 32.
    At(u32),
    /// Nowhere that is known.
    Lost,
}

/// What is known of a frame before each instruction from an address on, up to that of the next row.
#[derive(Clone, Copy)]
pub struct FrameRow {
    /// The address.
    pub address: u32,
    /// Where the function begins.
    pub start: u32,
    /// Why it begins, or `None` if no function lies there.
    pub entry: Option<Entry>,
    /// The number of bytes from sp up to where the frame begins, modulo 2 ^ 32, if it is known.
    pub offset: Option<u32>,
    /// Where the caller's sp is.
    pub stack: Stack,
    /// Where the value of ra is with which the function began.
    pub ra: Kept,
    /// Whether the function has written mepc.
    pub wrote_mepc: bool,
}
