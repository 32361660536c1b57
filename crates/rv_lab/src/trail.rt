//! What `why` follows.
use rv_recording::Watched;

/// What `why` follows, and among how many of the first steps.
#[derive(Clone, Copy)]
pub(crate) struct Trail {
    /// A register or a word.
    pub(crate) watched: Watched,
    /// The number of steps that are looked at.
    pub(crate) steps: u64,
}
