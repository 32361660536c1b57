//! The fault of a timed list.

/// The reason why a timed list can't be read.
#[derive(Clone, Copy, PartialEq, Eq, Debug)]
pub enum TimelineFault {
    /// The number of the first refused line, counted from 1.
    BadLine(usize),
    /// Out of memory: not a fault of the list.
    OutOfMemory,
}
