//! The names of a run's texts, and why one was not read.

/// The name of a text that the program reads.
#[derive(Clone, Copy, Debug, PartialEq, Eq)]
pub enum TextName {
    /// The source.
    Source,
    /// The timed list.
    Input,
    /// The commands.
    Commands,
}

/// The reason why a text was not read.
#[derive(Clone, Copy, Debug, PartialEq, Eq)]
pub enum ReadFault {
    /// The text's reader failed, or gave more than 16,777,216 bytes.
    Unreadable(TextName),
    /// Memory ran out.
    OutOfMemory,
}
