//! Readers and writers of texts, and the texts of a run, read from their readers.
//!
//! A text has at most 16,777,216 bytes.
#![tactic(auto)]

mod fault;
mod file;
mod memory;
mod text;
mod texts;

pub use fault::{ReadFault, TextName};
pub use file::{FileIn, FileOut};
pub use memory::{MemoryIn, MemoryOut};
pub use text::{InFailed, OutFailed, TextIn, TextOut, write_whole};
pub use texts::{Texts, read_texts};
