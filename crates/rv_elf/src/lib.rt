//! Writes ELF files: an image, with what debuggers and disassemblers ask of it.
#![tactic(auto)]

mod bytes;
mod fault;
mod file;
mod frames;
mod info;
mod lines;
mod macros;
mod object;
mod symbols;

pub use fault::ElfFault;
pub use file::{Section, write_file};
pub use frames::{Function, write_frames};
pub use lines::{PlacedLine, write_lines};
pub use macros::{Macro, write_macros};
pub use object::{ABSOLUTE, Object, TEXT, write_object};
pub use symbols::{Symbol, SymbolTable, write_symbols};
