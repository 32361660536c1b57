//! The ELF file of an accepted source: its image, its labels and lines, its functions with their frames, and its constants.
#![tactic(auto)]

mod constants;
mod elf;
mod labels;
mod listing;
mod placed;
mod size;

pub use elf::elf_file;
pub use listing::listing_text;
pub use rv_elf::ElfFault;
