//! Writes an image as Intel HEX, for programmers of chips and for simulators.
#![tactic(auto)]

mod record;
mod text;

pub use text::hex_file;
