//! The lines of text that the monitor prints of a board.
//!
//! Each call appends to a text. It makes room for the longest text of its kind first, and fails only if it
//! can't; the text is left as it was then. No call changes the board: none reads a device, so no received
//! byte is taken and no interrupt is claimed. Numbers are in lower-case hexadecimal, except counts, which are
//! decimal.

mod lines;
mod memory;
mod registers;

pub use lines::{STOP_BYTES, write_edges, write_stop, write_traps};
pub use memory::{word_at, write_instruction, write_memory};
pub use registers::{mode_letter, write_control_register, write_registers};
