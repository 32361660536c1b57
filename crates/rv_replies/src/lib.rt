//! The replies of gdb's remote protocol that leave the board as it stands: what they say of it.
#![tactic(auto)]

mod constants;
mod files;
mod looks;
mod memory;
mod registers;
mod stops;
mod words;

pub use files::Files;
pub use looks::append_look;
pub use stops::{Reason, append_state};
pub use words::append_hex_text;
