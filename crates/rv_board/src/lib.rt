//! The board: a hart with its memory and devices, its last traps and the number of its steps, and what events
//! make of it.
#![tactic(auto)]

mod board;
mod event;
mod image;
mod laws;

pub use board::{Board, BootedBoard};
pub use event::{BootFault, Event, Stopped, TrapRecord};
pub use laws::{locked_entries_stay, room_is_written};
