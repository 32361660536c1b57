//! The framing of gdb's remote protocol: packets with their checksums, acknowledgments and interrupts.
#![tactic(auto)]

mod frame;
mod item;
mod laws;
mod receiver;

pub use frame::append_packet;
pub use item::{Contents, Item};
pub use laws::{framed_is_read, items_join};
pub use receiver::Receiver;
