//! A server of gdb's remote protocol over a lab: bytes come in, bytes go out. There are no files and no terminal in it.
#![tactic(auto)]

mod descriptions;
mod laws;
mod monitor;
mod moves;
mod served;
mod server;
mod talk;
mod target;

pub use descriptions::{features, memory_map};
pub use laws::{output_grows, pieces_join};
pub use served::Then;
pub use server::Server;
pub use talk::Next;
pub use target::Target;
