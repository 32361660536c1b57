//! A session: a board with its timed inputs and breakpoints, which takes steps up to a limit; its opening from a
//! program and a timed list, the commands over it, and the text that they print of a board.
#![tactic(auto)]

mod breakpoints;
mod command;
mod filter;
mod opening;
mod session;
mod stop;
mod timed;
mod views;

pub use command::Next;
pub use opening::{OpenFault, open_session};
pub use rv_timeline::{Timeline, TimelineFault};
pub use session::{Session, breakpoints_are_a_set, calls_join, given_as_listed};
pub use stop::Stop;
pub use views::{
    STOP_BYTES, mode_letter, word_at, write_control_register, write_edges, write_instruction,
    write_memory, write_registers, write_stop, write_traps,
};
