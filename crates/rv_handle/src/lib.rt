//! What a web page keeps between its calls: a lab or none, with the texts of its last answer, by a handle that lends
//! them to each call. So what is only read takes no memory.
#![tactic(auto)]

mod copying;
mod handle;
mod looks;
mod replies;
mod state;

pub use crate::copying::copy_from;
pub use crate::handle::{Handle, NewHandle};
pub use crate::state::State;
