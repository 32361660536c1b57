//! Why a trap of a recording came: which trap is told, which check of its step failed, and where it went. Each is
//! told by the board as it stood then.
#![tactic(auto)]

mod barrier;
mod fetched;
mod laws;
mod reason;
mod repeats;
mod search;
mod trap;
mod writes;

pub use laws::fetches_as_the_machine;
pub use reason::instruction_at;
pub use repeats::{comes_again, last_repeated};
pub use trap::explain;
pub use writes::{Sought, last_met, origin, target_of};
