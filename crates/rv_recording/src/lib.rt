//! A session that can be run again: all of its inputs are recorded, those of its timed list and those that
//! were given by hand, and the board is always the run of the recorded events from reset on.
#![tactic(auto)]

mod access;
mod breaks;
mod kept;
mod near;
mod out;
mod recording;
mod until;

pub use access::address_at;
pub use out::Span;
pub use recording::{LAST_STEP, Recording};
pub use until::{Condition, End, Watched};
