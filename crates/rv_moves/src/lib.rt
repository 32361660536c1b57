//! Moves of a recording for a debugger: runs that end before an access to watched bytes, or once the pc leaves some
//! addresses, and runs back to the last such stop.
#![tactic(auto)]

mod back;
mod forward;
mod watch;

pub use back::{Back, run_back, run_to_stop};
pub use forward::{Aim, is_interrupt, run};
pub use watch::{Access, Watch, Watches};
