//! Runs of a recording: to a goal, past the breakpoints that don't stop it, and up to a change of what is watched.
#![tactic(auto)]

mod goal;
mod guard;
mod mark;
mod plan;
mod run;
mod watch;

pub use goal::Goal;
pub use guard::{Guard, put_guard, remove_guard};
pub use plan::{Plan, resumes_after};
pub use run::{differs, run_all};
pub use watch::{place_of, put_watch, remove_watch};
