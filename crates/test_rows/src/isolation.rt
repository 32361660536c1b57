//! Runs of user code and outside events, which show by example what docs/ISOLATION.md promises: what user code
//! can't change and can't learn, and which outside events may be exchanged.
//!
//! Each is a case of two boards, which may differ in what user code may not see.

mod cases;
mod exchange;
mod runs;
mod secrets;

use crate::checked::{Checked, print_result};
pub use runs::STORES;
use std::alloc::Global;

/// Does all checks.
fn check_all(alloc: Global) -> Checked<()> {
    runs::check_runs(alloc)?;
    secrets::check_secrets(alloc)?;
    exchange::check_exchanges(alloc)
}

/// Prints the first check that fails, or that all is as defined.
pub fn print_check(rt: &HostRuntime) {
    let result = match check_all(rt.alloc()) {
        Ok(()) => "as defined",
        Err(why) => why.words(),
    };
    print_result(rt, "isolation: ", result);
}
