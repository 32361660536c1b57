//! Checks of rows: each says which row fails.
use std::process::Abort;

// A test's loop over rows calls these, since a message that a loop writes itself costs proof in each loop.

/// Checks that something holds of a row with this number.
pub fn check_at(rt: &impl Abort, holds: bool, row: u32) {
    assert!(rt; holds, "at {row:#x}");
}

/// Checks that something holds of a row with this name.
pub fn check_of(rt: &impl Abort, holds: bool, row: &str) {
    assert!(rt; holds, "{row}");
}
