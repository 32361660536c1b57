//! The names of faults. Runs of the built program have their lines and their exit statuses.
use crate::checks::check_of;
use rv_asm::{AsmFault, FaultKind};
use rv_cli::CliFault;
use std::alloc::Global;

/// Whether a fault is shown by this name.
fn has_name(alloc: Global, fault: &CliFault, name: &str) -> bool {
    match format!(in alloc; "{fault}") {
        Ok(shown) => shown.as_str() == name,
        Err(_) => false,
    }
}

/// Each fault with its name.
static ROWS: [(CliFault, &str); 10] = [
    (CliFault::ReadSource, "ReadSource"),
    (CliFault::ReadInput, "ReadInput"),
    (CliFault::ReadCommands, "ReadCommands"),
    (CliFault::Input(3), "Input"),
    (
        CliFault::Source(AsmFault {
            line: 3,
            kind: FaultKind::DuplicateSymbol,
        }),
        "Source",
    ),
    (CliFault::BadPages, "BadPages"),
    (CliFault::BadSlots, "BadSlots"),
    (CliFault::ImageTooLarge, "ImageTooLarge"),
    (CliFault::OutOfMemory, "OutOfMemory"),
    (CliFault::Write, "Write"),
];

#[test]
fn names_each_fault(rt: HostRuntime) {
    for &(fault, name) in ROWS.iter() {
        check_of(&rt, has_name(rt.alloc(), &fault, name), name);
    }
}
