//! Outside events in both orders: some may be exchanged, and levels of one source may not.
use crate::checked::Checked;
use crate::isolation::cases::{Case, End, Given, USER_CODE, check_case};
use std::alloc::Global;

/// What two boards are given, how many bytes wait after it, and which sources are pending.
type Row = (Given, Given, usize, u32);

/// A line and a byte come in either order. Of two levels of a line, the last one stays.
static ROWS: [Row; 3] = [
    (Given::LevelAndByte, Given::ByteAndLevel, 1, 0x10),
    (Given::Levels(true, false), Given::Levels(true, false), 0, 0),
    (
        Given::Levels(false, true),
        Given::Levels(false, true),
        0,
        0x10,
    ),
];

/// Checks a loop in machine mode on two boards which are given what a row says.
fn check_row(alloc: Global, &(one, other, waiting, pending): &Row) -> Checked<()> {
    let case = Case {
        one,
        other,
        to_user_code: false,
        end: End::Pc(0x8000_0000),
        steps: 1,
        waiting,
        pending,
        ..USER_CODE
    };
    check_case(alloc, b"j .", b"j .", &case)
}

/// Checks which outside events may be exchanged.
pub fn check_exchanges(alloc: Global) -> Checked<()> {
    for row in ROWS.iter() {
        check_row(alloc, row)?;
    }
    Ok(())
}
