//! An empty source on the largest memory.
use crate::boards::{assembled, paged_board};
use crate::checked::{Checked, check};
use rv_board::BootedBoard;
use std::alloc::Global;

/// Checks that the last byte of 4096 pages reads 0, and no memory follows it.
fn check_end(board: &BootedBoard) -> Checked<()> {
    let (last, next) = (board.ram(0x80ff_ffff), board.ram(0x8100_0000));
    check(last == Some(0) && next.is_none(), "the end of the memory")
}

/// Checks that the source is assembled and boots.
pub fn check_boot(alloc: Global) -> Checked<()> {
    let program = assembled(alloc, b"")?;
    let board = paged_board(alloc, &program, 4096, 64)?;
    check_end(&board)
}
