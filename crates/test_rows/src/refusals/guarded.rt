//! A user program that the protection of memory stops, assembled, booted and run.
use crate::boards::{assembled, paged_board};
use crate::checked::{Checked, check};
use crate::compare::same_everywhere;
use crate::isolation::STORES;
use rv_asm::Program;
use rv_board::{BootedBoard, Event, TrapRecord};
use std::alloc::Global;

/// The trap of the second store of `STORES`.
const STOPPED: TrapRecord = TrapRecord {
    cause: 7,
    epc: 0x8000_003c,
    tval: 0x8000_0110,
};

/// Whether the board is as it has to be after 16 steps.
fn is_right_at_end(board: &BootedBoard) -> bool {
    board.steps() == 16
        && board.ram(0x8000_010f) == Some(0x38)
        && board.ram(0x8000_0110) == Some(0)
        && board.trap(0) == Some(STOPPED)
        && board.trap_count() == 1
}

/// Whether a board is the same as another after these steps, none of which is refused.
fn is_as_after(board: &BootedBoard, other: &mut BootedBoard, steps: &[Event]) -> bool {
    other.run(steps).is_ok() && same_everywhere(board, other)
}

/// Whether a board whose next step was refused is the same as one that did these steps.
fn has_done(alloc: Global, program: &Program, board: &BootedBoard, steps: &[Event]) -> bool {
    match paged_board(alloc, program, 1, 64) {
        Ok(mut other) => is_as_after(board, &mut other, steps),
        Err(_) => false,
    }
}

/// Whether the board runs its 16 steps. Where one is refused, the board has to be as before that step in all
/// that it can be read by, and to do the steps that are left when they are asked again.
fn runs_right(alloc: Global, program: &Program, board: &mut BootedBoard) -> bool {
    let steps = [Event::Step; 16];
    if let Err(stopped) = board.run(&steps) {
        let (done, rest) = steps.split_at(stopped.done.min(16));
        if !has_done(alloc, program, board, done) || board.run(rest).is_err() {
            return false;
        }
    }
    is_right_at_end(board)
}

/// Checks that the source is assembled and runs.
pub fn check_run(alloc: Global) -> Checked<()> {
    let program = assembled(alloc, STORES)?;
    let mut board = paged_board(alloc, &program, 1, 64)?;
    let right = runs_right(alloc, &program, &mut board);
    check(right, "the run of user code")
}
