//! How often the last trap came in a row.
ghost use Rattle.std.specs.Prelude.{◌≡◌, ◌<◌, ◌≤◌};
ghost use Rattle.rv_why.specs.Repeats as spec;

use rv_answers::Repeated;
use rv_board::{BootedBoard, TrapRecord};

/// Returns whether the next trap is the same.
pub fn comes_again(trap: TrapRecord, next: Option<TrapRecord>) -> bool
    ensures { result ≡ spec.comes_again trap next }
{
    match next {
        Some(next) => trap.cause == next.cause && trap.epc == next.epc && trap.tval == next.tval,
        None => false,
    }
}

/// Returns whether the kept trap at an index is the same as the one after it.
fn is_followed(board: &BootedBoard, index: usize) -> bool
    requires { index < 64 }
    ensures { result ≡ spec.is_followed board.now.traps index }
{
    match board.trap(index) {
        Some(trap) => comes_again(trap, board.trap(index + 1)),
        None => false,
    }
}

/// Returns how many kept traps in a row before the one at an index are the same as it.
#[tactic(auto, using(crate::proofs::Repeating::same_first, crate::proofs::Repeating::same_at))]
fn same_before(board: &BootedBoard, index: usize) -> u64
    requires { index ≤ 64 }
    ensures same { result ≡ spec.same_before board.now.traps index }
    ensures most { result ≤ index }
{
    if index == 0 {
        return 0;
    }
    if !is_followed(board, index - 1) {
        return 0;
    }
    same_before(board, index - 1) + 1
}

/// Returns the last trap of a board, if there was one, and how often it came in a row.
#[tactic(auto, unfolding(crate::specs::Repeats::last_repeated))]
pub fn last_repeated(board: &BootedBoard) -> Option<Repeated>
    ensures { result ≡ spec.last_repeated board.now.traps }
{
    let last = board.trap_count().saturating_sub(1);
    let trap = board.trap(last)?;
    Some(Repeated {
        cause: trap.cause,
        value: trap.tval,
        address: trap.epc,
        times: same_before(board, last) + 1,
    })
}
