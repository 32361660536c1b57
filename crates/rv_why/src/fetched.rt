//! The fetch of an instruction, and the handler of a trap.
ghost use Rattle.std.specs.Prelude.{◌≡◌};
ghost use Rattle.rv_why.specs.Why as spec;
ghost use Rattle.std.specs.Result.{result_err};
ghost use Rattle.rv_pmp.specs.declared.access.Access.TheVariants.{Execute};

use crate::barrier::barrier_of;
use rv_answers::{Barrier, Handler, Unfetched};
use rv_board::BootedBoard;
use rv_isa::{Instr, Width, decode};
use rv_monitor::word_at;
use rv_pmp::Access;

/// The number of mtvec.
const MTVEC: u16 = 0x305;

/// Returns the word that is fetched from pc, if one is.
fn fetched_word(board: &BootedBoard) -> Option<u32>
    ensures { result ≡ spec.fetched_word board.now }
{
    let pc = board.pc();
    if !board
        .pmp()
        .allowed(board.mode(), Access::Execute, pc, Width::Four)
    {
        return None;
    }
    word_at(board, pc)
}

/// Returns what refuses the fetch from pc.
fn fetch_barrier(board: &BootedBoard) -> Barrier
    ensures { result ≡ spec.barrier_of board.now.machine.csrs.pmp board.now.machine.mode Execute board.now.machine.pc 4 }
{
    barrier_of(
        board.pmp(),
        board.mode(),
        Access::Execute,
        board.pc(),
        Width::Four,
    )
}

/// Returns the instruction at pc, or why none is fetched from there.
#[tactic(auto, unfolding(crate::specs::Why::fetched))]
pub(crate) fn fetched(board: &BootedBoard) -> Result<Instr, Unfetched>
    ensures { result ≡ spec.fetched board.now }
{
    let Some(word) = fetched_word(board) else {
        return Err(Unfetched::Refused(fetch_barrier(board)));
    };
    match decode(word) {
        Some(instr) => Ok(instr),
        None => Err(Unfetched::NoInstruction(word)),
    }
}

/// Returns why no instruction is fetched from pc, if none is.
fn unfetched(board: &BootedBoard) -> Option<Unfetched>
    ensures { result ≡ result_err (spec.fetched board.now) }
{
    match fetched(board) {
        Ok(_) => None,
        Err(why) => Some(why),
    }
}

/// Returns what mtvec is.
#[tactic(auto, using(crate::proofs::Words::mtvec_is))]
fn mtvec_of(board: &BootedBoard) -> u32
    ensures { result ≡ board.now.machine.csrs.mtvec }
{
    board.csr(MTVEC).unwrap_or(0)
}

/// Returns where a trap went, after which a board stands so.
pub(crate) fn handler_of(board: &BootedBoard) -> Handler
    ensures { result ≡ spec.handler_of board.now }
{
    Handler {
        address: board.pc(),
        mtvec: mtvec_of(board),
        missing: unfetched(board),
    }
}
