//! The state of the devices.
ghost use Rattle.std.specs.Prelude.{◌≡◌, ◌<◌, ◌&&◌, unwrap_or};
ghost use Rattle.rv_base.specs.Words.{words};
ghost use Rattle.rv_isa.specs.Number.{flag};
ghost use Rattle.rv_csr.specs.Traps.{next_interrupt};
ghost use Rattle.rv_bus.specs.Access.{lines_of};
ghost use Rattle.rv_board.specs.BoardState.{csr_of};
ghost use Rattle.rv_lab.specs.Answers.{devices_of, edge_source};
ghost use Rattle.rv_lab.specs.Support.Rows.{first_pending};

use crate::control::{MIE, MIP, MSTATUS, csr_word};
use crate::operands::count_or;
use rv_answers::{Interrupts, has_bit};
use rv_board::BootedBoard;
use rv_plic::Source;

/// Returns whether an interrupt is pending: its bit is 1 in mip and in mie.
fn is_pending(board: &BootedBoard, place: u32) -> bool
    requires { place < 32 }
    ensures { result ≡ (flag (unwrap_or (csr_of board.now 0x344) 0) place && flag (unwrap_or (csr_of board.now 0x304) 0) place) }
{
    has_bit(csr_word(board, MIP), place) && has_bit(csr_word(board, MIE), place)
}

/// Returns the cause of the interrupt that is taken next, if one is, by the words of mstatus, mie and mip.
#[tactic(auto, unfolding(crate::specs::Support::Rows::first_pending))]
fn first_pending(board: &BootedBoard) -> Option<u32>
    ensures { result ≡ first_pending board.now }
{
    if board.mode().is_machine() && !has_bit(csr_word(board, MSTATUS), 3) {
        return None;
    }
    if is_pending(board, 11) {
        Some(0x8000_000b)
    } else if is_pending(board, 3) {
        Some(0x8000_0003)
    } else if is_pending(board, 7) {
        Some(0x8000_0007)
    } else {
        None
    }
}

/// Returns the cause of the interrupt that is taken next, if one is.
#[tactic(auto, using(crate::proofs::Values::next_is))]
fn next_interrupt(board: &BootedBoard) -> Option<u32>
    ensures { result ≡ next_interrupt board.now.machine.csrs board.now.machine.mode (lines_of board.now.machine.bus) }
{
    first_pending(board)
}

/// Returns the mode of a board's hart, and what says which interrupts it takes.
#[tactic(auto, unfolding(crate::specs::Answers::devices_of))]
pub(crate) fn interrupts_of(board: &BootedBoard) -> Interrupts
    ensures { result ≡ (devices_of board.now).interrupts }
{
    Interrupts {
        mode: board.mode(),
        mstatus: csr_word(board, MSTATUS),
        mie: csr_word(board, MIE),
        mip: csr_word(board, MIP),
        next: next_interrupt(board),
    }
}

/// Reads the number of an edge source, 24 to 31.
#[tactic(auto, unfolding(crate::specs::Answers::edge_source))]
pub(crate) fn edge_source(operands: &[u8]) -> Option<Source>
    ensures { result ≡ edge_source (words operands.now) }
{
    match count_or(operands, 0, 31)? {
        source @ 24..=31 => Source::new(source as u8),
        _ => None,
    }
}
