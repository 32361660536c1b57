//! Control registers.
ghost use Rattle.std.specs.Prelude.{◌≡◌, [], unwrap_or};
ghost use Rattle.rv_base.specs.Words.{words};
ghost use Rattle.rv_board.specs.BoardState.{csr_of};
ghost use Rattle.rv_operands.specs.Operands.{only_of};

use rv_board::BootedBoard;
use rv_operands::only_word;

/// The numbers of control registers.
pub(crate) const MSTATUS: u16 = 0x300;

pub(crate) const MIE: u16 = 0x304;

pub(crate) const MIP: u16 = 0x344;

/// Returns the value of the control register with a number, as machine mode reads it, or 0 where there is
/// none.
pub(crate) fn csr_word(board: &BootedBoard, number: u16) -> u32
    ensures { result ≡ unwrap_or (csr_of board.now number) 0 }
{
    board.csr(number).unwrap_or(0)
}

/// Returns the name of a control register that some operands may be: their only word, or else nothing.
#[tactic(auto, using(crate::proofs::Values::named))]
pub(crate) fn name_in(operands: &[u8]) -> &[u8]
    ensures { result.now ≡ unwrap_or (only_of (words operands.now)) [] }
{
    only_word(operands).unwrap_or(b"")
}
