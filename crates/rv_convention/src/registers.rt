//! The registers of a board.
ghost use Rattle.std.specs.Prelude.{◌≡◌};
ghost use Rattle.rv_convention.specs.Convention.{registers_of};

use rv_answers::Registers;
use rv_board::BootedBoard;
use rv_isa::Reg;

/// Returns the values of a board's registers.
pub fn registers_of(board: &BootedBoard) -> Registers
    ensures { result ≡ registers_of board.now }
{
    let mut values = [0u32; 32];
    for number in 0..32u8 {
        values[number as usize] = board.reg(Reg::of(number));
    }
    values
}
