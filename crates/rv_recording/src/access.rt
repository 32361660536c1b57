//! Which address a load or a store accesses.
ghost use Rattle.std.specs.Prelude.{◌≡◌};
ghost use Rattle.rv_hart.specs.Effect.{plus, reg};

use rv_board::BootedBoard;
use rv_isa::Reg;

/// Returns the address at an offset from a register's value, modulo 2^32: that of a load or a store with these operands.
pub fn address_at(board: &BootedBoard, base: Reg, offset: i32) -> u32
    ensures { result ≡ plus (reg board.now.machine base) offset }
{
    board.reg(base).wrapping_add(offset.cast_unsigned())
}
