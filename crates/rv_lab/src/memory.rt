//! What memory holds: words, instructions, and bytes with their text.
ghost use Rattle.std.specs.Prelude.{◌≡◌};
ghost use Rattle.rv_lab.specs.Support.Rows.{char_at, text_length};
ghost use Rattle.rv_monitor.specs.Views.{byte_at_offset};

use rv_board::BootedBoard;

/// Returns the byte at an offset from an address, if there is memory.
pub(crate) fn byte_at(board: &BootedBoard, address: u32, offset: u32) -> Option<u8>
    ensures { result ≡ byte_at_offset board.now address offset }
{
    board.ram(address.wrapping_add(offset))
}

/// Returns the character at an offset from an address: 0 where there is no memory.
pub(crate) fn char_at(board: &BootedBoard, address: u32, offset: u32) -> u8
    ensures { result ≡ char_at board.now address offset }
{
    byte_at(board, address, offset).unwrap_or(0)
}

/// Returns the number of bytes of a text that ends with a zero, at most `most`.
#[tactic(auto, using(crate::proofs::Values::ends_at), unfolding(crate::specs::Support::Rows::text_length))]
pub(crate) fn text_length(board: &BootedBoard, address: u32, most: u32) -> u32
    ensures { result ≡ text_length board.now address most }
{
    for offset in 0..most {
        if char_at(board, address, offset) == 0 {
            return offset;
        }
    }
    most
}
