//! Memory.
ghost use Rattle.std.specs.Prelude.{◌≡◌, ◌++◌, OnOk};
ghost use Rattle.rv_replies.specs.Texts.{bytes_from, memory_text};

use rv_base::{NoMemory, byte_digits};
use rv_board::BootedBoard;
use rv_requests::Extent;

/// Appends at most `most` bytes from an address on, up to the first at which there is no memory.
#[tactic(auto, using(crate::proofs::Reading::byte_steps))]
fn append_bytes(
    out: &mut Vec<u8>,
    board: &BootedBoard,
    from: u32,
    most: u32,
) -> Result<(), NoMemory>
    ensures { OnOk result (out.new.items ≡ out.old.items ++ bytes_from board.now from most) }
{
    let mut address = from;
    let mut left = most;
    while left > 0 {
        let Some(byte) = board.ram(address) else {
            return Ok(());
        };
        out.extend_from_slice(&byte_digits(byte))?;
        address = address.wrapping_add(1);
        left -= 1;
    }
    Ok(())
}

/// Appends the bytes of an extent of memory, or that there are none.
pub(crate) fn append_memory(
    out: &mut Vec<u8>,
    board: &BootedBoard,
    extent: Extent,
) -> Result<(), NoMemory>
    ensures { OnOk result (out.new.items ≡ out.old.items ++ memory_text board.now extent) }
{
    let before = out.len();
    append_bytes(out, board, extent.from, extent.most)?;
    if out.len() == before {
        out.extend_from_slice(b"E01")?;
    }
    Ok(())
}
