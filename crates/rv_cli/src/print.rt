//! The text that is printed of a board after its run.
ghost use Rattle.std.specs.Prelude.{◌≡◌, ◌++◌, OnOk};
ghost use Rattle.rv_board.specs.Support.State.{halted_of};
ghost use Rattle.rv_cli.specs.Support.Meanings.{ending_of};
ghost use Rattle.rv_cli.specs.Output.{printed, with_line_end};

use crate::fault::Ending;
use crate::status::append_status;
use rv_base::NoMemory;
use rv_board::Board;
use rv_cache::Decoded;
use rv_ram::ByteMemory;

/// Appends `piece`, and a line end unless it is empty or ends with one.
fn append_with_line_end(text: &mut Vec<u8>, piece: &[u8]) -> Result<(), NoMemory>
    ensures { OnOk result (text.new.items ≡ text.old.items ++ with_line_end piece.now) }
{
    text.extend_from_slice(piece)?;
    if !(piece.is_empty() || piece.ends_with(b"\n")) {
        text.extend_from_slice(b"\n")?;
    }
    Ok(())
}

/// Appends a board's console and its status line.
pub(crate) fn print_board<M: ByteMemory, C: Decoded>(
    board: &Board<M, C>,
    text: &mut Vec<u8>,
) -> Result<(), NoMemory>
    ensures { OnOk result (text.new.items ≡ text.old.items ++ printed board.now) }
{
    append_with_line_end(text, board.console())?;
    append_status(board.halted(), board.pc(), board.steps(), text)
}

/// Returns how a board's run ended.
pub(crate) fn ending<M: ByteMemory, C: Decoded>(board: &Board<M, C>) -> Ending
    ensures { result ≡ ending_of (halted_of board.now) }
{
    match board.halted() {
        Some(code) => Ending::Halted(code),
        None => Ending::Running,
    }
}
