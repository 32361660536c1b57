//! Replies to requests that leave the board as it stands.
ghost use Rattle.std.specs.Prelude.{◌≡◌, ◌++◌, IfOk, MatchOption, OnOk, false, true};
ghost use Rattle.rv_replies.specs.Looks.{look_text, opened, shown};

use crate::constants::constant;
use crate::files::Files;
use crate::memory::append_memory;
use crate::registers::{append_register, append_registers};
use crate::stops::append_last_stop;
use rv_base::NoMemory;
use rv_board::BootedBoard;
use rv_requests::Request;

/// Appends whether the file of a path can be opened: the program's can.
fn append_opened(out: &mut Vec<u8>, path: &[u8], files: &Files) -> Result<(), NoMemory>
    ensures { OnOk result (out.new.items ≡ out.old.items ++ opened path.now files.now) }
{
    if path == files.path() {
        Ok(out.extend_from_slice(b"F5")?)
    } else {
        Ok(out.extend_from_slice(b"F-1,2")?)
    }
}

/// Appends the reply to a request for what a board or a text has, and returns whether it is one.
#[tactic(auto, unfolding(crate::specs::Looks::shown))]
fn append_shown(
    out: &mut Vec<u8>,
    request: &Request,
    board: &BootedBoard,
    files: &Files,
) -> Result<bool, NoMemory>
    ensures { IfOk result (λ known. MatchOption (shown request.now board.now files.now)
        ((known ≡ false) × (out.new ≡ out.old))
        (λ t. (known ≡ true) × (out.new.items ≡ out.old.items ++ t))) }
{
    match request {
        Request::LastStop => {
            append_last_stop(out, board)?;
            Ok(true)
        }
        Request::Registers => {
            append_registers(out, board)?;
            Ok(true)
        }
        Request::Register(number) => {
            append_register(out, board, *number)?;
            Ok(true)
        }
        Request::Memory(extent) => {
            append_memory(out, board, *extent)?;
            Ok(true)
        }
        Request::Read(part, extent) => {
            files.append_part(out, *part, *extent)?;
            Ok(true)
        }
        Request::Open(path) => {
            append_opened(out, path.bytes(), files)?;
            Ok(true)
        }
        Request::ReadFile(extent) => {
            files.append_file(out, *extent)?;
            Ok(true)
        }
        Request::FileSize => {
            files.append_size(out)?;
            Ok(true)
        }
        _ => Ok(false),
    }
}

/// Appends the reply to a request that leaves the board as it stands, and returns whether it is one.
///
/// # Errors
///
/// `NoMemory` if memory runs out.
pub fn append_look(
    out: &mut Vec<u8>,
    request: &Request,
    board: &BootedBoard,
    files: &Files,
) -> Result<bool, NoMemory>
    ensures { IfOk result (λ known. MatchOption (look_text request.now board.now files.now)
        ((known ≡ false) × (out.new ≡ out.old))
        (λ t. (known ≡ true) × (out.new.items ≡ out.old.items ++ t))) }
{
    match constant(request) {
        Some(reply) => {
            out.extend_from_slice(reply)?;
            Ok(true)
        }
        None => append_shown(out, request, board, files),
    }
}
