//! The opening of a session: from a program, a timed list and the sizes of a board.
ghost use Rattle.std.specs.Prelude.{◌≡◌, true, IfOk, nat_le};
ghost use Rattle.std.specs.List.{list_all};
ghost use Rattle.rv_monitor.specs.Opening.{Opens};

use crate::session::Session;
use rv_board::{BootFault, BootedBoard};
use rv_cache::DecodeCache;
use rv_program::Program;
use rv_ram::PagedRam;
use rv_timeline::{Timeline, TimelineFault};
use std::alloc::Global;

/// Why no session is opened.
#[derive(Clone, Copy, Debug, PartialEq, Eq)]
pub enum OpenFault {
    /// This line of the timed list, counted from 1, is refused.
    Input(usize),
    /// The board doesn't boot.
    Board(BootFault),
    /// Memory ran out.
    OutOfMemory,
}

/// The fault of a timed list that can't be read.
impl From<TimelineFault> for OpenFault {
    ghost use Rattle.std.specs.Prelude.{◌≡◌};
    ghost use Rattle.rv_monitor.specs.OpenFaults.{list_fault};

    ghost from_gives = { λ why fault. fault ≡ list_fault why };

    fn from(why: TimelineFault) -> Self {
        match why {
            TimelineFault::BadLine(line) => OpenFault::Input(line),
            TimelineFault::OutOfMemory => OpenFault::OutOfMemory,
        }
    }
}

/// The fault of a board that does not start.
impl From<BootFault> for OpenFault {
    ghost use Rattle.std.specs.Prelude.{◌≡◌};
    ghost use Rattle.rv_monitor.specs.OpenFaults.{board_fault};

    ghost from_gives = { λ why fault. fault ≡ board_fault why };

    fn from(why: BootFault) -> Self {
        match why {
            BootFault::OutOfMemory => OpenFault::OutOfMemory,
            _ => OpenFault::Board(why),
        }
    }
}

/// Opens a session of a program: reads a timed list, and boots the program's image on a board of these sizes. The
/// session may take `limit` steps, and has taken none.
///
/// # Errors
///
/// The first fault that applies: of the timed list, of the number of pages, of the number of slots, of the
/// image, which is too large. `OutOfMemory` may come in place of any result.
#[tactic(auto, using(std::proofs::lemmas::Result::err_from_is_err_and, crate::proofs::OpenFaults::board_refused, crate::proofs::OpenFaults::list_refused))]
pub fn open_session(
    alloc: Global,
    program: Program,
    inputs: &[u8],
    pages: u32,
    slots: u32,
    limit: u64,
) -> Result<Session<PagedRam, DecodeCache>, OpenFault>
    ensures opened { Opens program inputs.now pages slots limit result }
    ensures steps { IfOk result (λ s. list_all (λ x. nat_le x.step 9999999999) s.timed.inputs ≡ true) }
{
    let timeline = Timeline::read(alloc, inputs)?;
    let board = BootedBoard::boot(alloc, &program, pages, slots)?;
    Ok(Session::new(alloc, board, timeline, program, limit))
}
