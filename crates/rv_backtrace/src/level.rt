//! Levels of calls, and the one above another.
ghost use Rattle.std.specs.Prelude.{◌≡◌};
ghost use Rattle.rv_backtrace.specs.Backtrace as spec;

use rv_answers::Outermost;
use rv_board::BootedBoard;
use rv_frames::{Entry, FrameRow, Kept, Stack};
use rv_isa::Reg;
use rv_monitor::word_at;

/// Where a walk up the calls stands.
#[derive(Clone, Copy)]
pub(crate) struct Level {
    /// The address of an instruction: the next one, the call of the level below, or where that was entered by a trap.
    pub(crate) address: u32,
    /// What sp was there.
    pub(crate) sp: u32,
    /// What ra was there, if that is known.
    pub(crate) ra: Option<u32>,
    /// What mepc was there, if that is known.
    pub(crate) mepc: Option<u32>,
}

/// The number of mscratch.
const MSCRATCH: u16 = 0x340;

/// The number of mepc.
const MEPC: u16 = 0x341;

/// Returns where a board stands.
pub(crate) fn innermost(board: &BootedBoard) -> Level
    ensures { result ≡ spec.innermost board.now }
{
    Level {
        address: board.pc(),
        sp: board.reg(Reg::of(2)),
        ra: Some(board.reg(Reg::of(1))),
        mepc: board.csr(MEPC),
    }
}

/// Returns where the frame of a level begins.
fn base_of(row: &FrameRow, level: &Level) -> Option<u32>
    ensures { result ≡ spec.base_of row.now level.now }
{
    match row.offset {
        Some(offset) => Some(level.sp.wrapping_add(offset)),
        None => None,
    }
}

/// Returns the value of ra with which a level's function began.
#[tactic(auto, unfolding(crate::specs::Backtrace::ra_by))]
fn ra_of(board: &BootedBoard, row: &FrameRow, level: &Level) -> Option<u32>
    ensures { result ≡ spec.ra_of board.now row.now level.now }
{
    match row.ra {
        Kept::InRa => level.ra,
        Kept::In(register) => Some(board.reg(Reg::of(register % 32))),
        Kept::At(distance) => match base_of(row, level) {
            Some(base) => word_at(board, base.wrapping_add(distance)),
            None => None,
        },
        Kept::Lost => None,
    }
}

/// Returns sp of a level's caller.
#[tactic(auto, unfolding(crate::specs::Backtrace::sp_by))]
fn sp_of(board: &BootedBoard, row: &FrameRow, level: &Level) -> Result<u32, Outermost>
    ensures { result ≡ spec.sp_of board.now row.now level.now }
{
    let sp = match row.stack {
        Stack::Own => base_of(row, level),
        Stack::Exchanged => board.csr(MSCRATCH),
        Stack::Lost => None,
    };
    sp.ok_or(Outermost::NoSp)
}

/// Returns the level of a call, by where it returns to.
fn caller(level: &Level, to: u32, sp: u32) -> Level
    ensures { result ≡ spec.caller level.now to sp }
{
    Level {
        address: to.saturating_sub(4),
        sp,
        ra: None,
        mepc: level.mepc,
    }
}

/// Returns the level above one, by its row.
#[tactic(auto, unfolding(crate::specs::Backtrace::level_by))]
pub(crate) fn level_above(
    board: &BootedBoard,
    row: &FrameRow,
    level: &Level,
) -> Result<Level, Outermost>
    ensures { result ≡ spec.level_by board.now row.now level.now row.now.entry }
{
    match row.entry {
        Some(Entry::Called) => {
            let to = ra_of(board, row, level).ok_or(Outermost::NoRa)?;
            let sp = sp_of(board, row, level)?;
            Ok(caller(level, to, sp))
        }
        Some(Entry::Handler) => {
            let address = level.mepc.ok_or(Outermost::NoMepc)?;
            let sp = sp_of(board, row, level)?;
            Ok(Level {
                address,
                sp,
                ra: ra_of(board, row, level),
                mepc: None,
            })
        }
        Some(Entry::Start) => Err(Outermost::Start),
        Some(Entry::Resumed) => Err(Outermost::Resumed),
        None => Err(Outermost::NoFunction),
    }
}
