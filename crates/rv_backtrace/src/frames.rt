//! The frames of the calls in which a board stands.
ghost use Rattle.std.specs.Prelude.{◌≡◌, IfOk};
ghost use Rattle.rv_asm.specs.Seen.{seen};
ghost use Rattle.rv_backtrace.specs.Backtrace as spec;

use crate::calls::is_call;
use crate::level::{Level, innermost, level_above};
use crate::rows::row_at;
use rv_answers::{Backtrace, Frame, Many, Outermost, Reached, push};
use rv_asm::Listing;
use rv_base::NoMemory;
use rv_board::BootedBoard;
use rv_frames::{Entry, FrameRow, Stack};
use std::alloc::Global;

/// How many frames are told at most above the first.
const MOST_ABOVE: usize = 63;

/// Returns a level as a frame.
fn frame_of(reached: Reached, level: &Level) -> Frame
    ensures { result ≡ spec.frame_of reached level.now }
{
    Frame {
        address: level.address,
        sp: level.sp,
        reached,
    }
}

/// Returns how a level's function was entered from the one above.
#[tactic(auto, unfolding(crate::specs::Backtrace::reached_by))]
fn reached_by(board: &BootedBoard, row: &FrameRow, above: &Level) -> Reached
    ensures { result ≡ spec.reached_by board.now row.now above.now row.now.entry }
{
    match row.entry {
        Some(Entry::Handler) => Reached::Trap(row.wrote_mepc),
        _ => Reached::Call(!is_call(board, above.address, row.start)),
    }
}

/// Returns whether a level is further up than another on the same stack.
fn is_further(below: &Level, above: &Level) -> bool
    ensures { result ≡ spec.is_further below.now above.now }
{
    if below.sp == above.sp {
        return below.address != above.address;
    }
    below.sp < above.sp
}

/// Returns whether a stack is the one of the caller.
fn is_own(stack: Stack) -> bool
    ensures { result ≡ spec.is_own stack }
{
    match stack {
        Stack::Own => true,
        Stack::Exchanged => false,
        Stack::Lost => false,
    }
}

/// Returns the frame of the level above another, if it is one.
#[tactic(auto, unfolding(crate::specs::Backtrace::frame_above))]
fn frame_above(
    listing: Listing<'_>,
    board: &BootedBoard,
    row: &FrameRow,
    below: &Level,
    above: Level,
) -> Result<(Level, Frame), Outermost>
    ensures { result ≡ spec.frame_above (seen listing.entry) board.now row.now below.now above }
{
    if listing.line_at(above.address).is_none() {
        return Err(Outermost::Outside(above.address));
    }
    if is_own(row.stack) && !is_further(below, &above) {
        return Err(Outermost::Below(above.sp));
    }
    let frame = frame_of(reached_by(board, row, &above), &above);
    Ok((above, frame))
}

/// Returns the level above one, with its frame.
#[tactic(auto, unfolding(crate::specs::Backtrace::above))]
fn above(
    listing: Listing<'_>,
    rows: &[FrameRow],
    board: &BootedBoard,
    level: &Level,
) -> Result<(Level, Frame), Outermost>
    ensures { result ≡ spec.above (seen listing.entry) rows.now board.now level.now }
{
    let row = row_at(rows, level.address).ok_or(Outermost::NoFunction)?;
    let next = level_above(board, &row, level)?;
    frame_above(listing, board, &row, level, next)
}

/// Returns frames, and why no more are told.
fn traced(frames: Vec<Frame>, outermost: Outermost) -> Backtrace
    ensures { result ≡ record { frames = frames.items; outermost = outermost } }
{
    Backtrace {
        frames: Many::of(frames),
        outermost,
    }
}

/// Returns the frames of the calls in which a board stands, the innermost first, by the rows of its source's frames:
/// the first is where pc is, and each other one where the row of the one before leads.
///
/// # Errors
///
/// `NoMemory` if memory runs out.
#[tactic(auto, using(crate::proofs::Walked::begins, crate::proofs::Walked::goes_up, crate::proofs::Walked::ends, crate::proofs::Walked::has_more, crate::proofs::Walked::all_told))]
pub fn backtrace(
    alloc: Global,
    listing: Listing<'_>,
    rows: &[FrameRow],
    board: &BootedBoard,
) -> Result<Backtrace, NoMemory>
    ensures { IfOk result (λ f. f ≡ spec.backtrace (seen listing.entry) rows.now board.now) }
{
    let mut level = innermost(board);
    let mut frames = Vec::new(alloc);
    push(&mut frames, frame_of(Reached::Here, &level))?;
    for told in 0..MOST_ABOVE {
        match above(listing, rows, board, &level) {
            Ok((next, frame)) => {
                push(&mut frames, frame)?;
                level = next;
            }
            Err(outermost) => return Ok(traced(frames, outermost)),
        }
    }
    match above(listing, rows, board, &level) {
        Ok(_) => Ok(traced(frames, Outermost::More)),
        Err(outermost) => Ok(traced(frames, outermost)),
    }
}
