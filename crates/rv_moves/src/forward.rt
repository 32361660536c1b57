//! Runs.
ghost use Rattle.std.specs.Prelude.{◌≡◌, IfOk, OnOk, is_some, true};
ghost use Rattle.rv_monitor.specs.State.{after};
ghost use Rattle.rv_monitor.specs.Stops.{may_step, steps_between};
ghost use Rattle.rv_recording.specs.Recording.{with_timed};
ghost use Rattle.rv_recording.specs.Until.{HasRun};
ghost use Rattle.rv_moves.specs.Runs as spec;
ghost use Rattle.rv_moves.specs.Runs.{end_here, open_in, reached, run_ends, step_open};

use crate::watch::Watches;
use rv_base::NoMemory;
use rv_board::BootedBoard;
use rv_cache::DecodeCache;
use rv_hart::Outcome;
use rv_monitor::Session;
use rv_ram::PagedRam;
use rv_recording::{End, Recording};

/// What a run goes on for.
#[derive(Clone, Copy)]
pub enum Aim {
    /// A breakpoint or an access to watched bytes.
    Stop,
    /// One of those, or a pc at none of some addresses, outside of interrupt handlers: from the first one on, below the
    /// second.
    Outside(u32, u32),
}

/// Returns whether an interrupt came with a step.
#[tactic(auto, unfolding(crate::specs::Runs::is_interrupt))]
pub fn is_interrupt(outcome: Outcome) -> bool
    ensures { result ≡ spec.is_interrupt outcome }
{
    match outcome {
        Outcome::Trapped { cause, .. } => cause >= 1 << 31,
        _ => false,
    }
}

impl Aim {
    /// Returns whether a board stands where the run goes, with this number of open handlers and calls.
    pub fn is_reached(&self, calls: u64, board: &BootedBoard) -> bool
        ensures { result ≡ reached self.now calls board.now }
    {
        match *self {
            Aim::Stop => false,
            Aim::Outside(from, to) => {
                let pc = board.pc();
                calls == 0 && !(from <= pc && pc < to)
            }
        }
    }
}

/// Returns why a run is over where a session stands, if it is. `has_moved` tells whether it has taken a step.
fn end_here(
    watches: &Watches,
    aim: &Aim,
    calls: u64,
    has_moved: bool,
    session: &Session<PagedRam, DecodeCache>,
) -> Option<End>
    ensures { result ≡ end_here watches.now aim.now calls has_moved session.now }
{
    let board = session.board();
    if board.halted().is_some() {
        return Some(End::Halted);
    }
    if watches.met(board).is_some() || (has_moved && aim.is_reached(calls, board)) {
        return Some(End::Reached);
    }
    if has_moved && session.has_break(board.pc()) {
        return Some(End::Breakpoint);
    }
    if session.taken() < session.limit() {
        return None;
    }
    Some(End::Stuck)
}

/// Takes a step, outside of handlers, and counts the handler that it opens.
#[tactic(auto, unfolding(crate::specs::Runs::step_open))]
fn step_outside(recording: &mut Recording, calls: &mut u64) -> Result<(), NoMemory>
    requires may { may_step recording.old.session ≡ true }
    requires none { calls.old ≡ 0 }
    ensures state { OnOk result (recording.new ≡ with_timed recording.old (after recording.old.session.timed 1)) }
    ensures calls { OnOk result (calls.new ≡ step_open calls.old recording.old.session.timed) }
    ensures others { recording.new ≡ record recording.old { session = recording.new.session } }
{
    if let Some(outcome) = recording.take_step()? {
        *calls = if is_interrupt(outcome) { 1 } else { 0 };
    }
    Ok(())
}

/// Takes a step, and counts the handlers and calls that are open after it.
fn take_step(recording: &mut Recording, calls: &mut u64) -> Result<(), NoMemory>
    requires may { may_step recording.old.session ≡ true }
    ensures state { OnOk result (recording.new ≡ with_timed recording.old (after recording.old.session.timed 1)) }
    ensures calls { OnOk result (calls.new ≡ step_open calls.old recording.old.session.timed) }
    ensures others { recording.new ≡ record recording.old { session = recording.new.session } }
{
    if *calls == 0 {
        return step_outside(recording, calls);
    }
    // It tells that the inputs of all steps so far were given.
    let _board = recording.session().board();
    let _end = recording.run_out(calls, None, 1)?;
    Ok(())
}

/// Takes steps until one before which the next instruction meets a watch, or after which the board has halted, stands at
/// a breakpoint or has come to what the run goes on for, at most `most`, and returns which it was. The watches are asked
/// before the first step, too. `calls` is the number of open handlers and calls: 0 as a run begins.
///
/// # Errors
///
/// `NoMemory` if memory runs out at a step. The steps before it are taken.
pub fn run(
    recording: &mut Recording,
    watches: &Watches,
    aim: &Aim,
    calls: &mut u64,
    most: u64,
) -> Result<End, NoMemory>
    ensures ok { IfOk result (HasRun (run_ends watches.now aim.now calls.old recording.old.session) most
        recording.old.session recording.new.session) }
    ensures calls { OnOk result (calls.new ≡ open_in calls.old recording.old.session.timed
        (steps_between recording.old.session.timed recording.new.session.timed)) }
    ensures others { recording.new ≡ record recording.old { session = recording.new.session } }
{
    if let Some(end) = end_here(watches, aim, *calls, false, recording.session()) {
        return Ok(end);
    }
    for done in 0..most {
        take_step(recording, calls)?;
        if let Some(end) = end_here(watches, aim, *calls, true, recording.session()) {
            return Ok(end);
        }
    }
    Ok(End::Limit)
}
