//! Calls of many steps and runs of many events, beside a board over another memory, without a cache, that
//! takes each alone.
//!
//! The first steps of each row are taken so, and those of a row that asks for it also with random inputs
//! and with breakpoints.
use crate::boards::{
    PagedSession, flat_board, limit, paged_board, paged_session, program, timeline,
};
use crate::checked::{Checked, check};
use crate::compare::{Calls, event, same_in_calls, same_in_runs};
use crate::row::{Row, append_shown};
use rv_asm::Program;
use rv_base::RAM_BASE;
use rv_board::{BootedBoard, Event};
use rv_timeline::TimedInput;
use std::alloc::{AllocError, Global};

/// The largest numbers of steps of a call.
const SIZES: [u64; 5] = [1, 2, 7, 64, 1_000_000];

/// The most steps of a row that are taken so.
const STEPS: u64 = 240;

/// Returns the next of a sequence of random numbers.
fn next_random(random: u32) -> u32 {
    random.wrapping_mul(1_664_525).wrapping_add(1_013_904_223)
}

/// Appends the inputs before a step that a random number says.
fn append_inputs(
    alloc: Global,
    time: u64,
    random: u32,
    timed: &mut Vec<u8>,
) -> Result<(), AllocError> {
    let level = random >> 30 & 1;
    let lines = match random >> 26 & 31 {
        0 => format!(in alloc; "{time} rx 4{level}\n"),
        1 => format!(in alloc; "{time} line 3 {level}\n"),
        2 => format!(in alloc; "{time} line 25 {level}\n"),
        3 => format!(in alloc; "{time} line 4 1\n{time} line 4 0\n"),
        _ => return Ok(()),
    };
    append_shown(lines, timed)
}

/// Returns a timed list in which about each eighth step has an input.
fn random_inputs(alloc: Global, seed: u32) -> Result<Vec<u8>, AllocError> {
    let mut timed = Vec::new(alloc);
    let mut random = seed;
    for time in 0..STEPS {
        random = next_random(random);
        append_inputs(alloc, time, random, &mut timed)?;
    }
    Ok(timed)
}

/// Appends the inputs of a time, and a step after them.
fn append_events(
    time: u64,
    inputs: &[TimedInput],
    events: &mut Vec<Event>,
) -> Result<(), AllocError> {
    for timed in inputs {
        if timed.step == time {
            events.extend_from_slice(&[event(timed.input)])?;
        }
    }
    events.extend_from_slice(&[Event::Step])
}

/// Returns the first events of a timed list, with a step after the inputs of each time.
fn events_of(alloc: Global, inputs: &[TimedInput]) -> Result<Vec<Event>, AllocError> {
    let mut events = Vec::new(alloc);
    for time in 0..STEPS {
        append_events(time, inputs, &mut events)?;
    }
    Ok(events)
}

/// Checks that a session is as a board that takes each step alone.
fn is_as_alone(alloc: Global, session: &mut PagedSession, calls: Calls) -> Checked<()> {
    let mut alone = flat_board(alloc, session.program())?;
    let same = same_in_calls(session, &mut alone, calls);
    check(same, "the boards are different after calls of many steps")
}

/// Checks the same of a session of the row.
fn session_agrees(alloc: Global, row: Row<'_>, timed: &[u8], calls: Calls) -> Checked<()> {
    let mut session = paged_session(alloc, row, timed, 64)?;
    is_as_alone(alloc, &mut session, calls)
}

/// Checks sessions with these inputs in calls of each size, up to an end.
fn sessions_agree(
    alloc: Global,
    row: Row<'_>,
    timed: &[u8],
    breakpoint: Option<u32>,
    end: u64,
) -> Checked<()> {
    let steps = end.min(limit(row));
    for size in SIZES {
        let calls = Calls {
            size,
            steps,
            breakpoint,
        };
        session_agrees(alloc, row, timed, calls)?;
    }
    Ok(())
}

/// Checks that a board, which runs these events in parts, is as one that takes each alone.
fn runs_as_alone(
    alloc: Global,
    program: &Program,
    board: &mut BootedBoard,
    events: &[Event],
    size: usize,
) -> Checked<()> {
    let mut alone = flat_board(alloc, program)?;
    let same = same_in_runs(board, &mut alone, events, size);
    check(same, "the boards are different after runs of many events")
}

/// Checks the same of a board of this program.
fn board_agrees(alloc: Global, program: &Program, events: &[Event], size: u64) -> Checked<()> {
    let mut board = paged_board(alloc, program, 1, 64)?;
    runs_as_alone(alloc, program, &mut board, events, size as usize)
}

/// Checks boards that run these events in parts of each size.
fn boards_agree(alloc: Global, program: &Program, events: &[Event]) -> Checked<()> {
    for size in SIZES {
        board_agrees(alloc, program, events, size)?;
    }
    Ok(())
}

/// Checks boards with these inputs in runs of each size.
fn runs_agree(alloc: Global, row: Row<'_>, timed: &[u8]) -> Checked<()> {
    let program = program(alloc, row)?;
    let timeline = timeline(alloc, timed)?;
    let events = events_of(alloc, timeline.inputs())?;
    boards_agree(alloc, &program, &events)
}

/// Checks the first steps of the row with its own inputs.
pub fn calls_agree(alloc: Global, row: Row<'_>, timed: &[u8]) -> Checked<()> {
    sessions_agree(alloc, row, timed, None, STEPS)
}

/// Checks the first steps of the row with these inputs, in calls that end at an earlier step too and in runs of events.
fn inputs_agree(alloc: Global, row: Row<'_>, timed: &[u8]) -> Checked<()> {
    sessions_agree(alloc, row, timed, None, 97)?;
    sessions_agree(alloc, row, timed, None, STEPS)?;
    runs_agree(alloc, row, timed)
}

/// Checks the first steps of the row with its own inputs and with random ones, and with a breakpoint at each of the first
/// `count` words.
pub fn more_calls_agree(alloc: Global, row: Row<'_>, timed: &[u8], count: u32) -> Checked<()> {
    inputs_agree(alloc, row, timed)?;
    for seed in 1..3u32 {
        let random = random_inputs(alloc, seed)?;
        inputs_agree(alloc, row, &random)?;
    }
    for index in 0..count {
        let address = RAM_BASE.wrapping_add(index.wrapping_mul(4));
        sessions_agree(alloc, row, b"", Some(address), STEPS)?;
    }
    Ok(())
}
