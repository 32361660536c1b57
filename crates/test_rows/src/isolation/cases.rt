//! Cases of two boards, which may differ in what user code may not see, and their checks.
use crate::boards::{assembled, paged_board};
use crate::checked::{Checked, Wrong, check};
use crate::compare::{same_but_for_memory, same_everywhere};
use crate::devices::PENDING;
use rv_asm::Program;
use rv_board::{BootedBoard, Event, TrapRecord};
use rv_plic::Source;
use rv_pmp::Mode;
use std::alloc::Global;

/// How a case ends.
#[derive(Clone, Copy)]
pub enum End {
    /// With a trap of this cause.
    Cause(u32),
    /// With this trap.
    Trap(TrapRecord),
    /// At this pc.
    Pc(u32),
}

/// What a board is given before user code, with a step after it: nothing, a byte and a high level of a line in one of both
/// orders, or two levels.
#[derive(Clone, Copy)]
pub enum Given {
    Nothing,
    LevelAndByte,
    ByteAndLevel,
    Levels(bool, bool),
}

/// What two boards do, and how they end.
#[derive(Clone, Copy)]
pub struct Case {
    /// What each board is given first.
    pub one: Given,
    pub other: Given,
    /// Whether they then go on to the first step of user code.
    pub to_user_code: bool,
    /// The events of both as long as user code runs, up to eight: the first is a byte or a step, and the others are steps.
    pub byte_first: bool,
    pub events: usize,
    /// How many of these events are done.
    pub done: usize,
    pub end: End,
    /// How many steps there are then, unless only the cause is known, how many bytes wait, and which sources are pending.
    pub steps: u64,
    pub waiting: usize,
    pub pending: u32,
    /// Addresses, each with the bytes that the boards have there at the end.
    pub bytes: &'static [(u32, [u8; 2])],
    /// Whether the boards may have different memories.
    pub differ: bool,
}

/// A case of user code without events.
pub const USER_CODE: Case = Case {
    one: Given::Nothing,
    other: Given::Nothing,
    to_user_code: true,
    byte_first: false,
    events: 0,
    done: 0,
    end: End::Cause(0),
    steps: 0,
    waiting: 0,
    pending: 0,
    bytes: &[],
    differ: false,
};

/// Returns the last trap.
fn last_trap(board: &BootedBoard) -> Option<TrapRecord> {
    board.trap(board.trap_count().checked_sub(1)?)
}

/// Whether a board is at this pc at the end.
fn is_at(board: &BootedBoard, case: &Case, pc: u32) -> bool {
    board.pc() == pc
        && board.steps() == case.steps
        && board.serial().waiting() == case.waiting
        && board.plic().peek(PENDING) == case.pending
}

/// Whether a board ends so.
fn ends(board: &BootedBoard, case: &Case) -> bool {
    let last = last_trap(board);
    match case.end {
        End::Cause(cause) => match last {
            Some(trap) => trap.cause == cause,
            None => false,
        },
        End::Trap(trap) => {
            board.mode() == Mode::Machine && last == Some(trap) && is_at(board, case, 0)
        }
        End::Pc(pc) => is_at(board, case, pc),
    }
}

/// Runs events, none of which may be refused.
fn run(board: &mut BootedBoard, events: &[Event]) -> Checked<()> {
    match board.run(events) {
        Ok(()) => Ok(()),
        Err(_) => Err(Wrong::OutOfMemory),
    }
}

/// Runs a board up to the first step of user code.
fn run_to_user_code(board: &mut BootedBoard) -> Checked<()> {
    for _ in 0..64 {
        if board.mode() == Mode::User {
            return Ok(());
        }
        run(board, &[Event::Step])?;
    }
    Err(Wrong::What("no user code is reached"))
}

/// Returns the event that the line of source 4 rises or falls.
fn line(high: bool) -> Option<Event> {
    let source = Source::new(4)?;
    Some(Event::Line { source, high })
}

/// Runs two events and a step.
fn run_after(board: &mut BootedBoard, first: Option<Event>, second: Option<Event>) -> Checked<()> {
    let (Some(first), Some(second)) = (first, second) else {
        return Err(Wrong::What("there is no such source"));
    };
    run(board, &[first, second, Event::Step])
}

/// Gives a board one of these.
fn give(board: &mut BootedBoard, given: Given) -> Checked<()> {
    let byte = Some(Event::Rx(65));
    match given {
        Given::Nothing => Ok(()),
        Given::LevelAndByte => run_after(board, line(true), byte),
        Given::ByteAndLevel => run_after(board, byte, line(true)),
        Given::Levels(first, second) => run_after(board, line(first), line(second)),
    }
}

/// Does what a board does before the events of user code.
fn begin(board: &mut BootedBoard, given: Given, to_user_code: bool) -> Checked<()> {
    give(board, given)?;
    if to_user_code {
        run_to_user_code(board)?;
    }
    Ok(())
}

/// Whether `done` of these events are done, none of them refused, as long as user code runs.
fn does(board: &mut BootedBoard, events: &[Event], done: usize) -> bool {
    board.run_user(events) == Ok(done)
}

/// Whether the boards have these bytes.
fn have_bytes(one: &BootedBoard, other: &BootedBoard, bytes: &[(u32, [u8; 2])]) -> bool {
    for &(address, [first, second]) in bytes {
        if one.ram(address) != Some(first) || other.ram(address) != Some(second) {
            return false;
        }
    }
    true
}

/// Whether two boards are the same, but for their memories where these may differ.
fn are_same(one: &BootedBoard, other: &BootedBoard, differ: bool) -> bool {
    if differ {
        same_but_for_memory(one, other)
    } else {
        same_everywhere(one, other)
    }
}

/// Checks the events of user code on both boards, and that none is done again after a trap.
fn check_events(one: &mut BootedBoard, other: &mut BootedBoard, case: &Case) -> Checked<()> {
    let mut all = [Event::Step; 8];
    if case.byte_first {
        all[0] = Event::Rx(1);
    }
    let events = all.split_at(case.events.min(8)).0;
    let done = does(one, events, case.done) && does(other, events, case.done);
    check(done && ends(one, case), "the events of user code")?;
    let again = does(one, events, 0) && does(other, events, 0);
    check(again && ends(one, case), "the events after a trap")
}

/// Checks a case of two boards.
fn check_boards(one: &mut BootedBoard, other: &mut BootedBoard, case: &Case) -> Checked<()> {
    begin(one, case.one, case.to_user_code)?;
    begin(other, case.other, case.to_user_code)?;
    check(
        are_same(one, other, case.differ),
        "two boards before user code",
    )?;
    check_events(one, other, case)?;
    check(
        have_bytes(one, other, case.bytes),
        "the bytes of two boards",
    )?;
    check(are_same(one, other, case.differ), "two boards at the end")
}

/// Checks a case of a board and another, which has this program.
fn check_with(alloc: Global, one: &mut BootedBoard, program: &Program, case: &Case) -> Checked<()> {
    let mut other = paged_board(alloc, program, 1, 1024)?;
    check_boards(one, &mut other, case)
}

/// Checks a case of boards with these programs.
fn check_programs(alloc: Global, one: &Program, other: &Program, case: &Case) -> Checked<()> {
    let mut board = paged_board(alloc, one, 1, 1024)?;
    check_with(alloc, &mut board, other, case)
}

/// Checks a case of boards with these sources.
pub fn check_case(alloc: Global, one: &[u8], other: &[u8], case: &Case) -> Checked<()> {
    let first = assembled(alloc, one)?;
    let second = assembled(alloc, other)?;
    check_programs(alloc, &first, &second, case)
}
