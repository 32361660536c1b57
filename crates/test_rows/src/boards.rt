//! The boards of a row: one over flat memory without a cache, and three over pages with caches of several
//! sizes.
use crate::calls::{calls_agree, more_calls_agree};
use crate::checked::{Checked, Wrong, check};
use crate::compare::same_everywhere;
use crate::devices::append_devices;
use crate::row::{Answers, Appended, Row, append_answers};
use rv_asm::{FaultKind, Program, assemble};
use rv_board::{Board, BootFault, BootedBoard};
use rv_cache::{DecodeCache, Decoded, NoCache};
use rv_monitor::{Next, OpenFault, Session, open_session};
use rv_ram::{ByteMemory, FlatMemory, PagedRam};
use rv_timeline::Timeline;
use std::alloc::Global;

const NO_BOARD: Wrong = Wrong::What("the board doesn't boot");

const NO_TIMELINE: Wrong = Wrong::What("the timed list is refused");

/// Assembles a source. Where memory runs out, the fault has to name no line.
pub fn assembled(alloc: Global, source: &[u8]) -> Checked<Program> {
    match assemble(alloc, source) {
        Ok(program) => Ok(program),
        Err(fault) if fault.line == 0 && fault.kind == FaultKind::OutOfMemory => {
            Err(Wrong::OutOfMemory)
        }
        Err(_) => Err(Wrong::What("the source is refused")),
    }
}

/// Returns the program of the row's source.
pub fn program(alloc: Global, row: Row<'_>) -> Checked<Program> {
    let source = row.lines_of(alloc, b' ')?;
    assembled(alloc, &source)
}

/// Reads a timed list.
pub fn timeline(alloc: Global, timed: &[u8]) -> Checked<Timeline> {
    Timeline::read(alloc, timed).ok().ok_or(NO_TIMELINE)
}

/// Returns how many steps the row's boards may take.
pub fn limit(row: Row<'_>) -> u64 {
    row.number_of(b'=')
}

// A function that owns a board drops it at each exit, which costs proof. So each of these only makes one, and the others
// lend theirs to a function that checks it.

/// Returns a board over a page of flat memory, without a cache.
pub fn flat_board(alloc: Global, program: &Program) -> Checked<Board<FlatMemory, NoCache>> {
    let memory = FlatMemory::new(alloc, 1)?;
    match Board::with_parts(alloc, program, memory, NoCache) {
        Ok(board) => Ok(board),
        Err(_) => Err(NO_BOARD),
    }
}

/// Returns a board over paged memory, with a cache of `slots` slots.
pub fn paged_board(
    alloc: Global,
    program: &Program,
    pages: u32,
    slots: u32,
) -> Checked<BootedBoard> {
    match BootedBoard::boot(alloc, program, pages, slots) {
        Ok(board) => Ok(board),
        Err(BootFault::OutOfMemory) => Err(Wrong::OutOfMemory),
        Err(_) => Err(NO_BOARD),
    }
}

type FlatBoard = Board<FlatMemory, NoCache>;

type FlatSession = Session<FlatMemory, NoCache>;

/// A session over paged memory.
pub type PagedSession = Session<PagedRam, DecodeCache>;

/// Returns a session of up to `limit` steps over paged memory, with a cache of `slots` slots.
pub fn session(
    alloc: Global,
    program: Program,
    timed: &[u8],
    pages: u32,
    slots: u32,
    limit: u64,
) -> Checked<PagedSession> {
    match open_session(alloc, program, timed, pages, slots, limit) {
        Ok(session) => Ok(session),
        Err(OpenFault::OutOfMemory) => Err(Wrong::OutOfMemory),
        Err(OpenFault::Input(_)) => Err(NO_TIMELINE),
        Err(OpenFault::Board(_)) => Err(NO_BOARD),
    }
}

/// Returns a session of the row over a page, with these timed inputs and a cache of `slots` slots.
pub fn paged_session(
    alloc: Global,
    row: Row<'_>,
    timed: &[u8],
    slots: u32,
) -> Checked<PagedSession> {
    session(alloc, program(alloc, row)?, timed, 1, slots, limit(row))
}

/// Returns a session of the row over flat memory.
fn flat_session(alloc: Global, row: Row<'_>, timed: &[u8]) -> Checked<FlatSession> {
    let program = program(alloc, row)?;
    let timeline = timeline(alloc, timed)?;
    let board = flat_board(alloc, &program)?;
    Ok(Session::new(alloc, board, timeline, program, limit(row)))
}

/// Appends the answer to a command.
fn append_commanded<M: ByteMemory, C: Decoded>(
    session: &mut Session<M, C>,
    command: &[u8],
    text: &mut Vec<u8>,
) -> Appended {
    if session.command(command, text)? == Next::Quit {
        text.extend_from_slice(b"no more commands\n")?;
    }
    Ok(())
}

impl<M: ByteMemory, C: Decoded> Answers for Session<M, C> {
    fn answer(&mut self, alloc: Global, mark: u8, argument: &[u8], text: &mut Vec<u8>) -> Appended {
        match mark {
            b'>' => append_commanded(self, argument, text),
            b'!' => append_devices(alloc, self.board(), text),
            _ => Ok(()),
        }
    }
}

/// The bytes with which the lines begin that are no answers.
const MARKS: &[u8] = b"# @=^>!";

/// Checks that a session gives these answers, and that its board is the same as another at the end.
fn agrees(
    alloc: Global,
    row: Row<'_>,
    session: &mut PagedSession,
    text: &[u8],
    board: &FlatBoard,
) -> Checked<()> {
    let mut answers = Vec::new(alloc);
    append_answers(alloc, row, MARKS, session, &mut answers)?;
    check(answers.as_slice() == text, "the boards answer differently")?;
    let same = same_everywhere(session.board(), board);
    check(same, "the boards are different at the end")
}

/// Checks the same of a session over pages, with a cache of `slots` slots.
fn pages_agree(
    alloc: Global,
    row: Row<'_>,
    timed: &[u8],
    slots: u32,
    text: &[u8],
    board: &FlatBoard,
) -> Checked<()> {
    let mut session = paged_session(alloc, row, timed, slots)?;
    agrees(alloc, row, &mut session, text, board)
}

/// Appends the row with the answers of a session over flat memory, and checks that those over pages are the same.
fn append_common_answers(
    alloc: Global,
    row: Row<'_>,
    timed: &[u8],
    session: &mut FlatSession,
    text: &mut Vec<u8>,
) -> Checked<()> {
    append_answers(alloc, row, MARKS, session, text)?;
    for slots in [64, 1024, 4096] {
        pages_agree(alloc, row, timed, slots, text, session.board())?;
    }
    Ok(())
}

/// Appends the row with the answers of its boards.
fn answer_all(alloc: Global, row: Row<'_>, timed: &[u8], text: &mut Vec<u8>) -> Checked<()> {
    let mut session = flat_session(alloc, row, timed)?;
    append_common_answers(alloc, row, timed, &mut session, text)
}

/// Appends the row with the answers of its boards, which have to agree.
pub fn answer(alloc: Global, row: Row<'_>, text: &mut Vec<u8>) -> Checked<()> {
    let timed = row.lines_of(alloc, b'@')?;
    calls_agree(alloc, row, &timed)?;
    if row.has(b'^') {
        let count = u32::try_from(row.number_of(b'^')).unwrap_or(0);
        more_calls_agree(alloc, row, &timed, count)?;
    }
    answer_all(alloc, row, &timed, text)
}
