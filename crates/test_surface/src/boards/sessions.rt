//! Sessions whose steps are refused because memory ran out. Runs of test_rows with a refused allocation have refused
//! breakpoints and commands.
use super::memories::OwnMemory;
use super::programs::program;
use rv_asm::Program;
use rv_board::Board;
use rv_cache::{Decoded, NoCache};
use rv_monitor::{Session, Stop};
use rv_ram::{ByteMemory, FlatMemory};
use rv_timeline::Timeline;
use std::alloc::Global;
use std::process::Abort;

// The helpers have no contracts, so that the proof of a test carries no state from call to call.

/// Boots a board whose memory refuses `refusals` writes after those of the image.
fn boot(
    rt: &impl Abort,
    alloc: Global,
    program: &Program,
    refusals: u32,
) -> Board<OwnMemory, NoCache> {
    let memory = OwnMemory {
        memory: FlatMemory::new(alloc, 2).expect(rt, "no memory"),
        good: 12,
        refusals,
    };
    let board = Board::with_parts(alloc, program, memory, NoCache).ok();
    board.expect(rt, "the board doesn't boot")
}

/// Reads a timed list that has no fault.
fn timeline(rt: &impl Abort, alloc: Global, timed: &[u8]) -> Timeline {
    let timeline = Timeline::read(alloc, timed).ok();
    timeline.expect(rt, "the timed list is refused")
}

/// Returns a session over a store to the second page and then a jump to itself. Its memory refuses `refusals`
/// writes after those of the image.
fn session(
    rt: &impl Abort,
    alloc: Global,
    timed: &[u8],
    refusals: u32,
) -> Session<OwnMemory, NoCache> {
    let program = program(rt, alloc, b"lui t0,0x80001\nsw t0,0(t0)\nj .");
    let board = boot(rt, alloc, &program, refusals);
    Session::new(alloc, board, timeline(rt, alloc, timed), program, 3)
}

/// Does `n` steps. Returns why they stopped, or `None` where they were refused.
fn go<M: ByteMemory, C: Decoded>(session: &mut Session<M, C>, n: u64) -> Option<Stop> {
    session.go(n).ok()
}

/// Sets a breakpoint, if there is one. Whether it is set then.
fn set<M: ByteMemory, C: Decoded>(session: &mut Session<M, C>, breakpoint: Option<u32>) -> bool {
    match breakpoint {
        Some(address) => session.set_break(address).is_ok() && session.has_break(address),
        None => true,
    }
}

/// What a session shows of its board: how many steps were taken, and how many its board did; the pc; how many
/// received bytes wait; the highest byte of the word that is stored.
type Seen = (u64, u64, u32, usize, Option<u8>);

fn seen<M: ByteMemory, C: Decoded>(session: &Session<M, C>) -> Seen {
    let board = session.board();
    let (waiting, byte) = (board.serial().waiting(), board.ram(0x8000_1003));
    (session.taken(), board.steps(), board.pc(), waiting, byte)
}

/// A call of `go`: its steps, its answer, and what is seen after it.
type Call = (u64, Option<Stop>, Seen);

/// A timed list, how many writes are refused, a breakpoint, and calls.
type Row = (&'static [u8], u32, Option<u32>, &'static [Call]);

const TIMED: &[u8] = b"0 rx 40\n1 rx 41\n1 rx 42\n2 rx 43";

/// What a session shows after the refused store, and after the store.
const REFUSED: Seen = (1, 1, 0x8000_0004, 3, Some(0));

const STORED: Seen = (2, 2, 0x8000_0008, 3, Some(0x80));

/// Calls of which some are refused. The inputs before the refused step are given once, and none after it. Without inputs
/// the steps of a call are one burst, which comes to the store in its second step, and then begins with it. And calls from
/// before a breakpoint at the store.
static ROWS: [Row; 3] = [
    (
        TIMED,
        1,
        None,
        &[
            (9, None, REFUSED),
            (1, Some(Stop::Limit), STORED),
            (9, Some(Stop::Limit), (3, 3, 0x8000_0008, 4, Some(0x80))),
        ],
    ),
    (
        b"",
        2,
        None,
        &[
            (3, None, (1, 1, 0x8000_0004, 0, Some(0))),
            (2, None, (1, 1, 0x8000_0004, 0, Some(0))),
            (9, Some(Stop::Limit), (3, 3, 0x8000_0008, 0, Some(0x80))),
        ],
    ),
    (
        TIMED,
        2,
        Some(0x8000_0004),
        &[
            (9, Some(Stop::Breakpoint), (1, 1, 0x8000_0004, 1, Some(0))),
            (9, None, REFUSED),
            (0, Some(Stop::Limit), REFUSED),
            (1, None, REFUSED),
            (1, Some(Stop::Limit), STORED),
        ],
    ),
];

/// Checks the calls of a session.
fn check_calls<M: ByteMemory, C: Decoded>(
    rt: &impl Abort,
    session: &mut Session<M, C>,
    calls: &[Call],
) {
    for &(n, stop, after) in calls {
        assert!(rt; go(session, n) == stop);
        assert!(rt; seen(session) == after);
    }
}

/// Checks the calls of a row.
fn check(rt: &impl Abort, alloc: Global, row: &Row) {
    let mut session = session(rt, alloc, row.0, row.1);
    assert!(rt; set(&mut session, row.2));
    check_calls(rt, &mut session, row.3);
}

#[test]
fn the_next_call_goes_on_with_the_refused_step(rt: HostRuntime) {
    for row in ROWS.iter() {
        check(&rt, rt.alloc(), row);
    }
}
