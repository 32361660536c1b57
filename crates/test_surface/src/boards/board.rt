//! A board whose memory refuses a write. Rows of test_rows have the boot faults, and its runs with a refused allocation
//! the steps that are asked again.
use super::memories::OwnMemory;
use super::programs::program;
use rv_board::{Board, Event};
use rv_cache::{DecodeCache, Decoded};
use rv_ram::{ByteMemory, FlatMemory};
use std::alloc::Global;
use std::process::Abort;

// The helpers have no contracts about the board, so that the proof of a test carries no state from call to call.

/// Whether a step is done, and not refused for lack of memory.
pub fn is_done<M: ByteMemory, C: Decoded>(board: &mut Board<M, C>) -> bool {
    board.apply(Event::Step).is_ok()
}

/// Returns the word at 0x80001000.
fn stored<M: ByteMemory, C: Decoded>(board: &Board<M, C>) -> Option<u32> {
    Some(u32::from_le_bytes([
        board.ram(0x8000_1000)?,
        board.ram(0x8000_1001)?,
        board.ram(0x8000_1002)?,
        board.ram(0x8000_1003)?,
    ]))
}

/// Returns how many events of a run are done before one is refused.
fn done_of<M: ByteMemory, C: Decoded>(board: &mut Board<M, C>, events: &[Event]) -> Option<usize> {
    match board.run(events) {
        Ok(()) => None,
        Err(stopped) => Some(stopped.done),
    }
}

/// A source that stores to the second page.
const STORES: &[u8] = b"lui t0,0x80001\nsw t0,0(t0)";

/// Returns a board of `STORES`, whose memory refuses a write after those of the image. It has a decoded cache, with
/// which a hart takes steps in bursts, but over this memory it takes none.
fn boot_refusing(rt: &impl Abort, alloc: Global) -> Board<OwnMemory, DecodeCache> {
    let memory = OwnMemory {
        memory: FlatMemory::new(alloc, 2).expect(rt, "no memory"),
        good: 8,
        refusals: 1,
    };
    let program = program(rt, alloc, STORES);
    let cache = DecodeCache::new(alloc, 64).expect(rt, "no memory");
    let board = Board::with_parts(alloc, &program, memory, cache).ok();
    board.expect(rt, "the board doesn't boot")
}

/// Checks that a run stops at a refused store, which is done when it is asked again.
fn check_stop_at_store<M: ByteMemory, C: Decoded>(rt: &impl Abort, board: &mut Board<M, C>) {
    let events = [Event::Step, Event::Rx(1), Event::Step];
    assert!(rt; done_of(board, &events) == Some(2) && stored(board) == Some(0));
    assert!(rt; board.steps() == 1 && board.serial().waiting() == 1);
    assert!(rt; is_done(board) && stored(board) == Some(0x8000_1000));
    assert!(rt; board.steps() == 2);
}

#[test]
fn a_run_stops_at_a_refused_step(rt: HostRuntime) {
    check_stop_at_store(&rt, &mut boot_refusing(&rt, rt.alloc()));
}
