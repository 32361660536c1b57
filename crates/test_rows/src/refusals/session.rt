//! Sessions: their lists, steps, breakpoints and commands.
use crate::boards::{PagedSession, assembled, session};
use crate::checked::{Checked, check};
use crate::refusals::is_right;
use rv_base::NoMemory;
use rv_monitor::{Next, Stop};
use std::alloc::Global;

/// Returns a session of up to `limit` steps over a source with a timed list.
fn opened(alloc: Global, source: &[u8], inputs: &[u8], limit: u64) -> Checked<PagedSession> {
    session(alloc, assembled(alloc, source)?, inputs, 2, 64, limit)
}

/// A source that sends a received byte.
const ECHO: &[u8] = b"lui t0,0x10000\nlw a0,4(t0)\nsw a0,0(t0)\n";

/// Whether a refused send leaves the board after the steps and inputs before it, and the next call gives no
/// input again.
fn sends_right(session: &mut PagedSession) -> bool {
    match session.step(3) {
        Ok(stop) => stop == Stop::Limit && has_sent(session),
        Err(NoMemory) => {
            let board = session.board();
            board.steps() == 2
                && board.serial().waiting() == 1
                && board.console().is_empty()
                && session.step(1) == Ok(Stop::Limit)
                && has_sent(session)
        }
    }
}

/// Whether the byte was sent, and the next one is in the queue.
fn has_sent(session: &PagedSession) -> bool {
    let board = session.board();
    board.steps() == 3 && board.serial().waiting() == 1 && board.console() == b"Z".as_slice()
}

/// A source whose loop is interrupted by the timer; the handler stores to a page that has only zeros.
const TIMER: &[u8] =
    b"la t0,handler\ncsrw mtvec,t0\nlui t1,0x2004\nli t2,14\nsw t2,0(t1)\nsw zero,4(t1)\nli t0,128\ncsrw mie,t0\ncsrwi mstatus,8\nloop: addi s0,s0,1\nj loop\nhandler: lui s1,0x80001\nsw s1,0(s1)\nj .\n";

/// Whether a refused breakpoint is not set, and is set when it is asked for again.
fn sets_right(session: &mut PagedSession, address: u32) -> bool {
    if let Err(NoMemory) = session.set_break(address) {
        if session.has_break(address) || session.set_break(address).is_err() {
            return false;
        }
    }
    session.has_break(address)
}

/// Whether the call after a refused step goes on with that step, up to a breakpoint.
fn goes_right(session: &mut PagedSession) -> bool {
    let mut stop = session.go(100);
    if stop.is_err() {
        if session.board().ram(0x8000_1003) != Some(0) {
            return false;
        }
        stop = session.go(100);
    }
    stop == Ok(Stop::Breakpoint)
        && session.board().pc() == 0x8000_0038
        && session.board().ram(0x8000_1003) == Some(0x80)
}

/// Commands of each kind, with their answers after `goes_right`.
const COMMANDS: [(&[u8], &[u8]); 9] = [
    (b"b 0x1", b"break 00000001\n"),
    (b"d 0x1", b"clear 00000001\n"),
    (b"x", b"?\n"),
    (b"p mcause", b"mcause=80000007\n"),
    (b"m 0x80001000 4", b"80001000: 00 10 00 80\n"),
    (b"i 0x80000038", b"80000038: 0000006f jal x0,.+0\n"),
    (b"t", b"trap cause=80000007 epc=8000002c tval=00000000\n"),
    (b"s 2", b"stop limit pc=80000038 mode=M steps=18\n"),
    (b"c", b"stop break pc=80000038 mode=M steps=19\n"),
];

/// Whether a refused command leaves the text, the board and the breakpoints as they were, and is done when it
/// is asked again.
fn obeys_right(
    session: &mut PagedSession,
    command: &[u8],
    answer: &[u8],
    text: &mut Vec<u8>,
) -> bool {
    let before = (text.len(), session.taken(), session.has_break(1));
    if let Err(NoMemory) = session.command(command, text) {
        if (text.len(), session.taken(), session.has_break(1)) != before {
            return false;
        }
        if session.command(command, text) != Ok(Next::More) {
            return false;
        }
    }
    text.as_slice().ends_with(answer)
}

/// Whether each command is done so.
fn obeys_all(session: &mut PagedSession, text: &mut Vec<u8>) -> bool {
    for &(command, answer) in COMMANDS.iter() {
        if !obeys_right(session, command, answer, text) {
            return false;
        }
    }
    true
}

/// Whether the session stops at its breakpoint and then answers its commands.
fn stops_right(alloc: Global, session: &mut PagedSession) -> bool {
    sets_right(session, 0x8000_0038)
        && goes_right(session)
        && obeys_all(session, &mut Vec::new(alloc))
}

/// Checks the session of `ECHO`.
fn check_echo(alloc: Global) -> Checked<()> {
    let mut session = opened(alloc, ECHO, b"0 rx 5a\n2 rx 41\n", 9)?;
    check(sends_right(&mut session), "the session that sends")
}

/// Checks the session of `TIMER`.
fn check_timer(alloc: Global) -> Checked<()> {
    let mut session = opened(alloc, TIMER, b"0 rx 00\n1 line 3 1\n", 100)?;
    check(stops_right(alloc, &mut session), "the session that stops")
}

/// Whether both sessions answer right, or memory ran out before them.
pub fn answers_right(alloc: Global) -> bool {
    let sends = is_right(check_echo(alloc));
    let stops = is_right(check_timer(alloc));
    sends && stops
}
