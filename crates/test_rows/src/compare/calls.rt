//! Compares a session whose calls take many steps, and a board that runs many events in a call, with a board
//! that takes each alone.
use super::{same_everywhere, same_registers};
use rv_board::{Board, Event};
use rv_cache::Decoded;
use rv_monitor::{Session, Stop};
use rv_ram::ByteMemory;
use rv_timeline::{Input, TimedInput};

/// Returns the event that an input is.
pub fn event(input: Input) -> Event {
    match input {
        Input::Rx(byte) => Event::Rx(byte),
        Input::Line { source, high } => Event::Line { source, high },
    }
}

/// Gives a board the inputs of a time, and then takes one step. Returns whether there was memory.
fn step_alone<M: ByteMemory, C: Decoded>(
    board: &mut Board<M, C>,
    inputs: &[TimedInput],
    time: u64,
) -> bool {
    for timed in inputs {
        if timed.step == time && board.apply(event(timed.input)).is_err() {
            return false;
        }
    }
    board.apply(Event::Step).is_ok()
}

/// How a session takes its steps: how many at most in a call, how many in all, and where a breakpoint is set.
#[derive(Clone, Copy)]
pub struct Calls {
    /// The largest number of steps of a call.
    pub size: u64,
    /// The number of steps in all.
    pub steps: u64,
    /// Where each call stops, and a second breakpoint is set far from it.
    pub breakpoint: Option<u32>,
}

/// Sets the breakpoint, and another that no call comes to. Returns whether there was memory.
fn set_breaks<M: ByteMemory, C: Decoded>(session: &mut Session<M, C>, calls: Calls) -> bool {
    match calls.breakpoint {
        Some(address) => {
            session.set_break(address).is_ok() && session.set_break(address ^ 0x4000_0000).is_ok()
        }
        None => true,
    }
}

impl Calls {
    /// Whether a call of `count` steps, up to step `last`, ends where the pc is then `pc`.
    fn end_with(self, count: u64, last: u64, pc: u32) -> bool {
        count == self.size || last.saturating_add(1) == self.steps || self.breakpoint == Some(pc)
    }

    /// Why a call stops where the pc is then `pc`.
    fn stop(self, pc: u32) -> Stop {
        if self.breakpoint == Some(pc) {
            Stop::Breakpoint
        } else {
            Stop::Limit
        }
    }
}

/// Takes `count` steps from step `first` on by one call of a session, which looks for its breakpoint if it has one.
/// Returns whether there was memory, and the call stopped as it had to.
fn take_call<M: ByteMemory, C: Decoded>(
    session: &mut Session<M, C>,
    calls: Calls,
    first: u64,
    count: u64,
    pc: u32,
) -> bool {
    match calls.breakpoint {
        Some(_) => {
            let most = calls.size.min(calls.steps.saturating_sub(first));
            session.go(most) == Ok(calls.stop(pc))
        }
        None => session.step(count).is_ok(),
    }
}

/// Takes the first `calls.steps` steps of a session by such calls, and of a board of the same source, which
/// takes each step alone. Returns whether they have the same registers after each call, and are the same in
/// all that they can be read by after the last.
pub fn same_in_calls<M: ByteMemory, C: Decoded, N: ByteMemory, D: Decoded>(
    session: &mut Session<M, C>,
    alone: &mut Board<N, D>,
    calls: Calls,
) -> bool {
    if !set_breaks(session, calls) {
        return false;
    }
    let mut first = 0u64;
    for last in 0..calls.steps {
        if !step_alone(alone, session.inputs(), last) {
            return false;
        }
        let count = last.saturating_sub(first).saturating_add(1);
        if calls.end_with(count, last, alone.pc()) {
            if !take_call(session, calls, first, count, alone.pc())
                || !same_registers(session.board(), alone)
            {
                return false;
            }
            first = last.saturating_add(1);
        }
    }
    same_everywhere(session.board(), alone)
}

/// Applies events as long as user code runs, or else the next `size`, and returns how many were done, or none
/// where there is no memory.
fn run_part<M: ByteMemory, C: Decoded>(
    board: &mut Board<M, C>,
    events: &[Event],
    size: usize,
) -> Option<usize> {
    let count = board.run_user(events).ok()?;
    if count > 0 {
        return Some(count);
    }
    let (part, _) = events.split_at(size.min(events.len()));
    board.run(part).ok()?;
    Some(part.len())
}

/// Applies events one by one. Returns whether there was memory.
fn apply_each<M: ByteMemory, C: Decoded>(board: &mut Board<M, C>, events: &[Event]) -> bool {
    for event in events {
        if board.apply(*event).is_err() {
            return false;
        }
    }
    true
}

/// Applies events to a board, as many in a call as user code does, or else up to `size`, and one by one to
/// another board of the same source. Returns whether they have the same registers after each call, and are
/// the same in all that they can be read by after the last.
pub fn same_in_runs<M: ByteMemory, C: Decoded, N: ByteMemory, D: Decoded>(
    board: &mut Board<M, C>,
    alone: &mut Board<N, D>,
    events: &[Event],
    size: usize,
) -> bool {
    let mut rest = events;
    for _ in 0..events.len() {
        let Some(count) = run_part(board, rest, size) else {
            return false;
        };
        let (done, left) = rest.split_at(count.min(rest.len()));
        if !apply_each(alone, done) || !same_registers(board, alone) {
            return false;
        }
        rest = left;
    }
    rest.is_empty() && same_everywhere(board, alone)
}
