//! The talk with gdb over the standard input and output.
use rv_base::NoMemory;
use rv_gdb::{Next, Server};
use std::io::{Read, Write};
use std::time::Instant;

/// The error of a talk that ended early.
#[derive(Clone, Copy)]
pub enum TalkFault {
    /// The bytes can't be read or written.
    Closed,
    /// Memory ran out.
    NoMemory,
}

/// The fewest steps between two questions.
const LEAST: u64 = 100_000;

/// The most steps between two questions.
const MOST: u64 = 1_000_000_000;

/// How long a part of a run may take before its parts are made shorter, in milliseconds, and how long before they are
/// made longer. So gdb is asked some twenty times a second.
const LONG: u128 = 80;

const SHORT: u128 = 20;

/// The most bytes that are read at once.
const ROOM: usize = 16384;

/// Returns the number of steps of the next part, by that of the last one and by the time that it took.
fn next_part(steps: u64, taken: u128) -> u64 {
    if taken < SHORT {
        steps.saturating_mul(2).min(MOST)
    } else if taken > LONG {
        (steps / 2).max(LEAST)
    } else {
        steps
    }
}

/// Writes bytes to gdb.
fn write(rt: &HostRuntime, bytes: &[u8]) -> Result<(), TalkFault> {
    let mut output = rt.stdout();
    if output.write_all(bytes).is_err() || output.flush().is_err() {
        return Err(TalkFault::Closed);
    }
    Ok(())
}

/// Reads bytes of gdb, and answers them. Returns whether there were some.
fn answer(
    rt: &HostRuntime,
    server: &mut Server,
    room: &mut [u8],
    out: &mut Vec<u8>,
) -> Result<bool, TalkFault> {
    let Ok(count) = rt.stdin().read(room) else {
        return Err(TalkFault::Closed);
    };
    let bytes = room.split_at(count.min(room.len())).0;
    match server.feed(bytes, out) {
        Ok(()) => Ok(count > 0),
        Err(NoMemory) => Err(TalkFault::NoMemory),
    }
}

/// Takes a part of a run, and returns how many steps the next part has.
fn take_part(
    rt: &HostRuntime,
    server: &mut Server,
    steps: u64,
    out: &mut Vec<u8>,
) -> Result<u64, TalkFault> {
    let begun = Instant::now(rt);
    if server.go_on(steps, out).is_err() {
        return Err(TalkFault::NoMemory);
    }
    let taken = match begun {
        Ok(begun) => begun.elapsed(rt).ok(),
        Err(_) => None,
    };
    Ok(match taken {
        Some(time) => next_part(steps, time.as_millis()),
        None => steps,
    })
}

/// Talks with gdb until it is done.
pub fn talk(rt: &HostRuntime, server: &mut Server) -> Result<(), TalkFault> {
    let mut room = [0u8; ROOM];
    let mut out = Vec::new(rt.alloc());
    let mut steps = LEAST;
    for _ in 0..u64::MAX {
        out.clear();
        match server.next() {
            Next::End => break,
            Next::Steps => steps = take_part(rt, server, steps, &mut out)?,
            Next::Bytes => {
                if !answer(rt, server, &mut room, &mut out)? {
                    break;
                }
            }
        }
        write(rt, &out)?;
    }
    Ok(())
}
