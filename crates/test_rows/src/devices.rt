//! What the devices of a board hold, as a line of text.
use crate::row::{Appended, append_shown};
use rv_base::{byte_digits, low_word};
use rv_board::Board;
use rv_cache::Decoded;
use rv_ram::ByteMemory;
use std::alloc::Global;

/// The offsets of two registers of the interrupt controller, at which a peek changes nothing: the pending
/// sources, and the source that a claim would get.
pub const PENDING: u32 = 0x1000;

pub const CLAIM: u32 = 0x20_0004;

/// Appends the bytes that were sent, and the end of the line.
fn append_sent(console: &[u8], text: &mut Vec<u8>) -> Appended {
    text.extend_from_slice(b" sent=")?;
    for byte in console {
        text.extend_from_slice(&byte_digits(*byte))?;
    }
    text.extend_from_slice(b"\n")?;
    Ok(())
}

/// Appends a line of what the devices hold: how many received bytes are in the queue, whether one was lost,
/// the pending sources, the source that a claim would get, the time, the time that it is compared with, and
/// the bytes that were sent.
pub fn append_devices<M: ByteMemory, C: Decoded>(
    alloc: Global,
    board: &Board<M, C>,
    text: &mut Vec<u8>,
) -> Appended {
    let (serial, plic, timer) = (board.serial(), board.plic(), board.timer());
    let (waiting, lost) = (serial.waiting(), serial.overrun() as u32);
    let (pending, claim) = (plic.peek(PENDING), plic.peek(CLAIM));
    let (time, compared) = (low_word(timer.time()), low_word(timer.compare()));
    let numbers = format!(in alloc;
        "waiting={waiting:08x} lost={lost:08x} pending={pending:08x} claim={claim:08x} time={time:08x} compared={compared:08x}"
    );
    append_shown(numbers, text)?;
    append_sent(board.console(), text)
}
