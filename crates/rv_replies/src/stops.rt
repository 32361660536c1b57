//! Stops.
ghost use Rattle.std.specs.Prelude.{◌≡◌, ◌++◌, OnOk};
ghost use Rattle.rv_replies.specs.Looks.{last_stop};
ghost use Rattle.rv_replies.specs.Texts.{exit_text, numbered, reason_text, state_text, stop_text, watch_text};

use crate::words::append_word;
use rv_base::{NoMemory, byte_digits, word_digits};
use rv_board::BootedBoard;
use rv_isa::Reg;

/// The signal of a stop that no trap is behind: SIGTRAP.
const STOPPED: u8 = 5;

/// Why a run stopped.
#[derive(Clone, Copy)]
pub enum Reason {
    /// For no reason that the reply names.
    Plain,
    /// The next instruction is at a breakpoint.
    Breakpoint,
    /// A store to bytes at this address is next.
    Stored(u32),
    /// A load from them is.
    Loaded(u32),
    /// Either of the two is, where both are watched.
    Accessed(u32),
    /// The board stands before its first step.
    Begin,
    /// It has taken its last step.
    End,
}

/// Appends what a word is for, and the address.
fn append_watch(out: &mut Vec<u8>, word: &[u8], address: u32) -> Result<(), NoMemory>
    ensures { OnOk result (out.new.items ≡ out.old.items ++ watch_text word.now address) }
{
    out.extend_from_slice(word)?;
    out.extend_from_slice(&word_digits(address))?;
    Ok(out.extend_from_slice(b";")?)
}

/// Appends why a run stopped.
#[tactic(auto, unfolding(crate::specs::Texts::reason_text))]
fn append_reason(out: &mut Vec<u8>, reason: Reason) -> Result<(), NoMemory>
    ensures { OnOk result (out.new.items ≡ out.old.items ++ reason_text reason) }
{
    match reason {
        Reason::Plain => Ok(()),
        Reason::Breakpoint => Ok(out.extend_from_slice(b"swbreak:;")?),
        Reason::Stored(address) => append_watch(out, b"watch:", address),
        Reason::Loaded(address) => append_watch(out, b"rwatch:", address),
        Reason::Accessed(address) => append_watch(out, b"awatch:", address),
        Reason::Begin => Ok(out.extend_from_slice(b"replaylog:begin;")?),
        Reason::End => Ok(out.extend_from_slice(b"replaylog:end;")?),
    }
}

/// Appends a register of a stop.
fn append_numbered(out: &mut Vec<u8>, number: &[u8], value: u32) -> Result<(), NoMemory>
    ensures { OnOk result (out.new.items ≡ out.old.items ++ numbered number.now value) }
{
    out.extend_from_slice(number)?;
    out.extend_from_slice(b":")?;
    append_word(out, value)?;
    Ok(out.extend_from_slice(b";")?)
}

/// Appends a stop of a board by a signal.
#[tactic(auto, unfolding(crate::specs::Texts::stop_text))]
pub(crate) fn append_stop(
    out: &mut Vec<u8>,
    board: &BootedBoard,
    signal: u8,
    reason: Reason,
) -> Result<(), NoMemory>
    ensures { OnOk result (out.new.items ≡ out.old.items ++ stop_text signal reason board.now) }
{
    out.extend_from_slice(b"T")?;
    out.extend_from_slice(&byte_digits(signal))?;
    append_numbered(out, b"20", board.pc())?;
    append_numbered(out, b"01", board.reg(Reg::of(1)))?;
    append_numbered(out, b"02", board.reg(Reg::of(2)))?;
    append_numbered(out, b"08", board.reg(Reg::of(8)))?;
    append_reason(out, reason)?;
    Ok(out.extend_from_slice(b"thread:1;")?)
}

/// Appends the end of a program with its code.
pub(crate) fn append_exit(out: &mut Vec<u8>, code: u16) -> Result<(), NoMemory>
    ensures { OnOk result (out.new.items ≡ out.old.items ++ exit_text code) }
{
    out.extend_from_slice(b"W")?;
    out.extend_from_slice(&byte_digits((code / 256) as u8))?;
    Ok(out.extend_from_slice(&byte_digits((code % 256) as u8))?)
}

/// Appends the stop of a board by a signal, or the end of its program.
///
/// # Errors
///
/// `NoMemory` if memory runs out.
pub fn append_state(
    out: &mut Vec<u8>,
    board: &BootedBoard,
    signal: u8,
    reason: Reason,
) -> Result<(), NoMemory>
    ensures { OnOk result (out.new.items ≡ out.old.items ++ state_text signal reason board.now) }
{
    match board.halted() {
        Some(code) => append_exit(out, code),
        None => append_stop(out, board, signal, reason),
    }
}

/// Appends why a board stands still.
pub(crate) fn append_last_stop(out: &mut Vec<u8>, board: &BootedBoard) -> Result<(), NoMemory>
    ensures { OnOk result (out.new.items ≡ out.old.items ++ last_stop board.now) }
{
    append_state(out, board, STOPPED, Reason::Plain)
}
