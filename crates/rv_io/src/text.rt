//! Reading a text and writing one, some bytes a call.
ghost use Rattle.std.specs.Prelude.{◌≡◌, ◌≤◌, ◌<◌, ◌==◌, ◌&&◌, ◌||◌, ℕ, Bool, List, Option, IfErr, IfOk, OnErr, OnOk, false, length, nat_lt, take, true};
ghost use Rattle.std.specs.Io.KnownBytes.{ReadConsumes, WriteAppends};
ghost use Rattle.rv_io.specs.Support.Calls.{FailsToRead, WroteNone, WroteUpTo};
ghost use Rattle.rv_io.specs.Texts.{Gave, Wrote, side};
ghost use Rattle.rv_io.specs.Within.{IsWithin};

use crate::fault::{ReadFault, TextName};
use rv_base::TEXT_LIMIT;
use std::alloc::Global;

/// The error of a read that failed: it gave no byte.
#[derive(Clone, Copy)]
pub struct InFailed;

/// A reader of a text.
pub trait TextIn {
    // The bytes that are left to read, where the type tells them.
    ghost left: { Self → Option (List ℕ) };

    // Whether a read has failed.
    ghost has_failed: { Self → Bool };

    /// Reads bytes into the buffer, and returns their number. 0 for a buffer that is not empty is the end of
    /// the text.
    ///
    /// # Errors
    ///
    /// `InFailed` if the read fails: it gives no byte, and `failed` is true from then on.
    fn read(&mut self, buffer: &mut [u8]) -> Result<usize, InFailed>
        ensures within { IfOk result (λ n. n ≤ length buffer.new) }
        ensures bytes { ReadConsumes (left self.old) (left self.new) result buffer.new }
        ensures ok { OnOk result (has_failed self.new ≡ has_failed self.old) }
        ensures err { OnErr result (has_failed self.new ≡ true) };

    /// Returns whether a read has failed.
    fn failed(&self) -> bool
        ensures { result ≡ has_failed self.now };
}

/// Reads a text to its end.
///
/// # Errors
///
/// - `Unreadable` if the reader fails or gives more than `TEXT_LIMIT` bytes, after which it is not read
///   again.
/// - `OutOfMemory` if memory runs out, while the reader is in order.
pub(crate) fn read_text<R: TextIn>(
    alloc: Global,
    name: TextName,
    reader: &mut R,
) -> Result<Vec<u8>, ReadFault>
    requires { R.has_failed reader.old ≡ false }
    ensures ok { IfOk result (λ text. Gave
        (side R.left R.has_failed reader.old reader.new) text.items) }
    ensures err { IfErr result (FailsToRead name
        (side R.left R.has_failed reader.old reader.new)) }
    ensures within { IsWithin (side R.left R.has_failed reader.old reader.new) }
{
    let mut text = Vec::new(alloc);
    let mut buffer = [0u8; 8192];
    loop {
        let Ok(count) = reader.read(&mut buffer) else {
            return Err(ReadFault::Unreadable(name));
        };
        if count == 0 {
            return Ok(text);
        }
        if TEXT_LIMIT - text.len() < count {
            return Err(ReadFault::Unreadable(name));
        }
        if text.extend_from_slice(&buffer[..count]).is_err() {
            return Err(ReadFault::OutOfMemory);
        }
    }
}

/// The error of a write that failed, or that took none of some bytes.
#[derive(Clone, Copy)]
pub struct OutFailed;

/// A writer of a text.
pub trait TextOut {
    // The bytes that were written, where the type tells them.
    ghost taken: { Self → Option (List ℕ) };

    // Whether a write has failed, or taken none of some bytes.
    ghost has_failed: { Self → Bool };

    /// Writes some of the bytes, from the first on, and returns their number.
    ///
    /// After a write that took none of some bytes, `failed` is true.
    ///
    /// # Errors
    ///
    /// `OutFailed` if the write fails: it takes no byte, and `failed` is true from then on.
    fn write(&mut self, bytes: &[u8]) -> Result<usize, OutFailed>
        ensures within { IfOk result (λ n. n ≤ length bytes.now) }
        ensures bytes { WriteAppends (taken self.old) (taken self.new) result bytes.now }
        ensures ok { IfOk result (λ n. has_failed self.new
            ≡ (has_failed self.old || (n == 0 && nat_lt 0 (length bytes.now)))) }
        ensures err { OnErr result (has_failed self.new ≡ true) };

    /// Returns whether a write has failed, or taken none of some bytes.
    fn failed(&self) -> bool
        ensures { result ≡ has_failed self.now };
}

/// Writes some of the bytes that follow the first `done`, and returns how many are written in all.
fn write_more<W: TextOut>(out: &mut W, bytes: &[u8], done: usize) -> Result<usize, OutFailed>
    requires some { done < length bytes.now }
    requires sound { W.has_failed out.old ≡ false }
    ensures ok { IfOk result (WroteUpTo
        (side W.taken W.has_failed out.old out.new) bytes.now done) }
    ensures err { OnErr result (WroteNone
        (side W.taken W.has_failed out.old out.new)) }
{
    match out.write(&bytes[done..])? {
        0 => Err(OutFailed),
        count => Ok(done + count),
    }
}

/// Writes all the bytes.
///
/// # Errors
///
/// `OutFailed` if a write fails or takes none of some bytes. A beginning of the bytes is written then.
pub fn write_whole<W: TextOut>(out: &mut W, bytes: &[u8]) -> Result<(), OutFailed>
    requires { W.has_failed out.old ≡ false }
    ensures ok { OnOk result (Wrote (side W.taken W.has_failed out.old out.new) bytes.now false) }
    ensures err { OnErr result
        ((count : ℕ) × Wrote (side W.taken W.has_failed out.old out.new) (take count bytes.now) true) }
{
    let mut done = 0;
    while done < bytes.len() {
        done = write_more(out, bytes, done)?;
    }
    Ok(())
}
