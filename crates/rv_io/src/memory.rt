//! Texts in memory, which are read and written some bytes a call, with a call that fails if one is asked for.
ghost use Rattle.std.specs.Prelude.{◌≡◌, ◌≤◌, ◌↔◌, ◌==◌, ◌&&◌, ◌||◌, [], IfErr, IfOk, IsErr, None, OnErr, OnOk, Some, false, length, min, nat_lt, true};
ghost use Rattle.std.specs.Io.KnownBytes.{ReadConsumes, WriteAppends};
ghost use Rattle.rv_io.specs.Memory.{after_call, text_of};

use crate::text::{InFailed, OutFailed, TextIn, TextOut};
use std::alloc::Global;
use std::marker::Model;

/// How much a call of a text in memory moves, and which call fails.
#[derive(Clone, Copy)]
struct Calls {
    most: usize,
    good: Option<u64>,
    has_failed: bool,
}

/// Calls that move as much as they can, and never fail.
const FREE: Calls = Calls {
    most: usize::MAX,
    good: None,
    has_failed: false,
};

impl Calls {
    ghost use Rattle.std.specs.Prelude.{◌≡◌, ◌↔◌, ◌||◌, Some, true};
    ghost use Rattle.rv_io.specs.Memory.{after_call};

    /// Counts a call, and returns whether it is the one that fails.
    fn fails(&mut self) -> bool
        ensures fails { (result ≡ true) ↔ (self.old.good ≡ Some 0) }
        ensures left { self.new ≡ record self.old {
          good = after_call self.old.good;
          has_failed = self.old.has_failed || result;
        } }
    {
        let fails = self.good == Some(0);
        self.good = match self.good {
            Some(0) | None => None,
            Some(good) => Some(good - 1),
        };
        self.has_failed |= fails;
        fails
    }
}

/// A reader of bytes in memory.
#[derive(Drop)]
pub struct MemoryIn<'a> {
    bytes: &'a [u8],
    calls: Calls,
}

impl<'a> Model for MemoryIn<'a> {
    ghost use Rattle.std.specs.Prelude.{◌≤◌};
    ghost use Rattle.rv_io.specs.Memory.{MemoryText, text_of};

    ghost Value = { MemoryText };

    ghost view = { λ m. text_of m.bytes.now m.calls.most m.calls.good m.calls.has_failed };

    ghost invariant = { λ m. 1 ≤ m.calls.most };
}

impl<'a> MemoryIn<'a> {
    /// Returns a reader of `bytes` that fills the buffer of each call as far as it can, and never fails.
    pub fn new(bytes: &'a [u8]) -> MemoryIn<'a>
        ensures { result ≡ text_of bytes.entry.now usize.MAX None false }
    {
        MemoryIn { bytes, calls: FREE }
    }

    /// Returns the same reader, which gives at most `most` bytes a call.
    pub fn with_most(self, most: usize) -> MemoryIn<'a>
        requires { 1 ≤ most }
        ensures { result ≡ record self.entry { most = most } }
    {
        let calls = Calls { most, ..self.calls };
        MemoryIn { calls, ..self }
    }

    /// Returns the same reader, whose next `calls` calls succeed and the one after them fails.
    pub fn with_failure_after(self, calls: u64) -> MemoryIn<'a>
        ensures { result ≡ record self.entry { good_calls = Some calls } }
    {
        let good = Some(calls);
        let calls = Calls { good, ..self.calls };
        MemoryIn { calls, ..self }
    }
}

impl<'a> TextIn for MemoryIn<'a> {
    ghost left = { λ m. Some m.bytes };

    ghost has_failed = { λ m. m.has_failed };

    fn read(&mut self, buffer: &mut [u8]) -> Result<usize, InFailed>
        ensures within { IfOk result (λ n. n ≤ length buffer.new) }
        ensures bytes { ReadConsumes (Some self.old.bytes) (Some self.new.bytes) result buffer.new }
        ensures ok { OnOk result (self.new.has_failed ≡ self.old.has_failed) }
        ensures err { OnErr result (self.new.has_failed ≡ true) }

        // It fails at the one call that was asked to fail, and at any other gives as many bytes as it can.
        ensures fails { IsErr result ↔ (self.old.good_calls ≡ Some 0) }
        ensures count { IfOk result (λ n.
            n ≡ min (min self.old.most (length self.old.bytes)) (length buffer.new)) }
        ensures calls { self.new.good_calls ≡ after_call self.old.good_calls }
        ensures most { self.new.most ≡ self.old.most }
    {
        if self.calls.fails() {
            return Err(InFailed);
        }
        let count = self.calls.most.min(self.bytes.len()).min(buffer.len());
        let (now, later) = self.bytes.split_at(count);
        buffer[..count].copy_from_slice(now);
        self.bytes = later;
        Ok(count)
    }

    fn failed(&self) -> bool {
        self.calls.has_failed
    }
}

/// A writer that keeps its bytes in memory.
#[derive(Drop)]
pub struct MemoryOut {
    bytes: Vec<u8>,
    calls: Calls,
}

impl Model for MemoryOut {
    ghost use Rattle.rv_io.specs.Memory.{MemoryText, text_of};

    ghost Value = { MemoryText };

    ghost view = { λ m. text_of m.bytes.items m.calls.most m.calls.good m.calls.has_failed };
}

impl MemoryOut {
    /// Returns an empty writer that takes all bytes of each call, and fails only where memory runs out.
    pub fn new(alloc: Global) -> MemoryOut
        ensures { result ≡ text_of [] usize.MAX None false }
    {
        MemoryOut {
            bytes: Vec::new(alloc),
            calls: FREE,
        }
    }

    /// Returns the same writer, which takes at most `most` bytes a call.
    pub fn with_most(mut self, most: usize) -> MemoryOut
        ensures { result ≡ record self { most = most } }
    {
        self.calls.most = most;
        self
    }

    /// Returns the same writer, whose next `calls` calls succeed and the one after them fails.
    pub fn with_failure_after(mut self, calls: u64) -> MemoryOut
        ensures { result ≡ record self { good_calls = Some calls } }
    {
        self.calls.good = Some(calls);
        self
    }

    /// Returns the bytes that were written.
    pub fn bytes(&self) -> &[u8]
        ensures { result.now ≡ self.now.bytes }
    {
        self.bytes.as_slice()
    }
}

impl TextOut for MemoryOut {
    ghost taken = { λ m. Some m.bytes };

    ghost has_failed = { λ m. m.has_failed };

    fn write(&mut self, bytes: &[u8]) -> Result<usize, OutFailed>
        ensures within { IfOk result (λ n. n ≤ length bytes.now) }
        ensures bytes { WriteAppends (Some self.old.bytes) (Some self.new.bytes) result bytes.now }
        ensures ok { IfOk result (λ n. self.new.has_failed
            ≡ (self.old.has_failed || (n == 0 && nat_lt 0 (length bytes.now)))) }
        ensures err { OnErr result (self.new.has_failed ≡ true) }

        // It fails at the call that was asked to fail or where memory runs out, and at any other takes as
        // many bytes as it may.
        ensures fails { self.old.good_calls ≡ Some 0 → IsErr result }
        ensures count { IfOk result (λ n. n ≡ min self.old.most (length bytes.now)) }
        ensures calls { self.new.good_calls ≡ after_call self.old.good_calls }
        ensures most { self.new.most ≡ self.old.most }
    {
        if self.calls.fails() {
            return Err(OutFailed);
        }
        let count = self.calls.most.min(bytes.len());
        if self.bytes.extend_from_slice(&bytes[..count]).is_err() {
            self.calls.has_failed = true;
            return Err(OutFailed);
        }
        self.calls.has_failed |= count == 0 && !bytes.is_empty();
        Ok(count)
    }

    fn failed(&self) -> bool {
        self.calls.has_failed
    }
}
