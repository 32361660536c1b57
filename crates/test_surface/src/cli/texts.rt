//! A reader without an end, a writer that takes nothing, and readers and writers of std that are interrupted or fail. Runs
//! of test_rows, `--hostile`, have those of the library, which move few bytes a call or fail.
ghost use Rattle.std.specs.Prelude.{◌≡◌, false};

use crate::checks::check_at;
use crate::cli::runs::{DEFAULTS, HELLO};
use rv_cli::{
    CliFault, Ending, FileIn, FileOut, InFailed, MemoryIn, MemoryOut, TextIn, TextOut, run_text,
};
use std::alloc::Global;
use std::io::{self, Read, Write};

/// Runs a source without a timed list and commands.
fn run_without_commands<S: TextIn>(
    alloc: Global,
    source: &mut S,
    out: &mut MemoryOut,
) -> Result<Ending, CliFault>
    requires source { S.has_failed source.old ≡ false }
    requires out { out.old.has_failed ≡ false }
{
    let mut inputs = MemoryIn::new(b"");
    let mut commands: Option<MemoryIn<'_>> = None;
    run_text(alloc, source, &mut inputs, &mut commands, DEFAULTS, out)
}

#[test]
fn stops_at_a_write_that_takes_nothing(rt: HostRuntime) {
    let mut full = MemoryOut::new(rt.alloc()).with_most(0);
    let outcome = run_without_commands(rt.alloc(), &mut MemoryIn::new(HELLO), &mut full);
    assert!(rt; outcome == Err(CliFault::Write));
    assert!(rt; full.failed() && full.bytes().is_empty());
}

/// A reader without an end.
#[derive(Drop)]
struct Endless;

impl TextIn for Endless {
    ghost use Rattle.std.specs.Prelude.{None, false};

    ghost left = { λ _. None };

    ghost has_failed = { λ _. false };

    fn read(&mut self, buffer: &mut [u8]) -> Result<usize, InFailed> {
        buffer.fill(b' ');
        Ok(buffer.len())
    }

    fn failed(&self) -> bool {
        false
    }
}

#[test]
fn stops_at_a_source_without_an_end(rt: HostRuntime) {
    let mut out = MemoryOut::new(rt.alloc());
    let outcome = run_without_commands(rt.alloc(), &mut Endless, &mut out);
    assert!(rt; outcome == Err(CliFault::ReadSource));
    assert!(rt; out.bytes().is_empty());
}

/// A reader and writer of std whose first call fails with the error of the system that has this number.
#[derive(Drop)]
struct FailsOnce {
    code: i32,
    has_failed: bool,
}

impl FailsOnce {
    /// Returns a reader and writer that has not been called.
    fn new(code: i32) -> FailsOnce {
        FailsOnce {
            code,
            has_failed: false,
        }
    }

    /// Fails at the first call.
    fn call(&mut self) -> io::Result<()> {
        if self.has_failed {
            return Ok(());
        }
        self.has_failed = true;
        Err(io::Error::from_raw_os_error(self.code))
    }
}

impl Read for FailsOnce {
    fn read(&mut self, _buffer: &mut [u8]) -> io::Result<usize> {
        self.call()?;
        Ok(0)
    }
}

impl Write for FailsOnce {
    fn write(&mut self, _bytes: &[u8]) -> io::Result<usize> {
        self.call()?;
        Ok(0)
    }

    fn flush(&mut self) -> io::Result<()> {
        Ok(())
    }
}

/// The number of the system's error that is an interruption.
const EINTR: i32 = 4;

/// Whether a read whose first call fails with an error of the system succeeds.
fn reads(code: i32) -> bool {
    let mut text = FileIn::new(FailsOnce::new(code));
    text.read(&mut [0; 8]).is_ok()
}

/// Whether a write whose first call fails with an error of the system succeeds.
fn writes(code: i32) -> bool {
    let mut out = FileOut::new(FailsOnce::new(code));
    out.write(b"x").is_ok()
}

// What fails with an error of the system is tried again just if that is an interruption.
#[test]
fn an_interruption_alone_is_tried_again(rt: HostRuntime) {
    for number in 1u8..134 {
        let code = i32::from(number);
        check_at(&rt, reads(code) == (code == EINTR), u32::from(number));
        check_at(&rt, writes(code) == (code == EINTR), u32::from(number));
    }
}
