//! Readers and writers that move few bytes a call, or fail at each of their calls in turn.
ghost use Rattle.std.specs.Prelude.{◌<◌};

use crate::runs::{Moves, Ran, Texts, WHOLE, run};
use rv_cli::{CliFault, Ending, Options, TextOut};
use std::alloc::Global;

/// A source that receives a byte and sends it, its timed list, and its commands.
const ECHO: Texts<'static> = Texts {
    source: b"lui t0,0x10000\nlw a0,4(t0)\nsw a0,0(t0)\n",
    inputs: b"0 rx 5a\n2 rx 41\n",
    commands: Some(b"s\nm 0x10000004 1\nb 0x8000000c\nc\n"),
};

/// The output of the run.
const WRITTEN: &[u8] =
    b"stop limit pc=80000004 mode=M steps=1\n10000004: --\nbreak 8000000c\nstop break pc=8000000c mode=M steps=3\nZ\nrunning at 8000000c after 3 steps\n";

/// The options of all runs.
pub const OPTIONS: Options = Options {
    steps: 10,
    pages: 1,
    slots: 64,
};

/// Whether a run wrote these bytes and no others, and just the readers and the writer of these numbers failed.
fn has_written(ran: &Ran, failed: [bool; 4], written: &[u8]) -> bool {
    ran.failed == failed && ran.out.bytes() == written
}

/// Whether a run that moves up to `most` bytes a call writes its whole output.
fn is_whole(alloc: Global, most: usize) -> bool {
    let moves = Moves { most, ..WHOLE };
    let ran = run(alloc, ECHO, OPTIONS, moves);
    ran.outcome == Ok(Ending::Running) && has_written(&ran, [false; 4], WRITTEN)
}

/// Whether runs of each small number of bytes a call write their whole output.
fn are_whole(alloc: Global) -> bool {
    for most in 1..20 {
        if !is_whole(alloc, most) {
            return false;
        }
    }
    true
}

/// The number of the writer among the three readers and it.
const WRITER: usize = 3;

/// Whether a run ends with this fault where the reader or writer of a number fails after `good` calls of three bytes. Then
/// nothing else fails, and the writer alone has written anything: just the bytes of its good calls.
fn stops_at(alloc: Global, number: usize, good: usize, fault: CliFault) -> bool
    requires { number < 4 }
{
    let mut moves = Moves { most: 3, ..WHOLE };
    moves.good[number] = good as u64;
    let mut failed = [false; 4];
    failed[number] = true;
    let count = if number == WRITER {
        good.saturating_mul(3)
    } else {
        0
    };
    let written = WRITTEN.split_at(count.min(WRITTEN.len())).0;
    let ran = run(alloc, ECHO, OPTIONS, moves);
    ran.outcome == Err(fault) && has_written(&ran, failed, written)
}

/// Whether each of so many calls of the reader or writer of a number is answered right where it fails.
fn stops_at_each(alloc: Global, number: usize, calls: usize, fault: CliFault) -> bool
    requires { number < 4 }
{
    for good in 0..calls {
        if !stops_at(alloc, number, good, fault) {
            return false;
        }
    }
    true
}

/// Returns how many calls of three bytes read a text, up to the read of its end.
fn reads(text: &[u8]) -> usize {
    text.len().div_ceil(3).saturating_add(1)
}

/// Whether all short and all failed reads and writes are answered as defined.
pub fn are_answered(alloc: Global) -> bool {
    let commands = ECHO.commands.unwrap_or(b"");
    are_whole(alloc)
        && stops_at_each(alloc, 0, reads(ECHO.source), CliFault::ReadSource)
        && stops_at_each(alloc, 1, reads(ECHO.inputs), CliFault::ReadInput)
        && stops_at_each(alloc, 2, reads(commands), CliFault::ReadCommands)
        && stops_at_each(alloc, WRITER, WRITTEN.len().div_ceil(3), CliFault::Write)
}
