//! A whole run, from its texts to its output.
use crate::hostile::OPTIONS;
use crate::runs::{Texts, WHOLE, run};
use rv_cli::{CliFault, Ending, TextOut, exit_status};
use std::alloc::Global;

/// A source that sends `H` and halts, a timed list of one byte, which the source never reads, and commands: a breakpoint,
/// the steps up to it, and the rest of the steps.
const HELLO: Texts<'static> = Texts {
    source: b"lui t0,0x10000\nli a0,72\nsw a0,0(t0)\nlui t1,0x100\nli t2,0x5555\nsw t2,0(t1)\n",
    inputs: b"1 rx 5a\n",
    commands: Some(b"b 0x8000000c\nc\nc\nq\n"),
};

/// The output of the run.
const WRITTEN: &[u8] =
    b"break 8000000c\nstop break pc=8000000c mode=M steps=3\nstop halted pc=8000001c mode=M steps=7\nH\nhalted 0 after 7 steps\n";

/// Whether the run writes its output; or memory ran out, and it writes nothing; or memory ran out in its
/// writer, which has then taken a beginning of the output.
pub fn answers_right(alloc: Global) -> bool {
    let ran = run(alloc, HELLO, OPTIONS, WHOLE);
    let [source_failed, inputs_failed, _, out_failed] = ran.failed;
    let written = ran.out.bytes();
    if source_failed || inputs_failed {
        return false;
    }
    match ran.outcome {
        Ok(ending) => ending == Ending::Halted(0) && written == WRITTEN && !out_failed,
        Err(CliFault::OutOfMemory) => {
            written.is_empty() && !out_failed && exit_status(&ran.outcome) == 4
        }
        Err(fault) => fault == CliFault::Write && WRITTEN.starts_with(written) && out_failed,
    }
}
