//! Programs of sources.
use rv_asm::{Program, assemble};
use std::alloc::Global;
use std::process::Abort;

/// Assembles a source that has no fault. It has no contract, so that the proofs of tests don't carry that of `assemble`.
pub fn program(rt: &impl Abort, alloc: Global, source: &[u8]) -> Program {
    let program = assemble(alloc, source).ok();
    program.expect(rt, "the source is refused")
}
