//! The sources with their images, and with their faults.
use rv_asm::{AsmFault, Program, assemble};
use std::alloc::Global;
use test_language::{FAULTS, IMAGES};

/// Assembles a source. It has no contract, so that the proofs of tests don't carry that of `assemble`.
fn assembled(alloc: Global, source: &[u8]) -> Result<Program, AsmFault> {
    assemble(alloc, source)
}

/// Whether a source has an image.
fn has_image(alloc: Global, source: &[u8], image: &[u8]) -> bool {
    match assembled(alloc, source) {
        Ok(program) => program.bytes() == image,
        Err(_) => false,
    }
}

/// Whether a source has a fault at a line.
fn has_fault(alloc: Global, source: &[u8], line: u8, number: u8) -> bool {
    match assembled(alloc, source) {
        Ok(_) => false,
        Err(fault) => fault.line == usize::from(line) && fault.kind.number() == number,
    }
}

#[test]
fn images(rt: HostRuntime) {
    for &(source, image) in IMAGES.iter() {
        assert!(rt; has_image(rt.alloc(), source, image));
    }
}

#[test]
fn faults(rt: HostRuntime) {
    for &(source, line, number) in FAULTS.iter() {
        assert!(rt; has_fault(rt.alloc(), source, line, number));
    }
}
