//! The rows of words and texts.
use crate::checks::check_at;
use rv_isa::{Instr, decode, encode, write_instr};
use std::alloc::Global;
use test_definitions::words::WORDS;

/// Whether an instruction has this text, which blanks fill up.
fn has_text(alloc: Global, instr: Instr, text: &[u8]) -> bool {
    let mut out = Vec::new(alloc);
    let is_written = write_instr(instr, &mut out).is_ok();
    is_written && text.starts_with(out.as_slice()) && is_blank_after(text, out.len())
}

/// Whether blanks alone stand in a text after so many bytes.
fn is_blank_after(text: &[u8], count: usize) -> bool {
    let (_, rest) = text.split_at(count.min(text.len()));
    for &byte in rest {
        if byte != b' ' {
            return false;
        }
    }
    true
}

/// Whether an instruction has these registers and this immediate.
fn has_fields(instr: Instr, registers: [u8; 3], imm: i32) -> bool {
    let fields = instr.fields();
    let found = [fields.rd.number(), fields.rs1.number(), fields.rs2.number()];
    found == registers && fields.imm == imm
}

#[test]
fn words(rt: HostRuntime) {
    for &(_, registers, imm, word, text) in WORDS.iter() {
        let instr = decode(word).expect(&rt, "no instruction");
        check_at(&rt, has_fields(instr, registers, imm), word);
        check_at(&rt, encode(instr) == word, word);
        check_at(&rt, has_text(rt.alloc(), instr, text.as_slice()), word);
    }
}
