//! rv_source and rv_asm: lines, statements, and programs.
use indexmap::IndexMap;
use rv_asm::{AsmFault, FaultKind, Program, assemble};
use rv_source::{Cut, Line, LineFault, cut_lines, read_line};
use std::alloc::Global;

const _: fn(&[u8]) -> Cut<'_> = cut_lines;

const _: for<'a> fn(Global, &'a [u8]) -> Result<Line<'a>, LineFault> = read_line;

const _: fn(Global, &[u8]) -> Result<Program, AsmFault> = assemble;

const _: fn(&Program) -> &[u8] = Program::bytes;

const _: fn(&Program) -> &IndexMap<Vec<u8>, i64> = Program::symbols;

const _: fn(&Program, &[u8]) -> Option<i64> = Program::symbol;

const _: fn(usize, FaultKind) -> AsmFault = AsmFault::at;

const _: AsmFault = AsmFault {
    line: 3,
    kind: FaultKind::OutOfRange,
};
