//! rv_cli: the words of the command line, readers and writers, and a whole run.
use rv_asm::{AsmFault, FaultKind};
use rv_cli::{
    CliFault, Ending, FileIn, FileOut, InFailed, MemoryOut, Options, OutFailed, TextIn, TextOut,
    Words, exit_status, fault_line, read_words, run_text,
};
use rv_isa::NoMemory;
use std::alloc::Global;
use std::fs::File;

const _: Words<'static> = Words {
    source: "hello.s",
    input: None,
    commands: None,
    options: Options {
        steps: 1,
        pages: 1,
        slots: 64,
    },
};

const _: for<'a> fn(Global, &'a [&'a str]) -> Result<Words<'a>, clap::Error> = read_words;

type In = FileIn<File>;

const _: fn(File) -> In = FileIn::new;

const _: fn(&mut In, &mut [u8]) -> Result<usize, InFailed> = <In as TextIn>::read;

const _: fn(&In) -> bool = <In as TextIn>::failed;

const _: fn(File) -> FileOut<File> = FileOut::new;

const _: fn(Global) -> MemoryOut = MemoryOut::new;

const _: fn(&mut MemoryOut, &[u8]) -> Result<usize, OutFailed> = <MemoryOut as TextOut>::write;

const _: fn(&MemoryOut) -> bool = <MemoryOut as TextOut>::failed;

const _: fn(
    Global,
    &mut In,
    &mut In,
    &mut Option<In>,
    Options,
    &mut MemoryOut,
) -> Result<Ending, CliFault> = run_text;

const _: fn(&CliFault, &mut Vec<u8>) -> Result<(), NoMemory> = fault_line;

const _: fn(&Result<Ending, CliFault>) -> u8 = exit_status;

const _: [CliFault; 2] = [
    CliFault::Source(AsmFault {
        line: 3,
        kind: FaultKind::Syntax,
    }),
    CliFault::Input(3),
];
