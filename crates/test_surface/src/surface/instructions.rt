//! rv_isa: instructions by their words and kinds.
use rv_isa::{
    AluOp, Cond, Instr, Kind, Lines, NoMemory, Reg, alu, branch_taken, csr_named, decode, encode,
    reg_named, write_instr,
};

const _: fn(u8) -> Option<Reg> = Reg::new;

const _: fn(Kind) -> Option<Instr> = Instr::new;

const _: fn(Instr) -> Kind = Instr::kind;

const _: fn(Instr) -> u32 = encode;

const _: fn(u32) -> Option<Instr> = decode;

const _: fn(AluOp, u32, u32) -> u32 = alu;

const _: fn(Cond, u32, u32) -> bool = branch_taken;

const _: fn(&[u8]) -> Option<Reg> = reg_named;

const _: fn(&[u8]) -> Option<u16> = csr_named;

const _: fn(Instr, &mut Vec<u8>) -> Result<(), NoMemory> = write_instr;

const _: Lines = Lines {
    software: true,
    timer: false,
    external: true,
};

const _: (AluOp, Cond) = (AluOp::Add, Cond::Eq);
