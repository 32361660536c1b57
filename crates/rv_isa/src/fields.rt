//! The fields of an instruction, laid out flat.
use crate::{Operation, Reg};

/// The fields of an instruction: its operation, registers and immediate. Those that the operation doesn't
/// have are 0.
///
/// The base of an access is `rs1`, and the source of a store is `rs2`. An unsigned immediate, the amount of a
/// shift and the number of a control register are numbers from 0 on; the number of CSRRWI, CSRRSI and CSRRCI
/// is in `rs1`, as in their words. An `Instr` lends its fields, so that a loop reads each where it lies.
#[derive(Clone, Copy)]
pub struct Fields {
    pub operation: Operation,
    pub rd: Reg,
    pub rs1: Reg,
    pub rs2: Reg,
    pub imm: i32,
}
