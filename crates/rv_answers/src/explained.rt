//! Why a trap came, and where it went; and where a value came from.
use crate::moves::Target;
use crate::values::{Region, RegisterValue};
use rv_isa::Reg;
use rv_pmp::Mode;

/// What is at an address that is not in the memory.
#[derive(Clone, Copy)]
pub enum Area {
    /// No device.
    Nothing,
    /// The halt register.
    Halt,
    /// The timer.
    Timer,
    /// The interrupt controller.
    Controller,
    /// The serial port.
    Serial,
    /// No device, past the end of the memory.
    PastEnd,
}

/// Why an access is refused.
#[derive(Clone, Copy)]
pub enum Barrier {
    /// Protection doesn't grant it to the mode: by the first entry that has the address, or since none has it.
    Protection { mode: Mode, entry: Option<Region> },
    /// No memory is there, and no register that takes such an access.
    Absent(Area),
}

/// Why no instruction is fetched.
#[derive(Clone, Copy)]
pub enum Unfetched {
    /// The word can't be fetched.
    Refused(Barrier),
    /// The word is that of no instruction.
    NoInstruction(u32),
}

/// An address as an instruction makes it: a register with its value, and an offset.
#[derive(Clone, Copy)]
pub struct Sum {
    pub base: Reg,
    pub value: u32,
    pub offset: i32,
}

/// Why a trap came: the check of the step that failed.
#[derive(Clone, Copy)]
pub enum Reason {
    /// An interrupt was taken, by its bit in mip and mie.
    Interrupt(u32),
    /// No instruction was fetched.
    NotFetched(Unfetched),
    /// ECALL.
    Call,
    /// EBREAK.
    Break,
    /// The target of a jump is no multiple of 4: of a jump to a register, or of one from pc.
    Target(Option<Sum>),
    /// The address of a load or store is no multiple of its size.
    Misaligned { size: u32, sum: Sum },
    /// A load or store was refused.
    Refused { sum: Sum, barrier: Barrier },
    /// No control register has the number.
    NoRegister(u16),
    /// The control register may be written by no mode.
    ReadOnly(u16),
    /// The instruction, or its control register, is for machine mode.
    MachineOnly,
}

/// An instruction from which pc came.
#[derive(Clone, Copy)]
pub struct Before {
    pub address: u32,
    /// The word there.
    pub word: Option<u32>,
    /// The target, if the instruction is a jump to a register.
    pub sum: Option<Sum>,
}

/// Where a trap went.
#[derive(Clone, Copy)]
pub struct Handler {
    /// What pc was after it.
    pub address: u32,
    /// What mtvec was.
    pub mtvec: u32,
    /// Why no instruction is fetched from there, if none is.
    pub missing: Option<Unfetched>,
}

/// A trap, by the board before its step, and what came of it.
#[derive(Clone, Copy)]
pub struct Explained {
    /// The number of the step, from 1.
    pub step: u64,
    /// What mcause was.
    pub cause: u32,
    /// What mtval was.
    pub value: u32,
    /// What pc was.
    pub address: u32,
    /// What the mode was.
    pub mode: Mode,
    /// The word there.
    pub word: Option<u32>,
    /// The word that was there at reset, if that was another one.
    pub overwritten: Option<u32>,
    /// The last step before that wrote the word there, if it was another one at reset.
    pub writer: Option<Write>,
    pub reason: Reason,
    /// The instruction before, if there was one.
    pub before: Option<Before>,
    pub handler: Handler,
}

/// The last of the traps that a board keeps.
#[derive(Clone, Copy)]
pub struct Repeated {
    /// What mcause was.
    pub cause: u32,
    /// What mtval was.
    pub value: u32,
    /// What pc was.
    pub address: u32,
    /// How often it came in a row, of the traps that are kept.
    pub times: u64,
}

/// The first trap that met no handler, or else the last one.
#[derive(Clone, Copy)]
pub struct Explanation {
    pub trap: Option<Explained>,
    /// The number of steps that were not looked at, after the others.
    pub unseen: u64,
    /// The last trap of all steps.
    pub repeated: Option<Repeated>,
}

/// A step that wrote a register or a word, by the board before it.
#[derive(Clone, Copy)]
pub struct Write {
    /// The number of the step, from 1.
    pub step: u64,
    /// What pc was.
    pub address: u32,
    /// The word there.
    pub word: Option<u32>,
    /// What the register or the word was, if it had a value.
    pub before: Option<u32>,
    /// The first register that the instruction reads.
    pub first: Option<RegisterValue>,
    /// The second one.
    pub second: Option<RegisterValue>,
    /// The address of a load or a store.
    pub accessed: Option<u32>,
}

/// Where the value of a register or a word came from.
#[derive(Clone, Copy)]
pub struct Origin {
    pub target: Target,
    /// How many steps were looked at, the first ones.
    pub steps: u64,
    /// The value after them, if it has one.
    pub value: Option<u32>,
    /// The last of them that wrote it, if one did.
    pub write: Option<Write>,
}
