//! Breaches of the calling convention.
use crate::many::Many;
use rv_isa::Reg;

/// How code was entered.
#[derive(Clone, Copy)]
pub enum Entry {
    /// By a call: a jump that writes ra.
    Call,
    /// By an interrupt.
    Interrupt,
    /// By an exception.
    Exception,
}

/// A register that had to be restored and wasn't.
#[derive(Clone, Copy)]
pub struct Unrestored {
    pub register: Reg,
    /// Its value at the entry.
    pub entry: u32,
    /// Its value after the return.
    pub now: u32,
}

/// A return that didn't restore what it had to.
#[derive(Drop)]
pub struct Return {
    /// How the code was entered.
    pub entry: Entry,
    /// The address of the call, or of the instruction that was interrupted.
    pub from: u32,
    /// Where it had to return to.
    pub wanted: u32,
    /// Where it returned to.
    pub target: u32,
    /// The registers that it had to restore.
    pub registers: Many<Unrestored>,
}

/// What a breach did.
#[derive(Drop)]
pub enum Deviation {
    /// It accessed this address, below sp.
    Below(u32),
    /// It returned.
    Return(Return),
}

/// A step that broke the calling convention.
#[derive(Drop)]
pub struct Breach {
    /// Its number, from 1.
    pub step: u64,
    /// What pc was.
    pub address: u32,
    /// What it did.
    pub deviation: Deviation,
}

/// The breaches of a run.
#[derive(Drop)]
pub struct Checked {
    /// How many steps were looked at.
    pub steps: u64,
    /// Whether the board halted with the last of them.
    pub has_halted: bool,
    /// The first breach at each address, in the order of their steps.
    pub breaches: Many<Breach>,
}
