//! What a function has done to the registers that its caller wants back.
ghost use Rattle.std.specs.Prelude.{◌<◌, IfSome};

use crate::entries::{MEPC, MSCRATCH};
use rv_isa::{Fields, Operation};

/// The registers that a caller wants back: ra, and s0 to s11.
pub const SAVED: [u8; 13] = [1, 8, 9, 18, 19, 20, 21, 22, 23, 24, 25, 26, 27];

/// The number of sp.
pub const SP: u8 = 2;

/// Where the caller's value of a register is.
#[derive(Clone, Copy, PartialEq, Eq)]
pub enum Rule {
    /// In the register itself.
    Same,
    /// In memory, that many words below where the frame begins.
    Below(i32),
    /// In another register.
    In(u8),
    /// Nowhere that is known.
    Lost,
}

/// Where the caller's sp is.
#[derive(Clone, Copy, PartialEq, Eq)]
pub enum Stack {
    /// It is where the frame begins.
    Own,
    /// In mscratch, with which the function has exchanged sp: the frame begins on another stack.
    Exchanged,
    /// Nowhere that is known.
    Lost,
}

/// The state before an instruction of a function.
#[derive(Clone, Copy, PartialEq, Eq)]
pub struct State {
    /// The number of bytes from sp up to where the frame begins, if it is known.
    pub offset: Option<i32>,
    /// Where the caller's sp is.
    pub stack: Stack,
    /// Where the registers of `SAVED` are.
    pub rules: [Rule; 13],
    /// Whether the function has written mepc.
    pub wrote_mepc: bool,
}

/// Returns the index of a register in `SAVED`.
fn slot_of(register: u8) -> Option<usize>
    ensures { IfSome result (λ slot. slot < 13) }
{
    match register {
        1 => Some(0),
        8 => Some(1),
        9 => Some(2),
        18..=27 => Some(usize::from(register - 15)),
        _ => None,
    }
}

/// Returns a fourth of a number, if it is a multiple of 4.
fn words_in(bytes: i32) -> Option<i32> {
    if bytes.rem_euclid(4) == 0 {
        Some(bytes.div_euclid(4))
    } else {
        None
    }
}

/// Returns where the caller's value is once its place has been overwritten.
fn overwritten(rule: Rule, register: u8) -> Rule {
    match rule {
        Rule::In(other) => { if other == register { Rule::Lost } else { rule } }
        _ => rule,
    }
}

/// Returns whether an instruction other than CSRRW may write a control register: one that only reads it names x0, or
/// the immediate 0, as what changes it.
fn writes_csr(fields: &Fields) -> bool {
    match fields.operation {
        Operation::Csrrwi => true,
        Operation::Csrrs => fields.rs1.number() != 0,
        Operation::Csrrc => fields.rs1.number() != 0,
        Operation::Csrrsi => fields.rs1.number() != 0,
        Operation::Csrrci => fields.rs1.number() != 0,
        _ => false,
    }
}

impl State {
    /// Returns the state in which a function begins.
    pub fn first() -> State {
        State {
            offset: Some(0),
            stack: Stack::Own,
            rules: [Rule::Same; 13],
            wrote_mepc: false,
        }
    }

    /// Returns where a register's value is; that of others than those of `SAVED` is in themselves.
    fn rule(&self, register: u8) -> Rule {
        match slot_of(register) {
            Some(slot) => self.rules[slot],
            None => Rule::Same,
        }
    }

    /// Changes where a register's value is, if it is one of `SAVED`.
    fn set(&mut self, register: u8, rule: Rule) {
        if let Some(slot) = slot_of(register) {
            self.rules[slot] = rule;
        }
    }

    /// Returns how many words below where the frame begins an address is that is given by its distance from a register.
    fn depth(&self, base: u8, distance: i32) -> Option<i32> {
        if base != SP {
            return None;
        }
        words_in(self.offset?.checked_sub(distance)?)
    }

    /// Forgets what was saved in the frame: where that begins isn't known any more.
    fn leave_frame(&mut self) {
        for slot in 0..13 {
            if let Rule::Below(_) = self.rules[slot] {
                self.rules[slot] = Rule::Lost;
            }
        }
    }

    /// Follows an instruction that writes sp.
    fn lose_stack(&mut self) {
        self.leave_frame();
        self.offset = None;
        self.stack = Stack::Lost;
    }

    /// Follows an exchange of sp and mscratch: a handler gets a stack of its own, or gives it back.
    fn exchange(&mut self) {
        let stack = match (self.offset, self.stack) {
            (Some(0), Stack::Own) => Stack::Exchanged,
            (Some(0), Stack::Exchanged) => Stack::Own,
            _ => return self.lose_stack(),
        };
        self.leave_frame();
        self.stack = stack;
    }

    /// Follows a write of a control register: the caller's sp is lost where mscratch had it.
    fn write_csr(&mut self, csr: i32) {
        self.wrote_mepc = self.wrote_mepc || csr == MEPC;
        if csr == MSCRATCH && self.stack == Stack::Exchanged {
            self.stack = Stack::Lost;
        }
    }

    /// Follows CSRRW.
    fn swap(&mut self, to: u8, from: u8, csr: i32) {
        if csr == MSCRATCH && to == SP && from == SP {
            return self.exchange();
        }
        self.write_csr(csr);
        self.write(to);
    }

    /// Follows an instruction that writes a register.
    fn write(&mut self, register: u8) {
        if register == SP {
            return self.lose_stack();
        }
        for slot in 0..13 {
            self.rules[slot] = overwritten(self.rules[slot], register);
        }
        if self.rule(register) == Rule::Same {
            self.set(register, Rule::Lost);
        }
    }

    /// Follows a copy of a register: of ra to where it is kept, or back.
    fn copy(&mut self, to: u8, from: u8) {
        let goes_back = self.rule(to) == Rule::In(from);
        let keeps = from == 1 && to > 1 && self.rule(1) == Rule::Same;
        self.write(to);
        if goes_back {
            self.set(to, Rule::Same);
        } else if keeps {
            self.set(from, Rule::In(to));
        }
    }

    /// Follows ADDI.
    fn add(&mut self, to: u8, from: u8, imm: i32) {
        if to == SP && from == SP {
            self.offset = match self.offset {
                Some(offset) => offset.checked_sub(imm),
                None => None,
            };
        } else if imm == 0 {
            self.copy(to, from);
        } else {
            self.write(to);
        }
    }

    /// Follows SW.
    fn store(&mut self, source: u8, base: u8, distance: i32) {
        if let Some(depth) = self.depth(base, distance) {
            if self.rule(source) == Rule::Same {
                self.set(source, Rule::Below(depth));
            }
        }
    }

    /// Follows LW.
    fn load(&mut self, to: u8, base: u8, distance: i32) {
        let goes_back = match self.depth(base, distance) {
            Some(depth) => self.rule(to) == Rule::Below(depth),
            None => false,
        };
        self.write(to);
        if goes_back {
            self.set(to, Rule::Same);
        }
    }

    /// Returns the state after an instruction.
    pub fn after(&self, fields: &Fields) -> State {
        let mut next = *self;
        let to = fields.rd.number();
        let from = fields.rs1.number();
        match fields.operation {
            Operation::Addi => next.add(to, from, fields.imm),
            Operation::Sw => next.store(fields.rs2.number(), from, fields.imm),
            Operation::Lw => next.load(to, from, fields.imm),
            Operation::Csrrw => next.swap(to, from, fields.imm),
            _ => {
                if writes_csr(fields) {
                    next.write_csr(fields.imm);
                }
                next.write(to);
            }
        }
        next
    }
}
