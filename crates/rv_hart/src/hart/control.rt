//! The instructions on control registers, the return from a trap, and the wait for an interrupt.
ghost use Rattle.std.specs.Prelude.{◌≡◌, if◌then◌else◌, Some, None, IfOk};
ghost use Rattle.std.specs.Option.{option_map};
ghost use Rattle.rv_isa.specs.Word as spec;
ghost use Rattle.rv_isa.specs.declared.kind.Kind.{Kind};
ghost use Rattle.rv_csr.specs.Registers as registers;
ghost use Rattle.rv_pmp.specs.Support.Registers.{WritesOrRefuses};
ghost use Rattle.rv_hart.specs.Effect.{csr_change, exchange, reg};
ghost use Rattle.rv_hart.specs.Support.EffectParts.{at_next, exchange_effect, is_write, return_effect, wait_effect};
ghost use Rattle.rv_hart.specs.Support.StepParts.{Does};

use super::Hart;
use crate::shortcuts::Shortcuts;
use crate::trap::Trap;
use crate::values::{csr_value, illegal_instruction, is_write};
use rv_cache::Decoded;
use rv_isa::{CsrOp, Instr, Kind, Reg};
use rv_pmp::Mode;
use rv_ram::ByteMemory;

/// An instruction on a control register.
#[derive(Clone, Copy)]
struct Exchange {
    /// The operation.
    op: CsrOp,
    /// The source field: the number of a register, or the operand itself.
    field: u8,
    /// The value of the operand.
    operand: u32,
    /// The register that receives the old value.
    rd: Reg,
    /// The address of the control register.
    csr: u16,
}

impl<M: ByteMemory, C: Decoded> Hart<M, C> {
    /// Executes an instruction on a control register whose operand is in a register.
    #[inline(always)]
    #[tactic(auto, using(crate::proofs::Exchanged::exchange_is, crate::proofs::Exchanged::written))]
    pub(super) fn exchange_register(
        &mut self,
        instr: Instr,
        op: CsrOp,
        rd: Reg,
        rs1: Reg,
        csr: u16,
    ) -> Result<Option<u16>, Trap>
        ensures does { Does self.old self.new result
            (exchange instr (at_next self.old.machine) (csr_change op rs1) (reg self.old.machine rs1) rd csr) }
        ensures wrote { IfOk result (λ wrote. wrote ≡ option_map (λ _. csr) (csr_change op rs1)) }
    {
        let exchange = Exchange {
            op,
            field: rs1.number(),
            operand: self.reg(rs1),
            rd,
            csr,
        };
        self.exchange(instr, exchange)
    }

    /// Executes an instruction on a control register whose operand is a number of its own.
    #[inline(always)]
    #[tactic(auto, using(crate::proofs::Exchanged::exchange_is, crate::proofs::Exchanged::written))]
    pub(super) fn exchange_number(
        &mut self,
        instr: Instr,
        op: CsrOp,
        rd: Reg,
        number: u8,
        csr: u16,
    ) -> Result<Option<u16>, Trap>
        ensures does { Does self.old self.new result
            (exchange instr (at_next self.old.machine) (csr_change op number) number rd csr) }
        ensures wrote { IfOk result (λ wrote. wrote ≡ option_map (λ _. csr) (csr_change op number)) }
    {
        let exchange = Exchange {
            op,
            field: number,
            operand: number as u32,
            rd,
            csr,
        };
        self.exchange(instr, exchange)
    }

    /// Reads a control register into `rd`, and writes it. Returns its address if it was written. Out of line, so that
    /// other instructions pay nothing for it.
    #[inline(never)]
    #[tactic(auto, unfolding(crate::specs::Support::EffectParts::exchange_effect))]
    fn exchange(&mut self, instr: Instr, exchange: Exchange) -> Result<Option<u16>, Trap>
        ensures does { Does self.old self.new result
            (exchange_effect instr self.old.machine exchange.op exchange.field exchange.operand exchange.rd exchange.csr) }
        ensures wrote { IfOk result (λ wrote.
            wrote ≡ (if is_write exchange.op exchange.field then Some exchange.csr else None)) }
    {
        let Some(old) = self.csrs.read(exchange.csr, self.mode, self.bus.lines()) else {
            return Err(illegal_instruction(instr));
        };
        if !is_write(exchange.op, exchange.field) {
            self.retire_with(exchange.rd, old);
            return Ok(None);
        }
        let value = csr_value(exchange.op, old, exchange.operand);
        match self.write_csr(exchange.csr, value) {
            Some(()) => {
                self.retire_with(exchange.rd, old);
                Ok(Some(exchange.csr))
            }
            None => Err(illegal_instruction(instr)),
        }
    }

    /// Writes a control register, and computes the shortcuts anew. Returns None, and changes nothing, if the
    /// mode may not write it. Out of line, so that an instruction that only reads one pays nothing for it.
    #[inline(never)]
    fn write_csr(&mut self, addr: u16, value: u32) -> Option<()>
        ensures written { WritesOrRefuses
            (registers.write self.old.machine.csrs addr self.old.machine.mode value)
            self.old.machine.csrs self.new.machine.csrs result }
        ensures machine { self.new.machine ≡ record self.old.machine { csrs = self.new.machine.csrs } }
        ensures cache { self.new.cache ≡ self.old.cache }
    {
        let mode = self.mode;
        let written = self.csrs.write(addr, mode, value);
        self.shortcuts = Shortcuts::of(&self.csrs, mode);
        written
    }

    /// Returns from a trap, which only machine mode may do. `word` is the word of MRET.
    #[tactic(auto, unfolding(crate::specs::Support::EffectParts::return_effect))]
    pub(super) fn leave_trap(&mut self, word: u32) -> Result<(), Trap>
        requires { word ≡ spec.word Kind.Mret }
        ensures { Does self.old self.new result (return_effect self.old.machine self.old.machine.mode) }
    {
        match self.mode {
            Mode::User => {
                return Err(Trap {
                    cause: 2,
                    tval: word,
                });
            }
            Mode::Machine => {
                let (mode, pc) = self.csrs.leave_trap();
                self.mode = mode;
                self.pc = pc;
                self.shortcuts = Shortcuts::of(&self.csrs, self.mode);
                return Ok(());
            }
        }
    }

    /// Waits for an interrupt, which ends at once. In user mode TW makes it illegal. `word` is the word of
    /// WFI.
    #[tactic(auto, unfolding(crate::specs::Support::EffectParts::wait_effect))]
    pub(super) fn wait(&mut self, word: u32) -> Result<(), Trap>
        requires { word ≡ spec.word Kind.Wfi }
        ensures { Does self.old self.new result (wait_effect self.old.machine) }
    {
        if self.mode == Mode::User && self.csrs.traps_wfi() {
            return Err(Trap {
                cause: 2,
                tval: word,
            });
        }
        self.advance();
        Ok(())
    }
}
