//! Which check of a step failed.
ghost use Rattle.std.specs.Prelude.{◌≡◌};
ghost use Rattle.std.specs.Option.{option_and_then};
ghost use Rattle.rv_isa.specs.Support.Meaning.{means};
ghost use Rattle.rv_isa.specs.Width.{bytes_of};
ghost use Rattle.rv_csr.specs.Registers.{status_word};
ghost use Rattle.rv_csr.specs.Traps.{data_mode};
ghost use Rattle.rv_hart.specs.Effect.{plus};
ghost use Rattle.rv_hart.specs.Laws.{interrupt_taken};
ghost use Rattle.rv_hart.specs.declared.trap.Outcome.TheVariants.{Trapped};
ghost use Rattle.rv_monitor.specs.Views.{word_at};
ghost use Rattle.rv_pmp.specs.Mode.{level};
ghost use Rattle.rv_why.specs.Why as spec;

use crate::barrier::barrier_of;
use crate::fetched::fetched;
use rv_answers::{Before, Reason, Sum, has_bit};
use rv_board::BootedBoard;
use rv_isa::{Instr, Kind, Reg, Width, decode};
use rv_monitor::word_at;
use rv_pmp::{Access, Mode};

/// The number of mstatus.
const MSTATUS: u16 = 0x300;

/// The bit of a cause that tells an interrupt.
const INTERRUPT: u32 = 1 << 31;

/// Returns mstatus as a word.
#[tactic(auto, using(crate::proofs::Words::mstatus_is))]
fn status_of(board: &BootedBoard) -> u32
    ensures { result ≡ status_word board.now.machine.csrs.mstatus }
{
    board.csr(MSTATUS).unwrap_or(0)
}

/// Returns the mode whose permissions loads and stores have.
#[tactic(auto, using(crate::proofs::Words::own_mode, crate::proofs::Words::machine_mode, crate::proofs::Words::user_mode))]
fn data_mode(board: &BootedBoard) -> Mode
    ensures { result ≡ data_mode board.now.machine.csrs board.now.machine.mode }
{
    let status = status_of(board);
    if !has_bit(status, 17) {
        return board.mode();
    }
    if has_bit(status, 11) {
        return Mode::Machine;
    }
    Mode::User
}

/// Returns a register with its value, and an offset from it.
fn sum_of(board: &BootedBoard, base: Reg, offset: i32) -> Sum
    ensures { result ≡ spec.sum board.now base offset }
{
    Sum {
        base,
        value: board.reg(base),
        offset,
    }
}

/// Returns why a load or a store trapped.
#[tactic(auto, unfolding(crate::specs::Why::why_accessed))]
fn why_accessed(board: &BootedBoard, access: Access, width: Width, base: Reg, offset: i32) -> Reason
    ensures { result ≡ spec.why_accessed board.now access (bytes_of width) base offset }
{
    let sum = sum_of(board, base, offset);
    let address = sum.value.wrapping_add(offset.cast_unsigned());
    let size = width.bytes();
    if address % size != 0 {
        return Reason::Misaligned { size, sum };
    }
    let barrier = barrier_of(board.pmp(), data_mode(board), access, address, width);
    Reason::Refused { sum, barrier }
}

/// Returns the level of a mode.
fn level_of(mode: Mode) -> u16
    ensures { result ≡ level mode }
{
    match mode {
        Mode::User => 0,
        Mode::Machine => 3,
    }
}

/// Returns why an instruction on a control register trapped.
#[tactic(auto, unfolding(crate::specs::Why::why_exchanged))]
fn why_exchanged(board: &BootedBoard, csr: u16) -> Reason
    ensures { result ≡ spec.why_exchanged board.now csr }
{
    if board.csr(csr).is_none() {
        return Reason::NoRegister(csr);
    }
    if (csr >> 8) % 4 <= level_of(board.mode()) {
        return Reason::ReadOnly(csr);
    }
    Reason::MachineOnly
}

/// Returns why an instruction trapped.
#[tactic(auto, unfolding(crate::specs::Why::why_executed))]
fn why_executed(board: &BootedBoard, instr: Instr) -> Reason
    ensures { result ≡ spec.why_executed board.now instr }
{
    match instr.kind() {
        Kind::Load {
            op,
            base,
            offset,
            ..
        } => { why_accessed(board, Access::Read, op.width(), base, offset) }
        Kind::Store {
            width,
            base,
            offset,
            ..
        } => { why_accessed(board, Access::Write, width, base, offset) }
        Kind::Csr { csr, .. } => why_exchanged(board, csr),
        Kind::CsrImm { csr, .. } => why_exchanged(board, csr),
        Kind::Ecall => Reason::Call,
        Kind::Ebreak => Reason::Break,
        Kind::Mret => Reason::MachineOnly,
        Kind::Wfi => Reason::MachineOnly,
        Kind::Jalr { base, offset, .. } => Reason::Target(Some(sum_of(board, base, offset))),
        _ => Reason::Target(None),
    }
}

/// Returns why a step trapped, by the board before it.
#[tactic(auto, unfolding(crate::specs::Why::why_trapped))]
pub(crate) fn why_trapped(board: &BootedBoard, cause: u32, epc: u32, tval: u32) -> Reason
    ensures { result ≡ spec.why_trapped board.now (Trapped cause epc tval) }
{
    if cause >= INTERRUPT {
        return Reason::Interrupt(cause - INTERRUPT);
    }
    match fetched(board) {
        Ok(instr) => why_executed(board, instr),
        Err(why) => Reason::NotFetched(why),
    }
}

/// Returns the instruction at an address, if there is one.
pub fn instruction_at(board: &BootedBoard, address: u32) -> Option<Instr>
    ensures { result ≡ option_and_then means (word_at board.now address) }
{
    decode(word_at(board, address)?)
}

/// Returns the register that the jump at an address goes to.
fn jump_sum(board: &BootedBoard, address: u32) -> Option<Sum>
    ensures { result ≡ option_and_then (spec.jump_sum board.now) (option_and_then means (word_at board.now address)) }
{
    match instruction_at(board, address)?.kind() {
        Kind::Jalr { base, offset, .. } => Some(sum_of(board, base, offset)),
        _ => None,
    }
}

/// Returns the instruction at pc, as the one before another.
pub(crate) fn before_of(board: &BootedBoard) -> Before
    ensures { result ≡ spec.before_of board.now }
{
    let address = board.pc();
    Before {
        address,
        word: word_at(board, address),
        sum: jump_sum(board, address),
    }
}
