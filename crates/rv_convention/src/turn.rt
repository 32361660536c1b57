//! What a step means to calls.
ghost use Rattle.std.specs.Prelude.{◌≡◌};
ghost use Rattle.std.specs.Option.{option_map_or};
ghost use Rattle.rv_why.specs.Origins.{instruction};
ghost use Rattle.rv_convention.specs.Convention as spec;
ghost use Rattle.rv_convention.specs.declared.turn.Turn.TheVariants as turns;

use rv_answers::Entry;
use rv_board::BootedBoard;
use rv_hart::Outcome;
use rv_isa::{Instr, Kind, Reg};
use rv_why::instruction_at;

/// The bit of a cause that tells an interrupt.
const INTERRUPT: u32 = 1 << 31;

/// What a step means to calls.
#[derive(Clone, Copy)]
pub(crate) enum Turn {
    /// It enters a function or a handler.
    Enters(Entry),
    /// It returns: by MRET, or from a function.
    Returns(bool),
    /// It accesses an address below sp.
    Below(u32),
    /// None of these.
    Other,
}

/// Returns what an access means, by the register and the offset of its address.
fn access_turn(board: &BootedBoard, base: Reg, offset: i32) -> Turn
    ensures { result ≡ spec.access_turn board.now base offset }
{
    let value = board.reg(base);
    let address = value.wrapping_add(offset.cast_unsigned());
    if base.number() == 2 && address < value {
        return Turn::Below(address);
    }
    Turn::Other
}

/// Returns what a jump means that writes the pc to a register.
fn jump_turn(rd: Reg) -> Turn
    ensures { result ≡ spec.jump_turn rd }
{
    if rd.number() == 1 {
        return Turn::Enters(Entry::Call);
    }
    Turn::Other
}

/// Returns what a jump to a register means.
fn register_turn(rd: Reg, base: Reg) -> Turn
    ensures { result ≡ spec.register_turn rd base }
{
    if rd.number() == 0 && base.number() == 1 {
        return Turn::Returns(false);
    }
    jump_turn(rd)
}

/// Returns what an instruction means, if it retires.
#[tactic(auto, unfolding(crate::specs::Convention::kind_turn))]
fn kind_turn(board: &BootedBoard, instr: Instr) -> Turn
    ensures { result ≡ spec.kind_turn board.now instr }
{
    match instr.kind() {
        Kind::Jal { rd, .. } => jump_turn(rd),
        Kind::Jalr { rd, base, .. } => register_turn(rd, base),
        Kind::Mret => Turn::Returns(true),
        Kind::Load { base, offset, .. } => access_turn(board, base, offset),
        Kind::Store { base, offset, .. } => access_turn(board, base, offset),
        _ => Turn::Other,
    }
}

/// Returns what the instruction at pc means, if it retires.
pub(crate) fn next_turn(board: &BootedBoard) -> Turn
    ensures { result ≡ option_map_or (spec.kind_turn board.now) (instruction board.now) turns.Other }
{
    match instruction_at(board, board.pc()) {
        Some(instr) => kind_turn(board, instr),
        None => Turn::Other,
    }
}

/// Returns what a trap means.
fn trap_turn(cause: u32) -> Turn
    ensures { result ≡ spec.trap_turn cause }
{
    if cause >= INTERRUPT {
        return Turn::Enters(Entry::Interrupt);
    }
    Turn::Enters(Entry::Exception)
}

/// Returns what a step means that did that. `retires` is what its instruction means, if it retires.
#[tactic(auto, unfolding(crate::specs::Convention::turn_by))]
pub(crate) fn turn_of(outcome: Outcome, retires: Turn) -> Turn
    ensures { result ≡ spec.turn_by outcome retires }
{
    match outcome {
        Outcome::Trapped { cause, .. } => trap_turn(cause),
        Outcome::Retired => retires,
        Outcome::Halted => retires,
    }
}
