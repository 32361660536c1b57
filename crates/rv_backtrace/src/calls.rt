//! Which call stands at an address.
ghost use Rattle.std.specs.Prelude.{◌≡◌, ◌*◌, ◌/◌, option_and_then};
ghost use Rattle.std.specs.Option.{option_map};
ghost use Rattle.rv_hart.specs.Effect.{plus};
ghost use Rattle.rv_backtrace.specs.Backtrace as spec;

use rv_board::BootedBoard;
use rv_isa::{Instr, Kind, Reg};
use rv_why::instruction_at;

/// Returns the value that AUIPC at an address gives a register, if an instruction is that.
fn upper(address: u32, base: Reg, instr: Instr) -> Option<u32>
    ensures { result ≡ spec.upper address base instr }
{
    match instr.kind() {
        Kind::Auipc { rd, imm } => {
            if rd.number() == base.number() {
                Some(address.wrapping_add(imm.wrapping_mul(4096)))
            } else {
                None
            }
        }
        _ => None,
    }
}

/// Returns where a jump to a register leads that an instruction before it has set.
fn sum_of(board: &BootedBoard, before: u32, base: Reg, offset: i32) -> Option<u32>
    ensures { result ≡ option_map (λ t. plus t offset / 2 * 2) (option_and_then (spec.upper before base) (spec.instruction_at board.now before)) }
{
    let set = upper(before, base, instruction_at(board, before)?)?;
    Some(set.wrapping_add(offset.cast_unsigned()) / 2 * 2)
}

/// Returns where the call at an address leads, as far as instructions tell it.
#[tactic(auto, unfolding(crate::specs::Backtrace::leads_to))]
fn leads_to(board: &BootedBoard, address: u32, instr: Instr) -> Option<u32>
    ensures { result ≡ spec.leads_to board.now address instr }
{
    match instr.kind() {
        Kind::Jal { rd, offset } => {
            if rd.number() == 1 {
                Some(address.wrapping_add(offset.cast_unsigned()))
            } else {
                None
            }
        }
        Kind::Jalr { rd, base, offset } => {
            if rd.number() == 1 {
                sum_of(board, address.saturating_sub(4), base, offset)
            } else {
                None
            }
        }
        _ => None,
    }
}

/// Returns whether the instruction at an address calls the function that begins at another.
pub(crate) fn is_call(board: &BootedBoard, address: u32, start: u32) -> bool
    ensures { result ≡ spec.is_call board.now address start }
{
    match instruction_at(board, address) {
        Some(instr) => leads_to(board, address, instr) == Some(start),
        None => false,
    }
}
