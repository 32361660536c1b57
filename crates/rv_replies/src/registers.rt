//! Registers.
ghost use Rattle.std.specs.Prelude.{◌≡◌, ◌++◌, OnOk};
ghost use Rattle.rv_replies.specs.Texts.{mode_number, register_text, register_value, registers_text};

use crate::words::append_word;
use rv_base::NoMemory;
use rv_board::BootedBoard;
use rv_isa::Reg;
use rv_pmp::Mode;

/// The number of the pc.
const PC: u32 = 32;

/// The number of the first control register.
const FIRST_CONTROL: u32 = 65;

/// The number of the mode, above those of control registers.
const MODE: u32 = 4161;

/// Appends x0 to x31 and the pc.
#[tactic(auto, using(crate::proofs::Reading::register_steps))]
pub(crate) fn append_registers(out: &mut Vec<u8>, board: &BootedBoard) -> Result<(), NoMemory>
    ensures { OnOk result (out.new.items ≡ out.old.items ++ registers_text board.now) }
{
    for number in 0..32u8 {
        append_word(out, board.reg(Reg::of(number)))?;
    }
    append_word(out, board.pc())?;
    Ok(())
}

/// Returns the number of a mode.
fn mode_number(mode: Mode) -> u32
    ensures { result ≡ mode_number mode }
{
    match mode {
        Mode::User => 0,
        Mode::Machine => 3,
    }
}

/// Returns the register of a number, if there is one.
fn register_value(board: &BootedBoard, number: u32) -> Option<u32>
    ensures { result ≡ register_value board.now number }
{
    if number < 32 {
        return Some(board.reg(Reg::of(number as u8)));
    }
    if number == PC {
        return Some(board.pc());
    }
    if number == MODE {
        return Some(mode_number(board.mode()));
    }
    if FIRST_CONTROL <= number && number < MODE {
        return board.csr((number - FIRST_CONTROL) as u16);
    }
    None
}

/// Appends the register of a number, or that there is none.
pub(crate) fn append_register(
    out: &mut Vec<u8>,
    board: &BootedBoard,
    number: u32,
) -> Result<(), NoMemory>
    ensures { OnOk result (out.new.items ≡ out.old.items ++ register_text board.now number) }
{
    match register_value(board, number) {
        Some(value) => append_word(out, value),
        None => Ok(out.extend_from_slice(b"E01")?),
    }
}
