//! The lines of registers, of the pc and the mode, and of a control register.
ghost use Rattle.std.specs.Prelude.{◌≡◌, ◌++◌, ◌+◌, ◌%◌, ◌==◌, ◌<◌, ◌≤◌, if◌then◌else◌, codes, length, Some, IsSome, OnOk, OnErr, vec_len, vec_capacity};
ghost use Rattle.rv_base.specs.Tables.{lookup};
ghost use Rattle.rv_isa.specs.Names.{csr_names};
ghost use Rattle.rv_board.specs.Support.State.{csr_of};
ghost use Rattle.rv_pmp.specs.Mode.{is_machine};
ghost use Rattle.rv_monitor.specs.Support.Growth.{GrewBy};
ghost use Rattle.rv_monitor.specs.Room.{registers_room, control_register_room};
ghost use Rattle.rv_monitor.specs.Views.{pieces, registers_text, control_register_text, register_in_line};
ghost use Rattle.rv_base.specs.Digits.{hex};
ghost use Rattle.rv_monitor.specs.Support.Numbers.{two_decimals};

use rv_base::{NoMemory, append_within, word_digits};
use rv_board::Board;
use rv_cache::Decoded;
use rv_isa::Reg;
use rv_pmp::Mode;
use rv_ram::ByteMemory;

/// Returns the letter of a mode: `U` or `M`.
pub fn mode_letter(mode: Mode) -> &'static str
    ensures letter { result.now ≡ (if is_machine mode then codes "M" else codes "U") }
    ensures one { length result.now ≡ 1 }
{
    match mode {
        Mode::User => "U",
        Mode::Machine => "M",
    }
}

/// The number of bytes of the pc and the mode.
const PLACE_BYTES: usize = 18;

/// Appends a pc and a mode, to a text that has room for them.
pub(crate) fn append_place(pc: u32, mode: Mode, text: &mut Vec<u8>)
    requires { vec_len text.old + PLACE_BYTES ≤ vec_capacity text.old }
    ensures { GrewBy text.old text.new (codes "pc=" ++ hex 8 pc ++ codes " mode="
        ++ (if is_machine mode then codes "M" else codes "U")) PLACE_BYTES }
{
    append_within(text, b"pc=");
    append_within(text, &word_digits(pc));
    append_within(text, b" mode=");
    append_within(text, mode_letter(mode).as_bytes());
}

/// Returns the two decimal digits of a number below 100.
#[tactic(auto, unfolding(crate::specs::Support::Numbers::two_decimals))]
fn two_decimals(number: u8) -> [u8; 2]
    requires { number < 100 }
    ensures { result ≡ two_decimals number }
{
    [b'0' + number / 10, b'0' + number % 10]
}

/// The number of bytes of a register, with the space or the line end that follows it.
const REGISTER_BYTES: usize = 13;

/// The number of registers.
const REGISTERS: u8 = 32;

/// Appends a register with its value, and a line end after every fourth register or else a space.
fn append_register(register: Reg, value: u32, text: &mut Vec<u8>)
    requires { vec_len text.old + REGISTER_BYTES ≤ vec_capacity text.old }
    ensures { GrewBy text.old text.new ((codes "x" ++ two_decimals register ++ codes "=" ++ hex 8 value)
        ++ (if register % 4 == 3 then codes "\n" else codes " ")) REGISTER_BYTES }
{
    append_within(text, b"x");
    append_within(text, &two_decimals(register.number()));
    append_within(text, b"=");
    append_within(text, &word_digits(value));
    if register.number() % 4 == 3 {
        append_within(text, b"\n");
    } else {
        append_within(text, b" ");
    }
}

/// Appends the lines of all registers, four in a line.
#[tactic(auto, using(crate::proofs::Pieces::no_piece_after, crate::proofs::Pieces::piece_appended), unfolding(crate::specs::Views::register_in_line, crate::specs::Support::Numbers::two_decimals))]
fn append_registers<M: ByteMemory, C: Decoded>(board: &Board<M, C>, text: &mut Vec<u8>)
    requires { vec_len text.old + 416 ≤ vec_capacity text.old }
    ensures { GrewBy text.old text.new (pieces (register_in_line board.now) 32) 416 }
{
    for number in 0..REGISTERS {
        // Each number below 32 has a register.
        let register = Reg::new(number).unwrap();
        append_register(register, board.reg(register), text);
    }
}

/// Appends the lines of all 32 registers, four in a line, and the line of the pc and the mode.
#[tactic(auto, unfolding(crate::specs::Views::registers_text, crate::specs::Views::place_text))]
pub fn write_registers<M: ByteMemory, C: Decoded>(
    board: &Board<M, C>,
    text: &mut Vec<u8>,
) -> Result<(), NoMemory>
    ensures ok { OnOk result (text.new.items ≡ text.old.items ++ registers_text board.now) }
    ensures err { OnErr result (text.new.items ≡ text.old.items) }
    ensures room { OnErr result (vec_capacity text.old < vec_len text.old + registers_room) }
{
    text.reserve(REGISTER_BYTES * usize::from(REGISTERS) + PLACE_BYTES + 1)?;
    append_registers(board, text);
    append_place(board.pc(), board.mode(), text);
    append_within(text, b"\n");
    Ok(())
}

/// The number of bytes of a control register's line, beside its name.
const VALUE_BYTES: usize = 10;

/// Appends the line of a control register: its name as given, and the value that machine mode reads. `csr` is
/// the number that `csr_named` returns for the name.
#[tactic(auto, using(crate::proofs::Named::named_is_read), unfolding(crate::specs::Views::control_register_text))]
pub fn write_control_register<M: ByteMemory, C: Decoded>(
    board: &Board<M, C>,
    name: &[u8],
    csr: u16,
    text: &mut Vec<u8>,
) -> Result<(), NoMemory>
    requires { lookup name.now csr_names ≡ Some csr }
    ensures ok { OnOk result (text.new.items ≡ text.old.items
        ++ control_register_text board.now name.now csr) }
    ensures err { OnErr result (text.new.items ≡ text.old.items) }
    ensures room { OnErr result (vec_capacity text.old < vec_len text.old + control_register_room name.now) }
    ensures read { IsSome (csr_of board.now csr) }
{
    // Each name of the table has a register that can be read.
    let value = board.csr(csr).unwrap();
    text.reserve(name.len() + VALUE_BYTES)?;
    append_within(text, name);
    append_within(text, b"=");
    append_within(text, &word_digits(value));
    append_within(text, b"\n");
    Ok(())
}
