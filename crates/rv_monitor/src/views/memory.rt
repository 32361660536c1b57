//! The dump of a range of memory, and the line of an instruction in memory.
ghost use Rattle.std.specs.Prelude.{◌≡◌, ◌++◌, ◌+◌, ◌-◌, ◌*◌, ◌%◌, ◌^◌, ◌<◌, ◌≤◌, codes, min, OnOk, OnErr, vec_len, vec_capacity};
ghost use Rattle.rv_monitor.specs.Support.Growth.{GrewBy};
ghost use Rattle.rv_monitor.specs.Room.{memory_room, instruction_room};
ghost use Rattle.rv_monitor.specs.Support.Labels.{byte_in_line, byte_text, memory_line, word_text};
ghost use Rattle.rv_monitor.specs.Views.{pieces, byte_at_offset, memory_text, word_at, instruction_text};

use rv_base::{NoMemory, append_within, byte_digits, word_digits};
use rv_board::Board;
use rv_cache::Decoded;
use rv_isa::{decode, write_instr};
use rv_ram::ByteMemory;

/// The number of memory bytes in a line.
const LINE_BYTES: u32 = 16;

/// Returns the byte at `addr + offset`, modulo 2^32, if there is memory.
fn byte_at<M: ByteMemory, C: Decoded>(board: &Board<M, C>, addr: u32, offset: u32) -> Option<u8>
    ensures { result ≡ byte_at_offset board.now addr offset }
{
    board.ram(addr.wrapping_add(offset))
}

/// Appends a space and a byte, or `--` where there is no memory.
fn append_byte(byte: Option<u8>, text: &mut Vec<u8>)
    requires { vec_len text.old + 3 ≤ vec_capacity text.old }
    ensures { GrewBy text.old text.new (codes " " ++ byte_text byte) 3 }
{
    append_within(text, b" ");
    match byte {
        Some(byte) => append_within(text, &byte_digits(byte)),
        None => append_within(text, b"--"),
    }
}

/// Appends `count` bytes from `addr`.
#[tactic(auto, using(crate::proofs::Pieces::no_piece_after, crate::proofs::Pieces::piece_appended), unfolding(crate::specs::Support::Labels::byte_in_line))]
fn append_bytes<M: ByteMemory, C: Decoded>(
    board: &Board<M, C>,
    addr: u32,
    count: u32,
    text: &mut Vec<u8>,
)
    requires { vec_len text.old + 3 * count ≤ vec_capacity text.old }
    ensures { GrewBy text.old text.new (pieces (byte_in_line board.now addr) count) (3 * count) }
{
    for offset in 0..count {
        append_byte(byte_at(board, addr, offset), text);
    }
}

/// Appends line `number` of a dump of `count` bytes from `addr`.
#[tactic(auto, unfolding(crate::specs::Views::bytes_line, crate::specs::Support::Labels::byte_in_line))]
fn append_line<M: ByteMemory, C: Decoded>(
    board: &Board<M, C>,
    addr: u32,
    count: u32,
    number: u32,
    text: &mut Vec<u8>,
)
    requires begins { 16 * number < count }
    requires room { vec_len text.old + 10 + 3 * min 16 (count - 16 * number) ≤ vec_capacity text.old }
    ensures { GrewBy text.old text.new (memory_line board.now addr count number)
        (10 + 3 * min 16 (count - 16 * number)) }
{
    let offset = LINE_BYTES * number;
    let line_count = LINE_BYTES.min(count - offset);
    let begin = addr.wrapping_add(offset);
    append_within(text, &word_digits(begin));
    append_within(text, b":");
    append_bytes(board, begin, line_count, text);
    append_within(text, b"\n");
}

/// Appends a dump of `count` bytes from `addr`, 16 in a line, with `--` where there is no memory. Addresses
/// wrap around at 2^32.
#[tactic(auto, using(crate::proofs::Pieces::no_piece_after, crate::proofs::Pieces::piece_appended), unfolding(crate::specs::Views::memory_text))]
pub fn write_memory<M: ByteMemory, C: Decoded>(
    board: &Board<M, C>,
    addr: u32,
    count: u32,
    text: &mut Vec<u8>,
) -> Result<(), NoMemory>
    ensures ok { OnOk result (text.new.items ≡ text.old.items ++ memory_text board.now addr count) }
    ensures err { OnErr result (text.new.items ≡ text.old.items) }
    ensures room { OnErr result (vec_capacity text.old < vec_len text.old + memory_room count) }
{
    let lines = count.div_ceil(LINE_BYTES);
    text.reserve(10 * lines as usize + 3 * count as usize)?;
    for number in 0..lines {
        append_line(board, addr, count, number, text);
    }
    Ok(())
}

/// Returns the word at an address, low byte first, if there is memory for all its bytes.
#[tactic(auto, using(crate::proofs::Words::word_is))]
pub fn word_at<M: ByteMemory, C: Decoded>(board: &Board<M, C>, addr: u32) -> Option<u32>
    ensures { result ≡ word_at board.now addr }
{
    let bytes = (
        byte_at(board, addr, 0),
        byte_at(board, addr, 1),
        byte_at(board, addr, 2),
        byte_at(board, addr, 3),
    );
    match bytes {
        (Some(low), Some(second), Some(third), Some(high)) => {
            Some(u32::from_le_bytes([low, second, third, high]))
        }
        _ => None,
    }
}

/// The largest number of bytes of a word with its instruction.
const WORD_BYTES: usize = 28;

/// Appends a word and its instruction, or `--------` if there is no word.
fn append_word(word: Option<u32>, text: &mut Vec<u8>)
    requires { vec_len text.old + WORD_BYTES ≤ vec_capacity text.old }
    ensures items { text.new.items ≡ text.old.items ++ word_text word }
    ensures len { vec_len text.new ≤ vec_len text.old + WORD_BYTES }
    ensures capacity { vec_capacity text.old ≤ vec_capacity text.new }
{
    let Some(word) = word else {
        return append_within(text, b"--------");
    };
    append_within(text, &word_digits(word));
    append_within(text, b" ");
    match decode(word) {
        // There is room for the longest text of an instruction.
        Some(instr) => write_instr(instr, text).unwrap(),
        None => append_within(text, b"illegal"),
    }
}

/// The largest number of bytes of an instruction's line.
const INSTRUCTION_BYTES: usize = WORD_BYTES + 11;

/// Appends the line of an address, its word and the word's instruction: `illegal` if no instruction has the
/// word, and `--------` if there is not memory for all four bytes.
#[tactic(auto, unfolding(crate::specs::Views::instruction_text))]
pub fn write_instruction<M: ByteMemory, C: Decoded>(
    board: &Board<M, C>,
    addr: u32,
    text: &mut Vec<u8>,
) -> Result<(), NoMemory>
    ensures ok { OnOk result (text.new.items ≡ text.old.items ++ instruction_text board.now addr) }
    ensures err { OnErr result (text.new.items ≡ text.old.items) }
    ensures room { OnErr result (vec_capacity text.old < vec_len text.old + instruction_room) }
{
    text.reserve(INSTRUCTION_BYTES)?;
    append_within(text, &word_digits(addr));
    append_within(text, b": ");
    append_word(word_at(board, addr), text);
    append_within(text, b"\n");
    Ok(())
}
