//! The lines of a stop, of the last traps, and of pending edges.
ghost use Rattle.std.specs.Prelude.{◌≡◌, ◌++◌, ◌+◌, ◌*◌, ◌<◌, ◌≤◌, length, IsOk, OnOk, OnErr, vec_len, vec_capacity};
ghost use Rattle.std.specs.List.{flat_map};
ghost use Rattle.rv_monitor.specs.Support.Growth.{GrewBy};
ghost use Rattle.rv_monitor.specs.Support.Labels.{labelled};
ghost use Rattle.rv_monitor.specs.Room.{edges_room, stop_room, traps_room};
ghost use Rattle.rv_monitor.specs.Views.{edges_text, stop_text, trap_text};

use super::registers::append_place;
use itoa::Buffer;
use rv_base::{NoMemory, append_within, word_digits};
use rv_board::{Board, TrapRecord};
use rv_cache::Decoded;
use rv_plic::Source;
use rv_ram::ByteMemory;

/// The largest number of bytes of a stop's line, beside its word.
pub const STOP_BYTES: usize = 52;

/// Appends the line of a stop: why the steps ended, the pc, the mode, and how many steps the board has taken.
/// It allocates only if the text has no room for the word and `STOP_BYTES` more.
#[tactic(auto, unfolding(crate::specs::Views::stop_text, crate::specs::Views::place_text))]
pub fn write_stop<M: ByteMemory, C: Decoded>(
    board: &Board<M, C>,
    word: &str,
    text: &mut Vec<u8>,
) -> Result<(), NoMemory>
    ensures ok { OnOk result (text.new.items ≡ text.old.items ++ stop_text board.now word.now) }
    ensures err { OnErr result (text.new.items ≡ text.old.items) }
    ensures room { vec_len text.old + stop_room word.now ≤ vec_capacity text.old → IsOk result }
{
    text.reserve(word.len() + STOP_BYTES)?;
    let mut buffer = Buffer::new();
    let steps = buffer.format(board.steps());
    append_within(text, b"stop ");
    append_within(text, word.as_bytes());
    append_within(text, b" ");
    append_place(board.pc(), board.mode(), text);
    append_within(text, b" steps=");
    append_within(text, steps.as_bytes());
    append_within(text, b"\n");
    Ok(())
}

/// The number of bytes of a trap's line.
const TRAP_BYTES: usize = 47;

/// Appends a label and a word.
#[tactic(auto, unfolding(crate::specs::Support::Labels::labelled))]
fn append_labelled(label: &[u8], word: u32, text: &mut Vec<u8>)
    requires { vec_len text.old + length label.now + 8 ≤ vec_capacity text.old }
    ensures { GrewBy text.old text.new (labelled label.now word) (length label.now + 8) }
{
    append_within(text, label);
    append_within(text, &word_digits(word));
}

/// Appends the line of a trap.
#[tactic(auto, unfolding(crate::specs::Views::trap_text, crate::specs::Support::Labels::labelled))]
fn append_trap(trap: TrapRecord, text: &mut Vec<u8>)
    requires { vec_len text.old + TRAP_BYTES ≤ vec_capacity text.old }
    ensures { GrewBy text.old text.new (trap_text trap) TRAP_BYTES }
{
    append_labelled(b"trap cause=", trap.cause, text);
    append_labelled(b" epc=", trap.epc, text);
    append_labelled(b" tval=", trap.tval, text);
    append_within(text, b"\n");
}

/// Appends a line for each trap that the board keeps, oldest first.
#[tactic(auto, using(crate::proofs::Pieces::has_trap, crate::proofs::Pieces::trap_appended))]
pub fn write_traps<M: ByteMemory, C: Decoded>(
    board: &Board<M, C>,
    text: &mut Vec<u8>,
) -> Result<(), NoMemory>
    ensures ok { OnOk result (text.new.items ≡ text.old.items ++ flat_map trap_text board.now.traps) }
    ensures err { OnErr result (text.new.items ≡ text.old.items) }
    ensures room { OnErr result
        (vec_capacity text.old < vec_len text.old + traps_room (length board.now.traps)) }
{
    text.reserve(TRAP_BYTES * board.trap_count())?;
    for index in 0..board.trap_count() {
        // Each index below the count has a trap.
        let trap = board.trap(index).unwrap();
        append_trap(trap, text);
    }
    Ok(())
}

/// The largest number of bytes of the line of pending edges.
const EDGES_BYTES: usize = 27;

/// Appends the line of a source's number and how many of its edges are pending.
#[tactic(auto, using(crate::proofs::Pieces::two_at_most), unfolding(crate::specs::Views::edges_text))]
pub fn write_edges<M: ByteMemory, C: Decoded>(
    board: &Board<M, C>,
    source: Source,
    text: &mut Vec<u8>,
) -> Result<(), NoMemory>
    ensures ok { OnOk result (text.new.items ≡ text.old.items ++ edges_text board.now source) }
    ensures err { OnErr result (text.new.items ≡ text.old.items) }
    ensures room { OnErr result (vec_capacity text.old < vec_len text.old + edges_room) }
{
    text.reserve(EDGES_BYTES)?;
    let mut buffer = Buffer::new();
    append_within(text, b"source ");
    append_within(text, buffer.format(source.number()).as_bytes());
    append_within(text, b" edges=");
    append_within(text, buffer.format(board.plic().edges(source)).as_bytes());
    append_within(text, b"\n");
    Ok(())
}
