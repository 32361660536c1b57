//! The runs of whole programs.
use crate::checks::check_at;
use rv_board::{BootedBoard, Event};
use rv_isa::Reg;
use rv_plic::Source;
use std::alloc::Global;
use test_definitions::runs::{RUNS, Run, Word};

/// Returns the bytes of the words of a program, or none where there is no memory.
fn image(alloc: Global, words: &[Word]) -> Option<Vec<u8>> {
    let mut image = Vec::new(alloc);
    for &(_, _, _, word) in words {
        image.extend_from_slice(&word.to_le_bytes()).ok()?;
    }
    Some(image)
}

/// Boots a board with the words of a program.
fn booted(alloc: Global, words: &[Word]) -> Option<BootedBoard> {
    let image = image(alloc, words)?;
    BootedBoard::boot(alloc, &image, 1, 64).ok()
}

/// Takes steps. Whether there is memory for them.
fn take(board: &mut BootedBoard, steps: u32) -> bool {
    for _ in 0..steps {
        if board.apply(Event::Step).is_err() {
            return false;
        }
    }
    true
}

/// Sets a line. Whether there is such a source, and memory.
fn set_line(board: &mut BootedBoard, number: u8, level: u8) -> bool {
    match Source::new(number) {
        Some(source) => {
            let high = level == 1;
            board.apply(Event::Line { source, high }).is_ok()
        }
        None => false,
    }
}

/// Sets lines, each after some steps. Whether there are such sources, and memory.
fn set_lines(board: &mut BootedBoard, lines: &[(u32, u8, u8)]) -> bool {
    for &(before, number, level) in lines {
        if !take(board, before) || !set_line(board, number, level) {
            return false;
        }
    }
    true
}

/// Whether a register has a value.
fn has_value(board: &BootedBoard, number: u8, value: u32) -> bool {
    match Reg::new(number) {
        Some(reg) => board.reg(reg) == value,
        None => false,
    }
}

/// Whether registers have these values.
fn has_values(board: &BootedBoard, values: &[(u8, u32)]) -> bool {
    let mut are = true;
    for &(number, value) in values {
        are = are && has_value(board, number, value);
    }
    are
}

/// Whether control registers have these words.
fn has_words(board: &BootedBoard, words: &[(u16, u32)]) -> bool {
    let mut are = true;
    for &(addr, word) in words {
        are = are && board.csr(addr) == Some(word);
    }
    are
}

/// Does a run. Whether there is memory, and the board stands then where it has to.
fn does(board: &mut BootedBoard, &(_, lines, steps, pc, values, words, sent): &Run) -> bool {
    set_lines(board, lines)
        && take(board, steps)
        && board.pc() == pc
        && board.console() == sent
        && has_values(board, values)
        && has_words(board, words)
}

// A function that owns a board drops it at each exit, which costs proof: so this one alone owns one, and lends it.

/// Whether a run ends as it has to.
fn ends(alloc: Global, run: &Run) -> bool {
    match booted(alloc, run.0) {
        Some(mut board) => does(&mut board, run),
        None => false,
    }
}

#[test]
fn runs(rt: HostRuntime) {
    for run in RUNS.iter() {
        check_at(&rt, ends(rt.alloc(), run), run.3);
    }
}
