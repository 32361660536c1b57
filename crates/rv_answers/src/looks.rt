//! The text of what commands answer that only look at the board or the source, and of how a board stands.
use crate::interrupts::sign;
use crate::lines::{Lines, Near, Short, append_instruction, lines_from};
use crate::registers::append_registers;
use crate::shown::Count;
use crate::values::{Edges, Place, RegisterFile, Standing, Trap};
use crate::{Printer, Row};
use rv_pmp::Mode;

/// Appends where a line lies, or spaces where it has no bytes.
fn append_cell(row: Row, text: &mut Printer) {
    match (row.address, row.word) {
        (Some(address), Some(word)) => write!(text, "{address:08x}  {word:08x}"),
        (Some(address), None) => write!(text, "{address:08x}  {:8}", ""),
        (None, _) => return write!(text, "{:20}", ""),
    }
    text.say(sign(row.has_more, "+ ", "  "));
}

/// Appends a row of a list of the source, with the text of its line.
fn append_row(row: Row, line: &[u8], text: &mut Printer) {
    text.say(sign(row.is_here, ">", " "));
    text.say(sign(row.is_marked, "*", " "));
    append_cell(row, text);
    text.line(row.number, line);
    text.end();
}

impl Lines<'_> {
    /// Appends where a board stands.
    pub(crate) fn append_standing(self, standing: Standing, text: &mut Printer) {
        let (steps, mode) = (standing.steps, mode_name(standing.mode));
        writeln!(text, "step {steps}, {mode}");
        append_halt(standing, text);
        self.append_place(standing.here, text);
        text.say("\n  ");
        append_instruction(standing.here.word, text);
        text.end();
    }

    /// Appends all registers.
    pub(crate) fn append_file(self, file: &RegisterFile, text: &mut Printer) {
        append_registers(&file.before, &file.now, text);
        let (address, near) = (file.here.address, Near(self, file.here));
        writeln!(text, "  pc   {address:08x}{near}  {}", mode_name(file.mode));
    }

    /// Appends an address with its label and its instruction.
    pub(crate) fn append_instruction_at(self, mut place: Place, text: &mut Printer) {
        place.line = None;
        self.append_here(place, text);
    }

    /// Appends rows of the source, which follow one another.
    pub(crate) fn append_rows(self, rows: &[Row], text: &mut Printer) {
        let [first, ..] = rows else {
            return;
        };
        let mut lines = lines_from(self.source, first.number);
        for row in rows {
            append_row(*row, lines.next().unwrap_or(b""), text);
        }
    }

    /// Appends traps, each with how often it was taken in a row.
    pub(crate) fn append_traps(self, traps: &[Trap], text: &mut Printer) {
        if traps.is_empty() {
            text.say("no trap so far\n");
        }
        for trap in traps {
            write!(text, "{trap}, at{}", Short(self, trap.place));
            if trap.times > 1 {
                write!(text, ", {} times", trap.times);
            }
            text.end();
        }
    }
}

/// Appends how many lines a source has.
pub(crate) fn append_count(lines: usize, text: &mut Printer) {
    writeln!(text, "the source has {}", Count(lines as u64, "line"));
}

/// Appends the pending edges of a source of interrupts.
pub(crate) fn append_edges(edges: Edges, text: &mut Printer) {
    let pending = Count(u64::from(edges.pending), "pending edge");
    writeln!(text, "source {}: {pending}", edges.source);
}

/// Returns a mode in words.
pub(crate) fn mode_name(mode: Mode) -> &'static str {
    match mode {
        Mode::User => "user mode",
        Mode::Machine => "machine mode",
    }
}

/// Appends that a board has halted, if it has.
pub(crate) fn append_halt(standing: Standing, text: &mut Printer) {
    if let Some(code) = standing.halted {
        let steps = Count(standing.steps, "step");
        writeln!(text, "halted with code {code} after {steps}");
    }
}

/// Appends why a board takes no step: it has halted, or the lab takes no more.
pub(crate) fn append_stuck(standing: Standing, text: &mut Printer) {
    match standing.halted {
        Some(_) => append_halt(standing, text),
        None => text.say("the lab takes no more than 9999999999 steps\n"),
    }
}
