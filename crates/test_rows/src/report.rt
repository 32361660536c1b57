//! What is printed of rows.
use crate::row::{append_line, append_shown};
use rv_base::cut_lines;
use std::alloc::{AllocError, Global};

/// A result, if there was memory for it.
pub type Reported<T> = Result<T, AllocError>;

/// How many rows were answered, and how many of them differently.
#[derive(Clone, Copy)]
pub struct Count {
    /// The rows that were answered.
    pub rows: usize,
    /// Those whose answers differ from what they say.
    pub differing: usize,
}

impl Count {
    /// No row.
    pub const NONE: Count = Count {
        rows: 0,
        differing: 0,
    };

    /// A file that can't be read, which counts as one row that differs.
    pub const UNREAD: Count = Count {
        rows: 0,
        differing: 1,
    };

    /// Returns the sums of two counts.
    pub fn plus(self, other: Count) -> Count {
        Count {
            rows: self.rows.saturating_add(other.rows),
            differing: self.differing.saturating_add(other.differing),
        }
    }
}

/// What may be printed of rows.
#[derive(Drop)]
pub struct Report {
    /// The rows with the answers that they got, a blank line between two.
    pub answers: Vec<u8>,
    /// A few lines for each row that has other answers, and the counts.
    pub differences: Vec<u8>,
}

/// Returns the first line that differs between two texts, as both have it. Where a text has no more lines, that is an
/// empty line.
fn first_difference<'a>(wanted: &'a [u8], got: &'a [u8]) -> (&'a [u8], &'a [u8]) {
    let (mut wanted_lines, mut got_lines) = (cut_lines(wanted), cut_lines(got));
    for _ in 0..wanted.len() {
        let lines = (
            wanted_lines.next().unwrap_or(b""),
            got_lines.next().unwrap_or(b""),
        );
        if lines.0 != lines.1 {
            return lines;
        }
    }
    (b"", b"")
}

impl Report {
    /// Returns an empty report.
    pub fn new(alloc: Global) -> Report {
        Report {
            answers: Vec::new(alloc),
            differences: Vec::new(alloc),
        }
    }

    /// Returns what is to be printed: the rows with the answers that they got, or what differs.
    pub fn text(&self, answers: bool) -> &[u8] {
        if answers {
            self.answers.as_slice()
        } else {
            self.differences.as_slice()
        }
    }

    /// Appends a row with the answers that it got.
    pub fn append_answers(&mut self, row: &[u8]) -> Reported<()> {
        if !self.answers.is_empty() {
            self.answers.extend_from_slice(b"\n")?;
        }
        self.answers.extend_from_slice(row)
    }

    /// Appends that a file can't be read.
    pub fn append_unread(&mut self, name: &str) -> Reported<()> {
        append_line(name.as_bytes(), b": cannot be read", &mut self.differences)
    }

    /// Appends how many rows a file has, and how many of them differ.
    pub fn append_count(&mut self, alloc: Global, name: &str, count: Count) -> Reported<()> {
        let Count { rows, differing } = count;
        let line = format!(in alloc; "{name}: {rows} rows, {differing} differ\n");
        append_shown(line, &mut self.differences)
    }

    /// Appends the title of a row with the first line that differs: as the row has it, and as it was
    /// answered.
    pub fn append_difference(&mut self, name: &str, row: &[u8], got: &[u8]) -> Reported<()> {
        let title = cut_lines(row).next().unwrap_or(b"");
        let (wanted, got) = first_difference(row, got);
        self.differences.extend_from_slice(name.as_bytes())?;
        append_line(b": ", title, &mut self.differences)?;
        append_line(b"  wanted: ", wanted, &mut self.differences)?;
        append_line(b"  got:    ", got, &mut self.differences)
    }
}
