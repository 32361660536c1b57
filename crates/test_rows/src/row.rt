//! Rows and their lines.
use rv_base::{NoMemory, cut_lines, decimal};
use std::alloc::{AllocError, Global};

/// The text of a row: its title, what it asks, and the answers.
#[derive(Clone, Copy)]
pub struct Row<'a> {
    pub text: &'a [u8],
}

/// Returns how long the first row of a text is: it ends where a blank line and a title follow.
fn row_length(text: &[u8]) -> usize {
    for before in 0..text.len() {
        if text.split_at(before).1.starts_with(b"\n\n# ") {
            return before.saturating_add(1);
        }
    }
    text.len()
}

/// Returns the first row of a text and what follows the blank line after it, or none of an empty text.
pub fn first_row(text: &[u8]) -> Option<(Row<'_>, &[u8])> {
    text.first()?;
    let (row, following) = text.split_at(row_length(text).min(text.len()));
    Some((Row { text: row }, following.get(1..).unwrap_or(b"")))
}

/// Returns what stands in a line after its first byte and the blank that follows it.
pub fn argument(line: &[u8]) -> &[u8] {
    line.get(2..).unwrap_or(b"")
}

/// Appends a line with a text in front of it.
pub fn append_line(front: &[u8], line: &[u8], text: &mut Vec<u8>) -> Result<(), AllocError> {
    text.extend_from_slice(front)?;
    text.extend_from_slice(line)?;
    text.extend_from_slice(b"\n")
}

/// Appends what a format gives.
pub fn append_shown(
    shown: Result<String, AllocError>,
    text: &mut Vec<u8>,
) -> Result<(), AllocError> {
    text.extend_from_slice(shown?.as_bytes())
}

/// Whether there was memory for what is appended.
pub type Appended = Result<(), NoMemory>;

/// What answers the lines of a row.
pub trait Answers {
    /// Appends the answer to the line that begins with this byte and has this argument, or nothing where it asks nothing.
    fn answer(&mut self, alloc: Global, mark: u8, argument: &[u8], text: &mut Vec<u8>) -> Appended;
}

/// Appends the lines of a row that begin with one of these bytes, each with its answer. Its other lines are answers,
/// which are given anew.
pub fn append_answers<A: Answers>(
    alloc: Global,
    row: Row<'_>,
    marks: &[u8],
    answers: &mut A,
    text: &mut Vec<u8>,
) -> Appended {
    for line in cut_lines(row.text) {
        if let Some(&mark) = line.first()
            && marks.contains(&mark)
        {
            append_line(b"", line, text)?;
            answers.answer(alloc, mark, argument(line), text)?;
        }
    }
    Ok(())
}

/// Returns the value of up to ten decimal digits, or 0 for any other text.
pub fn number(digits: &[u8]) -> u64 {
    decimal(9_999_999_999, digits).unwrap_or(0)
}

impl<'a> Row<'a> {
    /// Returns the first line of the row that begins with this byte.
    fn line_of(self, mark: u8) -> Option<&'a [u8]> {
        for line in cut_lines(self.text) {
            if line.starts_with(&[mark]) {
                return Some(line);
            }
        }
        None
    }

    /// Whether a line of the row begins with this byte.
    pub fn has(self, mark: u8) -> bool {
        self.line_of(mark).is_some()
    }

    /// Returns the number that follows this byte at the beginning of a line, or 0 where there is no such
    /// line.
    pub fn number_of(self, mark: u8) -> u64 {
        match self.line_of(mark) {
            Some(line) => number(argument(line)),
            None => 0,
        }
    }

    /// Returns the arguments of the lines that begin with this byte, a line each.
    pub fn lines_of(self, alloc: Global, mark: u8) -> Result<Vec<u8>, NoMemory> {
        let mut part = Vec::new(alloc);
        for line in cut_lines(self.text) {
            if line.starts_with(&[mark]) {
                append_line(b"", argument(line), &mut part)?;
            }
        }
        Ok(part)
    }
}
