//! Places in lines.
use crate::diagnosis::Diagnosis;
use rv_base::{cut_lines, is_blank};

/// A place in a line: what stands before it, the place, and what stands after it.
#[derive(Clone, Copy)]
pub(crate) struct Spot<'a> {
    pub before: &'a [u8],
    pub piece: &'a [u8],
    pub after: &'a [u8],
    /// The place and what stands after it.
    pub rest: &'a [u8],
}

/// Returns the line with a number, counted from 1; nothing if there are fewer lines.
pub(crate) fn line_text(source: &[u8], number: usize) -> &[u8] {
    let mut left = number.saturating_sub(1);
    for text in cut_lines(source) {
        if left == 0 {
            return text;
        }
        left -= 1;
    }
    &[]
}

/// Returns the place of a diagnosis in its line.
pub(crate) fn spot_of<'a>(line: &'a [u8], diagnosis: &Diagnosis) -> Spot<'a> {
    let column = diagnosis.column.saturating_sub(1).min(line.len());
    let (before, rest) = line.split_at(column);
    let (piece, after) = rest.split_at(diagnosis.length.min(rest.len()));
    Spot {
        before,
        piece,
        after,
        rest,
    }
}

/// Returns the first byte of a text that is no blank; 0 if there is none.
pub(crate) fn first_byte(text: &[u8]) -> u8 {
    skip_blanks(text).first().copied().unwrap_or(0)
}

/// Returns the last byte of a text that is no blank; 0 if there is none.
pub(crate) fn last_byte(text: &[u8]) -> u8 {
    let mut last = 0;
    for byte in text {
        if !is_blank(*byte) {
            last = *byte;
        }
    }
    last
}

/// Whether a name may have a byte.
pub(crate) fn is_in_name(byte: u8) -> bool {
    byte.is_ascii_alphanumeric() || byte == b'_' || byte == b'.' || byte == b'$'
}

/// Whether a text begins with a digit.
pub(crate) fn begins_with_digit(text: &[u8]) -> bool {
    matches!(text, [b'0'..=b'9', ..])
}

/// Whether a text has digits alone.
pub(crate) fn has_digits_alone(text: &[u8]) -> bool {
    text.iter().all(|byte| byte.is_ascii_digit())
}

/// Returns the bytes at the beginning of a text that a name may have.
pub(crate) fn run_of(text: &[u8]) -> &[u8] {
    for index in 0..text.len() {
        if !is_in_name(text[index]) {
            return text.split_at(index).0;
        }
    }
    text
}

/// Returns a text without the blanks at its beginning.
pub(crate) fn skip_blanks(text: &[u8]) -> &[u8] {
    for index in 0..text.len() {
        if !is_blank(text[index]) {
            return text.split_at(index).1;
        }
    }
    b""
}

/// Returns the word with which a text begins, and the next one.
pub(crate) fn two_words(text: &[u8]) -> (&[u8], &[u8]) {
    let text = skip_blanks(text);
    let word = run_of(text);
    let rest = text.split_at(word.len().min(text.len())).1;
    (word, run_of(skip_blanks(rest)))
}

/// Returns the statement of a line up to a place, by what stands before that: what follows the last colon, which ends a
/// label.
pub(crate) fn statement_in(before: &[u8]) -> &[u8] {
    let mut place: usize = 0;
    let mut begin: usize = 0;
    for byte in before {
        place = place.saturating_add(1);
        if *byte == b':' {
            begin = place;
        }
    }
    before.split_at(begin.min(before.len())).1
}

/// Returns the word with which the statement of a line begins, by what stands before a place in it.
pub(crate) fn word_in(before: &[u8]) -> &[u8] {
    two_words(statement_in(before)).0
}

/// Returns how often a byte stands in a text.
pub(crate) fn count_of(text: &[u8], wanted: u8) -> usize {
    let mut count: usize = 0;
    for byte in text {
        if *byte == wanted {
            count = count.saturating_add(1);
        }
    }
    count
}
