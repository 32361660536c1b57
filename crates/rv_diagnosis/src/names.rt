//! The names of a source, and names that are near to a word.
use rv_base::cut_lines;
use rv_source::{Label, Statement, read_line_form};
use std::alloc::Global;
use strsim::generic_damerau_levenshtein;

/// The longest word for which a near name is looked for.
const LONGEST: usize = 64;

/// The name that takes the fewest edits to become a word, of those that were offered. Two neighbours that change places
/// are one edit.
#[derive(Clone, Copy)]
pub(crate) struct Nearest<'a> {
    pub word: &'a [u8],
    /// The nearest name; empty if none is near.
    pub name: &'a [u8],
    edits: usize,
}

impl<'a> Nearest<'a> {
    /// Returns a search for a word. A name is near if it takes one edit of a word of three or four bytes,
    /// two of one of up to eight, and three of a longer one.
    pub(crate) fn new(word: &'a [u8]) -> Nearest<'a> {
        let edits = match word.len() {
            0..=2 => 1,
            3..=4 => 2,
            5..=8 => 3,
            _ => 4,
        };
        Nearest {
            word,
            name: b"",
            edits,
        }
    }

    /// Offers a name. Of two that take as many edits, one that the word begins with is nearer.
    pub(crate) fn offer(&mut self, alloc: Global, name: &'a [u8]) {
        if self.word.len() > LONGEST || name.len() > LONGEST || name.is_empty() {
            return;
        }
        // at least as many edits as one is longer than the other
        if self.word.len().abs_diff(name.len()) > self.edits {
            return;
        }
        if let Ok(edits) = generic_damerau_levenshtein(alloc, self.word, name)
            && (edits < self.edits
                || edits == self.edits && !self.name.is_empty() && self.word.starts_with(name))
        {
            self.edits = edits;
            self.name = name;
        }
    }
}

/// Where a name is defined.
#[derive(Clone, Copy)]
pub(crate) struct Definition {
    /// The number of the line, counted from 1.
    pub line: usize,
    /// Whether it is a label, and not a constant.
    pub is_label: bool,
}

/// What a source has of a name.
#[derive(Clone, Copy)]
pub(crate) struct Survey<'a> {
    pub first: Option<Definition>,
    pub nearest: Nearest<'a>,
}

/// Looks at a name that a line defines.
fn look<'a>(alloc: Global, name: &'a [u8], line: usize, is_label: bool, survey: &mut Survey<'a>) {
    if name == survey.nearest.word {
        if survey.first.is_none() {
            survey.first = Some(Definition { line, is_label });
        }
    } else {
        survey.nearest.offer(alloc, name);
    }
}

/// Looks at the names that a line defines.
fn look_at_line<'a>(alloc: Global, text: &'a [u8], number: usize, survey: &mut Survey<'a>) {
    let Ok(line) = read_line_form(alloc, text) else {
        return;
    };
    for label in line.labels() {
        if let Label::Name(name) = label {
            look(alloc, name.bytes(), number, true, survey);
        }
    }
    if let Ok(Some(Statement::Constant { name, .. })) = line.statement() {
        look(alloc, name.bytes(), number, false, survey);
    }
}

/// Returns where a source defines a name first, and the nearest of its other names.
pub(crate) fn survey_of<'a>(alloc: Global, source: &'a [u8], word: &'a [u8]) -> Survey<'a> {
    let mut survey = Survey {
        first: None,
        nearest: Nearest::new(word),
    };
    let mut number: usize = 0;
    for text in cut_lines(source) {
        number = number.saturating_add(1);
        look_at_line(alloc, text, number, &mut survey);
    }
    survey
}
