//! What the words of the language take.
use crate::Operand;
use crate::field::{given, put};
use crate::row::{Given, Role, Row};
use crate::table::ways_of;
use crate::words::{DIRECTIVES, MARKERS, PSEUDO_INSTRUCTIONS};
use rv_isa::operation_named;

/// The operands that a word takes.
#[derive(Clone, Copy)]
pub enum Shape {
    /// As many operands as there are roles, each in its role.
    These(&'static [Role]),
    /// One or more operands, all in one role.
    Each(Role),
}

/// Returns the row of a pseudo-instruction or a directive with an index, counted from 0, among the rows of the word.
fn row_of(word: &[u8], index: usize) -> Option<Row> {
    let rows = PSEUDO_INSTRUCTIONS.iter().chain(DIRECTIVES.iter());
    Some(rows.filter(|row| row.0.as_bytes() == word).nth(index)?.1)
}

/// Returns what a word takes, as its row with an index, counted from 0, has it. The rows are tried in their
/// order.
pub fn shape_of(word: &[u8], index: usize) -> Option<Shape> {
    let row = match operation_named(word) {
        Some(operation) => ways_of(operation).get(index)?.row(operation),
        None => row_of(word, index)?,
    };
    match row {
        Row::These(roles, _, _) => Some(Shape::These(roles)),
        Row::Each(role, _) => Some(Shape::Each(role)),
    }
}

/// Returns the pseudo-instruction or the directive with an index, counted from 0. A word with several rows
/// comes several times.
pub fn word_at(index: usize) -> Option<&'static str> {
    let rows = PSEUDO_INSTRUCTIONS.iter().chain(DIRECTIVES.iter());
    rows.map(|row| row.0)
        .chain(MARKERS.iter().copied())
        .nth(index)
}

/// Returns whether an operand can be in a role.
pub fn is_in_role(role: Role, operand: &Operand) -> bool {
    put(role, operand, given(Given::Zeros)).is_some()
}
