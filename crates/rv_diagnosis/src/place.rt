//! Places in lines.
ghost use Rattle.std.specs.Prelude.{◌≡◌, ◌+◌, ◌≤◌, length, slice_get, IfOk};
ghost use Rattle.std.specs.Option.{unwrap_or};
ghost use Rattle.rv_tokens.specs.Support.Cuts.{places};

use crate::misplaced::misplaced;
use rv_base::LINE_LIMIT;
use rv_source::{LineFault, LineForm, Operand};
use rv_tokens::{Place, cut_line, place_of, stuck_at};
use std::alloc::{AllocError, Global};

/// Returns the place of a line as a whole.
fn whole_line(line: &[u8]) -> Place
    ensures is { result ≡ record { column = 0; len = length line.now } }
    ensures within { result.column + result.len ≤ length line.now }
{
    Place {
        column: 0,
        len: line.len(),
    }
}

/// Returns the place of the token with an index, or of the whole line if it has fewer tokens.
pub fn token_place(line: &[u8], index: usize) -> Place
    ensures is { result ≡ unwrap_or (slice_get (places line.now) index) (record { column = 0; len = length line.now }) }
    ensures within { result.column + result.len ≤ length line.now }
{
    match place_of(line, index) {
        Some(place) => place,
        None => whole_line(line),
    }
}

/// Returns the place of `count` tokens from token `first` on.
fn tokens_place(line: &[u8], first: usize, count: usize) -> Place
    ensures { result.column + result.len ≤ length line.now }
{
    let start = token_place(line, first);
    let last = token_place(line, first.saturating_add(count.saturating_sub(1)));
    if start.column <= last.column {
        Place {
            column: start.column,
            len: last.column - start.column + last.len,
        }
    } else {
        start
    }
}

/// Returns the place of an operand.
pub fn operand_place(line: &[u8], operand: &Operand) -> Place
    ensures { result.column + result.len ≤ length line.now }
{
    tokens_place(line, operand.first, operand.count)
}

/// Returns the index of the word of a line, which follows its labels of two tokens each.
pub fn word_index(line: &LineForm) -> usize {
    line.labels().len().saturating_mul(2)
}

/// Returns the place of the byte at which no token begins.
pub fn stuck_place(line: &[u8]) -> Place
    ensures { result.column + result.len ≤ length line.now }
{
    match stuck_at(line) {
        Some(column) => Place { column, len: 1 },
        None => whole_line(line),
    }
}

/// Returns the place of what is too much in a line that is too long.
pub fn rest_place(line: &[u8]) -> Place
    ensures { result.column + result.len ≤ length line.now }
{
    let column = line.len().min(LINE_LIMIT);
    Place {
        column,
        len: line.len() - column,
    }
}

/// Returns the place of the token that can't stand where it stands, or of the byte at which no token begins.
pub fn syntax_place(alloc: Global, line: &[u8]) -> Result<Place, AllocError>
    ensures { IfOk result (λ p. p.column + p.len ≤ length line.now) }
{
    match cut_line(alloc, line) {
        Ok(tokens) => Ok(token_place(line, misplaced(&tokens))),
        Err(LineFault::OutOfMemory) => Err(AllocError),
        Err(_) => Ok(stuck_place(line)),
    }
}
