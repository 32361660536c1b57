//! What is known of frames, by the addresses of instructions.
use crate::code::{Code, address_of};
use crate::functions::{end_of, marked_places};
use crate::places::{Entry, place_at};
use crate::row::{FrameRow, Kept};
use crate::state::{Rule, Stack, State};
use crate::walk::{Walk, follow};
use rv_asm::Listing;
use std::alloc::{AllocError, Global};

/// Where a function begins, and why.
#[derive(Clone, Copy)]
struct Start {
    index: usize,
    entry: Entry,
}

/// Returns where a value is by a rule.
fn kept_by(rule: Rule) -> Kept {
    match rule {
        Rule::Same => Kept::InRa,
        Rule::In(register) => Kept::In(register),
        Rule::Below(words) => Kept::At(0u32.wrapping_sub(words.cast_unsigned().wrapping_mul(4))),
        Rule::Lost => Kept::Lost,
    }
}

/// Returns the row of a state of a function.
fn row_of(address: u32, start: Start, state: &State) -> FrameRow {
    FrameRow {
        address,
        start: address_of(start.index),
        entry: Some(start.entry),
        offset: state.offset.map(|offset| offset.cast_unsigned()),
        stack: state.stack,
        ra: kept_by(state.rules[0]),
        wrote_mepc: state.wrote_mepc,
    }
}

/// Returns the row where a function ends: nothing is known of what follows it.
fn end_row(address: u32) -> FrameRow {
    FrameRow {
        address,
        start: address,
        entry: None,
        offset: None,
        stack: Stack::Lost,
        ra: Kept::Lost,
        wrote_mepc: false,
    }
}

/// Appends the row of a function's word if its state is another than the last one's, and returns the state.
fn append_row(
    start: Start,
    walk: &Walk,
    index: usize,
    last: State,
    rows: &mut Vec<FrameRow>,
) -> Result<State, AllocError> {
    match walk.state_before(index) {
        Some(state) if state != last => {
            let address = address_of(start.index.saturating_add(index));
            rows.push(row_of(address, start, &state))?;
            Ok(state)
        }
        _ => Ok(last),
    }
}

/// Appends the rows of a function of that many words.
fn append_rows(
    alloc: Global,
    code: Code<'_>,
    start: Start,
    count: usize,
    rows: &mut Vec<FrameRow>,
) -> Result<(), AllocError> {
    let walk = follow(alloc, code, start.index, count)?;
    let mut last = State::first();
    rows.push(row_of(address_of(start.index), start, &last))?;
    for index in 0..walk.len() {
        last = append_row(start, &walk, index, last, rows)?;
    }
    rows.push(end_row(address_of(start.index.saturating_add(count))))?;
    Ok(())
}

/// Returns what is known of the frames of a source's functions, by address.
pub fn frame_rows(alloc: Global, listing: Listing<'_>) -> Result<Vec<FrameRow>, AllocError> {
    let places = marked_places(alloc, listing)?;
    let code = Code {
        image: listing.program.bytes(),
        places: places.as_slice(),
    };
    let mut rows = Vec::new(alloc);
    for index in 0..code.places.len() {
        if let Some(entry) = place_at(code.places, index).entry {
            let count = end_of(code, index).saturating_sub(index);
            append_rows(alloc, code, Start { index, entry }, count, &mut rows)?;
        }
    }
    Ok(rows)
}
