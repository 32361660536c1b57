//! The listing of a source, as assemblers print it. Its text is unspecified.
use rv_asm::Listing;
use rv_base::{NoMemory, byte_digits, cut_lines, word_digits};
use std::alloc::Global;

/// The most bytes of a row.
const ROW: usize = 8;

/// Appends spaces.
fn append_spaces(out: &mut Vec<u8>, count: usize) -> Result<(), NoMemory> {
    for _ in 0..count {
        out.extend_from_slice(b" ")?;
    }
    Ok(())
}

/// Appends a decimal number, in 6 columns at least.
fn append_number(out: &mut Vec<u8>, number: usize) -> Result<(), NoMemory> {
    let mut buffer = itoa::Buffer::new();
    let digits = buffer.format(number as u64);
    append_spaces(out, 6usize.saturating_sub(digits.len()))?;
    out.extend_from_slice(digits.as_bytes())?;
    Ok(())
}

/// Appends an address and some bytes at it.
fn append_bytes(out: &mut Vec<u8>, address: u32, bytes: &[u8]) -> Result<(), NoMemory> {
    out.extend_from_slice(b"  ")?;
    out.extend_from_slice(&word_digits(address))?;
    out.extend_from_slice(b"  ")?;
    for byte in bytes {
        out.extend_from_slice(&byte_digits(*byte))?;
    }
    append_spaces(out, 2 * ROW.saturating_sub(bytes.len()))
}

/// Appends the bytes of a line that follow its first row, a row after another.
fn append_more(out: &mut Vec<u8>, start: u32, bytes: &[u8]) -> Result<(), NoMemory> {
    let mut address = start;
    for row in bytes.chunks(ROW) {
        address = address.wrapping_add(ROW as u32);
        append_spaces(out, 6)?;
        append_bytes(out, address, row)?;
        out.extend_from_slice(b"\n")?;
    }
    Ok(())
}

/// Appends a line with its number, its address and its bytes.
fn append_line(
    out: &mut Vec<u8>,
    listing: Listing<'_>,
    line: usize,
    text: &[u8],
) -> Result<(), NoMemory> {
    let bytes = listing.bytes(line);
    let address = listing.address(line).unwrap_or(0);
    let (first, more) = bytes.split_at(ROW.min(bytes.len()));
    append_number(out, line)?;
    if !bytes.is_empty() {
        append_bytes(out, address, first)?;
    } else if !text.is_empty() {
        append_spaces(out, 12 + 2 * ROW)?;
    }
    if !text.is_empty() {
        out.extend_from_slice(b"  ")?;
        out.extend_from_slice(text)?;
    }
    out.extend_from_slice(b"\n")?;
    append_more(out, address, more)
}

/// Returns the listing of a source, with its text: a row for each line, and for each 8 bytes more that it has.
pub fn listing_text(
    alloc: Global,
    listing: Listing<'_>,
    source: &[u8],
) -> Result<Vec<u8>, NoMemory> {
    let mut out = Vec::new(alloc);
    let mut line: usize = 0;
    for text in cut_lines(source) {
        line = line.saturating_add(1);
        append_line(&mut out, listing, line, text)?;
    }
    Ok(out)
}
