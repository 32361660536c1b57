//! The file: records of 16 bytes of the image.
ghost use Rattle.std.specs.Prelude.{◌≡◌, ◌++◌, ◌+◌, ◌%◌, ◌<◌, ◌≤◌, ◌∷◌, [], IfOk, OnOk, Some, length, min};
ghost use Rattle.std.specs.List.{All};
ghost use Rattle.rv_base.specs.Limits.{image_limit, ram_base};
ghost use Rattle.rv_ihex.specs.Hex.{image_of};
ghost use Rattle.rv_ihex.specs.Support.Written.{lines_from, line_of, text_of, upper_lines};

use crate::record::{Kind, append_record};
use rv_base::{NoMemory, RAM_BASE};
use std::alloc::Global;

/// The most bytes of a record.
const ROW: usize = 16;

/// Says that each number of a slice has 8 bits, and does nothing.
fn are_bytes(bytes: &[u8])
    ensures { All (λ b. b < 256) bytes.now }
{}

/// Appends the record for the upper half of an address, if it is a multiple of 64 KiB.
fn append_upper(alloc: Global, out: &mut Vec<u8>, at: u32) -> Result<(), NoMemory>
    ensures { OnOk result (out.new.items ≡ out.old.items ++ text_of (upper_lines at)) }
{
    if at % 65536 == 0 {
        let upper = at / 65536;
        let half = [(upper / 256) as u8, (upper % 256) as u8];
        append_record(alloc, out, Kind::Upper, 0, &half)?;
    }
    Ok(())
}

/// Appends the records of at most 16 bytes at an address.
fn append_row(alloc: Global, out: &mut Vec<u8>, at: u32, row: &[u8]) -> Result<(), NoMemory>
    requires { length row.now ≤ 16 }
    ensures { OnOk result (out.new.items ≡ out.old.items ++ text_of (upper_lines at ++ line_of 0 (at % 65536) row.now ∷ [])) }
{
    append_upper(alloc, out, at)?;
    append_record(alloc, out, Kind::Data, (at % 65536) as u16, row)?;
    Ok(())
}

/// Returns the number of bytes of the next record.
fn row_length(rest: &[u8]) -> usize
    ensures { result ≡ min 16 (length rest.now) }
{
    ROW.min(rest.len())
}

/// Returns the text of an image, whose first byte has the address 0x80000000.
#[tactic(auto, using(crate::proofs::Read::row_steps))]
fn text_of(alloc: Global, image: &[u8]) -> Result<Vec<u8>, NoMemory>
    requires { length image.now ≤ image_limit }
    ensures { IfOk result (λ t. t.items ≡ text_of (lines_from (length image.now) ram_base image.now)) }
{
    let mut out = Vec::new(alloc);
    let mut at = RAM_BASE;
    let mut rest = image;
    while !rest.is_empty() {
        let (row, more) = rest.split_at(row_length(rest));
        append_row(alloc, &mut out, at, row)?;
        at += 16;
        rest = more;
    }
    append_record(alloc, &mut out, Kind::End, 0, &[])?;
    Ok(out)
}

/// Returns the Intel HEX file of an image of at most 16,777,216 bytes, whose first byte has the address 0x80000000.
///
/// # Errors
///
/// `NoMemory` if memory runs out.
#[tactic(auto, using(crate::proofs::Read::image_back))]
pub fn hex_file(alloc: Global, image: &[u8]) -> Result<Vec<u8>, NoMemory>
    requires { length image.now ≤ image_limit }
    ensures { IfOk result (λ t. image_of t.items ≡ Some image.now) }
{
    are_bytes(image);
    let text = text_of(alloc, image)?;
    Ok(text)
}
