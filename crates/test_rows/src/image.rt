//! The image of a row, and its names.
use crate::boards::program;
use crate::checked::Checked;
use crate::row::{Answers, Appended, Row, append_answers, append_shown, number};
use rv_asm::Program;
use rv_base::{RAM_BASE, byte_digits, word_digits};
use std::alloc::Global;

/// Appends bytes as one number, of which the first byte is the lowest.
fn append_group(group: &[u8], text: &mut Vec<u8>) -> Appended {
    text.extend_from_slice(b" ")?;
    for byte in group.iter().rev() {
        text.extend_from_slice(&byte_digits(*byte))?;
    }
    Ok(())
}

/// Appends a line of bytes with the address that they are at, `size` of them as one number.
fn append_line(at: u32, bytes: &[u8], size: usize, text: &mut Vec<u8>) -> Appended {
    text.extend_from_slice(&word_digits(at))?;
    text.extend_from_slice(b":")?;
    for group in bytes.chunks(size.max(1)) {
        append_group(group, text)?;
    }
    Ok(text.extend_from_slice(b"\n")?)
}

/// Appends the size of an image, and then all its bytes, `size` of them as one number; none where `size` is
/// 0.
fn append_image(alloc: Global, bytes: &[u8], size: usize, text: &mut Vec<u8>) -> Appended {
    append_shown(format!(in alloc; "{} bytes\n", bytes.len()), text)?;
    if size == 0 {
        return Ok(());
    }
    let mut address = RAM_BASE;
    for line in bytes.chunks(16) {
        append_line(address, line, size, text)?;
        address = address.wrapping_add(16);
    }
    Ok(())
}

/// Appends the value of a name, or that there is no such name.
fn append_value(alloc: Global, value: Option<i64>, text: &mut Vec<u8>) -> Appended {
    match value {
        Some(value) => Ok(append_shown(format!(in alloc; "value {value}\n"), text)?),
        None => Ok(text.extend_from_slice(b"no such name\n")?),
    }
}

impl Answers for Program {
    fn answer(&mut self, alloc: Global, mark: u8, argument: &[u8], text: &mut Vec<u8>) -> Appended {
        match mark {
            b'%' => {
                let size = usize::try_from(number(argument)).unwrap_or(0);
                append_image(alloc, self.bytes(), size, text)
            }
            b'&' => append_value(alloc, self.symbol(argument), text),
            _ => Ok(()),
        }
    }
}

/// Appends the row with the answers of its program.
pub fn answer(alloc: Global, row: Row<'_>, text: &mut Vec<u8>) -> Checked<()> {
    let mut program = program(alloc, row)?;
    Ok(append_answers(alloc, row, b"# %&", &mut program, text)?)
}
