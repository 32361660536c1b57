//! Changes of a text, drawn by a fixed generator.
use std::alloc::AllocError;

/// A fixed sequence of numbers that look drawn by chance.
#[derive(Clone, Copy)]
pub struct Dice {
    state: u32,
}

impl Dice {
    /// The sequence from its start.
    pub const NEW: Dice = Dice { state: 0x2545_f491 };

    /// Returns the next number below `sides`, or 0 where `sides` is 0.
    fn roll(&mut self, sides: usize) -> usize {
        self.state = self
            .state
            .wrapping_mul(1_664_525)
            .wrapping_add(1_013_904_223);
        (self.state / 256) as usize % sides.max(1)
    }
}

/// The bits of a byte.
const BITS: [u8; 8] = [1, 2, 4, 8, 16, 32, 64, 128];

/// Returns the bytes from one index up to another, or none where the text is shorter.
fn piece(text: &[u8], from: usize, to: usize) -> &[u8] {
    text.get(from..to).unwrap_or(&[])
}

/// Returns where the line of the byte at `index` begins, and where the next line does.
fn line_bounds(text: &[u8], index: usize) -> (usize, usize) {
    let mut from = 0;
    for (at, byte) in text.iter().enumerate() {
        if *byte == b'\n' {
            if at >= index {
                return (from, at.saturating_add(1));
            }
            from = at.saturating_add(1);
        }
    }
    (from, text.len())
}

// Each of these appends the changed text.

/// Flips one bit of a byte.
fn flip_bit(text: &[u8], dice: &mut Dice, changed: &mut Vec<u8>) -> Result<(), AllocError> {
    changed.extend_from_slice(text)?;
    let index = dice.roll(text.len());
    let bit = BITS.get(dice.roll(8)).copied().unwrap_or(1);
    if let Some(byte) = changed.get_mut(index) {
        *byte ^= bit;
    }
    Ok(())
}

/// Leaves up to forty bytes out.
fn leave_out(text: &[u8], dice: &mut Dice, changed: &mut Vec<u8>) -> Result<(), AllocError> {
    let from = dice.roll(text.len());
    let to = from.saturating_add(dice.roll(40)).min(text.len());
    changed.extend_from_slice(piece(text, 0, from))?;
    changed.extend_from_slice(piece(text, to, text.len()))
}

/// Gives one line twice.
fn double_line(text: &[u8], dice: &mut Dice, changed: &mut Vec<u8>) -> Result<(), AllocError> {
    let (from, to) = line_bounds(text, dice.roll(text.len()));
    changed.extend_from_slice(piece(text, 0, to))?;
    changed.extend_from_slice(piece(text, from, text.len()))
}

/// Exchanges two lines.
fn exchange_lines(text: &[u8], dice: &mut Dice, changed: &mut Vec<u8>) -> Result<(), AllocError> {
    let one = dice.roll(text.len());
    let other = dice.roll(text.len());
    let (from, to) = line_bounds(text, one.min(other));
    let (next, end) = line_bounds(text, one.max(other));
    for (first, last) in [
        (0, from),
        (next, end),
        (to, next),
        (from, to),
        (end, text.len()),
    ] {
        changed.extend_from_slice(piece(text, first, last))?;
    }
    Ok(())
}

/// Gives the text with one change.
pub fn change(text: &[u8], dice: &mut Dice, changed: &mut Vec<u8>) -> Result<(), AllocError> {
    changed.clear();
    match dice.roll(4) {
        0 => flip_bit(text, dice, changed),
        1 => leave_out(text, dice, changed),
        2 => double_line(text, dice, changed),
        _ => exchange_lines(text, dice, changed),
    }
}
