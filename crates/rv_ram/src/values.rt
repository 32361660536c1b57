//! Values in a slice of bytes, low byte first.
ghost use Rattle.std.specs.Prelude.{◌≡◌, ◌+◌, ◌*◌, ◌<◌, ◌≤◌, length, slice_index};
ghost use Rattle.rv_isa.specs.Width.{bytes_of};
ghost use Rattle.rv_ram.specs.Bytes.{value_at, put};
ghost use Rattle.rv_ram.specs.Pages.{is_zero};

use rv_isa::Width;

/// Returns the byte at an index.
pub fn byte_of(bytes: &[u8], at: usize) -> u8
    requires { at < length bytes.now }
    ensures { result ≡ slice_index bytes.now at }
{
    bytes[at]
}

/// Returns the word at an index: four neighbouring bytes, which the compiler reads at once.
#[tactic(auto, using(crate::proofs::Value::word_value))]
pub fn word_of(bytes: &[u8], at: usize) -> u32
    requires { at + 4 ≤ length bytes.now }
    ensures { result ≡ value_at bytes.now at 4 }
{
    let b0 = bytes[at] as u32;
    let b1 = bytes[at + 1] as u32;
    let b2 = bytes[at + 2] as u32;
    let b3 = bytes[at + 3] as u32;
    b0 + (b1 << 8) + (b2 << 16) + (b3 << 24)
}

/// Writes the low bytes of a value, as many as `width` has, at an index.
#[tactic(auto, using(crate::proofs::Put::put_byte, crate::proofs::Put::put_halves))]
pub fn put_value(bytes: &mut [u8], at: usize, width: Width, value: u32)
    requires { at + bytes_of width ≤ length bytes.old }
    ensures { bytes.new ≡ put bytes.old at (bytes_of width) value }
{
    match width {
        Width::One => bytes[at] = (value % 256) as u8,
        Width::Two => put_half(bytes, at, value),
        Width::Four => {
            put_half(bytes, at, value);
            put_half(bytes, at + 2, value / 65536);
        }
    }
}

/// Writes the two low bytes of a value at an index.
#[tactic(auto, using(crate::proofs::Put::put_half))]
fn put_half(bytes: &mut [u8], at: usize, value: u32)
    requires { at + 2 ≤ length bytes.old }
    ensures { bytes.new ≡ put bytes.old at 2 value }
{
    bytes[at] = (value % 256) as u8;
    bytes[at + 1] = (value / 256 % 256) as u8;
}

/// Returns whether the low bytes of a value are all zero.
pub fn stores_zeros(width: Width, value: u32) -> bool
    ensures { result ≡ is_zero width value }
{
    match width {
        Width::One => value % 256 == 0,
        Width::Two => value % 65536 == 0,
        Width::Four => value == 0,
    }
}
