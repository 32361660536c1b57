//! Conversions of the value of an expression to the field that it fills.
ghost use Rattle.std.specs.Prelude.{◌≡◌, ◌==◌, ◌&&◌, ◌<◌, ◌≤◌, ◌^◌, true, Some, None, IfSome, if◌then◌else◌};
ghost use Rattle.rv_isa.specs.Number.{IsWithin, IsDistance, modulo};
ghost use Rattle.rv_asm.specs.Values.{is_between, is_word, fits, immediate, distance, hi, lo, far_distance, gap};
ghost use Rattle.rv_asm.specs.Listing.{is_multiple};
ghost use Rattle.rv_asm.specs.Support.Statements.{byte, upper_immediate, five_bits, value_by};

use rv_isa::Width;
use rv_source::Part;

/// Returns whether a value lies between two bounds, both included.
pub fn is_between(low: i64, high: i64, value: i64) -> bool
    ensures { result ≡ is_between low high value }
{
    low <= value && value <= high
}

/// Returns whether a value fits into 32 bits, signed or unsigned.
pub fn is_word(value: i64) -> bool
    ensures { result ≡ is_word value }
{
    is_between(-0x8000_0000, 0xffff_ffff, value)
}

/// Returns whether a value fits into a width, signed or unsigned.
pub fn fits(width: Width, value: i64) -> bool
    ensures { result ≡ fits width value }
{
    match width {
        Width::One => is_between(-128, 255, value),
        Width::Two => is_between(-32_768, 65_535, value),
        Width::Four => is_word(value),
    }
}

/// Returns the low 32 bits of a value.
pub fn bits(value: i64) -> u32
    ensures { result ≡ modulo value (2 ^ 32) }
{
    value.rem_euclid(0x1_0000_0000) as u32
}

/// Converts a value to a byte, if it fits.
pub fn byte(value: i64) -> Option<u8>
    ensures { result ≡ byte value }
{
    fits(Width::One, value).then_some(value.rem_euclid(0x100) as u8)
}

/// Converts a value to the immediate of an I-type or S-type instruction, if it fits.
pub fn immediate(value: i64) -> Option<i32>
    ensures value { result ≡ immediate value }
    ensures within { IfSome result (IsWithin (2 ^ 11)) }
{
    if is_between(-2048, 2047, value) {
        Some(value as i32)
    } else if is_between(0xffff_f800, 0xffff_ffff, value) {
        Some((value - 0x1_0000_0000) as i32)
    } else {
        None
    }
}

/// Converts a value to the immediate of a U-type instruction, if it fits.
pub fn upper_immediate(value: i64) -> Option<u32>
    ensures value { result ≡ upper_immediate value }
    ensures within { IfSome result (λ imm. imm < 2 ^ 20) }
{
    is_between(-524_288, 1_048_575, value).then_some(value.rem_euclid(0x10_0000) as u32)
}

/// Converts a value to a shift amount, or to the immediate of a control register instruction, if it fits.
pub fn five_bits(value: i64) -> Option<u8>
    ensures value { result ≡ five_bits value }
    ensures within { IfSome result (λ n. n < 32) }
{
    is_between(0, 31, value).then_some(value.rem_euclid(32) as u8)
}

/// Returns a distance if it is even and lies between two bounds.
// Out of line: a remainder and a cast would make the proof of each kind of distance expensive.
fn even_between(low: i64, high: i64, offset: i64) -> Option<i32>
    requires low { IsWithin (2 ^ 20) low }
    requires high { IsWithin (2 ^ 20) high }
    ensures value { result ≡ (if is_between low high offset && (modulo offset 2 == 0) then Some offset else None) }
    ensures between { IfSome result (λ d. is_between low high d ≡ true) }
    ensures even { IfSome result (λ d. modulo d 2 ≡ 0) }
{
    if is_between(low, high, offset) && offset.rem_euclid(2) == 0 {
        Some(offset as i32)
    } else {
        None
    }
}

/// Returns the distance from `jal` to its target, if it is even and in range.
#[tactic(auto, using(crate::proofs::Rows::jump_within))]
pub fn jump_distance(here: u32, target: i64) -> Option<i32>
    ensures value { result ≡ distance (2 ^ 20) here target }
    ensures within { IfSome result (IsDistance (2 ^ 20)) }
{
    even_between(-1_048_576, 1_048_574, target.checked_sub(i64::from(here))?)
}

/// Returns the distance from a branch to its target, if it is even and in range.
#[tactic(auto, using(crate::proofs::Rows::branch_within))]
pub fn branch_distance(here: u32, target: i64) -> Option<i32>
    ensures value { result ≡ distance (2 ^ 12) here target }
    ensures within { IfSome result (IsDistance (2 ^ 12)) }
{
    even_between(-4096, 4094, target.checked_sub(i64::from(here))?)
}

/// Returns the high part of a word: the upper immediate to which the low part is added.
pub fn hi(word: u32) -> u32
    ensures value { result ≡ hi word }
    ensures below { result < 2 ^ 20 }
{
    ((u64::from(word) + 2048) / 4096 % 0x10_0000) as u32
}

/// Returns the low part of a word, which is added to the high part.
pub fn lo(word: u32) -> i32
    ensures value { result ≡ lo word }
    ensures within { IsWithin (2 ^ 11) result }
{
    let low = (word % 4096) as i32;
    if low < 2048 { low } else { low - 4096 }
}

/// Returns the part of a value that an instruction takes, if the value has one.
pub fn part_value(part: Part, value: i64) -> Option<i64>
    ensures { result ≡ value_by part value }
{
    match part {
        Part::Whole => Some(value),
        Part::High if is_word(value) => Some(i64::from(hi(bits(value)))),
        Part::Low if is_word(value) => Some(i64::from(lo(bits(value)))),
        _ => None,
    }
}

/// Returns the distance from `here` to a target that fits into 32 bits, modulo 2^32.
pub fn far(here: u32, target: i64) -> Option<u32>
    ensures { result ≡ far_distance here target }
{
    is_word(target).then(|| bits(target - i64::from(here)))
}

/// Returns whether a value is a power of two from 1 to 4096.
pub fn is_multiple(value: i64) -> bool
    ensures { result ≡ is_multiple value }
{
    is_between(1, 4096, value) && 4096 % value == 0
}

/// Returns the number of bytes from an address to the next multiple.
pub fn gap(here: u32, multiple: u32) -> u32
    requires { 0 < multiple }
    ensures { result ≡ gap here multiple }
{
    (multiple - here % multiple) % multiple
}
