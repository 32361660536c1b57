//! Writes numbers in hexadecimal.
ghost use Rattle.std.specs.Prelude.{◌≡◌, ◌++◌, ◌+◌, ◌%◌, ◌<◌, ◌≤◌, false, codes, length, vec_len, vec_capacity};
ghost use Rattle.std.specs.Fmt.{digits};
ghost use Rattle.rv_base.specs.Digits.{digit, hex, short_hex};
ghost use Rattle.rv_base.specs.Room.{HasRoom, Appended};

use crate::append_within;

/// Returns the lowest hexadecimal digit of a number, in lower case.
fn low_digit(number: u32) -> u8
    ensures { result ≡ digit (number % 16) }
{
    let value = (number % 16) as u8;
    if value < 10 {
        b'0' + value
    } else {
        b'a' + (value - 10)
    }
}

/// Returns the two hexadecimal digits of a byte, in lower case.
#[tactic(auto, unfolding(crate::specs::Digits::hex))]
pub fn byte_digits(byte: u8) -> [u8; 2]
    ensures { result ≡ hex 2 byte }
{
    let number = u32::from(byte);
    [low_digit(number >> 4), low_digit(number)]
}

/// Returns the eight hexadecimal digits of a word, in lower case.
#[tactic(auto, unfolding(crate::specs::Digits::hex))]
pub fn word_digits(word: u32) -> [u8; 8]
    ensures { result ≡ hex 8 word }
{
    [
        low_digit(word >> 28),
        low_digit(word >> 24),
        low_digit(word >> 20),
        low_digit(word >> 16),
        low_digit(word >> 12),
        low_digit(word >> 8),
        low_digit(word >> 4),
        low_digit(word),
    ]
}

/// Appends a number in hexadecimal digits, without leading zeros.
#[tactic(auto, using(crate::proofs::Hexadecimal::hex_one, crate::proofs::Hexadecimal::more_after_text, crate::proofs::Hexadecimal::one_long, crate::proofs::Hexadecimal::one_longer))]
fn append_digits(text: &mut Vec<u8>, number: u32)
    requires { HasRoom text.old (digits 16 false number) }
    ensures { Appended text.old text.new (digits 16 false number) }
{
    if number < 16 {
        append_within(text, &[low_digit(number)]);
    } else {
        append_digits(text, number / 16);
        append_within(text, &[low_digit(number)]);
    }
}

/// Appends a number in hexadecimal without leading zeros, as `0xf11`, to a text that has room.
pub fn append_hex(text: &mut Vec<u8>, number: u32)
    requires { HasRoom text.old (short_hex number) }
    ensures items { text.new.items ≡ text.old.items ++ short_hex number }
    ensures len { vec_len text.new ≡ vec_len text.old + length (short_hex number) }
    ensures capacity { vec_capacity text.old ≤ vec_capacity text.new }
{
    append_within(text, b"0x");
    append_digits(text, number);
}
