//! Numbers, characters and strings.
ghost use Rattle.std.specs.Prelude.{◌≡◌, ◌<◌, ◌≤◌, IfSome, [], ◌∷◌, length, take, option_and_then};
ghost use Rattle.rv_base.specs.Numbers.{number_in};
ghost use Rattle.rv_base.specs.Tables.{lookup};
ghost use Rattle.std.specs.Option.{option_map};
ghost use Rattle.rv_tokens.specs.Literals.{has_leading_zero, number, short_decimal, letters, escape, spelled, between, longest};
ghost use Rattle.rv_tokens.specs.Support.Partial.{first_byte, has_prefix, is_plain};

use rv_base::{hex_byte, number_in};

/// Reads a number of 32 bits in a base.
fn word_in(base: u64, digits: &[u8]) -> Option<u32>
    requires low { 1 ≤ base }
    requires high { base ≤ 16 }
    ensures { result ≡ number_in base 0xffffffff digits.now }
{
    let n = number_in(base, u64::from(u32::MAX), digits)?;
    Some(n as u32)
}

/// Returns whether a text begins with `0` and a letter in either case.
fn has_prefix(lower: u8, upper: u8, text: &[u8]) -> bool
    ensures { result ≡ has_prefix lower upper text.now }
{
    text.len() > 1 && text[0] == b'0' && (text[1] == lower || text[1] == upper)
}

/// Returns whether a text begins with `0` and goes on.
fn has_leading_zero(text: &[u8]) -> bool
    ensures { result ≡ has_leading_zero text.now }
{
    text.len() > 1 && text[0] == b'0'
}

/// Reads a number: hexadecimal after `0x`, binary after `0b`, octal after `0`, or decimal.
#[tactic(auto, using(crate::proofs::Signs::number_is, std::proofs::lemmas::List::take_all))]
pub fn number(text: &[u8]) -> Option<u32>
    ensures { result ≡ number text.now }
{
    if has_prefix(b'x', b'X', text) {
        word_in(16, &text[2..])
    } else if has_prefix(b'b', b'B', text) {
        word_in(2, &text[2..])
    } else if has_leading_zero(text) {
        word_in(8, &text[1..])
    } else {
        word_in(10, text)
    }
}

/// Reads a decimal number of one to four digits without a leading zero.
#[tactic(auto, unfolding(crate::specs::Literals::short_decimal))]
pub fn short_decimal(text: &[u8]) -> Option<u16>
    ensures { result ≡ short_decimal text.now }
{
    if has_leading_zero(text) {
        return None;
    }
    let n = number_in(10, 9999, text)?;
    Some(n as u16)
}

/// Returns the byte that a letter following `\` stands for.
fn letter_escape(b: u8) -> Option<u8>
    ensures { result ≡ lookup (b ∷ []) letters }
{
    match b {
        b'n' => Some(b'\n'),
        b't' => Some(b'\t'),
        b'r' => Some(b'\r'),
        b'b' => Some(0x08),
        b'f' => Some(0x0C),
        b'\\' | b'"' | b'\'' => Some(b),
        _ => None,
    }
}

/// Reads an octal number below 256.
fn octal_byte(digits: &[u8]) -> Option<u8>
    ensures { result ≡ number_in 8 255 digits.now }
{
    let n = number_in(8, 255, digits)?;
    Some(n as u8)
}

/// Reads an escape without its `\`: a letter, `x` and two hexadecimal digits, or one to three octal digits.
#[tactic(auto, unfolding(crate::specs::Literals::escape), using(crate::proofs::Escapes::escape_steps))]
fn escape(text: &[u8]) -> Option<u8>
    ensures { result ≡ escape text.now }
{
    match text {
        [b'x', digits @ ..] => hex_byte(digits),
        [letter] => letter_escape(*letter).or_else(|| octal_byte(text)),
        [_, _] | [_, _, _] => octal_byte(text),
        _ => None,
    }
}

/// Returns whether a byte stands for itself between two quotes.
fn is_plain(quote: u8, b: u8) -> bool
    ensures { result ≡ is_plain quote b }
{
    ((b >= 0x20 && b <= 0x7E) || (quote == b'"' && (b == b'\t' || b >= 0x80))) && b != quote
}

/// Reads the text of a byte between two quotes: the byte itself, or an escape.
#[tactic(auto, using(crate::proofs::Escapes::spelled_is, std::proofs::lemmas::Bool::Decides::nat_tests))]
fn byte_between(quote: u8, text: &[u8]) -> Option<u8>
    ensures { result ≡ spelled quote text.now }
{
    match text {
        [b'\\', rest @ ..] => escape(rest),
        [b] => is_plain(quote, *b).then_some(*b),
        _ => None,
    }
}

/// Returns what stands between two signs, the first and the last byte of a text.
pub fn between(left: u8, right: u8, text: &[u8]) -> Option<&[u8]>
    ensures { option_map (λ t. t.now) result ≡ between left right text.now }
{
    if text.len() > 1 && text[0] == left && text[text.len() - 1] == right {
        return Some(&text[1..text.len() - 1]);
    }
    None
}

/// Reads a character with its quotes, as the byte that it stands for.
pub fn character(text: &[u8]) -> Option<u8>
    ensures { result ≡ option_and_then (spelled 39) (between 39 39 text.now) }
{
    byte_between(b'\'', between(b'\'', b'\'', text)?)
}

/// Returns the byte of a string that the longest prefix of at most `most` bytes spells, and its length.
#[tactic(auto, using(crate::proofs::Longest::longest_steps))]
fn longest_byte(text: &[u8], most: usize) -> Option<(u8, usize)>
    requires { most ≤ length text.now }
    ensures longest { result ≡ longest (λ n. spelled 34 (take n text.now)) most }
    ensures moves { IfSome result (λ found. 0 < found.1) }
    ensures within { IfSome result (λ found. found.1 ≤ most) }
{
    if most == 0 {
        return None;
    }
    match byte_between(b'"', &text[..most]) {
        Some(b) => Some((b, most)),
        None => longest_byte(text, most - 1),
    }
}

/// Returns the first byte of a string, given the text from there to its closing quote, and the length of the
/// byte's text.
pub fn first_byte(text: &[u8]) -> Option<(u8, usize)>
    ensures longest { result ≡ first_byte text.now }
    ensures moves { IfSome result (λ found. 0 < found.1) }
    ensures within { IfSome result (λ found. found.1 ≤ length text.now) }
{
    longest_byte(text, text.len().min(4))
}
