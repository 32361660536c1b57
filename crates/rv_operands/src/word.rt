//! Texts, words and numbers.
ghost use Rattle.std.specs.Prelude.{◌≡◌, ◌-◌, None, drop, length, not, take};
ghost use Rattle.std.specs.Option.{option_map};
ghost use Rattle.std.specs.List.{position_or_len, prefix_len, suffix_len};
ghost use Rattle.rv_base.specs.Words.{is_blank, words};
ghost use Rattle.rv_commands.specs.Addresses.{address_of};
ghost use Rattle.rv_operands.specs.Operands.{line_number, only_of, plain_number, operand_text, trimmed, without_last};

use rv_base::{decimal, first_word, has_word, is_blank, low_word};
use rv_commands::hexadecimal;

/// Returns the only word of a text.
pub fn only_word<'a>(text: &'a [u8]) -> Option<&'a [u8]>
    ensures { option_map (λ w. w.now) result ≡ only_of (words text.now) }
{
    let (word, rest) = first_word(text)?;
    if has_word(rest) { None } else { Some(word) }
}

/// Returns the operands of a line: the text that follows its first word.
#[tactic(auto, unfolding(crate::specs::Operands::operand_text))]
pub fn operands_of(line: &[u8]) -> &[u8]
    ensures { result.now ≡ operand_text line.now }
{
    from_blank(without_blanks(line))
}

/// Returns a text from its first blank on.
fn from_blank(text: &[u8]) -> &[u8]
    ensures { result.now ≡ drop (position_or_len is_blank text.now) text.now }
{
    match text {
        [b, rest @ ..] if !is_blank(*b) => from_blank(rest),
        _ => text,
    }
}

/// Returns a text without the blanks before it.
fn without_blanks(text: &[u8]) -> &[u8]
    ensures { result.now ≡ drop (prefix_len is_blank text.now) text.now }
{
    match text {
        [b, rest @ ..] if is_blank(*b) => without_blanks(rest),
        _ => text,
    }
}

/// Reads `0x` and a hexadecimal number.
#[tactic(auto, unfolding(rv_commands::specs::Addresses::address_of))]
fn prefixed(word: &[u8]) -> Option<u32>
    ensures { result ≡ address_of (λ name. None) word.now }
{
    hexadecimal(word.strip_prefix(b"0x")?)
}

/// Reads a number without a sign: decimal, or hexadecimal after `0x`.
#[tactic(auto, unfolding(crate::specs::Operands::plain_number))]
pub fn number(word: &[u8]) -> Option<u32>
    ensures { result ≡ plain_number word.now }
{
    match decimal(0xffff_ffff, word) {
        Some(value) => Some(low_word(value)),
        None => prefixed(word),
    }
}

/// Returns the number of a line, as `12` or `12:`.
#[tactic(auto, unfolding(crate::specs::Operands::line_number))]
pub fn line_number(word: &[u8]) -> Option<u64>
    ensures { result ≡ line_number word.now }
{
    decimal(0xffff_ffff, word.strip_suffix(b":").unwrap_or(word))
}

/// Returns a text without the blanks after it.
fn without_blanks_after(text: &[u8]) -> &[u8]
    ensures { result.now ≡ take (length text.now - suffix_len is_blank text.now) text.now }
{
    match text {
        [rest @ .., b] if is_blank(*b) => without_blanks_after(rest),
        _ => text,
    }
}

/// Returns a text up to its last blank.
fn to_blank(text: &[u8]) -> &[u8]
    ensures { result.now ≡ take (length text.now - suffix_len (λ c. not (is_blank c)) text.now) text.now }
{
    match text {
        [rest @ .., b] if !is_blank(*b) => to_blank(rest),
        _ => text,
    }
}

/// Returns a text without its last word.
pub fn without_last(text: &[u8]) -> &[u8]
    ensures { result.now ≡ without_last text.now }
{
    to_blank(without_blanks_after(text))
}

/// Returns a text without the blanks at its ends.
pub fn trimmed(text: &[u8]) -> &[u8]
    ensures { result.now ≡ trimmed text.now }
{
    without_blanks(without_blanks_after(text))
}
