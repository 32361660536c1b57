//! The lexer.
ghost use Rattle.std.specs.Prelude.{◌≡◌, ◌↔◌, ◌==◌, ℕ, List, Result, IfOk, [], ◌∷◌, ◌<◌, ◌≤◌, length, true, false, take, slice_index};
ghost use Rattle.std.specs.List.{list_all};
ghost use Rattle.rv_tokens.specs.Faults.{Gives};
ghost use Rattle.rv_tokens.specs.Parts.{IsCutInto};
ghost use Rattle.rv_tokens.specs.declared.fault.LineFault.{LineFault};
ghost use Rattle.rv_tokens.specs.declared.token.Token.{Token};
ghost use Rattle.rv_base.specs.Tables.{lookup};
ghost use Rattle.rv_tokens.specs.Support.Cuts.{front, tokens, tokens_after};
ghost use Rattle.rv_tokens.specs.Literals.{longest};
ghost use Rattle.rv_tokens.specs.Tokens.{is_name_start, is_name_byte, local, word, signs, is_comment, fault_at, token_in};

use crate::literal::{character, first_byte, number, short_decimal};
use crate::token::{Text, Token};
use crate::{Direction, LineFault, Name};
use rv_base::{LINE_LIMIT, is_blank};
use std::alloc::Global;

/// Returns whether a name may begin with a byte.
fn is_name_start(b: u8) -> bool
    ensures { result ≡ is_name_start b }
{
    b.is_ascii_alphabetic() || b == b'_' || b == b'.' || b == b'$'
}

/// Returns whether a byte may stand in a name after its first byte.
fn is_name_byte(b: u8) -> bool
    ensures { result ≡ is_name_byte b }
{
    is_name_start(b) || b.is_ascii_digit()
}

/// Reads a reference to a local label: one to four digits, and `b` or `f`.
#[tactic(auto, using(crate::proofs::Escapes::local_is))]
fn local_reference<'a>(text: &[u8]) -> Option<Token<'a>>
    requires { 0 < length text.now }
    ensures { result ≡ local text.now }
{
    let digits = &text[..text.len() - 1];
    let direction = match text[text.len() - 1] {
        b'b' => Direction::Backward,
        b'f' => Direction::Forward,
        _ => return None,
    };
    let number = short_decimal(digits)?;
    Some(Token::Local { number, direction })
}

/// Reads a word, a text of name bytes: a name, a reference to a local label, or a number.
#[tactic(auto, unfolding(crate::specs::Tokens::word))]
fn word<'a>(text: &'a [u8]) -> Option<Token<'a>>
    requires { 0 < length text.now }
    ensures { result ≡ word text.now }
{
    if is_name_start(text[0]) {
        return Some(Token::Name(Name::new(text)));
    }
    if let Some(reference) = local_reference(text) {
        return Some(reference);
    }
    if let Some(n) = short_decimal(text) {
        return Some(Token::Digits(n));
    }
    let n = number(text)?;
    Some(Token::Number(n))
}

/// Reads a sign of one byte.
fn sign<'a>(b: u8) -> Option<Token<'a>>
    ensures { result ≡ lookup (b ∷ []) signs }
{
    match b {
        b',' => Some(Token::Comma),
        b'(' => Some(Token::Open),
        b')' => Some(Token::Close),
        b'+' => Some(Token::Plus),
        b'-' => Some(Token::Minus),
        b':' => Some(Token::Colon),
        b'@' => Some(Token::At),
        _ => None,
    }
}

/// Returns the number of name bytes at the front of a line.
fn word_len(line: &[u8]) -> usize
    ensures within { result ≤ length line.now }
    ensures all { list_all is_name_byte (take result line.now) ≡ true }
    ensures stops { is_name_byte (slice_index line.now result) ≡ false }
{
    let mut n = 0;
    while n < line.len() && is_name_byte(line[n]) {
        n += 1;
    }
    n
}

/// Returns whether a text begins with a name byte.
fn begins_with_name_byte(rest: &[u8]) -> bool
    ensures { result ≡ is_name_byte (slice_index rest.now 0) }
{
    match rest {
        [first, ..] => is_name_byte(*first),
        [] => false,
    }
}

/// Returns whether a comment begins here, with `#` or `//`.
pub fn is_comment(line: &[u8]) -> bool
    ensures { result ≡ is_comment line.now }
{
    line.starts_with(b"#") || line.starts_with(b"//")
}

/// Returns the fault at a byte where no token begins.
fn fault_at(b: u8) -> LineFault
    ensures { result ≡ fault_at b }
{
    if b == b'\t' || (b >= 0x20 && b <= 0x7E) {
        LineFault::Syntax
    } else {
        LineFault::BadByte
    }
}

/// Returns the longest token at the front of a line that begins with a name byte, and its length.
#[tactic(auto, using(crate::proofs::Front::front_word))]
fn word_front<'a>(line: &'a [u8]) -> Option<(Token<'a>, usize)>
    requires some { 0 < length line.now }
    requires first { is_name_byte (slice_index line.now 0) ≡ true }
    ensures { result ≡ front line.now }
{
    let n = word_len(line);
    let token = word(&line[..n])?;
    Some((token, n))
}

/// Returns the longest token of at most `most` bytes at the front of a line that begins with `'`, and its
/// length.
#[tactic(auto, using(crate::proofs::Longest::longest_steps, crate::proofs::Front::character_in))]
fn longest_character<'a>(line: &'a [u8], most: usize) -> Option<(Token<'a>, usize)>
    requires within { most ≤ length line.now }
    requires first { slice_index line.now 0 ≡ 39 }
    ensures { result ≡ longest (token_in line.now) most }
{
    if most == 0 {
        return None;
    }
    match character(&line[..most]) {
        Some(b) => Some((Token::Character(b), most)),
        None => longest_character(line, most - 1),
    }
}

/// Returns the longest token at the front of a line that begins with `'`, and its length.
#[tactic(auto, using(crate::proofs::Front::character_within))]
fn character_front<'a>(line: &'a [u8]) -> Option<(Token<'a>, usize)>
    requires some { 0 < length line.now }
    requires first { slice_index line.now 0 ≡ 39 }
    ensures { result ≡ front line.now }
{
    longest_character(line, line.len().min(6))
}

/// Returns the longest token at the front of a line that begins with `"`, and its length.
#[tactic(auto, using(crate::proofs::StringEnds::string_steps))]
fn string_front<'a>(line: &'a [u8]) -> Option<(Token<'a>, usize)>
    requires some { 0 < length line.now }
    requires first { slice_index line.now 0 ≡ 34 }
    ensures { result ≡ front line.now }
{
    let text = line.split_at(1).1;
    let mut n = 0;
    while n < text.len() {
        let (spelling, rest) = text.split_at(n);
        if rest[0] == b'"' {
            return Some((Token::Text(Text::new(spelling)), n + 2));
        }
        match first_byte(rest) {
            Some((_, spelled)) => n += spelled,
            None => return None,
        }
    }
    None
}

/// Returns the longest token at the front of a line that begins with `%`, and its length.
#[tactic(auto, using(crate::proofs::Front::half_steps))]
fn half_front<'a>(line: &'a [u8]) -> Option<(Token<'a>, usize)>
    requires some { 0 < length line.now }
    requires first { slice_index line.now 0 ≡ 37 }
    ensures { result ≡ front line.now }
{
    if line.len() < 3 {
        return None;
    }
    let (text, rest) = line.split_at(3);
    if begins_with_name_byte(rest) {
        return None;
    }
    match text {
        b"%hi" => Some((Token::High, 3)),
        b"%lo" => Some((Token::Low, 3)),
        _ => None,
    }
}

/// Returns the longest token at the front of a line that begins with any other byte, and its length.
#[tactic(auto, using(crate::proofs::Front::front_sign))]
fn sign_front<'a>(line: &'a [u8]) -> Option<(Token<'a>, usize)>
    requires some { 0 < length line.now }
    requires word { is_name_byte (slice_index line.now 0) ≡ false }
    requires string { (slice_index line.now 0 == 34) ≡ false }
    requires character { (slice_index line.now 0 == 39) ≡ false }
    requires half { (slice_index line.now 0 == 37) ≡ false }
    ensures { result ≡ front line.now }
{
    let token = sign(line[0])?;
    Some((token, 1))
}

/// Returns the longest token at the front of a line, and its length.
pub fn front<'a>(line: &'a [u8]) -> Option<(Token<'a>, usize)>
    requires { 0 < length line.now }
    ensures { result ≡ front line.now }
{
    let first = line[0];
    if is_name_byte(first) {
        word_front(line)
    } else if first == b'"' {
        string_front(line)
    } else if first == b'\'' {
        character_front(line)
    } else if first == b'%' {
        half_front(line)
    } else {
        sign_front(line)
    }
}

/// Cuts a line of any length into its tokens.
#[tactic(auto, using(crate::proofs::Cutting::cut_steps))]
fn cut<'a>(alloc: Global, line: &'a [u8]) -> Result<Vec<Token<'a>>, LineFault>
    ensures value { Gives (λ v. v.items) result (tokens_after line.now 0) }
    ensures short { IfOk result (λ v. length v.items ≤ length line.now) }
{
    let mut out = Vec::new(alloc);
    let mut rest = line;
    while !rest.is_empty() {
        if is_blank(rest[0]) {
            rest = rest.split_at(1).1;
        } else if is_comment(rest) {
            return Ok(out);
        } else {
            match front(rest) {
                Some((token, n)) => {
                    out.push(token)?;
                    rest = rest.split_at(n).1;
                }
                None => return Err(fault_at(rest[0])),
            }
        }
    }
    Ok(out)
}

/// Cuts a line, without its line end, into its tokens, from left to right. It has no more tokens than bytes.
///
/// # Errors
///
/// - `LineTooLong` if the line has more than 1,024 bytes, whatever they are.
/// - `BadByte` or `Syntax` if no token begins at some place: `BadByte` if no token has the byte there.
/// - `OutOfMemory` may come in place of any result.
#[tactic(auto, using(crate::proofs::PartsLemmas::is_cut, crate::proofs::PartsLemmas::short_tokens, crate::proofs::PartsLemmas::long_tokens))]
pub fn cut_line<'a>(alloc: Global, line: &'a [u8]) -> Result<Vec<Token<'a>>, LineFault>
    ensures value { Gives (λ v. v.items) result (tokens line.now) }
    ensures parts { IsCutInto line.now (tokens line.now) }
    ensures short { IfOk result (λ v. length v.items ≤ 1024) }
{
    if line.len() > LINE_LIMIT {
        return Err(LineFault::LineTooLong);
    }
    cut(alloc, line)
}

/// A law: a line is cut in exactly one way into tokens, each the longest at its place, or has exactly one
/// fault. That is the result of `cut_line`.
#[tactic(auto, using(crate::proofs::PartsLemmas::cut_means))]
pub fn one_cut()
    ensures { (line : List ℕ) → (r : Result (List Token) LineFault) → IsCutInto line r ↔ (tokens line ≡ r) }
{}
