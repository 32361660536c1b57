//! The first token of a line that can't stand where it stands.
ghost use Rattle.std.specs.Prelude.{◌≤◌, length};

use rv_source::label_of;
use rv_tokens::Token;

/// What encloses a sum.
#[derive(Clone, Copy)]
enum Within {
    /// Nothing: the sum is an operand.
    Operand,
    /// `%hi(` and `)`
    High,
    /// `%lo(` and `)`
    Low,
}

/// What the tokens of an operand so far are.
#[derive(Clone, Copy)]
enum Part {
    /// Nothing yet.
    Nothing(Within),
    /// A sign before the first term.
    FirstSign(Within),
    /// A sum.
    Sum(Within),
    /// A sum and a sign.
    Sign(Within),
    /// A sum and two signs.
    Signs(Within),
    /// `%hi` or `%lo`.
    Half(Within),
    /// `%lo(E)`.
    Lower,
    /// What a base's bracket opens.
    Base,
    /// A base's bracket and its name.
    BaseName,
    /// An operand that nothing may follow.
    Whole,
}

/// What a token is in an operand.
#[derive(Clone, Copy)]
enum Piece {
    Atom,
    Sign,
    Open,
    Close,
    Comma,
    High,
    Low,
    Text,
    Other,
}

/// Returns what a token is in an operand.
fn piece_of(token: &Token) -> Piece {
    match token {
        Token::Name(_) | Token::Digits(_) | Token::Number(_) => Piece::Atom,
        Token::Local { .. } | Token::Character(_) => Piece::Atom,
        Token::Plus | Token::Minus => Piece::Sign,
        Token::Open => Piece::Open,
        Token::Close => Piece::Close,
        Token::Comma => Piece::Comma,
        Token::High => Piece::High,
        Token::Low => Piece::Low,
        Token::Text(_) => Piece::Text,
        Token::Colon | Token::At => Piece::Other,
    }
}

/// Returns an operand's part with one more token after nothing.
fn after_nothing(within: Within, piece: Piece) -> Option<Part> {
    match (within, piece) {
        (_, Piece::Atom) => Some(Part::Sum(within)),
        (_, Piece::Sign) => Some(Part::FirstSign(within)),
        (Within::Operand, Piece::Open) => Some(Part::Base),
        (Within::Operand, Piece::High) => Some(Part::Half(Within::High)),
        (Within::Operand, Piece::Low) => Some(Part::Half(Within::Low)),
        (Within::Operand, Piece::Text) => Some(Part::Whole),
        _ => None,
    }
}

/// Returns an operand's part with one more token after a sum.
fn after_sum(within: Within, piece: Piece) -> Option<Part> {
    match (within, piece) {
        (_, Piece::Sign) => Some(Part::Sign(within)),
        (Within::Operand, Piece::Open) => Some(Part::Base),
        (Within::Operand, Piece::Comma) => Some(Part::Nothing(Within::Operand)),
        (Within::High, Piece::Close) => Some(Part::Whole),
        (Within::Low, Piece::Close) => Some(Part::Lower),
        _ => None,
    }
}

/// Returns an operand's part with one more token, or `None` if it can't stand there.
fn next(part: Part, piece: Piece) -> Option<Part> {
    match (part, piece) {
        (Part::Nothing(within), _) => after_nothing(within, piece),
        (Part::Sum(within), _) => after_sum(within, piece),
        (Part::Sign(within), Piece::Sign) => Some(Part::Signs(within)),
        (Part::FirstSign(within), Piece::Atom) => Some(Part::Sum(within)),
        (Part::Sign(within), Piece::Atom) => Some(Part::Sum(within)),
        (Part::Signs(within), Piece::Atom) => Some(Part::Sum(within)),
        (Part::Half(within), Piece::Open) => Some(Part::Nothing(within)),
        (Part::Lower, Piece::Open) => Some(Part::Base),
        (Part::Base, Piece::Atom) => Some(Part::BaseName),
        (Part::BaseName, Piece::Close) => Some(Part::Whole),
        (Part::Lower, Piece::Comma) => Some(Part::Nothing(Within::Operand)),
        (Part::Whole, Piece::Comma) => Some(Part::Nothing(Within::Operand)),
        _ => None,
    }
}

/// Returns how many tokens can stand where they stand, from the part of an operand on.
fn count_fitting(part: Part, tokens: &[Token]) -> usize
    ensures { result ≤ length tokens.now }
{
    let [first, rest @ ..] = tokens else {
        return 0;
    };
    match next(part, piece_of(first)) {
        Some(part) => 1 + count_fitting(part, rest),
        None => 0,
    }
}

/// Returns how many tokens can stand where they stand after the labels of a line.
fn count_in_body(tokens: &[Token]) -> usize
    ensures { result ≤ length tokens.now }
{
    let [first, rest @ ..] = tokens else {
        return 0;
    };
    match first {
        Token::Name(_) => 1 + count_fitting(Part::Nothing(Within::Operand), rest),
        _ => 0,
    }
}

/// Returns how many tokens of a line can stand where they stand.
fn count_in_line(tokens: &[Token]) -> usize
    ensures { result ≤ length tokens.now }
{
    let [first, second, rest @ ..] = tokens else {
        return count_in_body(tokens);
    };
    match second {
        Token::Colon => match label_of(first) {
            Some(_) => 2 + count_in_line(rest),
            None => 0,
        },
        _ => count_in_body(tokens),
    }
}

/// Returns the index of the first token of a faulty line that can't stand where it stands, or of the last
/// token if something is missing after it.
pub fn misplaced(tokens: &[Token]) -> usize {
    count_in_line(tokens).min(tokens.len().saturating_sub(1))
}
