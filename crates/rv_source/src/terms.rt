//! Reads expressions.
ghost use Rattle.std.specs.Prelude.{◌≡◌, ◌↔◌, List, ◌<◌, ◌≤◌, ◌+◌, ◌++◌, ◌∷◌, Bool, false, Some, None, IfOk, IfSome, length, map, option_and_then, if◌then◌else◌};
ghost use Rattle.std.specs.Option.{option_map};
ghost use Rattle.rv_source.specs.Expressions.{IsSum, piece_of};
ghost use Rattle.rv_source.specs.Support.Partial.{is_symbol};
ghost use Rattle.rv_source.specs.declared.expression.Term.{Term};
ghost use Rattle.rv_tokens.specs.declared.token.Token.{Token};
ghost use Rattle.rv_source.specs.Support.Sums.{expression, followed, further, sum};
ghost use Rattle.rv_source.specs.declared.terms.Piece.TheVariants.{Sign};

use crate::{Atom, Expression, Term};
use rv_tokens::{Name, Token};
use std::alloc::{AllocError, Global};

/// Returns whether a name is a symbol: one other than `.`.
pub fn is_symbol(name: &Name) -> bool
    ensures { result ≡ is_symbol name.now }
{
    name.bytes() != b".".as_slice()
}

/// A piece of an expression: what a token may be in one.
#[derive(Drop)]
pub enum Piece<'a> {
    /// `+` or `-`
    Sign { minus: bool },
    Atom(Atom<'a>),
    /// A token that no expression has.
    Other,
}

/// Reads a token as a piece of an expression.
fn piece_of<'a>(token: &Token<'a>) -> Piece<'a>
    ensures { result ≡ piece_of token.now }
{
    match token {
        Token::Plus => Piece::Sign { minus: false },
        Token::Minus => Piece::Sign { minus: true },
        Token::Name(name) if is_symbol(name) => Piece::Atom(Atom::Symbol(name.again())),
        Token::Name(_) => Piece::Atom(Atom::Here),
        Token::Digits(n) => Piece::Atom(Atom::Number(u32::from(*n))),
        Token::Number(n) => Piece::Atom(Atom::Number(*n)),
        Token::Character(b) => Piece::Atom(Atom::Character(*b)),
        Token::Local { number, direction } => Piece::Atom(Atom::Local {
            number: *number,
            direction: *direction,
        }),
        _ => Piece::Other,
    }
}

/// Reads a term with a sign before it or none, and returns it with the tokens after it.
#[tactic(auto, unfolding(crate::specs::Support::Sums::further, crate::specs::Support::Sums::sum))]
fn read_term<'t, 'a>(tokens: &'t [Token<'a>]) -> Option<(Term<'a>, &'t [Token<'a>])>
    ensures first { option_and_then (λ r. followed false r.0 r.1.now) result ≡ sum (map piece_of tokens.now) }
    ensures later { (s : Bool) → option_and_then (λ r. followed s r.0 r.1.now) result ≡ further (Sign s ∷ map piece_of tokens.now) }
    ensures shorter { IfSome result (λ r. length r.1.now < length tokens.now) }
{
    let [first, rest @ ..] = tokens else {
        return None;
    };
    let (negative, piece, rest) = match (piece_of(first), rest) {
        (Piece::Sign { minus }, [second, rest @ ..]) => (minus, piece_of(second), rest),
        (piece, rest) => (false, piece, rest),
    };
    match piece {
        Piece::Atom(atom) => Some((Term { negative, atom }, rest)),
        _ => None,
    }
}

/// Reads the terms after the first, each with a sign or two before it, and appends them; false if the tokens
/// aren't that.
#[tactic(auto, using(std::proofs::lemmas::List::append_assoc), unfolding(crate::specs::Support::Sums::further))]
fn read_further<'a>(out: &mut Vec<Term<'a>>, tokens: &[Token<'a>]) -> Result<bool, AllocError>
    ensures reads { IfOk result (λ ok. option_map (λ ts. out.old.items ++ ts) (further (map piece_of tokens.now)) ≡ (if ok then Some out.new.items else None)) }
    ensures short { IfOk result (λ _. length out.new.items ≤ length out.old.items + length tokens.now) }
{
    let [first, rest @ ..] = tokens else {
        return Ok(true);
    };
    let Piece::Sign { minus } = piece_of(first) else {
        return Ok(false);
    };
    let Some(read) = read_term(rest) else {
        return Ok(false);
    };
    let (Term { negative, atom }, rest) = read;
    let negative = minus != negative;
    out.push(Term { negative, atom })?;
    read_further(out, rest)
}

/// Reads the tokens as a whole as an expression.
#[tactic(auto, unfolding(crate::specs::Support::Sums::expression))]
pub fn read_expression<'a>(
    alloc: Global,
    tokens: &[Token<'a>],
) -> Result<Option<Expression<'a>>, AllocError>
    requires { length tokens.now ≤ 1024 }
    ensures { IfOk result (λ e. e ≡ expression tokens.now) }
{
    let Some(read) = read_term(tokens) else {
        return Ok(None);
    };
    let (first, rest) = read;
    let mut more = Vec::new(alloc);
    let read = read_further(&mut more, rest)?;
    Ok(read.then_some(Expression { first, more }))
}

/// A law: tokens have at most one reading as a sum of terms, and `read_expression` gives it.
#[tactic(auto, using(crate::proofs::OneValue::has_one_value))]
pub fn one_value()
    ensures { (ts : List Token) → (terms : List Term) → IsSum (map piece_of ts) terms ↔ (expression ts ≡ Some terms) }
{}
