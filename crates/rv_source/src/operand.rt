//! Reads operands.
ghost use Rattle.std.specs.Prelude.{List, ◌↔◌, ◌≡◌, ◌<◌, ◌≤◌, ◌+◌, ◌++◌, ◌∷◌, [], length, IfOk, IfSome, Some, None, if◌then◌else◌};
ghost use Rattle.std.specs.Option.{option_map};
ghost use Rattle.std.specs.List.{position};
ghost use Rattle.rv_source.specs.Operands.{IsOperand, is_comma, operands, operands_of};
ghost use Rattle.rv_source.specs.Support.Forms.{base_of, enclosed, form_of, form_with, valued};
ghost use Rattle.rv_source.specs.Support.Partial.{pieces, pieces_after};
ghost use Rattle.rv_source.specs.declared.operand.Form.{Form};
ghost use Rattle.rv_tokens.specs.declared.token.Token.{Token};

use crate::Expression;
use crate::terms::read_expression;
use rv_tokens::{Name, Text, Token};
use std::alloc::{AllocError, Global};

/// A part of a value.
#[derive(Clone, Copy)]
pub enum Part {
    Whole,
    /// `%hi`: the upper 20 bits that, with the lower part, make the value.
    High,
    /// `%lo`: the lower 12 bits, with a sign.
    Low,
}

/// The form of an operand, with what it has in it.
#[derive(Drop)]
pub enum Form<'a> {
    /// `E`, `%hi(E)` or `%lo(E)`; or `E(name)` or `%lo(E)(name)`, with a base; or `(name)`, whose sum is 0.
    Value {
        part: Part,
        sum: Expression<'a>,
        base: Option<Name<'a>>,
    },
    /// A string.
    Text(Text<'a>),
}

/// An operand with its place: the index of its first token in the line, and how many tokens it has.
#[derive(Drop)]
pub struct Operand<'a> {
    pub first: usize,
    pub count: usize,
    pub form: Form<'a>,
}

/// Reads the tokens as `(name)`.
fn base<'a>(tokens: &[Token<'a>]) -> Option<Name<'a>>
    ensures { result ≡ base_of tokens.now }
{
    let [open, name, close] = tokens else {
        return None;
    };
    match (open, name, close) {
        (Token::Open, Token::Name(name), Token::Close) => Some(name.again()),
        _ => None,
    }
}

/// Returns the tokens between two brackets around all others.
fn enclosed<'t, 'a>(tokens: &'t [Token<'a>]) -> Option<&'t [Token<'a>]>
    ensures value { option_map (λ ts. ts.now) result ≡ enclosed tokens.now }
    ensures shorter { IfSome result (λ ts. length ts.now ≤ length tokens.now) }
{
    match tokens {
        [Token::Open, inner @ .., Token::Close] => Some(inner),
        _ => None,
    }
}

/// Reads a part of the value that tokens spell, with a base or none.
fn read_part<'a>(
    alloc: Global,
    part: Part,
    base: Option<Name<'a>>,
    tokens: Option<&[Token<'a>]>,
) -> Result<Option<Form<'a>>, AllocError>
    requires { IfSome tokens (λ ts. length ts.now ≤ 1024) }
    ensures { IfOk result (λ f. f ≡ valued part base.entry (option_map (λ ts. ts.now) tokens.entry)) }
{
    let Some(tokens) = tokens else {
        return Ok(None);
    };
    let Some(sum) = read_expression(alloc, tokens)? else {
        return Ok(None);
    };
    Ok(Some(Form::Value { part, sum, base }))
}

/// Returns 0 with a base, if there is one.
#[tactic(auto, unfolding(crate::specs::Support::Sums::expression, crate::specs::Support::Sums::sum))]
fn zero_with<'a>(alloc: Global, base: Option<Name<'a>>) -> Option<Form<'a>>
    ensures { result ≡ form_with base.entry [] }
{
    base.as_ref()?;
    let (part, sum) = (Part::Whole, Expression::zero(alloc));
    Some(Form::Value { part, sum, base })
}

/// Reads an operand without its base, which it has or not.
fn read_with<'a>(
    alloc: Global,
    base: Option<Name<'a>>,
    tokens: &[Token<'a>],
) -> Result<Option<Form<'a>>, AllocError>
    requires { length tokens.now ≤ 1024 }
    ensures { IfOk result (λ f. f ≡ form_with base.entry tokens.now) }
{
    let [first, rest @ ..] = tokens else {
        return Ok(zero_with(alloc, base));
    };
    match first {
        Token::Text(text) if base.is_none() && rest.is_empty() => {
            Ok(Some(Form::Text(text.again())))
        }
        Token::High if base.is_none() => read_part(alloc, Part::High, base, enclosed(rest)),
        Token::Low => read_part(alloc, Part::Low, base, enclosed(rest)),
        _ => read_part(alloc, Part::Whole, base, Some(tokens)),
    }
}

/// Reads the form of an operand.
#[tactic(auto, unfolding(crate::specs::Support::Forms::form_of))]
fn read_form<'a>(alloc: Global, tokens: &[Token<'a>]) -> Result<Option<Form<'a>>, AllocError>
    requires { length tokens.now ≤ 1024 }
    ensures { IfOk result (λ f. f ≡ form_of tokens.now) }
{
    if let Some(form) = read_with(alloc, None, tokens)? {
        return Ok(Some(form));
    }
    let (front, last) = tokens.split_at(tokens.len().saturating_sub(3));
    match base(last) {
        None => Ok(None),
        base => read_with(alloc, base, front),
    }
}

/// A law: tokens spell an operand of at most one form, and `form_of` gives it.
#[tactic(auto, using(crate::proofs::OneForm::has_one_form))]
pub fn one_form()
    ensures { (ts : List Token) → (form : Form) → IsOperand ts form ↔ (form_of ts ≡ Some form) }
{}

/// Returns the index of the first comma.
fn comma(tokens: &[Token]) -> Option<usize>
    ensures value { result ≡ position is_comma tokens.now }
    ensures below { IfSome result (λ n. n < length tokens.now) }
{
    tokens.iter().position(|t| matches!(t, Token::Comma))
}

/// Returns the tokens before the first comma, and the others.
#[tactic(auto, using(crate::proofs::Pieces::cut_at))]
fn cut<'t, 'a>(tokens: &'t [Token<'a>]) -> (&'t [Token<'a>], &'t [Token<'a>])
    ensures pieces { pieces tokens.now ≡ result.0.now ∷ pieces_after result.1.now }
    ensures all { length result.0.now + length result.1.now ≡ length tokens.now }
{
    let end = comma(tokens).unwrap_or(tokens.len());
    tokens.split_at(end)
}

/// Reads operands with commas between them, from token `first` of their line on, and appends them; false if
/// the tokens aren't operands.
#[tactic(auto, using(crate::proofs::Pieces::operands_more), unfolding(crate::specs::Operands::operands))]
fn read_more<'a>(
    alloc: Global,
    first: usize,
    tokens: &[Token<'a>],
    out: &mut Vec<Operand<'a>>,
) -> Result<bool, AllocError>
    requires { first + length tokens.now ≤ 1024 }
    ensures { IfOk result (λ ok. option_map (λ xs. out.old.items ++ xs) (operands first (pieces tokens.now)) ≡ (if ok then Some out.new.items else None)) }
{
    let (piece, others) = cut(tokens);
    let Some(form) = read_form(alloc, piece)? else {
        return Ok(false);
    };
    let count = piece.len();
    out.push(Operand { first, count, form })?;
    let [_, others @ ..] = others else {
        return Ok(true);
    };
    read_more(alloc, first + count + 1, others, out)
}

/// Reads the operands of a mnemonic or directive by the tokens following it, the first of which is token
/// `first` of their line.
#[tactic(auto, unfolding(crate::specs::Operands::operands_of))]
pub fn read_operands<'a>(
    alloc: Global,
    first: usize,
    tokens: &[Token<'a>],
) -> Result<Option<Vec<Operand<'a>>>, AllocError>
    requires { first + length tokens.now ≤ 1024 }
    ensures { IfOk result (λ xs. option_map (λ xs. xs.items) xs ≡ operands_of first tokens.now) }
{
    let mut out = Vec::new(alloc);
    let read = tokens.is_empty() || read_more(alloc, first, tokens, &mut out)?;
    Ok(read.then_some(out))
}
