//! Reads lines.
ghost use Rattle.std.specs.Prelude.{◌≡◌, ◌≤◌, length, IfOk, IfSome};
ghost use Rattle.rv_tokens.specs.Faults.{Gives};
ghost use Rattle.rv_tokens.specs.Parts.{IsCutInto};
ghost use Rattle.rv_tokens.specs.Support.Cuts.{tokens};
ghost use Rattle.rv_source.specs.Support.Partial.{body_of, labels_of, left_after, with_labels};
ghost use Rattle.rv_source.specs.Reading.{label_of, line_form, parsed};

use crate::line::Body;
use crate::operand::read_operands;
use crate::table::is_marker;
use crate::terms::is_symbol;
use crate::{Label, Line, LineFault, LineForm, List};
use rv_tokens::{Token, cut_line};
use std::alloc::{AllocError, Global};

/// Reads a token before a colon as a label.
pub fn label_of<'a>(token: &Token<'a>) -> Option<Label<'a>>
    ensures { result ≡ label_of token.now }
{
    match token {
        Token::Name(name) if is_symbol(name) => Some(Label::Name(name.again())),
        Token::Digits(n) => Some(Label::Local(*n)),
        _ => None,
    }
}

/// Reads labels, appends them, and returns the tokens after them; `None` if a token before a colon isn't a
/// label.
#[tactic(auto, unfolding(crate::specs::Support::Partial::labels_of))]
fn read_labels<'t, 'a>(
    out: &mut Vec<Label<'a>>,
    line: &'t [Token<'a>],
) -> Result<Option<&'t [Token<'a>]>, AllocError>
    ensures reads { IfOk result (λ rest. with_labels out.old.items (labels_of line.now) ≡ left_after out.new.items rest) }
    ensures shorter { IfOk result (λ rest. IfSome rest (λ ts. length ts.now ≤ length line.now)) }
{
    let [first, Token::Colon, rest @ ..] = line else {
        return Ok(Some(line));
    };
    let Some(label) = label_of(first) else {
        return Ok(None);
    };
    out.push(label)?;
    read_labels(out, rest)
}

/// Reads the tokens after the labels of a line that has `count` tokens.
fn read_body<'a>(
    alloc: Global,
    count: usize,
    line: &[Token<'a>],
) -> Result<Option<Body<'a>>, AllocError>
    requires within { length line.now ≤ count }
    requires short { count ≤ 1024 }
    ensures { IfOk result (λ body. body ≡ body_of count line.now) }
{
    let [first, rest @ ..] = line else {
        return Ok(Some(Body::Nothing));
    };
    let Token::Name(word) = first else {
        return Ok(None);
    };
    if is_marker(word.bytes()) {
        return Ok(Some(Body::Marker));
    }
    let Some(operands) = read_operands(alloc, count - rest.len(), rest)? else {
        return Ok(None);
    };
    let (word, operands) = (word.again(), List::of(operands));
    Ok(Some(Body::Word { word, operands }))
}

/// Reads the form of a line, without its line end. `LineForm::statement` says what its word and operands stand
/// for.
///
/// # Errors
///
/// `LineTooLong`, `BadByte` or `Syntax` if the line can't be cut into tokens; else `Syntax` if they aren't
/// labels and a statement. `OutOfMemory` may come in place of any result.
#[tactic(auto, unfolding(crate::specs::Support::Partial::form_by_parts), using(crate::proofs::Forms::as_line_form))]
pub fn read_line_form<'a>(alloc: Global, text: &'a [u8]) -> Result<LineForm<'a>, LineFault>
    ensures cut { IsCutInto text.now (tokens text.now) }
    ensures form { Gives (λ l. l) result (line_form text.now) }
{
    let tokens = cut_line(alloc, text)?;
    let mut labels = Vec::new(alloc);
    let rest = read_labels(&mut labels, &tokens)?.ok_or(LineFault::Syntax)?;
    let body = read_body(alloc, tokens.len(), rest)?.ok_or(LineFault::Syntax)?;
    Ok(LineForm { labels, body })
}

/// Reads a line, without its line end: its labels and its statement.
///
/// # Errors
///
/// Those of `read_line_form`; else `UnknownWord` if the word is neither a mnemonic nor a directive, else
/// `BadOperands` if it doesn't take the operands. `OutOfMemory` may come in place of any result.
#[tactic(auto, using(crate::proofs::Parsed::form_fails, crate::proofs::Parsed::statement_fails, crate::proofs::Parsed::as_parsed))]
pub fn read_line<'a>(alloc: Global, text: &'a [u8]) -> Result<Line<'a>, LineFault>
    ensures cut { IsCutInto text.now (tokens text.now) }
    ensures parsed { Gives (λ l. l) result (parsed text.now) }
{
    let form = read_line_form(alloc, text)?;
    form.statement()?;
    Ok(Line(form))
}
