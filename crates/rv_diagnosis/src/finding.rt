//! Where in a line its fault is.
ghost use Rattle.std.specs.Prelude.{◌+◌, ◌≤◌, length, IfOk};

use crate::diagnosis::{Detail, Field, Finding};
use crate::place::{operand_place, token_place, word_index};
use crate::unread::{operands_finding, syntax_finding};
use rv_asm::{AsmFault, FaultKind, Reviewed, fits};
use rv_base::NoMemory;
use rv_isa::{Instr, Kind, Width};
use rv_source::{Direction, Form, Label, LineForm, Operand, Part, Statement, read_line_form};
use rv_tokens::{Token, cut_line};
use std::alloc::Global;

// ---- names that are defined a second time

/// Returns whether a label is one of some.
fn is_among(labels: &[Label], name: &[u8]) -> bool {
    labels.iter().any(|label| match label {
        Label::Name(other) => other.bytes() == name,
        Label::Local(_) => false,
    })
}

/// Returns the index of the first label of a line whose name is defined before.
fn repeated(review: &Reviewed, line: usize, labels: &[Label]) -> Option<usize> {
    for index in 0..labels.len() {
        let (before, rest) = labels.split_at(index);
        if let Some(Label::Name(name)) = rest.first()
            && (review.line_of(name.bytes()) != Some(line) || is_among(before, name.bytes()))
        {
            return Some(index);
        }
    }
    None
}

/// Returns the place of a token that is a name, which is already defined.
fn defined(review: &Reviewed, line: usize, text: &[u8], index: usize, name: &[u8]) -> Finding
    ensures { result.place.column + result.place.len ≤ length text.now }
{
    Finding {
        place: token_place(text, index),
        detail: Detail::DefinedOn(review.line_of(name).unwrap_or(line)),
    }
}

/// Returns the place of the name that a line defines a second time.
fn duplicate(
    review: &Reviewed,
    number: usize,
    text: &[u8],
    line: &LineForm,
    statement: &Statement,
) -> Finding
    ensures { result.place.column + result.place.len ≤ length text.now }
{
    if let Some(index) = repeated(review, number, line.labels())
        && let Some(Label::Name(name)) = line.labels().get(index)
    {
        return defined(review, number, text, index.saturating_mul(2), name.bytes());
    }
    match statement {
        Statement::Constant { name, .. } => {
            let index = word_index(line).saturating_add(1);
            defined(review, number, text, index, name.bytes())
        }
        _ => word_finding(text, line, Detail::Nothing),
    }
}

// ---- values

/// A line that asks for values, where `is_early` counts only the symbols that it or a line before it defines.
#[derive(Clone, Copy)]
struct Asking<'r> {
    review: &'r Reviewed,
    line: usize,
    is_early: bool,
}

/// Returns whether a token is a symbol without a value on a line.
fn is_unknown(asking: &Asking<'_>, token: &Token) -> bool {
    let Asking {
        review,
        line,
        is_early,
    } = *asking;
    match token {
        Token::Name(name) if name.bytes() != b".".as_slice() => {
            match review.line_of(name.bytes()) {
                Some(origin) => is_early && origin > line,
                None => true,
            }
        }
        Token::Local {
            number,
            direction: Direction::Forward,
        } => is_early || !review.has_local(line, *number, Direction::Forward),
        Token::Local { number, direction } => !review.has_local(line, *number, *direction),
        _ => false,
    }
}

/// Returns how many tokens precede the first symbol without a value.
fn count_known(asking: &Asking<'_>, tokens: &[Token]) -> usize
    ensures { result ≤ length tokens.now }
{
    let [first, rest @ ..] = tokens else {
        return 0;
    };
    if is_unknown(asking, first) {
        0
    } else {
        1 + count_known(asking, rest)
    }
}

/// Returns the index of the first token of an operand that is a symbol without a value.
fn unknown(
    alloc: Global,
    asking: &Asking<'_>,
    text: &[u8],
    operand: &Operand,
) -> Result<Option<usize>, NoMemory> {
    let Ok(tokens) = cut_line(alloc, text) else {
        return Err(NoMemory);
    };
    let first = operand.first.min(tokens.len());
    let rest = tokens.as_slice().split_at(first).1;
    let count = operand.count.min(rest.len());
    let known = count_known(asking, rest.split_at(count).0);
    Ok((known < count).then_some(first.saturating_add(known)))
}

/// Returns the place that the value of an operand means which is missing or isn't in the range of a field.
fn value_finding(
    alloc: Global,
    asking: &Asking<'_>,
    text: &[u8],
    operand: &Operand,
    field: Field,
) -> Result<Finding, NoMemory>
    ensures { IfOk result (λ f. f.place.column + f.place.len ≤ length text.now) }
{
    let review = asking.review;
    let value = review.value(asking.line, operand);
    if (asking.is_early || value.is_none())
        && let Some(index) = unknown(alloc, asking, text, operand)?
    {
        return Ok(Finding {
            place: token_place(text, index),
            detail: Detail::Unknown,
        });
    }
    let value = value.unwrap_or(0);
    let value = match field {
        Field::Branch | Field::Jump => value.saturating_sub(i64::from(review.address(asking.line))),
        _ => value,
    };
    Ok(Finding {
        place: operand_place(text, operand),
        detail: Detail::OutOfRange { field, value },
    })
}

/// Returns the place of the word of a line.
fn word_finding(text: &[u8], line: &LineForm, detail: Detail) -> Finding
    ensures { result.place.column + result.place.len ≤ length text.now }
{
    Finding {
        place: token_place(text, word_index(line)),
        detail,
    }
}

/// Returns the operand whose value must be known on the line of its statement, and the range of the value.
fn asked<'s, 'a>(statement: &'s Statement<'_, 'a>) -> Option<(&'s Operand<'a>, Field)> {
    match statement {
        Statement::Li { value, .. } => Some((value.operand(), Field::Word)),
        Statement::Constant { value, .. } => Some((value.operand(), Field::Word)),
        Statement::Space { size, .. } => Some((size.operand(), Field::Size)),
        Statement::Align { power } => Some((power.operand(), Field::Power)),
        Statement::Balign { multiple } => Some((multiple.operand(), Field::Multiple)),
        _ => None,
    }
}

/// Returns the range of the value of an operand that an instruction waits for.
fn field_of(instr: Instr, operand: &Operand) -> Field {
    match &operand.form {
        Form::Value {
            part: Part::High | Part::Low,
            ..
        } => return Field::Word,
        _ => {}
    }
    match instr.kind() {
        Kind::Lui { .. } | Kind::Auipc { .. } => Field::Upper,
        Kind::Jal { .. } => Field::Jump,
        Kind::Branch { .. } => Field::Branch,
        Kind::Shift { .. } => Field::Amount,
        Kind::CsrImm { .. } => Field::CsrImmediate,
        _ => Field::Immediate,
    }
}

/// Returns the range of values of a width.
fn field_of_width(width: Width) -> Field {
    match width {
        Width::One => Field::Byte,
        Width::Two => Field::Half,
        Width::Four => Field::Word,
    }
}

/// Returns the first operand without a value, or else the first whose value doesn't fit.
fn faulty_value<'s, 'a>(
    review: &Reviewed,
    line: usize,
    width: Width,
    values: &'s [Operand<'a>],
) -> Option<&'s Operand<'a>> {
    let unknown = values.iter().find(|x| review.value(line, x).is_none());
    if unknown.is_some() {
        return unknown;
    }
    values.iter().find(|x| match review.value(line, x) {
        Some(value) => !fits(width, value),
        None => true,
    })
}

/// Returns the operand whose value has to be known in phase three and is faulty, and the range of the value.
fn late<'s, 'a>(
    review: &Reviewed,
    line: usize,
    statement: &'s Statement<'_, 'a>,
) -> Option<(&'s Operand<'a>, Field)> {
    match statement {
        Statement::WithValue { instr, value } => {
            Some((value.operand(), field_of(*instr, value.operand())))
        }
        Statement::Far { target, .. } => Some((target.operand(), Field::Word)),
        Statement::Data { width, values } => {
            let operand = faulty_value(review, line, *width, values.as_slice())?;
            Some((operand, field_of_width(*width)))
        }
        Statement::Space {
            fill: Some(fill),
            ..
        } => Some((fill.operand(), Field::Byte)),
        _ => None,
    }
}

/// Returns the place that a line with a statement means, by its fault.
fn statement_finding(
    alloc: Global,
    review: &Reviewed,
    text: &[u8],
    line: &LineForm,
    statement: &Statement,
    fault: AsmFault,
) -> Result<Finding, NoMemory>
    ensures { IfOk result (λ f. f.place.column + f.place.len ≤ length text.now) }
{
    let number = fault.line;
    let asking = Asking {
        review,
        line: number,
        is_early: matches!(fault.kind, FaultKind::NotConstant),
    };
    let found = match fault.kind {
        FaultKind::DuplicateSymbol => {
            return Ok(duplicate(review, number, text, line, statement));
        }
        FaultKind::NotConstant => asked(statement),
        FaultKind::Undefined | FaultKind::OutOfRange => late(review, number, statement),
        _ => {
            let detail = Detail::Address(review.address(number));
            return Ok(word_finding(text, line, detail));
        }
    };
    match found {
        Some((operand, field)) => value_finding(alloc, &asking, text, operand, field),
        None => Ok(word_finding(text, line, Detail::Nothing)),
    }
}

/// Returns the place that a fault of a line means, and what more there is to say of it.
pub fn finding(
    alloc: Global,
    review: &Reviewed,
    text: &[u8],
    fault: AsmFault,
) -> Result<Finding, NoMemory>
    ensures { IfOk result (λ f. f.place.column + f.place.len ≤ length text.now) }
{
    let Ok(line) = read_line_form(alloc, text) else {
        return Ok(syntax_finding(alloc, text, fault.kind)?);
    };
    match line.statement() {
        Ok(Some(statement)) => { statement_finding(alloc, review, text, &line, &statement, fault) }
        Ok(None) => Ok(duplicate(review, fault.line, text, &line, &Statement::Marker)),
        Err(_) => match fault.kind {
            FaultKind::BadOperands => Ok(operands_finding(text, &line)),
            _ => Ok(word_finding(text, &line, Detail::Nothing)),
        },
    }
}
