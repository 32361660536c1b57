//! Where in a line the fault is that it has in phase one.
ghost use Rattle.std.specs.Prelude.{◌≡◌, ◌+◌, ◌≤◌, length, IfOk};

use crate::diagnosis::{Detail, Finding};
use crate::fit::wrong_operand;
use crate::place::{operand_place, rest_place, stuck_place, syntax_place, token_place, word_index};
use rv_asm::FaultKind;
use rv_source::{Body, LineForm};
use std::alloc::{AllocError, Global};

/// Returns the place of the operand that a word doesn't take, or of the word if operands are missing.
pub fn operands_finding(text: &[u8], line: &LineForm) -> Finding
    ensures { result.place.column + result.place.len ≤ length text.now }
{
    let word = token_place(text, word_index(line));
    let wrong = match line.body() {
        Body::Word { word, operands } => wrong_operand(word.bytes(), operands.as_slice()),
        _ => 0,
    };
    let place = match line.body() {
        Body::Word { operands, .. } if wrong > 0 && wrong <= operands.as_slice().len() => {
            operand_place(text, &operands.as_slice()[wrong - 1])
        }
        _ => word,
    };
    let detail = Detail::Operand(wrong);
    Finding { place, detail }
}

/// Returns the place of the byte or the token that can't stand where it stands in a line without a form.
pub fn syntax_finding(alloc: Global, text: &[u8], kind: FaultKind) -> Result<Finding, AllocError>
    ensures { IfOk result (λ f. f.place.column + f.place.len ≤ length text.now) }
{
    let place = match kind {
        FaultKind::BadByte => stuck_place(text),
        FaultKind::LineTooLong => rest_place(text),
        _ => syntax_place(alloc, text)?,
    };
    let detail = Detail::Nothing;
    Ok(Finding { place, detail })
}
