//! The statement of a word with its operands.
ghost use Rattle.std.specs.Prelude.{◌≡◌, map};
ghost use Rattle.std.specs.List.{list_any};
ghost use Rattle.std.specs.Str.{bytes_eq};
ghost use Rattle.rv_isa.specs.Support.Mnemonics.{zeroed};
ghost use Rattle.rv_tokens.specs.declared.fault.LineFault.TheVariants.{UnknownWord};
ghost use Rattle.rv_source.specs.Support.Partial.{first_fit, fitted_or, has_dot, is_marker, of_word, row_by, rows, words};
ghost use Rattle.rv_source.specs.Table.{meaning, of_kind};

use crate::row::Role::{After, Before, Both, Csr, Imm, Memory, Rd, Rs1, Rs2, Upper, Value};
use crate::row::Way::{self, Far, Link, Near};
use crate::row::{Row, meant};
use crate::words::{DIRECTIVES, MARKERS, PSEUDO_INSTRUCTIONS};
use crate::{LineFault, Operand, Statement};
use rv_isa::{Kind, Operation, operation_named};

// ---- operations

/// Returns the ways to write an operation, in the order in which they are tried.
#[tactic(auto, unfolding(crate::specs::Table::of_kind))]
pub fn ways_of(operation: Operation) -> &'static [Way]
    ensures { map (row_by operation) result.now ≡ of_kind operation (zeroed operation) }
{
    match operation.kind() {
        Kind::Lui { .. } => &[Near(&[Rd, Upper])],
        Kind::Auipc { .. } => &[Near(&[Rd, Value])],
        Kind::Jal { .. } => &[Near(&[Rd, Value]), Link(&[Value])],
        Kind::Jalr { .. } => &[
            Near(&[Rd, Rs1]),
            Near(&[Rd, Memory]),
            Near(&[Rd, Rs1, Imm]),
            Link(&[Rs1]),
        ],
        Kind::Branch { .. } => &[Near(&[Rs1, Rs2, Value])],
        Kind::Load { .. } => &[Near(&[Rd, Memory]), Far(&[Both, Value])],
        Kind::Store { .. } => &[Near(&[Rs2, Memory]), Far(&[Rs2, Value, Rs1])],
        Kind::OpImm { .. } => &[Near(&[Rd, Rs1, Imm])],
        Kind::Shift { .. } => &[Near(&[Rd, Rs1, Value])],
        Kind::Op { .. } => &[Near(&[Rd, Rs1, Rs2])],
        Kind::Fence { .. } => &[Near(&[]), Near(&[Before, After])],
        Kind::Csr { .. } => &[Near(&[Rd, Csr, Rs1])],
        Kind::CsrImm { .. } => &[Near(&[Rd, Csr, Value])],
        Kind::FenceI { .. } | Kind::Ecall | Kind::Ebreak | Kind::Mret | Kind::Wfi => &[Near(&[])],
    }
}

// ---- words

/// Returns the statement of the first row of a word that takes the operands.
///
/// # Errors
///
/// `UnknownWord` if the word has no row, else `BadOperands`.
fn of_word<'t, 'a>(
    table: &[(&str, Row)],
    word: &[u8],
    operands: &'t [Operand<'a>],
) -> Result<Statement<'t, 'a>, LineFault>
    ensures { result ≡ fitted_or UnknownWord operands.now (of_word word.now (rows table.now)) }
{
    let mut fault = LineFault::UnknownWord;
    for entry in table {
        if entry.0.as_bytes() == word {
            match meant(entry.1, operands) {
                Some(statement) => return Ok(statement),
                None => fault = LineFault::BadOperands,
            }
        }
    }
    Err(fault)
}

/// Returns whether a word begins with `.`, as those of the directives do.
fn has_dot(word: &[u8]) -> bool
    ensures { result ≡ has_dot word.now }
{
    word.starts_with(b".")
}

/// Returns the statement of a word that is no mnemonic of an instruction, by the table that may have it.
#[tactic(auto, using(crate::proofs::WordRows::of_directive, crate::proofs::WordRows::of_other), unfolding(crate::specs::Table::directives, crate::specs::Table::pseudo_instructions))]
fn of_other_word<'t, 'a>(
    word: &[u8],
    operands: &'t [Operand<'a>],
) -> Result<Statement<'t, 'a>, LineFault>
    ensures { result ≡ fitted_or UnknownWord operands.now (of_word word.now words) }
{
    if has_dot(word) {
        of_word(&DIRECTIVES, word, operands)
    } else {
        of_word(&PSEUDO_INSTRUCTIONS, word, operands)
    }
}

/// Returns whether a word is one of these.
fn is_among(names: &[&str], word: &[u8]) -> bool
    ensures { result ≡ list_any (λ name. bytes_eq name.now word.now) names.now }
{
    names.iter().any(|name| name.as_bytes() == word)
}

/// Returns whether a word is a directive without effect.
#[tactic(auto, using(crate::proofs::WordRows::no_marker), unfolding(crate::specs::Table::markers))]
pub fn is_marker(word: &[u8]) -> bool
    ensures { result ≡ is_marker word.now }
{
    has_dot(word) && is_among(&MARKERS, word)
}

/// Returns the statement of a word with these operands.
///
/// # Errors
///
/// `UnknownWord` if the word is neither a mnemonic nor a directive, else `BadOperands` if it doesn't take the
/// operands.
#[tactic(auto, using(crate::proofs::WordRows::has_rows), unfolding(crate::specs::Table::meaning))]
pub fn meaning<'t, 'a>(
    word: &[u8],
    operands: &'t [Operand<'a>],
) -> Result<Statement<'t, 'a>, LineFault>
    ensures { result ≡ meaning word.now operands.now }
{
    let Some(operation) = operation_named(word) else {
        return of_other_word(word, operands);
    };
    for way in ways_of(operation) {
        if let Some(statement) = meant(way.row(operation), operands) {
            return Ok(statement);
        }
    }
    Err(LineFault::BadOperands)
}
