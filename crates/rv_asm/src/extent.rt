//! The extent of a statement, and its faults in phase two.
ghost use Rattle.std.specs.Prelude.{◌≡◌, ◌≤◌, ◌<◌, ◌+◌, ◌*◌, ℕ, min, is_some, true, false, IfOk, IfSome};
ghost use Rattle.std.specs.Result.{result_err};
ghost use Rattle.rv_isa.specs.Width.{bytes_of};
ghost use Rattle.rv_asm.specs.Layout.{redefines};
ghost use Rattle.rv_asm.specs.Listing.{emitted};
ghost use Rattle.rv_asm.specs.Support.Statements.{Valuation, IsKnown, values_in, emitted_by, fault_by, image_end};

use crate::FaultKind;
use crate::instructions::loading;
use crate::symbols::{Scope, Symbols};
use crate::values::{bits, gap, is_between, is_multiple, is_word};
use rv_base::{IMAGE_LIMIT, RAM_BASE};
use rv_isa::Width;
use rv_source::Statement;

/// The extent of a statement.
#[derive(Clone, Copy)]
pub struct Extent {
    /// The value that has to be known on the line of the statement, or 0 if there is none.
    pub constant: i64,
    /// The address following the statement.
    pub end: u32,
}

/// Returns whether a value is in the range of the constant of a statement.
#[tactic(auto, unfolding(crate::specs::Listing::emitted))]
fn is_taken(statement: &Statement, value: i64) -> bool
    ensures { (here : ℕ) → result ≡ (emitted_by value here statement.now).is_known }
{
    match statement {
        Statement::Space { .. } => is_between(0, IMAGE_LIMIT as i64, value),
        Statement::Align { .. } => is_between(0, 12, value),
        Statement::Balign { .. } => is_multiple(value),
        Statement::Li { .. } | Statement::Constant { .. } => is_word(value),
        _ => true,
    }
}

/// Returns the constant of a statement: the value that must be known on its line, because its size or a name
/// depends on it. Other statements have the constant 0. None if the value isn't known there, or isn't in the
/// range of the statement.
#[tactic(auto, unfolding(crate::specs::Listing::emitted, crate::specs::Support::Statements::IsKnown))]
fn constant(scope: Scope, statement: &Statement) -> Option<i64>
    ensures some { (emitted (values_in scope.entry) scope.entry.here statement.now).is_known ≡ is_some result }
    ensures known { IfSome result (λ c. IsKnown (values_in scope.entry) c statement.now) }
    ensures taken { IfSome result (λ c. (here : ℕ) → (emitted_by c here statement.now).is_known ≡ true) }
{
    let operand = match statement {
        Statement::Li { value, .. } | Statement::Constant { value, .. } => value.operand(),
        Statement::Space { size, .. } => size.operand(),
        Statement::Align { power } => power.operand(),
        Statement::Balign { multiple } => multiple.operand(),
        _ => return Some(0),
    };
    let value = scope.value(operand)?;
    is_taken(statement, value).then_some(value)
}

/// Returns the size in bytes of `count` values of a width, saturated at 2^32 - 1.
fn data_size(width: Width, count: usize) -> u32
    ensures { result ≡ min (bytes_of width * count) 0xffffffff }
{
    let count = count.min(0xffff_ffff) as u32;
    count.saturating_mul(width.bytes())
}

/// Returns the size in bytes of a statement at the address `here`, saturated at 2^32 - 1.
#[tactic(auto, using(crate::proofs::Rows::length_bytes, crate::proofs::Rows::padded, crate::proofs::Rows::space_size), unfolding(crate::specs::Values::loading, crate::specs::Listing::emitted))]
fn size_of(here: u32, constant: i64, statement: &Statement) -> u32
    requires { (emitted_by constant here statement.now).is_known ≡ true }
    ensures { result ≡ min (emitted_by constant here statement.now).size 0xffffffff }
{
    match statement {
        Statement::Instruction(_) | Statement::WithValue { .. } => 4,
        Statement::Far { .. } => 8,
        Statement::Li { rd, .. } => loading(*rd, bits(constant)).size(),
        Statement::Data { width, values } => data_size(*width, values.as_slice().len()),
        Statement::Bytes(bytes) => bytes.size(),
        Statement::Space { .. } => bits(constant),
        Statement::Align { .. } => gap(here, 1 << bits(constant)),
        Statement::Balign { .. } => gap(here, bits(constant)),
        Statement::Constant { .. } | Statement::Marker => 0,
    }
}

/// Returns of what the address of a statement has to be a multiple: 4 if it is assembled to instructions.
#[tactic(auto, using(crate::proofs::Rows::row_steps), unfolding(crate::specs::Listing::emitted))]
fn alignment(statement: &Statement) -> u32
    ensures value { (early : Valuation) → (here : ℕ) → result ≡ (emitted early here statement.now).alignment }
    ensures some { 0 < result }
{
    match statement {
        Statement::Instruction(_)
        | Statement::WithValue { .. }
        | Statement::Far { .. }
        | Statement::Li { .. } => 4,
        _ => 1,
    }
}

/// Returns whether a statement is `.equ` of a name that is already defined.
#[tactic(auto, using(crate::proofs::Rows::row_steps), unfolding(crate::specs::Listing::emitted))]
fn renames(symbols: &Symbols, statement: &Statement) -> bool
    ensures { (early : Valuation) → (here : ℕ) → result ≡ redefines symbols.now.names (emitted early here statement.now).defines }
{
    match statement {
        Statement::Constant { name, .. } => symbols.names.value(name.bytes()).is_some(),
        _ => false,
    }
}

/// Returns the extent of a statement, or its fault in phase two.
#[tactic(auto, using(crate::proofs::Rows::row_is, crate::proofs::Rows::past, crate::proofs::Rows::within))]
pub fn extent_of(scope: Scope, statement: &Statement) -> Result<Extent, FaultKind>
    ensures fault { result_err result ≡ fault_by scope.entry.symbols.now.names scope.entry.here (emitted (values_in scope.entry) scope.entry.here statement.now) }
    ensures row { IfOk result (λ e. emitted (values_in scope.entry) scope.entry.here statement.now ≡ emitted_by e.constant scope.entry.here statement.now) }
    ensures known { IfOk result (λ e. (here : ℕ) → (emitted_by e.constant here statement.now).is_known ≡ true) }
    ensures new { IfOk result (λ e. (here : ℕ) → redefines scope.entry.symbols.now.names (emitted_by e.constant here statement.now).defines ≡ false) }
    ensures end { IfOk result (λ e. e.end ≡ scope.entry.here + (emitted_by e.constant scope.entry.here statement.now).size) }
    ensures within { IfOk result (λ e. e.end ≤ image_end) }
{
    if renames(scope.symbols, statement) {
        return Err(FaultKind::DuplicateSymbol);
    }
    let constant = constant(scope, statement).ok_or(FaultKind::NotConstant)?;
    if scope.here % alignment(statement) != 0 {
        return Err(FaultKind::Misplaced);
    }
    let size = size_of(scope.here, constant, statement);
    let end = scope.here.saturating_add(size);
    if end > RAM_BASE + IMAGE_LIMIT {
        return Err(FaultKind::TooLarge);
    }
    Ok(Extent { constant, end })
}
