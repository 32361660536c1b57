//! What is kept of a statement until all symbols are known.
ghost use Rattle.std.specs.Prelude.{◌≡◌, ◌∷◌, [], ℕ, map, true, Ok, IfOk, IfSome};
ghost use Rattle.rv_source.specs.Operands.{terms_of};
ghost use Rattle.rv_asm.specs.Symbols.{Definitions, operand_value};
ghost use Rattle.rv_asm.specs.Listing.{padding, placed, space};
ghost use Rattle.rv_asm.specs.Support.Statements.{emitted_by, with_value};
ghost use Rattle.rv_asm.specs.Support.Steps.{IsNumber, IsSum, expression_of, kept_bytes};

use crate::data::{fill, pad};
use crate::fixup::Waiting;
use crate::instructions::{Instructions, loading};
use crate::symbols::{Scope, added};
use crate::values::{bits, gap};
use rv_source::{Atom, Expression, Form, List, Operand, Statement, Value};
use std::alloc::{AllocError, Global};
use std::slice::from_ref;

/// The value of an atom or its negative, with a number added to it, or subtracted from it.
#[derive(Drop)]
pub struct Single<'a> {
    atom: Atom<'a>,
    negated: bool,
    negative: bool,
    number: u32,
}

/// What is kept of a statement until all symbols are known. The statement itself isn't kept, since its lists
/// would take many times the memory of its text.
#[derive(Drop)]
pub enum Kept<'a> {
    /// Instructions that wait for nothing.
    Instructions(Instructions),
    /// Other bytes that wait for nothing.
    Ready(List<u8>),
    /// What waits for the value of a single symbol.
    One {
        waiting: Waiting,
        value: Single<'a>,
    },
    /// What waits for values, each in its place.
    Many {
        waiting: Waiting,
        values: List<Expression<'a>>,
    },
}

/// Returns the number of an atom that is one.
fn number(atom: &Atom) -> Option<u32>
    ensures { IfSome result (IsNumber atom.now) }
{
    match atom {
        Atom::Number(n) => Some(*n),
        Atom::Character(b) => Some(u32::from(*b)),
        _ => None,
    }
}

/// Returns the value of an expression as that of a single atom and a number, if it has this form.
pub fn as_single<'a>(sum: &Expression<'a>) -> Option<Single<'a>>
    ensures { IfSome result (IsSum sum.now) }
{
    let (first, more) = sum.terms();
    let (negative, number) = match more {
        [] => (false, 0),
        [second] => (second.negative, number(&second.atom)?),
        _ => return None,
    };
    Some(Single {
        atom: first.atom.again(),
        negated: first.negative,
        negative,
        number,
    })
}

impl<'a> Single<'a> {
    ghost use Rattle.std.specs.Prelude.{◌≡◌};
    ghost use Rattle.rv_asm.specs.Support.Steps.{single_value};

    /// Returns the value, or None if the symbol isn't defined.
    pub fn value(&self, scope: Scope) -> Option<i64>
        ensures { result ≡ single_value scope.entry.symbols.now scope.entry.line scope.entry.here self.now }
    {
        let value = added(0, self.negated, scope.atom(&self.atom)?);
        Some(added(value, self.negative, i64::from(self.number)))
    }
}

/// Returns the expression of an operand.
fn sum_of<'a>(alloc: Global, operand: &Operand<'a>) -> Result<Expression<'a>, AllocError>
    ensures { IfOk result (λ e. e ≡ expression_of operand.now) }
{
    match &operand.form {
        Form::Value { sum, .. } => sum.again(alloc),
        Form::Text(_) => Ok(Expression::zero(alloc)),
    }
}

/// Returns the expressions of operands.
fn sums_of<'a>(alloc: Global, operands: &[Operand<'a>]) -> Result<List<Expression<'a>>, AllocError>
    ensures { IfOk result (λ sums. sums ≡ map expression_of operands.now) }
{
    let mut sums = Vec::with_capacity(alloc, operands.len())?;
    for operand in operands {
        sums.push(sum_of(alloc, operand)?)?;
    }
    Ok(List::of(sums))
}

/// Returns the value of an operand as that of a single symbol, if it has this form.
fn symbol_of<'a>(operand: &Operand<'a>) -> Option<Single<'a>>
    ensures { IfSome result (IsSum (terms_of operand.now)) }
{
    match &operand.form {
        Form::Value { sum, .. } => as_single(sum),
        Form::Text(_) => None,
    }
}

/// Returns what is kept of what waits for the values of operands.
#[tactic(auto, using(crate::proofs::Rows::many_kept, crate::proofs::Rows::one_kept))]
fn waiting_for<'a>(
    alloc: Global,
    waiting: Waiting,
    operands: &[Operand<'a>],
) -> Result<Kept<'a>, AllocError>
    ensures { IfOk result (λ k. (ds : Definitions) → (line here : ℕ) → kept_bytes ds line here k ≡ placed (with_value here waiting) operands.now (operand_value ds line here)) }
{
    if let [only] = operands {
        if let Some(value) = symbol_of(only) {
            return Ok(Kept::One { waiting, value });
        }
    }
    let values = sums_of(alloc, operands)?;
    Ok(Kept::Many { waiting, values })
}

/// Returns what is kept of a space of so many bytes.
#[tactic(auto, unfolding(crate::specs::Support::Steps::kept_bytes))]
fn space<'a>(
    alloc: Global,
    count: u32,
    byte: &Option<Value<'_, 'a>>,
) -> Result<Kept<'a>, AllocError>
    ensures { IfOk result (λ k. (ds : Definitions) → (line here : ℕ) → kept_bytes ds line here k ≡ (space count byte.now).contents (operand_value ds line here)) }
{
    if let Some(byte) = byte {
        return waiting_for(alloc, Waiting::Fill { count }, from_ref(byte.operand()));
    }
    let mut zeros = Vec::new(alloc);
    fill(count, 0, &mut zeros)?;
    Ok(Kept::Ready(List::of(zeros)))
}

/// Returns what is kept of so many bytes of padding.
#[tactic(auto, unfolding(crate::specs::Support::Steps::kept_bytes))]
fn padding<'a>(alloc: Global, count: u32) -> Result<Kept<'a>, AllocError>
    ensures { IfOk result (λ k. (ds : Definitions) → (line here : ℕ) → kept_bytes ds line here k ≡ Ok (padding count)) }
{
    let mut bytes = Vec::new(alloc);
    pad(count, &mut bytes)?;
    Ok(Kept::Ready(List::of(bytes)))
}

/// Returns what is kept of a statement at an address, with its constant.
#[tactic(auto, using(crate::proofs::Rows::near_kept), unfolding(crate::specs::Listing::emitted, crate::specs::Support::Steps::kept_bytes))]
pub fn keep<'a>(
    alloc: Global,
    here: u32,
    constant: i64,
    statement: &Statement<'_, 'a>,
) -> Result<Kept<'a>, AllocError>
    requires { (emitted_by constant here statement.now).is_known ≡ true }
    ensures { IfOk result (λ k. (ds : Definitions) → (line : ℕ) → kept_bytes ds line here k ≡ (emitted_by constant here statement.now).contents (operand_value ds line here)) }
{
    match statement {
        Statement::Instruction(instr) => Ok(Kept::Instructions(Instructions::One(*instr))),
        Statement::Li { rd, .. } => Ok(Kept::Instructions(loading(*rd, bits(constant)))),
        Statement::WithValue { instr, value } => {
            let waiting = Waiting::near(*instr, value.operand());
            waiting_for(alloc, waiting, from_ref(value.operand()))
        }
        Statement::Far {
            scratch,
            instr,
            target,
        } => {
            let (scratch, instr) = (*scratch, *instr);
            let waiting = Waiting::Far { scratch, instr };
            waiting_for(alloc, waiting, from_ref(target.operand()))
        }
        Statement::Data { width, values } => {
            let waiting = Waiting::Data { width: *width };
            waiting_for(alloc, waiting, values.as_slice())
        }
        Statement::Bytes(strings) => {
            let mut bytes = Vec::new(alloc);
            strings.append_to(&mut bytes)?;
            Ok(Kept::Ready(List::of(bytes)))
        }
        Statement::Space { fill, .. } => space(alloc, bits(constant), fill),
        Statement::Align { .. } => padding(alloc, gap(here, 1 << bits(constant))),
        Statement::Balign { .. } => padding(alloc, gap(here, bits(constant))),
        Statement::Constant { .. } | Statement::Marker => Ok(Kept::Ready(List::of(Vec::new(
            alloc,
        )))),
    }
}
