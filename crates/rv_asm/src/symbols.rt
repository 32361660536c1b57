//! The symbols of a source, and the values of expressions.
ghost use Rattle.std.specs.Prelude.{◌≡◌, ◌<◌, ◌+◌, ℕ, ◌*◌, ◌^◌, ◌++◌, true, false, [], length, IfSome, OnOk};
ghost use Rattle.rv_asm.specs.Symbols.{atom_value, sum_value};
ghost use Rattle.rv_asm.specs.Layout.{redefines};
ghost use Rattle.rv_asm.specs.Support.Statements.{emitted_by, IsNear, added, values_in};
ghost use Rattle.rv_asm.specs.Values.{is_word};

use crate::locals::Locals;
use rv_program::Names;
use rv_source::{Atom, Expression, Form, Operand, Statement, Term};
use std::alloc::{AllocError, Global};
use std::marker::Model;

/// The names and local labels of a source with their values, in order of definition.
#[derive(Drop)]
pub struct Symbols {
    pub names: Names,
    pub locals: Locals,
}

impl Model for Symbols {
    ghost use Rattle.rv_asm.specs.Symbols.{Definitions};

    ghost Value = { Definitions };

    ghost view = { λ s. record { names = s.names; locals = s.locals } };
}

impl Symbols {
    pub fn new(alloc: Global) -> Self
        ensures { result ≡ record { names = []; locals = [] } }
    {
        Symbols {
            names: Names::new(alloc),
            locals: Locals::new(alloc),
        }
    }

    /// Defines the name of `.equ` with its value; nothing for any other statement.
    #[tactic(auto, using(crate::proofs::Rows::row_steps, crate::proofs::Examining::not_some), unfolding(crate::specs::Listing::emitted))]
    pub fn define_constant(
        &mut self,
        alloc: Global,
        constant: i64,
        statement: &Statement,
    ) -> Result<(), AllocError>
        requires known { (emitted_by constant 0 statement.now).is_known ≡ true }
        requires new { redefines self.old.names (emitted_by constant 0 statement.now).defines ≡ false }
        ensures { OnOk result ((here : ℕ) → self.new ≡ record { names = self.old.names ++ (emitted_by constant here statement.now).defines; locals = self.old.locals }) }
    {
        if let Statement::Constant { name, .. } = statement {
            self.names.define(alloc, name.bytes(), constant)?;
        }
        Ok(())
    }
}

/// The scope in which the expressions of a statement are evaluated: the symbols, the line, counted from 0,
/// and the address of the statement.
#[derive(Clone, Copy)]
pub struct Scope<'a> {
    pub symbols: &'a Symbols,
    pub line: usize,
    pub here: u32,
}

impl<'a> Scope<'a> {
    /// Returns the value of an atom, or None if its symbol isn't defined.
    pub fn atom(&self, atom: &Atom) -> Option<i64>
        ensures value { result ≡ atom_value self.now.symbols.now self.now.line self.now.here atom.now }
        ensures word { IfSome result (λ v. is_word v ≡ true) }
    {
        let symbols = self.symbols;
        match atom {
            Atom::Number(n) => Some(i64::from(*n)),
            Atom::Character(b) => Some(i64::from(*b)),
            Atom::Symbol(name) => symbols.names.value(name.bytes()),
            Atom::Local { number, direction } => {
                let label = symbols.locals.nearest(*number, *direction, self.line)?;
                Some(i64::from(label.address))
            }
            Atom::Here => Some(i64::from(self.here)),
        }
    }

    /// Returns the sum of some terms, or None if one of their symbols isn't defined. Each term is added to the sum of
    /// those after it, as in the definition.
    #[tactic(auto, using(crate::proofs::Sums::near_more, crate::proofs::Sums::near_enough), unfolding(crate::specs::Symbols::sum_value))]
    fn terms(&self, terms: &[Term]) -> Option<i64>
        requires { length terms.now < 1024 }
        ensures value { result ≡ sum_value self.now.symbols.now self.now.line self.now.here terms.now }
        ensures near { IfSome result (IsNear (4294967296 * length terms.now)) }
    {
        let [first, rest @ ..] = terms else {
            return Some(0);
        };
        let value = self.atom(&first.atom)?;
        Some(added(self.terms(rest)?, first.negative, value))
    }

    /// Returns the value of an expression, or None if one of its symbols isn't defined.
    #[tactic(auto, using(crate::proofs::Sums::near_enough), unfolding(crate::specs::Symbols::sum_value))]
    pub fn sum(&self, expression: &Expression) -> Option<i64>
        ensures { result ≡ sum_value self.now.symbols.now self.now.line self.now.here expression.now }
    {
        let (first, more) = expression.terms();
        let value = self.atom(&first.atom)?;
        Some(added(self.terms(more)?, first.negative, value))
    }

    /// Returns the value of an operand, in the same way.
    #[tactic(auto, unfolding(crate::specs::Symbols::sum_value))]
    pub fn value(&self, operand: &Operand) -> Option<i64>
        ensures { result ≡ values_in self.now operand.now }
    {
        match &operand.form {
            Form::Value { sum, .. } => self.sum(sum),
            Form::Text(_) => Some(0),
        }
    }
}

/// Adds a value to a sum, or subtracts it if it has a minus sign.
pub fn added(sum: i64, negative: bool, value: i64) -> i64
    requires sum { IsNear (2 ^ 62) sum }
    requires value { is_word value ≡ true }
    ensures { result ≡ added sum negative value }
{
    if negative { sum - value } else { sum + value }
}
