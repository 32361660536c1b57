//! Expressions: sums of terms, each a number, a name or the statement's own address.
ghost use Rattle.rv_source.specs.declared.expression.Atom.TheVariants.{Number};

use rv_tokens::{Direction, Name};
use std::alloc::{AllocError, Global};
use std::marker::Model;

/// An atom of an expression: it has one value.
#[derive(Drop)]
pub enum Atom<'a> {
    /// A number.
    Number(u32),
    /// A character: the byte that it stands for.
    Character(u8),
    /// A name other than `.`: a label or a constant.
    Symbol(Name<'a>),
    /// A reference to a local label with a number from 0 to 9999.
    Local { number: u16, direction: Direction },
    /// `.`: the address of the statement.
    Here,
}

impl<'a> Atom<'a> {
    ghost use Rattle.std.specs.Prelude.{◌≡◌};

    /// Returns a copy of the atom: an enum with a name in it can't be `Copy`.
    pub fn again(&self) -> Atom<'a>
        ensures { result ≡ self.now }
    {
        match self {
            Atom::Number(n) => Atom::Number(*n),
            Atom::Character(b) => Atom::Character(*b),
            Atom::Symbol(name) => Atom::Symbol(name.again()),
            Atom::Local { number, direction } => Atom::Local {
                number: *number,
                direction: *direction,
            },
            Atom::Here => Atom::Here,
        }
    }
}

/// A term: an atom that is added or subtracted.
#[derive(Drop)]
pub struct Term<'a> {
    pub negative: bool,
    pub atom: Atom<'a>,
}

impl<'a> Term<'a> {
    ghost use Rattle.std.specs.Prelude.{◌≡◌};

    /// Returns a copy of the term.
    fn again(&self) -> Term<'a>
        ensures { result ≡ self.now }
    {
        Term {
            negative: self.negative,
            atom: self.atom.again(),
        }
    }
}

/// An expression: the sum of its terms as whole numbers. It has at most as many terms as a line has bytes,
/// 1,024. Its view is the list of them.
pub struct Expression<'a> {
    pub(crate) first: Term<'a>,
    /// The terms after the first. Mostly there are none, and nothing is allocated.
    pub(crate) more: Vec<Term<'a>>,
}

// Hand-written: a derived `Drop` would be proved anew at each exit (docs/PROVING.md).
impl<'a> Drop for Expression<'a> {
    fn drop(self) {
        let Expression { first: _, more: _ } = self;
    }
}

impl<'a> Model for Expression<'a> {
    ghost use Rattle.std.specs.Prelude.{List, length, ◌<◌, ◌∷◌};
    ghost use Rattle.rv_source.specs.declared.expression.Term.{Term};

    ghost Value = { List Term };

    ghost view = { λ e. e.first ∷ e.more.items };

    ghost invariant = { λ e. length e.more.items < 1024 };
}

impl<'a> Expression<'a> {
    ghost use Rattle.std.specs.Prelude.{◌≡◌, ◌<◌, ◌∷◌, [], false, length, IfOk};

    /// Returns the expression 0.
    pub fn zero(alloc: Global) -> Expression<'a>
        ensures { result ≡ record { negative = false; atom = Number 0 } ∷ [] }
    {
        let first = Term {
            negative: false,
            atom: Atom::Number(0),
        };
        let more = Vec::new(alloc);
        Expression { first, more }
    }

    /// Returns a copy of the expression, with room for its terms alone.
    pub fn again(&self, alloc: Global) -> Result<Expression<'a>, AllocError>
        ensures { IfOk result (λ e. e ≡ self.now) }
    {
        let (first, rest) = self.terms();
        let mut more = Vec::with_capacity(alloc, rest.len())?;
        for term in rest {
            more.push(term.again())?;
        }
        let first = first.again();
        Ok(Expression { first, more })
    }

    /// Returns the first term, and the others from left to right.
    pub fn terms(&self) -> (&Term<'a>, &[Term<'a>])
        ensures value { result.0.now ∷ result.1.now ≡ self.now }
        ensures short { length result.1.now < 1024 }
    {
        (&self.first, self.more.as_slice())
    }
}
