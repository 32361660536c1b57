//! Statements with their places in the image, and phase three: how their bytes are written.
ghost use Rattle.std.specs.Prelude.{◌≡◌};
ghost use Rattle.rv_asm.specs.Support.Statements.{KindBecomes, has_unknown, sums_in};
ghost use Rattle.rv_asm.specs.Support.Steps.{appended, sums_bytes};

use crate::FaultKind;
use crate::fixup::Waiting;
use crate::kept::{Kept, keep};
use crate::symbols::{Scope, Symbols};
use rv_source::{Expression, Statement};
use std::alloc::{AllocError, Global};
use std::marker::Model;

/// Returns whether an expression has no value.
fn has_unknown(scope: Scope, sums: &[Expression]) -> bool
    ensures { result ≡ has_unknown (sums_in scope.entry) sums.now }
{
    sums.iter().any(|sum| scope.sum(sum).is_none())
}

/// Appends what waits for values. An undefined value is reported before one that is out of range.
#[tactic(auto, using(crate::proofs::Rows::placed_more, crate::proofs::Rows::unknown_later, crate::proofs::Rows::first_fails), unfolding(crate::specs::Support::Steps::sums_bytes))]
fn write_sums(
    scope: Scope,
    waiting: &Waiting,
    sums: &[Expression],
    out: &mut Vec<u8>,
) -> Result<(), FaultKind>
    ensures { KindBecomes out.new.items result (appended out.old.items (sums_bytes scope.entry.symbols.now scope.entry.line scope.entry.here waiting.now sums.now)) }
{
    let [first, rest @ ..] = sums else {
        return Ok(());
    };
    if let Err(kind) = waiting.write(scope.here, scope.sum(first), out) {
        if has_unknown(scope, rest) {
            return Err(FaultKind::Undefined);
        }
        return Err(kind);
    }
    write_sums(scope, waiting, rest, out)
}

/// A statement with its place.
#[derive(Drop)]
pub struct PlacedStatement<'a> {
    /// The number of the line, counted from 0.
    line: usize,
    address: u32,
    kept: Kept<'a>,
}

impl<'a> Model for PlacedStatement<'a> {
    ghost use Rattle.std.specs.Prelude.{◌<◌};
    ghost use Rattle.rv_asm.specs.Support.Steps.{Item};

    ghost Value = { Item };

    ghost view = { λ p. record { line = p.line; address = p.address; kept = p.kept } };

    ghost invariant = { λ p. p.line < 0xffffffffffffffff };
}

impl<'a> PlacedStatement<'a> {
    ghost use Rattle.std.specs.Prelude.{◌≡◌, ◌<◌, IfOk, true};
    ghost use Rattle.rv_asm.specs.Symbols.{Definitions, operand_value};
    ghost use Rattle.rv_asm.specs.Support.Statements.{KindBecomes, emitted_by};
    ghost use Rattle.rv_asm.specs.Support.Steps.{item_bytes, appended};

    /// Makes the statement of a line, with its constant, at an address.
    pub fn new(
        alloc: Global,
        line: usize,
        address: u32,
        constant: i64,
        statement: &Statement<'_, 'a>,
    ) -> Result<PlacedStatement<'a>, AllocError>
        requires counted { line < 0xffffffffffffffff }
        requires known { (emitted_by constant address statement.now).is_known ≡ true }
        ensures at { IfOk result (λ p. p.line ≡ line) }
        ensures bytes { IfOk result (λ p. (ds : Definitions) → item_bytes ds p ≡ (emitted_by constant address statement.now).contents (operand_value ds line address)) }
    {
        let kept = keep(alloc, address, constant, statement)?;
        Ok(PlacedStatement {
            line,
            address,
            kept,
        })
    }

    /// Returns the number of the line, counted from 0.
    pub fn line(&self) -> usize
        ensures value { result ≡ self.now.line }
        ensures below { result < 0xffffffffffffffff }
    {
        self.line
    }

    /// Appends the bytes of the statement, once all symbols are known.
    #[tactic(auto, unfolding(crate::specs::Support::Steps::kept_bytes))]
    pub fn write(&self, symbols: &Symbols, out: &mut Vec<u8>) -> Result<(), FaultKind>
        ensures { KindBecomes out.new.items result (appended out.old.items (item_bytes symbols.now self.now)) }
    {
        let scope = Scope {
            symbols,
            line: self.line,
            here: self.address,
        };
        match &self.kept {
            Kept::Instructions(instructions) => Ok(instructions.write(out)?),
            Kept::Ready(bytes) => Ok(out.extend_from_slice(bytes.as_slice())?),
            Kept::One { waiting, value } => waiting.write(self.address, value.value(scope), out),
            Kept::Many { waiting, values } => write_sums(scope, waiting, values.as_slice(), out),
        }
    }
}
