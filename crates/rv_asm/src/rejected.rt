//! All faults of a source, with the symbols by which its lines are judged.
ghost use Rattle.std.specs.Prelude.{◌≡◌, slice_get, IfOk};
ghost use Rattle.std.specs.Result.{result_err};
ghost use Rattle.rv_base.specs.Lines.{lines};
ghost use Rattle.rv_asm.specs.Assembly.{assembled};
ghost use Rattle.rv_asm.specs.AllFaults.{faults_of};

use crate::assembler::{Reviewed, examine};
use crate::notes::Notes;
use crate::symbols::Scope;
use rv_base::{NoMemory, RAM_BASE};
use rv_source::{Direction, Operand};
use std::alloc::Global;

impl Reviewed {
    /// Returns the address of a line.
    pub fn address(&self, line: usize) -> u32 {
        let Some(notes) = &self.notes else {
            return RAM_BASE;
        };
        notes
            .addresses
            .get(line.saturating_sub(1))
            .copied()
            .unwrap_or(RAM_BASE)
    }

    /// Returns the line that defines a name, as a label or a constant.
    pub fn line_of(&self, name: &[u8]) -> Option<usize> {
        let index = self.known.symbols().names.map().get_index_of(name)?;
        self.notes.as_ref()?.origins.get(index).copied()
    }

    /// Returns whether a local label exists that a reference on a line means.
    pub fn has_local(&self, line: usize, number: u16, direction: Direction) -> bool {
        let line = line.saturating_sub(1);
        let symbols = self.known.symbols();
        symbols.locals.nearest(number, direction, line).is_some()
    }

    /// Returns the value of an operand on a line, by all symbols of the source.
    pub fn value(&self, line: usize, operand: &Operand) -> Option<i64> {
        let scope = Scope {
            symbols: self.known.symbols(),
            line: line.saturating_sub(1),
            here: self.address(line),
        };
        scope.value(operand)
    }
}

/// Returns the faults of a source in the first phase that has any, none if `assemble` accepts it, with its
/// symbols. In phase two a faulty line is left out before the lines after it are judged.
///
/// # Errors
///
/// `NoMemory` may come in place of any result.
#[tactic(auto, using(crate::proofs::Examining::first_said))]
pub fn review(alloc: Global, source: &[u8]) -> Result<Reviewed, NoMemory>
    ensures faults { IfOk result (λ r. r.faults.items ≡ faults_of (lines source.now)) }
    ensures first { IfOk result (λ r. slice_get r.faults.items 0 ≡ result_err (assembled source.now)) }
{
    Ok(examine(alloc, source, Some(Notes::new(alloc)?))?)
}
