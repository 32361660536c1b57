//! What is wrong with a source that is rejected, and where.
ghost use Rattle.std.specs.Prelude.{◌≡◌, ◌+◌, ◌-◌, ◌<◌, ◌≤◌, [], get_or, length, map, slice_get, IfOk, OnOk};
ghost use Rattle.std.specs.List.{All};
ghost use Rattle.std.specs.Result.{result_err};
ghost use Rattle.rv_base.specs.Lines.{lines};
ghost use Rattle.rv_asm.specs.Assembly.{assembled};
ghost use Rattle.rv_asm.specs.AllFaults.{faults_of};
ghost use Rattle.rv_diagnosis.specs.Diagnosed.{fault_of};
ghost use Rattle.rv_diagnosis.specs.Support.Judged.{Diagnoses};

use crate::diagnosis::{Diagnosis, Finding};
use crate::finding::finding;
use rv_asm::{AsmFault, Reviewed, review};
use rv_base::{NoMemory, cut_lines};
use std::alloc::Global;

/// Appends the diagnosis of a line, counted from 1, if the first fault that isn't diagnosed yet is its.
fn diagnose_line(
    alloc: Global,
    review: &Reviewed,
    line: usize,
    text: &[u8],
    out: &mut Vec<Diagnosis>,
) -> Result<(), NoMemory>
    ensures { OnOk result (Diagnoses line text.now review.now.faults.items out.old.items out.new.items) }
{
    let Some(fault) = review.faults.get(out.len()) else {
        return Ok(());
    };
    if fault.line != line {
        return Ok(());
    }
    let AsmFault { line, kind } = *fault;
    let Finding { place, detail } = finding(alloc, review, text, *fault)?;
    let diagnosis = Diagnosis {
        line,
        kind,
        column: place.column + 1,
        length: place.len,
        detail,
    };
    match out.push(diagnosis) {
        Ok(()) => Ok(()),
        Err(_) => Err(NoMemory),
    }
}

/// Returns the diagnoses of all lines of a source that are faulty in the first phase that has a fault, in
/// order; none for a source that `assemble` accepts. In phase two a faulty line is left out before the lines
/// after it are judged.
///
/// # Errors
///
/// `NoMemory` may come in place of any result.
pub fn diagnose(alloc: Global, source: &[u8]) -> Result<Vec<Diagnosis>, NoMemory>
    ensures all { IfOk result (λ ds. map fault_of ds.items ≡ faults_of (lines source.now)) }
    ensures places { IfOk result (λ ds. All (λ d. (0 < d.column) × (d.column - 1 + d.length ≤ length (get_or (lines source.now) (d.line - 1) []))) ds.items) }
    ensures first { IfOk result (λ ds. slice_get (map fault_of ds.items) 0 ≡ result_err (assembled source.now)) }
{
    let review = review(alloc, source)?;
    let mut out = Vec::new(alloc);
    let mut line: usize = 0;
    for text in cut_lines(source) {
        line += 1;
        diagnose_line(alloc, &review, line, text, &mut out)?;
    }
    Ok(out)
}
