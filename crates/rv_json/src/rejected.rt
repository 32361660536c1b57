//! The JSON of a source that is rejected.
ghost use Rattle.std.specs.Prelude.{◌≡◌, map, IfOk, string_bytes};
ghost use Rattle.rv_base.specs.Lines.{lines};
ghost use Rattle.rv_asm.specs.AllFaults.{faults_of};
ghost use Rattle.rv_diagnosis.specs.Diagnosed.{fault_of};
ghost use Rattle.rv_json.specs.Json.{TellsFaults, kind_at};

use crate::faults::Fault;
use crate::text::faults_json;
use rv_answers::Many;
use rv_base::NoMemory;
use rv_diagnosis::{Diagnosis, Explanation, diagnose, explain};
use std::alloc::Global;

/// Returns a diagnosis with its sentence.
fn explained(alloc: Global, source: &[u8], diagnosis: &Diagnosis) -> Result<Fault, NoMemory>
    ensures { IfOk result (λ f. kind_at f ≡ fault_of diagnosis.now) }
{
    let Explanation { sentence, advice } = explain(alloc, source, diagnosis)?;
    Ok(Fault {
        diagnosis: *diagnosis,
        message: Many::of(sentence),
        advice: Many::of(advice),
    })
}

/// Returns the faults of a source, each with its sentence.
fn faults_in(alloc: Global, source: &[u8]) -> Result<Many<Fault>, NoMemory>
    ensures { IfOk result (λ fs. map kind_at fs ≡ faults_of (lines source.now)) }
{
    let all = diagnose(alloc, source)?;
    let mut faults = Vec::new(alloc);
    for diagnosis in &all {
        let fault = explained(alloc, source, diagnosis)?;
        if faults.push(fault).is_err() {
            return Err(NoMemory);
        }
    }
    Ok(Many::of(faults))
}

/// Returns the JSON of all faults of a source that is rejected, each with its sentence, in one line without spaces.
///
/// # Errors
///
/// `NoMemory` if memory runs out.
pub fn source_json(alloc: Global, source: &[u8]) -> Result<String, NoMemory>
    ensures { IfOk result (λ s. TellsFaults source.now (string_bytes s)) }
{
    let faults = faults_in(alloc, source)?;
    faults_json(alloc, &faults)
}
