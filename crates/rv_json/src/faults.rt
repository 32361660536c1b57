//! The faults of a source that is rejected.
ghost use Rattle.std.specs.Prelude.{◌≡◌};
ghost use Rattle.std.specs.List.{count_by};
ghost use Rattle.rv_json.specs.Json.{fault_data, is_misplaced};

use crate::names::Names;
use crate::object::{object, send};
use crate::sent::{Text, ToJson};
use rv_answers::Many;
use rv_diagnosis::Diagnosis;
use serde::Serializer;

/// A faulty line, with the place that is meant and its sentences.
#[derive(Drop)]
pub struct Fault {
    pub diagnosis: Diagnosis,
    /// What is wrong, in one sentence.
    pub message: Many<u8>,
    /// What mends it; empty if there is nothing to say.
    pub advice: Many<u8>,
}

impl ToJson for Fault {
    ghost json = { λ _ f. fault_data f };

    #[tactic(auto, unfolding(crate::specs::Json::fault_data))]
    fn send<S: Serializer>(&self, names: &Names<'_>, out: &mut S) -> Result<(), S::Error> {
        let diagnosis = self.diagnosis;
        send!(names, out, diagnosis: line, column, length, number = diagnosis.kind.number(), name = diagnosis.kind.name(),
            message = Text(&self.message), advice = Text(&self.advice))
    }
}

/// The number of the fault of an instruction whose address is no multiple of 4.
const MISPLACED: u8 = 8;

/// Returns how many faults are those of instructions whose address is no multiple of 4.
#[tactic(auto, unfolding(crate::specs::Json::fault_number))]
pub(crate) fn misplaced(faults: &[Fault]) -> usize
    ensures { result ≡ count_by is_misplaced faults.now }
{
    let mut count: usize = 0;
    for fault in faults {
        if fault.diagnosis.kind.number() == MISPLACED {
            count += 1;
        }
    }
    count
}
