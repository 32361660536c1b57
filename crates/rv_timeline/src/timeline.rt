//! Timed lists.
ghost use Rattle.std.specs.Prelude.{◌≡◌, ◌<◌, ◌≤◌, length, nat_lt, insert, IfSome};
ghost use Rattle.std.specs.List.{position};
ghost use Rattle.rv_timeline.specs.declared.input.TimedInput.{TimedInput};
ghost use Rattle.rv_timeline.specs.Timed.{IsRead, inserted};

use crate::reader::read_line;
use crate::{TimedInput, TimelineFault};
use rv_base::{NoMemory, cut_lines};
use std::alloc::Global;
use std::marker::Model;

/// The timed inputs of a board, in order: their steps never fall. Its view is their list.
pub struct Timeline {
    inputs: Vec<TimedInput>,
}

// Hand-written: a derived `Drop` would be proved anew at each exit (docs/PROVING.md).
impl Drop for Timeline {
    fn drop(self) {
        let Timeline { inputs: _ } = self;
    }
}

impl Model for Timeline {
    ghost use Rattle.std.specs.Prelude.{◌≡◌, List, true};
    ghost use Rattle.rv_timeline.specs.declared.input.TimedInput.{TimedInput};
    ghost use Rattle.rv_timeline.specs.Timed.{never_falls};

    ghost Value = { List TimedInput };

    ghost view = { λ t. t.inputs.items };

    ghost invariant = { λ t. never_falls t.inputs.items ≡ true };
}

/// Returns the index of the first input after a step, if there is one.
fn first_after(inputs: &[TimedInput], step: u64) -> Option<usize>
    ensures value { result ≡ position (λ x. nat_lt step x.step) inputs.now }
    ensures below { IfSome result (λ n. n < length inputs.now) }
{
    inputs.iter().position(|timed| timed.step > step)
}

/// Returns the index at which an input of a step is inserted: that of the first later input, or the length.
fn place_of(inputs: &[TimedInput], step: u64) -> usize
    ensures within { result ≤ length inputs.now }
    ensures place { (x : TimedInput) → x.step ≡ step → inserted inputs.now x ≡ insert inputs.now result x }
{
    first_after(inputs, step).unwrap_or(inputs.len())
}

impl Timeline {
    ghost use Rattle.std.specs.Prelude.{◌≡◌, true, OnOk, OnErr, IfOk};
    ghost use Rattle.std.specs.Prelude.{nat_le};
    ghost use Rattle.std.specs.List.{list_all};
    ghost use Rattle.rv_timeline.specs.Timed.{never_falls};

    /// Reads a timed list, in time linear in its length.
    ///
    /// # Errors
    ///
    /// - `BadLine` with the number of the first refused line, counted from 1.
    /// - `OutOfMemory` may come in place of any result.
    #[tactic(auto, using(crate::proofs::Whole::rising, crate::proofs::Whole::read_all, crate::proofs::StepSizes::steps_small))]
    pub fn read(alloc: Global, text: &[u8]) -> Result<Timeline, TimelineFault>
        ensures list { IsRead text.now result }
        ensures steps { IfOk result (λ xs. list_all (λ x. nat_le x.step 9999999999) xs ≡ true) }
    {
        let mut inputs = Vec::new(alloc);
        let mut number: usize = 0;
        for line in cut_lines(text) {
            number += 1;
            // No `map_err` and `?`: with the closure the proof would be half as long again.
            match read_line(line, &mut inputs) {
                Ok(true) => {}
                Ok(false) => return Err(TimelineFault::BadLine(number)),
                Err(NoMemory) => return Err(TimelineFault::OutOfMemory),
            }
        }
        Ok(Timeline { inputs })
    }

    /// Inserts an input after all others of its step, and before the first later one.
    ///
    /// # Errors
    ///
    /// `NoMemory` if memory runs out. The list is as it was.
    #[tactic(auto, using(crate::proofs::Inserted::rises))]
    pub fn insert(&mut self, input: TimedInput) -> Result<(), NoMemory>
        ensures ok { OnOk result (self.new ≡ inserted self.old input) }
        ensures err { OnErr result (self.new ≡ self.old) }
    {
        let place = place_of(&self.inputs, input.step);
        match self.inputs.insert(place, input) {
            Ok(()) => Ok(()),
            Err(_) => Err(NoMemory),
        }
    }

    /// Returns the inputs in order: their steps never fall.
    pub fn inputs(&self) -> &[TimedInput]
        ensures value { result.now ≡ self.now }
        ensures rising { never_falls result.now ≡ true }
    {
        self.inputs.as_slice()
    }
}
