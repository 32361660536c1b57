//! Single steps and traces.
ghost use Rattle.std.specs.Prelude.{◌≡◌, ◌<◌, ◌==◌, not, slice_index, ◌++◌, ◌∷◌, [], None, IfOk, OnErr, OnOk};
ghost use Rattle.rv_lab.specs.Commands.{stepped, with_session};
ghost use Rattle.rv_lab.specs.Runs as spec;
ghost use Rattle.rv_lab.specs.Runs.{next_step, next_steps};
ghost use Rattle.rv_recording.specs.Until.{HasRun, step_ends};
ghost use Rattle.rv_lab.specs.declared.order.Order.TheVariants as orders;
ghost use Rattle.rv_runs.specs.declared.goal.Goal.TheVariants as goal;
ghost use Rattle.rv_lab.specs.State.{board, registers_of, timed};
ghost use Rattle.rv_lab.specs.Support.Short.{Executes, IsOnWay, StopsIn, Traced, end_now, stepped_by};

use crate::lab::{Done, Lab};
use rv_answers::{Answer, Many, Place, RegisterValue, Registers, Step, Stepped, Trap, push};
use rv_base::NoMemory;
use rv_board::TrapRecord;
use rv_convention::registers_of;
use rv_hart::Outcome;
use rv_isa::Reg;
use rv_recording::End;
use std::alloc::Global;

/// Returns whether the values of a register differ.
fn differs(before: &Registers, now: &Registers, number: u8) -> bool
    requires { number < 32 }
    ensures { result ≡ not (slice_index now.now number == slice_index before.now number) }
{
    now[number as usize] != before[number as usize]
}

/// Returns the registers whose values differ, with their values now.
#[tactic(auto, using(rv_answers::proofs::Regions::none_yet, rv_answers::proofs::Regions::next_found, rv_answers::proofs::Regions::none_found))]
pub(crate) fn changes(
    alloc: Global,
    before: &Registers,
    now: &Registers,
) -> Result<Many<RegisterValue>, NoMemory>
    ensures { IfOk result (λ c. c ≡ spec.changes before.now now.now) }
{
    let mut changed = Vec::new(alloc);
    for number in 0..32u8 {
        if differs(before, now, number) {
            let register = Reg::of(number);
            let value = now[number as usize];
            push(&mut changed, RegisterValue { register, value })?;
        }
    }
    Ok(Many::of(changed))
}

/// Appends a step.
fn push_step(steps: &mut Vec<Step>, step: Step) -> Result<(), NoMemory>
    ensures { OnOk result (steps.new.items ≡ steps.old.items ++ step ∷ []) }
{
    match steps.push(step) {
        Ok(()) => Ok(()),
        Err(_) => Err(NoMemory),
    }
}

impl Lab {
    /// Returns the trap of a step that did that, if it took one.
    #[tactic(auto, unfolding(crate::specs::Runs::trap_in))]
    fn trap_in(&self, outcome: Outcome) -> Option<Trap>
        ensures { result ≡ spec.trap_in self.now outcome }
    {
        match outcome {
            Outcome::Trapped { cause, epc, tval } => {
                let trap = TrapRecord { cause, epc, tval };
                Some(self.trap_of(trap, 1))
            }
            _ => None,
        }
    }

    /// Returns what a step did that began at a place, with some registers.
    fn step_value(
        &self,
        place: Place,
        before: &Registers,
        outcome: Outcome,
    ) -> Result<Step, NoMemory>
        ensures { IfOk result (λ s. s ≡ record {
          number = (timed self.now).taken;
          place = place;
          trap = spec.trap_in self.now outcome;
          changed = spec.changes before.now (registers_of (board self.now));
        }) }
    {
        let changed = changes(self.alloc, before, &registers_of(self.board()))?;
        Ok(Step {
            number: self.steps(),
            place,
            trap: self.trap_in(outcome),
            changed,
        })
    }

    /// Takes a step, and returns what it did, if there is one to be taken.
    fn take_step(&mut self) -> Result<Option<Step>, NoMemory>
        ensures step { OnOk result (self.new ≡ record self.old { recording = stepped self.old.recording }) }
        ensures value { IfOk result (λ s. s ≡ next_step self.old) }
        ensures err { OnErr result
            (IsOnWay self.old.recording self.new.recording (stepped self.old.recording)) }
        ensures others { self.new ≡ record self.old { recording = self.new.recording } }
    {
        // It tells that the steps of the inputs never fall.
        let _inputs = self.recording.inputs();
        let before = registers_of(self.board());
        let place = self.place_of(self.board().pc());
        let Some(outcome) = self.recording.take_step()? else {
            return Ok(None);
        };
        Ok(Some(self.step_value(place, &before, outcome)?))
    }

    /// Takes a single step, and answers what it did.
    #[tactic(auto, using(crate::proofs::Obeyed::executed_short, crate::proofs::Told::no_step, crate::proofs::Runs::once_short))]
    pub(crate) fn step_once(&mut self) -> Result<Done, NoMemory>
        requires { self.old.plan ≡ None }
        ensures { Executes orders.Once self.old self.new result }
    {
        self.keep_count(1);
        self.begin();
        let step = self.take_step()?;
        self.tell_console();
        let standing = self.standing();
        match step {
            Some(step) => Ok(Done::more(Answer::Stepped(Stepped { step, standing }))),
            None => Ok(Done::more(Answer::Stuck(standing))),
        }
    }

    /// Takes steps, at most `count`, and appends what each did.
    #[tactic(auto, using(crate::proofs::Runs::traced_none, crate::proofs::Told::trace_ends, crate::proofs::Told::no_steps, crate::proofs::Told::last_steps))]
    fn trace_steps(&mut self, count: u64, steps: &mut Vec<Step>) -> Result<(), NoMemory>
        ensures traced { OnOk result (Traced count self.old self.new) }
        ensures steps { OnOk result (steps.new.items ≡ steps.old.items ++ next_steps count self.old) }
        ensures err { OnErr result
            (IsOnWay self.old.recording self.new.recording (stepped_by count self.old.recording)) }
        ensures others { self.new ≡ record self.old { recording = self.new.recording } }
    {
        if count == 0 {
            return Ok(());
        }
        let Some(step) = self.take_step()? else {
            return Ok(());
        };
        push_step(steps, step)?;
        self.trace_steps(count - 1, steps)
    }

    /// Returns why steps past any breakpoint are over.
    fn end_now(&self) -> End
        ensures { result ≡ end_now self.now.recording.session }
    {
        if self.board().halted().is_some() {
            End::Halted
        } else if self.steps() < self.recording.session().limit() {
            End::Limit
        } else {
            End::Stuck
        }
    }

    /// Takes steps, at most `most`, appends what each did, and returns why they are over.
    pub(crate) fn take_traced(&mut self, most: u64, steps: &mut Vec<Step>) -> Result<End, NoMemory>
        ensures ok { IfOk result (HasRun (step_ends self.old.recording.session) most
            self.old.recording.session self.new.recording.session) }
        ensures steps { OnOk result (steps.new.items ≡ steps.old.items ++ next_steps most self.old) }
        ensures err { OnErr result (StopsIn goal.Trace (step_ends self.old.recording.session) most self.old self.new) }
        ensures others { self.new ≡ with_session self.old self.new.recording.session }
    {
        // It tells that the board is the run of the recorded events.
        let _board = self.board();
        self.trace_steps(most, steps)?;
        Ok(self.end_now())
    }
}
