//! Breakpoints.
ghost use Rattle.std.specs.Prelude.{◌≡◌, ◌<◌, IfOk, map, vec_capacity, vec_len};
ghost use Rattle.rv_answers.specs.declared.moves.BreakCondition.{BreakCondition};
ghost use Rattle.rv_lab.specs.Answers as spec;
ghost use Rattle.rv_lab.specs.Answers.{condition_of};
ghost use Rattle.rv_lab.specs.Runs.{guarded};
ghost use Rattle.rv_lab.specs.Support.Short.{Executes};
ghost use Rattle.rv_lab.specs.declared.order.Order.TheVariants as orders;

use crate::lab::{Done, Lab};
use rv_answers::{Answer, BreakCondition, Breakpoint, Breakpoints, Cleared, Many};
use rv_base::NoMemory;
use rv_runs::{Guard, put_guard, remove_guard};
use std::alloc::Global;

/// Returns the condition of a breakpoint as it was given, if it has one.
fn given_condition(alloc: Global, guard: &Guard) -> Result<Option<Many<u8>>, NoMemory>
    ensures { IfOk result (λ c. c ≡ spec.given_condition guard.now) }
{
    if guard.condition.is_none() {
        return Ok(None);
    }
    Ok(Some(Many::of(Vec::from_slice(alloc, guard.text.items())?)))
}

/// Returns what breakpoints stop a run on.
fn conditions_of(alloc: Global, guards: &[Guard]) -> Result<Many<BreakCondition>, NoMemory>
    ensures { IfOk result (λ m. m ≡ map condition_of guards.now) }
{
    let mut conditions = Vec::new(alloc);
    for guard in guards {
        let condition = BreakCondition {
            address: guard.address,
            text: given_condition(alloc, guard)?,
            passes: guard.passes,
        };
        let Ok(()) = conditions.push(condition) else {
            return Err(NoMemory);
        };
    }
    Ok(Many::of(conditions))
}

/// Keeps the guard of a breakpoint, if it doesn't stop each run.
fn keep_guard(guards: &mut Vec<Guard>, guard: Guard)
    requires { vec_len guards.old < vec_capacity guards.old }
    ensures { guards.new.items ≡ guarded guard guards.old.items }
{
    if guard.condition.is_none() && guard.passes == 0 {
        remove_guard(guards, guard.address);
    } else {
        put_guard(guards, guard);
    }
}

impl Lab {
    /// Answers `b` alone.
    pub(crate) fn breakpoints_answer(&self) -> Result<Answer, NoMemory>
        ensures { IfOk result (λ a. a ≡ spec.breakpoints_answer self.now) }
    {
        let places = self.breakpoints()?;
        let conditions = conditions_of(self.alloc, &self.guards)?;
        let watches = self.watches_of()?;
        Ok(Answer::Breakpoints(Breakpoints {
            places,
            conditions,
            watches,
        }))
    }

    /// Makes the address of a guard a breakpoint.
    #[tactic(auto, using(crate::proofs::Obeyed::kept))]
    pub(crate) fn set_break(&mut self, guard: Guard) -> Result<Done, NoMemory>
        ensures { Executes (orders.Break guard) self.old self.new result }
    {
        let condition = given_condition(self.alloc, &guard)?;
        self.guards.reserve(1)?;
        let (address, passes) = (guard.address, guard.passes);
        self.recording.set_break(address)?;
        keep_guard(&mut self.guards, guard);
        let place = self.place_of(address);
        Ok(Done::more(Answer::Break(Breakpoint {
            place,
            condition,
            passes,
        })))
    }

    /// Removes a breakpoint and its condition.
    #[tactic(auto, using(crate::proofs::Obeyed::kept))]
    pub(crate) fn clear_break(&mut self, address: u32) -> Result<Done, NoMemory>
        ensures { Executes (orders.Clear address) self.old self.new result }
    {
        let was_there = self.recording.clear_break(address);
        remove_guard(&mut self.guards, address);
        let place = self.place_of(address);
        Ok(Done::more(Answer::Cleared(Cleared { place, was_there })))
    }
}
