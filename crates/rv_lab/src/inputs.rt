//! Inputs by hand, and what was done as texts for rvboard.
ghost use Rattle.std.specs.Prelude.{◌≡◌, ◌≤◌, ◌⊎◌, ℕ, [], ◌∷◌, None, IfOk, OnErr, OnOk};
ghost use Rattle.std.specs.FinSet as set;
ghost use Rattle.rv_board.specs.BoardState.{BoardState};
ghost use Rattle.rv_program.specs.Program.{Assembly};
ghost use Rattle.rv_monitor.specs.Laws.{IsReached};
ghost use Rattle.rv_monitor.specs.State.{SessionState, TimedState, new_session, with_due};
ghost use Rattle.rv_monitor.specs.Stops.{Took};
ghost use Rattle.rv_lab.specs.declared.order.Order.TheVariants as orders;
ghost use Rattle.rv_lab.specs.Commands.{with_inputs};
ghost use Rattle.rv_lab.specs.Refusals.{StopsShort};
ghost use Rattle.rv_lab.specs.Runs as spec;
ghost use Rattle.rv_lab.specs.Support.Short.{Executes, Gives};
ghost use Rattle.rv_answers.specs.Printer.{Appended};
ghost use Rattle.rv_lab.specs.Saved.{steps_text};

use crate::lab::{Done, Lab, Next};
use crate::run::MOST_STEPS;
use rv_answers::{Answer, Given, Many, Printer, Saved};
use rv_base::NoMemory;
use rv_timeline::Input;
use std::alloc::Global;

/// Appends commands of the monitor that take `left` steps, in at most `lines` lines.
#[tactic(auto, using(rv_answers::proofs::Pieces::then, rv_answers::proofs::Pieces::nothing), unfolding(crate::specs::Saved::steps_text))]
fn append_steps(lines: u8, left: u64, answer: &mut Printer)
    ensures { Appended answer.old answer.new (steps_text lines left) }
{
    if lines == 0 || left == 0 {
        return;
    }
    answer.say("s ");
    answer.number(left.min(MOST_STEPS));
    answer.say("\n");
    append_steps(lines - 1, left.saturating_sub(MOST_STEPS), answer);
}

/// Returns commands of the monitor that take `left` steps, in at most `lines` lines.
fn steps_text(alloc: Global, lines: u8, left: u64) -> Result<Many<u8>, NoMemory>
    ensures { IfOk result (λ t. t ≡ steps_text lines left) }
{
    let mut text = Printer::new(alloc);
    append_steps(lines, left, &mut text);
    text.whole()
}

impl Lab {
    /// Gives the board an input before the next step.
    fn give(&mut self, input: Input) -> Result<(), NoMemory>
        ensures given { OnOk result (self.new ≡ with_inputs self.old (input ∷ [])) }
        ensures err { OnErr result (self.new ≡ self.old) }
    {
        self.recording.give(input)
    }

    /// Gives the board inputs before the next step.
    #[tactic(auto, using(crate::proofs::Runs::gave_no, crate::proofs::Runs::gave_list))]
    fn give_all(&mut self, inputs: &[Input]) -> Result<(), NoMemory>
        requires { self.old.plan ≡ None }
        ensures given { OnOk result (self.new ≡ with_inputs self.old inputs.now) }
        ensures err { OnErr result (StopsShort None (Gives inputs.now) self.old self.new) }
    {
        let [input, rest @ ..] = inputs else {
            return Ok(());
        };
        self.give(*input)?;
        self.give_all(rest)
    }

    /// Gives the board inputs before the next step, and answers that, or that the board takes none.
    #[tactic(auto, using(crate::proofs::Obeyed::executed_short))]
    pub(crate) fn give_inputs(&mut self, inputs: &[Input]) -> Result<Done, NoMemory>
        requires { self.old.plan ≡ None }
        ensures { Executes (orders.Give inputs.now) self.old self.new result }
    {
        self.give_all(inputs)?;
        Ok(Done::more(Answer::Given(Given {
            inputs: inputs.len(),
            steps: self.steps(),
            is_halted: self.board().halted().is_some(),
        })))
    }

    /// Answers what was done, for rvboard to repeat, with the name under which to save it.
    #[tactic(auto, unfolding(crate::specs::Runs::saved_answer))]
    fn saved_answer(&self, name: Option<Many<u8>>) -> Result<Answer, NoMemory>
        ensures { IfOk result (λ a. a ≡ spec.saved_answer name self.now) }
    {
        let list = Many::of(self.recording.inputs_text(self.alloc)?);
        let steps = self.steps();
        let commands = steps_text(self.alloc, 10, steps)?;
        Ok(Answer::Saved(Saved {
            name,
            list,
            inputs: self.recording.inputs().len(),
            commands,
            steps,
            limit: steps.min(MOST_STEPS),
            pages: self.recording.pages(),
        }))
    }

    /// Answers what was done: where it has a name, it is to be saved.
    #[tactic(auto, using(crate::proofs::Obeyed::kept))]
    pub(crate) fn save(&self, name: Option<Many<u8>>) -> Result<Done, NoMemory>
        ensures { Executes (orders.Save name) self.now self.now result }
    {
        let next = if name.is_some() {
            Next::Save
        } else {
            Next::More
        };
        let answer = self.saved_answer(name)?;
        Ok(Done { next, answer })
    }
}

/// Law: a session that is opened with the inputs that `save` wrote, and takes the steps of its commands, ends as
/// the lab stands, whose board `first` began as. Inputs by hand that no step has followed come with the next.
pub fn saved_repeats()
    ensures { (first : BoardState) (s : TimedState) (program : Assembly) (limit : ℕ) (new : SessionState)
        → IsReached first s → s.taken ≤ limit
        → Took set.empty s.taken (new_session first s.inputs program limit) new
        → (s ≡ new.timed) ⊎ (s ≡ with_due new.timed) }
{}
