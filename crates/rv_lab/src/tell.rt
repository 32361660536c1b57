//! What the console got, and how a run ended.
ghost use Rattle.std.specs.Prelude.{◌≡◌, ◌&&◌, if◌then◌else◌, is_some, IfOk};
ghost use Rattle.rv_lab.specs.Commands.{with_console};
ghost use Rattle.rv_lab.specs.Answers.{watch_on};
ghost use Rattle.rv_lab.specs.Runs as spec;
ghost use Rattle.rv_lab.specs.Runs.{ending_of};
ghost use Rattle.rv_monitor.specs.Views.{stop_text};
ghost use Rattle.rv_runs.specs.declared.goal.Goal.TheVariants as goal;
ghost use Rattle.rv_lab.specs.State.{board, sent};

use crate::lab::Lab;
use crate::steps::changes;
use crate::watch::watch_on;
use rv_answers::{Aim, Answer, Ending, Many, Run, Trap, Watch};
use rv_base::NoMemory;
use rv_convention::registers_of;
use rv_monitor::write_stop;
use rv_recording::{Condition, End, Watched};
use rv_runs::Goal;

/// Returns the monitor's word for why a run is over.
fn stop_word(end: End) -> &'static str
    ensures { result.now ≡ spec.stop_word end }
{
    match end {
        End::Halted => "halted",
        End::Breakpoint | End::Reached => "break",
        _ => "limit",
    }
}

/// Returns why a run is over.
pub(crate) fn ending_of(end: End) -> Ending
    ensures { result ≡ ending_of end }
{
    match end {
        End::Halted => Ending::Halted,
        End::Reached => Ending::Reached,
        End::Breakpoint => Ending::Breakpoint,
        End::Limit => Ending::Limit,
        End::Stuck => Ending::Stuck,
    }
}

impl Lab {
    /// Keeps that all bytes of the console were told.
    pub(crate) fn tell_console(&mut self)
        ensures { self.new ≡ with_console self.old }
    {
        self.last.told = self.board().console().len();
    }

    /// Keeps that the bytes of the console were told that a piece of a run sent, unless that waits for the end of the
    /// run.
    pub(crate) fn tell_piece(&mut self, waits: bool)
        ensures { self.new ≡ record self.old {
          told = if waits && is_some self.old.plan then self.old.told else sent self.old;
        } }
    {
        if !waits || self.last.plan.is_none() {
            self.tell_console();
        }
    }

    /// Returns the last trap with its place, if there was one.
    fn last_trap(&self) -> Option<Trap>
        ensures { result ≡ spec.last_trap self.now }
    {
        let board = self.board();
        let trap = board.trap(board.trap_count().saturating_sub(1))?;
        Some(self.trap_of(trap, 1))
    }

    /// Returns what is watched, with its value.
    pub(crate) fn watch_of(&self, watched: &Watched) -> Watch
        ensures { result ≡ watch_on (board self.now) watched.now }
    {
        watch_on(self.board(), watched)
    }

    /// Returns what a run went on for that went on until a condition holds.
    fn until_aim(&self, condition: Condition) -> Aim
        ensures { result ≡ spec.aim_of self.now (goal.Until condition) }
    {
        match condition {
            Condition::Trap => Aim::Trap(self.last_trap()),
            Condition::Console(_) => Aim::Console,
            Condition::At { .. } => Aim::Arrival,
            Condition::Changed { watched, .. } => Aim::Watch(self.watch_of(&watched)),
            Condition::Compares { watched, .. } => Aim::Watch(self.watch_of(&watched)),
        }
    }

    /// Returns what a run went on for.
    fn aim_of(&self, goal: Goal) -> Aim
        ensures { result ≡ spec.aim_of self.now goal }
    {
        match goal {
            Goal::Count | Goal::Trace => Aim::Steps,
            Goal::Break => Aim::Breakpoint,
            Goal::Out(..) => Aim::Return,
            Goal::Mark(_) => Aim::Mark,
            Goal::Until(condition) => self.until_aim(condition),
        }
    }

    /// Returns why a run is over, as the monitor prints it.
    fn stop_text(&self, end: End) -> Result<Many<u8>, NoMemory>
        ensures { IfOk result (λ t. t ≡ stop_text (board self.now) (spec.stop_word end)) }
    {
        let mut text = Vec::new(self.alloc);
        write_stop(self.board(), stop_word(end), &mut text)?;
        Ok(Many::of(text))
    }

    /// Answers that a run is over, as the monitor or as the lab does.
    #[tactic(auto, unfolding(crate::specs::Runs::over_answer))]
    pub(crate) fn over_answer(
        &self,
        is_monitored: bool,
        goal: Goal,
        end: End,
    ) -> Result<Answer, NoMemory>
        ensures { IfOk result (λ a. a ≡ spec.over_answer is_monitored goal end self.now) }
    {
        if is_monitored {
            return Ok(Answer::Monitor(self.stop_text(end)?));
        }
        let changed = changes(
            self.alloc,
            &self.last.registers,
            &registers_of(self.board()),
        )?;
        let watched = self.watch_changes(goal)?;
        Ok(Answer::Ended(Run {
            ending: ending_of(end),
            aim: self.aim_of(goal),
            steps: self.steps().saturating_sub(self.last.steps),
            changed,
            watched,
            standing: self.standing(),
        }))
    }
}
