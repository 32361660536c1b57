//! Commands that move the board.
ghost use Rattle.std.specs.Prelude.{◌≡◌, ◌≤◌, ◌++◌, Ok, Some, None, IfOk, OnErr, OnOk, max};
ghost use Rattle.std.specs.Option.{option_map};
ghost use Rattle.rv_lab.specs.declared.order.Order.TheVariants as orders;
ghost use Rattle.rv_lab.specs.Commands.{GoesOn, InPieces, IsWithin, begun, next_of, piece_most, planned, stops_of, with_piece};
ghost use Rattle.rv_runs.specs.Ends.{goal_after, run_ends};
ghost use Rattle.rv_lab.specs.Refusals.{RunsOut, StopsShort};
ghost use Rattle.rv_lab.specs.Runs.{Leaves, call_answer, end_of, reply_on};
ghost use Rattle.rv_lab.specs.Support.Short.{Executes, GoesOnWith, Moves, StopsIn, ran_to, told_steps};
ghost use Rattle.rv_monitor.specs.Stops.{steps_between};
ghost use Rattle.rv_recording.specs.Until.{HasRun};
ghost use Rattle.rv_lab.specs.State.{LabState, setup, timed};
ghost use Rattle.rv_monitor.specs.State.{IsInTime};

use crate::lab::{Done, Lab, Next, Reply};
use crate::tell::ending_of;
use rv_answers::{Answer, Many, Step, Trace};
use rv_base::NoMemory;
use rv_convention::registers_of;
use rv_recording::End;
use rv_runs::{Goal, Plan, resumes_after, run_all};

/// How many steps `c` and `until` take where no number is given.
pub(crate) const USUAL_STEPS: u64 = 1_000_000;

/// The most steps of a command, of the lab and of the monitor.
pub(crate) const MOST_STEPS: u64 = 1_000_000_000;

/// How many steps `trace` takes where no number is given.
pub(crate) const USUAL_TRACED: u64 = 10;

/// The most steps of `trace`.
pub(crate) const MOST_TRACED: u64 = 1000;

/// Returns the plan of a run of the lab.
pub(crate) fn planned(goal: Goal, most: u64) -> Plan
    ensures { result ≡ planned goal most }
{
    Plan {
        goal,
        left: most,
        is_monitored: false,
    }
}

impl Lab {
    /// Begins a command that moves the board: keeps what it is compared with.
    pub(crate) fn begin(&mut self)
        ensures { self.new ≡ begun self.old }
    {
        self.last.registers = registers_of(self.board());
        self.last.steps = self.recording.steps();
        self.last.told = self.board().console().len();
        self.last.resumes = Goal::Break;
    }

    /// Goes on with the run that isn't over, if there is one, by at most a piece of steps.
    ///
    /// # Errors
    ///
    /// `NoMemory` if memory runs out. The lab is as after some of the run's steps then.
    #[tactic(auto, unfolding(crate::specs::Support::Short::Moves), using(crate::proofs::Obeyed::unmoved, crate::proofs::Obeyed::replied_on, crate::proofs::Obeyed::moved_setup, crate::proofs::Obeyed::moved_within))]
    pub fn go_on(&mut self) -> Result<Reply, NoMemory>
        ensures setup { setup self.new ≡ setup self.old }
        ensures continues { OnOk result (GoesOn self.old self.new) }
        ensures replies { IfOk result (λ r. r ≡ reply_on self.old self.new) }
        ensures err { OnErr result (RunsOut (option_map (λ p. p.goal) self.old.plan) GoesOn self.old self.new) }
        ensures bound { IsWithin (max self.old.piece 1) self.old self.new }
    {
        let from = self.last.told;
        let Some(plan) = self.plan() else {
            return Ok(self.reply(Next::More, Answer::Nothing, from));
        };
        let Done { next, answer } = self.go_on_with(plan)?;
        Ok(self.reply(next, answer, from))
    }

    /// Goes on with a run.
    #[tactic(auto, using(crate::proofs::Obeyed::moved, crate::proofs::Runs::told_call, crate::proofs::Told::answered, crate::proofs::Told::over_short))]
    fn go_on_with(&mut self, plan: Plan) -> Result<Done, NoMemory>
        ensures { Moves plan self.old self.new result }
    {
        let mut steps = Vec::new(self.alloc);
        let end = self.take_piece(&plan, &mut steps)?;
        self.tell_piece(plan.tells_last());
        Ok(Done {
            next: self.next(),
            answer: self.call_answer(&plan, end, steps)?,
        })
    }

    /// Answers a call of a run that ended so: what its steps did, if they are told, and else why the run is over, if it
    /// is.
    fn call_answer(&self, plan: &Plan, end: End, steps: Vec<Step>) -> Result<Answer, NoMemory>
        ensures answers { IfOk result (λ a. a ≡ call_answer plan.now end steps.items self.now) }
        ensures err { OnErr result (self.now.plan ≡ None) }
    {
        if plan.goal.is_traced() {
            return Ok(Answer::Traced(Trace {
                steps: Many::of(steps),
                ending: ending_of(end),
                standing: self.standing(),
            }));
        }
        if self.last.plan.is_some() {
            return Ok(Answer::Running(self.steps()));
        }
        self.over_answer(plan.is_monitored, plan.goal, end)
    }

    /// Takes steps of a run, as `run_all` does.
    fn run_board(&mut self, goal: &mut Goal, most: u64) -> Result<End, NoMemory>
        ensures ok { IfOk result (HasRun (run_ends (stops_of self.old) goal.old self.old.recording.session) most
            self.old.recording.session self.new.recording.session) }
        ensures goal { OnOk result (goal.new
            ≡ goal_after goal.old (timed self.old) (steps_between (timed self.old) (timed self.new))) }
        ensures err { OnErr result (StopsIn goal.old (run_ends (stops_of self.old) goal.old self.old.recording.session) most self.old self.new) }
        ensures others { self.new ≡ ran_to goal.old self.old self.new.recording.session }
    {
        // It tells that the board is the run of the recorded events.
        let _board = self.board();
        run_all(
            &mut self.recording,
            &mut self.guards,
            &self.watches,
            &self.marks,
            goal,
            most,
        )
    }

    /// Takes steps of a run, as `run_all` does, and appends what each did if they are told.
    #[tactic(auto, using(crate::proofs::Runs::none_told))]
    fn take_steps(
        &mut self,
        goal: &mut Goal,
        most: u64,
        steps: &mut Vec<Step>,
    ) -> Result<End, NoMemory>
        ensures ok { IfOk result (HasRun (run_ends (stops_of self.old) goal.old self.old.recording.session) most
            self.old.recording.session self.new.recording.session) }
        ensures goal { OnOk result (goal.new
            ≡ goal_after goal.old (timed self.old) (steps_between (timed self.old) (timed self.new))) }
        ensures steps { OnOk result (steps.new.items ≡ steps.old.items ++ told_steps goal.old most self.old) }
        ensures err { OnErr result (StopsIn goal.old (run_ends (stops_of self.old) goal.old self.old.recording.session) most self.old self.new) }
        ensures others { self.new ≡ ran_to goal.old self.old self.new.recording.session }
    {
        if goal.is_traced() {
            return self.take_traced(most, steps);
        }
        self.run_board(goal, most)
    }

    /// Keeps the plan of the run that isn't over, if there is one, and what `c` goes on for.
    fn keep_plan(&mut self, plan: Option<Plan>, resumes: Goal)
        ensures { self.new ≡ record self.old { plan = plan; resumes = resumes } }
    {
        self.last.plan = plan;
        self.last.resumes = resumes;
    }

    /// Takes a piece of a run, appends what each step did if they are told, and returns why the piece ended.
    fn take_piece(&mut self, plan: &Plan, steps: &mut Vec<Step>) -> Result<End, NoMemory>
        ensures setup { setup self.new ≡ setup self.old }
        ensures piece { OnOk result (self.new ≡ with_piece plan.now self.old) }
        ensures end { IfOk result (λ end. end ≡ end_of plan.now self.old) }
        ensures steps { OnOk result
            (steps.new.items ≡ steps.old.items ++ told_steps plan.now.goal (piece_most plan.now self.old) self.old) }
        ensures err { OnErr result (StopsShort (Some plan.now.goal) (GoesOnWith plan.now) self.old self.new) }
    {
        let before = self.steps();
        let most = plan.left.min(self.piece.max(1));
        let mut goal = plan.goal;
        self.keep_plan(None, Goal::Break);
        let end = self.take_steps(&mut goal, most, steps)?;
        let done = self.steps().saturating_sub(before);
        self.keep_plan(plan.rest(goal, end, done), resumes_after(goal, end));
        Ok(end)
    }

    /// Returns what follows: the run that isn't over, or another command.
    fn next(&self) -> Next
        ensures { result ≡ next_of self.now }
    {
        if self.last.plan.is_some() {
            Next::Running
        } else {
            Next::More
        }
    }

    /// Returns the run that isn't over, if there is one.
    fn plan(&self) -> Option<Plan>
        ensures { result ≡ self.now.plan }
    {
        self.last.plan
    }

    /// Begins a run of a plan.
    pub(crate) fn start(&mut self, plan: Plan) -> Result<Done, NoMemory>
        ensures { Moves plan (begun self.old) self.new result }
    {
        self.begin();
        self.go_on_with(plan)
    }

    /// Keeps the number of steps that an empty line repeats.
    pub(crate) fn keep_count(&mut self, count: u64)
        ensures { self.new ≡ record self.old { count = count } }
    {
        self.last.count = count;
    }

    /// Takes some steps.
    pub(crate) fn run_steps(&mut self, count: u64) -> Result<Done, NoMemory>
        ensures { Executes (orders.Steps count) self.old self.new result }
    {
        self.keep_count(count);
        self.start(planned(Goal::Count, count))
    }

    /// Goes back by some steps.
    fn go_back(&mut self, count: u64) -> Result<(), NoMemory>
        ensures back { OnOk result (Leaves (orders.Back count) self.old self.new) }
        ensures err { OnErr result (self.new ≡ self.old) }
    {
        let before = registers_of(self.board());
        let to = self.recording.steps().saturating_sub(count);
        match self.recording.go_back(to) {
            Ok(()) => {
                self.last.registers = before;
                self.last.steps = to;
                self.last.told = self.board().console().len();
                self.last.resumes = Goal::Break;
                Ok(())
            }
            Err(NoMemory) => Err(NoMemory),
        }
    }

    /// Goes back by some steps, and answers where the board stands.
    #[tactic(auto, using(crate::proofs::Obeyed::kept))]
    pub(crate) fn back(&mut self, count: u64) -> Result<Done, NoMemory>
        ensures { Executes (orders.Back count) self.old self.new result }
    {
        self.go_back(count)?;
        Ok(Done::more(Answer::Back(self.standing())))
    }
}

/// Law: however a run is cut into calls, it leaves the same lab.
#[tactic(auto, using(crate::proofs::Laws::join))]
pub fn pieces_join()
    ensures { (l a b : LabState) → IsInTime (timed l) → InPieces a l → InPieces b l
        → record a { piece = 0 } ≡ record b { piece = 0 } }
{}
