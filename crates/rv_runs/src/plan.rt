//! A run that isn't over.
ghost use Rattle.std.specs.Prelude.{◌≡◌};
ghost use Rattle.rv_runs.specs.Plans as spec;
ghost use Rattle.rv_runs.specs.Plans.{rest_of, resumes_of};

use crate::goal::Goal;
use rv_recording::End;

/// A run that isn't over.
#[derive(Clone, Copy)]
pub struct Plan {
    /// What it goes on for.
    pub goal: Goal,
    /// The most steps that are left.
    pub left: u64,
    /// Whether a command of the monitor asked for it, which then tells its end.
    pub is_monitored: bool,
}

impl Plan {
    /// Returns whether the console is told at the end of the run alone.
    pub fn tells_last(&self) -> bool
        ensures { result ≡ spec.tells_last self.now }
    {
        self.is_monitored || self.goal.is_traced()
    }

    /// Returns the plan of the run after `done` steps of it that ended so, if the run isn't over. `goal` is what
    /// it goes on for then.
    pub fn rest(&self, goal: Goal, end: End, done: u64) -> Option<Plan>
        ensures { result ≡ rest_of self.now goal end done }
    {
        if !matches!(end, End::Limit) || done >= self.left {
            return None;
        }
        Some(Plan {
            goal,
            left: self.left - done,
            is_monitored: self.is_monitored,
        })
    }
}

/// Returns what `c` goes on for after a run that ended so. `goal` is what the run goes on for then.
pub fn resumes_after(goal: Goal, end: End) -> Goal
    ensures { result ≡ resumes_of goal end }
{
    match end {
        End::Limit => goal.resumed(),
        _ => Goal::Break,
    }
}
