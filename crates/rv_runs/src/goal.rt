//! What a run goes on for.
ghost use Rattle.std.specs.Prelude.{◌≡◌};
ghost use Rattle.rv_runs.specs.Ends as ends;
ghost use Rattle.rv_runs.specs.Plans as spec;

use rv_recording::{Condition, Span};

/// What a run goes on for.
#[derive(Clone, Copy)]
pub enum Goal {
    /// A number of steps.
    Count,
    /// A number of steps, each of which is told.
    Trace,
    /// A breakpoint.
    Break,
    /// The return from all of these open calls and handlers, and the end of a line.
    Out(u64, Option<Span>),
    /// The return from all of these open calls and handlers, and a mark.
    Mark(u64),
    /// A condition.
    Until(Condition),
}

impl Goal {
    /// Returns whether each step of a run is told.
    pub fn is_traced(&self) -> bool
        ensures { result ≡ spec.is_traced self.now }
    {
        matches!(self, Goal::Trace)
    }

    /// Returns whether breakpoints and changes of what is watched stop a run.
    pub fn heeds(&self) -> bool
        ensures { result ≡ ends.heeds self.now }
    {
        !matches!(self, Goal::Count | Goal::Trace)
    }

    /// Returns what `c` goes on for after a run.
    pub(crate) fn resumed(&self) -> Goal
        ensures { result ≡ spec.resumed_by self.now }
    {
        match *self {
            Goal::Count | Goal::Trace => Goal::Break,
            other => other,
        }
    }
}
