//! Runs of a recording.
ghost use Rattle.std.specs.Prelude.{◌≡◌, nat_eq, not, IfOk, OnErr, OnOk};
ghost use Rattle.std.specs.List.{list_any};
ghost use Rattle.std.specs.Option.{option_eq};
ghost use Rattle.rv_monitor.specs.Stops.{steps_between};
ghost use Rattle.rv_recording.specs.Refused.{IsRefusedIn};
ghost use Rattle.rv_recording.specs.Until.{HasRun, watched_value};
ghost use Rattle.rv_runs.specs.Ends.{goal_after, guards_after, run_ends};
ghost use Rattle.rv_runs.specs.Support.Plain.{Ran, aim_after, bare_ends, ended, goal_at, guards_here, past_ends, past_here, stop_here, watch_ends};
ghost use Rattle.rv_runs.specs.Watches.{differs};

use crate::goal::Goal;
use crate::guard::{Guard, end_here};
use crate::mark::plain_here;
use rv_base::NoMemory;
use rv_cache::DecodeCache;
use rv_monitor::Session;
use rv_ram::PagedRam;
use rv_recording::{End, Recording, Watched};

/// Takes steps of a run, at most `most`, and returns why it is over or ended if it heeded no mark, and no breakpoint had a
/// guard. `goal` is what the run goes on for, before them and after them.
fn run_for(recording: &mut Recording, goal: &mut Goal, most: u64) -> Result<End, NoMemory>
    ensures { Ran bare_ends goal_at most goal.old goal.new recording.old recording.new result }
{
    match goal {
        Goal::Count | Goal::Trace => recording.run_steps(most),
        Goal::Break => recording.run_to_break(most),
        Goal::Until(condition) => recording.run_until(*condition, most),
        Goal::Out(calls, line) => recording.run_out(calls, *line, most),
        Goal::Mark(calls) => recording.run_out(calls, None, most),
    }
}

/// Returns why a run is over where it would be if it heeded no mark, and no breakpoint had a guard, if it is, and counts
/// the hits there.
fn past_here(
    guards: &mut Vec<Guard>,
    marks: &[u32],
    goal: &Goal,
    session: &Session<PagedRam, DecodeCache>,
    end: End,
) -> Option<End>
    ensures end { result ≡ past_here marks.now (record { guards = guards.old.items; goal = goal.now }) session.now end }
    ensures hits { guards.new.items
        ≡ guards_here marks.now (record { guards = guards.old.items; goal = goal.now }) session.now end }
{
    let end = plain_here(marks, goal, session, end)?;
    end_here(guards, session, end)
}

/// Takes steps of a run as `run_for` does, and past each place where it doesn't stop.
#[tactic(auto, using(crate::proofs::Parts::begins))]
fn run_past(
    recording: &mut Recording,
    guards: &mut Vec<Guard>,
    marks: &[u32],
    goal: &mut Goal,
    most: u64,
) -> Result<End, NoMemory>
    ensures { Ran (past_ends marks.now) (aim_after marks.now) most
        (record { guards = guards.old.items; goal = goal.old }) (record { guards = guards.new.items; goal = goal.new })
        recording.old recording.new result }
{
    // It tells that the inputs of all steps so far were given.
    let _board = recording.session().board();
    let mut left = most;
    loop {
        let before = recording.steps();
        let end = run_for(recording, goal, left)?;
        if let Some(last) = past_here(guards, marks, goal, recording.session(), end) {
            return Ok(last);
        }
        left = left.saturating_sub(recording.steps().saturating_sub(before));
    }
}

/// Returns the value of what is watched.
fn value_of(watched: &Watched, recording: &Recording) -> Option<u32>
    ensures { result ≡ watched_value recording.now.session.timed.board watched.now }
{
    watched.value(recording.session().board())
}

/// Returns whether the value of what is watched isn't what it was.
pub fn differs(before: Option<u32>, now: Option<u32>) -> bool
    ensures { result ≡ not (option_eq nat_eq now before) }
{
    now != before
}

/// Takes steps of a run as `run_past` does, and also returns whether what is watched has another value after them.
#[tactic(auto, unfolding(crate::specs::Watches::differs))]
fn run_noting(
    recording: &mut Recording,
    guards: &mut Vec<Guard>,
    watches: &[Watched],
    marks: &[u32],
    goal: &mut Goal,
    most: u64,
) -> Result<(End, bool), NoMemory>
    ensures ran { Ran (past_ends marks.now) (aim_after marks.now) most
        (record { guards = guards.old.items; goal = goal.old }) (record { guards = guards.new.items; goal = goal.new })
        recording.old recording.new (ended result) }
    ensures changes { IfOk result (λ r. r.1
        ≡ list_any (differs recording.old.session.timed.board recording.new.session.timed.board) watches.now) }
{
    let [watched, rest @ ..] = watches else {
        return Ok((run_past(recording, guards, marks, goal, most)?, false));
    };
    let before = value_of(watched, recording);
    let (end, changes) = run_noting(recording, guards, rest, marks, goal, most)?;
    Ok((
        end,
        differs(before, value_of(watched, recording)) || changes,
    ))
}

/// Returns why a run is over after a step that ended so, of `left` at most, if it is.
fn stop_here(changes: bool, end: End, left: u64) -> Option<End>
    ensures { result ≡ stop_here changes end left }
{
    match end {
        End::Halted => Some(End::Halted),
        End::Limit if !changes && left > 1 => None,
        end => Some(if changes { End::Reached } else { end }),
    }
}

/// Takes steps of a run as `run_past` does, up to the first that changes what is watched.
#[tactic(auto, using(crate::proofs::Parts::begins))]
fn run_watching(
    recording: &mut Recording,
    guards: &mut Vec<Guard>,
    watches: &[Watched],
    marks: &[u32],
    goal: &mut Goal,
    most: u64,
) -> Result<End, NoMemory>
    ensures { Ran (watch_ends watches.now marks.now) (aim_after marks.now) most
        (record { guards = guards.old.items; goal = goal.old }) (record { guards = guards.new.items; goal = goal.new })
        recording.old recording.new result }
{
    // It tells that the inputs of all steps so far were given.
    let _board = recording.session().board();
    let mut left = most;
    loop {
        let (end, changes) = run_noting(recording, guards, watches, marks, goal, left.min(1))?;
        if let Some(last) = stop_here(changes, end, left) {
            return Ok(last);
        }
        left = left.saturating_sub(1);
    }
}

/// Takes steps of a run, up to where it is over.
#[tactic(auto, using(crate::proofs::Watching::ran_as, crate::proofs::Watching::refused_as, crate::proofs::Watching::unwatched, crate::proofs::Watching::unheeded, crate::proofs::Watching::heeded))]
pub fn run_all(
    recording: &mut Recording,
    guards: &mut Vec<Guard>,
    watches: &[Watched],
    marks: &[u32],
    goal: &mut Goal,
    most: u64,
) -> Result<End, NoMemory>
    ensures ok { IfOk result (HasRun (run_ends (record { guards = guards.old.items; watches = watches.now; marks = marks.now }) goal.old recording.old.session) most
        recording.old.session recording.new.session) }
    ensures goal { OnOk result (goal.new ≡ goal_after goal.old recording.old.session.timed
        (steps_between recording.old.session.timed recording.new.session.timed)) }
    ensures err { OnErr result (IsRefusedIn (run_ends (record { guards = guards.old.items; watches = watches.now; marks = marks.now }) goal.old recording.old.session) most
        recording.old.session recording.new.session) }
    ensures guards { guards.new.items ≡ guards_after marks.now guards.old.items goal.old recording.old.session
        (steps_between recording.old.session.timed recording.new.session.timed) }
    ensures others { recording.new ≡ record recording.old { session = recording.new.session } }
{
    if watches.is_empty() {
        return run_past(recording, guards, marks, goal, most);
    }
    if !goal.heeds() {
        return run_past(recording, guards, marks, goal, most);
    }
    run_watching(recording, guards, watches, marks, goal, most)
}
