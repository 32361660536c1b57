//! What is watched.
ghost use Rattle.std.specs.Prelude.{◌≡◌, ◌++◌, filter, IfOk, OnOk, map};
ghost use Rattle.rv_lab.specs.Answers.{watch_on, watches_of};
ghost use Rattle.rv_lab.specs.Runs as spec;
ghost use Rattle.rv_lab.specs.Runs.{change_of};
ghost use Rattle.rv_lab.specs.Support.Short.{Executes};
ghost use Rattle.rv_runs.specs.Watches.{differs};
ghost use Rattle.rv_lab.specs.declared.order.Order.TheVariants as orders;

use crate::lab::{Done, Lab};
use rv_answers::{Answer, Change, Many, Watch, push};
use rv_base::NoMemory;
use rv_board::BootedBoard;
use rv_recording::Watched;
use rv_runs::{Goal, differs, put_watch, remove_watch};
use rv_why::target_of;
use std::alloc::Global;

/// The most registers and words that are watched.
pub(crate) const MOST_WATCHED: usize = 16;

/// Returns the values of what is watched on two boards.
fn change_of(before: &BootedBoard, now: &BootedBoard, watched: &Watched) -> Change
    ensures { result ≡ change_of before.now now.now watched.now }
{
    Change {
        target: target_of(*watched),
        before: watched.value(before),
        value: watched.value(now),
    }
}

/// Appends those of which the value differs on two boards, with both values.
#[tactic(auto, unfolding(rv_runs::specs::Watches::differs))]
fn push_changes(
    before: &BootedBoard,
    now: &BootedBoard,
    watches: &[Watched],
    changes: &mut Vec<Change>,
) -> Result<(), NoMemory>
    ensures { OnOk result (changes.new.items
        ≡ changes.old.items ++ map (change_of before.now now.now) (filter (differs before.now now.now) watches.now)) }
{
    let [watched, rest @ ..] = watches else {
        return Ok(());
    };
    let change = change_of(before, now, watched);
    if differs(change.before, change.value) {
        push(changes, change)?;
    }
    push_changes(before, now, rest, changes)
}

/// Returns what is watched, with its value on a board.
pub(crate) fn watch_on(board: &BootedBoard, watched: &Watched) -> Watch
    ensures { result ≡ watch_on board.now watched.now }
{
    Watch {
        target: target_of(*watched),
        value: watched.value(board),
    }
}

/// Returns all of some, with their values on a board.
fn all_on(alloc: Global, board: &BootedBoard, watches: &[Watched]) -> Result<Many<Watch>, NoMemory>
    ensures { IfOk result (λ m. m ≡ map (watch_on board.now) watches.now) }
{
    let mut values = Vec::new(alloc);
    for watched in watches {
        push(&mut values, watch_on(board, watched))?;
    }
    Ok(Many::of(values))
}

impl Lab {
    /// Returns what is watched, with its values.
    pub(crate) fn watches_of(&self) -> Result<Many<Watch>, NoMemory>
        ensures { IfOk result (λ m. m ≡ watches_of self.now) }
    {
        all_on(self.alloc, self.board(), &self.watches)
    }

    /// Returns what the last step of a run changed of what is watched, if the run stops there.
    #[tactic(auto, unfolding(crate::specs::Runs::watch_changes))]
    pub(crate) fn watch_changes(&self, goal: Goal) -> Result<Many<Change>, NoMemory>
        ensures { IfOk result (λ m. m ≡ spec.watch_changes goal self.now) }
    {
        let mut changes = Vec::new(self.alloc);
        if self.watches.is_empty() || !goal.heeds() || self.last.steps >= self.steps() {
            return Ok(Many::of(changes));
        }
        let before = self.recording.replay(self.steps().saturating_sub(1))?;
        push_changes(before.board(), self.board(), &self.watches, &mut changes)?;
        Ok(Many::of(changes))
    }

    /// Watches a register or a word.
    #[tactic(auto, using(crate::proofs::Obeyed::kept))]
    pub(crate) fn set_watch(&mut self, watched: Watched) -> Result<Done, NoMemory>
        ensures { Executes (orders.Watch watched) self.old self.new result }
    {
        self.watches.reserve(1)?;
        put_watch(&mut self.watches, &watched);
        Ok(Done::more(Answer::Watch(self.watch_of(&watched))))
    }

    /// Watches one no more, or none.
    #[tactic(auto, using(crate::proofs::Obeyed::kept))]
    pub(crate) fn unwatch(&mut self, watched: Option<Watched>) -> Result<Done, NoMemory>
        ensures { Executes (orders.Unwatch watched) self.old self.new result }
    {
        let before = self.watches.len();
        match watched {
            Some(watched) => remove_watch(&mut self.watches, &watched),
            None => self.watches.clear(),
        }
        let ended = before.saturating_sub(self.watches.len());
        Ok(Done::more(Answer::Unwatched(ended)))
    }
}
