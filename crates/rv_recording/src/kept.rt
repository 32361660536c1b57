//! The states that a recording keeps on the way, so that going back takes fewer steps again.
ghost use Rattle.std.specs.Prelude.{◌≡◌, ◌<◌, ◌≤◌, [], List, true, false, length, IfSome};
ghost use Rattle.rv_board.specs.Support.State.{BoardState};
ghost use Rattle.rv_timeline.specs.declared.input.TimedInput.{TimedInput};
ghost use Rattle.rv_monitor.specs.Laws.{IsReached};
ghost use Rattle.rv_monitor.specs.State.{count_before};
ghost use Rattle.rv_recording.specs.Support.Kept.{IsKept, AreKept, AreWithin};

use rv_board::Board;
use rv_cache::{DecodeCache, NoCache};
use rv_monitor::Session;
use rv_ram::PagedRam;
use std::alloc::Global;
use std::marker::Model;

/// The most states that are kept.
const MOST: usize = 16;

/// The least number of steps from a kept state to the next.
const APART: u64 = 8_000_000;

/// A copy of a board, and the number of steps that it has taken. It was given no input of the next step.
#[derive(Drop)]
pub(crate) struct KeptState {
    board: Board<PagedRam, NoCache>,
    steps: u64,
}

impl Model for KeptState {
    ghost use Rattle.std.specs.Coded.{codes};
    ghost use Rattle.rv_plic.specs.Support.Codes.{plic_code};
    ghost use Rattle.rv_recording.specs.Support.Kept.{KeptBoard};

    ghost Value = { KeptBoard };

    ghost coded = { Prim.hlevel (codes, plic_code) };

    ghost view = { λ k. record { board = k.board; steps = k.steps } };
}

impl KeptState {
    /// Returns the board.
    pub(crate) fn board(&self) -> &Board<PagedRam, NoCache>
        ensures { result.now ≡ self.now.board }
    {
        &self.board
    }

    /// Returns the number of steps that the board has taken.
    pub(crate) fn steps(&self) -> u64
        ensures { result ≡ self.now.steps }
    {
        self.steps
    }
}

/// The kept states, the newest first.
///
/// There are few. A new one takes the place of one whose neighbours are near to each other, so that states
/// lie the closer the nearer they are to the present.
#[derive(Drop)]
pub(crate) struct KeptStates {
    states: Vec<KeptState>,
}

impl Model for KeptStates {
    ghost use Rattle.std.specs.Prelude.{List};
    ghost use Rattle.std.specs.Coded.{codes};
    ghost use Rattle.rv_plic.specs.Support.Codes.{plic_code};
    ghost use Rattle.rv_recording.specs.Support.Kept.{KeptBoard};

    ghost Value = { List KeptBoard };

    ghost coded = { Prim.hlevel (codes, plic_code) };

    ghost view = { λ k. k.states.items };
}

/// Returns the newest of the states that have taken at most `steps` steps.
fn latest_of(states: &[KeptState], steps: u64) -> Option<&KeptState>
    ensures within { IfSome result (λ k. k.now.steps ≤ steps) }
    ensures kept { IfSome result (λ k. (first : BoardState) (inputs : List TimedInput)
        → AreKept first inputs states.now → IsKept first inputs k.now) }
{
    let [state, rest @ ..] = states else {
        return None;
    };
    if state.steps() <= steps {
        return Some(state);
    }
    latest_of(rest, steps)
}

/// Returns whether no state has taken more than `steps` steps.
fn are_within(states: &[KeptState], steps: u64) -> bool
    ensures within { result ≡ true → AreWithin steps states.now }
    ensures some { result ≡ false → 0 < length states.now }
{
    let [state, rest @ ..] = states else {
        return true;
    };
    state.steps() <= steps && are_within(rest, steps)
}

/// Returns the place of the state whose neighbours are the nearest to each other for their age, or the last
/// place.
fn least_missed(states: &[KeptState], taken: u64) -> usize
    requires { 0 < length states.now }
    ensures { result < length states.now }
{
    let mut found = states.len() - 1;
    let mut most = 0;
    for place in 1..states.len() - 1 {
        let before = states[place + 1].steps();
        let span = states[place - 1].steps().saturating_sub(before).max(1);
        let age = taken.saturating_sub(before) / span;
        if age > most {
            most = age;
            found = place;
        }
    }
    found
}

impl KeptStates {
    /// Returns no states. Allocates nothing.
    pub(crate) fn new(alloc: Global) -> KeptStates
        ensures { result ≡ [] }
    {
        KeptStates {
            states: Vec::new(alloc),
        }
    }

    /// Returns the newest state that has taken at most `steps` steps, if there is one.
    pub(crate) fn latest(&self, steps: u64) -> Option<&KeptState>
        ensures within { IfSome result (λ k. k.now.steps ≤ steps) }
        ensures kept { IfSome result (λ k. (first : BoardState) (inputs : List TimedInput)
            → AreKept first inputs self.now → IsKept first inputs k.now) }
    {
        latest_of(&self.states, steps)
    }

    /// Returns whether enough steps were taken since the newest state for another one.
    #[inline(always)]
    fn is_due(&self, taken: u64) -> bool {
        match self.states.first() {
            Some(newest) => taken.saturating_sub(newest.steps()) >= APART,
            None => taken >= APART,
        }
    }

    /// Keeps the state of a session, if enough steps were taken since the newest one. Where memory runs out
    /// it isn't kept.
    #[inline(always)]
    pub(crate) fn keep(&mut self, alloc: Global, session: &Session<PagedRam, DecodeCache>)
        ensures { (first : BoardState) → IsReached first session.now.timed
            → AreKept first session.now.timed.inputs self.old → AreKept first session.now.timed.inputs self.new }
    {
        if self.is_due(session.taken()) && session.awaits_inputs() {
            self.keep_copy(alloc, session);
        }
    }

    /// Keeps a copy of the board of a session that was given no input of the next step. Out of line, since
    /// most calls keep none.
    #[cold]
    #[inline(never)]
    fn keep_copy(&mut self, alloc: Global, session: &Session<PagedRam, DecodeCache>)
        requires { session.now.timed.place ≡ count_before session.now.timed.taken session.now.timed.inputs }
        ensures { (first : BoardState) → IsReached first session.now.timed
            → AreKept first session.now.timed.inputs self.old → AreKept first session.now.timed.inputs self.new }
    {
        let Ok(board) = session.board().try_clone(alloc, NoCache) else {
            return;
        };
        let steps = session.taken();
        self.make_place(steps);
        let _refused = self.states.insert(0, KeptState { board, steps });
    }

    /// Forgets a state if there are as many as there may be.
    #[tactic(auto, using(crate::proofs::Keeping::kept_less))]
    fn make_place(&mut self, taken: u64)
        ensures { (first : BoardState) (inputs : List TimedInput) → AreKept first inputs self.old
            → AreKept first inputs self.new }
    {
        if self.states.len() >= MOST {
            let place = least_missed(&self.states, taken);
            self.states.remove(place);
        }
    }

    /// Forgets the states that have taken more than `steps` steps.
    pub(crate) fn forget_after(&mut self, steps: u64)
        ensures within { AreWithin steps self.new }
        ensures kept { (first : BoardState) (inputs : List TimedInput) → AreKept first inputs self.old
            → AreKept first inputs self.new }
    {
        while !are_within(&self.states, steps) {
            self.states.remove(0);
        }
    }
}
