//! Guards of breakpoints: conditions, and how many hits runs go past.
ghost use Rattle.std.specs.Prelude.{◌≡◌, true, ◌<◌, ◌≤◌, IfSome, length, map, vec_capacity, vec_len};
ghost use Rattle.std.specs.List.{position};
ghost use Rattle.std.specs.Option.{option_map_or};
ghost use Rattle.rv_hart.specs.declared.trap.Outcome.TheVariants.{Retired};
ghost use Rattle.rv_recording.specs.Until.{holds};
ghost use Rattle.rv_runs.specs.Guards as spec;
ghost use Rattle.rv_runs.specs.Guards.{end_here, is_at, is_met, with_guard, without_guard};
ghost use Rattle.rv_runs.specs.Support.Plain.{hit_here, hit_once};

use rv_answers::Many;
use rv_board::BootedBoard;
use rv_cache::DecodeCache;
use rv_hart::Outcome;
use rv_monitor::Session;
use rv_ram::PagedRam;
use rv_recording::{Condition, End};

/// What keeps a breakpoint from stopping runs.
#[derive(Drop)]
pub struct Guard {
    /// The address of the breakpoint.
    pub address: u32,
    /// The condition, if it has one.
    pub condition: Option<Condition>,
    /// The condition as it was given.
    pub text: Many<u8>,
    /// How many hits runs go past before one stops them.
    pub passes: u64,
}

/// Returns whether a condition holds on a board, if there is one.
fn holds_there(condition: Option<Condition>, board: &BootedBoard) -> bool
    ensures { result ≡ option_map_or (λ c. holds c Retired board.now) condition true }
{
    match condition {
        Some(condition) => condition.holds(Outcome::Retired, board),
        None => true,
    }
}

impl Guard {
    /// Returns whether a board stands at the breakpoint, and the condition holds there.
    #[tactic(auto, unfolding(crate::specs::Guards::is_met))]
    fn is_met(&self, board: &BootedBoard) -> bool
        ensures { result ≡ is_met self.now board.now }
    {
        self.address == board.pc() && holds_there(self.condition, board)
    }

    /// Counts a hit if a board is at one.
    fn count(&mut self, board: &BootedBoard)
        ensures { self.new ≡ hit_once board.now self.old }
    {
        if self.is_met(board) {
            self.passes = self.passes.saturating_sub(1);
        }
    }
}

/// Counts the hits that a board is at.
fn count_hits(guards: &mut Vec<Guard>, board: &BootedBoard)
    ensures { guards.new.items ≡ map (hit_once board.now) guards.old.items }
{
    for guard in guards.iter_mut() {
        guard.count(board);
    }
}

/// Returns whether a breakpoint where a board stands stops a run.
#[tactic(auto, unfolding(crate::specs::Guards::stops, crate::specs::Guards::guard_at))]
fn stops(guards: &[Guard], board: &BootedBoard) -> bool
    ensures { result ≡ spec.stops guards.now board.now }
{
    let [guard, rest @ ..] = guards else {
        return true;
    };
    if guard.address == board.pc() {
        return guard.is_met(board) && guard.passes == 0;
    }
    stops(rest, board)
}

/// Returns why a run is over that came to one of its ends, if it is, and counts the hits there: it goes on at a
/// breakpoint that doesn't stop it.
pub(crate) fn end_here(
    guards: &mut Vec<Guard>,
    session: &Session<PagedRam, DecodeCache>,
    end: End,
) -> Option<End>
    ensures end { result ≡ end_here guards.old.items session.now end }
    ensures hits { guards.new.items ≡ hit_here guards.old.items session.now end }
{
    if !matches!(end, End::Breakpoint) {
        return Some(end);
    }
    let is_over = stops(guards, session.board());
    count_hits(guards, session.board());
    if is_over {
        return Some(End::Breakpoint);
    }
    if session.taken() < session.limit() {
        return None;
    }
    Some(End::Stuck)
}

/// Returns the place of the guard of the breakpoint at an address, if it has one.
fn place_of(guards: &[Guard], address: u32) -> Option<usize>
    ensures value { result ≡ position (is_at address) guards.now }
    ensures below { IfSome result (λ n. n < length guards.now) }
{
    guards.iter().position(|guard| guard.address == address)
}

/// Removes the guard of the breakpoint at an address, if it has one.
pub fn remove_guard(guards: &mut Vec<Guard>, address: u32)
    ensures items { guards.new.items ≡ without_guard address guards.old.items }
    ensures len { vec_len guards.new ≤ vec_len guards.old }
    ensures capacity { vec_capacity guards.new ≡ vec_capacity guards.old }
{
    if let Some(place) = place_of(guards, address) {
        let _guard = guards.remove(place);
    }
}

/// Puts a guard in the place of the one that its breakpoint had.
pub fn put_guard(guards: &mut Vec<Guard>, guard: Guard)
    requires { vec_len guards.old < vec_capacity guards.old }
    ensures { guards.new.items ≡ with_guard guard guards.old.items }
{
    remove_guard(guards, guard.address);
    guards.push_reserved(guard);
}
