//! Runs that are followed step by step.
ghost use Rattle.std.specs.Prelude.{◌≡◌, ◌+◌, ◌<◌, fold, IfOk};
ghost use Rattle.rv_convention.specs.Convention.{moments};
ghost use Rattle.rv_convention.specs.Support.Follows.{Follows, by_turn};

use crate::turn::{Turn, next_turn, turn_of};
use rv_base::NoMemory;
use rv_board::BootedBoard;
use rv_cache::DecodeCache;
use rv_monitor::Session;
use rv_ram::PagedRam;
use std::alloc::Global;

/// What is known of a run, to which each step adds.
pub(crate) trait Follower: Drop {
    ghost use Rattle.std.specs.Prelude.{◌≡◌, ◌+◌, ◌<◌, ℕ, OnOk};
    ghost use Rattle.rv_board.specs.BoardState.{BoardState};
    ghost use Rattle.rv_convention.specs.declared.turn.Turn.{Turn};

    /// It after a step, by where that began, what it meant, and the board after it.
    ghost follows: { Self → ℕ → Turn → BoardState → Self };

    /// The number of the steps.
    ghost steps: { Self → ℕ };

    /// Adds a step.
    fn add(
        &mut self,
        alloc: Global,
        address: u32,
        turn: Turn,
        now: &BootedBoard,
    ) -> Result<(), NoMemory>
        requires { steps self.old + 1 < 18446744073709551616 }
        ensures added { OnOk result (self.new ≡ follows self.old address turn now.now) }
        ensures counted { OnOk result (steps self.new ≡ steps self.old + 1) };
}

/// Takes a step and follows it. Returns whether there was one to take.
fn follow<F: Follower>(
    seen: &mut F,
    alloc: Global,
    run: &mut Session<PagedRam, DecodeCache>,
) -> Result<bool, NoMemory>
    requires { F.steps seen.old + 1 < 18446744073709551616 }
    ensures { IfOk result (Follows F.follows F.steps run.old run.new seen.old seen.new) }
{
    let address = run.board().pc();
    let retires = next_turn(run.board());
    let Some(outcome) = run.take_step()? else {
        return Ok(false);
    };
    seen.add(alloc, address, turn_of(outcome, retires), run.board())?;
    Ok(true)
}

/// Follows the steps of a run, `most` at most. `first` is what is known before them.
#[tactic(auto, using(crate::proofs::Following::begins, crate::proofs::Following::ends))]
pub(crate) fn follow_run<F: Follower>(
    alloc: Global,
    first: F,
    run: &mut Session<PagedRam, DecodeCache>,
    most: u64,
) -> Result<F, NoMemory>
    requires begins { run.old.timed.taken ≡ 0 }
    requires limit { run.old.limit ≡ most }
    requires none { F.steps first ≡ 0 }
    ensures { IfOk result (λ t. t ≡ fold (by_turn F.follows) first (moments most run.old.timed)) }
{
    let mut seen = first;
    for done in 0..most {
        if !follow(&mut seen, alloc, run)? {
            return Ok(seen);
        }
    }
    Ok(seen)
}
