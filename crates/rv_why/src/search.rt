//! Which trap is told.
ghost use Rattle.std.specs.Prelude.{◌≡◌, ◌+◌, ◌<◌, ◌≤◌, ℕ, true, None, IfOk, OnOk};
ghost use Rattle.rv_board.specs.Support.State.{halted_of};
ghost use Rattle.rv_monitor.specs.State.{IsInTime, after};
ghost use Rattle.rv_monitor.specs.Stops.{may_step};
ghost use Rattle.rv_why.specs.Support.Found.{found_in, is_last, later_of, next_of, trap_of};

use crate::fetched::handler_of;
use rv_answers::Handler;
use rv_base::NoMemory;
use rv_cache::DecodeCache;
use rv_hart::Outcome;
use rv_monitor::Session;
use rv_ram::PagedRam;

/// A trap, and where it went.
#[derive(Clone, Copy)]
pub(crate) struct Found {
    /// The number of the steps before it.
    pub(crate) step: u64,
    /// What its step did.
    pub(crate) did: Outcome,
    pub(crate) handler: Handler,
}

/// Takes a step, which `done` steps came before, and returns its trap, if it took one.
fn take_step(run: &mut Session<PagedRam, DecodeCache>, done: u64) -> Result<Option<Found>, NoMemory>
    requires { may_step run.old ≡ true }
    ensures state { OnOk result (run.new ≡ next_of run.old) }
    ensures trap { IfOk result (λ t. t ≡ trap_of done run.old.timed) }
{
    match run.take_step()? {
        Some(Outcome::Trapped { cause, epc, tval }) => {
            let handler = handler_of(run.board());
            Ok(Some(Found {
                step: done,
                did: Outcome::Trapped { cause, epc, tval },
                handler,
            }))
        }
        Some(Outcome::Retired) => Ok(None),
        Some(Outcome::Halted) => Ok(None),
        None => Ok(None),
    }
}

/// Keeps a trap, if there is one, in place of the one before.
fn keep(found: &mut Option<Found>, trap: Option<Found>)
    ensures { found.new ≡ later_of trap found.old }
{
    if trap.is_some() {
        *found = trap;
    }
}

/// Returns whether a trap was found that met no handler.
fn is_unhandled(found: &Option<Found>) -> bool
    ensures { result ≡ is_last found.now }
{
    match found {
        Some(trap) => trap.handler.missing.is_some(),
        None => false,
    }
}

/// Takes steps up to a trap that meets no handler, at most `most`, and returns that trap, or else the last one.
pub(crate) fn find_trap(
    run: &mut Session<PagedRam, DecodeCache>,
    most: u64,
) -> Result<Option<Found>, NoMemory>
    requires in_time { IsInTime run.old.timed }
    requires running { (i : ℕ) → i < most → halted_of (after run.old.timed i).board ≡ None }
    requires room { run.old.timed.taken + most ≤ run.old.limit }
    ensures { IfOk result (λ f. f ≡ found_in run.old.timed most) }
{
    let mut found = None;
    for done in 0..most {
        let trap = take_step(run, done)?;
        keep(&mut found, trap);
        if is_unhandled(&found) {
            return Ok(found);
        }
    }
    Ok(found)
}
