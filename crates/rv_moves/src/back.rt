//! Runs back.
ghost use Rattle.std.specs.Prelude.{◌≡◌, ◌<◌, ◌≤◌, IfOk, OnOk};
ghost use Rattle.rv_recording.specs.Recording.{gone_back};
ghost use Rattle.rv_recording.specs.Until.{HasRun};
ghost use Rattle.rv_moves.specs.Back.{first_state, last_stop, left_by, taken};
ghost use Rattle.rv_moves.specs.Runs.{run_ends};
ghost use Rattle.rv_moves.specs.Support.Looking.{Looked, WentBack};
ghost use Rattle.rv_moves.specs.declared.forward.Aim.TheVariants.{Stop};

use crate::forward::{Aim, run};
use crate::watch::{Watch, Watches};
use rv_base::NoMemory;
use rv_recording::{End, Recording};

/// Where a run back stops.
#[derive(Clone, Copy)]
pub struct Back {
    /// The number of steps that are left.
    pub steps: u64,
    /// The watch that the last of them met, or none for a breakpoint.
    pub watch: Option<Watch>,
}

/// Takes steps until one before which the next instruction meets a watch, or after which the board has halted or stands
/// at a breakpoint, at most `most`, and returns which it was.
///
/// # Errors
///
/// `NoMemory` if memory runs out at a step. The steps before it are taken.
#[tactic(auto, using(crate::proofs::Stops::no_watches))]
pub fn run_to_stop(recording: &mut Recording, watches: &Watches, most: u64) -> Result<End, NoMemory>
    ensures ok { IfOk result (HasRun (run_ends watches.now Stop 0 recording.old.session) most
        recording.old.session recording.new.session) }
    ensures others { recording.new ≡ record recording.old { session = recording.new.session } }
{
    if watches.is_empty() {
        return recording.run_to_break(most);
    }
    let mut calls = 0;
    run(recording, watches, &Aim::Stop, &mut calls, most)
}

/// Looks at the next step, and at those after it up to the next stop, but at none after the first `to`, and returns the
/// last stop among them. The recording has taken them then.
fn look(recording: &mut Recording, watches: &Watches, to: u64) -> Result<Option<Back>, NoMemory>
    requires back { WentBack to recording.old }
    requires below { taken recording.old < to }
    ensures { IfOk result (λ found. Looked watches.now to recording.old (taken recording.old) recording.new found
        × (taken recording.old < taken recording.new)) }
{
    let here = recording.steps();
    let session = recording.session();
    if let Some(watch) = watches.met(session.board()) {
        let _outcome = recording.take_step()?;
        return Ok(Some(Back {
            steps: here + 1,
            watch: Some(watch),
        }));
    }
    let is_break = session.has_break(session.board().pc());
    let _end = run_to_stop(recording, watches, to - here)?;
    if is_break {
        return Ok(Some(Back {
            steps: here,
            watch: None,
        }));
    }
    Ok(None)
}

/// Goes back to after the first `from` steps, takes those up to the first `to` again, and returns the last stop among
/// them.
fn look_from(
    recording: &mut Recording,
    watches: &Watches,
    from: u64,
    to: u64,
) -> Result<Option<Back>, NoMemory>
    requires below { from ≤ to }
    requires within { to ≤ taken recording.old }
    ensures looked { IfOk result (Looked watches.now to recording.old from recording.new) }
    ensures all { OnOk result (taken recording.new ≡ to) }
{
    // It tells that all of these steps may be taken again.
    let _taken = recording.session().taken();
    recording.go_back(from)?;
    let mut found = None;
    while recording.steps() < to {
        if let Some(stop) = look(recording, watches, to)? {
            found = Some(stop);
        }
    }
    Ok(found)
}

/// Goes back to the last stop: right after the last step that meets a watch, or before the last one at a breakpoint, or to
/// the first step if there is neither. Returns where that is. It is looked for in parts of the past, the newest first,
/// each eight times as long as the one before.
///
/// # Errors
///
/// `NoMemory` if memory runs out.
pub fn run_back(recording: &mut Recording, watches: &Watches) -> Result<Option<Back>, NoMemory>
    ensures found { IfOk result (λ found. found ≡ last_stop watches.now
        recording.old.session.breakpoints.addresses (first_state recording.old) (taken recording.old)) }
    ensures state { IfOk result (λ found. recording.new ≡ gone_back recording.old (left_by found)) }
{
    let mut high = recording.session().taken();
    let mut width: u64 = 1000;
    while high > 0 {
        let low = high.saturating_sub(width);
        if let Some(stop) = look_from(recording, watches, low, high)? {
            recording.go_back(stop.steps)?;
            return Ok(Some(stop));
        }
        high = low;
        width = width.saturating_mul(8);
    }
    recording.go_back(0)?;
    Ok(None)
}
