//! A trap that is told, with why it came.
ghost use Rattle.std.specs.Prelude.{◌≡◌, ◌==◌, ◌-◌, ◌<◌, ◌≤◌, if◌then◌else◌, min, None, Some, IfOk};
ghost use Rattle.rv_why.specs.Repeats.{last_repeated};
ghost use Rattle.rv_why.specs.Why as spec;
ghost use Rattle.rv_why.specs.Taken.{board_at, first_state};
ghost use Rattle.rv_why.specs.Why.{explanation};
ghost use Rattle.rv_why.specs.Support.Found.{found_at, found_in};

use crate::reason::{before_of, why_trapped};
use crate::repeats::last_repeated;
use crate::search::{Found, find_trap};
use crate::writes::last_write;
use rv_answers::{Before, Explained, Explanation, Repeated, Write};
use rv_base::NoMemory;
use rv_board::BootedBoard;
use rv_cache::DecodeCache;
use rv_hart::Outcome;
use rv_monitor::{Session, word_at};
use rv_ram::PagedRam;
use rv_recording::{Recording, Watched};

/// How many steps are looked at.
const MOST: u64 = 20_000_000;

/// Returns a session whose board has taken that many steps of a recording.
#[tactic(auto, using(crate::proofs::Replays::stands_at))]
pub(crate) fn at_step(
    recording: &Recording,
    steps: u64,
) -> Result<Session<PagedRam, DecodeCache>, NoMemory>
    requires { steps ≤ recording.now.session.timed.taken }
    ensures { IfOk result (λ s. s.timed.board ≡ board_at (first_state recording.now) steps) }
{
    recording.replay(steps)
}

/// Returns the instruction before the step that follows some steps, if there is one.
fn before_step(recording: &Recording, steps: u64) -> Result<Option<Before>, NoMemory>
    requires { steps ≤ recording.now.session.timed.taken }
    ensures { IfOk result (λ b. b ≡ spec.before_step (first_state recording.now) steps) }
{
    if steps == 0 {
        return Ok(None);
    }
    let run = at_step(recording, steps - 1)?;
    Ok(Some(before_of(run.board())))
}

/// Returns the word that was at an address first, if it is another one now.
fn overwritten(first: &BootedBoard, now: &BootedBoard, address: u32) -> Option<u32>
    ensures { result ≡ spec.overwritten first.now now.now address }
{
    let word = word_at(first, address);
    if word == word_at(now, address) {
        return None;
    }
    word
}

/// Returns the last of the first `steps` steps that wrote the word at an address, if that is another one than at reset.
fn writer(
    recording: &Recording,
    address: u32,
    steps: u64,
    overwritten: Option<u32>,
) -> Result<Option<Write>, NoMemory>
    requires { steps ≤ recording.now.session.timed.taken }
    ensures { IfOk result (λ w. w ≡ spec.writer (first_state recording.now) address steps overwritten) }
{
    match overwritten {
        Some(_) => last_write(recording, Watched::Word(address), steps),
        None => Ok(None),
    }
}

/// Explains a trap of a recording.
#[tactic(auto, unfolding(crate::specs::Why::explained))]
fn explained(recording: &Recording, found: Found) -> Result<Option<Explained>, NoMemory>
    requires within { found.step < min recording.now.session.timed.taken 20000000 }
    requires is { found ≡ found_at (first_state recording.now) found.step }
    ensures { IfOk result (λ e. e ≡ spec.explained (first_state recording.now) found.step found.did) }
{
    let Found { step, did, handler } = found;
    let Outcome::Trapped { cause, epc, tval } = did else {
        return Ok(None);
    };
    let before = before_step(recording, step)?;
    let first = at_step(recording, 0)?;
    let run = at_step(recording, step)?;
    let board = run.board();
    let overwritten = overwritten(first.board(), board, epc);
    let writer = writer(recording, epc, step, overwritten)?;
    Ok(Some(Explained {
        step: step + 1,
        cause,
        value: tval,
        address: epc,
        mode: board.mode(),
        word: word_at(board, epc),
        overwritten,
        writer,
        reason: why_trapped(board, cause, epc, tval),
        before,
        handler,
    }))
}

/// Explains the trap that is told of a recording, if one was found.
fn explained_if(recording: &Recording, found: Option<Found>) -> Result<Option<Explained>, NoMemory>
    requires { found ≡ found_in (first_state recording.now) (min recording.now.session.timed.taken 20000000) }
    ensures { IfOk result (λ e. e ≡ (explanation recording.now).trap) }
{
    match found {
        Some(found) => explained(recording, found),
        None => Ok(None),
    }
}

/// Returns the last trap of a recording, if there was one.
fn last_of(recording: &Recording) -> Option<Repeated>
    ensures { result ≡ last_repeated recording.now.session.timed.board.traps }
{
    last_repeated(recording.session().board())
}

/// Explains the first trap of a recording that met no handler, or else the last one.
///
/// # Errors
///
/// `NoMemory` if memory runs out.
#[tactic(auto, unfolding(crate::specs::Why::explanation), using(crate::proofs::Replays::begins_in_time, crate::proofs::Replays::begins_running))]
pub fn explain(recording: &Recording) -> Result<Explanation, NoMemory>
    ensures { IfOk result (λ e. e ≡ explanation recording.now) }
{
    let taken = recording.steps();
    let mut run = recording.begun_again(taken)?;
    let found = find_trap(&mut run, taken.min(MOST))?;
    Ok(Explanation {
        trap: explained_if(recording, found)?,
        unseen: taken.saturating_sub(MOST),
        repeated: last_of(recording),
    })
}
