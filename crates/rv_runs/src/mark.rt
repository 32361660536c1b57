//! Runs up to a mark.
ghost use Rattle.std.specs.Prelude.{◌≡◌};
ghost use Rattle.rv_runs.specs.Marks.{is_mark};
ghost use Rattle.rv_runs.specs.Support.Plain.{mark_here, plain_here};

use crate::goal::Goal;
use rv_cache::DecodeCache;
use rv_monitor::Session;
use rv_ram::PagedRam;
use rv_recording::End;

/// Returns whether an address is a mark.
#[tactic(auto, unfolding(crate::specs::Marks::is_mark))]
fn is_mark(marks: &[u32], address: u32) -> bool
    ensures { result ≡ is_mark marks.now address }
{
    marks.iter().any(|mark| *mark == address)
}

/// Returns why a run up to a mark is over where one out of its calls is, if it is.
fn mark_here(marks: &[u32], session: &Session<PagedRam, DecodeCache>, end: End) -> Option<End>
    ensures { result ≡ mark_here marks.now session.now end }
{
    if !matches!(end, End::Reached) {
        return Some(end);
    }
    let pc = session.board().pc();
    if is_mark(marks, pc) {
        return Some(End::Reached);
    }
    if session.has_break(pc) {
        return Some(End::Breakpoint);
    }
    if session.taken() < session.limit() {
        return None;
    }
    Some(End::Stuck)
}

/// Returns why a run without guards is over where it would be if it heeded no mark, if it is.
pub(crate) fn plain_here(
    marks: &[u32],
    goal: &Goal,
    session: &Session<PagedRam, DecodeCache>,
    end: End,
) -> Option<End>
    ensures { result ≡ plain_here marks.now goal.now session.now end }
{
    match goal {
        Goal::Mark(_) => mark_here(marks, session, end),
        _ => Some(end),
    }
}
