//! Where the steps of a run were spent.
ghost use Rattle.std.specs.Prelude.{◌≡◌, ◌<◌, ◌≤◌, length, IfOk, OnOk};
ghost use Rattle.rv_asm.specs.Seen.{seen};
ghost use Rattle.rv_convention.specs.Profile as spec;
ghost use Rattle.rv_convention.specs.Support.Tallies.{before_next, placed_if, steps_of};

use crate::follow::follow_run;
use crate::tally::{Tallied, Tally};
use rv_answers::{Many, Profiled, Spent};
use rv_asm::Listing;
use rv_base::NoMemory;
use rv_recording::Recording;
use std::alloc::Global;

/// What of a source steps are counted for.
#[derive(Clone, Copy)]
pub(crate) enum Part {
    /// A line.
    Line,
    /// A function or a handler.
    Function,
}

/// Returns how many steps began in lines, up to the next in which a function begins.
#[tactic(auto, using(crate::proofs::Tallies::no_more, crate::proofs::Tallies::one_more, crate::proofs::Tallies::part_below))]
fn before_next(lines: &[Tallied]) -> u64
    requires { steps_of lines.now < 18446744073709551616 }
    ensures { result ≡ before_next lines.now }
{
    let mut sum = 0;
    let mut left = lines;
    while let [first, rest @ ..] = left {
        if first.begins {
            return sum;
        }
        sum += first.steps;
        left = rest;
    }
    sum
}

/// Returns the steps of the part of a source that begins with the first of some lines, if one does.
#[tactic(auto, unfolding(crate::specs::Profile::part_steps))]
fn part_steps(part: Part, lines: &[Tallied]) -> u64
    requires { steps_of lines.now < 18446744073709551616 }
    ensures { result ≡ spec.part_steps part lines.now }
{
    let [first, rest @ ..] = lines else {
        return 0;
    };
    match part {
        Part::Line => first.steps,
        Part::Function => {
            if first.begins {
                first.steps + before_next(rest)
            } else {
                0
            }
        }
    }
}

/// Returns what is told of a line, in which some steps were spent.
fn row_of(listing: Listing<'_>, line: usize, steps: u64) -> Option<Spent>
    ensures { result ≡ spec.row_of (seen listing.entry) line steps }
{
    if steps == 0 {
        return None;
    }
    match listing.address(line) {
        Some(address) => Some(Spent {
            line,
            address,
            steps,
        }),
        None => None,
    }
}

/// Returns before which of some rows one belongs with so many steps.
#[tactic(auto, using(crate::proofs::Tallies::placed_here, crate::proofs::Tallies::placed_later))]
fn place_for(rows: &[Spent], steps: u64) -> usize
    ensures place { result ≡ spec.place_for rows.now steps }
    ensures within { result ≤ length rows.now }
{
    let mut place = 0;
    let mut left = rows;
    while let [row, rest @ ..] = left {
        if row.steps < steps {
            return place;
        }
        place += 1;
        left = rest;
    }
    place
}

/// Puts a row, if there is one, in its place among others.
#[tactic(auto, unfolding(crate::specs::Profile::placed))]
fn place(rows: &mut Vec<Spent>, row: Option<Spent>) -> Result<(), NoMemory>
    ensures { OnOk result (rows.new.items ≡ placed_if rows.old.items row) }
{
    let Some(row) = row else {
        return Ok(());
    };
    let at = place_for(rows.as_slice(), row.steps);
    match rows.insert(at, row) {
        Ok(()) => Ok(()),
        Err(_) => Err(NoMemory),
    }
}

/// Returns the parts of a source with the steps that were spent in them, of its lines with theirs.
#[tactic(auto, using(crate::proofs::Tallies::told_first, crate::proofs::Tallies::told_next, crate::proofs::Tallies::told_last))]
fn told(
    alloc: Global,
    listing: Listing<'_>,
    lines: &[Tallied],
    part: Part,
) -> Result<Many<Spent>, NoMemory>
    requires { steps_of lines.now < 18446744073709551616 }
    ensures { IfOk result (λ t. t ≡ spec.told (seen listing.entry) lines.now part) }
{
    let mut rows = Vec::new(alloc);
    for index in 0..lines.len() {
        let left = lines.split_at(index).1;
        place(
            &mut rows,
            row_of(listing, index + 1, part_steps(part, left)),
        )?;
    }
    Ok(Many::of(rows))
}

/// Returns where the first `most` steps of a recording were spent, also of those that weren't taken yet, by the lines of
/// its source. The recording stays as it is.
///
/// # Errors
///
/// `NoMemory` if memory runs out.
#[tactic(auto, using(crate::proofs::Tallies::profile_is))]
pub fn profile(
    alloc: Global,
    recording: &Recording,
    listing: Listing<'_>,
    most: u64,
) -> Result<Profiled, NoMemory>
    ensures { IfOk result (λ p. p ≡ spec.profiled (seen listing.entry) recording.now most) }
{
    let mut run = recording.begun_again(most)?;
    let first = Tally::new(alloc, listing, run.board().pc())?;
    let tally = follow_run(alloc, first, &mut run, most)?;
    let lines = tally.lines.as_slice();
    Ok(Profiled {
        steps: tally.steps,
        has_halted: tally.has_halted,
        lines: told(alloc, listing, lines, Part::Line)?,
        functions: told(alloc, listing, lines, Part::Function)?,
    })
}
