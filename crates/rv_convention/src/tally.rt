//! How many steps began in each line of a source, and in which lines functions begin.
ghost use Rattle.std.specs.Prelude.{◌≡◌, ◌+◌, ◌<◌, ◌≤◌, length, IfOk};
ghost use Rattle.rv_asm.specs.Seen.{seen};
ghost use Rattle.rv_convention.specs.Profile as spec;
ghost use Rattle.rv_convention.specs.Support.Tallies.{changed, entered, none_counted, stepped, steps_of, tally_after};

use crate::follow::Follower;
use crate::turn::Turn;
use rv_asm::Listing;
use rv_base::NoMemory;
use rv_board::BootedBoard;
use std::alloc::Global;
use std::marker::Model;

/// A line of a source, with what a run did in it.
#[derive(Clone, Copy)]
pub(crate) struct Tallied {
    /// How many steps began in it.
    pub(crate) steps: u64,
    /// Whether a function or a handler begins in it.
    pub(crate) begins: bool,
}

/// What is counted of a run.
#[derive(Drop)]
pub(crate) struct Tally<'a> {
    listing: Listing<'a>,
    pub(crate) lines: Vec<Tallied>,
    pub(crate) steps: u64,
    pub(crate) has_halted: bool,
}

impl<'a> Model for Tally<'a> {
    ghost use Rattle.std.specs.Prelude.{◌≡◌, ◌+◌, ◌≤◌, length};
    ghost use Rattle.rv_asm.specs.Seen.{seen};
    ghost use Rattle.rv_convention.specs.Support.Tallies.{TallyState, steps_of};

    ghost Value = { TallyState };

    ghost view = { λ t. record { listing = seen t.listing; lines = t.lines.items; steps = t.steps; has_halted = t.has_halted } };

    ghost invariant = { λ t. (steps_of t.lines.items ≤ t.steps)
        × (length t.lines.items + 1 ≡ length (seen t.listing).addresses) };
}

/// Counts a step in the line of the address at which it began.
#[tactic(auto, using(crate::proofs::Tallies::changed_none, crate::proofs::Tallies::sum_raised, crate::proofs::Tallies::below_sum))]
fn count(listing: Listing<'_>, lines: &mut Vec<Tallied>, address: u32)
    requires each { length lines.old.items + 1 ≡ length (seen listing).addresses }
    requires room { steps_of lines.old.items + 1 < 18446744073709551616 }
    ensures counted { lines.new.items ≡ changed (seen listing.entry) address stepped lines.old.items }
    ensures sum { steps_of lines.new.items ≤ steps_of lines.old.items + 1 }
    ensures length { length lines.new.items ≡ length lines.old.items }
{
    let Some(line) = listing.line_at(address) else {
        return;
    };
    let old = lines[line - 1];
    lines[line - 1] = Tallied {
        steps: old.steps + 1,
        begins: old.begins,
    };
}

/// Notes that a function begins in the line of an address.
#[tactic(auto, using(crate::proofs::Tallies::changed_none, crate::proofs::Tallies::sum_kept))]
fn begin(listing: Listing<'_>, lines: &mut Vec<Tallied>, address: u32)
    requires each { length lines.old.items + 1 ≡ length (seen listing).addresses }
    ensures begun { lines.new.items ≡ changed (seen listing.entry) address entered lines.old.items }
    ensures sum { steps_of lines.new.items ≡ steps_of lines.old.items }
    ensures length { length lines.new.items ≡ length lines.old.items }
{
    let Some(line) = listing.line_at(address) else {
        return;
    };
    let old = lines[line - 1];
    lines[line - 1] = Tallied {
        steps: old.steps,
        begins: true,
    };
}

/// Returns whether a step enters a function or a handler.
fn is_entry(turn: Turn) -> bool
    ensures { result ≡ spec.is_entry turn }
{
    matches!(turn, Turn::Enters(_))
}

impl<'a> Tally<'a> {
    /// Returns what is counted of a run before its first step, which begins at an address.
    #[tactic(auto, using(crate::proofs::Tallies::none_sum))]
    pub(crate) fn new(
        alloc: Global,
        listing: Listing<'a>,
        address: u32,
    ) -> Result<Tally<'a>, NoMemory>
        ensures { IfOk result (λ t. t ≡ none_counted (seen listing.entry) address) }
    {
        let mut lines = Vec::new(alloc);
        let nothing = Tallied {
            steps: 0,
            begins: false,
        };
        lines.resize(listing.len(), nothing)?;
        begin(listing, &mut lines, address);
        Ok(Tally {
            listing,
            lines,
            steps: 0,
            has_halted: false,
        })
    }
}

impl Follower for Tally<'_> {
    ghost follows = { tally_after };

    ghost steps = { λ t. t.steps };

    #[tactic(auto, unfolding(crate::specs::Support::Tallies::tally_after))]
    fn add(
        &mut self,
        _: Global,
        address: u32,
        turn: Turn,
        now: &BootedBoard,
    ) -> Result<(), NoMemory> {
        count(self.listing, &mut self.lines, address);
        if is_entry(turn) {
            begin(self.listing, &mut self.lines, now.pc());
        }
        self.steps += 1;
        self.has_halted = self.has_halted || now.halted().is_some();
        Ok(())
    }
}
