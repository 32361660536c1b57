//! Pending edges: rises of lines that have not been forwarded as requests yet.
ghost use Rattle.std.specs.Prelude.{◌≡◌, ◌-◌, ◌^◌, ◌<◌, ◌≤◌, All, slice_set};
ghost use Rattle.rv_plic.specs.Gateways.{is_by_edge, edges_of};
ghost use Rattle.rv_plic.specs.Support.Changes.{changed, count_after};
ghost use Rattle.rv_plic.specs.Support.GatewayState.{none_waits};

use crate::Source;
use crate::set::SourceSet;
use std::marker::Model;

/// The number of the first source that is triggered by edges.
const FIRST: u8 = 24;

/// The number of pending edges of each source that is triggered by edges.
#[derive(Clone, Copy)]
pub struct Edges {
    counts: [u32; 8],
}

impl Model for Edges {
    ghost use Rattle.std.specs.Prelude.{◌≡◌, length};
    ghost use Rattle.rv_plic.specs.Support.GatewayState.{Edges};

    ghost Value = { Edges };

    ghost view = { λ e. e.counts };

    ghost invariant = { λ e. length e.counts ≡ 8 };

    ghost inverse = { λ counts. record { counts = counts } };
}

/// Returns whether a source is triggered by edges, as 24 to 31 are, and not by its level.
pub fn is_by_edge(source: Source) -> bool
    ensures { result ≡ is_by_edge source }
{
    source.number() >= FIRST
}

impl Edges {
    /// Returns the counts with no edge pending.
    pub fn new() -> Edges
        ensures { result ≡ none_waits }
    {
        Edges { counts: [0; 8] }
    }

    /// Returns how many edges of a source are pending, which is 0 for one that is triggered by its level.
    pub fn count(&self, source: Source) -> u32
        ensures { result ≡ edges_of self.now source }
    {
        if is_by_edge(source) {
            self.counts[(source.number() - FIRST) as usize]
        } else {
            0
        }
    }

    /// Says that each count has 32 bits, and does nothing.
    pub fn are_words(&self)
        ensures { All (λ n. n < 2 ^ 32) self.now }
    {
        are_words(&self.counts);
    }

    /// Sets how many edges of a source are pending.
    pub fn set(&mut self, source: Source, count: u32)
        requires by_edge { 24 ≤ source }
        ensures { self.new ≡ slice_set self.old (source - 24) count }
    {
        self.counts[(source.number() - FIRST) as usize] = count;
    }

    /// Changes the count of pending edges of each of these sources that is triggered by edges.
    pub fn change(&mut self, sources: SourceSet, change: Change)
        ensures { self.new ≡ changed (count_after change) sources 24 self.old }
    {
        change_counts(&mut self.counts, sources, change);
    }
}

/// Changes the count of each of these sources, of which the first count is that of source 24.
#[tactic(auto, using(crate::proofs::Counts::changing))]
fn change_counts(counts: &mut [u32; 8], sources: SourceSet, change: Change)
    ensures { counts.new ≡ changed (count_after change) sources 24 counts.old }
{
    for index in 0..8usize {
        if sources.contains(FIRST as u32 + index as u32) {
            counts[index] = change.apply(counts[index]);
        }
    }
}

/// A change of a count of pending edges.
#[derive(Clone, Copy)]
pub enum Change {
    /// One edge more, unless the count is full.
    OneMore,
    /// One edge less, unless the count is 0.
    OneLess,
}

impl Change {
    /// Returns the count after the change.
    pub fn apply(self, count: u32) -> u32
        ensures { result ≡ count_after self count }
    {
        match self {
            Change::OneMore => count.saturating_add(1),
            Change::OneLess => count.saturating_sub(1),
        }
    }
}

/// Says that each number of a slice has 32 bits, and does nothing.
fn are_words(numbers: &[u32])
    ensures { All (λ n. n < 2 ^ 32) numbers.now }
{}
