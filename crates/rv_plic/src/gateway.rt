//! Interrupt gateways, which turn the lines of sources into requests.
ghost use Rattle.std.specs.Prelude.{◌≡◌, ◌^◌, ◌<◌, All};
ghost use Rattle.std.specs.FinSet as set;
ghost use Rattle.rv_plic.specs.Gateways.{asking_sources, edges_of};
ghost use Rattle.rv_plic.specs.Support.Changes.{changed, count_after};
ghost use Rattle.rv_plic.specs.Support.GatewayState.{all_low, asks, gateways_with_line, gateway_requests, after_requests, after_completion, withdrawn_gateways};

use crate::Source;
use crate::edges::{Change, Edges, is_by_edge};
use crate::set::SourceSet;
use std::marker::Model;

/// The gateways of all sources: the sources whose line is high, those with an outstanding request, and the
/// pending edges.
#[derive(Clone, Copy)]
pub struct Gateways {
    high: SourceSet,
    outstanding: SourceSet,
    edges: Edges,
    /// The sources that ask for a request, by a pending edge or by their level: kept, so that a tick reads no
    /// counts.
    asking: SourceSet,
}

impl Model for Gateways {
    ghost use Rattle.std.specs.Prelude.{◌≡◌};
    ghost use Rattle.rv_plic.specs.Support.Codes.{gateway_code};
    ghost use Rattle.rv_plic.specs.Gateways.{asking_sources};
    ghost use Rattle.rv_plic.specs.Support.GatewayState.{GatewayState};

    ghost Value = { GatewayState };

    ghost coded = { gateway_code };

    ghost view = { λ g. record { high = g.high; outstanding = g.outstanding; edges = g.edges } };

    ghost invariant = { λ g. asking_sources g.high g.edges ≡ g.asking };

    ghost inverse = { λ g. record {
      high = g.high;
      outstanding = g.outstanding;
      edges = g.edges;
      asking = asking_sources g.high g.edges;
    } };

    ghost inverse_ok = { λ g h i. record {
      high = g.high;
      outstanding = g.outstanding;
      edges = g.edges;
      asking = h i;
    } };
}

impl Gateways {
    /// Returns the gateways at reset: all lines low, no edge pending and no request outstanding.
    #[tactic(auto, using(crate::proofs::AskingSources::none_asks))]
    pub fn new() -> Gateways
        ensures { result ≡ all_low }
    {
        Gateways {
            high: SourceSet::new(),
            outstanding: SourceSet::new(),
            edges: Edges::new(),
            asking: SourceSet::new(),
        }
    }

    /// Returns how many edges of a source are pending.
    pub fn edges(&self, source: Source) -> u32
        ensures { result ≡ edges_of self.now.edges source }
    {
        self.edges.count(source)
    }

    /// Says that each count of pending edges has 32 bits, and does nothing.
    pub fn counts_are_words(&self)
        ensures { All (λ n. n < 2 ^ 32) self.now.edges }
    {
        self.edges.are_words();
    }

    /// Returns whether the line of a source is high.
    pub fn is_high(&self, source: Source) -> bool
        ensures { result ≡ set.contains self.now.high source }
    {
        self.high.contains(source.number() as u32)
    }

    /// Returns whether a request of a source is outstanding.
    pub fn is_outstanding(&self, source: Source) -> bool
        ensures { result ≡ set.contains self.now.outstanding source }
    {
        self.outstanding.contains(source.number() as u32)
    }

    /// Sets the level of a source's line. A rise of one of the sources 24 to 31 is counted as a pending edge.
    pub fn set_line(&mut self, source: Source, high: bool)
        ensures { self.new ≡ gateways_with_line self.old source high }
    {
        if is_by_edge(source) && high && !self.is_high(source) {
            let count = self.edges.count(source);
            self.edges.set(source, Change::OneMore.apply(count));
        }
        if high {
            self.high.insert(source);
        } else {
            self.high.remove(source);
        }
        self.asking = asking(self.high, &self.edges);
    }

    /// Returns the sources whose gateways have a request to forward, where those of `pending` are pending
    /// already.
    pub fn requests(&self, pending: SourceSet) -> SourceSet
        ensures { result ≡ gateway_requests self.now pending }
    {
        self.asking.difference(self.outstanding).difference(pending)
    }

    /// Forwards the request of each gateway that has one, where the sources of `pending` are pending already,
    /// and returns the sources of these requests.
    #[tactic(auto, using(crate::proofs::Counts::less_taken))]
    pub fn forward(&mut self, pending: SourceSet) -> SourceSet
        ensures value { result ≡ gateway_requests self.old pending }
        ensures after { self.new ≡ after_requests self.old pending }
    {
        let requests = self.requests(pending);
        self.outstanding = self.outstanding.union(requests);
        self.change_counts(requests, Change::OneLess);
        requests
    }

    /// Undoes the forwarding of these sources' requests.
    #[tactic(auto, using(crate::proofs::Counts::more_given))]
    pub fn withdraw(&mut self, requests: SourceSet)
        ensures { self.new ≡ withdrawn_gateways self.old requests }
    {
        self.outstanding = self.outstanding.difference(requests);
        self.change_counts(requests, Change::OneMore);
    }

    /// Completes the request of a source, so that its gateway may forward another.
    pub fn complete(&mut self, source: Source)
        ensures { self.new ≡ after_completion self.old source }
    {
        self.outstanding.remove(source);
    }

    /// Changes the count of pending edges of each of these sources that is triggered by edges.
    fn change_counts(&mut self, sources: SourceSet, change: Change)
        ensures { self.new ≡ record self.old { edges = changed (count_after change) sources 24 self.old.edges } }
    {
        self.edges.change(sources, change);
        self.asking = asking(self.high, &self.edges);
    }
}

/// Whether a source asks for a request: by a pending edge if it is triggered by edges, or else by its level.
#[tactic(auto, unfolding(crate::specs::Support::GatewayState::asks))]
fn asks(high: SourceSet, edges: &Edges, source: Source) -> bool
    ensures { result ≡ asks high edges.now source }
{
    if is_by_edge(source) {
        return edges.count(source) > 0;
    }
    high.contains(source.number() as u32)
}

/// Returns the sources that ask for a request.
#[tactic(auto, using(crate::proofs::Those::none_yet))]
fn asking(high: SourceSet, edges: &Edges) -> SourceSet
    ensures { result ≡ asking_sources high edges.now }
{
    let mut asking = SourceSet::new();
    for number in 1..32u8 {
        let source = Source::of(number);
        if asks(high, edges, source) {
            asking.insert(source);
        }
    }
    asking
}
