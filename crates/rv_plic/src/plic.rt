//! The interrupt controller.
ghost use Rattle.std.specs.Prelude.{◌≡◌, ◌%◌, ◌^◌, ◌<◌, ◌&&◌, nat_lt, All, slice_index, slice_set, unwrap_or};
ghost use Rattle.std.specs.FinSet as set;
ghost use Rattle.rv_plic.specs.Support.AboveThreshold.{sources_above};
ghost use Rattle.rv_plic.specs.Support.Best.{IsBest, IsBestBelow};
ghost use Rattle.rv_plic.specs.Gateways.{PlicState, edges_of, plic_at_reset, with_line, forwarded};
ghost use Rattle.rv_plic.specs.Gateways as spec;
ghost use Rattle.rv_plic.specs.Plic.{best, is_notified, claimed, completed, plic_register};
ghost use Rattle.rv_plic.specs.Support.Registers.{word_at, with_word};
ghost use Rattle.rv_plic.specs.Withdrawn.{withdrawn};

use crate::Source;
use crate::gateway::Gateways;
use crate::register::PlicReg;
use crate::set::SourceSet;
use std::marker::Model;

/// The platform-level interrupt controller: 31 sources and one context.
#[derive(Clone, Copy)]
pub struct Plic {
    gateways: Gateways,
    pending: SourceSet,
    enabled: SourceSet,
    priorities: [u8; 32],
    threshold: u8,
    /// The sources whose priority is above the threshold: kept, so that `external` looks at no priorities.
    above: SourceSet,
    /// The sources whose gateways have a request to forward: kept, so that a tick only tests whether there
    /// are any.
    ready: SourceSet,
}

impl Model for Plic {
    ghost use Rattle.std.specs.Prelude.{◌≡◌};
    ghost use Rattle.rv_plic.specs.Support.AboveThreshold.{sources_above};
    ghost use Rattle.rv_plic.specs.Support.Codes.{plic_code};
    ghost use Rattle.rv_plic.specs.Gateways.{PlicState, requests};
    ghost use Rattle.rv_plic.specs.Support.GatewayState.{gateways_of, gateway_requests};

    ghost Value = { PlicState };

    ghost coded = { plic_code };

    ghost view = { λ p. record {
      high = p.gateways.high;
      edges = p.gateways.edges;
      outstanding = p.gateways.outstanding;
      pending = p.pending;
      enabled = p.enabled;
      priorities = p.priorities;
      threshold = p.threshold;
    } };

    ghost invariant = { λ p. (gateway_requests p.gateways p.pending ≡ p.ready) × (sources_above p.priorities p.threshold ≡ p.above) };

    ghost inverse = { λ p. record {
      gateways = gateways_of p;
      pending = p.pending;
      enabled = p.enabled;
      priorities = p.priorities;
      threshold = p.threshold;
      above = sources_above p.priorities p.threshold;
      ready = requests p;
    } };

    ghost inverse_ok = { λ p h i. record {
      gateways = p.gateways;
      pending = p.pending;
      enabled = p.enabled;
      priorities = p.priorities;
      threshold = p.threshold;
      above = h.1 i;
      ready = h.0 i;
    } };
}

impl Plic {
    /// Returns the controller at reset: all lines low, nothing pending or enabled, all priorities and the
    /// threshold 0.
    #[tactic(auto, using(crate::proofs::Forwarding::none_at_reset, crate::proofs::AboveThreshold::none_above))]
    pub fn new() -> Plic
        ensures { result ≡ plic_at_reset }
    {
        Plic {
            gateways: Gateways::new(),
            pending: SourceSet::new(),
            enabled: SourceSet::new(),
            priorities: [0; 32],
            threshold: 0,
            above: SourceSet::new(),
            ready: SourceSet::new(),
        }
    }

    /// Sets the level of a source's line. A rise of one of the sources 24 to 31 is counted as a pending edge;
    /// nothing else changes before the next `forward`.
    pub fn set_line(&mut self, source: Source, high: bool)
        ensures { self.new ≡ with_line self.old source high }
    {
        self.gateways.set_line(source, high);
        self.ready = self.gateways.requests(self.pending);
    }

    /// Returns how many edges of a source are pending: the rises of its line that have not been forwarded
    /// yet. It is 0 for the sources 1 to 23, which are triggered by their level.
    pub fn edges(&self, source: Source) -> u32
        ensures { result ≡ edges_of self.now.edges source }
    {
        self.gateways.edges(source)
    }

    /// Returns whether the line of a source is high.
    pub fn is_high(&self, source: Source) -> bool
        ensures { result ≡ set.contains self.now.high source }
    {
        self.gateways.is_high(source)
    }

    /// Returns whether a request of a source is outstanding: forwarded, and not completed yet. It is pending
    /// until it is claimed.
    pub fn is_outstanding(&self, source: Source) -> bool
        ensures { result ≡ set.contains self.now.outstanding source }
    {
        self.gateways.is_outstanding(source)
    }

    /// Returns the sources whose gateways have a request to forward. Each count of pending edges has 32 bits.
    pub fn ready(&self) -> SourceSet
        ensures requests { result ≡ spec.requests self.now }
        ensures words { All (λ n. n < 2 ^ 32) self.now.edges }
    {
        self.gateways.counts_are_words();
        self.ready
    }

    /// Forwards the request of each gateway that has one: its source becomes pending.
    #[tactic(auto, using(crate::proofs::Forwarding::none_forwarded))]
    pub fn forward(&mut self)
        ensures { self.new ≡ forwarded self.old }
    {
        if self.ready.is_empty() {
            return;
        }
        self.forward_ready();
    }

    /// Forwards all requests. Out of line, since few ticks find one.
    #[cold]
    #[inline(never)]
    #[tactic(auto, unfolding(crate::specs::Support::GatewayState::taken))]
    fn forward_ready(&mut self)
        ensures { self.new ≡ forwarded self.old }
    {
        let requests = self.gateways.forward(self.pending);
        self.pending = self.pending.union(requests);
        self.ready = self.gateways.requests(self.pending);
    }

    /// Undoes the forwarding of these sources' requests: they are neither pending nor outstanding then, and
    /// each that is triggered by edges has one pending edge more. Each count of pending edges before the
    /// forwarding had 32 bits, which `ready` says of a state.
    #[tactic(auto, using(crate::proofs::Forwarding::withdrawn_forwarded))]
    pub fn withdraw(&mut self, requests: SourceSet)
        ensures after { self.new ≡ withdrawn self.old requests }
        ensures undoes { (before : PlicState) → All (λ n. n < 2 ^ 32) before.edges → self.old ≡ forwarded before
            → requests ≡ spec.requests before → self.new ≡ before }
    {
        self.gateways.withdraw(requests);
        self.pending = self.pending.difference(requests);
        self.ready = self.gateways.requests(self.pending);
    }

    /// Loads the word at an offset. A load of the claim register claims the best source. Where there is no
    /// register, a load returns 0.
    #[tactic(auto, using(crate::proofs::Rows::accesses))]
    pub fn load(&mut self, off: u32) -> u32
        requires aligned { off % 4 ≡ 0 }
        requires within { off < 0x4000000 }
        ensures value { result ≡ (plic_register off).word self.old }
        ensures after { self.new ≡ (plic_register off).loaded self.old }
    {
        match PlicReg::at(off) {
            Some(PlicReg::Claim) => self.claim(),
            Some(reg) => self.read(reg),
            None => 0,
        }
    }

    /// Returns the word that a load at an offset would return, and claims nothing.
    #[tactic(auto, using(crate::proofs::Rows::accesses))]
    pub fn peek(&self, off: u32) -> u32
        requires aligned { off % 4 ≡ 0 }
        requires within { off < 0x4000000 }
        ensures { result ≡ (plic_register off).word self.now }
    {
        match PlicReg::at(off) {
            Some(reg) => self.read(reg),
            None => 0,
        }
    }

    /// Stores a word at an offset. Where there is no register, nothing changes.
    #[tactic(auto, using(crate::proofs::Rows::accesses))]
    pub fn store(&mut self, off: u32, word: u32)
        requires aligned { off % 4 ≡ 0 }
        requires within { off < 0x4000000 }
        ensures { self.new ≡ (plic_register off).stored self.old word }
    {
        if let Some(reg) = PlicReg::at(off) {
            self.write(reg, word);
        }
    }

    /// Returns the level of the external interrupt line: whether a pending and enabled source has a priority
    /// above the threshold.
    #[tactic(auto, using(crate::proofs::AboveThreshold::none_notified, crate::proofs::AboveThreshold::some_notified))]
    pub fn external(&self) -> bool
        ensures { result ≡ is_notified self.now }
    {
        let waiting = self.pending.intersection(self.enabled);
        !waiting.intersection(self.above).is_empty()
    }

    /// Sets the priority of a source.
    fn set_priority(&mut self, source: Source, priority: u8)
        ensures { self.new ≡ record self.old { priorities = slice_set self.old.priorities source priority } }
    {
        self.priorities[source.number() as usize] = priority;
        self.above = sources_above(&self.priorities, self.threshold);
    }

    /// Sets the threshold.
    fn set_threshold(&mut self, threshold: u8)
        ensures { self.new ≡ record self.old { threshold = threshold } }
    {
        self.above = sources_above(&self.priorities, threshold);
        self.threshold = threshold;
    }

    /// Returns the word of a register, and claims nothing.
    #[tactic(auto, using(crate::proofs::Best::best_rules))]
    fn read(&self, reg: PlicReg) -> u32
        ensures { result ≡ word_at self.now reg }
    {
        match reg {
            PlicReg::Priority(source) => self.priorities[source.number() as usize] as u32,
            PlicReg::Pending => self.pending.word(),
            PlicReg::Enables => self.enabled.word(),
            PlicReg::Threshold => self.threshold as u32,
            PlicReg::Claim => self.best().map_or(0, |source| source.number() as u32),
        }
    }

    /// Stores a word in a register.
    fn write(&mut self, reg: PlicReg, word: u32)
        ensures { self.new ≡ with_word self.old reg word }
    {
        match reg {
            PlicReg::Priority(source) => self.set_priority(source, (word % 8) as u8),
            PlicReg::Pending => (),
            PlicReg::Enables => self.enabled = SourceSet::from_word(word),
            PlicReg::Threshold => self.set_threshold((word % 8) as u8),
            PlicReg::Claim => self.complete(word),
        }
    }

    /// Claims the best source, which is no longer pending then, and returns its number, or 0 if there is
    /// none.
    #[tactic(auto, using(crate::proofs::Best::best_rules))]
    fn claim(&mut self) -> u32
        ensures value { result ≡ unwrap_or (best self.old) 0 }
        ensures after { self.new ≡ claimed self.old }
    {
        match self.best() {
            Some(source) => {
                self.pending.remove(source);
                self.ready = self.gateways.requests(self.pending);
                source.number() as u32
            }
            None => 0,
        }
    }

    /// Completes the source whose number is `word`. Does nothing unless such a source is enabled.
    fn complete(&mut self, word: u32)
        ensures { self.new ≡ completed self.old word }
    {
        if let Some(source) = self.enabled.get(word) {
            self.gateways.complete(source);
            self.ready = self.gateways.requests(self.pending);
        }
    }

    /// Returns the best source: of the pending and enabled ones with a priority above 0 the one with the
    /// highest priority, and of equal priorities the one with the lowest number.
    #[tactic(auto, using(crate::proofs::Best::best_rules))]
    fn best(&self) -> Option<Source>
        ensures { IsBest self.now result }
    {
        let waiting = self.pending.intersection(self.enabled);
        if waiting.is_empty() {
            return None;
        }
        highest(waiting, &self.priorities)
    }
}

/// Returns the sources whose priority is above a threshold.
#[tactic(auto, using(crate::proofs::Those::none_yet))]
fn sources_above(priorities: &[u8; 32], threshold: u8) -> SourceSet
    ensures { result ≡ sources_above priorities.now threshold }
{
    let mut above = SourceSet::new();
    for number in 1..32u8 {
        let source = Source::of(number);
        if priorities[source.number() as usize] > threshold {
            above.insert(source);
        }
    }
    above
}

/// Returns the source of a set with the highest priority, and of equal priorities the one with the lowest
/// number. Sources of priority 0 are left out.
fn highest(waiting: SourceSet, priorities: &[u8; 32]) -> Option<Source>
    ensures { IsBestBelow 32 (λ s. set.contains waiting s && nat_lt 0 (slice_index priorities.now s))
        (slice_index priorities.now) result }
{
    let mut best = None;
    let mut priority = 0;
    for number in 1..32u8 {
        let other = priorities[number as usize];
        if let Some(source) = waiting.get(number as u32)
            && other > priority
        {
            best = Some(source);
            priority = other;
        }
    }
    best
}
