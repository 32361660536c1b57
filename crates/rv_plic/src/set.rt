//! Sets of sources.
ghost use Rattle.std.specs.Prelude.{◌≡◌, ◌<◌, ◌↔◌, IsTrue, if◌then◌else◌};
ghost use Rattle.std.specs.FinSet as set;
ghost use Rattle.rv_plic.specs.Sources.{sources_of, word_of};

use crate::Source;
use std::marker::Model;

/// A set of sources, kept as the word whose bit s is 1 for each source s of the set.
#[tactic(auto, using(crate::proofs::Words::words))]
#[derive(Clone, Copy)]
pub struct SourceSet {
    word: u32,
}

impl Model for SourceSet {
    ghost use Rattle.std.specs.Coded.{coded_ℕ};
    ghost use Rattle.std.specs.FinSet as set;
    ghost use Rattle.rv_plic.specs.Sources.{Sources, sources_of, word_of};
    ghost use Rattle.rv_plic.specs.Support.Words.{IsSourceWord, word_of-sources_of};

    ghost Value = { Sources };

    ghost coded = { set.code coded_ℕ };

    ghost view = { λ s. sources_of s.word };

    ghost invariant = { λ s. IsSourceWord s.word };

    ghost inverse = { λ s. record { word = word_of s } };

    ghost inverse_ok = { λ s h i. record { word = word_of-sources_of s.word h i } };
}

#[tactic(auto, using(crate::proofs::Words::words))]
impl SourceSet {
    /// Returns the empty set.
    pub fn new() -> SourceSet
        ensures { result ≡ set.empty }
    {
        SourceSet { word: 0 }
    }

    /// Returns the sources whose bit is 1 in `word`. Bit 0 is ignored, since there is no source 0.
    pub fn from_word(word: u32) -> SourceSet
        ensures { result ≡ sources_of word }
    {
        SourceSet { word: word & !1 }
    }

    /// Returns the word whose bit s is 1 for each source s of the set.
    pub fn word(&self) -> u32
        ensures { result ≡ word_of self.now }
    {
        self.word
    }

    /// Returns whether the set has no source.
    pub fn is_empty(&self) -> bool
        ensures { IsTrue result ↔ (self.now ≡ set.empty) }
    {
        self.word == 0
    }

    /// Returns whether the set has the source with number `number`.
    pub fn contains(&self, number: u32) -> bool
        ensures value { result ≡ set.contains self.now number }
        ensures range { IsTrue result → (0 < number) × (number < 32) }
    {
        number < 32 && (self.word >> number) & 1 == 1
    }

    /// Returns the source with number `number`, if the set has it.
    pub fn get(&self, number: u32) -> Option<Source>
        ensures { result ≡ (if set.contains self.now number then Some number else None) }
    {
        if self.contains(number) {
            Source::new(number as u8)
        } else {
            None
        }
    }

    /// Adds a source to the set.
    pub fn insert(&mut self, source: Source)
        ensures { self.new ≡ set.insert self.old source }
    {
        self.word |= 1 << source.number();
    }

    /// Removes a source from the set.
    pub fn remove(&mut self, source: Source)
        ensures { self.new ≡ set.remove self.old source }
    {
        self.word &= !(1 << source.number());
    }

    /// Returns the sources of either set.
    pub fn union(&self, other: SourceSet) -> SourceSet
        ensures { result ≡ set.union self.now other }
    {
        SourceSet {
            word: self.word | other.word,
        }
    }

    /// Returns the sources of both sets.
    pub fn intersection(&self, other: SourceSet) -> SourceSet
        ensures { result ≡ set.intersection self.now other }
    {
        SourceSet {
            word: self.word & other.word,
        }
    }

    /// Returns the sources of this set that aren't in `other`.
    pub fn difference(&self, other: SourceSet) -> SourceSet
        ensures { result ≡ set.difference self.now other }
    {
        SourceSet {
            word: self.word & !other.word,
        }
    }
}
