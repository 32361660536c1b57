//! Spans of bytes: the region of an entry, and the parts of spans.
ghost use Rattle.std.specs.Prelude.{◌≡◌, ◌+◌, ◌<◌, ◌≤◌, ◌^◌};
ghost use Rattle.rv_pmp.specs.Entry as ones;
ghost use Rattle.rv_pmp.specs.Support.WidestSpan as spec;
ghost use Rattle.rv_pmp.specs.Support.Span.{is_between, holds, meets, span_of};

use crate::entry::{Entry, Matching};

/// The bytes from `first` up to but not including `end`.
#[derive(Clone, Copy)]
pub struct Span {
    pub first: u64,
    pub end: u64,
}

impl Span {
    /// No bytes.
    pub(crate) const NO_BYTES: Span = Span { first: 0, end: 0 };

    /// The bytes below the greatest end, more than there are addresses.
    pub(crate) const ALL_BYTES: Span = Span {
        first: 0,
        end: u64::MAX,
    };

    /// Computes the region of an entry, where `lower` is the address register of the entry before.
    #[tactic(auto, unfolding(crate::specs::Support::Span::span_of), using(crate::proofs::TrailingOnes::napot_span))]
    pub(crate) fn of(lower: u32, entry: Entry) -> Span
        ensures { result ≡ span_of lower entry }
    {
        let address = entry.address as u64;
        match entry.matching {
            Matching::Off => Span::NO_BYTES,
            Matching::Tor => {
                if lower < entry.address {
                    Span {
                        first: 4 * lower as u64,
                        end: 4 * address,
                    }
                } else {
                    Span::NO_BYTES
                }
            }
            Matching::Na4 => Span {
                first: 4 * address,
                end: 4 * address + 4,
            },
            Matching::Napot => {
                let ones = trailing_ones(entry.address);
                let first = 4 * (address + 1 - (1 << ones));
                Span {
                    first,
                    end: first + (1 << (ones + 3)),
                }
            }
        }
    }

    /// Whether a byte of the span is among those from `first` up to but not including `end`.
    pub(crate) fn meets(&self, first: u64, end: u64) -> bool
        ensures { result ≡ meets self.now first end }
    {
        self.first < end && first < self.end
    }

    /// Whether all bytes from `first` up to but not including `end` are in the span.
    #[inline(always)]
    pub(crate) fn holds(&self, first: u64, end: u64) -> bool
        ensures { result ≡ holds self.now first end }
    {
        self.first <= first && end <= self.end
    }

    /// Whether the byte at an address is in the span.
    pub(crate) fn has(self, addr: u64) -> bool
        ensures value { result ≡ is_between self.first self.end addr }
        ensures small { self.end < 2 ^ 64 }
    {
        self.first <= addr && addr < self.end
    }

    /// Returns the bytes that are in both spans.
    pub(crate) fn intersection(self, other: Span) -> Span
        ensures { result ≡ spec.intersection self other }
    {
        Span {
            first: self.first.max(other.first),
            end: self.end.min(other.end),
        }
    }

    /// Returns the part of this span that has `addr` and ends at `other`, a span without `addr`.
    pub(crate) fn part_beside(self, other: Span, addr: u64) -> Span
        ensures { result ≡ spec.part_beside self other addr }
    {
        if other.end <= addr {
            Span {
                first: self.first.max(other.end),
                end: self.end,
            }
        } else {
            Span {
                first: self.first,
                end: self.end.min(other.first),
            }
        }
    }
}

/// Counts the lowest bits that are ones, up to the first zero.
#[tactic(auto, using(crate::proofs::TrailingOnes::counting))]
fn trailing_ones(number: u32) -> u32
    ensures value { result ≡ ones.trailing_ones number }
    ensures at_most { result ≤ 32 }
    ensures below { 2 ^ result ≤ number + 1 }
{
    number.trailing_ones()
}
