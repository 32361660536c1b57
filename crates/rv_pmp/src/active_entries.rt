//! The entries that match addresses: the only ones that an access has to ask.
ghost use Rattle.std.specs.Prelude.{◌≡◌, ◌<◌, ◌∷◌, ◌++◌, [], length};
ghost use Rattle.rv_pmp.specs.declared.pmp.TheConstants.{ENTRIES};
ghost use Rattle.rv_pmp.specs.Support.WidestSpan as spec;
ghost use Rattle.rv_pmp.specs.Support.ActiveEntries.{entry_answer, active_of, actives_from};

use crate::entry::Entry;
use crate::pmp::ENTRIES;
use crate::span::Span;
use crate::{Access, Mode};
use std::marker::Model;

/// An entry that matches addresses, with the span of its region.
#[derive(Clone, Copy)]
pub(crate) struct ActiveEntry {
    entry: Entry,
    pub(crate) span: Span,
}

impl ActiveEntry {
    /// Fills the places of `ActiveEntries` that are not used.
    const NONE: ActiveEntry = ActiveEntry {
        entry: Entry::OFF,
        span: Span::NO_BYTES,
    };

    /// Computes the span of an entry, where `lower` is the address register of the entry before.
    fn of(lower: u32, entry: Entry) -> ActiveEntry
        ensures { result ≡ active_of lower entry }
    {
        ActiveEntry {
            entry,
            span: Span::of(lower, entry),
        }
    }

    /// Returns whether the entry grants the bytes from `first` up to but not including `end`, or None if it
    /// has none of them.
    pub(crate) fn answer(&self, mode: Mode, access: Access, first: u64, end: u64) -> Option<bool>
        ensures { result ≡ entry_answer mode access first end self.now }
    {
        if !self.span.meets(first, end) {
            return None;
        }
        Some(self.span.holds(first, end) && self.entry.grants(mode, access))
    }

    /// Returns the part of `free`, the bytes that no entry before has, in which this entry grants user mode
    /// the access.
    pub(crate) fn permitted_part(&self, access: Access, free: Span) -> Span
        ensures { result ≡ spec.permitted_part self.now access free }
    {
        if self.entry.bit(access) {
            free.intersection(self.span)
        } else {
            Span::NO_BYTES
        }
    }
}

/// The entries that match addresses, in their order.
#[derive(Drop)]
pub(crate) struct ActiveEntries {
    items: [ActiveEntry; ENTRIES],
    count: usize,
}

impl Model for ActiveEntries {
    ghost use Rattle.std.specs.Prelude.{◌≤◌, List, take};
    ghost use Rattle.rv_pmp.specs.declared.pmp.TheConstants.{ENTRIES};
    ghost use Rattle.rv_pmp.specs.declared.active_entries.ActiveEntry.{ActiveEntry};

    ghost Value = { List ActiveEntry };

    ghost view = { λ a. take a.count a.items };

    ghost invariant = { λ a. a.count ≤ ENTRIES };
}

impl ActiveEntries {
    /// Creates an empty list.
    pub(crate) fn new() -> ActiveEntries
        ensures { result ≡ [] }
    {
        ActiveEntries {
            items: [ActiveEntry::NONE; ENTRIES],
            count: 0,
        }
    }

    /// Selects the entries that match addresses.
    #[tactic(auto, using(crate::proofs::ActiveEntries::no_more))]
    pub(crate) fn of(entries: &[Entry; ENTRIES]) -> ActiveEntries
        ensures { result ≡ actives_from 0 entries.now }
    {
        let mut actives = ActiveEntries::new();
        let mut lower = 0;
        for place in 0..ENTRIES {
            let entry = entries[place];
            if entry.is_on() {
                actives.push(ActiveEntry::of(lower, entry));
            }
            lower = entry.address;
        }
        actives
    }

    /// Appends an entry.
    #[tactic(auto, using(crate::proofs::ActiveEntries::take_push))]
    fn push(&mut self, active: ActiveEntry)
        requires { length self.old < ENTRIES }
        ensures { self.new ≡ self.old ++ active ∷ [] }
    {
        self.items[self.count] = active;
        self.count += 1;
    }

    /// Returns the entries as a slice.
    pub(crate) fn as_slice(&self) -> &[ActiveEntry]
        ensures { result.now ≡ self.now }
    {
        &self.items[..self.count]
    }
}
