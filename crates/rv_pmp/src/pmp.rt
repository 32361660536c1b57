//! The registers of protection, and what they grant.
ghost use Rattle.std.specs.Prelude.{◌≡◌, All, IsTrue, ℕ, ◌+◌, ◌-◌, ◌^◌, ◌<◌, ◌≤◌, ◌&&◌, find, nat_le, nat_lt, true, replicate, Some, None, MatchOption};
ghost use Rattle.std.specs.List.{list_any, range_with_len};
ghost use Rattle.rv_isa.specs.Width.{bytes_of};
ghost use Rattle.rv_isa.specs.declared.op.Width.{Width};
ghost use Rattle.rv_pmp.specs.Support.ActiveEntries.{AllReadable, some_on, some_locked, actives_from, decision};
ghost use Rattle.rv_pmp.specs.Pmp.{PmpState, entry_at, grants, lower_of, matches, read_register, write_register, off_entry};
ghost use Rattle.rv_pmp.specs.Support.Registers.{config_at, with_config, with_address, with_word, starts_locked};
ghost use Rattle.rv_pmp.specs.Support.Registers as spec;
ghost use Rattle.rv_pmp.specs.Support.WidestSpan.{AreForward, IsWidestSpan};
ghost use Rattle.rv_pmp.specs.Support.PermissionCache.{IsGranted, IsWidest, IsWidestOrNone};
ghost use Rattle.rv_pmp.specs.declared.access.Access.{Access};
ghost use Rattle.rv_pmp.specs.declared.mode.Mode.{Mode};
ghost use Rattle.rv_pmp.specs.declared.mode.Mode.TheVariants.{User};

use crate::active_entries::{ActiveEntries, ActiveEntry};
use crate::entry::Entry;
use crate::permission_cache::PermissionCache;
use crate::register::PmpRegister;
use crate::span::Span;
use crate::{Access, Mode};
use rv_isa::Width;
use std::marker::Model;

/// The number of entries.
pub(crate) const ENTRIES: usize = 16;

/// The registers of physical memory protection.
///
/// What most accesses need is computed when a register is written: the entries that match addresses, with the
/// spans of their regions, and whether any entry is on or locked. The permission cache answers most accesses
/// of user mode.
#[derive(Drop)]
pub struct Pmp {
    entries: [Entry; ENTRIES],
    actives: ActiveEntries,
    any_on: bool,
    any_locked: bool,
    permissions: PermissionCache,
}

impl Model for Pmp {
    ghost use Rattle.rv_pmp.specs.Pmp.{PmpState};
    ghost use Rattle.rv_pmp.specs.Support.ActiveEntries.{IsConsistent};

    ghost Value = { PmpState };

    ghost view = { λ p. record { entries = p.entries } };

    ghost invariant = { λ p. IsConsistent p.entries p.actives p.any_on p.any_locked p.permissions };
}

impl Pmp {
    /// Creates the registers as they are after a reset: all zero, so that no entry protects anything.
    pub fn new() -> Pmp
        ensures reset { result ≡ record { entries = replicate 16 off_entry } }
        ensures readable { All (λ entry. IsTrue entry.writable → IsTrue entry.readable) result.entries }
    {
        Pmp::of([Entry::OFF; ENTRIES])
    }

    /// Returns a copy of the registers.
    pub fn copy(&self) -> Pmp
        ensures { result ≡ self.now }
    {
        Pmp::of(self.entries)
    }

    /// Computes all that is kept beside the entries, with an empty permission cache.
    fn of(entries: [Entry; ENTRIES]) -> Pmp
        requires { AllReadable entries }
        ensures { result ≡ record { entries = entries } }
    {
        Pmp {
            entries,
            actives: ActiveEntries::of(&entries),
            any_on: any_on(&entries),
            any_locked: any_locked(&entries),
            permissions: PermissionCache::new(),
        }
    }

    /// Reads the control register at address `addr`. Returns None if no register of protection is there.
    #[tactic(auto, using(crate::proofs::Registers::loads))]
    pub fn read_csr(&self, addr: u16) -> Option<u32>
        ensures value { result ≡ read_register self.now addr }
    {
        PmpRegister::at(addr).map(|register| self.word(register))
    }

    /// Writes the control register at address `addr`. The registers of a locked entry stay as they are, and
    /// so does the address at which the region of a locked entry begins. Returns None, and changes nothing,
    /// if no register of protection is there.
    #[tactic(auto, using(crate::proofs::Registers::writes))]
    pub fn write_csr(&mut self, addr: u16, value: u32) -> Option<()>
        ensures stored { MatchOption result ((write_register self.old addr value ≡ None) × (self.new ≡ self.old))
            (λ _. write_register self.old addr value ≡ Some self.new) }
        ensures readable { All (λ entry. IsTrue entry.writable → IsTrue entry.readable) self.new.entries }
    {
        let mut entries = self.entries;
        let register = PmpRegister::at(addr)?;
        write_word(&mut entries, register, value);
        *self = Pmp::of(entries);
        Some(())
    }

    /// Returns the value of a register.
    fn word(&self, register: PmpRegister) -> u32
        ensures { result ≡ spec.word_of self.now register }
    {
        match register {
            PmpRegister::Config(first) => {
                let first = first as usize;
                self.config(first) as u32
                    + ((self.config(first + 1) as u32) << 8)
                    + ((self.config(first + 2) as u32) << 16)
                    + ((self.config(first + 3) as u32) << 24)
            }
            PmpRegister::Address(place) => self
                .entries
                .get(place as usize)
                .map_or(0, |entry| entry.address),
        }
    }

    /// Returns the configuration byte of the entry at `place`, or 0 if there is none.
    fn config(&self, place: usize) -> u8
        ensures { result ≡ config_at self.now place }
    {
        self.entries.get(place).map_or(0, |entry| entry.config())
    }

    /// Returns the entry with a number. There are 16, from 0 on; each further one is off.
    #[tactic(auto, using(crate::proofs::Registers::found_entry))]
    pub fn entry(&self, number: usize) -> Entry
        ensures { result ≡ entry_at self.now number }
    {
        self.entries.get(number).map_or(Entry::OFF, |entry| *entry)
    }

    /// Returns the address register of the entry before the one with a number, or 0 before the first.
    #[tactic(auto, using(crate::proofs::Decision::lower_before))]
    fn lower(&self, number: usize) -> u32
        ensures { result ≡ lower_of self.now number }
    {
        match number {
            0 => 0,
            _ => self.entry(number - 1).address,
        }
    }

    /// Returns the bytes that the entry with a number matches. They may go past the last address.
    #[tactic(auto, using(crate::proofs::Decision::matched_span))]
    pub fn span(&self, number: usize) -> Span
        ensures { (byte : ℕ) → matches self.now number byte
            ≡ (nat_le result.first byte && nat_lt byte result.end) }
    {
        Span::of(self.lower(number), self.entry(number))
    }

    /// Whether the entry with a number matches the byte at an address.
    fn matches(&self, number: usize, addr: u32) -> bool
        ensures { result ≡ matches self.now number addr }
    {
        self.span(number).has(addr as u64)
    }

    /// Returns the number of the entry that decides about the byte at an address, if there is one: the first
    /// of the 16 that matches it.
    #[tactic(auto, using(crate::proofs::Decision::none_up_to, crate::proofs::Decision::no_match))]
    pub fn decider(&self, addr: u32) -> Option<usize>
        ensures { result ≡ find (λ n. matches self.now n addr) (range_with_len 0 16) }
    {
        for number in 0..ENTRIES {
            if self.matches(number, addr) {
                return Some(number);
            }
        }
        None
    }

    /// Whether any entry is locked. If none is, machine mode is granted every access at a multiple of its
    /// width.
    pub fn locks(&self) -> bool
        ensures { result ≡ list_any (λ entry. entry.locked) self.now.entries }
    {
        self.any_locked
    }

    /// Whether `mode` is granted access to `width` bytes from address `addr` on, which needn't be aligned.
    #[inline(always)]
    #[tactic(auto, using(crate::proofs::Decision::quick_answers))]
    pub fn allowed(&self, mode: Mode, access: Access, addr: u32, width: Width) -> bool
        ensures { result ≡ grants self.now mode access addr (bytes_of width) }
    {
        if !self.any_on {
            return mode.is_machine();
        }
        self.entries_grant(mode, access, addr, width)
    }

    /// Whether the entries grant the access. Out of line, so that `allowed` stays short for when no entry is
    /// on.
    #[inline(never)]
    #[tactic(auto, using(crate::proofs::Decision::quick_answers))]
    fn entries_grant(&self, mode: Mode, access: Access, addr: u32, width: Width) -> bool
        ensures { result ≡ grants self.now mode access addr (bytes_of width) }
    {
        let bytes = width.bytes();
        if mode.is_machine() && !self.any_locked && addr % 4 + bytes <= 4 {
            return true;
        }
        let first = addr as u64;
        match decide(
            self.actives.as_slice(),
            mode,
            access,
            first,
            first + bytes as u64,
        ) {
            Some(granted) => granted,
            None => mode.is_machine(),
        }
    }

    /// Returns what `allowed` does, by the permission cache. If user mode is granted an access, the cache
    /// keeps the span round it in which user mode is granted all accesses of that kind, so that the next ones
    /// there ask no entry.
    #[inline(always)]
    #[tactic(auto, using(crate::proofs::Widest::granted_within))]
    pub fn admits(&mut self, mode: Mode, access: Access, addr: u32, width: Width) -> bool
        ensures value { result ≡ grants self.old mode access addr (bytes_of width) }
        ensures kept { self.new ≡ self.old }
    {
        match mode {
            Mode::User => {
                let first = addr as u64;
                let end = first + width.bytes() as u64;
                self.permissions.span_for(access).holds(first, end)
                    || self.admits_user(access, addr, width)
            }
            Mode::Machine => self.allowed(mode, access, addr, width),
        }
    }

    /// Returns bytes within which user mode is granted all accesses of a kind: those that the permission
    /// cache keeps, the widest span round the last such access that `admits` computed one for. It has no
    /// bytes where none was computed since a register was written, so it may always have none: a caller asks
    /// `admits` of what is outside of it.
    #[inline(always)]
    #[tactic(auto, using(crate::proofs::Widest::within_granted))]
    pub fn user_span(&self, access: Access) -> Span
        ensures granted { (first : ℕ) (w : Width) → result.first ≤ first → first + bytes_of w ≤ result.end
            → grants self.now User access first (bytes_of w) ≡ true }
        ensures widest { IsWidestOrNone self.now access result }
    {
        self.permissions.span_for(access)
    }

    /// Whether the entries grant user mode the access, which is outside of the span in the permission cache.
    /// Out of line, since few accesses are.
    #[inline(never)]
    #[tactic(auto, using(crate::proofs::Widest::holds_widest))]
    fn admits_user(&mut self, access: Access, addr: u32, width: Width) -> bool
        ensures value { result ≡ grants self.old User access addr (bytes_of width) }
        ensures kept { self.new ≡ self.old }
    {
        let first = addr as u64;
        let span = self.widest_user_span(access, addr);
        let granted = span.holds(first, first + width.bytes() as u64);
        if granted {
            self.permissions.keep(access, span);
        }
        granted
    }

    /// Returns the widest span round `addr` in which user mode is granted all accesses of a kind: no bytes if
    /// it isn't granted the byte at `addr`.
    #[tactic(auto, using(crate::proofs::Widest::widest_clauses))]
    fn widest_user_span(&self, access: Access, addr: u32) -> Span
        ensures granted { IsGranted self.now access result }
        ensures widest { IsWidest self.now access addr result }
    {
        widest_span(self.actives(), access, addr as u64)
    }

    /// Returns the entries that match addresses.
    fn actives(&self) -> &[ActiveEntry]
        ensures { result.now ≡ actives_from 0 self.now.entries }
    {
        self.actives.as_slice()
    }
}

/// Writes `word` to a register.
#[tactic(auto, unfolding(crate::specs::Support::Registers::with_word))]
fn write_word(entries: &mut [Entry; ENTRIES], register: PmpRegister, word: u32)
    requires { AllReadable entries.old }
    ensures written { entries.new ≡ with_word entries.old register word }
    ensures readable { AllReadable entries.new }
{
    match register {
        PmpRegister::Config(first) => {
            let first = first as usize;
            set_config(entries, first, byte_of(word, 0));
            set_config(entries, first + 1, byte_of(word, 1));
            set_config(entries, first + 2, byte_of(word, 2));
            set_config(entries, first + 3, byte_of(word, 3));
        }
        PmpRegister::Address(place) => set_address(entries, place as usize, word),
    }
}

/// Returns byte `place` of a word, from 0 for the lowest.
fn byte_of(word: u32, place: u32) -> u8
    requires { place < 4 }
    ensures { result ≡ spec.byte_of word place }
{
    (word >> (8 * place) & 0xFF) as u8
}

/// Writes the configuration byte of the entry at `place`, if there is one.
#[tactic(auto, unfolding(crate::specs::Support::Registers::with_config, crate::specs::Entry::configured), using(crate::proofs::Writes::entry_steps))]
fn set_config(entries: &mut [Entry; ENTRIES], place: usize, byte: u8)
    requires { AllReadable entries.old }
    ensures written { entries.new ≡ with_config entries.old place byte }
    ensures readable { AllReadable entries.new }
{
    if place < ENTRIES {
        entries[place] = entries[place].with_config(byte);
    }
}

/// Writes the address register of the entry at `place`, if there is one, unless a locked region begins at
/// that address.
#[tactic(auto, unfolding(crate::specs::Support::Registers::with_address, crate::specs::Entry::addressed), using(crate::proofs::Writes::entry_steps))]
fn set_address(entries: &mut [Entry; ENTRIES], place: usize, word: u32)
    requires small { place < 2 ^ 8 }
    requires readable { AllReadable entries.old }
    ensures written { entries.new ≡ with_address entries.old place word }
    ensures readable { AllReadable entries.new }
{
    if place < ENTRIES && !is_locked_tor(entries, place + 1) {
        entries[place] = entries[place].with_address(word);
    }
}

/// Whether the entry at `place` is locked and its region begins at the address of the entry before.
#[tactic(auto, unfolding(crate::specs::Support::Registers::starts_locked))]
fn is_locked_tor(entries: &[Entry; ENTRIES], place: usize) -> bool
    ensures { result ≡ starts_locked entries.now place }
{
    entries
        .get(place)
        .is_some_and(|entry| entry.locked && entry.matching.is_top())
}

/// Law: bytes that are granted together are granted one by one.
#[tactic(auto, using(crate::proofs::Decision::grants_each))]
pub fn bytes_are_granted_alone()
    ensures { (pmp : PmpState) (mode : Mode) (access : Access) (first count i : ℕ) → i < count
        → grants pmp mode access first count ≡ true
        → grants pmp mode access (first + i) 1 ≡ true }
{}

/// Returns the answer of the first entry that has some of the bytes from `first` up to but not including
/// `end`.
#[tactic(auto, unfolding(crate::specs::Support::ActiveEntries::decision), using(std::proofs::lemmas::List::drop_more, std::proofs::lemmas::List::drop_all))]
fn decide(actives: &[ActiveEntry], mode: Mode, access: Access, first: u64, end: u64) -> Option<bool>
    ensures { result ≡ decision mode access first end actives.now }
{
    for active in actives {
        if let Some(granted) = active.answer(mode, access, first, end) {
            return Some(granted);
        }
    }
    None
}

/// Returns the widest span round `addr` in which the entries grant user mode the access: the permitted part,
/// of the first entry that has `addr`, of the bytes that no entry before it has.
#[tactic(auto, using(crate::proofs::Widest::left_free, crate::proofs::Widest::none_free))]
fn widest_span(actives: &[ActiveEntry], access: Access, addr: u64) -> Span
    requires small { addr < 2 ^ 64 - 1 }
    requires forward { AreForward actives.now }
    ensures { IsWidestSpan actives.now access addr result }
{
    let mut free = Span::ALL_BYTES;
    for active in actives {
        if active.span.has(addr) {
            return active.permitted_part(access, free);
        }
        free = free.part_beside(active.span, addr);
    }
    Span::NO_BYTES
}

/// Whether any entry matches addresses.
fn any_on(entries: &[Entry; ENTRIES]) -> bool
    ensures { result ≡ some_on entries.now }
{
    entries.iter().any(|entry| entry.is_on())
}

/// Whether any entry is locked.
fn any_locked(entries: &[Entry; ENTRIES]) -> bool
    ensures { result ≡ some_locked entries.now }
{
    entries.iter().any(|entry| entry.locked)
}
