//! An entry: its registers' fields, and what it grants.
ghost use Rattle.std.specs.Prelude.{◌≡◌, ◌==◌};
ghost use Rattle.rv_pmp.specs.Entry.{matching_code, matching_of, config_byte, bit_for};
ghost use Rattle.rv_pmp.specs.Entry as spec;
ghost use Rattle.rv_pmp.specs.Support.ActiveEntries.{is_matching};

use crate::{Access, Mode};

/// The ways to match addresses: the field A of a configuration byte. Privileged Architecture 20211203,
/// section 3.7.1.
#[derive(Clone, Copy)]
pub enum Matching {
    /// OFF: no byte.
    Off,
    /// TOR: the bytes from the address of the entry before, or from 0 for the first entry, up to but not
    /// including the entry's own address.
    Tor,
    /// NA4: the four bytes at the entry's address.
    Na4,
    /// NAPOT: 2^(k + 3) bytes, where the address register ends in k ones, from a multiple of their number on.
    Napot,
}

impl Matching {
    /// Returns the value of the field A.
    fn code(self) -> u8
        ensures { result ≡ matching_code self }
    {
        match self {
            Matching::Off => 0,
            Matching::Tor => 1,
            Matching::Na4 => 2,
            Matching::Napot => 3,
        }
    }

    /// Whether the address is the end of a region that begins at the address of the entry before.
    pub(crate) fn is_top(self) -> bool
        ensures { result ≡ (matching_code self == 1) }
    {
        matches!(self, Matching::Tor)
    }

    /// Returns the way that a value of the field A, less than 4, stands for.
    #[tactic(auto, unfolding(crate::specs::Entry::matching_of), using(crate::proofs::Writes::matching_rest))]
    fn of(code: u8) -> Matching
        ensures { result ≡ matching_of code }
    {
        match code {
            0 => Matching::Off,
            1 => Matching::Tor,
            2 => Matching::Na4,
            _ => Matching::Napot,
        }
    }
}

/// An entry as its registers hold it: the address register, and the fields of the configuration byte.
/// Privileged Architecture 20211203, section 3.7.1.
#[derive(Clone, Copy)]
pub struct Entry {
    /// The address register: an address divided by 4.
    pub address: u32,
    /// R: whether loads are granted.
    pub readable: bool,
    /// W: whether stores are granted.
    pub writable: bool,
    /// X: whether fetches are granted.
    pub executable: bool,
    /// L: whether the entry binds machine mode too, and keeps its registers until a reset.
    pub locked: bool,
    /// A: how the address is matched.
    pub matching: Matching,
}

impl Entry {
    /// An entry whose registers are zero. It matches no address.
    pub(crate) const OFF: Entry = Entry {
        address: 0,
        readable: false,
        writable: false,
        executable: false,
        locked: false,
        matching: Matching::Off,
    };

    /// Whether the entry matches addresses.
    pub(crate) fn is_on(&self) -> bool
        ensures { result ≡ is_matching self.now.matching }
    {
        !matches!(self.matching, Matching::Off)
    }

    /// Encodes the fields as the configuration byte.
    #[tactic(auto, unfolding(crate::specs::Entry::config_byte))]
    pub(crate) fn config(&self) -> u8
        ensures { result ≡ config_byte self.now }
    {
        self.readable as u8
            + self.writable as u8 * 2
            + self.executable as u8 * 4
            + self.matching.code() * 8
            + self.locked as u8 * 128
    }

    /// Returns the entry after a write to its configuration byte. A locked entry stays as it is, and W is
    /// kept only together with R.
    #[tactic(auto, unfolding(crate::specs::Entry::configured, crate::specs::Entry::matching_of))]
    pub(crate) fn with_config(self, byte: u8) -> Entry
        ensures { result ≡ spec.configured self byte }
    {
        if self.locked {
            return self;
        }
        let readable = byte % 2 == 1;
        Entry {
            address: self.address,
            readable,
            writable: readable && byte / 2 % 2 == 1,
            executable: byte / 4 % 2 == 1,
            locked: byte / 128 % 2 == 1,
            matching: Matching::of(byte / 8 % 4),
        }
    }

    /// Returns the entry after a write to its address register. A locked entry stays as it is.
    #[tactic(auto, unfolding(crate::specs::Entry::addressed))]
    pub(crate) fn with_address(self, word: u32) -> Entry
        ensures { result ≡ spec.addressed self word }
    {
        Entry {
            address: if self.locked { self.address } else { word },
            ..self
        }
    }

    /// Whether the entry grants a mode an access whose bytes are all in its region.
    pub fn grants(&self, mode: Mode, access: Access) -> bool
        ensures { result ≡ spec.permits self.now mode access }
    {
        match mode {
            Mode::User => self.bit(access),
            Mode::Machine => !self.locked || self.bit(access),
        }
    }

    /// Returns the bit for a kind of access: R, W or X.
    pub(crate) fn bit(&self, access: Access) -> bool
        ensures { result ≡ bit_for self.now access }
    {
        match access {
            Access::Read => self.readable,
            Access::Write => self.writable,
            Access::Execute => self.executable,
        }
    }
}
