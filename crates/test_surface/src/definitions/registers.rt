//! The rows of the control registers.
use crate::checks::check_at;
use rv_csr::Csrs;
use rv_isa::Lines;
use rv_pmp::Mode;
use test_definitions::registers::{KEPT, RIGHTS};

/// Returns what machine mode reads at an address after it wrote a word there.
fn read_back(addr: u16, word: u32) -> Option<u32> {
    let mut csrs = Csrs::new();
    csrs.write(addr, Mode::Machine, word)?;
    csrs.read(addr, Mode::Machine, Lines::default())
}

/// Whether a mode may read and write at an address.
fn rights(addr: u16, mode: Mode) -> (bool, bool) {
    let mut csrs = Csrs::new();
    let reads = csrs.read(addr, mode, Lines::default()).is_some();
    (reads, csrs.write(addr, mode, 0).is_some())
}

#[test]
fn kept(rt: HostRuntime) {
    for &(addr, word, value) in KEPT.iter() {
        check_at(&rt, read_back(addr, word) == Some(value), u32::from(addr));
    }
}

#[test]
fn access(rt: HostRuntime) {
    for &(addr, mode, reads, writes) in RIGHTS.iter() {
        check_at(&rt, rights(addr, mode) == (reads, writes), u32::from(addr));
    }
}
