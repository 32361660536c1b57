//! The rows of traps and interrupts.
use crate::checks::check_at;
use rv_csr::Csrs;
use rv_isa::Lines;
use rv_pmp::Mode;
use test_definitions::traps::{INTERRUPTS, TRAPS};

/// Returns control registers with a word in each of two.
fn registers(first: (u16, u32), second: (u16, u32)) -> Option<Csrs> {
    let mut csrs = Csrs::new();
    csrs.write(first.0, Mode::Machine, first.1)?;
    csrs.write(second.0, Mode::Machine, second.1)?;
    Some(csrs)
}

/// Returns the word of a control register.
fn word(csrs: &Csrs, addr: u16) -> Option<u32> {
    csrs.read(addr, Mode::Machine, Lines::default())
}

/// Returns mstatus, mepc and the handler's pc after a trap.
fn enter(csrs: &mut Csrs, mode: Mode, cause: u32, pc: u32) -> Option<[u32; 3]> {
    let handler = csrs.enter_trap(cause, pc, 0, mode);
    Some([word(csrs, 0x300)?, word(csrs, 0x341)?, handler])
}

/// Returns mstatus and the mode after a return.
fn leave(csrs: &mut Csrs) -> Option<(u32, Mode)> {
    let (mode, _) = csrs.leave_trap();
    Some((word(csrs, 0x300)?, mode))
}

/// A row of traps.
type Row = ([u32; 2], Mode, u32, u32, [u32; 3], u32, Mode);

/// Whether a trap and the return from it are as a row says.
fn is_right(row: &Row) -> bool {
    let &(before, mode, cause, pc, inside, after, back) = row;
    match registers((0x300, before[0]), (0x305, before[1])) {
        Some(mut csrs) => {
            enter(&mut csrs, mode, cause, pc) == Some(inside)
                && leave(&mut csrs) == Some((after, back))
        }
        None => false,
    }
}

#[test]
fn traps(rt: HostRuntime) {
    for row in TRAPS.iter() {
        check_at(&rt, is_right(row), row.2);
    }
}

/// Returns the cause of the interrupt that is taken.
fn taken(before: [u32; 2], mode: Mode, levels: [bool; 3]) -> Option<u32> {
    let csrs = registers((0x300, before[0]), (0x304, before[1]))?;
    let [software, timer, external] = levels;
    let lines = Lines {
        software,
        timer,
        external,
    };
    Some(csrs.pending(mode, lines).unwrap_or(0))
}

#[test]
fn interrupts(rt: HostRuntime) {
    for &(before, mode, levels, cause) in INTERRUPTS.iter() {
        check_at(&rt, taken(before, mode, levels) == Some(cause), cause);
    }
}
