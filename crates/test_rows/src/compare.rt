//! Compares two boards in all that they can be read by, whatever memories and caches they have.

mod calls;

use crate::devices::{CLAIM, PENDING};
pub use calls::{Calls, event, same_in_calls, same_in_runs};
use rv_base::RAM_BASE;
use rv_board::Board;
use rv_cache::Decoded;
use rv_isa::Reg;
use rv_mmio::{Serial, Timer};
use rv_plic::{Plic, Source};
use rv_ram::{ByteMemory, PAGE_BYTES};

/// The number of addresses of control registers. Each is asked for: where a board has no register, it says
/// so.
const CSR_ADDRESSES: u16 = 4096;

/// The offsets of two more registers of the interrupt controller.
const ENABLES: u32 = 0x2000;

const THRESHOLD: u32 = 0x20_0000;

fn same_registers<M: ByteMemory, C: Decoded, N: ByteMemory, D: Decoded>(
    one: &Board<M, C>,
    other: &Board<N, D>,
) -> bool {
    for number in 0..32u8 {
        if let Some(register) = Reg::new(number)
            && one.reg(register) != other.reg(register)
        {
            return false;
        }
    }
    one.pc() == other.pc() && one.mode() == other.mode()
}

fn same_csrs<M: ByteMemory, C: Decoded, N: ByteMemory, D: Decoded>(
    one: &Board<M, C>,
    other: &Board<N, D>,
) -> bool {
    for addr in 0..CSR_ADDRESSES {
        if one.csr(addr) != other.csr(addr) {
            return false;
        }
    }
    true
}

fn same_memory<M: ByteMemory, C: Decoded, N: ByteMemory, D: Decoded>(
    one: &Board<M, C>,
    other: &Board<N, D>,
) -> bool {
    for offset in 0..PAGE_BYTES {
        if one.ram(RAM_BASE + offset) != other.ram(RAM_BASE + offset) {
            return false;
        }
    }
    true
}

fn same_traps<M: ByteMemory, C: Decoded, N: ByteMemory, D: Decoded>(
    one: &Board<M, C>,
    other: &Board<N, D>,
) -> bool {
    for index in 0..one.trap_count() {
        if one.trap(index) != other.trap(index) {
            return false;
        }
    }
    one.trap_count() == other.trap_count()
}

/// Compares the pending edges and the priority of each source.
fn same_sources(one: &Plic, other: &Plic) -> bool {
    for number in 1..32u8 {
        if let Some(source) = Source::new(number)
            && one.edges(source) != other.edges(source)
        {
            return false;
        }
        let priority = 4 * number as u32;
        if one.peek(priority) != other.peek(priority) {
            return false;
        }
    }
    true
}

fn same_plic(one: &Plic, other: &Plic) -> bool {
    same_sources(one, other)
        && one.peek(PENDING) == other.peek(PENDING)
        && one.peek(ENABLES) == other.peek(ENABLES)
        && one.peek(THRESHOLD) == other.peek(THRESHOLD)
        && one.peek(CLAIM) == other.peek(CLAIM)
}

fn same_timer(one: &Timer, other: &Timer) -> bool {
    one.time() == other.time()
        && one.compare() == other.compare()
        && one.software() == other.software()
}

fn same_serial(one: &Serial, other: &Serial) -> bool {
    one.waiting() == other.waiting()
        && one.overrun() == other.overrun()
        && one.console() == other.console()
}

/// Whether two boards are the same in all that they can be read by except the bytes of their memory.
pub fn same_but_for_memory<M: ByteMemory, C: Decoded, N: ByteMemory, D: Decoded>(
    one: &Board<M, C>,
    other: &Board<N, D>,
) -> bool {
    same_registers(one, other)
        && same_csrs(one, other)
        && same_traps(one, other)
        && same_plic(one.plic(), other.plic())
        && same_timer(one.timer(), other.timer())
        && same_serial(one.serial(), other.serial())
        && one.steps() == other.steps()
        && one.halted() == other.halted()
}

/// Whether two boards of one page are the same in all that they can be read by.
pub fn same_everywhere<M: ByteMemory, C: Decoded, N: ByteMemory, D: Decoded>(
    one: &Board<M, C>,
    other: &Board<N, D>,
) -> bool {
    same_but_for_memory(one, other) && same_memory(one, other)
}
