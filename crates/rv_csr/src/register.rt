//! The addresses of the control registers, and which modes may access them. Privileged Architecture 20211203,
//! section 2.1 and table 2.5.
ghost use Rattle.std.specs.Prelude.{◌≡◌, ◌<◌};
ghost use Rattle.rv_csr.specs.Support.RegisterCases.{register_at};
ghost use Rattle.rv_csr.specs.Support.RegisterCases as cases;
ghost use Rattle.rv_csr.specs.Registers as access;

use crate::mstatus::mode_level;
use rv_pmp::Mode;

/// A control register that isn't one of physical memory protection. Privileged Architecture 20211203, section
/// 3.1.
#[derive(Clone, Copy)]
pub enum Register {
    /// mstatus: the global interrupt enable, the state before the last trap, and how loads, stores and WFI
    /// behave.
    Mstatus,
    /// misa: the instruction sets that the hart implements.
    Misa,
    /// mie: the interrupts that are enabled.
    Mie,
    /// mtvec: the address of the trap handler.
    Mtvec,
    /// mscratch: a word for the trap handler.
    Mscratch,
    /// mepc: the address of the instruction that trapped.
    Mepc,
    /// mcause: the cause of the trap.
    Mcause,
    /// mtval: the address or the word that the cause is about.
    Mtval,
    /// mip: the interrupts that are pending.
    Mip,
    /// mcycle: the low half of the number of steps.
    Mcycle,
    /// mcycleh: its high half.
    Mcycleh,
    /// minstret: the low half of the number of retired instructions.
    Minstret,
    /// minstreth: its high half.
    Minstreth,
    /// A register that reads 0 and ignores writes.
    Zero,
}

impl Register {
    /// Returns the register at address `addr`, or None if there is none or it is one of protection.
    #[inline(always)]
    #[tactic(auto, unfolding(crate::specs::Support::RegisterCases::register_at))]
    pub(crate) fn at(addr: u16) -> Option<Register>
        ensures { result ≡ register_at addr }
    {
        match addr {
            0x300 => Some(Register::Mstatus),
            0x301 => Some(Register::Misa),
            0x304 => Some(Register::Mie),
            0x305 => Some(Register::Mtvec),
            0x340 => Some(Register::Mscratch),
            0x341 => Some(Register::Mepc),
            0x342 => Some(Register::Mcause),
            0x343 => Some(Register::Mtval),
            0x344 => Some(Register::Mip),
            0xB00 => Some(Register::Mcycle),
            0xB80 => Some(Register::Mcycleh),
            0xB02 => Some(Register::Minstret),
            0xB82 => Some(Register::Minstreth),
            _ => if is_zero(addr) {
                Some(Register::Zero)
            } else {
                None
            },
        }
    }
}

/// Whether the register at address `addr` reads 0 and ignores writes.
fn is_zero(addr: u16) -> bool
    ensures { result ≡ cases.is_zero addr }
{
    match addr {
        0x306 | 0x30A | 0x310 | 0x31A | 0x320 => true,
        0x323..=0x33F | 0xB03..=0xB1F | 0xB83..=0xB9F | 0xF11..=0xF15 => true,
        _ => false,
    }
}

/// Whether a mode may read at address `addr`.
pub(crate) fn may_read(addr: u16, mode: Mode) -> bool
    ensures { result ≡ access.may_read addr mode }
{
    (addr >> 8) as u32 % 4 <= mode_level(mode)
}

/// Whether a mode may write at address `addr`.
pub(crate) fn may_write(addr: u16, mode: Mode) -> bool
    ensures { result ≡ access.may_write addr mode }
{
    may_read(addr, mode) && (addr >> 10) % 4 != 3
}

/// Whether the register that was written, if any, is a half of the counter whose low half is at `low`.
pub(crate) fn wrote_half(low: u16, wrote: Option<u16>) -> bool
    requires { low < 0x1000 }
    ensures { result ≡ cases.wrote_half low wrote }
{
    wrote.is_some_and(|addr| addr == low || addr == low + 0x80)
}
