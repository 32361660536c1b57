//! The registers of the interrupt controller (PLIC Specification 1.0, "Memory Map").
ghost use Rattle.std.specs.Prelude.{◌≡◌};
ghost use Rattle.rv_plic.specs.Support.Registers.{reg_at};

use crate::Source;

/// A register of the interrupt controller: one word, at an offset of its own.
#[derive(Clone, Copy)]
pub enum PlicReg {
    /// The priority of a source, three bits, at four times its number. A source of priority 0 never
    /// interrupts ("Interrupt Priorities").
    Priority(Source),
    /// The pending sources, bit s for source s, at 0x1000. A store changes nothing ("Interrupt Pending
    /// Bits").
    Pending,
    /// The enabled sources, bit s for source s, at 0x2000 ("Interrupt Enables").
    Enables,
    /// The threshold, three bits, at 0x200000. The external interrupt line is high only for priorities above
    /// it ("Priority Thresholds").
    Threshold,
    /// Claim and completion, at 0x200004. A load claims the best source and returns its number, or 0 if there
    /// is none; a store completes the source whose number it stores ("Interrupt Claim Process", "Interrupt
    /// Completion").
    Claim,
}

impl PlicReg {
    /// Returns the register at an offset that is a multiple of 4, if there is one.
    #[tactic(auto, unfolding(crate::specs::Support::Registers::reg_at))]
    pub(crate) fn at(off: u32) -> Option<PlicReg>
        ensures { result ≡ reg_at off }
    {
        if off < 128 {
            return Source::new((off / 4) as u8).map(PlicReg::Priority);
        }
        match off {
            0x1000 => Some(PlicReg::Pending),
            0x2000 => Some(PlicReg::Enables),
            0x20_0000 => Some(PlicReg::Threshold),
            0x20_0004 => Some(PlicReg::Claim),
            _ => None,
        }
    }
}
