//! Where a program goes on after an instruction.
ghost use Rattle.std.specs.Prelude.{◌≡◌};
ghost use Rattle.rv_hart.specs.Support.Plain.{onward};

/// Where a program goes on after an instruction. A loop that doesn't keep pc can tell the next instruction
/// from a jump.
#[derive(Clone, Copy)]
pub(crate) enum Course {
    /// At the next instruction.
    On,
    /// At the instruction that is this many bytes away, modulo 2^32.
    By(u32),
    /// At an address.
    To(u32),
}

impl Course {
    /// Returns the address at which it goes on from another.
    #[inline(always)]
    pub(crate) fn from(self, pc: u32) -> u32
        ensures { result ≡ onward self pc }
    {
        match self {
            Course::On => return pc.wrapping_add(4),
            Course::By(offset) => return pc.wrapping_add(offset),
            Course::To(addr) => return addr,
        }
    }
}
