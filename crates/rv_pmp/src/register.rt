//! The control registers of protection. Privileged Architecture 20211203, section 3.7.1.
ghost use Rattle.std.specs.Prelude.{◌≡◌};
ghost use Rattle.rv_pmp.specs.Support.Registers.{register_at};

/// A control register of protection, with the entry that it belongs to: the first of four for a configuration
/// register.
#[derive(Clone, Copy)]
pub enum PmpRegister {
    /// One of pmpcfg0 to pmpcfg3: the configuration bytes of four entries from this one on, low byte first.
    Config(u8),
    /// One of pmpaddr0 to pmpaddr15: the address of this entry.
    Address(u8),
}

impl PmpRegister {
    /// Returns the register at address `addr` of the control registers, or None if no register of protection
    /// is there.
    #[tactic(auto, unfolding(crate::specs::Support::Registers::register_at))]
    pub(crate) fn at(addr: u16) -> Option<PmpRegister>
        ensures { result ≡ register_at addr }
    {
        match addr {
            0x3A0..=0x3A3 => Some(PmpRegister::Config((4 * (addr - 0x3A0)) as u8)),
            0x3B0..=0x3BF => Some(PmpRegister::Address((addr - 0x3B0) as u8)),
            _ => None,
        }
    }
}
