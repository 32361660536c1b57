//! The privilege modes. Privileged Architecture 20211203, section 1.2.
ghost use Rattle.std.specs.Prelude.{◌≡◌};
ghost use Rattle.rv_pmp.specs.Mode as spec;

/// A privilege mode. Privileged Architecture 20211203, section 1.2.
#[derive(Clone, Copy, PartialEq, Eq, Debug)]
pub enum Mode {
    /// User mode, the least privileged.
    User,
    /// Machine mode, the most privileged.
    Machine,
}

impl Mode {
    /// Whether this is machine mode.
    pub fn is_machine(self) -> bool
        ensures { result ≡ spec.is_machine self }
    {
        match self {
            Mode::User => false,
            Mode::Machine => true,
        }
    }
}
