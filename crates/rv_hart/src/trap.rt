//! Traps, and the outcome of a step.
use rv_base::NoMemory;

/// An exception or an interrupt. Privileged Architecture 20211203, sections 3.1.15 and 3.1.16.
#[derive(Clone, Copy)]
pub struct Trap {
    /// The cause, as mcause holds it.
    pub cause: u32,
    /// The address or the word that the cause is about, or 0.
    pub tval: u32,
}

/// The outcome of a step.
#[derive(Clone, Copy)]
pub enum Outcome {
    /// An instruction retired.
    Retired,
    /// A trap was taken.
    Trapped {
        /// The cause, as mcause holds it.
        cause: u32,
        /// The address of the instruction that did not retire.
        epc: u32,
        /// The address or the word that the cause is about, or 0.
        tval: u32,
    },
    /// The store that halts the board retired.
    Halted,
}

/// The error of an instruction that did not retire.
#[derive(Clone, Copy)]
pub(crate) enum StepError {
    /// It trapped.
    Trap(Trap),
    /// It was a store, for which the allocator refused room.
    NoMemory,
}

impl From<Trap> for StepError {
    ghost use Rattle.std.specs.Prelude.{◌≡◌};
    ghost use Rattle.rv_hart.specs.declared.trap.StepError.TheVariants as error;

    ghost from_gives = { λ t e. e ≡ error.Trap t };

    fn from(trap: Trap) -> Self {
        StepError::Trap(trap)
    }
}

impl From<NoMemory> for StepError {
    ghost use Rattle.std.specs.Prelude.{◌≡◌};
    ghost use Rattle.rv_hart.specs.declared.trap.StepError.TheVariants as error;

    ghost from_gives = { λ _ e. e ≡ error.NoMemory };

    fn from(_: NoMemory) -> Self {
        StepError::NoMemory
    }
}
