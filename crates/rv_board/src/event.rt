//! The events of a board, its errors, and its traps.
use rv_base::NoMemory;
use rv_plic::Source;
use std::alloc::AllocError;

/// What may happen to a board: one atomic action of the hart or of the world outside. Every interleaving of
/// their actions is a list of events.
#[derive(Clone, Copy)]
pub enum Event {
    /// Time passes by one tick, and the hart executes one step.
    Step,
    /// The line of an interrupt source rises or falls.
    Line {
        /// The source.
        source: Source,
        /// The line's new level.
        high: bool,
    },
    /// A byte comes in at the serial port.
    Rx(u8),
}

/// The error of a run that stopped out of memory.
#[derive(Clone, Copy, Debug, PartialEq, Eq)]
pub struct Stopped {
    /// The number of events that were done. The board is as they made it; the next event was refused.
    pub done: usize,
}

/// The error of a board that is not booted. The first that applies is given, in this order.
#[derive(Clone, Copy, Debug, PartialEq, Eq)]
pub enum BootFault {
    /// The number of pages is not from 1 to 4096.
    BadPages,
    /// The number of slots is not a power of two from 64 to 4096.
    BadSlots,
    /// The image is larger than the memory.
    ImageTooLarge,
    /// Out of memory.
    OutOfMemory,
}

impl From<NoMemory> for BootFault {
    ghost use Rattle.std.specs.Prelude.{◌≡◌};
    ghost use Rattle.rv_board.specs.declared.event.BootFault.TheVariants as fault;

    ghost from_gives = { λ _ e. e ≡ fault.OutOfMemory };

    fn from(_: NoMemory) -> Self {
        BootFault::OutOfMemory
    }
}

impl From<AllocError> for BootFault {
    ghost use Rattle.std.specs.Prelude.{◌≡◌};
    ghost use Rattle.rv_board.specs.declared.event.BootFault.TheVariants as fault;

    ghost from_gives = { λ _ e. e ≡ fault.OutOfMemory };

    fn from(_: AllocError) -> Self {
        BootFault::OutOfMemory
    }
}

/// A trap that was taken.
#[derive(Clone, Copy, Debug, PartialEq, Eq)]
pub struct TrapRecord {
    /// The cause, as mcause holds it.
    pub cause: u32,
    /// The address of the instruction that did not retire.
    pub epc: u32,
    /// The address or the word that the cause is about, or 0.
    pub tval: u32,
}
