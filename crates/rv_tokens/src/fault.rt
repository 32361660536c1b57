//! The faults of a line.
use std::alloc::{AllocError, AllocFailed};

/// The reason why a line can't be read.
#[derive(Clone, Copy, PartialEq, Eq, Debug)]
pub enum LineFault {
    /// A byte that no token has, outside of strings, characters and comments.
    BadByte,
    /// The line has more than 1,024 bytes.
    LineTooLong,
    /// The line isn't a sequence of labels and at most one statement.
    Syntax,
    /// The statement's word is neither a mnemonic nor a directive.
    UnknownWord,
    /// The mnemonic or directive doesn't take these operands.
    BadOperands,
    /// Out of memory: not a fault of the line.
    OutOfMemory,
}

impl From<AllocError> for LineFault {
    ghost use Rattle.std.specs.Prelude.{◌≡◌};
    ghost use Rattle.rv_tokens.specs.declared.fault.LineFault.TheVariants.{OutOfMemory};

    ghost from_gives = { λ _ fault. fault ≡ OutOfMemory };

    fn from(_: AllocError) -> Self {
        LineFault::OutOfMemory
    }
}

impl<T: Drop> From<AllocFailed<T>> for LineFault {
    ghost use Rattle.std.specs.Prelude.{◌≡◌};
    ghost use Rattle.rv_tokens.specs.declared.fault.LineFault.TheVariants.{OutOfMemory};

    ghost from_gives = { λ _ fault. fault ≡ OutOfMemory };

    fn from(_: AllocFailed<T>) -> Self {
        LineFault::OutOfMemory
    }
}
