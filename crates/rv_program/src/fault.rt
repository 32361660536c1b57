//! The faults of a source.
ghost use Rattle.std.specs.Prelude.{◌≡◌};
ghost use Rattle.rv_program.specs.Faults.{title_of};

use rv_tokens::LineFault;
use std::alloc::AllocError;

/// The kind of a fault: E1 to E12.
#[derive(Clone, Copy, PartialEq, Eq, Debug)]
pub enum FaultKind {
    /// A byte that no token has, outside of strings, characters and comments.
    BadByte,
    /// The line has more than 1,024 bytes.
    LineTooLong,
    /// The line isn't a sequence of labels and at most one statement.
    Syntax,
    /// The statement's word is neither a mnemonic nor a directive.
    UnknownWord,
    /// The mnemonic or directive doesn't take these operands.
    BadOperands,
    /// The name is already defined.
    DuplicateSymbol,
    /// The value isn't known on the line of the statement, or is out of its range there.
    NotConstant,
    /// The instruction's address isn't a multiple of 4.
    Misplaced,
    /// The image has more than 16,777,216 bytes.
    TooLarge,
    /// No line defines the name or the local label.
    Undefined,
    /// The value doesn't fit into its field.
    OutOfRange,
    /// Out of memory: not a fault of the source.
    OutOfMemory,
}

impl FaultKind {
    /// Returns the number of the kind, as 3 of `E3`.
    pub fn number(self) -> u8
        ensures { result ≡ (title_of self).0 }
    {
        match self {
            FaultKind::BadByte => 1,
            FaultKind::LineTooLong => 2,
            FaultKind::Syntax => 3,
            FaultKind::UnknownWord => 4,
            FaultKind::BadOperands => 5,
            FaultKind::DuplicateSymbol => 6,
            FaultKind::NotConstant => 7,
            FaultKind::Misplaced => 8,
            FaultKind::TooLarge => 9,
            FaultKind::Undefined => 10,
            FaultKind::OutOfRange => 11,
            FaultKind::OutOfMemory => 12,
        }
    }

    /// Returns the name of the kind, as `Syntax`.
    pub fn name(self) -> &'static str
        ensures { result.now ≡ (title_of self).1 }
    {
        match self {
            FaultKind::BadByte => "BadByte",
            FaultKind::LineTooLong => "LineTooLong",
            FaultKind::Syntax => "Syntax",
            FaultKind::UnknownWord => "UnknownWord",
            FaultKind::BadOperands => "BadOperands",
            FaultKind::DuplicateSymbol => "DuplicateSymbol",
            FaultKind::NotConstant => "NotConstant",
            FaultKind::Misplaced => "Misplaced",
            FaultKind::TooLarge => "TooLarge",
            FaultKind::Undefined => "Undefined",
            FaultKind::OutOfRange => "OutOfRange",
            FaultKind::OutOfMemory => "OutOfMemory",
        }
    }
}

impl From<LineFault> for FaultKind {
    ghost use Rattle.std.specs.Prelude.{◌≡◌};
    ghost use Rattle.rv_program.specs.Faults.{kind_of};

    ghost from_gives = { λ fault kind. kind ≡ kind_of fault };

    fn from(fault: LineFault) -> Self {
        match fault {
            LineFault::BadByte => FaultKind::BadByte,
            LineFault::LineTooLong => FaultKind::LineTooLong,
            LineFault::Syntax => FaultKind::Syntax,
            LineFault::UnknownWord => FaultKind::UnknownWord,
            LineFault::BadOperands => FaultKind::BadOperands,
            LineFault::OutOfMemory => FaultKind::OutOfMemory,
        }
    }
}

impl From<AllocError> for FaultKind {
    ghost use Rattle.std.specs.Prelude.{◌≡◌};
    ghost use Rattle.rv_program.specs.declared.fault.FaultKind.TheVariants.{OutOfMemory};

    ghost from_gives = { λ _ kind. kind ≡ OutOfMemory };

    fn from(_: AllocError) -> Self {
        FaultKind::OutOfMemory
    }
}

/// A fault of a source: why it can't be assembled.
#[derive(Clone, Copy, PartialEq, Eq, Debug)]
pub struct AsmFault {
    /// The number of the line, counted from 1, or 0 for out of memory.
    pub line: usize,
    /// The kind of the fault.
    pub kind: FaultKind,
}

impl AsmFault {
    ghost use Rattle.std.specs.Prelude.{◌≡◌, ◌==◌, if◌then◌else◌};
    ghost use Rattle.rv_program.specs.Faults.{title_of};

    /// Makes a fault at a line, or at line 0 if it is out of memory.
    pub fn at(line: usize, kind: FaultKind) -> Self
        ensures { result ≡ record { line = (if (title_of kind).0 == 12 then 0 else line); kind = kind } }
    {
        match kind {
            FaultKind::OutOfMemory => AsmFault { line: 0, kind },
            _ => AsmFault { line, kind },
        }
    }
}

impl From<AllocError> for AsmFault {
    ghost use Rattle.std.specs.Prelude.{◌≡◌};
    ghost use Rattle.rv_program.specs.declared.fault.FaultKind.TheVariants.{OutOfMemory};

    ghost from_gives = { λ _ fault. fault ≡ record { line = 0; kind = OutOfMemory } };

    fn from(_: AllocError) -> Self {
        AsmFault::at(0, FaultKind::OutOfMemory)
    }
}
