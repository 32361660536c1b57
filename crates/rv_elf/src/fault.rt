//! Why a file can't be written.
use rv_base::NoMemory;
use std::alloc::AllocError;

/// The error of a file that can't be written.
#[derive(Clone, Copy, PartialEq, Eq, Debug)]
pub enum ElfFault {
    /// The file would have 4 GiB or more.
    TooLarge,
    /// Out of memory.
    OutOfMemory,
}

impl From<NoMemory> for ElfFault {
    ghost use Rattle.std.specs.Prelude.{◌≡◌};
    ghost use Rattle.rv_elf.specs.declared.fault.ElfFault.TheVariants.{OutOfMemory};

    ghost from_gives = { λ _ fault. fault ≡ OutOfMemory };

    fn from(_: NoMemory) -> Self {
        ElfFault::OutOfMemory
    }
}

impl From<AllocError> for ElfFault {
    ghost use Rattle.std.specs.Prelude.{◌≡◌};
    ghost use Rattle.rv_elf.specs.declared.fault.ElfFault.TheVariants.{OutOfMemory};

    ghost from_gives = { λ _ fault. fault ≡ OutOfMemory };

    fn from(_: AllocError) -> Self {
        ElfFault::OutOfMemory
    }
}
