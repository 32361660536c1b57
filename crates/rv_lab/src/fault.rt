//! Why there is no lab.
use rv_board::BootFault;
use rv_monitor::OpenFault;
use rv_program::{AsmFault, FaultKind};

/// Why there is no lab.
#[derive(Clone, Copy, Debug, PartialEq, Eq)]
pub enum LabFault {
    /// The source has this fault.
    Source(AsmFault),
    /// This line of the timed list, counted from 1, is refused.
    Input(usize),
    /// The board doesn't boot.
    Board(BootFault),
    /// Memory ran out.
    OutOfMemory,
}

/// The fault of a source that is not assembled.
impl From<AsmFault> for LabFault {
    ghost use Rattle.std.specs.Prelude.{◌≡◌};
    ghost use Rattle.rv_lab.specs.Faults.{source_fault};

    ghost from_gives = { λ why fault. fault ≡ source_fault why.kind why };

    fn from(why: AsmFault) -> Self {
        match why.kind {
            FaultKind::OutOfMemory => LabFault::OutOfMemory,
            _ => LabFault::Source(why),
        }
    }
}

/// The fault of a program that opens no session.
impl From<OpenFault> for LabFault {
    ghost use Rattle.std.specs.Prelude.{◌≡◌};
    ghost use Rattle.rv_lab.specs.Faults.{unopened_fault};

    ghost from_gives = { λ why fault. fault ≡ unopened_fault why };

    fn from(why: OpenFault) -> Self {
        match why {
            OpenFault::Input(line) => LabFault::Input(line),
            OpenFault::Board(why) => LabFault::Board(why),
            OpenFault::OutOfMemory => LabFault::OutOfMemory,
        }
    }
}
