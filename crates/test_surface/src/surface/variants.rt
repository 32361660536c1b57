//! The variants of the surface's enums, each by its name: with one more or one less nothing here compiles.
use rv_asm::FaultKind;
use rv_board::{BootFault, Event};
use rv_bus::StoreRefusal;
use rv_cli::{CliFault, Ending};
use rv_hart::Outcome;
use rv_isa::{Kind, Width};
use rv_monitor::{Next, TimelineFault};
use rv_source::LineFault;

/// Returns the place of a kind among all kinds.
fn kind(kind: Kind) -> u8 {
    match kind {
        Kind::Lui { .. } => 1,
        Kind::Auipc { .. } => 2,
        Kind::Jal { .. } => 3,
        Kind::Jalr { .. } => 4,
        Kind::Branch { .. } => 5,
        Kind::Load { .. } => 6,
        Kind::Store { .. } => 7,
        Kind::OpImm { .. } => 8,
        Kind::Shift { .. } => 9,
        Kind::Op { .. } => 10,
        Kind::Fence { .. } => 11,
        Kind::FenceI { .. } => 12,
        Kind::Csr { .. } => 13,
        Kind::CsrImm { .. } => 14,
        Kind::Ecall => 15,
        Kind::Ebreak => 16,
        Kind::Mret => 17,
        Kind::Wfi => 18,
    }
}

const _: fn(Kind) -> u8 = kind;

/// Returns the number of bytes of a width.
fn bytes(width: Width) -> u8 {
    match width {
        Width::One => 1,
        Width::Two => 2,
        Width::Four => 4,
    }
}

const _: fn(Width) -> u8 = bytes;

/// Returns the number of the fault of a line, which is that of its source.
fn line_fault(fault: LineFault) -> u8 {
    match fault {
        LineFault::BadByte => 1,
        LineFault::LineTooLong => 2,
        LineFault::Syntax => 3,
        LineFault::UnknownWord => 4,
        LineFault::BadOperands => 5,
        LineFault::OutOfMemory => 12,
    }
}

const _: fn(LineFault) -> u8 = line_fault;

// The kinds of faults of a source, in the order of their numbers.
const _: [FaultKind; 12] = [
    FaultKind::BadByte,
    FaultKind::LineTooLong,
    FaultKind::Syntax,
    FaultKind::UnknownWord,
    FaultKind::BadOperands,
    FaultKind::DuplicateSymbol,
    FaultKind::NotConstant,
    FaultKind::Misplaced,
    FaultKind::TooLarge,
    FaultKind::Undefined,
    FaultKind::OutOfRange,
    FaultKind::OutOfMemory,
];

/// Returns the number of a refusal of a store.
fn refusal(refusal: StoreRefusal) -> u8 {
    match refusal {
        StoreRefusal::Fault => 1,
        StoreRefusal::NoMemory => 2,
    }
}

const _: fn(StoreRefusal) -> u8 = refusal;

/// Returns the cause of a step's trap, or the place of another outcome behind all causes.
fn outcome(outcome: Outcome) -> u32 {
    match outcome {
        Outcome::Trapped {
            cause,
            epc: _,
            tval: _,
        } => cause,
        Outcome::Retired => 16,
        Outcome::Halted => 17,
    }
}

const _: fn(Outcome) -> u32 = outcome;

/// Returns the byte or the level that an event brings to a board, or 0 of a step.
fn level(event: Event) -> u8 {
    match event {
        Event::Step => 0,
        Event::Line { source: _, high } => high as u8,
        Event::Rx(byte) => byte,
    }
}

const _: fn(Event) -> u8 = level;

/// Returns the number of a boot fault.
fn boot_fault(fault: BootFault) -> u8 {
    match fault {
        BootFault::BadPages => 1,
        BootFault::BadSlots => 2,
        BootFault::ImageTooLarge => 3,
        BootFault::OutOfMemory => 4,
    }
}

const _: fn(BootFault) -> u8 = boot_fault;

/// Returns the line of the fault of a timed list.
fn refused_line(fault: TimelineFault) -> usize {
    match fault {
        TimelineFault::BadLine(line) => line,
        TimelineFault::OutOfMemory => 0,
    }
}

const _: fn(TimelineFault) -> usize = refused_line;

/// Whether no command follows.
fn quits(next: Next) -> bool {
    match next {
        Next::More => false,
        Next::Quit => true,
    }
}

const _: fn(Next) -> bool = quits;

/// Returns the code of an ending, with none for a board that runs.
fn code(ending: Ending) -> Option<u16> {
    match ending {
        Ending::Halted(code) => Some(code),
        Ending::Running => None,
    }
}

const _: fn(Ending) -> Option<u16> = code;

/// Returns the number of a fault of a run.
fn run_fault(fault: CliFault) -> u8 {
    match fault {
        CliFault::ReadSource => 1,
        CliFault::ReadInput => 2,
        CliFault::ReadCommands => 3,
        CliFault::Source(_) => 4,
        CliFault::Input(_) => 5,
        CliFault::BadPages => 6,
        CliFault::BadSlots => 7,
        CliFault::ImageTooLarge => 8,
        CliFault::OutOfMemory => 9,
        CliFault::Write => 10,
    }
}

const _: fn(CliFault) -> u8 = run_fault;
