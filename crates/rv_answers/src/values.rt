//! What the lab's answers say, as values: each is small, and names what never changes in a lab's life by a number:
//! a line of its source by its own, and a label by how far it lies before an address.
use crate::many::Many;
use rv_isa::Reg;
use rv_pmp::Mode;

/// The values of the registers, by number.
pub type Registers = [u32; 32];

/// An address, and what is there.
#[derive(Clone, Copy)]
pub struct Place {
    /// The address.
    pub address: u32,
    /// How many bytes the last label at it or before it lies before it, if it lies in the image.
    pub distance: Option<u32>,
    /// The number, from 1, of the line of the source that has a byte there.
    pub line: Option<usize>,
    /// The word there, if there is memory.
    pub word: Option<u32>,
}

/// Where a board stands.
#[derive(Clone, Copy)]
pub struct Standing {
    /// The number of steps that it has taken.
    pub steps: u64,
    /// The mode of its hart.
    pub mode: Mode,
    /// The code with which it has halted.
    pub halted: Option<u16>,
    /// The place of pc.
    pub here: Place,
}

/// All registers.
#[derive(Clone, Copy)]
pub struct RegisterFile {
    /// Their values before the last command that moved the board: those that differ are those that it changed.
    pub before: Registers,
    /// Their values now.
    pub now: Registers,
    /// The mode of the hart.
    pub mode: Mode,
    /// The place of pc.
    pub here: Place,
}

/// A register with its value.
#[derive(Clone, Copy)]
pub struct RegisterValue {
    pub register: Reg,
    pub value: u32,
}

/// A trap that was taken some times in a row.
#[derive(Clone, Copy)]
pub struct Trap {
    /// What mcause was.
    pub cause: u32,
    /// What mtval was.
    pub value: u32,
    /// The place of the instruction, which mepc was.
    pub place: Place,
    /// How often it was taken in a row.
    pub times: u64,
}

/// The pending edges of a source of interrupts.
#[derive(Clone, Copy)]
pub struct Edges {
    /// The number of the source.
    pub source: u32,
    /// The number of its edges that are pending.
    pub pending: u32,
}

/// What the bits of a control register say.
#[derive(Clone, Copy)]
pub enum Bits {
    /// The fields of mstatus (Privileged Architecture 20211203, section 3.1.6).
    Status {
        mie: bool,
        mpie: bool,
        /// Whether MPP is machine mode.
        mpp: bool,
        mprv: bool,
        tw: bool,
    },
    /// The bits of mie and mip (section 3.1.9).
    Lines {
        software: bool,
        timer: bool,
        external: bool,
    },
    /// The cause of the last trap (section 3.1.15).
    Cause(u32),
}

/// A control register.
#[derive(Drop)]
pub struct ControlValue {
    /// Its name.
    pub name: Many<u8>,
    /// Its number.
    pub csr: u16,
    /// What machine mode reads there.
    pub value: Option<u32>,
    /// What its bits say, if they have names.
    pub bits: Option<Bits>,
}

/// What memory holds from an address on.
#[derive(Drop)]
pub enum Cells {
    /// Bytes, those for which there is memory.
    Bytes(Many<Option<u8>>),
    /// Words, those for which there is memory.
    Words(Many<Option<u32>>),
    /// The bytes before a zero.
    Text(Many<u8>),
}

/// Memory from an address on.
#[derive(Drop)]
pub struct Dump {
    pub address: u32,
    pub cells: Cells,
}

/// What a row of a list says of a line of the source beside its text.
#[derive(Clone, Copy)]
pub struct Row {
    /// Its number, from 1.
    pub number: usize,
    /// Whether pc is in its bytes.
    pub is_here: bool,
    /// Whether a breakpoint is at its address.
    pub is_marked: bool,
    /// Its address, if it has bytes.
    pub address: Option<u32>,
    /// Its first word, if it has four bytes.
    pub word: Option<u32>,
    /// Whether it has more than four bytes.
    pub has_more: bool,
}

/// The timer.
#[derive(Clone, Copy)]
pub struct Clock {
    /// What mtime is.
    pub time: u64,
    /// What mtimecmp is.
    pub compare: u64,
    /// Whether its line is high.
    pub is_due: bool,
    /// Whether msip is 1.
    pub software: bool,
}

/// The serial port.
#[derive(Clone, Copy)]
pub struct Port {
    /// The number of received bytes that wait.
    pub waiting: usize,
    /// The number of bytes that were sent.
    pub sent: usize,
    /// Whether a byte was lost since the last look at the status.
    pub overrun: bool,
}

/// The interrupts of a hart.
#[derive(Clone, Copy)]
pub struct Interrupts {
    pub mode: Mode,
    pub mstatus: u32,
    pub mie: u32,
    pub mip: u32,
    /// The cause of the interrupt that is taken next, if one is.
    pub next: Option<u32>,
}

/// A source of the interrupt controller.
#[derive(Clone, Copy)]
pub struct SourceState {
    /// Its number, from 1.
    pub source: u32,
    /// Whether its line is high.
    pub is_high: bool,
    /// Whether its request is pending.
    pub is_pending: bool,
    /// Whether a request of it is claimed and not completed.
    pub is_claimed: bool,
    /// Whether it is enabled.
    pub is_enabled: bool,
    pub priority: u32,
    /// The number of its edges that are pending.
    pub edges: u32,
}

/// What a mode may do.
#[derive(Clone, Copy)]
pub struct Rights {
    pub read: bool,
    pub write: bool,
    pub execute: bool,
}

/// The bytes of an entry of protection: addresses of 34 bits.
#[derive(Clone, Copy)]
pub struct Range {
    pub first: u64,
    pub last: u64,
}

/// An entry of protection that is on.
#[derive(Clone, Copy)]
pub struct Region {
    /// Its number, from 0.
    pub entry: usize,
    /// The bytes that it matches, if it matches some.
    pub range: Option<Range>,
    /// What it grants user mode.
    pub user: Rights,
    /// What it grants machine mode.
    pub machine: Rights,
    pub is_locked: bool,
}

/// The devices, the interrupts and protection.
#[derive(Drop)]
pub struct Devices {
    pub clock: Clock,
    pub port: Port,
    pub interrupts: Interrupts,
    /// The threshold of the interrupt controller.
    pub threshold: u32,
    /// Whether the line of the interrupt controller is high.
    pub is_notified: bool,
    /// All sources, by their numbers.
    pub sources: Many<SourceState>,
    /// The entries that are on, by their numbers. The first that has a byte decides.
    pub regions: Many<Region>,
}
