//! Commands.
use rv_plic::Source;
use rv_tokens::Name;

/// A command of the monitor.
#[derive(Drop)]
pub enum Command<'a> {
    /// `s [N]`: takes steps.
    Step {
        /// The number of steps, at most 1,000,000,000.
        count: u64,
    },
    /// `c [N]`: takes steps up to a breakpoint.
    Go {
        /// The most steps, at most 1,000,000,000. None for all steps that are left.
        count: Option<u64>,
    },
    /// `b ADDR`: sets a breakpoint.
    SetBreak {
        /// The address.
        addr: u32,
    },
    /// `d ADDR`: clears a breakpoint.
    ClearBreak {
        /// The address.
        addr: u32,
    },
    /// `r`: shows the registers, the pc and the mode.
    Registers,
    /// `p NAME`: shows a control register.
    ControlRegister {
        /// The name, as the line has it.
        name: Name<'a>,
        /// The number of the control register with this name.
        csr: u16,
    },
    /// `m ADDR N`: shows bytes of memory.
    Memory {
        /// The address of the first byte.
        addr: u32,
        /// The number of bytes, 1 to 256.
        count: u32,
    },
    /// `i ADDR`: shows an instruction.
    Instruction {
        /// The address.
        addr: u32,
    },
    /// `t`: shows the last traps.
    Traps,
    /// `e N`: shows the pending edges of a source.
    Edges {
        /// The edge source, 24 to 31.
        source: Source,
    },
    /// `q`: ends the commands.
    Quit,
    /// A blank line or a comment: does nothing.
    Nothing,
}
