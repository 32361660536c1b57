//! The formats of words, and the codes that they have for an operation.

/// A format of words: which fields an instruction has, and where.
///
/// RISC-V Unprivileged ISA 20191213, sections 2.2 and 2.3. The I format is three: its immediate is a signed
/// number, a number from 0 on, or the amount of a shift with a function code above it.
#[derive(Clone, Copy)]
pub(crate) enum Format {
    R,
    Amount,
    I,
    /// Where the fields say a number of five bits, it is in the place of `rs1`.
    Number,
    S,
    B,
    U,
    J,
    /// A word without fields, which is the opcode.
    Whole,
}

/// A format with the codes of an operation. Those that the format doesn't have are 0.
///
/// RISC-V Unprivileged ISA 20191213, chapter 24: funct3 has three bits, funct7 has seven.
#[derive(Clone, Copy)]
pub(crate) struct Codes {
    pub(crate) format: Format,
    pub(crate) opcode: u32,
    pub(crate) funct3: u32,
    pub(crate) funct7: u32,
}
