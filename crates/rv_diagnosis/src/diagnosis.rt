//! What is wrong with a line, and where.
use rv_asm::FaultKind;
use rv_tokens::Place;

/// A range that a value has to be in.
#[derive(Clone, Copy)]
pub enum Field {
    /// The immediate of an instruction, of twelve bits.
    Immediate,
    /// The upper twenty bits of `lui` and `auipc`.
    Upper,
    /// The amount of a shift, of five bits.
    Amount,
    /// The immediate of a control register instruction, of five bits.
    CsrImmediate,
    /// The distance from a branch to its target.
    Branch,
    /// The distance from `jal` to its target.
    Jump,
    /// Four bytes.
    Word,
    /// Two bytes.
    Half,
    /// One byte.
    Byte,
    /// The size of a space.
    Size,
    /// The power of two of `.align`.
    Power,
    /// The multiple of `.balign`, a power of two.
    Multiple,
}

impl Field {
    /// Returns the least value and the greatest.
    pub fn range(self) -> (i64, i64) {
        match self {
            Field::Immediate => (-2048, 2047),
            Field::Upper => (-524_288, 1_048_575),
            Field::Amount | Field::CsrImmediate => (0, 31),
            Field::Branch => (-4096, 4094),
            Field::Jump => (-1_048_576, 1_048_574),
            Field::Word => (-0x8000_0000, 0xffff_ffff),
            Field::Half => (-32_768, 65_535),
            Field::Byte => (-128, 255),
            Field::Size => (0, 16_777_216),
            Field::Power => (0, 12),
            Field::Multiple => (1, 4096),
        }
    }
}

/// What more there is to say of a fault.
#[derive(Clone, Copy)]
pub enum Detail {
    Nothing,
    /// The operand that the word doesn't take, counted from 1; 0 if operands are missing.
    Operand(usize),
    /// A name or a reference to a local label that has no value there.
    Unknown,
    /// A value that isn't in its range; of a branch or a jump it is the distance.
    OutOfRange { field: Field, value: i64 },
    /// The address of the statement.
    Address(u32),
    /// The line on which the name was defined first, counted from 1.
    DefinedOn(usize),
}

/// What is wrong with a line, and where.
#[derive(Clone, Copy)]
pub struct Diagnosis {
    /// The number of the line, counted from 1.
    pub line: usize,
    /// The kind of its fault.
    pub kind: FaultKind,
    /// The column of the place that is meant: the number of its first byte in the line, counted from 1.
    pub column: usize,
    /// The number of bytes of that place.
    pub length: usize,
    pub detail: Detail,
}

/// The place that a fault means, and what more there is to say of it.
#[derive(Clone, Copy)]
pub struct Finding {
    pub place: Place,
    pub detail: Detail,
}
