//! Inputs of a board, and their times.
use rv_plic::Source;

/// An input of a board.
#[derive(Clone, Copy, PartialEq, Eq, Debug)]
pub enum Input {
    /// A byte that the serial port receives.
    Rx(u8),
    /// A level of the line of an interrupt source.
    Line {
        /// The source.
        source: Source,
        /// Whether the line is high from now on.
        high: bool,
    },
}

/// An input with its time.
#[derive(Clone, Copy, PartialEq, Eq, Debug)]
pub struct TimedInput {
    /// The number of the step, counted from 0, that the input comes before.
    pub step: u64,
    /// The input.
    pub input: Input,
}
