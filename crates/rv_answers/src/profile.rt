//! Where the steps of a run were spent.
use crate::many::Many;

/// A line with how many steps were spent there.
#[derive(Clone, Copy)]
pub struct Spent {
    /// The number of the line.
    pub line: usize,
    /// Its address.
    pub address: u32,
    /// How many steps.
    pub steps: u64,
}

/// Where the steps of a run were spent.
#[derive(Drop)]
pub struct Profiled {
    /// How many steps were looked at.
    pub steps: u64,
    /// Whether the board halted with the last of them.
    pub has_halted: bool,
    /// The lines in which steps began, those with most steps first.
    pub lines: Many<Spent>,
    /// The functions and handlers in which steps began, likewise, each by the line that begins it.
    pub functions: Many<Spent>,
}
