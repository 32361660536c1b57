//! The reasons why steps end.

/// The reason why a call took no further step.
#[derive(Clone, Copy, PartialEq, Eq, Debug)]
pub enum Stop {
    /// The board has halted.
    Halted,
    /// The next instruction is at a breakpoint.
    Breakpoint,
    /// As many steps were taken as the call or the session allows.
    Limit,
}
