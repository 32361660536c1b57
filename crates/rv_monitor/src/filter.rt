//! A filter that rules out most addresses as breakpoints.
ghost use Rattle.std.specs.Prelude.{◌≡◌, ◌%◌, ◌<◌, ℕ, true};
ghost use Rattle.rv_monitor.specs.Support.Filter.{may_contain};

/// The number of flags: one for each low byte of an address, so that a flag is found with few instructions,
/// though only every fourth is used.
const FLAGS: usize = 256;

/// A flag for each group of addresses that have the same low byte.
///
/// An address whose flag is off is no breakpoint.
#[derive(Clone, Copy)]
pub(crate) struct BreakpointFilter {
    flags: [bool; FLAGS],
}

/// Returns the index of an address's flag.
fn flag_index(address: u32) -> usize
    ensures value { result ≡ address % 256 }
    ensures below { result < 256 }
{
    address as usize % FLAGS
}

impl BreakpointFilter {
    /// Returns a filter with all flags off.
    pub(crate) fn new() -> BreakpointFilter {
        BreakpointFilter {
            flags: [false; FLAGS],
        }
    }

    /// Returns whether an address's flag is on.
    #[inline(always)]
    pub(crate) fn may_contain(&self, address: u32) -> bool
        ensures { result ≡ may_contain self.now address }
    {
        self.flags[flag_index(address)]
    }

    /// Turns an address's flag on.
    #[tactic(auto, using(crate::proofs::Sets::flag_stays))]
    pub(crate) fn add(&mut self, address: u32)
        ensures now { may_contain self.new address ≡ true }
        ensures others { (a : ℕ) → may_contain self.old a ≡ true → may_contain self.new a ≡ true }
    {
        self.flags[flag_index(address)] = true;
    }
}
