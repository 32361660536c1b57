//! Breakpoints in the order of their addresses.
ghost use Rattle.std.specs.Prelude.{◌≡◌, ◌<◌, ◌^◌, None, IfSome, fold};
ghost use Rattle.rv_recording.specs.Breaks.{IsNext};
ghost use Rattle.rv_recording.specs.Support.Nearer.{nearer};

use crate::recording::Recording;

/// Returns the lesser of an address, if it is at `from` or above it, and the least so far.
fn nearer(from: u32, least: Option<u32>, address: u32) -> Option<u32>
    ensures { result ≡ nearer from least address }
{
    if address < from {
        return least;
    }
    match least {
        Some(least) => Some(least.min(address)),
        None => Some(address),
    }
}

/// Returns the least address that is at `from` or above it.
fn least_from(addresses: &[u32], from: u32) -> Option<u32>
    ensures { result ≡ fold (nearer from) None addresses.now }
{
    let mut least = None;
    let mut left = addresses;
    while let [address, rest @ ..] = left {
        least = nearer(from, least, *address);
        left = rest;
    }
    least
}

impl Recording {
    /// Returns the first breakpoint from an address on, if there is one. It looks at each breakpoint.
    #[tactic(auto, using(crate::proofs::NextBreak::is_next))]
    pub fn next_break(&self, from: u32) -> Option<u32>
        ensures next { IsNext self.now.session.breakpoints.addresses from result }
        ensures below { IfSome result (λ a. a < 2 ^ 32) }
    {
        least_from(self.session().breakpoints(), from)
    }
}
