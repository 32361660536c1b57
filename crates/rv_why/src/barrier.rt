//! What lets no access through.
ghost use Rattle.std.specs.Prelude.{◌≡◌};
ghost use Rattle.rv_isa.specs.Width.{bytes_of};
ghost use Rattle.rv_why.specs.Why as spec;

use rv_answers::{Area, Barrier, region_of};
use rv_isa::Width;
use rv_pmp::{Access, Mode, Pmp};

/// Returns what is at an address that isn't in the memory.
#[tactic(auto, unfolding(crate::specs::Why::area_of))]
fn area_of(address: u32) -> Area
    ensures { result ≡ spec.area_of address }
{
    match address {
        0x8000_0000.. => Area::PastEnd,
        0x1000_0000..=0x1000_000b => Area::Serial,
        0x0c00_0000..=0x0fff_ffff => Area::Controller,
        0x0200_0000..=0x0200_ffff => Area::Timer,
        0x0010_0000..=0x0010_0003 => Area::Halt,
        _ => Area::Nothing,
    }
}

/// Returns what refuses an access of a mode.
#[tactic(auto, unfolding(crate::specs::Why::barrier_of))]
pub(crate) fn barrier_of(
    pmp: &Pmp,
    mode: Mode,
    access: Access,
    address: u32,
    width: Width,
) -> Barrier
    ensures { result ≡ spec.barrier_of pmp.now mode access address (bytes_of width) }
{
    if pmp.allowed(mode, access, address, width) {
        return Barrier::Absent(area_of(address));
    }
    match pmp.decider(address) {
        Some(number) => Barrier::Protection {
            mode,
            entry: Some(region_of(number, pmp)),
        },
        None => Barrier::Protection { mode, entry: None },
    }
}
