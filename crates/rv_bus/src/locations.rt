//! The address table: what stands at each address.
ghost use Rattle.std.specs.Prelude.{◌≡◌, ◌+◌, ◌%◌, ◌<◌, ℕ};
ghost use Rattle.rv_isa.specs.Width.{bytes_of};
ghost use Rattle.rv_isa.specs.declared.op.Width.{Width};
ghost use Rattle.rv_bus.specs.Support.Locations.{controller, device_in, for_width, location_of, registers};
ghost use Rattle.rv_bus.specs.Support.Within.{IsWithin};

use rv_base::RAM_BASE;
use rv_isa::Width;
use rv_mmio::{SerialReg, TimerReg};

/// The first address of the interrupt controller's window.
const PLIC: u32 = 0x0c00_0000;

/// The number of bytes of that window.
const PLIC_SIZE: u32 = 0x0400_0000;

/// The location that the address table has at an address, for an access of some width.
#[derive(Clone, Copy)]
pub enum Location {
    /// The memory, at this offset in bytes. It takes accesses of every width, and fetches.
    Ram(u32),
    /// The halt register. It takes words.
    Halt,
    /// A register of the timer. It takes words.
    Timer(TimerReg),
    /// This offset in bytes in the interrupt controller's window. It takes words.
    Plic(u32),
    /// A register of the serial port. It takes accesses of every width.
    Serial(SerialReg),
    /// No location: an access is a fault.
    Nowhere,
}

/// Returns the location at an address, for an access of this width to a memory of `size` bytes.
#[tactic(auto, using(crate::proofs::Fit::memory_within), unfolding(crate::specs::Support::Locations::location_of))]
pub(crate) fn find_location(size: u32, addr: u32, width: Width) -> Location
    requires words { size % 4096 ≡ 0 }
    requires aligned { addr % bytes_of width ≡ 0 }
    ensures location { result ≡ location_of size addr width }
    ensures within { IsWithin size addr width result }
{
    if addr >= RAM_BASE && addr - RAM_BASE < size {
        return Location::Ram(addr - RAM_BASE);
    }
    match width {
        Width::Four => device(addr),
        Width::One | Width::Two => narrow(device(addr)),
    }
}

/// Returns a device, if it takes accesses that are narrower than a word.
fn narrow(device: Location) -> Location
    ensures one { result ≡ for_width device Width.One }
    ensures two { result ≡ for_width device Width.Two }
    ensures within { (size : ℕ) (addr : ℕ) (w : Width) → IsWithin size addr w result }
{
    match device {
        Location::Serial(register) => Location::Serial(register),
        _ => Location::Nowhere,
    }
}

/// Returns the device at an address.
fn device(addr: u32) -> Location
    ensures location { result ≡ device_in registers addr }
    ensures within { (size : ℕ) (w : Width) → addr % 4 ≡ 0 → IsWithin size addr w result }
{
    match addr {
        0x1000_0000 => Location::Serial(SerialReg::Tx),
        0x1000_0004 => Location::Serial(SerialReg::Rx),
        0x1000_0008 => Location::Serial(SerialReg::Status),
        0x0010_0000 => Location::Halt,
        0x0200_0000 => Location::Timer(TimerReg::Msip),
        0x0200_4000 => Location::Timer(TimerReg::MtimecmpLow),
        0x0200_4004 => Location::Timer(TimerReg::MtimecmpHigh),
        0x0200_bff8 => Location::Timer(TimerReg::MtimeLow),
        0x0200_bffc => Location::Timer(TimerReg::MtimeHigh),
        _ => controller(addr),
    }
}

/// Returns the location of the interrupt controller at an address, if it is there.
fn controller(addr: u32) -> Location
    ensures location { result ≡ controller addr }
    ensures within { (size : ℕ) (w : Width) → addr % 4 ≡ 0 → IsWithin size addr w result }
{
    if addr >= PLIC && addr - PLIC < PLIC_SIZE {
        Location::Plic(addr - PLIC)
    } else {
        Location::Nowhere
    }
}
