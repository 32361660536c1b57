//! The bus over a memory.
ghost use Rattle.std.specs.Prelude.{◌≡◌, ◌≢◌, ◌+◌, ◌*◌, ◌/◌, ◌%◌, ◌^◌, ◌<◌, ◌≤◌, ℕ, true, false, length, All, Some, None, IfOk, IfErr, OnOk, OnErr};
ghost use Rattle.std.specs.Result.{result_ok};
ghost use Rattle.rv_isa.specs.Width.{bytes_of};
ghost use Rattle.rv_base.specs.Limits.{ram_base};
ghost use Rattle.rv_ram.specs.Bytes.{put, value_at};
ghost use Rattle.rv_ram.specs.Support.Table.{HasPages};
ghost use Rattle.rv_mmio.specs.Serial.{serial_register};
ghost use Rattle.rv_mmio.specs.Serial as serial;
ghost use Rattle.rv_bus.specs.State.{BusState, bus_at_reset};
ghost use Rattle.rv_plic.specs.Plic as plic;
ghost use Rattle.rv_mmio.specs.Timer.{timer_ticked};
ghost use Rattle.rv_bus.specs.Access.{load, store, keeps_stores, fetch, ram_byte, lines_of};
ghost use Rattle.rv_bus.specs.Support.AtLocation.{IsFor, location};
ghost use Rattle.rv_bus.specs.Support.Within.{IsWithin};
ghost use Rattle.rv_bus.specs.Room.{wants_room};
ghost use Rattle.rv_bus.specs.Ticks.{mark_before, next_tick, ticked};
ghost use Rattle.rv_bus.specs.declared.bus.StoreRefusal.TheVariants as refusal;

use crate::locations::{Location, find_location};
use rv_base::{NoMemory, RAM_BASE};
use rv_isa::{Lines, Width};
use rv_mmio::{Halt, Serial, SerialReg, Timer};
use rv_plic::{Plic, Source, SourceSet};
use rv_ram::{ByteMemory, PagedRam};
use std::alloc::Global;
use std::marker::Model;

/// The error of an access for which the address table has no location.
#[derive(Clone, Copy, Debug, PartialEq, Eq)]
pub struct BusFault;

/// The error of a store.
#[derive(Clone, Copy, Debug, PartialEq, Eq)]
pub enum StoreRefusal {
    /// The address table has no location for the access.
    Fault,
    /// Out of memory: the memory or the console could not grow.
    NoMemory,
}

impl From<NoMemory> for StoreRefusal {
    ghost use Rattle.std.specs.Prelude.{◌≡◌};
    ghost use Rattle.rv_bus.specs.declared.bus.StoreRefusal.TheVariants as refusal;

    ghost from_gives = { λ _ e. e ≡ refusal.NoMemory };

    fn from(_: NoMemory) -> Self {
        StoreRefusal::NoMemory
    }
}

/// A mark: copies of the timer and the interrupt controller, by which ticks are undone.
#[derive(Clone, Copy)]
pub struct Mark {
    timer: Timer,
    plic: Plic,
}

impl Model for Mark {
    ghost use Rattle.std.specs.Coded.{codes};
    ghost use Rattle.rv_plic.specs.Support.Codes.{plic_code};
    ghost use Rattle.rv_bus.specs.Ticks.{MarkState};

    ghost Value = { MarkState };

    ghost coded = { Prim.hlevel (codes, plic_code) };

    ghost view = { λ m. record { timer = m.timer; plic = m.plic } };

    ghost inverse = { λ m. record { timer = m.timer; plic = m.plic } };
}

/// The part of the bus that the next tick changes: the time, and the sources whose requests it forwards.
#[derive(Clone, Copy)]
pub struct Tick {
    time: u64,
    requests: SourceSet,
}

impl Model for Tick {
    ghost use Rattle.std.specs.Coded.{codes};
    ghost use Rattle.rv_plic.specs.Support.Codes.{sources_code};
    ghost use Rattle.rv_bus.specs.Ticks.{TickState};

    ghost Value = { TickState };

    ghost coded = { Prim.hlevel (codes, sources_code) };

    ghost view = { λ t. record { time = t.time; requests = t.requests } };

    ghost inverse = { λ t. record { time = t.time; requests = t.requests } };
}

/// The memory and the devices, each at its addresses.
///
/// | Address | Location | Widths |
/// |---|---|---|
/// | 0x00100000 | halt register | 4 |
/// | 0x02000000, +0x4000, +0x4004, +0xBFF8, +0xBFFC | timer: msip, mtimecmp low and high, mtime low and high | 4 |
/// | 0x0C000000 to 0x0FFFFFFF | interrupt controller | 4 |
/// | 0x10000000, +4, +8 | serial port: transmit, receive, status | 1, 2, 4 |
/// | 0x80000000 and on | memory | 1, 2, 4, fetch |
///
/// Any other access is a fault, by its address, its width, or since it is a fetch. A narrow load of a
/// register returns its low bits.
#[derive(Drop)]
pub struct Bus<M: ByteMemory> {
    ram: M,
    timer: Timer,
    plic: Plic,
    serial: Serial,
    halt: Halt,
}

impl<M: ByteMemory> Model for Bus<M> {
    ghost use Rattle.std.specs.Coded.{codes};
    ghost use Rattle.rv_plic.specs.Support.Codes.{plic_code};
    ghost use Rattle.rv_bus.specs.State.{BusState};

    ghost Value = { BusState };

    ghost coded = { Prim.hlevel (codes, plic_code) };

    ghost view = { λ b. record {
      ram = M.bytes b.ram;
      timer = b.timer;
      plic = b.plic;
      serial = b.serial;
      halt = b.halt;
    } };
}

impl<M: ByteMemory> Bus<M> {
    /// Returns a bus over a memory and a serial port, with all other devices at reset.
    pub fn new(ram: M, serial: Serial) -> Bus<M>
        ensures { result ≡ record (bus_at_reset (M.bytes ram)) { serial = serial } }
    {
        Bus {
            ram,
            timer: Timer::new(),
            plic: Plic::new(),
            serial,
            halt: Halt::new(),
        }
    }

    /// Returns the location at an address, for an access of this width.
    fn location(&self, addr: u32, width: Width) -> Location
        requires { addr % bytes_of width ≡ 0 }
        ensures location { result ≡ location self.now addr width }
        ensures is { IsFor self.now addr width result }
        ensures within { IsWithin (length self.now.ram) addr width result }
    {
        find_location(self.ram.size(), addr, width)
    }

    /// Fetches the word at an address that is a multiple of 4. Only the memory can be fetched from.
    pub fn fetch(&self, addr: u32) -> Result<u32, BusFault>
        requires { addr % 4 ≡ 0 }
        ensures { result_ok result ≡ fetch self.now.ram addr }
    {
        match self.location(addr, Width::Four) {
            Location::Ram(off) => Ok(self.ram.read_word(off)),
            _ => Err(BusFault),
        }
    }

    /// Loads a value, extended with zeros, from an address that is a multiple of its width. A load of the
    /// receive register takes the byte, one of the status register clears the overrun, and one of the claim
    /// register claims; a faulting load changes nothing.
    pub fn load(&mut self, addr: u32, width: Width) -> Result<u32, BusFault>
        requires { addr % bytes_of width ≡ 0 }
        ensures ok { IfOk result (λ v. load self.old addr width ≡ Some (v, self.new)) }
        ensures fault { OnErr result ((load self.old addr width ≡ None) × (self.new ≡ self.old)) }
        ensures ram { self.new.ram ≡ self.old.ram }
    {
        match self.location(addr, width) {
            Location::Ram(off) => Ok(self.load_ram(off, width)),
            Location::Halt => Ok(0),
            Location::Timer(register) => Ok(self.timer.word(register)),
            Location::Plic(off) => Ok(self.plic.load(off)),
            Location::Serial(register) => Ok(self.load_serial(register, width)),
            Location::Nowhere => Err(BusFault),
        }
    }

    /// Returns the number of bytes of the memory, which begins at 0x80000000.
    #[inline(always)]
    pub fn ram_size(&self) -> u32
        ensures size { result ≡ length self.now.ram }
        ensures most { result ≤ 2 ^ 24 }
        ensures pages { result % 4096 ≡ 0 }
    {
        self.ram.size()
    }

    /// Returns the value at an offset of the memory.
    #[inline(always)]
    #[tactic(auto, using(rv_ram::proofs::Value::byte_value, rv_ram::proofs::Value::half_value))]
    pub fn load_ram(&self, off: u32, width: Width) -> u32
        requires within { off + bytes_of width ≤ length self.now.ram }
        requires aligned { off % bytes_of width ≡ 0 }
        ensures { result ≡ value_at self.now.ram off (bytes_of width) }
    {
        match width {
            Width::One => self.ram.read(off) as u32,
            Width::Two => self.ram.read(off) as u32 + 256 * self.ram.read(off + 1) as u32,
            Width::Four => self.ram.read_word(off),
        }
    }

    /// Loads a register of the serial port: the low bytes of its word.
    fn load_serial(&mut self, register: SerialReg, width: Width) -> u32
        ensures value { result ≡ (serial_register register).word self.old.serial % 256 ^ bytes_of width }
        ensures after { self.new ≡ record self.old { serial = (serial_register register).loaded self.old.serial } }
    {
        let word = self.serial.load(register);
        match width {
            Width::One => word % 256,
            Width::Two => word % 65536,
            Width::Four => word,
        }
    }

    /// Stores the low bytes of a value at an address that is a multiple of their number. A refused store
    /// changes nothing. It may be out of memory only where room has to be made: in the memory, by the
    /// memory's own rule, or in the console where it has none, which is at most once in 4096 bytes.
    #[tactic(auto, using(crate::proofs::Others::fetch_put))]
    pub fn store(&mut self, addr: u32, width: Width, value: u32) -> Result<(), StoreRefusal>
        requires { addr % bytes_of width ≡ 0 }
        ensures ok { OnOk result (store self.old addr width value ≡ Some self.new) }
        ensures err { OnErr result (self.new ≡ self.old) }
        ensures fault { IfErr result (λ e. e ≡ refusal.Fault → store self.old addr width value ≡ None) }
        ensures memory { IfErr result (λ e. e ≡ refusal.NoMemory → keeps_stores self.old addr ≡ true) }
        ensures room { IfErr result (λ e. e ≡ refusal.NoMemory
            → wants_room M.wants_room self.old addr width value ≡ true) }
        ensures others { (a : ℕ) → a % 4 ≡ 0 → a ≢ addr / 4 * 4 → fetch self.new.ram a ≡ fetch self.old.ram a }
    {
        match self.location(addr, width) {
            Location::Ram(off) => self.ram.write(off, width, value)?,
            Location::Halt => self.halt.store(value),
            Location::Timer(register) => self.timer.set_word(register, value),
            Location::Plic(off) => self.plic.store(off, value),
            Location::Serial(register) => self.serial.store(register, value)?,
            Location::Nowhere => return Err(StoreRefusal::Fault),
        }
        Ok(())
    }

    /// Whether a write may be tried by `overwrite_ram` before `store`, by the memory's own word.
    #[inline(always)]
    pub fn has_overwrite(&self) -> bool {
        self.ram.has_overwrite()
    }

    /// Writes the low bytes of a value at an offset of the memory, where no room has to be made. Returns
    /// whether it wrote: where it didn't, it changes nothing. Over a memory that has an
    /// `overwrite`, it never allocates.
    #[inline(always)]
    #[tactic(auto, using(crate::proofs::Others::fetch_put))]
    pub fn overwrite_ram(&mut self, off: u32, width: Width, value: u32) -> bool
        requires within { off + bytes_of width ≤ length self.old.ram }
        requires aligned { off % bytes_of width ≡ 0 }
        ensures written { result ≡ true → self.new ≡ record self.old { ram = put self.old.ram off (bytes_of width) value } }
        ensures refused { result ≡ false → self.new ≡ self.old }
        ensures room { result ≡ false → M.wants_room self.old.ram off width value ≡ true }
        ensures others { (a : ℕ) → a % 4 ≡ 0 → a ≢ (ram_base + off) / 4 * 4
            → fetch self.new.ram a ≡ fetch self.old.ram a }
    {
        self.ram.overwrite(off, width, value)
    }

    /// Returns the byte of the memory at an address, if there is one. Nothing changes.
    pub fn peek(&self, addr: u32) -> Option<u8>
        ensures { result ≡ ram_byte self.now.ram addr }
    {
        if addr >= RAM_BASE && addr - RAM_BASE < self.ram.size() {
            Some(self.ram.read(addr - RAM_BASE))
        } else {
            None
        }
    }

    /// Advances the time by one tick, and forwards the requests of the interrupt controller's gateways.
    pub fn tick(&mut self)
        ensures { self.new ≡ record self.old {
          timer = timer_ticked self.old.timer;
          plic = plic.forwarded self.old.plic;
        } }
    {
        self.timer.tick();
        self.plic.forward();
    }

    /// Advances the time by a number of ticks. The interrupt controller stays as it is.
    pub fn advance(&mut self, ticks: u64)
        ensures advanced { self.new
            ≡ record self.old { timer = record self.old.timer { time = (self.old.timer.time + ticks) % 2 ^ 64 } } }
        ensures time { self.old.timer.time < 2 ^ 64 }
    {
        let time = self.timer.time().wrapping_add(ticks);
        self.timer = self.timer.at_time(time);
    }

    /// Returns the levels of the interrupt lines into the hart.
    pub fn lines(&self) -> Lines
        ensures { result ≡ lines_of self.now }
    {
        Lines {
            software: self.timer.software(),
            timer: self.timer.due(),
            external: self.plic.external(),
        }
    }

    /// Sets the level of an interrupt source's line.
    pub fn set_line(&mut self, source: Source, high: bool)
        ensures { self.new ≡ record self.old { plic = plic.with_line self.old.plic source high } }
    {
        self.plic.set_line(source, high);
    }

    /// Receives a byte at the serial port.
    pub fn receive(&mut self, byte: u8)
        ensures { self.new ≡ record self.old { serial = serial.received self.old.serial byte } }
    {
        self.serial.receive(byte);
    }

    /// Returns a mark: copies of the timer and the interrupt controller.
    pub fn mark(&self) -> Mark
        ensures { result ≡ record { timer = self.now.timer; plic = self.now.plic } }
    {
        Mark {
            timer: self.timer,
            plic: self.plic,
        }
    }

    /// Undoes the ticks since a mark: sets the timer and the interrupt controller back to it, and nothing else.
    pub fn put_back(&mut self, mark: Mark)
        ensures { self.new ≡ record self.old { timer = mark.timer; plic = mark.plic } }
    {
        self.timer = mark.timer;
        self.plic = mark.plic;
    }

    /// Returns the part that the next tick changes. It is smaller than a mark, and one can be made of it
    /// afterwards, since each count of pending edges has 32 bits.
    pub fn next_tick(&self) -> Tick
        ensures tick { result ≡ next_tick self.now }
        ensures words { All (λ n. n < 2 ^ 32) self.now.plic.edges }
    {
        Tick {
            time: self.timer.time(),
            requests: self.plic.ready(),
        }
    }

    /// Returns the mark before the last tick, where `tick` was `next_tick` before it: the time that `tick`
    /// has, and the interrupt controller with its requests withdrawn.
    pub fn mark_before(&self, tick: Tick) -> Mark
        ensures value { result ≡ mark_before self.now tick }
        ensures before { (old : BusState) → All (λ n. n < 2 ^ 32) old.plic.edges → self.now ≡ ticked old
            → tick ≡ next_tick old → result ≡ record { timer = old.timer; plic = old.plic } }
    {
        let mut plic = self.plic;
        plic.withdraw(tick.requests);
        Mark {
            timer: self.timer.at_time(tick.time),
            plic,
        }
    }

    /// Returns the code that the board was halted with, if it was halted.
    pub fn halted(&self) -> Option<u16>
        ensures { result ≡ self.now.halt }
    {
        self.halt.code()
    }

    /// Returns the timer.
    pub fn timer(&self) -> &Timer
        ensures { result.now ≡ self.now.timer }
    {
        &self.timer
    }

    /// Returns the interrupt controller.
    pub fn plic(&self) -> &Plic
        ensures { result.now ≡ self.now.plic }
    {
        &self.plic
    }

    /// Returns the serial port.
    pub fn serial(&self) -> &Serial
        ensures { result.now ≡ self.now.serial }
    {
        &self.serial
    }
}

impl Bus<PagedRam> {
    /// Returns a copy of the memory and the devices.
    ///
    /// # Errors
    ///
    /// `NoMemory` if memory runs out.
    pub fn try_clone(&self, alloc: Global) -> Result<Bus<PagedRam>, NoMemory>
        ensures { IfOk result (λ bus. bus ≡ self.now) }
    {
        let ram = self.ram.try_clone(alloc)?;
        let serial = self.serial.try_clone(alloc)?;
        Ok(Bus {
            ram,
            timer: self.timer,
            plic: self.plic,
            serial,
            halt: self.halt,
        })
    }
}
