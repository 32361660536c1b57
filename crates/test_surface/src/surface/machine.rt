//! rv_bus, rv_hart and rv_board: the machine over a memory and a cache.
use rv_asm::Program;
use rv_board::{Board, BootFault, Event, Stopped, TrapRecord};
use rv_bus::{Bus, BusFault, Mark, StoreRefusal};
use rv_cache::{DecodeCache, NoCache};
use rv_csr::Csrs;
use rv_hart::{Hart, Outcome};
use rv_isa::{Lines, NoMemory, Reg, Width};
use rv_mmio::{Serial, Timer};
use rv_plic::{Plic, Source};
use rv_pmp::Mode;
use rv_ram::{FlatMemory, PagedRam};
use std::alloc::Global;

type FlatBus = Bus<FlatMemory>;

const _: fn(FlatMemory, Serial) -> FlatBus = Bus::new;

const _: fn(&mut FlatBus, Source, bool) = Bus::set_line;

const _: fn(&mut FlatBus, u8) = Bus::receive;

const _: fn(&mut FlatBus) = Bus::tick;

const _: fn(&mut FlatBus, u32, Width) -> Result<u32, BusFault> = Bus::load;

const _: fn(&mut FlatBus, u32, Width, u32) -> Result<(), StoreRefusal> = Bus::store;

const _: fn(&FlatBus, u32) -> Result<u32, BusFault> = Bus::fetch;

const _: fn(&FlatBus, u32) -> Option<u8> = Bus::peek;

const _: fn(&FlatBus) -> &Timer = Bus::timer;

const _: fn(&FlatBus) -> &Plic = Bus::plic;

const _: fn(&FlatBus) -> &Serial = Bus::serial;

const _: fn(&FlatBus) -> Lines = Bus::lines;

const _: fn(&FlatBus) -> Option<u16> = Bus::halted;

const _: fn(&FlatBus) -> Mark = Bus::mark;

const _: fn(&mut FlatBus, Mark) = Bus::put_back;

type FlatHart = Hart<FlatMemory, NoCache>;

const _: fn(FlatBus, NoCache) -> FlatHart = Hart::new;

const _: fn(&mut FlatHart, Source, bool) = Hart::set_line;

const _: fn(&mut FlatHart, u8) = Hart::receive;

const _: fn(&mut FlatHart) -> Result<Outcome, NoMemory> = Hart::step;

const _: fn(&FlatHart, Reg) -> u32 = Hart::reg;

const _: fn(&FlatHart) -> u32 = Hart::pc;

const _: fn(&FlatHart) -> Mode = Hart::mode;

const _: fn(&FlatHart) -> &Csrs = Hart::csrs;

const _: fn(&FlatHart) -> &FlatBus = Hart::bus;

const _: fn(&FlatHart) -> &NoCache = Hart::cache;

type FlatBoard = Board<FlatMemory, NoCache>;

const _: fn(Global, &Program, u32, u32) -> Result<Board<PagedRam, DecodeCache>, BootFault> =
    Board::boot;

const _: fn(Global, &Program, FlatMemory, NoCache) -> Result<FlatBoard, BootFault> =
    Board::with_parts;

const _: fn(&mut FlatBoard, Event) -> Result<(), NoMemory> = Board::apply;

const _: fn(&mut FlatBoard, &[Event]) -> Result<(), Stopped> = Board::run;

const _: fn(&mut FlatBoard, &[Event]) -> Result<usize, Stopped> = Board::run_user;

const _: fn(&FlatBoard, Reg) -> u32 = Board::reg;

const _: fn(&FlatBoard) -> u32 = Board::pc;

const _: fn(&FlatBoard) -> Mode = Board::mode;

const _: fn(&FlatBoard, u16) -> Option<u32> = Board::csr;

const _: fn(&FlatBoard, u32) -> Option<u8> = Board::ram;

const _: fn(&FlatBoard) -> &[u8] = Board::console;

const _: fn(&FlatBoard) -> usize = Board::trap_count;

const _: fn(&FlatBoard, usize) -> Option<TrapRecord> = Board::trap;

const _: fn(&FlatBoard) -> u64 = Board::steps;

const _: fn(&FlatBoard) -> Option<u16> = Board::halted;

const _: fn(&FlatBoard) -> &Plic = Board::plic;

const _: fn(&FlatBoard) -> &Timer = Board::timer;

const _: fn(&FlatBoard) -> &Serial = Board::serial;

const _: Stopped = Stopped { done: 1 };

const _: TrapRecord = TrapRecord {
    cause: 2,
    epc: 0x8000_0000,
    tval: 0,
};
