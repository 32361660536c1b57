//! rv_plic and rv_mmio: the interrupt controller, the timer, the serial port and the halt register.
use rv_isa::NoMemory;
use rv_mmio::{Halt, Serial, SerialReg, Timer};
use rv_plic::{Plic, Source};
use std::alloc::Global;

const _: fn(u8) -> Option<Source> = Source::new;

const _: fn() -> Plic = Plic::new;

const _: fn(&mut Plic, Source, bool) = Plic::set_line;

const _: fn(&mut Plic) = Plic::forward;

const _: fn(&mut Plic, u32) -> u32 = Plic::load;

const _: fn(&Plic, u32) -> u32 = Plic::peek;

const _: fn(&mut Plic, u32, u32) = Plic::store;

const _: fn(&Plic, Source) -> u32 = Plic::edges;

const _: fn(&Plic) -> bool = Plic::external;

const _: fn() -> Timer = Timer::new;

const _: fn(&mut Timer) = Timer::tick;

const _: fn(&Timer, u32) -> Option<u32> = Timer::load;

const _: fn(&mut Timer, u32, u32) -> Option<()> = Timer::store;

const _: fn(&Timer) -> bool = Timer::software;

const _: fn(&Timer) -> bool = Timer::due;

const _: fn(Global) -> Result<Serial, NoMemory> = Serial::new;

const _: fn(&mut Serial, u8) = Serial::receive;

const _: fn(&mut Serial, SerialReg) -> u32 = Serial::load;

const _: fn(&mut Serial, SerialReg, u32) -> Result<(), NoMemory> = Serial::store;

const _: fn(&Serial) -> &[u8] = Serial::console;

const _: fn(&Serial) -> usize = Serial::waiting;

const _: fn(&Serial) -> bool = Serial::overrun;

const _: [SerialReg; 3] = [SerialReg::Tx, SerialReg::Rx, SerialReg::Status];

const _: fn() -> Halt = Halt::new;

const _: fn(&mut Halt, u32) = Halt::store;

const _: fn(&Halt) -> Option<u16> = Halt::code;
