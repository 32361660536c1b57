//! rv_pmp and rv_csr: protection and the control registers.
use rv_csr::Csrs;
use rv_isa::{Lines, Width};
use rv_pmp::{Access, Mode, Pmp};

const _: fn() -> Pmp = Pmp::new;

const _: fn(&Pmp, u16) -> Option<u32> = Pmp::read_csr;

const _: fn(&mut Pmp, u16, u32) -> Option<()> = Pmp::write_csr;

const _: fn(&Pmp, Mode, Access, u32, Width) -> bool = Pmp::allowed;

const _: fn() -> Csrs = Csrs::new;

const _: fn(&Csrs, u16, Mode, Lines) -> Option<u32> = Csrs::read;

const _: fn(&mut Csrs, u16, Mode, u32) -> Option<()> = Csrs::write;

const _: fn(&Csrs, Mode, Lines) -> Option<u32> = Csrs::pending;

const _: fn(&mut Csrs, u32, u32, u32, Mode) -> u32 = Csrs::enter_trap;

const _: fn(&mut Csrs) -> (Mode, u32) = Csrs::leave_trap;

const _: fn(&Csrs, Mode) -> Mode = Csrs::data_mode;

const _: fn(&mut Csrs, bool, Option<u16>) = Csrs::count;

const _: fn(&Csrs) -> &Pmp = Csrs::pmp;

const _: [Access; 3] = [Access::Read, Access::Write, Access::Execute];

const _: [Mode; 2] = [Mode::User, Mode::Machine];
