//! The registers by their names, the control registers, and traps with their causes.
ghost use Rattle.std.specs.Prelude.{◌≡◌, length};

use crate::Printer;
use crate::interrupts::sign;
use crate::memory::append_word;
use crate::values::{Bits, ControlValue, RegisterValue, Registers, Trap};
use rv_isa::Reg;
use std::fmt::{self, Display, Formatter};

/// The names of the registers in the calling convention, by number.
static NAMES: [&str; 32] = [
    "zero", "ra", "sp", "gp", "tp", "t0", "t1", "t2", "s0", "s1", "a0", "a1", "a2", "a3", "a4",
    "a5", "a6", "a7", "s2", "s3", "s4", "s5", "s6", "s7", "s8", "s9", "s10", "s11", "t3", "t4",
    "t5", "t6",
];

/// Returns the names of the registers by number.
fn names() -> &'static [&'static str]
    ensures { length result.now ≡ 32 }
{
    &NAMES
}

/// Returns the name of a register in the calling convention.
pub(crate) fn register_name(register: Reg) -> &'static str {
    names()[register.index()]
}

/// A word, and in decimal too where it is a small number; dashes where there is none.
#[derive(Clone, Copy)]
pub(crate) struct Value(pub(crate) Option<u32>);

impl Display for Value {
    fn fmt<W: fmt::Write>(&self, f: &mut Formatter<W>) -> fmt::Result {
        match self.0 {
            None => f.write_str("--------"),
            Some(word) if word >= 1_000_000 && word < 0xffff_f000 => write!(f, "{word:08x}"),
            Some(word) => {
                let number = word.cast_signed();
                write!(f, "{word:08x} ({number})")
            }
        }
    }
}

impl Display for RegisterValue {
    fn fmt<W: fmt::Write>(&self, f: &mut Formatter<W>) -> fmt::Result {
        let name = register_name(self.register);
        write!(f, "{name} = {}", Value(Some(self.value)))
    }
}

/// Appends all registers, four in a line, with a star before each that changed.
pub(crate) fn append_registers(before: &Registers, now: &Registers, text: &mut Printer) {
    for number in 0..32u8 {
        let register = Reg::of(number);
        let word = now[register.index()];
        text.say(sign(word == before[register.index()], "  ", " *"));
        write!(text, "{:<5}{word:08x}", register_name(register));
        text.say(sign(number % 4 == 3, "\n", ""));
    }
}

/// Returns the name of a cause.
pub(crate) fn cause_name(cause: u32) -> &'static str {
    match cause {
        0 => "jump to an address that isn't a multiple of 4",
        1 => "instruction access fault",
        2 => "illegal instruction",
        3 => "ebreak",
        4 => "load address misaligned",
        5 => "load access fault",
        6 => "store address misaligned",
        7 => "store access fault",
        8 => "ecall from user mode",
        11 => "ecall from machine mode",
        0x8000_0003 => "software interrupt",
        0x8000_0007 => "timer interrupt",
        0x8000_000b => "external interrupt",
        _ => "unknown cause",
    }
}

/// The number of a cause, of an interrupt in hexadecimal, and its name.
#[derive(Clone, Copy)]
pub(crate) struct Cause(pub(crate) u32);

impl Display for Cause {
    fn fmt<W: fmt::Write>(&self, f: &mut Formatter<W>) -> fmt::Result {
        let cause = self.0;
        let name = cause_name(cause);
        if cause < 0x8000_0000 {
            write!(f, "{cause}, {name}")
        } else {
            write!(f, "{cause:08x}, {name}")
        }
    }
}

impl Display for Trap {
    fn fmt<W: fmt::Write>(&self, f: &mut Formatter<W>) -> fmt::Result {
        write!(f, "trap {}, mtval {:08x}", Cause(self.cause), self.value)
    }
}

/// Appends what the bits of a control register say.
fn append_bits(bits: Bits, text: &mut Printer) {
    match bits {
        Bits::Status {
            mie,
            mpie,
            mpp,
            mprv,
            tw,
        } => {
            let (mie, mpie, mprv, tw) = (mie as u8, mpie as u8, mprv as u8, tw as u8);
            let mpp = sign(mpp, "machine", "user");
            write!(
                text,
                "  MIE {mie}  MPIE {mpie}  MPP {mpp}  MPRV {mprv}  TW {tw}"
            );
        }
        Bits::Lines {
            software,
            timer,
            external,
        } => {
            let (software, timer, external) = (software as u8, timer as u8, external as u8);
            write!(
                text,
                "  software {software}  timer {timer}  external {external}"
            );
        }
        Bits::Cause(cause) => write!(text, "  {}", cause_name(cause)),
    }
}

/// Appends a control register.
pub(crate) fn append_control(value: &ControlValue, text: &mut Printer) {
    text.put(value.name.items());
    text.say(" = ");
    append_word(value.value, text);
    if let Some(bits) = value.bits {
        append_bits(bits, text);
    }
    text.end();
}
