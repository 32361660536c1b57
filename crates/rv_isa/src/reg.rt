//! The integer registers.
ghost use Rattle.std.specs.Prelude.{◌≡◌, ◌<◌, ◌%◌, ◌↔◌, ℕ, IsSome, IfSome};

use std::marker::Model;

/// One of the integer registers x0 to x31, seen as its number.
///
/// RISC-V Unprivileged ISA 20191213, section 2.1. Its text is `x` and the number, as `x10`.
#[derive(Clone, Copy)]
pub struct Reg(pub(crate) u8);

impl Model for Reg {
    ghost use Rattle.std.specs.Prelude.{ℕ, ◌<◌};

    ghost Value = { ℕ };

    ghost view = { λ r. r.0 };

    ghost invariant = { λ r. r.0 < 32 };

    ghost inverse = { λ n. record { 0 = n } };
}

impl Reg {
    /// Returns the register with a number, or `None` exactly if the number is above 31.
    pub fn new(number: u8) -> Option<Reg>
        ensures valid { IsSome result ↔ (number < 32) }
        ensures value { IfSome result (λ r. r ≡ number) }
    {
        if number < 32 { Some(Reg(number)) } else { None }
    }

    /// Returns the register with a number below 32.
    pub fn of(number: u8) -> Reg
        requires { number < 32 }
        ensures { result ≡ number }
    {
        Reg(number)
    }

    /// Returns the number: 0 to 31.
    pub fn number(self) -> u8
        ensures value { result ≡ self }
        ensures below { result < 32 }
    {
        self.0
    }

    /// Returns the number as an index into the 32 registers.
    pub fn index(self) -> usize
        ensures value { result ≡ self }
        ensures below { result < 32 }
    {
        self.0 as usize
    }

    /// Returns the register whose number is in the low five bits, whatever the others are.
    pub(crate) fn from_low_bits(bits: u32) -> Reg
        ensures value { result ≡ bits % 32 }
        ensures below { result < 32 }
    {
        Reg((bits % 32) as u8)
    }
}
