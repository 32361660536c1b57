//! The halt register.
ghost use Rattle.std.specs.Prelude.{◌≡◌, None};
ghost use Rattle.rv_mmio.specs.Halt.{halted_by};

use std::marker::Model;

/// The halt register, seen as the code of the last store that halted the board, if there was one.
#[derive(Clone, Copy)]
pub struct Halt {
    code: Option<u16>,
}

impl Model for Halt {
    ghost use Rattle.std.specs.Prelude.{ℕ, Option};

    ghost Value = { Option ℕ };

    ghost view = { λ h. h.code };

    ghost inverse = { λ code. record { code = code } };
}

impl Halt {
    /// Returns the register before any store.
    pub fn new() -> Halt
        ensures { result ≡ None }
    {
        Halt { code: None }
    }

    /// Stores a word. One with the low half 0x5555 halts the board with code 0, one with the low half 0x3333
    /// with its high half as the code, and any other changes nothing.
    pub fn store(&mut self, word: u32)
        ensures { self.new ≡ halted_by self.old word }
    {
        match word % 65536 {
            0x5555 => self.code = Some(0),
            0x3333 => self.code = Some((word / 65536) as u16),
            _ => (),
        }
    }

    /// Returns the code that the board was halted with, if it was halted.
    pub fn code(&self) -> Option<u16>
        ensures { result ≡ self.now }
    {
        self.code
    }
}
