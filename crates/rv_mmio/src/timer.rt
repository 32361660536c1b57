//! The machine timer.
ghost use Rattle.std.specs.Prelude.{◌≡◌};
ghost use Rattle.std.specs.Option.{option_map, option_map_or};
ghost use Rattle.rv_mmio.specs.Timer.{timer_at_reset, timer_ticked, is_due, timer_register, register_at};

use rv_base::{high_word, low_word, with_high_word, with_low_word};
use std::marker::Model;

/// A register of the timer: one word, at an address of its own.
///
/// Privileged Architecture 20211203, section 3.2.1: mtime and mtimecmp have 64 bits, and a hart of 32 bits
/// accesses them word by word.
#[derive(Clone, Copy)]
pub enum TimerReg {
    /// The software interrupt bit msip, in bit 0 (section 3.1.9).
    Msip,
    /// The low word of mtimecmp, the time to compare with.
    MtimecmpLow,
    /// The high word of mtimecmp.
    MtimecmpHigh,
    /// The low word of mtime, the time.
    MtimeLow,
    /// The high word of mtime.
    MtimeHigh,
}

impl TimerReg {
    /// Returns the register at an offset in bytes from the timer's first address, if there is one.
    pub fn at(off: u32) -> Option<TimerReg>
        ensures { result ≡ register_at off }
    {
        match off {
            0 => Some(TimerReg::Msip),
            0x4000 => Some(TimerReg::MtimecmpLow),
            0x4004 => Some(TimerReg::MtimecmpHigh),
            0xbff8 => Some(TimerReg::MtimeLow),
            0xbffc => Some(TimerReg::MtimeHigh),
            _ => None,
        }
    }
}

/// The machine timer: the time, the time at which its interrupt line rises, and the level of the software
/// interrupt line.
#[derive(Clone, Copy, PartialEq, Eq, Debug)]
pub struct Timer {
    software: bool,
    time: u64,
    compare: u64,
}

impl Model for Timer {
    ghost use Rattle.rv_mmio.specs.Timer.{TimerState};

    ghost Value = { TimerState };

    ghost view = { λ t. record { software = t.software; time = t.time; compare = t.compare } };

    ghost inverse = { λ t. record { software = t.software; time = t.time; compare = t.compare } };
}

impl Timer {
    /// Returns the timer at reset: time 0, the largest time to compare with, and the software interrupt line
    /// low.
    pub fn new() -> Timer
        ensures { result ≡ timer_at_reset }
    {
        Timer {
            software: false,
            time: 0,
            compare: u64::MAX,
        }
    }

    /// Advances the time by one, modulo 2^64.
    pub fn tick(&mut self)
        ensures { self.new ≡ timer_ticked self.old }
    {
        self.time = self.time.wrapping_add(1);
    }

    /// Returns the time.
    pub fn time(&self) -> u64
        ensures { result ≡ self.now.time }
    {
        self.time
    }

    /// Returns the time to compare with, at which the interrupt line rises.
    pub fn compare(&self) -> u64
        ensures { result ≡ self.now.compare }
    {
        self.compare
    }

    /// Returns this timer with another time.
    pub fn at_time(&self, time: u64) -> Timer
        ensures { result ≡ record self.now { time = time } }
    {
        Timer { time, ..*self }
    }

    /// Returns the level of the software interrupt line.
    pub fn software(&self) -> bool
        ensures { result ≡ self.now.software }
    {
        self.software
    }

    /// Returns the level of the timer interrupt line: whether the time has reached the time to compare with.
    pub fn due(&self) -> bool
        ensures { result ≡ is_due self.now }
    {
        self.time >= self.compare
    }

    /// Loads the word at an offset in bytes from the timer's first address.
    ///
    /// Returns `None` where no register is.
    pub fn load(&self, off: u32) -> Option<u32>
        ensures { result ≡ option_map (λ reg. (timer_register reg).word self.now) (register_at off) }
    {
        TimerReg::at(off).map(|reg| self.word(reg))
    }

    /// Stores a word at an offset in bytes from the timer's first address.
    ///
    /// Returns `None`, and changes nothing, where no register is.
    pub fn store(&mut self, off: u32, word: u32) -> Option<()>
        ensures result { result ≡ option_map (λ _. tt) (register_at off) }
        ensures after { self.new ≡ option_map_or (λ reg. (timer_register reg).stored self.old word) (register_at off) self.old }
    {
        let reg = TimerReg::at(off)?;
        self.set_word(reg, word);
        Some(())
    }

    /// Returns the word of a register.
    pub fn word(&self, reg: TimerReg) -> u32
        ensures { result ≡ (timer_register reg).word self.now }
    {
        match reg {
            TimerReg::Msip => self.software as u32,
            TimerReg::MtimecmpLow => low_word(self.compare),
            TimerReg::MtimecmpHigh => high_word(self.compare),
            TimerReg::MtimeLow => low_word(self.time),
            TimerReg::MtimeHigh => high_word(self.time),
        }
    }

    /// Stores a word in a register. The software interrupt bit keeps bit 0.
    pub fn set_word(&mut self, reg: TimerReg, word: u32)
        ensures { self.new ≡ (timer_register reg).stored self.old word }
    {
        match reg {
            TimerReg::Msip => self.software = word % 2 == 1,
            TimerReg::MtimecmpLow => self.compare = with_low_word(self.compare, word),
            TimerReg::MtimecmpHigh => self.compare = with_high_word(self.compare, word),
            TimerReg::MtimeLow => self.time = with_low_word(self.time, word),
            TimerReg::MtimeHigh => self.time = with_high_word(self.time, word),
        }
    }
}
