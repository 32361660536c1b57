//! The fields of mstatus, and the bits of mie and mip. Privileged Architecture 20211203, sections 3.1.6 and
//! 3.1.9.
ghost use Rattle.std.specs.Prelude.{◌≡◌, ◌<◌, ◌≤◌, ◌^◌};
ghost use Rattle.rv_isa.specs.Number.{flag};
ghost use Rattle.rv_csr.specs.Registers.{level, with_status, status_word};
ghost use Rattle.rv_csr.specs.Support.RegisterCases.{mode_kept};
ghost use Rattle.rv_csr.specs.Registers as spec;

use rv_isa::Lines;
use rv_pmp::Mode;

/// The fields of mstatus that this hart has. Privileged Architecture 20211203, section 3.1.6.
#[derive(Clone, Copy)]
pub struct Mstatus {
    /// MIE: whether interrupts are taken in machine mode.
    pub mie: bool,
    /// MPIE: MIE before the last trap.
    pub mpie: bool,
    /// MPP: the mode before the last trap.
    pub mpp: Mode,
    /// MPRV: whether loads and stores have the permissions of MPP.
    pub mprv: bool,
    /// TW: whether WFI is illegal in user mode.
    pub tw: bool,
}

impl Mstatus {
    /// Encodes the fields as a word.
    #[tactic(auto, unfolding(crate::specs::Registers::status_word))]
    pub(crate) fn word(&self) -> u32
        ensures { result ≡ status_word self.now }
    {
        ((self.mie as u32) << 3)
            + ((self.mpie as u32) << 7)
            + (mode_level(self.mpp) << 11)
            + ((self.mprv as u32) << 17)
            + ((self.tw as u32) << 21)
    }

    /// Returns the fields after a write of `word`. MPP stays as it is if the word's field is no mode.
    #[tactic(auto, unfolding(crate::specs::Registers::with_status, crate::specs::Support::RegisterCases::mode_kept))]
    pub(crate) fn with_word(&self, word: u32) -> Mstatus
        ensures { result ≡ with_status self.now word }
    {
        Mstatus {
            mie: is_set(word, 3),
            mpie: is_set(word, 7),
            mpp: mode_of(self.mpp, (word >> 11) % 4),
            mprv: is_set(word, 17),
            tw: is_set(word, 21),
        }
    }
}

/// Returns the level of a mode, as a field of two bits.
pub(crate) fn mode_level(mode: Mode) -> u32
    ensures level { result ≡ level mode }
    ensures below { result < 4 }
{
    match mode {
        Mode::User => 0,
        Mode::Machine => 3,
    }
}

/// Returns the mode of a field of two bits, or `old` if it is no mode.
#[tactic(auto, unfolding(crate::specs::Support::RegisterCases::mode_kept))]
fn mode_of(old: Mode, field: u32) -> Mode
    ensures { result ≡ mode_kept old field }
{
    match field {
        0 => Mode::User,
        3 => Mode::Machine,
        _ => old,
    }
}

/// Whether bit `place` of a word is set.
fn is_set(word: u32, place: u32) -> bool
    requires { place < 32 }
    ensures { result ≡ flag word place }
{
    (word >> place) % 2 == 1
}

/// Encodes the levels of the interrupt lines as mie and mip hold them.
#[tactic(auto, unfolding(crate::specs::Registers::lines_word))]
pub(crate) fn lines_word(lines: Lines) -> u32
    ensures { result ≡ spec.lines_word lines }
{
    ((lines.software as u32) << 3) + ((lines.timer as u32) << 7) + ((lines.external as u32) << 11)
}

/// Decodes the bits of mie.
#[tactic(auto, unfolding(crate::specs::Registers::word_lines))]
pub(crate) fn word_lines(word: u32) -> Lines
    ensures { result ≡ spec.word_lines word }
{
    Lines {
        software: is_set(word, 3),
        timer: is_set(word, 7),
        external: is_set(word, 11),
    }
}
