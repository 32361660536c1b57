//! The control registers as a whole: reads and writes, interrupts, traps and the return from them.
ghost use Rattle.std.specs.Prelude.{◌≡◌, ℕ, ◌+◌, ◌%◌, ◌^◌, ◌<◌, ◌≤◌, true, false, Some, None, is_some, MatchOption};
ghost use Rattle.rv_csr.specs.Support.RegisterCases.{value_of, with_value};
ghost use Rattle.rv_csr.specs.Support.Interruptible.{any_enabled};
ghost use Rattle.rv_csr.specs.Later.{later};
ghost use Rattle.rv_csr.specs.Registers as registers;
ghost use Rattle.rv_csr.specs.State.{csrs_at_reset};
ghost use Rattle.rv_csr.specs.Traps as traps;
ghost use Rattle.rv_isa.specs.Width.{bytes_of};
ghost use Rattle.rv_isa.specs.declared.op.Width.{Width};
ghost use Rattle.rv_isa.specs.declared.Lines.{Lines};
ghost use Rattle.rv_pmp.specs.Support.PermissionCache.{IsWidestOrNone};
ghost use Rattle.rv_pmp.specs.Pmp.{grants};
ghost use Rattle.rv_pmp.specs.declared.mode.Mode.{Mode};
ghost use Rattle.rv_pmp.specs.declared.mode.Mode.TheVariants.{User};

use crate::mstatus::{Mstatus, lines_word, word_lines};
use crate::register::{Register, may_read, may_write, wrote_half};
use rv_base::{high_word, low_word, with_high_word, with_low_word};
use rv_isa::{Lines, Width};
use rv_pmp::{Access, Mode, Pmp, Span};
use std::marker::Model;

/// The cause of a software interrupt: mcause's interrupt bit and code 3.
const SOFTWARE_INTERRUPT: u32 = 0x80000003;
/// The cause of a timer interrupt: code 7.
const TIMER_INTERRUPT: u32 = 0x80000007;
/// The cause of an external interrupt: code 11.
const EXTERNAL_INTERRUPT: u32 = 0x8000000B;

/// The address of mcycle.
const MCYCLE: u16 = 0xB00;
/// The address of minstret.
const MINSTRET: u16 = 0xB02;

/// The control registers of machine mode, with physical memory protection.
///
/// mepc is always a multiple of 4.
#[derive(Drop)]
pub struct Csrs {
    mstatus: Mstatus,
    /// The interrupts that are enabled.
    mie: Lines,
    /// The address of the trap handler, and in the lowest bit whether each interrupt has a handler of its
    /// own.
    mtvec: u32,
    /// A word for the trap handler.
    mscratch: u32,
    /// The address of the instruction that trapped.
    mepc: u32,
    /// The cause of the trap.
    mcause: u32,
    /// The address or the word that the cause is about, or 0.
    mtval: u32,
    /// The number of steps.
    mcycle: u64,
    /// The number of instructions that retired.
    minstret: u64,
    pmp: Pmp,
}

impl Model for Csrs {
    ghost use Rattle.std.specs.Prelude.{◌≡◌, ◌%◌};
    ghost use Rattle.rv_csr.specs.State.{CsrState};

    ghost Value = { CsrState };

    ghost view = { λ c. record {
      mstatus = c.mstatus;
      mie = c.mie;
      mtvec = c.mtvec;
      mscratch = c.mscratch;
      mepc = c.mepc;
      mcause = c.mcause;
      mtval = c.mtval;
      mcycle = c.mcycle;
      minstret = c.minstret;
      pmp = c.pmp;
    } };

    ghost invariant = { λ c. c.mepc % 4 ≡ 0 };
}

impl Csrs {
    /// Creates the registers as they are after a reset.
    pub fn new() -> Csrs
        ensures { result ≡ csrs_at_reset }
    {
        Csrs {
            mstatus: Mstatus {
                mie: false,
                mpie: false,
                mpp: Mode::User,
                mprv: false,
                tw: false,
            },
            mie: Lines {
                software: false,
                timer: false,
                external: false,
            },
            mtvec: 0,
            mscratch: 0,
            mepc: 0,
            mcause: 0,
            mtval: 0,
            mcycle: 0,
            minstret: 0,
            pmp: Pmp::new(),
        }
    }

    /// Returns a copy of the registers.
    pub fn copy(&self) -> Csrs
        ensures { result ≡ self.now }
    {
        Csrs {
            mstatus: self.mstatus,
            mie: self.mie,
            mtvec: self.mtvec,
            mscratch: self.mscratch,
            mepc: self.mepc,
            mcause: self.mcause,
            mtval: self.mtval,
            mcycle: self.mcycle,
            minstret: self.minstret,
            pmp: self.pmp.copy(),
        }
    }

    /// Reads the register at address `addr` in a mode, while the interrupt lines have the levels `lines`.
    /// Returns None if no register is there or the mode may not read it. User mode may read none.
    #[tactic(auto, using(crate::proofs::Levels::no_load, crate::proofs::Table::read_by_cases))]
    pub fn read(&self, addr: u16, mode: Mode, lines: Lines) -> Option<u32>
        ensures value { result ≡ registers.read self.now addr mode lines }
        ensures user { mode ≡ User → result ≡ None }
    {
        if !may_read(addr, mode) {
            return None;
        }
        match Register::at(addr) {
            Some(register) => Some(self.value(register, lines)),
            None => self.pmp.read_csr(addr),
        }
    }

    /// Returns the value of a register.
    fn value(&self, register: Register, lines: Lines) -> u32
        ensures { result ≡ value_of self.now lines register }
    {
        match register {
            Register::Mstatus => self.mstatus.word(),
            Register::Misa => 0x40101100,
            Register::Mie => lines_word(self.mie),
            Register::Mtvec => self.mtvec,
            Register::Mscratch => self.mscratch,
            Register::Mepc => self.mepc,
            Register::Mcause => self.mcause,
            Register::Mtval => self.mtval,
            Register::Mip => lines_word(lines),
            Register::Mcycle => low_word(self.mcycle),
            Register::Mcycleh => high_word(self.mcycle),
            Register::Minstret => low_word(self.minstret),
            Register::Minstreth => high_word(self.minstret),
            Register::Zero => 0,
        }
    }

    /// Writes the register at address `addr` in a mode. The register keeps those bits of the value that it
    /// has. Returns None, and changes nothing, if no register is there, the mode may not access it, or it is
    /// read-only.
    #[tactic(auto, using(crate::proofs::Table::write_by_cases))]
    pub fn write(&mut self, addr: u16, mode: Mode, value: u32) -> Option<()>
        ensures written { MatchOption result ((registers.write self.old addr mode value ≡ None) × (self.new ≡ self.old))
            (λ _. registers.write self.old addr mode value ≡ Some self.new) }
        ensures user { mode ≡ User → result ≡ None }
    {
        if !may_write(addr, mode) {
            return None;
        }
        match Register::at(addr) {
            Some(register) => {
                self.set_value(register, value);
                Some(())
            }
            None => self.pmp.write_csr(addr, value),
        }
    }

    /// Writes a register.
    fn set_value(&mut self, register: Register, value: u32)
        ensures { self.new ≡ with_value self.old register value }
    {
        match register {
            Register::Mstatus => self.mstatus = self.mstatus.with_word(value),
            Register::Mie => self.mie = word_lines(value),
            Register::Mtvec => self.mtvec = value / 4 * 4 + value % 2,
            Register::Mscratch => self.mscratch = value,
            Register::Mepc => self.mepc = value / 4 * 4,
            Register::Mcause => self.mcause = value,
            Register::Mtval => self.mtval = value,
            Register::Mcycle => self.mcycle = with_low_word(self.mcycle, value),
            Register::Mcycleh => self.mcycle = with_high_word(self.mcycle, value),
            Register::Minstret => self.minstret = with_low_word(self.minstret, value),
            Register::Minstreth => self.minstret = with_high_word(self.minstret, value),
            Register::Misa | Register::Mip | Register::Zero => (),
        }
    }

    /// Whether an interrupt would be taken in a mode if all lines were high: any is enabled, and in machine
    /// mode MIE is set. If not, the caller needn't ask for the lines.
    #[tactic(auto, using(crate::proofs::Pending::none_pending, crate::proofs::Pending::by_flags))]
    pub fn takes_interrupts(&self, mode: Mode) -> bool
        ensures value { result
            ≡ is_some (traps.next_interrupt self.now mode (record { software = true; timer = true; external = true })) }
        ensures none { result ≡ false → (lines : Lines) → traps.next_interrupt self.now mode lines ≡ None }
    {
        self.any_enabled(mode)
    }

    /// Whether any interrupt is enabled, and in machine mode MIE is set.
    fn any_enabled(&self, mode: Mode) -> bool
        ensures { result ≡ any_enabled self.now mode }
    {
        if !self.mstatus.mie && mode.is_machine() {
            return false;
        }
        self.mie.software || self.mie.timer || self.mie.external
    }

    /// Returns the cause of the interrupt to be taken in a mode, if any, while the interrupt lines have the
    /// levels `lines`. Of several the external interrupt comes first, then the software interrupt, then that
    /// of the timer.
    #[tactic(auto, using(crate::proofs::Pending::by_cases), unfolding(crate::specs::Support::Interruptible::pending_by_cases))]
    pub fn pending(&self, mode: Mode, lines: Lines) -> Option<u32>
        ensures { result ≡ traps.next_interrupt self.now mode lines }
    {
        if mode.is_machine() && !self.mstatus.mie {
            return None;
        }
        if lines.external && self.mie.external {
            Some(EXTERNAL_INTERRUPT)
        } else if lines.software && self.mie.software {
            Some(SOFTWARE_INTERRUPT)
        } else if lines.timer && self.mie.timer {
            Some(TIMER_INTERRUPT)
        } else {
            None
        }
    }

    /// Enters a trap from a mode: sets mcause, mepc and mtval, and moves MIE and the mode to MPIE and MPP.
    /// Returns the address of the trap handler. The caller goes on there in machine mode.
    #[tactic(auto, unfolding(crate::specs::Traps::entered, crate::specs::Traps::trap_pc))]
    pub fn enter_trap(&mut self, cause: u32, epc: u32, tval: u32, mode: Mode) -> u32
        ensures state { self.new ≡ traps.entered self.old cause epc tval mode }
        ensures pc { result ≡ traps.trap_pc self.old cause }
        ensures aligned { result % 4 ≡ 0 }
    {
        self.mstatus.mpie = self.mstatus.mie;
        self.mstatus.mie = false;
        self.mstatus.mpp = mode;
        self.mepc = epc / 4 * 4;
        self.mcause = cause;
        self.mtval = tval;
        let base = self.mtvec / 4 * 4;
        if self.mtvec % 2 == 1 && cause >= 1 << 31 {
            base.wrapping_add(cause << 2)
        } else {
            base
        }
    }

    /// Returns from a trap: restores MIE from MPIE. Returns the mode and the address at which the program
    /// goes on.
    #[tactic(auto, unfolding(crate::specs::Traps::after_return))]
    pub fn leave_trap(&mut self) -> (Mode, u32)
        ensures state { self.new ≡ traps.after_return self.old }
        ensures mode { result.0 ≡ self.old.mstatus.mpp }
        ensures pc { result.1 ≡ self.old.mepc }
        ensures aligned { result.1 % 4 ≡ 0 }
        ensures user { result.0 ≡ User → self.new.mstatus.mprv ≡ false }
    {
        let mode = self.mstatus.mpp;
        self.mstatus.mie = self.mstatus.mpie;
        self.mstatus.mpie = true;
        self.mstatus.mpp = Mode::User;
        self.mstatus.mprv = self.mstatus.mprv && mode.is_machine();
        (mode, self.mepc)
    }

    /// Returns the mode whose permissions loads and stores in a mode have: MPP if MPRV is set, else the mode
    /// itself.
    pub fn data_mode(&self, mode: Mode) -> Mode
        ensures { result ≡ traps.data_mode self.now mode }
    {
        if self.mstatus.mprv {
            self.mstatus.mpp
        } else {
            mode
        }
    }

    /// Whether WFI is illegal in user mode (TW).
    pub fn traps_wfi(&self) -> bool
        ensures { result ≡ self.now.mstatus.tw }
    {
        self.mstatus.tw
    }

    /// Counts a step. `retired` is whether its instruction retired, and `wrote` the address of the control
    /// register that it wrote, if any: a counter that the step wrote a half of keeps what was written.
    #[tactic(auto, using(crate::proofs::Table::counter_halves))]
    pub fn count(&mut self, retired: bool, wrote: Option<u16>)
        ensures { self.new ≡ registers.counted self.old retired wrote }
    {
        if !wrote_half(MCYCLE, wrote) {
            self.mcycle = self.mcycle.wrapping_add(1);
        }
        if retired && !wrote_half(MINSTRET, wrote) {
            self.minstret = self.minstret.wrapping_add(1);
        }
    }

    /// Counts a number of steps whose instructions all retired, and wrote neither counter.
    pub fn count_retired(&mut self, steps: u64)
        ensures counted { self.new ≡ later self.old steps }
        ensures cycles { self.old.mcycle < 2 ^ 64 }
        ensures retired { self.old.minstret < 2 ^ 64 }
    {
        self.mcycle = self.mcycle.wrapping_add(steps);
        self.minstret = self.minstret.wrapping_add(steps);
    }

    /// Returns bytes within which protection grants user mode all accesses of a kind: those that its
    /// permission cache keeps, the widest span round an access, or none.
    #[inline(always)]
    pub fn user_span(&self, access: Access) -> Span
        ensures granted { (first : ℕ) (w : Width) → result.first ≤ first → first + bytes_of w ≤ result.end
            → grants self.now.pmp User access first (bytes_of w) ≡ true }
        ensures widest { IsWidestOrNone self.now.pmp access result }
    {
        self.pmp.user_span(access)
    }

    /// Whether protection grants a mode an access. The permission cache may change, which no answer shows.
    #[inline(always)]
    pub fn admits(&mut self, mode: Mode, access: Access, addr: u32, width: Width) -> bool
        ensures value { result ≡ grants self.old.pmp mode access addr (bytes_of width) }
        ensures kept { self.new ≡ self.old }
    {
        self.pmp.admits(mode, access, addr, width)
    }

    /// Returns physical memory protection.
    pub fn pmp(&self) -> &Pmp
        ensures { result.now ≡ self.now.pmp }
    {
        &self.pmp
    }
}
