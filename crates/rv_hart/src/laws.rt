//! Laws of the machine: what follows from the definition of a step.
ghost use Rattle.std.specs.Prelude.{◌≡◌, ℕ, Some};
ghost use Rattle.rv_isa.specs.declared.kind.Kind.TheVariants.{Mret};
ghost use Rattle.rv_pmp.specs.declared.mode.Mode.TheVariants.{User};
ghost use Rattle.rv_csr.specs.Traps.{data_mode};
ghost use Rattle.rv_bus.specs.Access.{lines_of};
ghost use Rattle.rv_hart.specs.State.{Machine};
ghost use Rattle.rv_hart.specs.Step.{step, ticked, tries};
ghost use Rattle.rv_hart.specs.Laws.{ChangesByAccess, ChangesByTrap, IsBack, StaysPending, first_interrupt, interrupt_taken};
ghost use Rattle.rv_hart.specs.declared.trap.Outcome.TheVariants.{Trapped};

/// Law: in user mode the mode and the control registers change by traps alone, except for the counters mcycle
/// and minstret. A trap begins machine mode at the address that mtvec gives, and changes nothing else than
/// mepc, mcause, mtval and the fields of mstatus. RISC-V Privileged Architecture 20211203, sections 2.1, 3.1
/// and 3.1.7.
#[tactic(auto, using(crate::proofs::UserChanges::user_changes))]
pub fn user_mode_changes_by_traps()
    ensures { (m : Machine) → m.mode ≡ User → ChangesByTrap m (step m).0 (step m).1 }
{}

/// Law: a step leaves each device as its tick does, unless protection grants the mode whose permissions loads
/// and stores have an access to it. RISC-V Privileged Architecture 20211203, section 3.7.
#[tactic(auto, using(crate::proofs::Devices::devices_change))]
pub fn devices_change_by_access()
    ensures { (m : Machine)
        → ChangesByAccess m.csrs.pmp (data_mode m.csrs m.mode) (ticked m).bus (step m).0.bus }
{}

/// Law: a step takes at most one interrupt, once time has passed: the first in the order of their priority that
/// is pending and enabled. It takes one wherever there is one. RISC-V Privileged Architecture 20211203,
/// section 3.1.9.
#[tactic(auto, using(crate::proofs::Interrupts::first_taken))]
pub fn first_interrupt_is_taken()
    ensures { (m : Machine)
        → interrupt_taken (step m).1 ≡ first_interrupt m.csrs m.mode (lines_of (ticked m).bus) }
{}

/// Law: a step leaves an interrupt pending that is pending, also where it takes a trap, unless it loads from or
/// stores to the device that raises it. RISC-V Privileged Architecture 20211203, section 3.1.9.
#[tactic(auto, using(crate::proofs::Interrupts::stay_pending))]
pub fn interrupts_stay_pending()
    ensures { (m : Machine) → StaysPending m (step m).0 }
{}

/// Law: an MRET right after the entry of a trap goes back to the instruction that was trapped, with the mode
/// and the interrupt enable as they were, whatever the cause. RISC-V Privileged Architecture 20211203,
/// sections 3.1.6.1 and 3.3.2.
pub fn traps_return()
    ensures { (m : Machine) (cause epc tval : ℕ) → (step m).1 ≡ Trapped cause epc tval
        → tries (step m).0 ≡ Some Mret → IsBack m (step (step m).0).0 }
{}
