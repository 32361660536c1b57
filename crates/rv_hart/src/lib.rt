//! The hart: registers, program counter, mode and control registers, and what each instruction does with
//! them, over a bus and a decoded cache.
#![tactic(auto)]

mod access;
mod burst;
mod course;
mod hart;
mod kept;
mod known;
mod laws;
mod marks;
mod plain;
mod run;
mod shortcuts;
mod trap;
mod values;
mod windows;

pub use hart::Hart;
pub use laws::{
    devices_change_by_access, first_interrupt_is_taken, interrupts_stay_pending, traps_return,
    user_mode_changes_by_traps,
};
pub use marks::{Marks, NoMarks};
pub use trap::{Outcome, Trap};
