//! The control registers of machine mode, and the entry into traps and the return from them.
//! RISC-V Privileged Architecture 20211203, chapters 2 and 3.
#![tactic(auto)]

mod csrs;
mod mstatus;
mod register;

pub use csrs::Csrs;
pub use mstatus::Mstatus;
pub use register::Register;
