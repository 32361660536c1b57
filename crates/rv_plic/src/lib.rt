//! The platform-level interrupt controller (RISC-V PLIC Specification 1.0).
#![tactic(auto)]

mod edges;
mod gateway;
mod plic;
mod register;
mod set;
mod source;

pub use plic::Plic;
pub use register::PlicReg;
pub use set::SourceSet;
pub use source::Source;
