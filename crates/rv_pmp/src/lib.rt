//! Privilege modes, and physical memory protection: which bytes a mode may read, write and execute.
//! RISC-V Privileged Architecture 20211203, sections 1.2 and 3.7.
//!
//! `Mode` stands here since this is the lowest crate that asks for it; all above take it from here.
#![tactic(auto)]

mod access;
mod active_entries;
mod entry;
mod mode;
mod permission_cache;
mod pmp;
mod register;
mod span;

pub use access::Access;
pub use entry::{Entry, Matching};
pub use mode::Mode;
pub use pmp::{Pmp, bytes_are_granted_alone};
pub use register::PmpRegister;
pub use span::Span;
