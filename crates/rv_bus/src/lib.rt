//! The bus: memory, timer, interrupt controller, serial port and halt register in one address space.
#![tactic(auto)]

mod bus;
mod locations;

pub use bus::{Bus, BusFault, Mark, StoreRefusal, Tick};
pub use locations::Location;
