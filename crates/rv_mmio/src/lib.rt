//! The devices that programs access by loads and stores: timer, serial port and halt register.
#![tactic(auto)]

mod buffer;
mod halt;
mod serial;
mod timer;

pub use buffer::copied_buffer;
pub use halt::Halt;
pub use serial::{Serial, SerialReg};
pub use timer::{Timer, TimerReg};
