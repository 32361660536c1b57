//! Programs: the image that a source is assembled to and a board boots, with the names that the source
//! defines; and the faults of sources that can't be assembled.
#![tactic(auto)]

mod fault;
mod names;
mod program;

pub use fault::{AsmFault, FaultKind};
pub use names::Names;
pub use program::Program;
