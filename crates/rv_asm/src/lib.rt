//! Assembles a source text into the image that a board boots.
//!
//! Assembly has three phases. Phase one reads each line into its labels and its statement. Phase two gives
//! each statement its address and its size, and each name its value. Phase three evaluates the expressions
//! and writes the bytes. The first phase with a faulty line ends the assembly with the fault of its first
//! faulty line.
//!
//! The language is this project's own: see docs/ASSEMBLER.md.
#![tactic(auto)]

mod assembler;
mod data;
mod extent;
mod fixup;
mod instructions;
mod kept;
mod layout;
mod listing;
mod locals;
mod notes;
mod placement;
mod rejected;
mod symbols;
mod values;

pub use assembler::{Reviewed, assemble};
pub use listing::{Listing, NearLabel, Places, list};
pub use locals::LocalLabel;
pub use notes::PlacedName;
pub use rejected::review;
pub use rv_program::{AsmFault, FaultKind, Program};
pub use values::fits;
